//! Which lines of a script say something.

ghost use Rattle.std.specs.Prelude.{◌≡◌, ◌++◌, IfOk, OnOk};
ghost use Rattle.std.specs.List.{list_all};
ghost use Rattle.dl_script.specs.Line.{is_ignored};
ghost use Rattle.dl_text.specs.Lines.{is_blank, lines_of};
ghost use Rattle.dl_fates.specs.Lines.{number_of, numbers_from};

use dl_bytes::OutOfMemory;
use dl_text::{is_blank, lines};
use std::alloc::Global;

/// Whether all bytes are blanks.
fn is_empty(line: &[u8]) -> bool
    ensures { result ≡ list_all is_blank line.now }
{
    line.iter().all(|b| is_blank(*b))
}

/// Whether a line says nothing: a comment, or blanks alone.
fn says_nothing(line: &[u8]) -> bool
    ensures { result ≡ is_ignored line.now }
{
    match line {
        [b'#', ..] => true,
        _ => is_empty(line),
    }
}

/// Adds the number of a line that says something.
fn push_number(numbers: &mut Vec<u64>, number: u64, line: &[u8]) -> Result<(), OutOfMemory>
    ensures { OnOk result (numbers.new.items ≡ numbers.old.items ++ number_of number line.now) }
{
    if !says_nothing(line) {
        numbers.push(number)?;
    }
    Ok(())
}

/// The numbers of the lines that say something, from 1.
pub fn numbers_in(alloc: Global, text: &[u8]) -> Result<Vec<u64>, OutOfMemory>
    ensures { IfOk result (λ numbers. numbers.items ≡ numbers_from 1 (lines_of text.now)) }
{
    let mut numbers = Vec::new(alloc);
    let mut number = 0;
    for line in lines(text) {
        number += 1;
        push_number(&mut numbers, number, line)?;
    }
    Ok(numbers)
}
