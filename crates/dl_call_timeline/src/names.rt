//! What is written beside rows and above columns.

ghost use Rattle.std.specs.Prelude.{◌≡◌, ◌++◌, IfOk, OnOk, map};
ghost use Rattle.std.specs.List.{range_with_len};
ghost use Rattle.std.specs.Fmt.{decimal};
ghost use Rattle.dl_call_timeline.specs.Names.{column_name, digit, filtered_words, missing_words, name_text, note_text, time_text, title_of};

use crate::scale::Scale;
use dl_bytes::{Id, OutOfMemory};
use dl_picture::Bin;
use dl_text::push_id;
use itoa::{Buffer, Integer};
use std::alloc::Global;

/// Adds a label, and behind it a number in decimal digits.
fn push_number<I: Integer>(text: &mut Vec<u8>, label: &[u8], number: I) -> Result<(), OutOfMemory>
    ensures { OnOk result (text.new.items ≡ text.old.items ++ (label.now ++ I.text number)) }
{
    let mut buffer = Buffer::new();
    text.extend_from_slice(label)?;
    text.extend_from_slice(buffer.format(number).as_bytes())
}

/// The last decimal digit of a number.
fn digit(number: u128) -> u8
    ensures { result ≡ digit number }
{
    b'0' + (number % 10) as u8
}

/// Adds a time in seconds. It is given in units of 0.1 ms.
fn push_time(text: &mut Vec<u8>, ticks: u128) -> Result<(), OutOfMemory>
    ensures { OnOk result (text.new.items ≡ text.old.items ++ time_text ticks) }
{
    push_number(text, b"", ticks / 10000)?;
    let digits = [
        b'.',
        digit(ticks / 1000),
        digit(ticks / 100),
        digit(ticks / 10),
        digit(ticks),
    ];
    text.extend_from_slice(&digits)
}

/// Adds the name of a writer: its session.
pub fn push_name(text: &mut Vec<u8>, ecu: &Id, apid: &Id, number: u64) -> Result<(), OutOfMemory>
    ensures { OnOk result (text.new.items ≡ text.old.items ++ name_text ecu.now apid.now number) }
{
    push_id(text, ecu)?;
    text.extend_from_slice(b" ")?;
    push_id(text, apid)?;
    push_number(text, b" ", number)
}

/// Adds how many calls are missing.
fn push_missing(text: &mut Vec<u8>, count: u64) -> Result<(), OutOfMemory>
    ensures { OnOk result (text.new.items ≡ text.old.items ++ missing_words count) }
{
    if count == 0 {
        return text.extend_from_slice(b", no hole");
    }
    push_number(text, b", ", count)?;
    text.extend_from_slice(b" missing")
}

/// Adds how many calls were filtered, where some were.
fn push_filtered(text: &mut Vec<u8>, count: u64) -> Result<(), OutOfMemory>
    ensures { OnOk result (text.new.items ≡ text.old.items ++ filtered_words count) }
{
    if count == 0 {
        return Ok(());
    }
    push_number(text, b", ", count)?;
    text.extend_from_slice(b" filtered")
}

/// Adds what all calls of a writer count.
pub fn push_note(text: &mut Vec<u8>, total: &Bin) -> Result<(), OutOfMemory>
    ensures { OnOk result (text.new.items ≡ text.old.items ++ note_text total.now) }
{
    push_number(text, b"", total.messages)?;
    text.extend_from_slice(b" there")?;
    push_missing(text, total.missing)?;
    push_filtered(text, total.filtered)
}

/// What is said of the picture.
pub fn title(scale: &Scale) -> &'static [u8]
    ensures { result.now ≡ title_of scale.now.timed }
{
    if scale.timed {
        b"Log calls by time, in seconds"
    } else {
        b"Log calls by their lines in the script"
    }
}

/// The name of a column: the time or the line with which it begins.
fn column_name(alloc: Global, scale: &Scale, column: u8) -> Result<Vec<u8>, OutOfMemory>
    ensures { IfOk result (λ name. name.items ≡ column_name scale.now column) }
{
    let mut name = Vec::new(alloc);
    let start = scale.axis.start(column);
    if scale.timed {
        push_time(&mut name, start)?;
    } else {
        push_number(&mut name, b"", start)?;
    }
    Ok(name)
}

/// The names of the columns.
pub fn column_names(alloc: Global, scale: &Scale) -> Result<Vec<Vec<u8>>, OutOfMemory>
    ensures { IfOk result (λ names. map (λ name. name.items) names.items ≡ map (column_name scale.now) (range_with_len 0 120)) }
{
    let mut names = Vec::new(alloc);
    for column in 0..120 {
        let name = column_name(alloc, scale, column)?;
        names.push(name)?;
    }
    Ok(names)
}
