//! The names of trace files.

ghost use Rattle.std.specs.Prelude.{◌≡◌, ◌≤◌, ◌<◌, ◌+◌, ◌/◌, ◌%◌, ◌++◌, ℕ, Some, IfOk, IfSome, codes};
ghost use Rattle.std.specs.Str.{IsAscii};
ghost use Rattle.dl_model.specs.TraceFiles.{number_limit, six_digits, trace_name};

use dl_bytes::OutOfMemory;
use std::alloc::Global;
use std::str::from_utf8;

/// The greatest number of a trace file: a name has six digits.
pub const NUMBER_LIMIT: u32 = 999_999;

/// What stands between a directory and a file's number.
const FRONT: &[u8] = b"/dlt_offlinetrace.";

/// What stands behind the number.
const END: &[u8] = b".dlt";

/// A digit of a number: how many times it has the power, of ten.
fn digit(number: u32, power: u32) -> u8
    requires { 0 < power }
    ensures { result ≡ 48 + number / power % 10 }
{
    b'0' + (number / power % 10) as u8
}

/// What the names of trace files in a directory begin with.
pub fn name_front(alloc: Global, directory: &[u8]) -> Result<Vec<u8>, OutOfMemory>
    ensures { IfOk result (λ front. front.items ≡ directory.now ++ codes "/dlt_offlinetrace.") }
{
    let mut front = Vec::from_slice(alloc, directory)?;
    front.extend_from_slice(FRONT)?;
    Ok(front)
}

/// The name of the trace file with this number.
pub fn file_name(alloc: Global, directory: &[u8], number: u32) -> Result<Vec<u8>, OutOfMemory>
    ensures { IfOk result (λ name. name.items ≡ trace_name directory.now number) }
{
    let mut name = name_front(alloc, directory)?;
    let digits = [
        digit(number, 100_000),
        digit(number, 10_000),
        digit(number, 1_000),
        digit(number, 100),
        digit(number, 10),
        digit(number, 1),
    ];
    name.extend_from_slice(&digits)?;
    name.extend_from_slice(END)?;
    Ok(name)
}

/// The value of a decimal digit.
fn digit_value(letter: u8) -> Option<u32>
    ensures found { IfSome result (λ value. (value < 10) × (letter ≡ 48 + value)) }
    ensures only { (value : ℕ) → value < 10 → letter ≡ 48 + value → result ≡ Some value }
{
    match letter {
        b'0'..=b'9' => Some((letter - b'0') as u32),
        _ => None,
    }
}

/// The number that six decimal digits spell.
fn number_in(digits: &[u8]) -> Option<u32>
    ensures found { IfSome result (λ number. (number ≤ number_limit) × (digits.now ≡ six_digits number)) }
    ensures only { (number : ℕ) → number ≤ number_limit → digits.now ≡ six_digits number → result ≡ Some number }
{
    let [a, b, c, d, e, f] = digits else {
        return None;
    };
    let high = digit_value(*a)? * 100 + digit_value(*b)? * 10 + digit_value(*c)?;
    let low = digit_value(*d)? * 100 + digit_value(*e)? * 10 + digit_value(*f)?;
    Some(high * 1000 + low)
}

/// The number of a trace file, by its name and what the names of its directory begin with. Number 0 is none.
pub fn number_of(front: &[u8], name: &[u8]) -> Option<u32>
    ensures found { IfSome result (λ number. (1 ≤ number) × (number ≤ number_limit) × (name.now ≡ front.now ++ six_digits number ++ codes ".dlt")) }
    ensures only { (number : ℕ) → 1 ≤ number → number ≤ number_limit → name.now ≡ front.now ++ six_digits number ++ codes ".dlt" → result ≡ Some number }
{
    let spelled = name.strip_prefix(front)?.strip_suffix(END)?;
    let number = number_in(spelled)?;
    if number == 0 {
        return None;
    }
    Some(number)
}

/// A name of ASCII letters as text.
pub fn as_text(name: &[u8]) -> &str
    requires { IsAscii name.now }
    ensures { result.now ≡ name.now }
{
    match from_utf8(name) {
        Ok(text) => text,
        Err(_) => unreachable!(),
    }
}
