//! Ids as text, both ways: an id that is no name can be printed, and read again.

ghost use Rattle.std.specs.Prelude.{◌≡◌, ◌≤◌, ◌<◌, ◌++◌, OnOk, IfSome, option_map, slice_index};
ghost use Rattle.std.specs.List.{flat_map};
ghost use Rattle.hex.specs.Hex.{upper_digits, hex_digit_value};
ghost use Rattle.dl_text.specs.IdText.{stands_alone, byte_text, name_of, id_text, escaped_at, byte_at, id_of_text};

use dl_bytes::{Id, OutOfMemory};

/// Whether a byte of an id is written as itself.
fn stands_alone(byte: u8) -> bool
    ensures { result ≡ stands_alone byte }
{
    0x21 <= byte && byte <= 0x7e && byte != b':' && byte != b'%'
}

/// A hexadecimal digit, in upper case.
fn digit(n: u8) -> u8
    requires { n < 16 }
    ensures { result ≡ slice_index upper_digits n }
{
    b"0123456789ABCDEF"[n as usize]
}

/// Adds a byte of an id.
fn push_byte(text: &mut Vec<u8>, byte: u8) -> Result<(), OutOfMemory>
    ensures { OnOk result (text.new.items ≡ text.old.items ++ byte_text byte) }
{
    if stands_alone(byte) {
        text.extend_from_slice(&[byte])
    } else {
        text.extend_from_slice(&[b'%', digit(byte / 16), digit(byte % 16)])
    }
}

/// The bytes up to the last that isn't zero.
fn name(bytes: &[u8]) -> &[u8]
    ensures { result.now ≡ name_of bytes.now }
{
    let mut name = bytes;
    while let [before @ .., 0] = name {
        name = before;
    }
    name
}

/// Adds an id as text: a visible letter as itself, but for `:` and `%`; any other byte as `%` and two hexadecimal
/// digits. Zero bytes at its end are left out, so the text of the zero id is empty.
pub fn push_id(text: &mut Vec<u8>, id: &Id) -> Result<(), OutOfMemory>
    ensures { OnOk result (text.new.items ≡ text.old.items ++ id_text id.now) }
{
    let bytes = id.bytes();
    for byte in name(&bytes) {
        push_byte(text, *byte)?;
    }
    Ok(())
}

/// The value of a hexadecimal digit, of either case.
fn value(digit: u8) -> Option<u8>
    ensures value { result ≡ hex_digit_value digit }
    ensures range { IfSome result (λ n. n < 16) }
{
    match digit {
        b'A'..=b'F' => Some(digit - b'A' + 10),
        b'a'..=b'f' => Some(digit - b'a' + 10),
        b'0'..=b'9' => Some(digit - b'0'),
        _ => None,
    }
}

/// The byte of the two hexadecimal digits at the front, and what stands behind them.
fn escaped(text: &[u8]) -> Option<(u8, &[u8])>
    ensures { option_map (λ r. (r.0, r.1.now)) result ≡ escaped_at text.now }
{
    match text {
        [high, low, rest @ ..] => Some((value(*high)? * 16 + value(*low)?, rest)),
        _ => None,
    }
}

/// The byte at the front of an id's text, and what stands behind it; zero at the end of the text.
#[tactic(auto, unfolding(crate::specs::IdText::byte_at))]
fn front(text: &[u8]) -> Option<(u8, &[u8])>
    ensures { option_map (λ r. (r.0, r.1.now)) result ≡ byte_at text.now }
{
    match text {
        [] => Some((0, text)),
        [b'%', rest @ ..] => escaped(rest),
        [byte, rest @ ..] if stands_alone(*byte) => Some((*byte, rest)),
        _ => None,
    }
}

/// The id that a text stands for: at most four bytes, with hexadecimal digits of either case; any byte may be written
/// with them. The empty text stands for the zero id.
#[tactic(auto, unfolding(crate::specs::IdText::id_of_text))]
pub fn read_id(text: &[u8]) -> Option<Id>
    ensures { result ≡ id_of_text text.now }
{
    let (a, rest) = front(text)?;
    let (b, rest) = front(rest)?;
    let (c, rest) = front(rest)?;
    let (d, rest) = front(rest)?;
    if rest.is_empty() {
        Some(Id::from_bytes([a, b, c, d]))
    } else {
        None
    }
}
