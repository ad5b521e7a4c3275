//! Numbers in decimal digits.

ghost use Rattle.std.specs.Prelude.{◌≡◌};
ghost use Rattle.std.specs.Char.{is_ascii_digit};
ghost use Rattle.std.specs.List.{list_all};
ghost use Rattle.dl_text.specs.Decimal.{number_of};

use std::str::from_utf8;

/// Whether all bytes are decimal digits.
fn are_digits(text: &[u8]) -> bool
    ensures { result ≡ list_all is_ascii_digit text.now }
{
    text.iter().all(|b| b.is_ascii_digit())
}

/// The number that the text stands for, where it is one or more decimal digits. Zeros may stand before it, a sign may
/// not. There is none for a number of 2^64 or more.
pub fn number(text: &[u8]) -> Option<u64>
    ensures { result ≡ number_of text.now }
{
    if !are_digits(text) {
        return None;
    }
    let Ok(text) = from_utf8(text) else {
        return None;
    };
    text.parse().ok()
}
