//! Lines of a text, and the blanks round what they say.

ghost use Rattle.std.specs.Prelude.{◌≡◌, ◌≤◌, ◌<◌, ◌==◌, IfSome, length, option_map, position};
ghost use Rattle.dl_text.specs.Lines.{lines_of, is_blank, without_blanks_before, without_blanks_behind, trimmed, parted_at};

use bstr::{ByteSlice, Lines};

/// The most bytes of a text that is read whole: a script, a configuration or a stored configuration.
pub const SIZE_LIMIT: usize = 16_777_216;

/// The lines of a text, each without its line feed and without one carriage return before that.
pub fn lines(text: &[u8]) -> Lines<'_>
    ensures value { result ≡ lines_of text.now }
    ensures len { length result ≤ length text.now }
{
    text.lines()
}

/// Whether a byte is a blank: a space or a tab.
pub fn is_blank(byte: u8) -> bool
    ensures { result ≡ is_blank byte }
{
    byte == b' ' || byte == b'\t'
}

/// The text without the blanks at its front.
fn without_front(text: &[u8]) -> &[u8]
    ensures value { result.now ≡ without_blanks_before text.now }
    ensures len { length result.now ≤ length text.now }
{
    let mut rest = text;
    while let [b' ' | b'\t', after @ ..] = rest {
        rest = after;
    }
    rest
}

/// The text without the blanks at its end.
fn without_end(text: &[u8]) -> &[u8]
    ensures value { result.now ≡ without_blanks_behind text.now }
    ensures len { length result.now ≤ length text.now }
{
    let mut rest = text;
    while let [before @ .., b' ' | b'\t'] = rest {
        rest = before;
    }
    rest
}

/// The text without the blanks at either end.
pub fn trimmed(text: &[u8]) -> &[u8]
    ensures value { result.now ≡ trimmed text.now }
    ensures len { length result.now ≤ length text.now }
{
    without_end(without_front(text))
}

/// The place of the first byte that is the mark.
fn first(text: &[u8], mark: u8) -> Option<usize>
    ensures value { result ≡ position (λ b. b == mark) text.now }
    ensures within { IfSome result (λ n. n < length text.now) }
{
    text.iter().position(|b| *b == mark)
}

/// What stands before the first byte that is the mark, and what stands behind it.
pub fn parted_at(text: &[u8], mark: u8) -> Option<(&[u8], &[u8])>
    ensures { option_map (λ p. (p.0.now, p.1.now)) result ≡ parted_at mark text.now }
{
    let n = first(text, mark)?;
    Some((&text[..n], &text[n + 1..]))
}
