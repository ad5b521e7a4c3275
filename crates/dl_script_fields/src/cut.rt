//! A line of a script, cut into fields.

ghost use Rattle.std.specs.Prelude.{◌≡◌, true, false, not, ◌≤◌, ◌<◌, ◌+◌, IfSome, IfOk, Some, None, option_map, length, drop, if◌then◌else◌};
ghost use Rattle.std.specs.List.{list_any, position};
ghost use Rattle.std.specs.Option.{option_and_then};
ghost use Rattle.std.specs.Str.{IsCharBoundary};
ghost use Rattle.dl_text.specs.Lines.{is_blank, without_blanks_before};
ghost use Rattle.dl_script_fields.specs.Argument.{is_escapable};
ghost use Rattle.dl_script_fields.specs.Fields.{worded, quoted_len, is_end, field_len, fields_of, texts};

use crate::argument::behind_quote;
use dl_bytes::OutOfMemory;
use dl_text::is_blank;
use std::alloc::Global;

/// The place of the first blank.
fn first_blank(text: &[u8]) -> Option<usize>
    ensures value { result ≡ position is_blank text.now }
    ensures within { IfSome result (λ n. n ≤ length text.now) }
{
    text.iter().position(|b| *b <= b' ' && is_blank(*b))
}

/// The place of the first byte that is no blank.
fn first_letter(text: &[u8]) -> Option<usize>
    ensures value { result ≡ position (λ b. not (is_blank b)) text.now }
    ensures within { IfSome result (λ n. n ≤ length text.now) }
{
    text.iter().position(|b| !is_blank(*b))
}

/// The text without the blanks at its front.
#[tactic(auto, using(crate::proofs::Boundaries::behind_them))]
fn skip_blanks(text: &str) -> &str
    ensures value { result.now ≡ without_blanks_before text.now }
    ensures within { length result.now ≤ length text.now }
{
    let blanks = first_letter(text.as_bytes()).unwrap_or(text.len());
    &text[blanks..]
}

/// A line's word, up to the first blank, and what stands behind it.
#[tactic(auto, using(crate::proofs::Boundaries::word_end))]
pub fn worded(line: &str) -> (&str, &str)
    ensures word { result.0.now ≡ (worded line.now).0 }
    ensures rest { result.1.now ≡ (worded line.now).1 }
{
    let text = skip_blanks(line);
    let end = first_blank(text.as_bytes()).unwrap_or(text.len());
    text.split_at(end)
}

/// The length of a quoted text behind its first quote, its closing quote included, byte by byte.
fn escaped_len(text: &[u8]) -> Option<usize>
    ensures value { result ≡ quoted_len false text.now }
    ensures within { IfSome result (λ n. (0 < n) × (n ≤ length text.now)) }
{
    let mut escaped = false;
    for (i, b) in text.iter().enumerate() {
        if escaped {
            if *b != b'"' && *b != b'\\' {
                return None;
            }
            escaped = false;
        } else if *b == b'"' {
            return Some(i + 1);
        } else {
            escaped = *b == b'\\';
        }
    }
    None
}

/// Whether a byte is one that no text in quotes holds bare: a quote or a backslash.
fn is_mark(byte: u8) -> bool
    ensures { result ≡ is_escapable byte }
{
    byte == b'"' || byte == b'\\'
}

/// Whether a quote or a backslash is among these bytes. It looks at all of them, so that the compiler makes vector code.
fn has_mark(piece: &[u8; 16]) -> bool
    ensures { result ≡ list_any is_escapable piece.now }
{
    let mut found = false;
    for byte in piece {
        found |= is_mark(*byte);
    }
    found
}

/// The place of the first quote or backslash, byte by byte.
fn first_mark_near(text: &[u8]) -> Option<usize>
    ensures value { result ≡ position is_escapable text.now }
    ensures within { IfSome result (λ n. n < length text.now) }
{
    text.iter().position(|byte| is_mark(*byte))
}

/// The place of the first quote or backslash.
pub fn first_mark(text: &[u8]) -> Option<usize>
    ensures value { result ≡ position is_escapable text.now }
    ensures within { IfSome result (λ n. n < length text.now) }
{
    let mut passed = 0;
    let mut rest = text;
    while let Some((piece, behind)) = rest.split_first_chunk::<16>() {
        if has_mark(piece) {
            break;
        }
        passed += 16;
        rest = behind;
    }
    let place = first_mark_near(rest)?;
    Some(passed + place)
}

/// The length of a quoted text behind its first quote, its closing quote included.
pub fn closing_quote(quoted: &str) -> Option<usize>
    ensures value { result ≡ quoted_len false quoted.now }
    ensures within { IfSome result (λ n. (0 < n) × (n ≤ length quoted.now)) }
{
    let bytes = quoted.as_bytes();
    let place = first_mark(bytes)?;
    if bytes[place] == b'\\' {
        return escaped_len(bytes);
    }
    Some(place + 1)
}

/// Whether a field ends where this text begins.
fn ends_field(text: &[u8]) -> bool
    ensures { result ≡ is_end text.now }
{
    match text {
        [] => true,
        [b, ..] => is_blank(*b),
    }
}

/// The length of a quoted field behind its first quote.
fn quoted_field(quoted: &str) -> Option<usize>
    ensures value { result ≡ option_and_then (λ n. if is_end (drop n quoted.now) then Some n else None) (quoted_len false quoted.now) }
    ensures within { IfSome result (λ n. n ≤ length quoted.now) }
    ensures ends { IfSome result (λ n. is_end (drop n quoted.now) ≡ true) }
{
    let n = closing_quote(quoted)?;
    let rest = quoted.as_bytes();
    if ends_field(&rest[n..]) {
        Some(n)
    } else {
        None
    }
}

/// The length of the field at the front of a text.
#[tactic(auto, unfolding(crate::specs::Fields::field_len))]
fn front_field(text: &str) -> Option<usize>
    ensures value { result ≡ field_len text.now }
    ensures within { IfSome result (λ n. (0 < n) × (n ≤ length text.now)) }
    ensures boundary { IfSome result (IsCharBoundary text.now) }
{
    if let Some(quoted) = behind_quote(text) {
        return Some(quoted_field(quoted)? + 1);
    }
    match text.as_bytes() {
        [] => None,
        [_, rest @ ..] => Some(first_blank(rest).unwrap_or(rest.len()) + 1),
    }
}

/// Puts the fields of a line, each as it stands there, into a list in place of what it held. The answer is false where a
/// quoted one is broken; then the list holds those before it. One list serves many lines, so that memory is taken once.
pub fn cut_into<'a>(fields: &mut Vec<&'a str>, line: &'a str) -> Result<bool, OutOfMemory>
    ensures { IfOk result (λ whole. (if whole then Some (texts fields.new.items) else None) ≡ fields_of line.now) }
{
    fields.clear();
    let mut text = line;
    loop {
        let rest = skip_blanks(text);
        if rest.is_empty() {
            return Ok(true);
        }
        let Some(len) = front_field(rest) else {
            return Ok(false);
        };
        let (field, after) = rest.split_at(len);
        fields.push(field)?;
        text = after;
    }
}

/// The fields of a line, each as it stands there; none where a quoted one is broken.
pub fn fields(alloc: Global, line: &str) -> Result<Option<Vec<&str>>, OutOfMemory>
    ensures { IfOk result (λ found. option_map (λ v. texts v.items) found ≡ fields_of line.now) }
{
    let mut fields = Vec::new(alloc);
    if cut_into(&mut fields, line)? {
        Ok(Some(fields))
    } else {
        Ok(None)
    }
}
