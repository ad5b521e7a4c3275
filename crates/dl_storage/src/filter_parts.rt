//! A line of `dlt_storage.cfg`, cut into its fields.

ghost use Rattle.std.specs.Prelude.{◌≡◌, ◌≤◌, IfSome, length, option_map, position};
ghost use Rattle.dl_text.specs.Lines.{is_blank};
ghost use Rattle.dl_storage.specs.FilterCutting.{field_at, field_end, parts_of};
ghost use Rattle.dl_storage.specs.FiltersHeld.{parts_held};

use dl_text::{is_blank, trimmed};

/// The fields of a filter's line.
#[derive(Clone, Copy)]
pub struct LineParts<'a> {
    /// The filter's name.
    pub name: &'a [u8],
    /// The application, or `*`.
    pub apid: &'a [u8],
    /// The context, or `*`.
    pub ctid: &'a [u8],
    /// The severity.
    pub severity: &'a [u8],
    /// The bytes of one file.
    pub size: &'a [u8],
    /// The bytes of all files.
    pub max: &'a [u8],
}

/// The place of the first blank.
fn first_blank(text: &[u8]) -> Option<usize>
    ensures value { result ≡ position is_blank text.now }
    ensures within { IfSome result (λ n. n ≤ length text.now) }
{
    text.iter().position(|b| is_blank(*b))
}

/// Where the first field ends.
fn field_end(text: &[u8]) -> usize
    ensures value { result ≡ field_end text.now }
    ensures within { result ≤ length text.now }
{
    match first_blank(text) {
        Some(place) => place,
        None => text.len(),
    }
}

/// The first field of a text, and what stands behind it.
fn field(text: &[u8]) -> Option<(&[u8], &[u8])>
    ensures { option_map (λ p. (p.0.now, p.1.now)) result ≡ field_at text.now }
{
    if text.is_empty() {
        return None;
    }
    let end = field_end(text);
    Some((&text[..end], trimmed(&text[end..])))
}

/// The fields of a line that has just six.
#[tactic(auto, unfolding(crate::specs::FilterCutting::parts_of))]
pub fn parts(line: &[u8]) -> Option<LineParts<'_>>
    ensures { option_map parts_held result ≡ parts_of line.now }
{
    let (name, rest) = field(line)?;
    let (apid, rest) = field(rest)?;
    let (ctid, rest) = field(rest)?;
    let (severity, rest) = field(rest)?;
    let (size, rest) = field(rest)?;
    let (max, rest) = field(rest)?;
    if !rest.is_empty() {
        return None;
    }
    Some(LineParts {
        name,
        apid,
        ctid,
        severity,
        size,
        max,
    })
}
