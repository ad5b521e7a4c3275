//! Elements of a picture as text: rectangles and labels. Places and sizes are in pixels.

ghost use Rattle.std.specs.Prelude.{◌≡◌, ◌++◌, OnOk};
ghost use Rattle.std.specs.List.{flat_map};
ghost use Rattle.std.specs.Fmt.{decimal};
ghost use Rattle.dl_picture.specs.Element.{escaped, label, letter, rect};

use dl_bytes::OutOfMemory;
use itoa::{Buffer, Integer};

/// A rectangle.
#[derive(Clone, Copy, PartialEq, Eq)]
pub struct Rect {
    /// Its left side.
    pub x: u128,
    /// Its upper side.
    pub y: u128,
    /// How wide it is.
    pub width: u128,
    /// How high it is.
    pub height: u128,
}

/// Where a label stands: the left end of its line.
#[derive(Clone, Copy, PartialEq, Eq)]
pub struct Label {
    /// From the left.
    pub x: u128,
    /// From the top.
    pub y: u128,
}

/// Adds a piece, and behind it a number in decimal digits.
pub fn push_number<I: Integer>(
    text: &mut Vec<u8>,
    piece: &[u8],
    number: I,
) -> Result<(), OutOfMemory>
    ensures { OnOk result (text.new.items ≡ text.old.items ++ (piece.now ++ I.text number)) }
{
    let mut buffer = Buffer::new();
    text.extend_from_slice(piece)?;
    text.extend_from_slice(buffer.format(number).as_bytes())
}

/// Adds a letter. The three that end a text are written by their names; what is no visible letter is a question mark.
#[tactic(auto, unfolding(crate::specs::Element::letter))]
fn push_letter(text: &mut Vec<u8>, byte: u8) -> Result<(), OutOfMemory>
    ensures { OnOk result (text.new.items ≡ text.old.items ++ letter byte) }
{
    match byte {
        b'<' => text.extend_from_slice(b"&lt;"),
        b'>' => text.extend_from_slice(b"&gt;"),
        b'&' => text.extend_from_slice(b"&amp;"),
        32..=126 => text.extend_from_slice(&[byte]),
        _ => text.extend_from_slice(b"?"),
    }
}

/// Adds letters.
#[tactic(auto, unfolding(crate::specs::Element::escaped))]
pub fn push_escaped(text: &mut Vec<u8>, letters: &[u8]) -> Result<(), OutOfMemory>
    ensures { OnOk result (text.new.items ≡ text.old.items ++ escaped letters.now) }
{
    for letter in letters {
        push_letter(text, *letter)?;
    }
    Ok(())
}

/// Adds a rectangle of this colour.
#[tactic(auto, unfolding(crate::specs::Element::rect))]
pub fn push_rect(text: &mut Vec<u8>, area: Rect, colour: &[u8]) -> Result<(), OutOfMemory>
    ensures { OnOk result (text.new.items ≡ text.old.items ++ rect area colour.now) }
{
    push_number(text, b"<rect x='", area.x)?;
    push_number(text, b"' y='", area.y)?;
    push_number(text, b"' width='", area.width)?;
    push_number(text, b"' height='", area.height)?;
    text.extend_from_slice(b"' fill='")?;
    text.extend_from_slice(colour)?;
    text.extend_from_slice(b"'/>\n")
}

/// Adds a label with this style.
#[tactic(auto, unfolding(crate::specs::Element::label))]
pub fn push_label(
    text: &mut Vec<u8>,
    place: Label,
    style: &[u8],
    letters: &[u8],
) -> Result<(), OutOfMemory>
    ensures { OnOk result (text.new.items ≡ text.old.items ++ label place style.now letters.now) }
{
    push_number(text, b"<text x='", place.x)?;
    push_number(text, b"' y='", place.y)?;
    text.extend_from_slice(b"'")?;
    text.extend_from_slice(style)?;
    text.extend_from_slice(b">")?;
    push_escaped(text, letters)?;
    text.extend_from_slice(b"</text>\n")
}
