//! Arguments of a message.

ghost use Rattle.std.specs.Prelude.{◌≡◌, ◌++◌, length, true};
ghost use Rattle.dl_client.specs.Area.{held};
ghost use Rattle.dl_own_log.specs.Parts.{number, part_argument, parts_payload, text};

use dl_bytes::Id;
use dl_client::{Area, Format, Kind, Shape, add_number, add_text};

/// One argument of a message.
#[derive(Clone, Copy)]
pub enum Part {
    /// A text in ASCII.
    Word(&'static [u8]),
    /// An id as a text of four bytes.
    Name(Id),
    /// A number of 64 bits, without a sign.
    Number(u64),
}

/// What a number is, and how it is shown.
const NUMBER: Shape = Shape {
    kind: Kind::Unsigned,
    format: Format::Plain,
};

/// Adds an argument, where there is room for it.
fn push_part(payload: &mut Area, part: &Part) -> bool
    ensures added { result ≡ true → held payload.new ≡ held payload.old ++ part_argument part.now }
    ensures size { length payload.new.bytes.now ≡ length payload.old.bytes.now }
{
    match *part {
        Part::Word(word) => add_text(payload, false, word),
        Part::Name(id) => add_text(payload, false, &id.bytes()),
        Part::Number(number) => add_number(payload, NUMBER, &number.to_le_bytes()),
    }
}

/// Adds arguments, one behind the other, as far as there is room. Answers whether there was room for all.
pub fn push_parts(payload: &mut Area, parts: &[Part]) -> bool
    ensures { result ≡ true → held payload.new ≡ held payload.old ++ parts_payload parts.now }
{
    for part in parts {
        if !push_part(payload, part) {
            return false;
        }
    }
    true
}
