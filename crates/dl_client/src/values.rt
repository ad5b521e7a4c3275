//! The values that a call logs, as arguments of its payload. Each is added whole, or there is no room and nothing is added.

ghost use Rattle.std.specs.Prelude.{◌≡◌, ◌<◌, ◌≤◌, ◌+◌, ◌^◌, ◌==◌, ◌++◌, length, true, false, if◌then◌else◌};
ghost use Rattle.dl_client.specs.Area.{held};
ghost use Rattle.dl_client.specs.Values.{HasNoRoom, number_argument, named_number_argument, text_argument, named_text_argument, raw_argument, named_raw_argument, named_bool_argument, info_of, kind_bit, format_bits, tyle_of_len, units_bits, text_info};

use crate::area::{Area, append, room};
use crate::arguments::add_argument;

/// What a number is.
#[derive(Clone, Copy, PartialEq, Eq)]
pub enum Kind {
    /// A truth value, in one byte.
    Bool,
    /// A signed number, in two's complement.
    Signed,
    /// An unsigned number.
    Unsigned,
    /// A float of IEEE 754.
    Float,
}

/// How a number is to be shown: SCOD of its type info.
#[derive(Clone, Copy, PartialEq, Eq)]
pub enum Format {
    /// As its kind is.
    Plain,
    /// In hexadecimal.
    Hex,
    /// In binary.
    Binary,
}

/// What a number is and how it is to be shown.
#[derive(Clone, Copy)]
pub struct Shape {
    /// What it is.
    pub kind: Kind,
    /// How it is to be shown.
    pub format: Format,
}

/// How bytes of any meaning are to be shown: in a format, and in units of so many bytes.
#[derive(Clone, Copy)]
pub struct Units {
    /// The format.
    pub format: Format,
    /// 1, 2, 4, 8 or 16 bytes a unit; 0 says nothing of it.
    pub len: usize,
}

/// VARI: a name, and the unit of a number, come with the value.
const VARI: u32 = 0x800;

/// RAWD: bytes of any meaning.
const RAWD: u32 = 0x400;

/// The type info of a truth value with a name: BOOL, VARI and 8 bits.
const NAMED_BOOL: u32 = 0x811;

/// Adds a number with these bytes, the lowest first: 1, 2, 4, 8 or 16.
pub fn add_number(payload: &mut Area, shape: Shape, bytes: &[u8]) -> bool
    ensures added { result ≡ true → held payload.new ≡ held payload.old ++ number_argument shape bytes.now }
    ensures full { result ≡ false → length payload.old.bytes.now < length (held payload.old) + length (number_argument shape bytes.now) }
    ensures same { result ≡ false → held payload.new ≡ held payload.old }
    ensures size { length payload.new.bytes.now ≡ length payload.old.bytes.now }
{
    add_argument(payload, number_info(shape, bytes.len()), &[bytes])
}

/// Adds a number with a name and a unit, each with its closing zero byte; one of no byte at all is none.
pub fn add_named_number<'a>(
    payload: &mut Area,
    shape: Shape,
    name: &'a [u8],
    unit: &'a [u8],
    bytes: &'a [u8],
) -> bool
    ensures added { result ≡ true → held payload.new ≡ held payload.old ++ named_number_argument shape name.now unit.now bytes.now }
    ensures full { result ≡ false → HasNoRoom payload.old (length name.now + length unit.now) (named_number_argument shape name.now unit.now bytes.now) }
    ensures same { result ≡ false → held payload.new ≡ held payload.old }
    ensures size { length payload.new.bytes.now ≡ length payload.old.bytes.now }
{
    if name.len() > 0xffff || unit.len() > 0xffff {
        return false;
    }
    let name_size = (name.len() as u16).to_le_bytes();
    let unit_size = (unit.len() as u16).to_le_bytes();
    add_argument(
        payload,
        number_info(shape, bytes.len()) + VARI,
        &[&name_size, &unit_size, name, unit, bytes],
    )
}

/// Adds a truth value with a name, which stands with its closing zero byte.
pub fn add_named_bool<'a>(payload: &mut Area, name: &'a [u8], value: bool) -> bool
    ensures added { result ≡ true → held payload.new ≡ held payload.old ++ named_bool_argument name.now value }
    ensures full { result ≡ false → HasNoRoom payload.old (length name.now) (named_bool_argument name.now value) }
    ensures same { result ≡ false → held payload.new ≡ held payload.old }
    ensures size { length payload.new.bytes.now ≡ length payload.old.bytes.now }
{
    if name.len() > 0xffff {
        return false;
    }
    let name_size = (name.len() as u16).to_le_bytes();
    add_argument(payload, NAMED_BOOL, &[&name_size, name, &[value as u8]])
}

/// Adds a text, in UTF-8 or else in ASCII, which isn't checked.
pub fn add_text(payload: &mut Area, utf8: bool, text: &[u8]) -> bool
    ensures added { result ≡ true → held payload.new ≡ held payload.old ++ text_argument utf8 text.now }
    ensures full { result ≡ false → HasNoRoom payload.old (length text.now + 1) (text_argument utf8 text.now) }
    ensures same { result ≡ false → held payload.new ≡ held payload.old }
    ensures size { length payload.new.bytes.now ≡ length payload.old.bytes.now }
{
    if text.len() > 0xfffe {
        return false;
    }
    let size = ((text.len() + 1) as u16).to_le_bytes();
    add_argument(payload, text_info(utf8), &[&size, text, &[0]])
}

/// Adds a text with a name, which stands with its closing zero byte.
pub fn add_named_text<'a>(payload: &mut Area, utf8: bool, name: &'a [u8], text: &'a [u8]) -> bool
    ensures added { result ≡ true → held payload.new ≡ held payload.old ++ named_text_argument utf8 name.now text.now }
    ensures full { result ≡ false → HasNoRoom payload.old (length name.now + (length text.now + 1)) (named_text_argument utf8 name.now text.now) }
    ensures same { result ≡ false → held payload.new ≡ held payload.old }
    ensures size { length payload.new.bytes.now ≡ length payload.old.bytes.now }
{
    if text.len() > 0xfffe || name.len() > 0xffff {
        return false;
    }
    let size = ((text.len() + 1) as u16).to_le_bytes();
    let name_size = (name.len() as u16).to_le_bytes();
    add_argument(
        payload,
        text_info(utf8) + VARI,
        &[&size, &name_size, name, text, &[0]],
    )
}

/// Adds bytes of any meaning, to be shown in these units.
pub fn add_raw(payload: &mut Area, units: Units, bytes: &[u8]) -> bool
    ensures added { result ≡ true → held payload.new ≡ held payload.old ++ raw_argument units bytes.now }
    ensures full { result ≡ false → HasNoRoom payload.old (length bytes.now) (raw_argument units bytes.now) }
    ensures same { result ≡ false → held payload.new ≡ held payload.old }
    ensures size { length payload.new.bytes.now ≡ length payload.old.bytes.now }
{
    if bytes.len() > 0xffff {
        return false;
    }
    let size = (bytes.len() as u16).to_le_bytes();
    add_argument(payload, RAWD + units_bits(units), &[&size, bytes])
}

/// Adds bytes of any meaning with a name, which stands with its closing zero byte.
pub fn add_named_raw<'a>(payload: &mut Area, units: Units, name: &'a [u8], bytes: &'a [u8]) -> bool
    ensures added { result ≡ true → held payload.new ≡ held payload.old ++ named_raw_argument units name.now bytes.now }
    ensures full { result ≡ false → HasNoRoom payload.old (length name.now + length bytes.now) (named_raw_argument units name.now bytes.now) }
    ensures same { result ≡ false → held payload.new ≡ held payload.old }
    ensures size { length payload.new.bytes.now ≡ length payload.old.bytes.now }
{
    if bytes.len() > 0xffff || name.len() > 0xffff {
        return false;
    }
    let size = (bytes.len() as u16).to_le_bytes();
    let name_size = (name.len() as u16).to_le_bytes();
    add_argument(
        payload,
        RAWD + VARI + units_bits(units),
        &[&size, &name_size, name, bytes],
    )
}

/// Adds a value as it is, with no type info: in a payload that is not verbose.
pub fn add_plain(payload: &mut Area, bytes: &[u8]) -> bool
    ensures added { result ≡ true → held payload.new ≡ held payload.old ++ bytes.now }
    ensures full { result ≡ false → length payload.old.bytes.now < length (held payload.old) + length bytes.now }
    ensures same { result ≡ false → held payload.new ≡ held payload.old }
    ensures size { length payload.new.bytes.now ≡ length payload.old.bytes.now }
{
    if room(payload) < bytes.len() {
        return false;
    }
    append(payload, bytes);
    true
}

/// The type info of a number.
fn number_info(shape: Shape, len: usize) -> u32
    ensures value { result ≡ info_of shape len }
    ensures limit { result < 2 ^ 31 }
{
    kind_bit(shape.kind) + format_bits(shape.format) + tyle_of_len(len)
}

/// BOOL, SINT, UINT or FLOA.
fn kind_bit(kind: Kind) -> u32
    ensures value { result ≡ kind_bit kind }
    ensures limit { result < 256 }
{
    match kind {
        Kind::Bool => 0x10,
        Kind::Signed => 0x20,
        Kind::Unsigned => 0x40,
        Kind::Float => 0x80,
    }
}

/// SCOD of a number: 2 is hexadecimal, 3 is binary.
fn format_bits(format: Format) -> u32
    ensures value { result ≡ format_bits format }
    ensures limit { result ≤ 0x1_8000 }
{
    match format {
        Format::Plain => 0,
        Format::Hex => 0x1_0000,
        Format::Binary => 0x1_8000,
    }
}

/// SCOD and TYLE of units.
fn units_bits(units: Units) -> u32
    ensures value { result ≡ units_bits units }
    ensures limit { result < 2 ^ 17 }
{
    format_bits(units.format) + unit_tyle(units.len)
}

/// TYLE of a unit, or none.
fn unit_tyle(len: usize) -> u32
    ensures value { result ≡ if len == 0 then 0 else tyle_of_len len }
    ensures limit { result < 16 }
{
    if len == 0 { 0 } else { tyle_of_len(len) }
}

/// TYLE of a number with this many bytes: 1 for 8 bits to 5 for 128 bits.
fn tyle_of_len(len: usize) -> u32
    ensures value { result ≡ tyle_of_len len }
    ensures limit { result < 16 }
{
    match len {
        1 => 1,
        2 => 2,
        4 => 3,
        8 => 4,
        _ => 5,
    }
}

/// STRG with the coding of the text: 1 is UTF-8, 0 is ASCII.
fn text_info(utf8: bool) -> u32
    ensures value { result ≡ text_info utf8 }
    ensures limit { result < 2 ^ 16 }
{
    if utf8 { 0x8200 } else { 0x200 }
}
