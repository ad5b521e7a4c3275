//! The arguments of a call, added to its payload. Each answers whether there was room.

ghost use Rattle.std.specs.Prelude.{◌≡◌, ◌<◌, ◌+◌, ◌++◌, length, true, false};
ghost use Rattle.dl_client.specs.Area.{held};
ghost use Rattle.dl_client.specs.Values.{HasNoRoom, text_argument, named_text_argument, raw_argument, named_raw_argument, named_bool_argument, number_argument, named_number_argument};
ghost use Rattle.dl_client_c.specs.Shapes.{format_of, shape_of, units_of};

use dl_client::{Area, Format, Kind, Shape, Units};

/// Adds a number. Its kind is 0 a truth value, 1 signed, 2 unsigned, 3 a float; its format is 0 plain, 1 hexadecimal, 2 binary.
#[unsafe(no_mangle)]
pub extern "C" fn dl_client_c_add_number(
    payload: &mut Area,
    kind: u8,
    format: u8,
    bytes: &[u8],
) -> bool
    ensures added { result ≡ true → held payload.new ≡ held payload.old ++ number_argument (shape_of kind format) bytes.now }
    ensures full { result ≡ false → length payload.old.bytes.now < length (held payload.old) + length (number_argument (shape_of kind format) bytes.now) }
    ensures same { result ≡ false → held payload.new ≡ held payload.old }
{
    dl_client::add_number(payload, shape(kind, format), bytes)
}

/// Adds a number with a name and a unit, each with its closing zero byte; one of no byte at all is none.
#[unsafe(no_mangle)]
pub extern "C" fn dl_client_c_add_named_number(
    payload: &mut Area,
    kind: u8,
    name: &[u8],
    unit: &[u8],
    bytes: &[u8],
) -> bool
    ensures added { result ≡ true → held payload.new ≡ held payload.old ++ named_number_argument (shape_of kind 0) name.now unit.now bytes.now }
    ensures full { result ≡ false → HasNoRoom payload.old (length name.now + length unit.now) (named_number_argument (shape_of kind 0) name.now unit.now bytes.now) }
    ensures same { result ≡ false → held payload.new ≡ held payload.old }
{
    dl_client::add_named_number(payload, shape(kind, 0), name, unit, bytes)
}

/// Adds a text, in UTF-8 or else in ASCII.
#[unsafe(no_mangle)]
pub extern "C" fn dl_client_c_add_text(payload: &mut Area, utf8: bool, text: &[u8]) -> bool
    ensures added { result ≡ true → held payload.new ≡ held payload.old ++ text_argument utf8 text.now }
    ensures full { result ≡ false → HasNoRoom payload.old (length text.now + 1) (text_argument utf8 text.now) }
    ensures same { result ≡ false → held payload.new ≡ held payload.old }
{
    dl_client::add_text(payload, utf8, text)
}

/// Adds a text with a name, which stands with its closing zero byte.
#[unsafe(no_mangle)]
pub extern "C" fn dl_client_c_add_named_text(
    payload: &mut Area,
    utf8: bool,
    name: &[u8],
    text: &[u8],
) -> bool
    ensures added { result ≡ true → held payload.new ≡ held payload.old ++ named_text_argument utf8 name.now text.now }
    ensures full { result ≡ false → HasNoRoom payload.old (length name.now + (length text.now + 1)) (named_text_argument utf8 name.now text.now) }
    ensures same { result ≡ false → held payload.new ≡ held payload.old }
{
    dl_client::add_named_text(payload, utf8, name, text)
}

/// Adds a truth value with a name, which stands with its closing zero byte.
#[unsafe(no_mangle)]
pub extern "C" fn dl_client_c_add_named_bool(payload: &mut Area, name: &[u8], value: bool) -> bool
    ensures added { result ≡ true → held payload.new ≡ held payload.old ++ named_bool_argument name.now value }
    ensures full { result ≡ false → HasNoRoom payload.old (length name.now) (named_bool_argument name.now value) }
    ensures same { result ≡ false → held payload.new ≡ held payload.old }
{
    dl_client::add_named_bool(payload, name, value)
}

/// Adds bytes of any meaning, to be shown as 0 plain, 1 hexadecimal, 2 binary, in units of so many bytes, or 0.
#[unsafe(no_mangle)]
pub extern "C" fn dl_client_c_add_raw(
    payload: &mut Area,
    format: u8,
    unit: usize,
    bytes: &[u8],
) -> bool
    ensures added { result ≡ true → held payload.new ≡ held payload.old ++ raw_argument (units_of format unit) bytes.now }
    ensures full { result ≡ false → HasNoRoom payload.old (length bytes.now) (raw_argument (units_of format unit) bytes.now) }
    ensures same { result ≡ false → held payload.new ≡ held payload.old }
{
    dl_client::add_raw(payload, units(format, unit), bytes)
}

/// Adds bytes of any meaning with a name, which stands with its closing zero byte, to be shown as without one.
#[unsafe(no_mangle)]
pub extern "C" fn dl_client_c_add_named_raw(
    payload: &mut Area,
    format: u8,
    unit: usize,
    name: &[u8],
    bytes: &[u8],
) -> bool
    ensures added { result ≡ true → held payload.new ≡ held payload.old ++ named_raw_argument (units_of format unit) name.now bytes.now }
    ensures full { result ≡ false → HasNoRoom payload.old (length name.now + length bytes.now) (named_raw_argument (units_of format unit) name.now bytes.now) }
    ensures same { result ≡ false → held payload.new ≡ held payload.old }
{
    dl_client::add_named_raw(payload, units(format, unit), name, bytes)
}

/// Adds a value as it is: in a payload that is not verbose.
#[unsafe(no_mangle)]
pub extern "C" fn dl_client_c_add_plain(payload: &mut Area, bytes: &[u8]) -> bool
    ensures added { result ≡ true → held payload.new ≡ held payload.old ++ bytes.now }
    ensures full { result ≡ false → length payload.old.bytes.now < length (held payload.old) + length bytes.now }
    ensures same { result ≡ false → held payload.new ≡ held payload.old }
{
    dl_client::add_plain(payload, bytes)
}

/// What a number is, by C's numbers.
fn shape(kind: u8, format: u8) -> Shape
    ensures { result ≡ shape_of kind format }
{
    Shape {
        kind: match kind {
            0 => Kind::Bool,
            1 => Kind::Signed,
            3 => Kind::Float,
            _ => Kind::Unsigned,
        },
        format: format_by(format),
    }
}

/// How bytes are to be shown, by C's numbers.
fn units(format: u8, unit: usize) -> Units
    ensures { result ≡ units_of format unit }
{
    Units {
        format: format_by(format),
        len: unit,
    }
}

/// How a value is to be shown, by C's numbers.
fn format_by(format: u8) -> Format
    ensures { result ≡ format_of format }
{
    match format {
        1 => Format::Hex,
        2 => Format::Binary,
        _ => Format::Plain,
    }
}
