//! Adding arguments to a payload. Each value has one spelling, with its lowest byte first.

ghost use Rattle.std.specs.Prelude.{◌≡◌, ◌↔◌, ◌<◌, ◌≤◌, ◌^◌, ◌+◌, [], ◌∷◌, map, length, IsTrue, true, MatchResult, FitsSigned, Some, None};
ghost use Rattle.std.specs.List.{concat};
ghost use Rattle.byteorder.specs.Endian.{little_bytes};
ghost use Rattle.dl_args.specs.Width.{byte_count, int_type, tyle_of};
ghost use Rattle.dl_args.specs.Argument.{Adds, argument, joined, named_number, number, written};
ghost use Rattle.dl_args.specs.declared.arg.Arg.TheVariants as arg;

use crate::arg::PayloadFull;
use crate::type_info::{BOOL, RAWD, SINT, STRG, TYLE_8, UINT, UTF8, VARI};
use crate::width::Width;
use dl_bytes::{ARGS_LIMIT, Payload};

/// The zero byte that closes a text, a name and a unit.
const CLOSING: &[u8] = &[0];

/// Adds a truth value.
pub fn add_bool(payload: &mut Payload, value: bool) -> Result<(), PayloadFull>
    ensures { Adds (written (arg.Bool None value)) result payload.old payload.new }
{
    append(payload, BOOL + TYLE_8, &[&[u8::from(value)]])
}

/// Adds a signed number.
pub fn add_sint(payload: &mut Payload, width: Width, value: i128) -> Result<(), PayloadFull>
    requires { FitsSigned (int_type width) value }
    ensures { Adds (written (arg.Sint None None width value)) result payload.old payload.new }
{
    append_number(payload, SINT, width, value.cast_unsigned())
}

/// Adds an unsigned number.
pub fn add_uint(payload: &mut Payload, width: Width, value: u128) -> Result<(), PayloadFull>
    requires { value < 256 ^ byte_count width }
    ensures { Adds (written (arg.Uint None None width value)) result payload.old payload.new }
{
    append_number(payload, UINT, width, value)
}

/// Adds a text.
pub fn add_text(payload: &mut Payload, text: &str) -> Result<(), PayloadFull>
    ensures { Adds (written (arg.Text None text.now true)) result payload.old payload.new }
{
    let size = size_bytes(text.len() + 1)?;
    append(payload, STRG + UTF8, &[&size, text.as_bytes(), CLOSING])
}

/// Adds bytes of any meaning.
pub fn add_raw(payload: &mut Payload, bytes: &[u8]) -> Result<(), PayloadFull>
    ensures { Adds (written (arg.Raw None bytes.now)) result payload.old payload.new }
{
    let size = size_bytes(bytes.len())?;
    append(payload, RAWD, &[&size, bytes])
}

/// Adds a truth value with a name.
pub fn add_named_bool(payload: &mut Payload, name: &str, value: bool) -> Result<(), PayloadFull>
    ensures { Adds (written (arg.Bool (Some name.now) value)) result payload.old payload.new }
{
    let size = size_bytes(name.len() + 1)?;
    let value = [u8::from(value)];
    append(
        payload,
        BOOL + VARI + TYLE_8,
        &[&size, name.as_bytes(), CLOSING, &value],
    )
}

/// Adds a signed number with a name and a unit.
pub fn add_named_sint(
    payload: &mut Payload,
    name: &str,
    unit: &str,
    width: Width,
    value: i128,
) -> Result<(), PayloadFull>
    requires { FitsSigned (int_type width) value }
    ensures { Adds (written (arg.Sint (Some name.now) (Some unit.now) width value)) result payload.old payload.new }
{
    append_named_number(payload, SINT, name, unit, width, value.cast_unsigned())
}

/// Adds an unsigned number with a name and a unit.
pub fn add_named_uint(
    payload: &mut Payload,
    name: &str,
    unit: &str,
    width: Width,
    value: u128,
) -> Result<(), PayloadFull>
    requires { value < 256 ^ byte_count width }
    ensures { Adds (written (arg.Uint (Some name.now) (Some unit.now) width value)) result payload.old payload.new }
{
    append_named_number(payload, UINT, name, unit, width, value)
}

/// Adds a text with a name.
pub fn add_named_text(payload: &mut Payload, name: &str, text: &str) -> Result<(), PayloadFull>
    ensures { Adds (written (arg.Text (Some name.now) text.now true)) result payload.old payload.new }
{
    let text_size = size_bytes(text.len() + 1)?;
    let name_size = size_bytes(name.len() + 1)?;
    let (text, name) = (text.as_bytes(), name.as_bytes());
    append(
        payload,
        STRG + VARI + UTF8,
        &[&text_size, &name_size, name, CLOSING, text, CLOSING],
    )
}

/// Adds bytes of any meaning with a name.
pub fn add_named_raw(payload: &mut Payload, name: &str, bytes: &[u8]) -> Result<(), PayloadFull>
    ensures { Adds (written (arg.Raw (Some name.now) bytes.now)) result payload.old payload.new }
{
    let size = size_bytes(bytes.len())?;
    let name_size = size_bytes(name.len() + 1)?;
    append(
        payload,
        RAWD + VARI,
        &[&size, &name_size, name.as_bytes(), CLOSING, bytes],
    )
}

/// Adds a number, of which its width has the lowest bytes. One of 64 bits or fewer has them in a word.
fn append_number(
    payload: &mut Payload,
    kind: u32,
    width: Width,
    value: u128,
) -> Result<(), PayloadFull>
    requires { kind < 2 ^ 12 }
    ensures { Adds (argument (kind + tyle_of width) (number width value ∷ [])) result payload.old payload.new }
{
    let info = kind + width.tyle();
    let len = width.byte_count();
    match u64::try_from(value) {
        Ok(low) if len <= 8 => append(payload, info, &[&low.to_le_bytes()[..len]]),
        _ => append(payload, info, &[&value.to_le_bytes()[..len]]),
    }
}

/// The same with a name and a unit.
fn append_named_number(
    payload: &mut Payload,
    kind: u32,
    name: &str,
    unit: &str,
    width: Width,
    value: u128,
) -> Result<(), PayloadFull>
    requires { kind < 2 ^ 12 }
    ensures { Adds (argument (kind + 0x800 + tyle_of width) (named_number name.now unit.now (number width value))) result payload.old payload.new }
{
    let name_size = size_bytes(name.len() + 1)?;
    let unit_size = size_bytes(unit.len() + 1)?;
    let (name, unit) = (name.as_bytes(), unit.as_bytes());
    let bytes = value.to_le_bytes();
    let value = &bytes[..width.byte_count()];
    append(
        payload,
        kind + VARI + width.tyle(),
        &[&name_size, &unit_size, name, CLOSING, unit, CLOSING, value],
    )
}

/// A length in two bytes. A longer one fits no payload.
fn size_bytes(len: usize) -> Result<[u8; 2], PayloadFull>
    ensures { MatchResult result (λ bytes. bytes ≡ little_bytes 2 len) (λ _. 2 ^ 16 ≤ len) }
{
    match u16::try_from(len) {
        Ok(len) => Ok(len.to_le_bytes()),
        Err(_) => Err(PayloadFull),
    }
}

/// Adds an argument: its type info and its fields, one after the other.
#[tactic(auto, using(crate::proofs::Joined::joined_drop, crate::proofs::Joined::length_joined, std::proofs::lemmas::List::append_assoc))]
fn append(payload: &mut Payload, info: u32, fields: &[&[u8]]) -> Result<(), PayloadFull>
    ensures { Adds (argument info (map (λ f. f.now) fields.now)) result payload.old payload.new }
{
    let front = info.to_le_bytes();
    let room = payload.room();
    if payload.args() == ARGS_LIMIT
        || room < front.len()
        || !fields_fit(fields, room - front.len())
    {
        return Err(PayloadFull);
    }
    payload.extend_from_slice(&front);
    for field in fields {
        payload.extend_from_slice(field);
    }
    payload.count_argument();
    Ok(())
}

/// Whether there is room for the fields.
#[tactic(auto, using(crate::proofs::Joined::joined_drop, crate::proofs::Joined::length_joined))]
fn fields_fit(fields: &[&[u8]], room: usize) -> bool
    ensures { IsTrue result ↔ (length (joined fields.now) ≤ room) }
{
    let mut left = room;
    for field in fields {
        if left < field.len() {
            return false;
        }
        left -= field.len();
    }
    true
}
