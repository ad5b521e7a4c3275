//! The text of a message's arguments.

ghost use Rattle.std.specs.Prelude.{◌≡◌, ◌<◌, ◌++◌, ◌∷◌, OnOk, slice_index};
ghost use Rattle.std.specs.List.{flat_map};
ghost use Rattle.hex.specs.Hex.{upper_digits};
ghost use Rattle.dl_args.specs.Borrowed.{arg_in};
ghost use Rattle.dl_receive.specs.MessageKind.{behind_standard, payload_of};
ghost use Rattle.dl_bytes.specs.Htyp.{htyp_of};
ghost use Rattle.dl_find_words.specs.Arguments.{arg_text, bytes_text, coming_text, hex_text, is_plain, is_verbose, letter_text, message_text, order_of};

use dl_args::{ArgReader, ArgRef};
use dl_bytes::{Htyp, Order, OutOfMemory};
use dl_sessions::{behind, push_number};

/// Whether a byte of a text stands for itself.
fn is_plain(byte: u8) -> bool
    ensures { result ≡ is_plain byte }
{
    32 <= byte && byte <= 126 && byte != 92
}

/// A hexadecimal digit, in upper case.
fn digit(n: u8) -> u8
    requires { n < 16 }
    ensures { result ≡ slice_index upper_digits n }
{
    b"0123456789ABCDEF"[n as usize]
}

/// Adds the two digits of a byte.
fn push_hex(text: &mut Vec<u8>, byte: u8) -> Result<(), OutOfMemory>
    ensures { OnOk result (text.new.items ≡ text.old.items ++ hex_text byte) }
{
    text.extend_from_slice(&[digit(byte / 16), digit(byte % 16)])
}

/// Adds a byte of a text.
fn push_letter(text: &mut Vec<u8>, byte: u8) -> Result<(), OutOfMemory>
    ensures { OnOk result (text.new.items ≡ text.old.items ++ letter_text byte) }
{
    if is_plain(byte) {
        return text.extend_from_slice(&[byte]);
    }
    text.extend_from_slice(&[92, 120, digit(byte / 16), digit(byte % 16)])
}

/// Adds a text.
fn push_letters(text: &mut Vec<u8>, letters: &[u8]) -> Result<(), OutOfMemory>
    ensures { OnOk result (text.new.items ≡ text.old.items ++ flat_map letter_text letters.now) }
{
    for letter in letters {
        push_letter(text, *letter)?;
    }
    Ok(())
}

/// Adds bytes of any meaning.
fn push_bytes(text: &mut Vec<u8>, bytes: &[u8]) -> Result<(), OutOfMemory>
    ensures { OnOk result (text.new.items ≡ text.old.items ++ bytes_text bytes.now) }
{
    for byte in bytes {
        push_hex(text, *byte)?;
    }
    Ok(())
}

/// Adds an argument, without its name.
fn push_arg(text: &mut Vec<u8>, arg: &ArgRef<'_>) -> Result<(), OutOfMemory>
    ensures { OnOk result (text.new.items ≡ text.old.items ++ arg_text (arg_in arg.now)) }
{
    match arg {
        ArgRef::Bool {
            name: _,
            value: true,
        } => text.extend_from_slice(b"1"),
        ArgRef::Bool {
            name: _,
            value: false,
        } => text.extend_from_slice(b"0"),
        ArgRef::Sint { value, .. } => push_number(text, b"", *value),
        ArgRef::Uint { value, .. } => push_number(text, b"", *value),
        ArgRef::Text { bytes, .. } => push_letters(text, bytes),
        ArgRef::Raw { bytes, .. } => push_bytes(text, bytes),
    }
}

/// Adds an argument behind a blank.
fn push_next(text: &mut Vec<u8>, arg: &ArgRef<'_>) -> Result<(), OutOfMemory>
    ensures { OnOk result (text.new.items ≡ text.old.items ++ 32 ∷ arg_text (arg_in arg.now)) }
{
    text.extend_from_slice(b" ")?;
    push_arg(text, arg)
}

/// Adds the arguments that a reader gives.
fn push_coming(text: &mut Vec<u8>, reader: ArgReader<'_>) -> Result<(), OutOfMemory>
    ensures { OnOk result (text.new.items ≡ text.old.items ++ coming_text reader.entry) }
{
    let mut unread = reader;
    while let Some(next) = unread.next_arg() {
        let Ok(arg) = next else {
            return text.extend_from_slice(b" (unread)");
        };
        push_next(text, &arg)?;
    }
    Ok(())
}

/// The byte at this place; 0 where there is none.
fn byte_at(bytes: &[u8], place: usize) -> u8
    ensures { result ≡ slice_index bytes.now place }
{
    if place < bytes.len() { bytes[place] } else { 0 }
}

/// HTYP of a message.
fn htyp(message: &[u8]) -> Htyp
    ensures { result.0 ≡ htyp_of message.now }
{
    Htyp(byte_at(message, 0))
}

/// What stands behind the standard header of a message.
pub fn behind_standard(message: &[u8]) -> &[u8]
    ensures { result.now ≡ behind_standard message.now }
{
    behind(message, htyp(message).standard_len() as usize)
}

/// A byte of the extended header of a message.
fn extended_byte(message: &[u8], place: usize) -> u8
    ensures { result ≡ slice_index (behind_standard message.now) place }
{
    byte_at(behind_standard(message), place)
}

/// Whether a message is in verbose mode.
fn is_verbose(message: &[u8]) -> bool
    ensures { result ≡ is_verbose message.now }
{
    htyp(message).has_extended() && extended_byte(message, 0) % 2 == 1
}

/// In which order a message has the bytes of its numbers.
fn order_of(message: &[u8]) -> Order
    ensures { result ≡ order_of message.now }
{
    if htyp(message).has_big_numbers() {
        Order::Big
    } else {
        Order::Little
    }
}

/// Adds the arguments of a message, each behind a blank; or the payload of one that isn't in verbose mode.
pub fn push_message(text: &mut Vec<u8>, message: &[u8]) -> Result<(), OutOfMemory>
    ensures { OnOk result (text.new.items ≡ text.old.items ++ message_text message.now) }
{
    let payload = behind(message, htyp(message).header_len() as usize);
    if is_verbose(message) {
        let count = extended_byte(message, 1);
        return push_coming(text, ArgReader::make(payload, order_of(message), count));
    }
    text.extend_from_slice(b" ")?;
    push_bytes(text, payload)
}
