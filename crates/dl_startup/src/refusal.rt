//! What a program says of a text that it refuses: which text, which line, and what is wrong with it.

ghost use Rattle.std.specs.Prelude.{◌≡◌, OnErr, OnOk};
ghost use Rattle.dl_outside.specs.Written.{WroteAll, WroteFront};
ghost use Rattle.dl_startup.specs.Refusal.{conf_word, numbered_line, refusal_line, script_word, storage_word, stored_word};

use crate::output::write_pieces;
use crate::storage_kind::StorageKind;
use dl_conf::{ConfKind, StoredKind};
use dl_outside::{Sink, WriteError};
use dl_script_fields::ScriptKind;
use itoa::Buffer;

/// What stands between the parts of a refusal, and at its end.
const COLON: &[u8] = b": ";

const LINE: &[u8] = b" line ";

const END: &[u8] = b"\n";

/// What is wrong with a line of `dlt.conf`, in one word.
pub fn conf_word(kind: ConfKind) -> &'static [u8]
    ensures { result.now ≡ conf_word kind }
{
    match kind {
        ConfKind::NoValue => b"novalue",
        ConfKind::NotNumber => b"notnumber",
        ConfKind::OutOfRange => b"outofrange",
        ConfKind::BadText => b"badtext",
        ConfKind::Sizes => b"sizes",
        ConfKind::Size => b"size",
    }
}

/// What is wrong with a line of the stored configuration, in one word.
pub fn stored_word(kind: StoredKind) -> &'static [u8]
    ensures { result.now ≡ stored_word kind }
{
    match kind {
        StoredKind::Line => b"line",
        StoredKind::TooMany => b"toomany",
        StoredKind::Size => b"size",
    }
}

/// What is wrong with a line of a script or a scenario, in one word.
pub fn script_word(kind: ScriptKind) -> &'static [u8]
    ensures { result.now ≡ script_word kind }
{
    match kind {
        ScriptKind::Missing => b"missing",
        ScriptKind::Size => b"size",
        ScriptKind::NotUtf8 => b"notutf8",
        ScriptKind::Word => b"word",
        ScriptKind::Fields => b"fields",
        ScriptKind::Id => b"id",
        ScriptKind::Level => b"level",
        ScriptKind::Number => b"number",
        ScriptKind::Hex => b"hex",
        ScriptKind::Text => b"text",
        ScriptKind::Order => b"order",
        ScriptKind::Unknown => b"unknown",
        ScriptKind::Twice => b"twice",
        ScriptKind::Limit => b"limit",
        ScriptKind::Payload => b"payload",
    }
}

/// What is wrong with a line of the log storage's filters, in one word.
pub fn storage_word(kind: StorageKind) -> &'static [u8]
    ensures { result.now ≡ storage_word kind }
{
    match kind {
        StorageKind::Fields => b"fields",
        StorageKind::Name => b"name",
        StorageKind::Id => b"id",
        StorageKind::Level => b"level",
        StorageKind::Number => b"number",
        StorageKind::Sizes => b"sizes",
        StorageKind::Twice => b"twice",
        StorageKind::TooMany => b"toomany",
        StorageKind::Size => b"size",
    }
}

/// Writes the line of a refusal, with its number in digits.
fn write_line<E: Sink>(
    err: &mut E,
    program: &[u8],
    text: &[u8],
    number: &[u8],
    kind: &[u8],
) -> Result<(), WriteError>
    ensures ok { OnOk result (WroteAll (E.told err.old) (E.told err.new) (numbered_line program.now text.now number.now kind.now)) }
    ensures front { OnErr result (WroteFront (E.told err.old) (E.told err.new) (numbered_line program.now text.now number.now kind.now)) }
{
    write_pieces(err, &[program, COLON, text, LINE, number, COLON, kind, END])
}

/// Writes the line of a refusal: the program's name, the text that it refuses (as `conf` or `script`), the number
/// of its first bad line, and what is wrong with that.
pub fn say_refusal<E: Sink>(
    err: &mut E,
    program: &[u8],
    text: &[u8],
    line: u32,
    kind: &[u8],
) -> Result<(), WriteError>
    ensures ok { OnOk result (WroteAll (E.told err.old) (E.told err.new) (refusal_line program.now text.now line kind.now)) }
    ensures front { OnErr result (WroteFront (E.told err.old) (E.told err.new) (refusal_line program.now text.now line kind.now)) }
{
    let mut buffer = Buffer::new();
    let number = buffer.format(line).as_bytes();
    write_line(err, program, text, number, kind)
}
