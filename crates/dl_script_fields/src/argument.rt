//! An argument of a log line, from its field to the payload.

ghost use Rattle.std.specs.Prelude.{◌≡◌, ◌<◌, Some, IfOk, IfSome, length, option_map, is_some, string_bytes};
ghost use Rattle.std.specs.List.{position};
ghost use Rattle.std.specs.Option.{ok_or};
ghost use Rattle.dl_args.specs.Argument.{written, Adds, IsValue};
ghost use Rattle.dl_script_fields.specs.Argument.{is_escapable, unescaped, width_of_bits, number_kind, kind_of, truth_of, fill_of, raw_of, value_by_kind, is_colon, parted, behind_quote, quoted_value, word_value, value_of, is_label, takes_unit, may_name, with_name, named_of, behind_named, argument_of, is_argument};
ghost use Rattle.dl_script_fields.specs.Added.{AddsArgument, unnamed, added};
ghost use Rattle.dl_script_fields.specs.Kind.{Says, is_of_form};
ghost use Rattle.dl_script_fields.specs.declared.kind.ScriptKind.TheVariants as wrong;

use crate::cut::{closing_quote, first_mark};
use crate::kind::{LineError, ScriptKind};
use crate::value::{number_within, signed, unsigned};
use dl_args::{
    PayloadFull, Width, add_bool, add_named_bool, add_named_raw, add_named_sint, add_named_text,
    add_named_uint, add_raw, add_sint, add_text, add_uint,
};
use dl_bytes::{PAYLOAD_LIMIT, Payload};
use hex::FromHexError;
use std::alloc::Global;

/// What an argument is, by the word before its colon.
#[derive(Clone, Copy)]
pub enum Kind {
    /// `bool`: a truth value.
    Bool,
    /// `fill`: a text of so many letters.
    Fill,
    /// `raw`: bytes.
    Raw,
    /// `sint8` to `sint128`: a signed number.
    Sint(Width),
    /// `uint8` to `uint128`: an unsigned number.
    Uint(Width),
}

/// What an argument says, apart from its name and its unit.
#[derive(Drop)]
pub enum Value<'a> {
    Bool(bool),
    Sint(Width, i128),
    Uint(Width, u128),
    /// A text as its field has it.
    Text(&'a str),
    /// A text that was made: one without its escapes, or one of so many letters.
    Made(String),
    Raw(Vec<u8>),
}

/// Whether a character may stand behind a backslash.
fn is_escapable(c: char) -> bool
    ensures { result ≡ is_escapable c }
{
    c == '"' || c == '\\'
}

/// Whether a text in quotes, from behind its first quote on, ends with the quote that closes it.
pub fn is_closed(quoted: &str) -> bool
    ensures { result ≡ is_some (unescaped quoted.now) }
{
    match closing_quote(quoted) {
        Some(len) => len == quoted.len(),
        None => false,
    }
}

/// A text in quotes, from behind its first quote on, where it has no escape.
#[inline(always)]
fn plain(quoted: &str) -> Option<&str>
    ensures { IfSome result (λ text. unescaped quoted.now ≡ Some text.now) }
{
    let bytes = quoted.as_bytes();
    let place = first_mark(bytes)?;
    if place + 1 < bytes.len() || bytes[place] != b'"' {
        return None;
    }
    Some(&quoted[..place])
}

/// A text in quotes, from behind its first quote on.
pub fn unescape(alloc: Global, quoted: &str) -> Result<String, LineError>
    ensures { Says string_bytes result (ok_or (unescaped quoted.now) wrong.Fields) }
{
    let mut text = String::with_capacity(alloc, quoted.len())?;
    let mut chars = quoted.chars();
    while let Some(c) = chars.next() {
        if c == '"' {
            return if chars.as_str().is_empty() {
                Ok(text)
            } else {
                Err(LineError::Fault(ScriptKind::Fields))
            };
        }
        if c != '\\' {
            text.push(c)?;
            continue;
        }
        let Some(escaped) = chars.next() else {
            return Err(LineError::Fault(ScriptKind::Fields));
        };
        if !is_escapable(escaped) {
            return Err(LineError::Fault(ScriptKind::Fields));
        }
        text.push(escaped)?;
    }
    Err(LineError::Fault(ScriptKind::Fields))
}

/// The width of so many bits.
fn width(bits: &str) -> Option<Width>
    ensures { result ≡ width_of_bits bits.now }
{
    match bits {
        "8" => Some(Width::W8),
        "16" => Some(Width::W16),
        "32" => Some(Width::W32),
        "64" => Some(Width::W64),
        "128" => Some(Width::W128),
        _ => None,
    }
}

/// The kind of a number by its word.
fn number_kind(word: &str) -> Option<Kind>
    ensures { result ≡ number_kind word.now }
{
    if let Some(bits) = word.strip_prefix("sint") {
        return Some(Kind::Sint(width(bits)?));
    }
    let bits = word.strip_prefix("uint")?;
    Some(Kind::Uint(width(bits)?))
}

/// The kind of an argument by its word.
fn kind_of(word: &str) -> Option<Kind>
    ensures { result ≡ kind_of word.now }
{
    match word {
        "bool" => Some(Kind::Bool),
        "fill" => Some(Kind::Fill),
        "raw" => Some(Kind::Raw),
        _ => number_kind(word),
    }
}

/// 0 or 1.
fn truth(text: &str) -> Option<bool>
    ensures { result ≡ truth_of text.now }
{
    match text {
        "0" => Some(false),
        "1" => Some(true),
        _ => None,
    }
}

/// So many letters `x`, no more than a payload has bytes.
fn fill(alloc: Global, text: &str) -> Result<String, LineError>
    ensures { Says string_bytes result (ok_or (fill_of text.now) wrong.Number) }
{
    let count = number_within(text, 0, PAYLOAD_LIMIT as u32).ok_or(ScriptKind::Number)?;
    let mut letters = String::with_capacity(alloc, count as usize)?;
    for _ in 0..count {
        letters.push('x')?;
    }
    Ok(letters)
}

/// Bytes as pairs of hexadecimal digits, one pair at least.
pub fn raw(alloc: Global, digits: &str) -> Result<Vec<u8>, LineError>
    ensures { Says (λ v. v.items) result (ok_or (raw_of digits.now) wrong.Hex) }
{
    if digits.is_empty() {
        return Err(LineError::Fault(ScriptKind::Hex));
    }
    match hex::decode(alloc, digits) {
        Ok(bytes) => Ok(bytes),
        Err(FromHexError::OutOfMemory) => Err(LineError::OutOfMemory),
        Err(_) => Err(LineError::Fault(ScriptKind::Hex)),
    }
}

/// The value of an argument of this kind.
#[inline(always)]
fn value_of_kind(alloc: Global, kind: Kind, text: &str) -> Result<Value<'static>, LineError>
    ensures said { Says unnamed result (value_by_kind kind text.now) }
    ensures fits { IfOk result (λ v. IsValue (unnamed v)) }
{
    match kind {
        Kind::Bool => Ok(Value::Bool(truth(text).ok_or(ScriptKind::Fields)?)),
        Kind::Fill => Ok(Value::Made(fill(alloc, text)?)),
        Kind::Raw => Ok(Value::Raw(raw(alloc, text)?)),
        Kind::Sint(width) => {
            let value = signed(width, text).ok_or(ScriptKind::Number)?;
            Ok(Value::Sint(width, value))
        }
        Kind::Uint(width) => {
            let value = unsigned(width, text).ok_or(ScriptKind::Number)?;
            Ok(Value::Uint(width, value))
        }
    }
}

/// The place of the first colon.
fn first_colon(text: &[u8]) -> Option<usize>
    ensures value { result ≡ position is_colon text.now }
    ensures within { IfSome result (λ n. n < length text.now) }
{
    text.iter().position(|b| *b == b':')
}

/// What stands before the first colon, and what stands behind it.
fn parted(text: &str) -> Option<(&str, &str)>
    ensures { option_map (λ parts. (parts.0.now, parts.1.now)) result ≡ parted text.now }
{
    let place = first_colon(text.as_bytes())?;
    Some((&text[..place], &text[place + 1..]))
}

/// What stands behind a quote at the front.
pub fn behind_quote(text: &str) -> Option<&str>
    ensures { option_map (λ rest. rest.now) result ≡ behind_quote text.now }
{
    match text.as_bytes() {
        [first, ..] if *first == b'"' => Some(&text[1..]),
        _ => None,
    }
}

/// What stands behind `named:`.
fn behind_named(field: &str) -> Option<&str>
    ensures { option_map (λ rest. rest.now) result ≡ behind_named field.now }
{
    field.strip_prefix("named:")
}

/// The value of a text in quotes, from behind its first quote on.
#[inline(always)]
fn quoted_value(alloc: Global, quoted: &str) -> Result<Value<'_>, LineError>
    ensures said { Says unnamed result (quoted_value quoted.now) }
    ensures fits { IfOk result (λ v. IsValue (unnamed v)) }
{
    match plain(quoted) {
        Some(text) => Ok(Value::Text(text)),
        None => Ok(Value::Made(unescape(alloc, quoted)?)),
    }
}

/// The value behind the word of its kind.
#[inline(always)]
fn word_value(alloc: Global, text: &str) -> Result<Value<'_>, LineError>
    ensures said { Says unnamed result (word_value text.now) }
    ensures fits { IfOk result (λ v. IsValue (unnamed v)) }
{
    let Some((word, value)) = parted(text) else {
        return Err(LineError::Fault(ScriptKind::Fields));
    };
    match kind_of(word) {
        Some(kind) => value_of_kind(alloc, kind, value),
        None => Err(LineError::Fault(ScriptKind::Fields)),
    }
}

/// The value of an argument without a name.
#[inline(always)]
fn value_of(alloc: Global, text: &str) -> Result<Value<'_>, LineError>
    ensures said { Says unnamed result (value_of text.now) }
    ensures fits { IfOk result (λ v. IsValue (unnamed v)) }
{
    match behind_quote(text) {
        Some(quoted) => quoted_value(alloc, quoted),
        None => word_value(alloc, text),
    }
}

/// Whether a text is a value of this kind, whatever number or digits it has.
#[tactic(auto, using(crate::proofs::Refused::as_form, crate::proofs::Refused::as_number, crate::proofs::Refused::as_digits))]
fn has_kind_form(kind: Kind, text: &str) -> bool
    ensures { result ≡ is_of_form (value_by_kind kind text.now) }
{
    match kind {
        Kind::Bool => truth(text).is_some(),
        Kind::Fill | Kind::Raw | Kind::Sint(_) | Kind::Uint(_) => true,
    }
}

/// Whether a text is the word of a kind with a value behind it, whatever number or digits that has.
fn has_word_form(text: &str) -> bool
    ensures { result ≡ is_of_form (word_value text.now) }
{
    let Some((word, value)) = parted(text) else {
        return false;
    };
    match kind_of(word) {
        Some(kind) => has_kind_form(kind, value),
        None => false,
    }
}

/// Whether a text is an argument without a name, whatever number or digits it has.
fn has_value_form(text: &str) -> bool
    ensures { result ≡ is_of_form (value_of text.now) }
{
    match behind_quote(text) {
        Some(quoted) => is_closed(quoted),
        None => has_word_form(text),
    }
}

/// Whether a text may be a name or a unit.
fn is_label(text: &str) -> bool
    ensures { result ≡ is_label text.now }
{
    text.bytes().all(|b| b.is_ascii_alphanumeric() || b == b'_')
}

/// Whether an argument without a name is a number, by its word.
fn takes_unit(text: &str) -> bool
    ensures { result ≡ takes_unit text.now }
{
    let Some((word, _)) = parted(text) else {
        return false;
    };
    matches!(kind_of(word), Some(Kind::Sint(_) | Kind::Uint(_)))
}

/// Whether an argument may have this name and this unit.
fn may_name(name: &str, unit: &str, value: &str) -> bool
    ensures { result ≡ may_name name.now unit.now value.now }
{
    is_label(name) && is_label(unit) && (unit.is_empty() || takes_unit(value))
}

/// Whether the text behind `named:` is an argument of a known form.
fn has_named_form(text: &str) -> bool
    ensures { result ≡ is_of_form (named_of text.now) }
{
    let Some((name, rest)) = parted(text) else {
        return false;
    };
    let Some((unit, value)) = parted(rest) else {
        return false;
    };
    may_name(name, unit, value) && has_value_form(value)
}

/// Whether a field is an argument of a known form, whatever number or digits it has.
pub fn has_form(field: &str) -> bool
    ensures { result ≡ is_argument field.now }
{
    match behind_named(field) {
        Some(text) => has_named_form(text),
        None => has_value_form(field),
    }
}

impl Value<'_> {
    /// Adds it to a payload.
    fn add(&self, payload: &mut Payload) -> Result<(), PayloadFull>
        requires { IsValue (unnamed self.now) }
        ensures { Adds (written (unnamed self.now)) result payload.old payload.new }
    {
        match self {
            Value::Bool(value) => add_bool(payload, *value),
            Value::Sint(width, value) => add_sint(payload, *width, *value),
            Value::Uint(width, value) => add_uint(payload, *width, *value),
            Value::Text(text) => add_text(payload, text),
            Value::Made(text) => add_text(payload, text.as_str()),
            Value::Raw(bytes) => add_raw(payload, bytes),
        }
    }

    /// Adds it to a payload with a name, and with a unit where it is a number.
    fn add_named(&self, payload: &mut Payload, name: &str, unit: &str) -> Result<(), PayloadFull>
        requires { IsValue (unnamed self.now) }
        ensures { Adds (written (with_name name.now unit.now (unnamed self.now))) result payload.old payload.new }
    {
        match self {
            Value::Bool(value) => add_named_bool(payload, name, *value),
            Value::Sint(width, value) => add_named_sint(payload, name, unit, *width, *value),
            Value::Uint(width, value) => add_named_uint(payload, name, unit, *width, *value),
            Value::Text(text) => add_named_text(payload, name, text),
            Value::Made(text) => add_named_text(payload, name, text.as_str()),
            Value::Raw(bytes) => add_named_raw(payload, name, bytes),
        }
    }
}

/// Adds an argument without a name.
fn add_unnamed(alloc: Global, payload: &mut Payload, text: &str) -> Result<bool, LineError>
    ensures { AddsArgument (value_of text.now) result payload.old payload.new }
{
    let value = value_of(alloc, text)?;
    match value.add(payload) {
        Ok(()) => Ok(true),
        Err(PayloadFull) => Ok(false),
    }
}

/// Adds the argument behind `named:`.
fn add_named(alloc: Global, payload: &mut Payload, text: &str) -> Result<bool, LineError>
    ensures { AddsArgument (named_of text.now) result payload.old payload.new }
{
    let Some((name, rest)) = parted(text) else {
        return Err(LineError::Fault(ScriptKind::Fields));
    };
    let Some((unit, text)) = parted(rest) else {
        return Err(LineError::Fault(ScriptKind::Fields));
    };
    if !may_name(name, unit, text) {
        return Err(LineError::Fault(ScriptKind::Fields));
    }
    let value = value_of(alloc, text)?;
    match value.add_named(payload, name, unit) {
        Ok(()) => Ok(true),
        Err(PayloadFull) => Ok(false),
    }
}

/// Adds the argument of a field to a payload, where it has room, and answers whether it has. One that isn't added leaves
/// the payload as it was.
pub fn add(alloc: Global, payload: &mut Payload, field: &str) -> Result<bool, LineError>
    ensures { AddsArgument (argument_of field.now) result payload.old payload.new }
{
    match behind_named(field) {
        Some(text) => add_named(alloc, payload, text),
        None => add_unnamed(alloc, payload, field),
    }
}
