//! What a field of a script says: a word, an id, a number, a severity or a level.

ghost use Rattle.std.specs.Prelude.{◌≡◌, ◌==◌, ◌*◌, ◌^◌, ◌<◌, ◌≤◌, IfSome, IfOk, FitsSigned, slice_index};
ghost use Rattle.std.specs.Char.{is_ascii_digit};
ghost use Rattle.std.specs.List.{list_all};
ghost use Rattle.dl_args.specs.Width.{byte_count, int_type};
ghost use Rattle.dl_script_fields.specs.Value.{id_field, are_digits, unsigned_field, signed_field, number_field, number_within, count_field, ordinal_field, severity_of, severity_field, level_of, level_field};

use crate::kind::ScriptKind;
use dl_args::{Width, sint_fits, uint_fits};
use dl_bytes::{Id, OwnLevel, Severity};

/// An id, which holds no quote.
pub fn id(field: &str) -> Result<Id, ScriptKind>
    ensures { result ≡ id_field field.now }
{
    if field.as_bytes().contains(&b'"') {
        return Err(ScriptKind::Id);
    }
    Id::of(field).ok().ok_or(ScriptKind::Id)
}

/// Whether a plus stands at the front.
fn has_plus(field: &str) -> bool
    ensures { result ≡ (slice_index field.now 0 == 43) }
{
    match field.as_bytes() {
        [b'+', ..] => true,
        _ => false,
    }
}

/// A number of at most 32 bits, with no sign.
fn digits_32(field: &str) -> Option<u32>
    ensures { result ≡ unsigned_field 32 field.now }
{
    if has_plus(field) {
        return None;
    }
    field.parse().ok()
}

/// A number of at most 64 bits, with no sign.
fn digits_64(field: &str) -> Option<u64>
    ensures { result ≡ unsigned_field 64 field.now }
{
    if has_plus(field) {
        return None;
    }
    field.parse().ok()
}

/// A number of at most 128 bits, with no sign.
fn digits_128(field: &str) -> Option<u128>
    ensures { result ≡ unsigned_field 128 field.now }
{
    if has_plus(field) {
        return None;
    }
    field.parse().ok()
}

/// A number of at most 128 bits; a minus may stand before its digits.
fn integer(field: &str) -> Option<i128>
    ensures { result ≡ signed_field 128 field.now }
{
    if has_plus(field) {
        return None;
    }
    field.parse().ok()
}

/// An unsigned number of this width, of at most 64 bits.
fn unsigned_64(width: Width, field: &str) -> Option<u128>
    requires { byte_count width ≤ 8 }
    ensures value { result ≡ unsigned_field (8 * byte_count width) field.now }
    ensures fits { IfSome result (λ n. n < 256 ^ byte_count width) }
{
    let value = u128::from(digits_64(field)?);
    if uint_fits(width, value) {
        Some(value)
    } else {
        None
    }
}

/// An unsigned number of this width.
pub fn unsigned(width: Width, field: &str) -> Option<u128>
    ensures value { result ≡ unsigned_field (8 * byte_count width) field.now }
    ensures fits { IfSome result (λ n. n < 256 ^ byte_count width) }
{
    match width {
        Width::W8 | Width::W16 | Width::W32 | Width::W64 => unsigned_64(width, field),
        Width::W128 => digits_128(field),
    }
}

/// A signed number of this width.
pub fn signed(width: Width, field: &str) -> Option<i128>
    ensures value { result ≡ signed_field (8 * byte_count width) field.now }
    ensures fits { IfSome result (FitsSigned (int_type width)) }
{
    let value = integer(field)?;
    if sint_fits(width, value) {
        Some(value)
    } else {
        None
    }
}

/// A number in a range.
pub fn number_within(field: &str, low: u32, high: u32) -> Option<u32>
    ensures { result ≡ number_within low high field.now }
{
    let n = digits_32(field)?;
    if low <= n && n <= high { Some(n) } else { None }
}

/// A number in a range, where a line wants one.
pub fn number(field: &str, low: u32, high: u32) -> Result<u32, ScriptKind>
    ensures value { result ≡ number_field low high field.now }
    ensures range { IfOk result (λ n. (low ≤ n) × (n ≤ high)) }
{
    number_within(field, low, high).ok_or(ScriptKind::Number)
}

/// A number below 2^63.
pub fn count(field: &str) -> Result<u64, ScriptKind>
    ensures { result ≡ count_field field.now }
{
    match digits_64(field) {
        Some(n) if n < 1 << 63 => Ok(n),
        _ => Err(ScriptKind::Number),
    }
}

/// Whether all are decimal digits.
fn all_digits(bytes: &[u8]) -> bool
    ensures { result ≡ list_all is_ascii_digit bytes.now }
{
    bytes.iter().all(|b| b.is_ascii_digit())
}

/// Whether all are decimal digits, one at least.
#[tactic(auto, using(crate::proofs::Numbers::all_are))]
fn are_digits(field: &str) -> bool
    ensures { result ≡ are_digits field.now }
{
    field.len() > 0 && all_digits(field.as_bytes())
}

/// The number of a writer. One that no byte holds is told as 0, which none has.
pub fn writer(field: &str) -> Result<u8, ScriptKind>
    ensures { result ≡ ordinal_field 8 field.now }
{
    if let [digit @ b'0'..=b'9'] = field.as_bytes() {
        return Ok(*digit - b'0');
    }
    if !are_digits(field) {
        return Err(ScriptKind::Number);
    }
    match digits_32(field) {
        Some(n) if n < 256 => Ok(n as u8),
        _ => Ok(0),
    }
}

/// The number of a client. One of more than 32 bits is told as 0, which none has.
pub fn client(field: &str) -> Result<u32, ScriptKind>
    ensures { result ≡ ordinal_field 32 field.now }
{
    if !are_digits(field) {
        return Err(ScriptKind::Number);
    }
    Ok(digits_32(field).unwrap_or(0))
}

/// A severity by its word.
fn severity_of(field: &str) -> Option<Severity>
    ensures { result ≡ severity_of field.now }
{
    match field {
        "fatal" => Some(Severity::Fatal),
        "error" => Some(Severity::Error),
        "warn" => Some(Severity::Warn),
        "info" => Some(Severity::Info),
        "debug" => Some(Severity::Debug),
        "verbose" => Some(Severity::Verbose),
        _ => None,
    }
}

/// A severity, where a line wants one.
pub fn severity(field: &str) -> Result<Severity, ScriptKind>
    ensures { result ≡ severity_field field.now }
{
    severity_of(field).ok_or(ScriptKind::Level)
}

/// An own level by its word.
fn level_of(field: &str) -> Option<OwnLevel>
    ensures { result ≡ level_of field.now }
{
    match field {
        "default" => OwnLevel::of(-1),
        "off" => OwnLevel::of(0),
        _ => OwnLevel::of(severity_of(field)?.number() as i8),
    }
}

/// An own level, where a line wants one.
pub fn own_level(field: &str) -> Result<OwnLevel, ScriptKind>
    ensures { result ≡ level_field field.now }
{
    level_of(field).ok_or(ScriptKind::Level)
}
