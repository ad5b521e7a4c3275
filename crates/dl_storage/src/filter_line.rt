//! One line of `dlt_storage.cfg`: the filter that it says.

ghost use Rattle.std.specs.Prelude.{◌≡◌, true, option_map, IfOk, IfSome};
ghost use Rattle.std.specs.List.{list_all};
ghost use Rattle.dl_conf.specs.Setting.{map_ok};
ghost use Rattle.dl_script_fields.specs.Value.{severity_of};
ghost use Rattle.dl_storage.specs.FilterLine.{are_sizes, digits_said, id_said, filter_said, is_name, is_name_letter, is_passed_over, line_said, name_said, parts_said, severity_said};
ghost use Rattle.dl_storage.specs.FiltersHeld.{held_in, parts_held, IsWell};

use crate::filter_parts::{LineParts, parts};
use crate::line_filter::LineFilter;
use dl_bytes::{Id, Severity};
use dl_startup::StorageKind;
use dl_text::{number, trimmed};

/// The most letters of a filter's name.
const NAME_LIMIT: usize = 16;

/// The most digits of a size.
const DIGITS_LIMIT: usize = 10;

/// Whether all are letters, digits or `_`.
fn are_name_letters(field: &[u8]) -> bool
    ensures { result ≡ list_all is_name_letter field.now }
{
    field.iter().all(|b| matches!(*b, b'0'..=b'9' | b'A'..=b'Z' | b'a'..=b'z' | b'_'))
}

/// The name of a filter.
fn name(field: &[u8]) -> Result<&[u8], StorageKind>
    ensures value { map_ok (λ n. n.now) result ≡ name_said field.now }
    ensures form { IfOk result (λ n. is_name n.now ≡ true) }
{
    if 1 <= field.len() && field.len() <= NAME_LIMIT && are_name_letters(field) {
        Ok(field)
    } else {
        Err(StorageKind::Name)
    }
}

/// An id, or none where `*` stands for all.
fn id(field: &[u8]) -> Result<Option<Id>, StorageKind>
    ensures { result ≡ id_said field.now }
{
    if field == b"*".as_slice() {
        return Ok(None);
    }
    match Id::from_name(field) {
        Ok(id) => Ok(Some(id)),
        Err(_) => Err(StorageKind::Id),
    }
}

/// A severity by its word.
fn severity_of(field: &[u8]) -> Option<Severity>
    ensures { result ≡ severity_of field.now }
{
    if field == b"fatal".as_slice() {
        Some(Severity::Fatal)
    } else if field == b"error".as_slice() {
        Some(Severity::Error)
    } else if field == b"warn".as_slice() {
        Some(Severity::Warn)
    } else if field == b"info".as_slice() {
        Some(Severity::Info)
    } else if field == b"debug".as_slice() {
        Some(Severity::Debug)
    } else if field == b"verbose".as_slice() {
        Some(Severity::Verbose)
    } else {
        None
    }
}

/// A severity, where the line wants one.
fn severity(field: &[u8]) -> Result<Severity, StorageKind>
    ensures { result ≡ severity_said field.now }
{
    severity_of(field).ok_or(StorageKind::Level)
}

/// A number of 1 to 10 digits.
fn digits(field: &[u8]) -> Result<u64, StorageKind>
    ensures { result ≡ digits_said field.now }
{
    if field.len() > DIGITS_LIMIT {
        return Err(StorageKind::Number);
    }
    number(field).ok_or(StorageKind::Number)
}

/// Whether files may have these sizes.
fn are_sizes(size: u64, max: u64) -> bool
    ensures { result ≡ are_sizes size max }
{
    2000 <= size && size <= 100_000_000 && 2 * size <= max && max <= 1_000_000_000
}

/// The filter that these fields say.
#[tactic(auto, unfolding(crate::specs::FilterLine::parts_said))]
fn filter_of<'a>(parts: &LineParts<'a>) -> Result<LineFilter<'a>, StorageKind>
    ensures value { map_ok held_in result ≡ parts_said (parts_held parts.now) }
    ensures well { IfOk result IsWell }
{
    let name = name(parts.name)?;
    let apid = id(parts.apid)?;
    let ctid = id(parts.ctid)?;
    let severity = severity(parts.severity)?;
    let size = digits(parts.size)?;
    let max = digits(parts.max)?;
    if !are_sizes(size, max) {
        return Err(StorageKind::Sizes);
    }
    Ok(LineFilter {
        name,
        apid,
        ctid,
        severity,
        size: size as u32,
        max: max as u32,
    })
}

/// The filter that a line says.
fn filter(text: &[u8]) -> Result<LineFilter<'_>, StorageKind>
    ensures value { map_ok held_in result ≡ filter_said text.now }
    ensures well { IfOk result IsWell }
{
    match parts(text) {
        Some(parts) => filter_of(&parts),
        None => Err(StorageKind::Fields),
    }
}

/// Whether a line says nothing: it is empty, or a comment.
fn is_passed_over(line: &[u8]) -> bool
    ensures { result ≡ is_passed_over line.now }
{
    match line {
        [] => true,
        [first, ..] => *first == b'#',
    }
}

/// What a line says: a filter, or nothing.
pub fn line_filter(line: &[u8]) -> Result<Option<LineFilter<'_>>, StorageKind>
    ensures value { map_ok (option_map held_in) result ≡ line_said line.now }
    ensures well { IfOk result (λ said. IfSome said IsWell) }
{
    let line = trimmed(line);
    if is_passed_over(line) {
        return Ok(None);
    }
    match filter(line) {
        Ok(filter) => Ok(Some(filter)),
        Err(kind) => Err(kind),
    }
}
