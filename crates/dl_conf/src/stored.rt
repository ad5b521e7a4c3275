//! The stored configuration as a whole, both ways.

ghost use Rattle.std.specs.Prelude.{◌≡◌, ◌≤◌, ◌++◌, ◌∷◌, [], not, None, OnOk, IfOk, filter, length};
ghost use Rattle.std.specs.List.{filter_map, last_or};
ghost use Rattle.dl_text.specs.Faults.{size_limit, first_fault};
ghost use Rattle.dl_text.specs.Lines.{lines_of};
ghost use Rattle.dl_conf.specs.Stored.{level_end, own_line, stored_text, fault_in, default_in, own_in, held, same_ids, ReadsStored};

use crate::entry::{StoredLine, default_on, own_on, stored_line};
use dl_bytes::{Bytes, Level, OutOfMemory, Sequence, Stored, StoredLevel};
use dl_text::{SIZE_LIMIT, lines, push_id};
use std::alloc::Global;

/// The most lines with ids.
pub const ENTRY_LIMIT: usize = 1024;

/// What is wrong with a line, or with the whole text.
#[derive(Clone, Copy, Debug, PartialEq, Eq)]
pub enum StoredKind {
    /// The line isn't of a form that is written.
    Line,
    /// It is the 1025th line with ids.
    TooMany,
    /// The text has more than 16,777,216 bytes: the line is 0.
    Size,
}

/// Why a stored configuration could not be read.
#[derive(Clone, Copy, Debug, PartialEq, Eq)]
pub enum StoredError {
    /// The text isn't of the form.
    Fault {
        /// The number of the line at fault, counted from 1.
        line: u32,
        /// What is wrong with it.
        kind: StoredKind,
    },
    /// There is no memory for what the text says, which is of the form.
    OutOfMemory,
}

/// The first line at fault, and what is wrong with it.
fn faulty_line(text: &[u8]) -> Option<(u32, StoredKind)>
    requires { length text.now ≤ size_limit }
    ensures { result ≡ first_fault fault_in (lines_of text.now) }
{
    let mut number = 0;
    let mut entries = 0;
    for line in lines(text) {
        number += 1;
        match stored_line(line) {
            Some(StoredLine::Own(_)) if entries < ENTRY_LIMIT => entries += 1,
            Some(StoredLine::Own(_)) => return Some((number, StoredKind::TooMany)),
            Some(StoredLine::Nothing | StoredLine::Default(_)) => {}
            None => return Some((number, StoredKind::Line)),
        }
    }
    None
}

/// Whether both are for the same context.
fn same_ids(a: &StoredLevel, b: &StoredLevel) -> bool
    ensures { result ≡ same_ids a.now b.now }
{
    a.apid == b.apid && a.ctid == b.ctid
}

/// Adds an own level, in the place of one for the same context.
fn hold(held: &mut Vec<StoredLevel>, own: StoredLevel) -> Result<(), OutOfMemory>
    ensures { OnOk result (held.new.items ≡ filter (λ other. not (same_ids other own)) held.old.items ++ own ∷ []) }
{
    held.retain(|other| !same_ids(other, &own));
    held.push(own)?;
    Ok(())
}

/// The default level that the lines say.
fn default_level(text: &[u8]) -> Option<Level>
    ensures { result ≡ last_or None (filter_map default_in (lines_of text.now)) }
{
    let mut level = None;
    for line in lines(text) {
        level = default_on(line).or(level);
    }
    level
}

/// The own levels that the lines say.
fn own_levels(alloc: Global, text: &[u8]) -> Result<Vec<StoredLevel>, OutOfMemory>
    ensures { IfOk result (λ own. own.items ≡ held (filter_map own_in (lines_of text.now))) }
{
    let mut held = Vec::new(alloc);
    for line in lines(text) {
        if let Some(own) = own_on(line) {
            hold(&mut held, own)?;
        }
    }
    Ok(held)
}

/// What a text says, as the file `dlt_stored.cfg` has it: a line `::L` with the default level, and a line `APID:CTID:L`
/// for each context with a level of its own. Of lines with the same ids the last one holds.
pub fn read_stored(alloc: Global, bytes: &[u8]) -> Result<Stored, StoredError>
    ensures { ReadsStored bytes.now result }
{
    if bytes.len() > SIZE_LIMIT {
        let (line, kind) = (0, StoredKind::Size);
        return Err(StoredError::Fault { line, kind });
    }
    if let Some((line, kind)) = faulty_line(bytes) {
        return Err(StoredError::Fault { line, kind });
    }
    let Ok(own) = own_levels(alloc, bytes) else {
        return Err(StoredError::OutOfMemory);
    };
    Ok(Stored {
        level: default_level(bytes),
        own: Sequence::over(own),
    })
}

/// Adds a level, and ends the line.
fn push_level(text: &mut Vec<u8>, level: Level) -> Result<(), OutOfMemory>
    ensures { OnOk result (text.new.items ≡ text.old.items ++ level_end level) }
{
    text.extend_from_slice(&[b'0' + level.number(), b'\n'])
}

/// Adds the line of an own level.
fn push_own(text: &mut Vec<u8>, own: &StoredLevel) -> Result<(), OutOfMemory>
    ensures { OnOk result (text.new.items ≡ text.old.items ++ own_line own.now) }
{
    push_id(text, &own.apid)?;
    text.extend_from_slice(b":")?;
    push_id(text, &own.ctid)?;
    text.extend_from_slice(b":")?;
    push_level(text, own.level)
}

/// The text of this default level and of these own levels, as the file `dlt_stored.cfg` has it. The level that `stored`
/// has itself isn't looked at.
pub fn write_stored(alloc: Global, level: Level, stored: &Stored) -> Result<Bytes, OutOfMemory>
    ensures { IfOk result (λ text. text ≡ stored_text level stored.now.own) }
{
    let mut text = Vec::new(alloc);
    text.extend_from_slice(b"::")?;
    push_level(&mut text, level)?;
    for own in stored.own.all() {
        push_own(&mut text, own)?;
    }
    Ok(Bytes::over(text))
}
