//! The lines of a report on the log storage.

ghost use Rattle.std.specs.Prelude.{◌≡◌, ◌++◌, ◌∷◌, OnOk, IfOk};
ghost use Rattle.dl_model.specs.Report.{end_word};
ghost use Rattle.dl_storage.specs.Text.{ended_line, storage_lines, stored_line};

use crate::ends::{StoreEnd, StoreEnds};
use crate::{Filter, FilterList};
use dl_bytes::{Bytes, OutOfMemory, TraceEnd};
use itoa::{Buffer, Integer};
use std::alloc::Global;

/// Adds a blank, and behind it a number in decimal digits.
fn push_number<I: Integer>(text: &mut Vec<u8>, number: I) -> Result<(), OutOfMemory>
    ensures { OnOk result (text.new.items ≡ text.old.items ++ (32 ∷ I.text number)) }
{
    let mut buffer = Buffer::new();
    text.extend_from_slice(b" ")?;
    text.extend_from_slice(buffer.format(number).as_bytes())
}

/// The word for why storing ended.
fn end_word(end: TraceEnd) -> &'static [u8]
    ensures { result.now ≡ end_word end }
{
    match end {
        TraceEnd::Failed => b"failed",
        TraceEnd::Spent => b"spent",
        TraceEnd::NoMemory => b"memory",
    }
}

/// Adds what a filter stored.
fn push_stored(text: &mut Vec<u8>, filter: &Filter, end: &StoreEnd) -> Result<(), OutOfMemory>
    ensures { OnOk result (text.new.items ≡ text.old.items ++ stored_line filter.now end.now) }
{
    text.extend_from_slice(b"storage ")?;
    text.extend_from_slice(filter.name.all())?;
    push_number(text, end.frames)?;
    push_number(text, end.bytes)?;
    text.extend_from_slice(b"\n")
}

/// Adds why a filter ended, where it did.
fn push_ended(text: &mut Vec<u8>, filter: &Filter, end: Option<TraceEnd>) -> Result<(), OutOfMemory>
    ensures { OnOk result (text.new.items ≡ text.old.items ++ ended_line filter.now end) }
{
    let Some(end) = end else {
        return Ok(());
    };
    text.extend_from_slice(b"storage ")?;
    text.extend_from_slice(filter.name.all())?;
    text.extend_from_slice(b" ended ")?;
    text.extend_from_slice(end_word(end))?;
    text.extend_from_slice(b"\n")
}

/// The lines of a report on the log storage: for each filter, in order, how many messages it stored and their bytes, and why
/// it ended, where it did.
pub fn storage_lines(
    alloc: Global,
    filters: &FilterList,
    ends: &StoreEnds,
) -> Result<Bytes, OutOfMemory>
    ensures { IfOk result (λ text. text ≡ storage_lines filters.now ends.now.filters) }
{
    let mut text = Vec::new(alloc);
    for (filter, end) in filters.all().iter().zip(ends.filters.all()) {
        push_stored(&mut text, filter, end)?;
        push_ended(&mut text, filter, end.end)?;
    }
    Ok(Bytes::over(text))
}
