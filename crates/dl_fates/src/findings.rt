//! What became of the calls of a journal, for every client that came.

ghost use Rattle.std.specs.Prelude.{◌≡◌, ◌+◌, ◌++◌, ◌<◌, ◌^◌, ℕ, List, IfOk, OnOk, count_by, map};
ghost use Rattle.std.specs.List.{AllByRecursion, range_with_len};
ghost use Rattle.dl_model.specs.Accounts.{AreNumbered};
ghost use Rattle.dl_model.specs.Journal.{is_connect};
ghost use Rattle.dl_events.specs.declared.record.Record.{Record};
ghost use Rattle.dl_model.specs.Setting.{Setting};
ghost use Rattle.dl_model.specs.TraceFiles.{StoredFile};
ghost use Rattle.dl_model.specs.WholeAccounts.{records_by, source_of_records};
ghost use Rattle.dl_report.specs.Clients.{ComeAndGo};
ghost use Rattle.dl_report.specs.Losses.{told};
ghost use Rattle.dl_fates.specs.Rows.{rows_by, storage_words};
ghost use Rattle.dl_fates.specs.Written.{InEach, IsRotating, TellWhole, storage_by};

use crate::claims::slots_claimed;
use crate::fates::{Fates, find_fates};
use crate::rows::{Findings, push_rows};
use crate::{CallAt, ClaimAt, Rotation, StoredCalls, find_stored};
use dl_bytes::{AppSpec, Id, OutOfMemory};
use dl_events::{Event, RecordList};
use dl_report::Sources;
use std::alloc::Global;

/// No client has this number.
pub const NOBODY: u32 = 0;

/// How many clients came; more than 32 bits count are refused as out of memory.
fn came(events: &[Event]) -> Result<u32, OutOfMemory>
    ensures { IfOk result (λ count. count ≡ count_by is_connect events.now) }
{
    let mut count: u32 = 0;
    for event in events {
        if let Event::Connect { .. } = event {
            match count.checked_add(1) {
                Some(more) => count = more,
                None => return Err(OutOfMemory),
            }
        }
    }
    Ok(count)
}

/// How many lost calls a journal tells, where 64 bits count them.
pub fn told_losses(events: &[Event]) -> Result<u64, OutOfMemory>
    ensures { IfOk result (λ count. count ≡ told events.now) }
{
    let mut sum: u64 = 0;
    for event in events {
        if let Event::Lost { count, .. } = event {
            match sum.checked_add(*count) {
                Some(more) => sum = more,
                None => return Err(OutOfMemory),
            }
        }
    }
    Ok(sum)
}

/// What became of the log calls of a journal, for each client that came.
fn find_all(
    alloc: Global,
    sources: &Sources<'_, '_>,
    events: &[Event],
    buffer: u32,
) -> Result<Vec<Fates>, OutOfMemory>
    requires numbered { (number : ℕ) → AreNumbered (records_by number sources.now.records.now) }
    requires clients { ComeAndGo events.now }
    requires losses { told events.now < 2 ^ 63 }
    ensures clients { IfOk result (λ all. map (λ (fates : Fates). fates.client) all.items ≡ range_with_len 1 (count_by is_connect events.now)) }
    ensures fates { IfOk result (λ all. (setting : Setting) → setting.ecu ≡ sources.now.ecu
        → AllByRecursion (TellWhole (source_of_records setting sources.now.records.now sources.now.specs.now) buffer events.now) all.items) }
{
    let mut all = Vec::new(alloc);
    for place in 0..came(events)? {
        let fates = find_fates(alloc, place + 1, sources, events, buffer)?;
        all.push(fates)?;
    }
    Ok(all)
}

/// Where the frames of calls are stored, where a trace is kept in this directory.
fn find_storage(
    alloc: Global,
    sources: &Sources<'_, '_>,
    events: &[Event],
    directory: &[u8],
    rotation: Option<Rotation>,
) -> Result<Option<StoredCalls>, OutOfMemory>
    requires numbered { (number : ℕ) → AreNumbered (records_by number sources.now.records.now) }
    ensures { IfOk result (λ found. (setting : Setting) (stood : List StoredFile) (r : Record) → setting.ecu ≡ sources.now.ecu → IsRotating setting stood directory.now rotation
        → storage_by directory.now found r ≡ storage_words setting stood (source_of_records setting sources.now.records.now sources.now.specs.now) events.now r) }
{
    match rotation {
        None => Ok(None),
        Some(rotation) => match find_stored(alloc, sources, events, rotation) {
            Ok(stored) => Ok(Some(stored)),
            Err(none) => Err(none),
        },
    }
}

/// Adds the rows of the calls of a script, by what its run left: its records, its events and its applications. These lines claim places. A trace is
/// kept by this rotation in this directory, or none is.
pub fn push_findings(
    alloc: Global,
    text: &mut Vec<u8>,
    sources: &Sources<'_, '_>,
    events: &[Event],
    buffer: u32,
    directory: &[u8],
    rotation: Option<Rotation>,
    calls: &[CallAt],
    claims: &[ClaimAt],
) -> Result<(), OutOfMemory>
    requires numbered { (number : ℕ) → AreNumbered (records_by number sources.now.records.now) }
    requires clients { ComeAndGo events.now }
    ensures { InEach sources.now.ecu directory.now rotation (λ setting stood.
        OnOk result (text.new.items ≡ text.old.items ++ rows_by setting stood buffer sources.now events.now claims.now calls.now)) }
{
    if told_losses(events)? >= 1 << 63 {
        return Err(OutOfMemory);
    }
    let findings = Findings {
        specs: sources.specs,
        nobody: find_fates(alloc, NOBODY, sources, events, buffer)?,
        clients: find_all(alloc, sources, events, buffer)?,
        claims,
        taken: slots_claimed(alloc, events)?,
        directory,
        stored: find_storage(alloc, sources, events, directory, rotation)?,
    };
    push_rows(alloc, text, sources.records, &findings, calls)
}
