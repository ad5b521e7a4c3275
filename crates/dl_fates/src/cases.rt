//! The log calls of a script, as their picture shows them.

ghost use Rattle.std.specs.Prelude.{◌≡◌, ◌++◌, ◌∷◌, [], ℕ, IfOk, OnOk};
ghost use Rattle.std.specs.Option.{option_map_or};
ghost use Rattle.dl_model.specs.Accounts.{AreNumbered};
ghost use Rattle.dl_model.specs.Setting.{Setting};
ghost use Rattle.dl_model.specs.WholeAccounts.{records_by};
ghost use Rattle.dl_report.specs.Clients.{ComeAndGo};
ghost use Rattle.dl_fates.specs.Cases.{cases_by, cases_of_run, drawn_as, outcome_of};
ghost use Rattle.dl_fates.specs.Found.{said};
ghost use Rattle.dl_fates.specs.Written.{fate_in};

use crate::CallAt;
use crate::fate::Fate;
use crate::fates::{Fates, find_fates};
use crate::findings::{NOBODY, told_losses};
use crate::rows::{count_call, fate_in};
use dl_bytes::OutOfMemory;
use dl_call_timeline::{Call, Outcome, RecordName};
use dl_events::{Event, Record, RecordList};
use dl_report::{Sources, record_of};
use std::alloc::Global;
use std::collections::HashMap;

/// What a call counts as, where this line tells of it if it is lost.
fn outcome_of(told: Option<u64>, fate: Fate) -> Outcome
    ensures { result ≡ outcome_of told (said fate) }
{
    match fate {
        Fate::Filtered => Outcome::Filtered,
        Fate::RingFull => Outcome::Missing {
            told: Some(RecordName {
                line: told.unwrap_or(0),
                client: 0,
            }),
        },
        Fate::InRing => Outcome::InRing,
        Fate::BufferFull { next: None } => Outcome::Missing { told: None },
        Fate::BufferFull { next: Some(client) } => Outcome::Missing {
            told: Some(RecordName { line: 0, client }),
        },
        Fate::InStream { .. } | Fate::InBacklog { .. } | Fate::ForOthers => Outcome::Admitted,
    }
}

/// A call, as its picture shows it.
fn case_of(fates: &Fates, at: &CallAt, call: &Record) -> Call
    ensures { result ≡ drawn_as at.now call.now (fate_in fates.now call.now) }
{
    Call {
        writer: at.writer,
        line: at.line,
        ticks: call.item.at,
        outcome: outcome_of(at.told, fate_in(fates, call)),
    }
}

/// Adds a call, where it has a record.
fn push_case(
    cases: &mut Vec<Call>,
    fates: &Fates,
    at: &CallAt,
    call: Option<&Record>,
) -> Result<(), OutOfMemory>
    ensures { OnOk result (cases.new.items ≡ cases.old.items ++ option_map_or (λ r. drawn_as at.now r.now (fate_in fates.now r.now) ∷ []) call.entry []) }
{
    let Some(call) = call else {
        return Ok(());
    };
    cases.push(case_of(fates, at, call))?;
    Ok(())
}

/// The calls of a script, by the records of the run and what was found of each.
fn cases_by(
    alloc: Global,
    records: &RecordList,
    fates: &Fates,
    calls: &[CallAt],
) -> Result<Vec<Call>, OutOfMemory>
    requires { (number : ℕ) → AreNumbered (records_by number records.now) }
    ensures { IfOk result (λ cases. cases.items ≡ cases_by records.now fates.now calls.now) }
{
    let mut counts = HashMap::new(alloc);
    let mut cases = Vec::new(alloc);
    for at in calls {
        let number = count_call(&mut counts, at)?;
        push_case(&mut cases, fates, at, record_of(records, at.writer, number))?;
    }
    Ok(cases)
}

/// The calls of a script, by what its run left: its records, its events and its applications.
pub fn find_cases(
    alloc: Global,
    sources: &Sources<'_, '_>,
    events: &[Event],
    buffer: u32,
    calls: &[CallAt],
) -> Result<Vec<Call>, OutOfMemory>
    requires numbered { (number : ℕ) → AreNumbered (records_by number sources.now.records.now) }
    requires clients { ComeAndGo events.now }
    ensures { (setting : Setting) → let s = sources.now in setting.ecu ≡ s.ecu → IfOk result (λ cases.
        cases.items ≡ cases_of_run setting buffer s.records.now events.now s.specs.now calls.now) }
{
    if told_losses(events)? >= 1 << 63 {
        return Err(OutOfMemory);
    }
    let fates = find_fates(alloc, NOBODY, sources, events, buffer)?;
    cases_by(alloc, sources.records, &fates, calls)
}
