//! The rows of writers.

ghost use Rattle.std.specs.Prelude.{◌≡◌, List, IfOk, map};
ghost use Rattle.dl_picture.specs.Row.{shown};
ghost use Rattle.dl_picture.specs.Tally.{Keeps};
ghost use Rattle.dl_call_timeline.specs.Marks.{marks_of};
ghost use Rattle.dl_call_timeline.specs.Timeline.{row_of, rows_from, total_of};
ghost use Rattle.dl_call_timeline.specs.declared.scale.Scale.{Scale};

use crate::call::Call;
use crate::names::{push_name, push_note};
use dl_bytes::{Id, OutOfMemory};
use dl_picture::{Bin, Row, Tally, joined, no_bin};
use std::alloc::Global;

/// What all calls of a writer count.
fn total_of(calls: &[Call], writer: u64) -> Bin
    ensures { result ≡ total_of writer calls.now }
{
    let mut total = no_bin();
    for call in calls {
        if call.writer as u64 == writer {
            total = joined(&total, &call.counted());
        }
    }
    total
}

/// The row of a writer of this application.
fn row_of(
    alloc: Global,
    ecu: &Id,
    tally: &Tally,
    calls: &[Call],
    number: u64,
    apid: &Id,
) -> Result<Row, OutOfMemory>
    ensures { (scale : Scale) → Keeps tally.now (marks_of scale calls.now) → IfOk result (λ row. shown row ≡ row_of ecu.now scale calls.now number apid.now) }
{
    let mut name = Vec::new(alloc);
    push_name(&mut name, ecu, apid, number)?;
    let mut note = Vec::new(alloc);
    push_note(&mut note, &total_of(calls, number))?;
    Ok(Row {
        name,
        note,
        bins: tally.bins(alloc, number)?,
    })
}

/// The rows of the writers of these applications, numbered from 1.
pub fn rows_of(
    alloc: Global,
    ecu: &Id,
    tally: &Tally,
    calls: &[Call],
    writers: &[Id],
) -> Result<Vec<Row>, OutOfMemory>
    ensures { (scale : Scale) → Keeps tally.now (marks_of scale calls.now)
        → IfOk result (λ rows. map shown rows.items ≡ rows_from ecu.now scale calls.now 1 writers.now) }
{
    let mut rows = Vec::new(alloc);
    for place in 0..writers.len() {
        let row = row_of(alloc, ecu, tally, calls, place as u64 + 1, &writers[place])?;
        rows.push(row)?;
    }
    Ok(rows)
}
