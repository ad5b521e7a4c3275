//! The log storage as a whole: each filter's messages into the filter's own files.

ghost use Rattle.std.specs.Prelude.{◌≡◌, ℕ, Some, IfOk, IfErr};
ghost use Rattle.dl_trace.specs.InFolder.{ChangesTraceFiles};
ghost use Rattle.dl_storage.specs.Ended.{EndHasCause};
ghost use Rattle.dl_storage.specs.Passing.{directory_of, frames_for};
ghost use Rattle.dl_outside.specs.Outside.{Stays};
ghost use Rattle.dl_trace.specs.Made.{HasFailed};
ghost use Rattle.dl_storage.specs.Beginning.{IsConf, IsFiltersTrace};
ghost use Rattle.dl_storage.specs.Storing.{AreStored, ChangesFiltersFiles, IsStored};

use crate::calls::Calls;
use crate::ends::{StoreEnd, StoreEnds};
use crate::writing::{Pen, write_events};
use crate::{Filter, FilterList};
use dl_bytes::{Bytes, Conf, Id, Level, OutOfMemory, Sequence, Severity, TraceEnd};
use dl_events::{Event, RecordList};
use dl_outside::Folder;
use dl_trace::{Trace, TraceFault};
use std::alloc::Global;

/// Where the directories of all filters are.
const FRONT: &[u8] = b"storage/";

/// The most bytes of a backlog, which no trace has.
const BUFFER: u32 = 10_000_000;

/// The directory of a filter's files.
fn directory_of(alloc: Global, filter: &Filter) -> Result<Bytes, OutOfMemory>
    ensures { IfOk result (λ directory. directory ≡ directory_of filter.now) }
{
    let mut directory = Vec::from_slice(alloc, FRONT)?;
    directory.extend_from_slice(filter.name.all())?;
    Ok(Bytes::over(directory))
}

/// The configuration of a filter's trace: its directory and its sizes.
fn trace_conf(alloc: Global, ecu: Id, filter: &Filter) -> Result<Conf, OutOfMemory>
    ensures { IfOk result (IsConf filter.now) }
{
    Ok(Conf {
        ecu,
        level: Level::from(Severity::Info),
        buffer: BUFFER,
        directory: directory_of(alloc, filter)?,
        file_size: filter.size,
        max_size: filter.max,
        injection: true,
    })
}

/// The trace of a filter, over the files that stand in its directory.
fn trace_of<F: Folder>(
    alloc: Global,
    folder: &mut F,
    ecu: Id,
    filter: &Filter,
) -> Result<Trace, TraceFault>
    ensures begun { IfOk result (λ trace. IsFiltersTrace filter.now trace (F.told folder.old)) }
    ensures stays { Stays (F.told folder.old).files (F.told folder.new).files }
    ensures cause { HasFailed (F.told folder.old).faults (F.told folder.new).faults result }
{
    let conf = match trace_conf(alloc, ecu, filter) {
        Ok(conf) => conf,
        Err(_) => return Err(TraceFault::OutOfMemory),
    };
    Trace::make(alloc, folder, &conf)
}

/// Nothing is stored, for this cause.
fn nothing(end: TraceEnd) -> StoreEnd
    ensures { result ≡ record { frames = 0; bytes = 0; end = Some end } }
{
    StoreEnd {
        frames: 0,
        bytes: 0,
        end: Some(end),
    }
}

/// Stores the messages that pass one filter.
fn store_one<F: Folder>(
    alloc: Global,
    folder: &mut F,
    pen: &mut Pen,
    ecu: Id,
    filter: &Filter,
    calls: &Calls<'_>,
    events: &[Event],
) -> StoreEnd
    ensures stored { IsStored filter.now (frames_for ecu filter.now calls.now.records.now events.now) (F.told folder.old).files (F.told folder.new).files result }
    ensures cause { EndHasCause (F.told folder.old).faults (F.told folder.new).faults result.end }
    ensures others { ChangesTraceFiles (directory_of filter.now) (F.told folder.old).files (F.told folder.new).files }
{
    match trace_of(alloc, folder, ecu, filter) {
        Ok(trace) => write_events(trace, folder, pen, ecu, filter, calls, events).end(),
        Err(TraceFault::Failed) => nothing(TraceEnd::Failed),
        Err(TraceFault::OutOfMemory) => nothing(TraceEnd::NoMemory),
    }
}

/// Stores the messages of a settled run that pass the filters: those of each filter behind storage headers, in the order in
/// which they were admitted, in files of its own below `storage`. The first file that is begun goes on behind those that
/// stand there. A filter whose files can't be written ends, and the others go on.
///
/// A Log event without a record is passed over. Where there is no memory for the answer, the folder is as it was.
pub fn store<F: Folder>(
    alloc: Global,
    folder: &mut F,
    ecu: Id,
    filters: &FilterList,
    records: &RecordList,
    events: &[Event],
) -> Result<StoreEnds, OutOfMemory>
    ensures stored { IfOk result (λ ends. AreStored ecu records.now events.now (F.told folder.old).files (F.told folder.new).files
        (F.told folder.old).faults (F.told folder.new).faults filters.now ends.filters) }
    ensures others { ChangesFiltersFiles filters.now (F.told folder.old).files (F.told folder.new).files }
    ensures refused { IfErr result (λ none. folder.new ≡ folder.old) }
{
    let mut ends = Vec::with_capacity(alloc, filters.all().len())?;
    let mut pen = Pen::make(alloc)?;
    let calls = Calls::over(records);
    for filter in filters.all() {
        let end = store_one(alloc, folder, &mut pen, ecu, filter, &calls, events);
        ends.push(end).unwrap();
    }
    Ok(StoreEnds {
        filters: Sequence::over(ends),
    })
}
