//! A new trace in the place of one that has ended: it begins with records of how many frames that one did not store.

ghost use Rattle.std.specs.Prelude.{◌≡◌, ◌<◌, Ok, length, true, false};
ghost use Rattle.dl_trace.specs.InFolder.{ChangesTraceFiles};
ghost use Rattle.dl_trace.specs.Storing.{StoresOrStops};
ghost use Rattle.dl_trace.specs.Writer.{trace_in};
ghost use Rattle.dl_core.specs.Follows.{RefusesRecords, TakesPlace, unstored_records};

use crate::daemon::Core;
use dl_bytes::{BATCH_LIMIT, COUNTER_LIMIT, Id, Moment};
use dl_message::overflow_frame;
use dl_outside::Folder;
use dl_trace::{StoredBatch, Trace, TraceWriter};

/// The application of the daemon's own messages.
const DAEMON: [u8; 4] = *b"DA1\0";

/// The context of what it tells of its trace.
const TRACE: [u8; 4] = *b"TRCE";

/// Gathers the records that tell how many frames were not stored: all of them, or as many as a batch holds. Answers whether these are all.
fn gather(batch: &mut StoredBatch, ecu: Id, moment: Moment, unstored: u64) -> bool
    ensures all { result ≡ true → batch.new ≡ unstored_records ecu moment unstored }
    ensures many { result ≡ false → 64 < length (unstored_records ecu moment unstored) }
{
    batch.clear();
    let mut left = unstored;
    while left > 0 {
        if batch.len() >= BATCH_LIMIT {
            return false;
        }
        let counter = left.min(COUNTER_LIMIT);
        let record = overflow_frame(
            ecu,
            Id::from_bytes(DAEMON),
            Id::from_bytes(TRACE),
            counter as u32,
        );
        batch.push(ecu, moment, record.bytes());
        left -= counter;
    }
    true
}

/// Stores the records that tell how many frames were not stored. Answers whether all of them are.
fn store_records<F: Folder>(
    trace: &mut Trace,
    batch: &mut StoredBatch,
    ecu: Id,
    moment: Moment,
    unstored: u64,
    folder: &mut F,
) -> bool
    ensures stored { result ≡ true → StoresOrStops (unstored_records ecu moment unstored) (Ok tt) trace.old trace.new (F.told folder.old) (F.told folder.new) }
    ensures refused { result ≡ false → RefusesRecords (unstored_records ecu moment unstored) trace.old (F.told folder.old) (F.told folder.new) }
    ensures others { ChangesTraceFiles trace.old.directory (F.told folder.old).files (F.told folder.new).files }
{
    if !gather(batch, ecu, moment, unstored) {
        return false;
    }
    trace.write_all(folder, batch).is_ok()
}

/// Has a trace in the place of the one that is kept.
fn take_place<F: Folder>(
    writer: &mut Option<TraceWriter>,
    ecu: Id,
    moment: Moment,
    trace: Trace,
    folder: &mut F,
) -> Option<u64>
    ensures takes { TakesPlace result ecu moment trace (trace_in writer.old) (trace_in writer.new) (F.told folder.old) (F.told folder.new) }
    ensures others { ChangesTraceFiles trace.directory (F.told folder.old).files (F.told folder.new).files }
{
    let Some(writer) = writer else {
        return None;
    };
    let unstored = writer.trace.unstored();
    let mut trace = trace;
    if !store_records(&mut trace, &mut writer.batch, ecu, moment, unstored, folder) {
        return None;
    }
    writer.trace = trace;
    Some(unstored)
}

impl Core {
    /// Has this trace in the place of the one that is kept, which has ended: first it stores the records that tell how many frames that one did not store,
    /// and from then on what is admitted. Answers how many those are; or nothing, where the trace could not store them: then the one that was kept stays, and
    /// its count goes on. It takes no memory.
    pub fn begin_trace<F: Folder>(
        &mut self,
        trace: Trace,
        moment: Moment,
        folder: &mut F,
    ) -> Option<u64>
        ensures takes { TakesPlace result self.old.ecu moment trace self.old.trace self.new.trace (F.told folder.old) (F.told folder.new) }
        ensures rest { self.new ≡ record self.old { trace = self.new.trace } }
        ensures others { ChangesTraceFiles trace.directory (F.told folder.old).files (F.told folder.new).files }
    {
        take_place(&mut self.trace, self.ecu, moment, trace, folder)
    }
}
