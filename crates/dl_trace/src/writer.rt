//! Frames on their way into the trace files.

ghost use Rattle.std.specs.Prelude.{◌≡◌, ◌≤◌, ◌<◌, ◌++◌, ◌∷◌, [], IfOk, IfSome, option_map, length, List, ℕ};
ghost use Rattle.dl_bytes.specs.Limits.{frame_limit};
ghost use Rattle.dl_model.specs.Frames.{stored};
ghost use Rattle.dl_trace.specs.Written.{StoresIn, ChangesTraceAlone};
ghost use Rattle.dl_trace.specs.Writer.{HasBatch, trace_in};

use crate::batch::StoredBatch;
use crate::trace::Trace;
use dl_bytes::{Id, Moment, OutOfMemory, TraceState};
use dl_outside::Folder;
use std::alloc::Global;

/// A trace, with room for the frames of a batch.
#[derive(Drop)]
pub struct TraceWriter {
    /// The trace files.
    pub trace: Trace,
    /// The frames of the batch that is being admitted, behind their storage headers.
    pub batch: StoredBatch,
}

impl TraceWriter {
    /// What writes into this trace.
    pub fn over(alloc: Global, trace: Trace) -> Result<TraceWriter, OutOfMemory>
        ensures { IfOk result (λ writer. writer.trace ≡ trace) }
    {
        let batch = StoredBatch::make(alloc)?;
        Ok(TraceWriter { trace, batch })
    }

    /// The trace files that stand.
    pub fn into_state(self) -> TraceState
        ensures { result ≡ self.trace.state }
    {
        let TraceWriter { trace, .. } = self;
        trace.into_state()
    }
}

/// Stores a frame behind its storage header, where a trace is kept. Why one could not be stored, and how many could not, the
/// trace tells.
pub fn store<F: Folder>(
    writer: &mut Option<TraceWriter>,
    ecu: Id,
    moment: Moment,
    frame: &[u8],
    folder: &mut F,
)
    requires some { 0 < length frame.now }
    requires size { length frame.now ≤ frame_limit }
    ensures stored { StoresIn (stored ecu moment frame.now ∷ []) (trace_in writer.old) (trace_in writer.new) (F.told folder.old) (F.told folder.new) }
    ensures others { ChangesTraceAlone (trace_in writer.old) (F.told folder.old) (F.told folder.new) }
{
    begin_batch(writer);
    add_to_batch(writer, ecu, moment, frame);
    store_batch(writer, folder);
}

/// Begins a batch.
pub fn begin_batch(writer: &mut Option<TraceWriter>)
    ensures trace { trace_in writer.new ≡ trace_in writer.old }
    ensures batch { HasBatch [] writer.new }
{
    if let Some(writer) = writer {
        writer.batch.clear();
    }
}

/// Adds a frame to the batch, where a trace is kept.
pub fn add_to_batch(writer: &mut Option<TraceWriter>, ecu: Id, moment: Moment, frame: &[u8])
    requires some { 0 < length frame.now }
    requires size { length frame.now ≤ frame_limit }
    requires few { IfSome writer.old (λ w. length w.batch < 64) }
    ensures trace { trace_in writer.new ≡ trace_in writer.old }
    ensures batch { option_map (λ w. w.batch) writer.new ≡ option_map (λ w. w.batch ++ stored ecu moment frame.now ∷ []) writer.old }
{
    if let Some(writer) = writer {
        writer.batch.push(ecu, moment, frame);
    }
}

/// Stores the frames of the batch, where a trace is kept: each piece by one append.
pub fn store_batch<F: Folder>(writer: &mut Option<TraceWriter>, folder: &mut F)
    ensures stored { (frames : List (List ℕ)) → HasBatch frames writer.old
        → StoresIn frames (trace_in writer.old) (trace_in writer.new) (F.told folder.old) (F.told folder.new) }
    ensures others { ChangesTraceAlone (trace_in writer.old) (F.told folder.old) (F.told folder.new) }
{
    if let Some(writer) = writer {
        writer.trace.keep(folder, &writer.batch);
    }
}
