//! The frames of one filter on their way into its files.

ghost use Rattle.std.specs.Prelude.{◌≡◌, ◌≤◌, ◌∷◌, [], ℕ, List, IfOk, IfSome, length};
ghost use Rattle.dl_message.specs.Frames.{log_message};
ghost use Rattle.dl_model.specs.Frames.{stored};
ghost use Rattle.dl_outside.specs.Told.{FolderTold};
ghost use Rattle.dl_trace.specs.InFolder.{ChangesTraceFiles};
ghost use Rattle.dl_model.specs.TraceFiles.{StoredFile};
ghost use Rattle.dl_storage.specs.Passing.{frame_for, frames_for};
ghost use Rattle.dl_storage.specs.Writing.{Begins, IsAfterFrames, IsSized, IsUntouched, Writes, WritesAny};

use crate::Filter;
use crate::calls::Calls;
use crate::ends::StoreEnd;
use crate::passing::{PassingCall, passing_call};
use dl_bytes::{Frame, Id, OutOfMemory};
use dl_events::Event;
use dl_message::write_log_frame;
use dl_outside::Folder;
use dl_trace::{StoredBatch, Trace};
use std::alloc::Global;

/// Where a frame is spelled before it is stored.
#[derive(Drop)]
pub struct Pen {
    /// The frame.
    pub frame: Frame,
    /// The same behind its storage header.
    pub batch: StoredBatch,
}

impl Pen {
    /// A pen that spelled nothing yet.
    pub fn make(alloc: Global) -> Result<Pen, OutOfMemory> {
        let batch = StoredBatch::make(alloc)?;
        Ok(Pen {
            frame: Frame::new(),
            batch,
        })
    }

    /// Spells the frame of a log call, and gives how many bytes it has behind its storage header.
    fn spell(&mut self, ecu: Id, call: &PassingCall<'_>) -> u64
        ensures batch { self.new.batch ≡ stored ecu call.now.moment (log_message ecu call.now.item.now) ∷ [] }
        ensures len { result ≡ length (stored ecu call.now.moment (log_message ecu call.now.item.now)) }
        ensures limit { (16 ≤ result) × (result ≤ 2000) }
    {
        write_log_frame(&mut self.frame, ecu, call.item);
        let frame = self.frame.bytes();
        self.batch.clear();
        self.batch.push(ecu, call.moment, frame);
        HEADER_LEN + frame.len() as u64
    }
}

/// The bytes of a storage header.
const HEADER_LEN: u64 = 16;

/// The trace of a filter, and what it stored.
#[derive(Drop)]
pub struct Writing {
    /// The filter's files.
    pub trace: Trace,
    /// How many frames it stored.
    pub frames: u64,
    /// Their bytes, with storage headers.
    pub bytes: u64,
}

impl Writing {
    /// Nothing is stored yet.
    pub fn over(trace: Trace) -> Writing
        ensures { result ≡ record { trace = trace; frames = 0; bytes = 0 } }
    {
        Writing {
            trace,
            frames: 0,
            bytes: 0,
        }
    }

    /// What is told of the filter.
    pub fn end(&self) -> StoreEnd
        ensures { result ≡ record { frames = self.now.frames; bytes = self.now.bytes; end = self.now.trace.state.end } }
    {
        StoreEnd {
            frames: self.frames,
            bytes: self.bytes,
            end: self.trace.state().end,
        }
    }

    /// Stores the frame of a log call, unless the trace has ended. All files that a trace can have hold far fewer bytes than
    /// the counts can tell.
    fn write<F: Folder>(&mut self, folder: &mut F, pen: &mut Pen, ecu: Id, call: &PassingCall<'_>)
        ensures written { Writes (stored ecu call.now.moment (log_message ecu call.now.item.now)) self.old self.new (F.told folder.old) (F.told folder.new) }
        ensures sized { IsSized (stored ecu call.now.moment (log_message ecu call.now.item.now)) }
        ensures others { ChangesTraceFiles self.old.trace.directory (F.told folder.old).files (F.told folder.new).files }
    {
        let bytes = pen.spell(ecu, call);
        match self.trace.write_all(folder, &pen.batch) {
            Ok(()) => {
                self.frames = self.frames.saturating_add(1);
                self.bytes = self.bytes.saturating_add(bytes);
            }
            Err(_) => {}
        }
    }
}

/// Stores the frame of an event, where its call passes the filter.
#[tactic(auto, using(dl_trace::proofs::Joined::unchanged))]
fn take_in<F: Folder>(
    writing: &mut Writing,
    folder: &mut F,
    pen: &mut Pen,
    ecu: Id,
    filter: &Filter,
    calls: &Calls<'_>,
    event: &Event,
)
    ensures written { WritesAny (frame_for ecu filter.now calls.now.records.now event.now) writing.old writing.new (F.told folder.old) (F.told folder.new) }
    ensures sized { IfSome (frame_for ecu filter.now calls.now.records.now event.now) IsSized }
    ensures others { ChangesTraceFiles writing.old.trace.directory (F.told folder.old).files (F.told folder.new).files }
{
    match passing_call(filter, calls, event) {
        Some(call) => writing.write(folder, pen, ecu, &call),
        None => {}
    }
}

/// Stores the frames of all events whose calls pass the filter, in order.
pub fn write_events<F: Folder>(
    trace: Trace,
    folder: &mut F,
    pen: &mut Pen,
    ecu: Id,
    filter: &Filter,
    calls: &Calls<'_>,
    events: &[Event],
) -> Writing
    ensures { (stood : List StoredFile) (start : FolderTold) → Begins trace stood start → IsUntouched start (F.told folder.old)
        → IsAfterFrames trace stood (frames_for ecu filter.now calls.now.records.now events.now) start (F.told folder.new) result }
{
    let mut writing = Writing::over(trace);
    for event in events {
        take_in(&mut writing, folder, pen, ecu, filter, calls, event);
    }
    writing
}
