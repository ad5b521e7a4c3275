//! The log calls of a journal, each with the trace file that its frame went into.

ghost use Rattle.std.specs.Prelude.{◌≡◌, ◌++◌, ◌∷◌, [], ℕ, List, Option, IfOk, OnOk, length};
ghost use Rattle.dl_events.specs.declared.event.Event.{Event};
ghost use Rattle.dl_model.specs.Accounts.{AreNumbered};
ghost use Rattle.dl_model.specs.Frames.{FrameSource, stored_frames};
ghost use Rattle.dl_model.specs.Setting.{Setting};
ghost use Rattle.dl_model.specs.TraceFiles.{segments};
ghost use Rattle.dl_model.specs.WholeAccounts.{records_by, source_of_records};
ghost use Rattle.dl_fates.specs.StoredFound.{TellsFiles, TellsPlaces, file_sizes, place_by, removed_by, stored_by};
ghost use Rattle.dl_fates.specs.declared.fate.CallName.{CallName};

use crate::fate::CallName;
use crate::place::StoredPlace;
use crate::sizes::{going, put_frames};
use dl_bytes::OutOfMemory;
use dl_events::{Answer, Event, Record};
use dl_report::{Sources, admitted_by};
use std::alloc::Global;
use std::collections::HashMap;

/// The greatest number that the name of a trace file has.
const NUMBER_LIMIT: u64 = 999_999;

/// How many bytes a storage header has beside the id of the control unit.
const HEADER_FIELDS: u64 = 12;

/// What says into which files frames go.
#[derive(Clone, Copy, PartialEq, Eq)]
pub struct Rotation {
    /// The most bytes of one file.
    pub file_size: u32,
    /// The most bytes of all files.
    pub max_size: u32,
    /// The greatest number of a file that stood before; 0 where none did.
    pub newest: u32,
}

/// The trace files that the frames of log calls went into.
#[derive(Drop)]
pub struct StoredCalls {
    /// The greatest number of a file that stood before.
    pub newest: u32,
    /// How many of the files that were made are removed.
    pub removed: u64,
    /// Of each call that the daemon took, which of the files that were made it went into, from 1.
    pub files: HashMap<CallName, u64>,
}

/// Puts the frames that an event admits into files of at most `limit` bytes.
fn put_event(
    sizes: &mut Vec<u64>,
    sources: &Sources<'_, '_>,
    limit: u32,
    event: &Event,
) -> Result<(), OutOfMemory>
    requires { (number : ℕ) → AreNumbered (records_by number sources.now.records.now) }
    ensures { (setting : Setting) (before : List Event) → setting.ecu ≡ sources.now.ecu
        → sizes.old.items ≡ file_sizes (source_of_records setting sources.now.records.now sources.now.specs.now) limit before
        → OnOk result (sizes.new.items
        ≡ file_sizes (source_of_records setting sources.now.records.now sources.now.specs.now) limit (before ++ event.now ∷ [])) }
{
    let admitted = admitted_by(sources, event);
    let header = HEADER_FIELDS + sources.ecu.bytes().len() as u64;
    let Some(bytes) = admitted.size.checked_add(header) else {
        return Err(OutOfMemory);
    };
    put_frames(sizes, limit, bytes, admitted.frames)
}

/// Notes the file of the call that an event logs, where it logs one, and where that is the first time.
fn note_call(
    files: &mut HashMap<CallName, u64>,
    event: &Event,
    file: u64,
) -> Result<(), OutOfMemory>
    ensures { (source : FrameSource) (size : ℕ) (target : CallName → Option ℕ) (before after : List Event)
        → file ≡ length (segments size (stored_frames source (before ++ event.now ∷ [])))
        → TellsFiles source size target files.old before (event.now ∷ after)
        → OnOk result (TellsFiles source size target files.new (before ++ event.now ∷ []) after) }
{
    let Event::Log { writer, call, .. } = event else {
        return Ok(());
    };
    let name = CallName {
        writer: *writer,
        call: *call,
    };
    if files.get(&name).is_some() {
        return Ok(());
    }
    files.insert(name, file)?;
    Ok(())
}

/// How many of the files of these sizes are removed in the end: of the closed ones as many as have no room beside the open one.
fn removed_by(sizes: &[u64], rotation: Rotation) -> u64
    ensures { result ≡ removed_by rotation sizes.now }
{
    let names = NUMBER_LIMIT.saturating_sub(rotation.newest as u64) as usize;
    let closed = sizes.len().min(names).saturating_sub(1);
    let limit = rotation.max_size.saturating_sub(rotation.file_size);
    going(&sizes[..closed], limit as u64) as u64
}

/// Into which trace files the frames of the log calls of a journal went. It goes through the frames once.
pub fn find_stored(
    alloc: Global,
    sources: &Sources<'_, '_>,
    events: &[Event],
    rotation: Rotation,
) -> Result<StoredCalls, OutOfMemory>
    requires numbered { (number : ℕ) → AreNumbered (records_by number sources.now.records.now) }
    ensures { IfOk result (TellsPlaces sources.now rotation events.now) }
{
    let mut sizes = Vec::new(alloc);
    let mut files = HashMap::new(alloc);
    for place in 0..events.len() {
        let event = &events[place];
        put_event(&mut sizes, sources, rotation.file_size, event)?;
        note_call(&mut files, event, sizes.len() as u64)?;
    }
    Ok(StoredCalls {
        newest: rotation.newest,
        removed: removed_by(&sizes, rotation),
        files,
    })
}

impl StoredCalls {
    /// Where the frames of a file are in the end.
    fn place_by(&self, file: u64) -> StoredPlace
        ensures { result ≡ place_by self.now.newest self.now.removed file }
    {
        let Some(number) = (self.newest as u64).checked_add(file) else {
            return StoredPlace::TraceEnded;
        };
        if number > NUMBER_LIMIT {
            StoredPlace::TraceEnded
        } else if file <= self.removed {
            StoredPlace::Removed { number }
        } else {
            StoredPlace::InFile { number }
        }
    }

    /// Where the frame of a recorded call is in the end; none where nothing of the call is stored.
    pub fn place(&self, call: &Record) -> Option<StoredPlace>
        ensures { result ≡ stored_by self.now call.now }
    {
        match call.answer {
            Answer::Queued => {
                let name = CallName {
                    writer: call.item.writer,
                    call: call.item.call,
                };
                let file = self.files.get(&name)?;
                Some(self.place_by(*file))
            }
            Answer::Filtered | Answer::Lost => None,
        }
    }
}
