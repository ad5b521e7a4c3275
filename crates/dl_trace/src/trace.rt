//! The trace itself: which file a piece goes into, and what is told of the files.

ghost use Rattle.std.specs.Prelude.{◌≡◌, ◌≤◌, ◌<◌, ◌+◌, ◌-◌, ◌∷◌, ◌++◌, [], ℕ, List, true, false, codes, length, max, take, drop, sum, None, Some, Ok, Err, IfOk, IfErr, IfNone, IfSome, if◌then◌else◌};
ghost use Rattle.dl_model.specs.TraceFiles.{StoredFile, number_limit, six_digits};
ghost use Rattle.dl_outside.specs.Outside.{Stays};
ghost use Rattle.dl_trace.specs.Batch.{AreSizes, IsNext, fit, parted};
ghost use Rattle.dl_trace.specs.Found.{AreFound, IsNoFile, IsSize};
ghost use Rattle.dl_trace.specs.Made.{HasFailed, IsMade, fault_of};
ghost use Rattle.dl_trace.specs.Pieces.{pieces_of, room_of};
ghost use Rattle.dl_trace.specs.InFolder.{ChangesTraceFiles, HasFiles};
ghost use Rattle.dl_trace.specs.State.{IsAfter, missing};
ghost use Rattle.dl_trace.specs.Steps.{BeginsFile, ExtendsTrace, Places};
ghost use Rattle.dl_trace.specs.Storing.{HasCause, Stops, StoresNext, StoresOrStops};
ghost use Rattle.dl_trace.specs.Written.{Stores};

use crate::batch::StoredBatch;
use crate::files::{begin_file, extend_file};
use crate::name::{NUMBER_LIMIT, as_text, file_name, name_front, number_of};
use dl_bytes::{Bytes, Conf, OutOfMemory, Sequence, TraceEnd, TraceFile, TraceState};
use dl_outside::{Folder, FolderFault, Name};
use std::alloc::Global;
use std::marker::Model;
use std::mem::replace;

/// Why a trace can't be made.
#[derive(Clone, Copy, Debug, PartialEq, Eq)]
pub enum TraceFault {
    /// The folder failed.
    Failed,
    /// There was no memory.
    OutOfMemory,
}

impl From<OutOfMemory> for TraceFault {
    ghost use Rattle.dl_trace.specs.declared.trace.TraceFault.TheVariants as fault;

    ghost from_gives = { λ _ made. made ≡ fault.OutOfMemory };

    fn from(_none: OutOfMemory) -> TraceFault {
        TraceFault::OutOfMemory
    }
}

impl From<FolderFault> for TraceFault {
    ghost from_gives = { λ refused made. made ≡ fault_of refused };

    fn from(refused: FolderFault) -> TraceFault {
        match refused {
            FolderFault::Failed => TraceFault::Failed,
            FolderFault::OutOfMemory => TraceFault::OutOfMemory,
        }
    }
}

/// The trace files of a directory: what stands, and which file is open.
#[derive(Drop)]
pub struct Trace {
    alloc: Global,
    directory: Bytes,
    file_size: u32,
    max_size: u32,
    state: TraceState,
    last: u32,
    begun: bool,
    unstored: u64,
}

impl Model for Trace {
    ghost use Rattle.dl_trace.specs.State as seen;
    ghost use Rattle.dl_trace.specs.Kept.{IsSound};

    ghost Value = { seen.Trace };

    ghost view = { λ t. record {
      directory = t.directory;
      file_size = t.file_size;
      max_size = t.max_size;
      state = t.state;
      last = t.last;
      begun = t.begun;
      unstored = t.unstored;
    } };

    ghost invariant = { λ t. IsSound (record {
      directory = t.directory;
      file_size = t.file_size;
      max_size = t.max_size;
      state = t.state;
      last = t.last;
      begun = t.begun;
      unstored = t.unstored;
    }) };
}

/// Frames that go into one file.
#[derive(Clone, Copy)]
struct Piece {
    /// How many they are.
    frames: usize,
    /// How many bytes they have together.
    bytes: usize,
}

/// The longest front of frames of these sizes that has room.
fn front_of(sizes: &[u16], room: u32) -> Piece
    ensures frames { result.frames ≡ fit room sizes.now }
    ensures bytes { result.bytes ≡ sum (take (fit room sizes.now) sizes.now) }
    ensures within { result.frames ≤ length sizes.now }
    ensures room { result.bytes ≤ room }
{
    let mut piece = Piece {
        frames: 0,
        bytes: 0,
    };
    for size in sizes {
        if piece.bytes + *size as usize > room as usize {
            return piece;
        }
        piece.frames += 1;
        piece.bytes += *size as usize;
    }
    piece
}

/// How many bytes the next piece may have.
fn room_for(begins: bool, file_size: u32, room: u32) -> u32
    ensures { result ≡ (if begins then file_size else room) }
{
    if begins { file_size } else { room }
}

impl Trace {
    /// The trace files that stand, the oldest first, and why nothing more is stored, where that is so. After an end
    /// these are the files and sizes after the last piece whose append and removals were done.
    pub fn state(&self) -> &TraceState
        ensures { result.now ≡ self.now.state }
    {
        &self.state
    }

    /// The same by value.
    pub fn into_state(self) -> TraceState
        ensures { result ≡ self.state }
    {
        self.state
    }

    /// How many frames that were to be stored are not, since the trace has ended: at most 2^64 - 1.
    pub fn unstored(&self) -> u64
        ensures { result ≡ self.now.unstored }
    {
        self.unstored
    }

    /// Counts so many frames that were to be stored, and are not.
    fn miss(&mut self, frames: usize)
        ensures { self.new ≡ missing frames self.old }
    {
        self.unstored = self.unstored.saturating_add(frames as u64);
    }

    /// How many bytes more the open file may have; none where none is open.
    fn room(&self) -> u32
        ensures value { result ≡ room_of self.now }
        ensures within { result ≤ self.now.file_size }
    {
        match self.state.files.all().last() {
            Some(open) if self.begun => self.file_size - open.bytes as u32,
            _ => 0,
        }
    }

    /// Adds a piece to the open file, which has room for it.
    fn extend<F: Folder>(&mut self, folder: &mut F, piece: &[u8]) -> Result<(), TraceEnd>
        requires open { self.old.begun ≡ true }
        requires room { length piece.now ≤ room_of self.old }
        ensures trace { ExtendsTrace self.old self.new (F.told folder.old).files (F.told folder.new).files result piece.now }
        ensures cause { HasCause (F.told folder.old).faults (F.told folder.new).faults result }
        ensures appends { (F.told folder.new).appends ≤ (F.told folder.old).appends + 1 }
    {
        let none = Sequence::over(Vec::new(self.alloc));
        let mut files = replace(&mut self.state.files, none).into_vec();
        let outcome = extend_file(&mut files, folder, piece);
        self.state.files = Sequence::over(files);
        outcome
    }

    /// Begins the next file with a piece, and lets the oldest go that have no room beside it.
    fn begin<F: Folder>(&mut self, folder: &mut F, piece: &[u8]) -> Result<(), TraceEnd>
        requires number { self.old.last < number_limit }
        requires size { length piece.now ≤ self.old.file_size }
        ensures trace { BeginsFile self.old self.new (F.told folder.old).files (F.told folder.new).files result piece.now }
        ensures cause { HasCause (F.told folder.old).faults (F.told folder.new).faults result }
        ensures appends { (F.told folder.new).appends ≤ (F.told folder.old).appends + 1 }
    {
        let Ok(name) = file_name(self.alloc, self.directory.all(), self.last + 1) else {
            return Err(TraceEnd::NoMemory);
        };
        let limit = (self.max_size - self.file_size) as u64;
        let none = Sequence::over(Vec::new(self.alloc));
        let mut files = replace(&mut self.state.files, none).into_vec();
        let outcome = begin_file(&mut files, folder, Bytes::over(name), piece, limit);
        self.state.files = Sequence::over(files);
        outcome?;
        self.last += 1;
        self.begun = true;
        Ok(())
    }

    /// Puts a piece where it goes: into the open file, or into the next one.
    fn place<F: Folder>(
        &mut self,
        folder: &mut F,
        piece: &[u8],
        begins: bool,
    ) -> Result<(), TraceEnd>
        requires open { begins ≡ false → self.old.begun ≡ true }
        requires room { begins ≡ false → length piece.now ≤ room_of self.old }
        requires size { length piece.now ≤ self.old.file_size }
        ensures trace { Places begins self.old self.new (F.told folder.old).files (F.told folder.new).files result piece.now }
        ensures cause { HasCause (F.told folder.old).faults (F.told folder.new).faults result }
        ensures appends { (F.told folder.new).appends ≤ (F.told folder.old).appends + 1 }
    {
        if !begins {
            return self.extend(folder, piece);
        }
        if self.last == NUMBER_LIMIT {
            return Err(TraceEnd::Spent);
        }
        self.begin(folder, piece)
    }

    /// Whether the next frame, of this size, begins a file: the open one has no room for it, or none is open.
    fn begins(&self, size: u16) -> bool
        ensures new { result ≡ true → room_of self.now < size }
        ensures open { result ≡ false → size ≤ room_of self.now }
    {
        size as u32 > self.room()
    }

    /// Stores the next piece: the longest front of frames, of these sizes, that goes into one file. A refusal ends the
    /// trace.
    fn store_next<F: Folder>(
        &mut self,
        folder: &mut F,
        sizes: &[u16],
        bytes: &[u8],
    ) -> Result<Piece, TraceEnd>
        requires goes_on { self.old.state.end ≡ None }
        requires some { 0 < length sizes.now }
        requires sizes { AreSizes sizes.now bytes.now }
        ensures next { IfOk result (λ piece. IsNext piece.frames piece.bytes sizes.now) }
        ensures stored { IfOk result (λ next. StoresNext next.frames (parted sizes.now bytes.now) self.old self.new (F.told folder.old).files (F.told folder.new).files) }
        ensures stopped { IfErr result (λ end. Stops end (parted sizes.now bytes.now) self.old self.new (F.told folder.old).files (F.told folder.new).files) }
        ensures cause { HasCause (F.told folder.old).faults (F.told folder.new).faults result }
        ensures appends { (F.told folder.new).appends ≤ (F.told folder.old).appends + 1 }
        ensures others { ChangesTraceFiles self.old.directory (F.told folder.old).files (F.told folder.new).files }
    {
        let begins = self.begins(sizes[0]);
        let piece = front_of(sizes, room_for(begins, self.file_size, self.room()));
        match self.place(folder, &bytes[..piece.bytes], begins) {
            Ok(()) => Ok(piece),
            Err(end) => {
                self.state.end = Some(end);
                self.miss(sizes.len());
                Err(end)
            }
        }
    }

    /// Stores frames of these sizes, piece by piece.
    fn store<F: Folder>(
        &mut self,
        folder: &mut F,
        sizes: &[u16],
        bytes: &[u8],
    ) -> Result<(), TraceEnd>
        requires { AreSizes sizes.now bytes.now }
        ensures ended { IfSome self.old.state.end (λ end. (result ≡ Err end) × (self.new ≡ self.old) × (folder.new ≡ folder.old)) }
        ensures stored { IfNone self.old.state.end (StoresOrStops (parted sizes.now bytes.now) result self.old self.new (F.told folder.old) (F.told folder.new)) }
        ensures appends { (F.told folder.new).appends ≤ (F.told folder.old).appends + length (pieces_of self.old (parted sizes.now bytes.now)) }
        ensures others { ChangesTraceFiles self.old.directory (F.told folder.old).files (F.told folder.new).files }
    {
        match self.state.end {
            Some(end) => return Err(end),
            None => {}
        }
        let mut sizes = sizes;
        let mut bytes = bytes;
        while !sizes.is_empty() {
            match self.store_next(folder, sizes, bytes) {
                Ok(piece) => {
                    sizes = sizes.split_at(piece.frames).1;
                    bytes = bytes.split_at(piece.bytes).1;
                }
                Err(end) => return Err(end),
            }
        }
        Ok(())
    }

    /// Stores a frame behind its storage header, 17 to 2000 bytes. After an `Err` every later call answers the same and
    /// does nothing.
    pub fn write<F: Folder>(&mut self, folder: &mut F, stored: &[u8]) -> Result<(), TraceEnd>
        requires least { 17 ≤ length stored.now }
        requires most { length stored.now ≤ 2000 }
        ensures ended { IfSome self.old.state.end (λ end. (result ≡ Err end) × (self.new ≡ self.old) × (folder.new ≡ folder.old)) }
        ensures stored { IfNone self.old.state.end (StoresOrStops (stored.now ∷ []) result self.old self.new (F.told folder.old) (F.told folder.new)) }
        ensures appends { (F.told folder.new).appends ≤ (F.told folder.old).appends + 1 }
        ensures others { ChangesTraceFiles self.old.directory (F.told folder.old).files (F.told folder.new).files }
    {
        self.store(folder, &[stored.len() as u16], stored)
    }

    /// Stores the frames of a batch: cut into pieces, each the longest next part that goes into one file, and each
    /// appended by one call. After an `Err` every later call answers the same and does nothing.
    pub fn write_all<F: Folder>(
        &mut self,
        folder: &mut F,
        batch: &StoredBatch,
    ) -> Result<(), TraceEnd>
        ensures ended { IfSome self.old.state.end (λ end. (result ≡ Err end) × (self.new ≡ self.old) × (folder.new ≡ folder.old)) }
        ensures stored { IfNone self.old.state.end (StoresOrStops batch.now result self.old self.new (F.told folder.old) (F.told folder.new)) }
        ensures appends { (F.told folder.new).appends ≤ (F.told folder.old).appends + length (pieces_of self.old batch.now) }
        ensures others { ChangesTraceFiles self.old.directory (F.told folder.old).files (F.told folder.new).files }
    {
        let (sizes, bytes) = batch.parts();
        self.store(folder, sizes, bytes)
    }

    /// The same for who doesn't ask what became of them: frames that come behind the end are counted.
    pub(crate) fn keep<F: Folder>(&mut self, folder: &mut F, batch: &StoredBatch)
        ensures stored { Stores batch.now self.old self.new (F.told folder.old) (F.told folder.new) }
        ensures others { ChangesTraceFiles self.old.directory (F.told folder.old).files (F.told folder.new).files }
    {
        if self.state.end.is_some() {
            self.miss(batch.len());
            return;
        }
        let _ = self.write_all(folder, batch);
    }
}

/// Trace files that stand.
#[derive(Drop)]
struct OldFiles {
    /// What is told of them.
    files: Vec<TraceFile>,
    /// The greatest of their numbers; 0 where there is none.
    last: u32,
}

/// The greater of two numbers.
fn greater(a: u32, b: u32) -> u32
    ensures { result ≡ max a b }
{
    if a < b { b } else { a }
}

/// The number and the size of a file, where it is a trace file and is still there.
fn ask<F: Folder>(
    folder: &mut F,
    front: &[u8],
    name: &Name,
) -> Result<Option<(u32, u64)>, TraceFault>
    ensures found { IfOk result (λ found. IfSome found (λ file. (1 ≤ file.0) × (file.0 ≤ number_limit)
        × (name.now ≡ front.now ++ six_digits file.0 ++ codes ".dlt") × IsSize (F.told folder.old).files name.now file.1)) }
    ensures none { IfOk result (λ found. IfNone found (IsNoFile (F.told folder.old).files front.now name.now)) }
    ensures stays { Stays (F.told folder.old).files (F.told folder.new).files }
    ensures cause { HasFailed (F.told folder.old).faults (F.told folder.new).faults result }
    ensures unchanged { (F.told folder.new).changes ≡ (F.told folder.old).changes }
    ensures unappended { (F.told folder.new).appends ≡ (F.told folder.old).appends }
{
    let Some(number) = number_of(front, name.as_str().as_bytes()) else {
        return Ok(None);
    };
    match folder.size(name.as_str()) {
        Ok(Some(bytes)) => Ok(Some((number, bytes))),
        Ok(None) => Ok(None),
        Err(fault) => Err(TraceFault::from(fault)),
    }
}

/// Asks for the size of each trace file among these names. A file that is gone by then counts as not there.
fn old_files<F: Folder>(
    alloc: Global,
    folder: &mut F,
    directory: &[u8],
    front: &[u8],
    names: &[Name],
) -> Result<OldFiles, TraceFault>
    requires { front.now ≡ directory.now ++ codes "/dlt_offlinetrace." }
    ensures found { IfOk result (λ old. AreFound directory.now (F.told folder.old).files names.now old.files.items old.last) }
    ensures stays { Stays (F.told folder.old).files (F.told folder.new).files }
    ensures cause { HasFailed (F.told folder.old).faults (F.told folder.new).faults result }
    ensures unchanged { (F.told folder.new).changes ≡ (F.told folder.old).changes }
    ensures unappended { (F.told folder.new).appends ≡ (F.told folder.old).appends }
{
    let mut files = Vec::new(alloc);
    let mut last = 0;
    for name in names {
        let Some((number, bytes)) = ask(folder, front, name)? else {
            continue;
        };
        let name = Bytes::over(file_name(alloc, directory, number)?);
        match files.push(TraceFile { name, bytes }) {
            Ok(()) => {}
            Err(_) => return Err(TraceFault::OutOfMemory),
        }
        last = greater(last, number);
    }
    Ok(OldFiles { files, last })
}

impl Trace {
    /// The trace of a configuration that names a directory, over the trace files that stand in it. They are gone on
    /// with: the first file that is begun has the number after the greatest.
    pub fn make<F: Folder>(alloc: Global, folder: &mut F, conf: &Conf) -> Result<Trace, TraceFault>
        requires { 0 < length conf.now.directory }
        ensures made { IfOk result (λ trace. IsMade conf.now trace) }
        ensures stood { IfOk result (λ trace. (stood : List StoredFile) × IsAfter stood [] trace
            × IfSome (F.told folder.old).files (λ files. HasFiles conf.now.directory files stood)) }
        ensures stays { Stays (F.told folder.old).files (F.told folder.new).files }
        ensures cause { HasFailed (F.told folder.old).faults (F.told folder.new).faults result }
        ensures unchanged { (F.told folder.new).changes ≡ (F.told folder.old).changes }
        ensures unappended { (F.told folder.new).appends ≡ (F.told folder.old).appends }
    {
        let directory = Vec::from_slice(alloc, conf.directory.all())?;
        let front = name_front(alloc, &directory)?;
        let names = folder.names(as_text(&front))?;
        let stood = old_files(alloc, folder, &directory, &front, names.all())?;
        Ok(Trace {
            alloc,
            directory: Bytes::over(directory),
            file_size: conf.file_size,
            max_size: conf.max_size,
            state: TraceState {
                files: Sequence::over(stood.files),
                end: None,
            },
            last: stood.last,
            begun: false,
            unstored: 0,
        })
    }
}
