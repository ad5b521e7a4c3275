//! Files are read in pieces, one behind the other.

ghost use Rattle.std.specs.Prelude.{◌≡◌, ◌++◌, ℕ, List, OnOk};
ghost use Rattle.dl_sessions.specs.Follows.{Follows, IsAt};
ghost use Rattle.dl_sessions.specs.declared.session.Told.{Told};
ghost use Rattle.dl_trace_files.specs.Left.{IsLeft, ReadsFolder};
ghost use Rattle.dl_trace_why.specs.Reading.{called, within_words};
ghost use Rattle.dl_trace_why.specs.Reads.{AddsFile, EndsFile, Reads, ReadsNames, ReadsPieces};
ghost use Rattle.dl_trace_why.specs.Wanted.{files_wanted};

use crate::status::{Status, fault_status};
use crate::wanted::{FilesWanted, names_wanted};
use dl_bytes::OutOfMemory;
use dl_outside::{FolderFault, Name, NameList};
use dl_pieces::ReadAt;
use dl_sessions::{End, Follower, end_of, push_number};
use std::alloc::Global;

/// How many bytes are read at once.
const PIECE: usize = 65_536;

/// The most bytes that are read of a file, but for the last piece: 2^62.
const LIMIT: u64 = 4_611_686_018_427_387_904;

/// What files tell, one behind the other.
#[derive(Drop)]
pub struct Reading {
    /// What is counted of their messages.
    pub follower: Follower,
    /// A line for each file that ends within a message.
    pub ends: Vec<u8>,
}

/// How a file is called where it ends within a message: the stream, where it is the only file.
fn called(is_alone: bool, name: &Name) -> &[u8]
    ensures { result.now ≡ called is_alone name.now }
{
    if is_alone {
        b"the stream"
    } else {
        name.as_str().as_bytes()
    }
}

/// Adds a line for a file that ends within a message, of which so many bytes are there.
fn push_within(text: &mut Vec<u8>, label: &[u8], left: u64) -> Result<(), OutOfMemory>
    ensures { OnOk result (text.new.items ≡ text.old.items ++ within_words label.now left) }
{
    text.extend_from_slice(label)?;
    push_number(text, b" ends within a message: bytes left ", left)?;
    text.extend_from_slice(b"\n")
}

/// Reads a file in pieces up to its end, or to bytes that no message begins with. Answers how many bytes were read; nothing where there is no such file.
fn read_pieces<F: ReadAt>(
    folder: &mut F,
    follower: &mut Follower,
    name: &str,
) -> Result<Option<u64>, FolderFault>
    ensures read { (before : List Told) → IsAt before follower.old → ReadsPieces before name.now (F.told folder.old).files follower.new result }
    ensures looks { ReadsFolder (F.told folder.old) (F.told folder.new) result }
{
    let mut piece = [0; PIECE];
    let mut place = 0;
    while place < LIMIT {
        let count = match folder.read_at(name, place, &mut piece) {
            Ok(Some(count)) => count,
            Ok(None) => return Ok(None),
            Err(fault) => return Err(fault),
        };
        if count == 0 {
            return Ok(Some(place));
        }
        if follower.take(&piece[..count]).is_err() {
            return Err(FolderFault::OutOfMemory);
        }
        place += count as u64;
        if follower.is_bad() {
            return Ok(Some(place));
        }
    }
    Err(FolderFault::OutOfMemory)
}

/// Lets a file go that is called so, and of which so many bytes were read. Answers the place at which no message begins, where it has one.
fn end_file(reading: &mut Reading, label: &[u8], length: u64) -> Result<Option<u64>, OutOfMemory>
    ensures { (before : List Told) (bytes : List ℕ) → Follows before bytes reading.old.follower
        → EndsFile label.now before bytes length reading.old reading.new result }
{
    let rest = reading.follower.rest();
    let left = rest.len() as u64;
    match end_of(rest) {
        End::Whole => {
            reading.follower.close();
            Ok(None)
        }
        End::Within => {
            push_within(&mut reading.ends, label, left)?;
            reading.follower.close();
            Ok(None)
        }
        End::Bad => Ok(Some(length.saturating_sub(left))),
    }
}

/// Adds what a file tells; or says why it can't be read.
fn add_file<F: ReadAt>(
    folder: &mut F,
    reading: &mut Reading,
    is_alone: bool,
    name: Name,
) -> Result<(), Status>
    ensures adds { (before : List Told) → IsAt before reading.old.follower
        → AddsFile is_alone name before (F.told folder.old) (F.told folder.new) reading.old reading.new result }
    ensures left { IsLeft (F.told folder.old) (F.told folder.new) }
{
    match read_pieces(folder, &mut reading.follower, name.as_str()) {
        Ok(Some(length)) => match end_file(reading, called(is_alone, &name), length) {
            Ok(None) => Ok(()),
            Ok(Some(place)) => Err(Status::BadMessage { file: name, place }),
            Err(_) => Err(Status::OutOfMemory),
        },
        Ok(None) => Err(Status::NoFile { file: name }),
        Err(fault) => Err(fault_status(fault)),
    }
}

/// What the files of these names tell, one behind the other; or why one of them can't be read. What each message tells is kept, or isn't.
fn read_files<F: ReadAt>(
    alloc: Global,
    folder: &mut F,
    is_alone: bool,
    keeps: bool,
    names: Vec<Name>,
) -> Result<Reading, Status>
    ensures reads { ReadsNames is_alone names.items (F.told folder.old) (F.told folder.new) result }
    ensures left { IsLeft (F.told folder.old) (F.told folder.new) }
{
    let mut reading = Reading {
        follower: Follower::new(alloc, keeps),
        ends: Vec::new(alloc),
    };
    for name in names {
        match add_file(folder, &mut reading, is_alone, name) {
            Ok(()) => {}
            Err(status) => return Err(status),
        }
    }
    Ok(reading)
}

/// The same of files of which there must be one.
fn read_some<F: ReadAt>(
    alloc: Global,
    folder: &mut F,
    keeps: bool,
    names: NameList,
) -> Result<Reading, Status>
    ensures reads { Reads (λ files. names) (F.told folder.old) (F.told folder.new) result }
    ensures left { IsLeft (F.told folder.old) (F.told folder.new) }
{
    if names.all().is_empty() {
        return Err(Status::NoTrace);
    }
    let is_alone = names.all().len() == 1;
    read_files(alloc, folder, is_alone, keeps, names.into_vec())
}

/// What the files that are wanted tell; or why they can't be read. There must be one. What each message tells is kept, or isn't.
pub fn read_wanted<F: ReadAt>(
    alloc: Global,
    folder: &mut F,
    files: FilesWanted<'_>,
    keeps: bool,
) -> Result<Reading, Status>
    ensures reads { Reads (files_wanted files.entry) (F.told folder.old) (F.told folder.new) result }
    ensures left { IsLeft (F.told folder.old) (F.told folder.new) }
{
    match names_wanted(alloc, folder, files) {
        Ok(names) => read_some(alloc, folder, keeps, names),
        Err(fault) => Err(fault_status(fault)),
    }
}
