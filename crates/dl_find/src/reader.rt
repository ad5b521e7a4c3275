//! A file that is read in pieces, message by message.

ghost use Rattle.std.specs.Prelude.{◌≡◌, ◌<◌, ◌++◌, ◌^◌, OnOk, Some, length};
ghost use Rattle.dl_find.specs.Rests.{Fronts, HasGiven, HasMore, IsNew, ReadsMore, StandsHere, at_end, rest_of};
ghost use Rattle.dl_sessions.specs.Stream.{end_of, first_place};
ghost use Rattle.dl_trace_files.specs.Left.{IsLeft, ReadsFolder};

use dl_bytes::OutOfMemory;
use dl_outside::FolderFault;
use dl_pieces::ReadAt;
use dl_sessions::{End, Place, behind, behind_first, end_of, first_place};
use std::alloc::Global;

/// How many bytes are read at once.
const PIECE: usize = 65_536;

/// The most bytes that are read of a file, but for the last piece: 2^62.
pub const LIMIT: u64 = 4_611_686_018_427_387_904;

/// From how many bytes on a rest that no message begins with stays one, whatever follows it: those of a storage header, and the front of a message.
const FRONT: usize = 20;

/// What stands at the front of what is left of a file.
#[derive(Clone, Copy)]
pub enum Front {
    /// A whole message.
    Message(Place),
    /// Nothing, or the beginning of a message; the file ends.
    End,
    /// Bytes that no message begins with.
    Bad,
    /// There is no such file.
    Missing,
}

/// A file that is read in pieces.
#[derive(Drop)]
pub struct Reader {
    alloc: Global,
    /// The bytes that were read last.
    held: Vec<u8>,
    /// How many of them were given.
    given: usize,
    /// How many bytes of the file were read.
    read: u64,
    /// The offset of what is left: of the first byte that was not given.
    offset: u64,
}

/// What stands at the front of these bytes, if more bytes don't change it.
fn front_of(rest: &[u8]) -> Option<Front>
    ensures { StandsHere rest.now result }
{
    if let Some(place) = first_place(rest) {
        return Some(Front::Message(place));
    }
    match end_of(rest) {
        End::Bad if rest.len() >= FRONT => Some(Front::Bad),
        End::Bad => None,
        End::Whole => None,
        End::Within => None,
    }
}

/// What stands at the front of a file's last bytes, which no whole message begins.
fn at_end(rest: &[u8]) -> Front
    ensures { result ≡ at_end (end_of rest.now) }
{
    match end_of(rest) {
        End::Bad => Front::Bad,
        End::Whole => Front::End,
        End::Within => Front::End,
    }
}

impl Reader {
    /// A file of which nothing was read.
    pub fn new(alloc: Global) -> Reader
        ensures { IsNew result }
    {
        Reader {
            alloc,
            held: Vec::new(alloc),
            given: 0,
            read: 0,
            offset: 0,
        }
    }

    /// What was read and not given.
    pub fn rest(&self) -> &[u8]
        ensures { result.now ≡ rest_of self.now }
    {
        behind(&self.held, self.given)
    }

    /// The offset of what is left.
    pub fn offset(&self) -> u64
        ensures { result ≡ self.now.offset }
    {
        self.offset
    }

    /// Takes the next bytes of the file.
    fn add(&mut self, piece: &[u8]) -> Result<(), OutOfMemory>
        requires { self.old.read < 2 ^ 62 }
        ensures { OnOk result (HasMore self.old piece.now self.new) }
    {
        let mut held = Vec::from_slice(self.alloc, self.rest())?;
        held.extend_from_slice(piece)?;
        self.held = held;
        self.given = 0;
        self.read += piece.len() as u64;
        Ok(())
    }

    /// Reads the next bytes of the file of this name. Answers how many; nothing where there is no such file.
    fn read_more<F: ReadAt>(
        &mut self,
        folder: &mut F,
        name: &str,
    ) -> Result<Option<usize>, FolderFault>
        requires { self.old.read < 2 ^ 62 }
        ensures reads { ReadsMore name.now (F.told folder.old).files self.old self.new result }
        ensures looks { ReadsFolder (F.told folder.old) (F.told folder.new) result }
    {
        let mut piece = [0; PIECE];
        let count = match folder.read_at(name, self.read, &mut piece) {
            Ok(Some(count)) => count,
            Ok(None) => return Ok(None),
            Err(fault) => return Err(fault),
        };
        match self.add(&piece[..count]) {
            Ok(()) => Ok(Some(count)),
            Err(_) => Err(FolderFault::OutOfMemory),
        }
    }

    /// What stands at the front of what is left of the file of this name: more of it is read where that is needed, and nothing is given.
    pub fn front<F: ReadAt>(&mut self, folder: &mut F, name: &str) -> Result<Front, FolderFault>
        ensures fronts { Fronts name.now (F.told folder.old).files self.old self.new result }
        ensures looks { ReadsFolder (F.told folder.old) (F.told folder.new) result }
    {
        while self.read < LIMIT {
            if let Some(front) = front_of(self.rest()) {
                return Ok(front);
            }
            let count = match self.read_more(folder, name) {
                Ok(Some(count)) => count,
                Ok(None) => return Ok(Front::Missing),
                Err(fault) => return Err(fault),
            };
            if count == 0 {
                return Ok(at_end(self.rest()));
            }
        }
        Err(FolderFault::OutOfMemory)
    }

    /// Gives the message that stands at the front.
    pub fn give(&mut self, place: &Place)
        requires { first_place (rest_of self.old) ≡ Some place.now }
        ensures { HasGiven self.old place.now self.new }
    {
        let left = behind_first(self.rest(), place).len();
        self.given = self.held.len().saturating_sub(left);
        self.offset = self
            .offset
            .saturating_add(place.before as u64)
            .saturating_add(place.len as u64);
    }
}
