//! A folder in memory.

ghost use Rattle.std.specs.Prelude.{◌≡◌, ◌≢◌, ◌<◌, ◌≤◌, ◌+◌, ◌++◌, [], IfErr, IfOk, IsOk, OnOk, ◌^◌, Some, None, true, false, length, if◌then◌else◌};
ghost use Rattle.std.specs.FinMap.Entries.{put};
ghost use Rattle.std.specs.Ordering.{nat_cmp};
ghost use Rattle.std.specs.Cmp.Lexicographic.{slice_cmp};
ghost use Rattle.std.specs.Vec.{vec_capacity};
ghost use Rattle.dl_outside.specs.Folder.{Appends, HasCause, IsOldOrNew, Puts};
ghost use Rattle.dl_outside.specs.Outside.{one_more};
ghost use Rattle.dl_memory.specs.Shelf.{HasRoom, files_of, held_by, with_entry};
ghost use Rattle.dl_pieces.specs.Pieces.{AreReadAt};

use crate::shelf::{Entry, Place, cut, find, paste};
use arrayvec::ArrayString;
use dl_bytes::{Bytes, OutOfMemory};
use dl_outside::{Folder, FolderFault, Name, NameList};
use dl_pieces::ReadAt;
use std::alloc::Global;
use std::marker::Model;

/// A folder in memory, with room for so many files and bytes. Its names have at most 255 bytes. It never fails, and
/// within its room takes no memory; what doesn't fit is refused as out of memory.
#[derive(Drop)]
pub struct MemoryFolder {
    alloc: Global,
    entries: Vec<Entry>,
    bytes: Vec<u8>,
    most_files: usize,
    most_bytes: usize,
    changes: u64,
    appends: u64,
}

impl Model for MemoryFolder {
    ghost use Rattle.std.specs.Vec.{vec_capacity};
    ghost use Rattle.dl_memory.specs.Shelf.{Stands, Stock, files_in};

    ghost Value = { Stock };

    ghost view = { λ f. record {
      files = files_in f.entries.items f.bytes.items;
      most_files = f.most_files;
      most_bytes = f.most_bytes;
      changes = f.changes;
      appends = f.appends;
    } };

    ghost invariant = { λ f. Stands f.entries.items f.bytes.items (vec_capacity f.entries) (vec_capacity f.bytes) f.most_files f.most_bytes };
}

/// Puts an entry at its place. There is room for one more.
fn set(entries: &mut Vec<Entry>, place: Place, entry: Entry)
    requires within { place.index ≤ length entries.old.items }
    requires there { place.size ≢ None → place.index < length entries.old.items }
    requires room { place.size ≡ None → length entries.old.items < vec_capacity entries.old }
    ensures items { entries.new.items ≡ with_entry entries.old.items place entry }
    ensures room { vec_capacity entries.old ≤ vec_capacity entries.new }
{
    match place.size {
        Some(_) => entries[place.index] = entry,
        None => {
            let _ = entries.insert(place.index, entry);
        }
    }
}

/// How many bytes of a file stay when it is written: all of them, or none.
fn kept(keeps: bool, size: usize) -> usize
    ensures value { result ≡ (if keeps then size else 0) }
    ensures within { result ≤ size }
{
    if keeps { size } else { 0 }
}

/// Whether a file at this place may have so many bytes more.
fn has_room(free_files: usize, free_bytes: usize, place: Place, more: usize) -> bool
    ensures room { result ≡ true → (more ≤ free_bytes) × (place.size ≡ None → 0 < free_files) }
    ensures only { more ≤ free_bytes → (place.size ≡ None → 0 < free_files) → result ≡ true }
{
    (place.size.is_some() || free_files > 0) && more <= free_bytes
}

impl MemoryFolder {
    /// An empty folder with room for so many files, and for so many bytes in all of them. The memory is taken here.
    pub fn make(alloc: Global, files: usize, bytes: usize) -> Result<MemoryFolder, OutOfMemory>
        requires { bytes < 2 ^ 63 }
        ensures { IfOk result (λ folder. folder ≡ record { files = []; most_files = files; most_bytes = bytes; changes = 0; appends = 0 }) }
    {
        let entries = Vec::with_capacity(alloc, files)?;
        let room = Vec::with_capacity(alloc, bytes)?;
        Ok(MemoryFolder {
            alloc,
            entries,
            bytes: room,
            most_files: files,
            most_bytes: bytes,
            changes: 0,
            appends: 0,
        })
    }

    /// Writes a file: what it holds, where that is kept, and then the piece. Where there is no room nothing changes.
    fn write(&mut self, name: &str, keeps: bool, piece: &[u8]) -> Result<(), FolderFault>
        ensures written { OnOk result (self.new ≡ record self.old {
          files = put (slice_cmp nat_cmp) name.now ((if keeps then held_by self.old name.now else []) ++ piece.now) self.old.files;
        }) }
        ensures refused { IfErr result (λ fault. (fault ≡ FolderFault.OutOfMemory) × (self.new ≡ self.old)) }
        ensures room { HasRoom self.old name.now ((if keeps then length (held_by self.old name.now) else 0) + length piece.now) → IsOk result }
    {
        let Ok(text) = ArrayString::from(name) else {
            return Err(FolderFault::OutOfMemory);
        };
        let place = find(&self.entries, name);
        let size = place.size.unwrap_or(0);
        let stays = kept(keeps, size);
        let free_files = self.most_files.saturating_sub(self.entries.len());
        let free_bytes = self.most_bytes - (self.bytes.len() - size) - stays;
        if !has_room(free_files, free_bytes, place, piece.len()) {
            return Err(FolderFault::OutOfMemory);
        }
        cut(&mut self.bytes, place.start + stays, size - stays);
        paste(&mut self.bytes, place.start + stays, piece);
        let entry = Entry {
            name: text,
            size: stays + piece.len(),
        };
        set(&mut self.entries, place, entry);
        Ok(())
    }
}

/// Copies bytes, from this place on, to the front of `into`. Answers how many.
fn copy_at(bytes: &[u8], place: u64, into: &mut [u8]) -> usize
    requires { 0 < length into.old }
    ensures few { result ≤ length into.new }
    ensures part { AreReadAt bytes.now place result into.new }
{
    if place >= bytes.len() as u64 {
        return 0;
    }
    let rest = &bytes[place as usize..];
    let count = rest.len().min(into.len());
    into[..count].copy_from_slice(&rest[..count]);
    count
}

impl ReadAt for MemoryFolder {
    fn read_at(
        &mut self,
        name: &str,
        place: u64,
        into: &mut [u8],
    ) -> Result<Option<usize>, FolderFault> {
        let found = find(&self.entries, name);
        let Some(size) = found.size else {
            return Ok(None);
        };
        let held = &self.bytes[found.start..found.start + size];
        Ok(Some(copy_at(held, place, into)))
    }
}

impl Folder for MemoryFolder {
    ghost told = { λ f. record {
      files = Some (files_of f);
      faults = 0;
      changes = f.changes;
      appends = f.appends;
    } };

    fn read(&mut self, name: &str) -> Result<Option<Bytes>, FolderFault> {
        let place = find(&self.entries, name);
        let Some(size) = place.size else {
            return Ok(None);
        };
        let held = &self.bytes[place.start..place.start + size];
        let Ok(bytes) = Vec::from_slice(self.alloc, held) else {
            return Err(FolderFault::OutOfMemory);
        };
        Ok(Some(Bytes::over(bytes)))
    }

    fn size(&mut self, name: &str) -> Result<Option<u64>, FolderFault> {
        let Some(size) = find(&self.entries, name).size else {
            return Ok(None);
        };
        Ok(Some(size as u64))
    }

    fn names(&mut self, prefix: &str) -> Result<NameList, FolderFault> {
        let mut names = Vec::new(self.alloc);
        for entry in &self.entries {
            let name = entry.name.as_str();
            if !name.as_bytes().starts_with(prefix.as_bytes()) {
                continue;
            }
            let Ok(text) = String::from_str(self.alloc, name) else {
                return Err(FolderFault::OutOfMemory);
            };
            if names.push(Name::over(text)).is_err() {
                return Err(FolderFault::OutOfMemory);
            }
        }
        Ok(NameList::over(names))
    }

    fn put(&mut self, name: &str, bytes: &[u8]) -> Result<(), FolderFault>
        ensures files { Puts (Some (files_of self.old)) (Some (files_of self.new)) result name.now bytes.now }
        ensures whole { IsOldOrNew (Some (files_of self.old)) (Some (files_of self.new)) result name.now bytes.now }
        ensures cause { HasCause 0 0 result }
        ensures changed { self.new.changes ≡ one_more self.old.changes }
        ensures unappended { self.new.appends ≡ self.old.appends }
        // Within its room a put succeeds.
        ensures room { HasRoom self.old name.now (length bytes.now) → IsOk result }
    {
        self.changes = self.changes.saturating_add(1);
        if self.write(name, false, bytes).is_err() {
            return Err(FolderFault::OutOfMemory);
        }
        Ok(())
    }

    fn append(&mut self, name: &str, piece: &[u8]) -> Result<(), FolderFault>
        ensures files { Appends (Some (files_of self.old)) (Some (files_of self.new)) result name.now piece.now }
        ensures cause { HasCause 0 0 result }
        ensures changed { self.new.changes ≡ one_more self.old.changes }
        ensures appends { self.new.appends ≤ self.old.appends + 1 }
        ensures later { self.old.appends ≤ self.new.appends }
        // Within its room an append succeeds.
        ensures room { HasRoom self.old name.now (length (held_by self.old name.now) + length piece.now) → IsOk result }
    {
        self.changes = self.changes.saturating_add(1);
        self.appends = self.appends.saturating_add(1);
        if self.write(name, true, piece).is_err() {
            return Err(FolderFault::OutOfMemory);
        }
        Ok(())
    }

    fn remove(&mut self, name: &str) -> Result<(), FolderFault> {
        self.changes = self.changes.saturating_add(1);
        let place = find(&self.entries, name);
        if let Some(size) = place.size {
            cut(&mut self.bytes, place.start, size);
            self.entries.remove(place.index);
        }
        Ok(())
    }

    fn faults(&self) -> u64 {
        0
    }

    fn changes(&self) -> u64 {
        self.changes
    }

    fn appends(&self) -> u64 {
        self.appends
    }
}
