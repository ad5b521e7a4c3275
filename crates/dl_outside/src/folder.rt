//! Where files are kept.

ghost use Rattle.std.specs.Prelude.{◌≡◌, ◌≤◌, ◌<◌, ◌+◌, ◌^◌, IfOk, IfSome};
ghost use Rattle.std.specs.FinMap as map;
ghost use Rattle.dl_outside.specs.Outside.{one_more, Stays};
ghost use Rattle.dl_outside.specs.Folder.{Answers, Appends, HasCause, IsOldOrNew, Puts, Removes, names_with, size_in};
ghost use Rattle.dl_outside.specs.Told.{FolderTold};

use crate::name::NameList;
use dl_bytes::Bytes;

/// Why a folder refused a call.
#[derive(Clone, Copy, Debug, PartialEq, Eq)]
pub enum FolderFault {
    /// The folder failed: its count of faults rose.
    Failed,
    /// Memory ran out, and no file changed.
    OutOfMemory,
}

/// A folder of files, each with a name. Names are texts, and a `/` in one is a letter like others.
pub trait Folder {
    /// What it tells of itself: its files, how often it has failed, how often a file was to change, and how often one was to grow.
    ghost told: { Self → FolderTold };

    /// The bytes of a file, or nothing where there is none of that name.
    fn read(&mut self, name: &str) -> Result<Option<Bytes>, FolderFault>
        ensures found { Answers (told self.old).files result (λ all. map.get all name.now) }
        ensures stays { Stays (told self.old).files (told self.new).files }
        ensures cause { HasCause (told self.old).faults (told self.new).faults result }
        ensures unchanged { (told self.new).changes ≡ (told self.old).changes }
        ensures unappended { (told self.new).appends ≡ (told self.old).appends };

    /// The size of a file in bytes, or nothing where there is none of that name.
    fn size(&mut self, name: &str) -> Result<Option<u64>, FolderFault>
        ensures found { Answers (told self.old).files result (λ all. size_in all name.now) }
        ensures small { IfOk result (λ size. IfSome size (λ bytes. bytes < 2 ^ 63)) }
        ensures stays { Stays (told self.old).files (told self.new).files }
        ensures cause { HasCause (told self.old).faults (told self.new).faults result }
        ensures unchanged { (told self.new).changes ≡ (told self.old).changes }
        ensures unappended { (told self.new).appends ≡ (told self.old).appends };

    /// All names that begin with this prefix, in byte order.
    fn names(&mut self, prefix: &str) -> Result<NameList, FolderFault>
        ensures found { Answers (told self.old).files result (names_with prefix.now) }
        ensures stays { Stays (told self.old).files (told self.new).files }
        ensures cause { HasCause (told self.old).faults (told self.new).faults result }
        ensures unchanged { (told self.new).changes ≡ (told self.old).changes }
        ensures unappended { (told self.new).appends ≡ (told self.old).appends };

    /// Makes or replaces a file. What a call that fails leaves is the old file or the new one, never a part.
    fn put(&mut self, name: &str, bytes: &[u8]) -> Result<(), FolderFault>
        ensures files { Puts (told self.old).files (told self.new).files result name.now bytes.now }
        ensures whole { IsOldOrNew (told self.old).files (told self.new).files result name.now bytes.now }
        ensures cause { HasCause (told self.old).faults (told self.new).faults result }
        ensures changed { (told self.new).changes ≡ one_more (told self.old).changes }
        ensures unappended { (told self.new).appends ≡ (told self.old).appends };

    /// Adds to the end of a file, and makes it where it isn't there.
    fn append(&mut self, name: &str, piece: &[u8]) -> Result<(), FolderFault>
        ensures files { Appends (told self.old).files (told self.new).files result name.now piece.now }
        ensures cause { HasCause (told self.old).faults (told self.new).faults result }
        ensures changed { (told self.new).changes ≡ one_more (told self.old).changes }
        // It counts once at most.
        ensures appends { (told self.new).appends ≤ (told self.old).appends + 1 }
        ensures later { (told self.old).appends ≤ (told self.new).appends };

    /// Takes a file away. There may be none of that name.
    fn remove(&mut self, name: &str) -> Result<(), FolderFault>
        ensures files { Removes (told self.old).files (told self.new).files result name.now }
        ensures cause { HasCause (told self.old).faults (told self.new).faults result }
        ensures changed { (told self.new).changes ≡ one_more (told self.old).changes }
        ensures unappended { (told self.new).appends ≡ (told self.old).appends };

    /// How often it has failed. The count never falls.
    fn faults(&self) -> u64
        ensures { result ≡ (told self.now).faults };

    /// How often a file was to change: every put, append and remove, also a refused one.
    fn changes(&self) -> u64
        ensures { result ≡ (told self.now).changes };

    /// How often a file was to grow.
    fn appends(&self) -> u64
        ensures { result ≡ (told self.now).appends };
}
