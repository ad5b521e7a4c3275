//! A folder whose files are read in pieces.

ghost use Rattle.std.specs.Prelude.{◌≡◌, ◌<◌, length};
ghost use Rattle.dl_outside.specs.Folder.{HasCause};
ghost use Rattle.dl_outside.specs.Outside.{Stays};
ghost use Rattle.dl_pieces.specs.Pieces.{ReadsAt};

use dl_outside::{Folder, FolderFault};

/// A folder whose files are read in pieces.
pub trait ReadAt: Folder {
    /// Reads bytes of a file, from this place on, into the front of `into`. Answers how many: none only at the end of the file, and nothing where
    /// there is none of that name.
    fn read_at(
        &mut self,
        name: &str,
        place: u64,
        into: &mut [u8],
    ) -> Result<Option<usize>, FolderFault>
        requires { 0 < length into.old }
        ensures found { ReadsAt (Self.told self.old).files name.now place into.new result }
        ensures stays { Stays (Self.told self.old).files (Self.told self.new).files }
        ensures cause { HasCause (Self.told self.old).faults (Self.told self.new).faults result }
        ensures unchanged { (Self.told self.new).changes ≡ (Self.told self.old).changes }
        ensures unappended { (Self.told self.new).appends ≡ (Self.told self.old).appends };
}
