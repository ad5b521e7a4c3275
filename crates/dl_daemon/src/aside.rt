//! A stored configuration that isn't of the form, put under another name, so that a daemon can begin without it.

ghost use Rattle.dl_outside.specs.Folder.{HasCause};
ghost use Rattle.dl_daemon.specs.Aside.{Renames, SaysFault, SetsAside};

use dl_conf::{StoredError, StoredKind, read_stored};
use dl_outside::{Folder, FolderFault};
use dl_startup::STORED_NAME;
use std::alloc::Global;

/// The name under which a stored configuration is kept that isn't of the form.
pub const BAD_NAME: &str = "dlt_stored.cfg.bad";

/// What is wrong with a stored configuration.
#[derive(Clone, Copy, PartialEq, Eq)]
pub struct BadStored {
    /// The number of the first line at fault, counted from 1; 0 for the whole text.
    pub line: u32,
    /// What is wrong with it.
    pub kind: StoredKind,
}

/// What is wrong with the text of a stored configuration, if something is.
fn fault_of(alloc: Global, text: &[u8]) -> Result<Option<BadStored>, FolderFault>
    ensures { SaysFault text.now result }
{
    match read_stored(alloc, text) {
        Ok(_) => Ok(None),
        Err(StoredError::Fault { line, kind }) => Ok(Some(BadStored { line, kind })),
        Err(StoredError::OutOfMemory) => Err(FolderFault::OutOfMemory),
    }
}

/// Puts a text under the name of a bad one, and takes the stored configuration away.
fn rename<F: Folder>(folder: &mut F, text: &[u8]) -> Result<(), FolderFault>
    ensures renamed { Renames text.now (F.told folder.old).files (F.told folder.new).files result }
    ensures cause { HasCause (F.told folder.old).faults (F.told folder.new).faults result }
{
    match folder.put(BAD_NAME, text) {
        Ok(()) => folder.remove(STORED_NAME),
        Err(fault) => Err(fault),
    }
}

/// Puts a stored configuration that isn't of the form under `dlt_stored.cfg.bad`, in the place of an older one, and answers what is wrong with it. One that
/// is of the form stays, and so does a folder without one. After a fault one of the two names has it.
pub fn set_aside<F: Folder>(alloc: Global, folder: &mut F) -> Result<Option<BadStored>, FolderFault>
    ensures aside { SetsAside (F.told folder.old) (F.told folder.new) result }
    ensures cause { HasCause (F.told folder.old).faults (F.told folder.new).faults result }
{
    let text = match folder.read(STORED_NAME) {
        Ok(Some(text)) => text,
        Ok(None) => return Ok(None),
        Err(fault) => return Err(fault),
    };
    let bytes = text.all();
    let bad = match fault_of(alloc, bytes) {
        Ok(Some(bad)) => bad,
        Ok(None) => return Ok(None),
        Err(fault) => return Err(fault),
    };
    match rename(folder, bytes) {
        Ok(()) => Ok(Some(bad)),
        Err(fault) => Err(fault),
    }
}
