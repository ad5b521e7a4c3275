//! Both configurations of a run, or the status of a program that has none.

ghost use Rattle.dl_startup.specs.Configuration.{SetsUp};

use crate::setup::{SetupError, conf_in, stored_in};
use crate::status::Status;
use dl_bytes::{Conf, Stored};
use dl_outside::Folder;
use std::alloc::Global;

/// The configuration and the stored one.
#[derive(Drop)]
pub struct Setup {
    /// What the configuration says, or the values where there is none.
    pub conf: Conf,
    /// What `dlt_stored.cfg` says; nothing where it isn't there.
    pub stored: Stored,
}

/// The configuration of this name and the stored one, read in this order; or why they aren't there.
pub fn set_up<F: Folder>(alloc: Global, folder: &mut F, name: &str) -> Result<Setup, Status>
    ensures { SetsUp name.now (F.told folder.old) (F.told folder.new) result }
{
    let conf = match conf_in(alloc, folder, name) {
        Ok(conf) => conf,
        Err(SetupError::Fault { line, kind }) => return Err(Status::ConfRefused { line, kind }),
        Err(SetupError::Folder) => return Err(Status::FolderFault),
        Err(SetupError::OutOfMemory) => return Err(Status::OutOfMemory),
    };
    match stored_in(alloc, folder) {
        Ok(stored) => Ok(Setup { conf, stored }),
        Err(SetupError::Fault { line, kind }) => Err(Status::StoredRefused { line, kind }),
        Err(SetupError::Folder) => Err(Status::FolderFault),
        Err(SetupError::OutOfMemory) => Err(Status::OutOfMemory),
    }
}
