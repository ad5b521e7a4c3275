//! One daemon in a folder: the folder itself is locked while it runs.

use dl_real::reason;
use std::fs::{File, Files, TryLockError};

/// The lock of a folder. It ends with the value, and with the process, however that ends.
#[derive(Drop)]
pub struct FolderLock {
    // the folder, which is open as long as it is locked
    _folder: File,
}

/// Why a folder is not locked.
#[derive(Clone, Copy, Debug)]
pub enum LockFault {
    /// Another one has locked it.
    Taken,
    /// The system refused it, for this reason.
    Refused(&'static str),
}

/// Locks a folder, or the directory of this name. It makes no file, and doesn't wait.
pub fn lock_folder<R: Files<File = File>>(rt: &R, name: &str) -> Result<FolderLock, LockFault> {
    let folder = match File::open(rt, name) {
        Ok(folder) => folder,
        Err(error) => return Err(LockFault::Refused(reason(&error))),
    };
    match folder.try_lock() {
        Ok(()) => Ok(FolderLock { _folder: folder }),
        Err(TryLockError::WouldBlock) => Err(LockFault::Taken),
        Err(TryLockError::Error(error)) => Err(LockFault::Refused(reason(&error))),
    }
}
