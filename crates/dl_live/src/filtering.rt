//! The filters of the log storage that a run begins with.

ghost use Rattle.std.specs.Prelude.{◌≡◌, map};
ghost use Rattle.dl_outside.specs.Outside.{Stays};
ghost use Rattle.dl_startup.specs.Setup.{HasCause, Says};
ghost use Rattle.dl_storage.specs.FilterWhole.{wanted_of};
ghost use Rattle.dl_live.specs.Begin.{ReadsFilters};
ghost use Rattle.dl_live.specs.Filters.{filters_in};

use dl_outside::{Folder, FolderFault};
use dl_startup::{SetupError, Status, StorageKind};
use dl_storage::{FilterList, StorageError, read_storage};
use std::alloc::Global;

/// The name of the filters' file.
const FILTERS_NAME: &str = "dlt_storage.cfg";

/// The filters of a folder. Where their file isn't there, there are none.
fn filters_in<F: Folder>(
    alloc: Global,
    folder: &mut F,
) -> Result<FilterList, SetupError<StorageKind>>
    ensures said { Says (map wanted_of) (F.told folder.old).files filters_in result }
    ensures stays { Stays (F.told folder.old).files (F.told folder.new).files }
    ensures cause { HasCause (F.told folder.old).faults (F.told folder.new).faults result }
    ensures unchanged { (F.told folder.new).changes ≡ (F.told folder.old).changes }
{
    let text = match folder.read(FILTERS_NAME) {
        Ok(Some(text)) => text,
        Ok(None) => return Ok(FilterList::none(alloc)),
        Err(FolderFault::Failed) => return Err(SetupError::Folder),
        Err(FolderFault::OutOfMemory) => return Err(SetupError::OutOfMemory),
    };
    match read_storage(alloc, text.all()) {
        Ok(filters) => Ok(filters),
        Err(StorageError::Fault { line, kind }) => Err(SetupError::Fault { line, kind }),
        Err(StorageError::OutOfMemory) => Err(SetupError::OutOfMemory),
    }
}

/// The filters of a folder, or the status of a run that has none.
pub fn read_filters<F: Folder>(alloc: Global, folder: &mut F) -> Result<FilterList, Status>
    ensures { ReadsFilters (F.told folder.old) (F.told folder.new) result }
{
    match filters_in(alloc, folder) {
        Ok(filters) => Ok(filters),
        Err(SetupError::Fault { line, kind }) => Err(Status::StorageRefused { line, kind }),
        Err(SetupError::Folder) => Err(Status::FolderFault),
        Err(SetupError::OutOfMemory) => Err(Status::OutOfMemory),
    }
}
