//! `dlt_storage.cfg` as a whole: its filters, or its first fault.

ghost use Rattle.dl_storage.specs.FilterWhole.{ReadsStorage};

use crate::filter_list::FilterList;
use crate::filter_reading::{faulty_line, filters_in, without_return};
use dl_startup::StorageKind;
use dl_text::SIZE_LIMIT;
use std::alloc::Global;

/// Why the filters could not be read.
#[derive(Clone, Copy, Debug, PartialEq, Eq)]
pub enum StorageError {
    /// The text isn't of the form.
    Fault {
        /// The number of the line at fault, counted from 1.
        line: u32,
        /// What is wrong with it.
        kind: StorageKind,
    },
    /// There is no memory for the filters, whose text is of the form.
    OutOfMemory,
}

/// The filters that a text says, as the file `dlt_storage.cfg` has it: lines `NAME APID CTID SEV SIZE MAX`.
pub fn read_storage(alloc: Global, bytes: &[u8]) -> Result<FilterList, StorageError>
    ensures { ReadsStorage bytes.now result }
{
    if bytes.len() > SIZE_LIMIT {
        let (line, kind) = (0, StorageKind::Size);
        return Err(StorageError::Fault { line, kind });
    }
    let text = without_return(bytes);
    if let Some((line, kind)) = faulty_line(text) {
        return Err(StorageError::Fault { line, kind });
    }
    match filters_in(alloc, text) {
        Ok(filters) => Ok(FilterList::over(filters)),
        Err(_) => Err(StorageError::OutOfMemory),
    }
}
