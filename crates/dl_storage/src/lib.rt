//! Log storage: when a run has settled, the messages that pass a filter are stored in files of the filter's own. The filters are those that
//! the file `dlt_storage.cfg` says.
//!
//! Each filter has a trace in its own directory, so that its files rotate as those of the offline trace, and a filter that
//! fails leaves those of the others as they would be without it.
//!
//! Proved: `read_storage` gives the filters that a text says, in order, or its first line at fault with the first of its kinds; at most 16 filters,
//! no two of one name. `store`: for each filter, as if it were alone, how many frames it stored of those that pass it, and that the folder's trace
//! files in its directory are the rotation rule's of them (`IsStored`, `AreStored`); the count of faults rises for each filter that failed and for no
//! other; no other file changes. `storage_lines`: the report's lines.
//!
//! Rests on tests: what stands where a filter failed or ran out of memory.
//!
//! Chosen: filters are read behind both configurations and before the scenario. Their files are written once a run has settled: one that is killed
//! stores nothing, and a daemon that serves until it is ended has no log storage. Nothing is promised of a directory that a filter shares with the
//! offline trace. Where there is no memory to store anything, no report is written either.
#![tactic(auto)]

mod calls;
mod ends;
mod filter;
mod filter_line;
mod filter_list;
mod filter_parts;
mod filter_reading;
mod filter_whole;
mod line_filter;
mod lines;
mod passing;
mod storing;
mod writing;

pub use dl_startup::StorageKind;
pub use ends::{StoreEnd, StoreEnds};
pub use filter::Filter;
pub use filter_list::{FILTER_LIMIT, FilterList};
pub use filter_whole::{StorageError, read_storage};
pub use lines::storage_lines;
pub use storing::store;
