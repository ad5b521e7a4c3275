//! The offline trace: rotating files of what was admitted.
//!
//! Stored frames go into the newest file until it is full, then into the next one, and the oldest files go. Trace files
//! of earlier runs are gone on with. Each piece of a call is one append, made from the caller's bytes.
//!
//! Proved: after any calls of `Trace::write` and `write_all` the trace files of the folder are those of the rotation rule over the files that stood
//! and all frames stored, and the trace tells of them with names and sizes (`IsStored`, `calls_leave_the_trace_files`). Where a call stops: which
//! piece, that those before it are stored, and what the folder holds, a front of the piece after a failed append, the whole piece after a failed
//! removal (`Stops`). `Failed` comes only where the folder's count of faults rose, `Spent` exactly where a number above 999999 is needed; a trace
//! that has ended does nothing more. One append a piece at most; no file but trace files of the directory changes.
//!
//! Not said: what stands where a folder doesn't tell its files; why memory ran out.
//!
//! Chosen: earlier files are taken in the byte order of their names, which is that of their numbers. `dlt_offlinetrace.000000.dlt` is no trace file.
//! Where a file begins, the oldest are removed after the append, one by one. The number of a file whose begin couldn't be finished is not taken: the
//! trace has ended, and stores nothing again.
#![tactic(auto)]

mod batch;
mod files;
pub mod laws;
mod name;
mod trace;
mod writer;

pub use batch::{STORED_LIMIT, StoredBatch};
pub use dl_bytes::{TraceEnd, TraceFile, TraceState};
pub use trace::{Trace, TraceFault};
pub use writer::{TraceWriter, add_to_batch, begin_batch, store, store_batch};
