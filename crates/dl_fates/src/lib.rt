//! What became of each log call of a step script: the line in which it begins, and the line in which the daemon is told of it where it is
//! lost; its fate for each client, found in one pass over the run's journal for each of them; the trace file that its frame went into, and
//! whether rotation removed that file; and the rows that say so.
//!
//! Proved: `calls_in`: the log calls of a script, each with its line, its writer and the line that tells of it where it is lost, in one pass from the
//! last line back (`losses_lines_tell`, `open_calls_are_told`); `claims_in`: the lines that claim places. `find_stored`: the trace file of each
//! call's frame, whether it is left, or that the trace had ended (`a_frame_is_where_it_is_said_to_be`, `the_files_left_are_trace_files`).
//! `find_fates`: what became of every call of a journal, for one client, in one pass (`what_became_of`). `push_findings` writes the rows
//! (`rows_of_run`, `claim_words`, `storage_words`), `find_cases` the same calls for the picture. Rests on tests: rows by hand in `tests/rows`.
//!
//! Chosen: a lost call is told in the line that takes the count of it, and not where its record reaches a client; the end of a run takes what no line
//! took, and the row says `told at the end`. A call's trace file is reckoned by the rotation rule, and none is written; one that rotation removed is
//! named all the same, since a copy may have been kept.
#![tactic(auto)]

mod ahead;
mod call;
mod cases;
mod claim_lines;
mod claims;
mod fate;
mod fates;
mod findings;
mod follower;
pub mod line_laws;
mod lines;
mod newest;
mod owners;
mod place;
mod rows;
mod sizes;
mod storage;
mod stored_calls;
pub mod stored_laws;

pub use call::{CallAt, calls_in};
pub use cases::find_cases;
pub use claim_lines::{ClaimAt, claims_in};
pub use fate::{CallName, Fate};
pub use fates::{Fates, find_fates};
pub use findings::push_findings;
pub use newest::newest_number;
pub use owners::owners_in;
pub use place::StoredPlace;
pub use rows::{Findings, push_rows};
pub use stored_calls::{Rotation, StoredCalls, find_stored};
