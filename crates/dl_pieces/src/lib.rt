//! Files that are read in pieces, so that a file takes no memory however long it is.
//!
//! Proved: a read from a place on gives bytes of the file from there, none only at its end, and fails only where the folder's count of faults rose
//! (`ReadsAt`). Rests on tests: `tests/traces`.
#![tactic(auto)]

mod read_at;

pub use read_at::ReadAt;
