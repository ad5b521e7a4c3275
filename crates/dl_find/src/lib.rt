//! Where a message is: files of messages are read in pieces, and of a message that is asked for is said where it stands, or what is told of it.
//!
//! Proved: `find`: whatever pieces a read gives, each status has its cause, and what is written is the answer to the question by the messages of the
//! files, each with its file, offset and bytes (`Finds`); each word comes where its condition holds, by one definition (`verdict_of`). Rests on
//! tests: `tests/find`, `tests/day`.
#![tactic(auto)]

mod answer;
mod books;
mod finding;
pub mod laws;
mod program;
mod reader;
mod reports;
mod search;
mod track;

pub use program::find;
