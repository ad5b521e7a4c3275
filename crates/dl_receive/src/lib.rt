//! A receiver: a client that prints each message of a daemon, and where messages are missing and how many.
//!
//! Proved: `receive`: each status has its cause, and what is written is the text of the one cut of the bytes that the source gave, whatever the
//! pieces (`IsRun`), by the fields of the messages (`read_by_layout`). A client of this project's daemon hears all that is admitted from its coming
//! on (`heard_whole`), and the gap before a log message of a writer is the number of the writer's calls that were lost since its last one, where
//! fewer than 256 were and no other message of its session stands between (`gaps_are_lost_calls`).
//!
//! Rests on tests: that a line stands on the output as soon as its message has come (`tests/receive`). Not measured: that memory doesn't grow with
//! the stream.
//!
//! Chosen: gaps are told by session: a writer of this project counts over all its contexts. COVESA's library counts each context, so there
//! `--contexts` is wanted, else false gaps show. What follows a bad header isn't read. The first counter of a session is no gap. Status 12 comes
//! after the piece with which 2^40 bytes are reached. Out of memory leaves the lines of the pieces before.
#![tactic(auto)]

mod counting;
mod kind;
pub mod laws;
mod listen;
mod printer;
mod program;
mod receiver;
mod status;
mod words;

pub use counting::{Counted, Counter, Counting, Entry, entry_of};
pub use kind::{Kind, kind_of};
pub use program::{Received, receive};
pub use status::Status;
