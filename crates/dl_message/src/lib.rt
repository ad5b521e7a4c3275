//! Whole messages: those that the daemon makes, and those that come to it in a stream.
//!
//! Proved: `log_frame`, `write_log_frame` and `overflow_frame` make just the frame of their layout; `read_message` reads each message that has one;
//! `Cutter` cuts a stream the same in whatever pieces it comes (`a_cutter_gives_the_cut`); the three ways to say *one whole message* agree
//! (`whole_messages`). Rests on tests: requests of a real client, whole, by bytes and in pieces of 7.
//!
//! Chosen: a cutter has room for one message of its limit and a serial header; its limit is at least 30. One that met a fault takes no more bytes,
//! and keeps those that it holds.
#![tactic(auto)]

mod cutter;
mod frames;
pub mod laws;
mod message;

pub use cutter::{Cut, Cutter};
pub use dl_bytes::MESSAGE_LIMIT;
pub use frames::{log_frame, overflow_frame, write_log_frame};
pub use message::{Parts, read_message};
