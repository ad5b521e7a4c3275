//! The account of traces: the files are read that are asked for, and which messages are missing of each session is written, with the
//! cause that the traces tell.
//!
//! Proved: `account`: whatever pieces a read gives, each status has its cause, and what is written is the text of what the files tell that are asked
//! for, one behind the other, and of how they end; the first that can't be read is the one that is said, with its place; the picture's file has the
//! picture of what they tell, and no other file is to change (`Runs`).
//!
//! Chosen: nothing is written where a file can't be read, since half an account could be taken for a whole one; a file that ends within a message is
//! no such file. Where no file is named and the folder has no trace file, that is said (status 4). The picture is put before the text is written, so
//! a status 6 has left the whole picture.
#![tactic(auto)]

mod reading;
mod status;
mod wanted;
mod writing;

pub use status::{Status, fault_status};
pub use wanted::{FilesWanted, Wanted, names_wanted};
pub use writing::account;
