//! What a scenario declares, made before its run: the desk and its applications with their contexts, the books of all
//! writers, and the scripts of all clients.
//!
//! Proved: `open` makes the desk, applications with their contexts, handles, a whole book for each writer with room for all its calls, and the
//! scripts of the clients, each in the order of its lines (`IsOpened`). Laws: what the workers make is every call of every `calls` line
//! (`opened_books_ask_for_all`, `opened_books_can_be_played`), and they claim no more places than there are (`played_books_have_places`).
//!
//! Not said: three arms of `open` answer `OutOfMemory` where no value of the kind should come.
#![tactic(auto)]

mod applications;
mod asking;
mod books;
mod clients;
pub mod laws;
mod opened;

pub use asking::all_calls;
pub use opened::{Opened, open};
