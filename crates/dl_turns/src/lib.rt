//! One client's turns of the live daemon: what it sent is read and served, and what waits for it is sent.
//!
//! Each call speaks of one client and its link. Nothing here knows of threads: the rounds that call it are the daemon's.
//!
//! Proved: `client_turn` makes one recv of at most 4096 bytes and serves the requests that it makes whole, in order, each with the Level events that
//! it owes and their level words, and closes the client for the exact cause (`IsTurn`); `pump_turn` (`IsPump`); `close_turn` makes closing turns
//! until one is quiet, at most 1000, and then the Close (`HasClosingTurns`). Each of them is its events and the bytes that the link gave and took
//! (`a_turn_is_its_events`, `a_pump_is_its_events`, `a_stop_is_its_events`): the client's Request events are the requests of what it sent, what its
//! link took is next in its stream, and no other client changes. What a link did shows why a client went (`links_show_why_clients_went`,
//! `counts_show_why_clients_went`) or stays (`why_a_client_stays`).
//!
//! Not said: that a link which tells nothing gave or took anything; that a turn returns, since a queue of injections may wait.
//!
//! Chosen: a request that is refused for lack of memory or of room, or as the 1001st, ends the turn: bytes behind it are not looked at, and the
//! client is closed. The end and the fault of a link close its client in the turn in which they come; what it sent before was served in earlier
//! turns.
#![tactic(auto)]

mod client;
mod cutting;
mod hearing;
pub mod laws;
mod levels;
mod serving;
mod stopping;
mod turns;

pub use levels::note_levels;
pub use stopping::close_turn;
pub use turns::{client_turn, pump_turn};
