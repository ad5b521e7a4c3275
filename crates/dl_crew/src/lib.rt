//! The workers of a scenario: each makes the claims and the calls of one writer, and the crew lets all of them work at once, each in a
//! thread of its own.
//!
//! Proved: `play`, one worker, makes just the calls that a scenario's lines ask of its writer, in order, each with its context, severity and
//! arguments, makes the claim of each `register` line, and asks for one injection with each call (`HasPlayed`, `InTurn`); `crew`: all workers at
//! once, their books in the order in which they came (law `played_books_stay`).
//!
//! Not said, since a gate and a clock tell nothing: that the gate stands open before a call, that a call's timestamp is what the clock then showed,
//! and whether the injection is asked for before the call or after it.
//!
//! Chosen: a worker that finds no place left ends there; it can't be, since a scenario has no more `register` lines than places
//! (`played_books_have_places` of `dl_opening`).
#![tactic(auto)]

mod asked_calls;
pub mod laws;
mod own;
mod threads;
mod worker;

pub use asked_calls::Plan;
pub use threads::crew;
pub use worker::play;
