//! The log calls and the claims of a script up to the daemon: applications with their rings, contexts, and writers with their calls and claims.
//!
//! Proved: each call on a script's applications, contexts and writers is one act of the definition of steps, after whatever came before (`Does`, over
//! `IsAfter`): a load, a push, a count, a claim, its announcement, what the daemon takes of a ring and is told of losses. So no schedule is special.
//!
//! Chosen: rings and lost calls are lists of the places of records, of which the first are gone; an item is copied once, from the line into its
//! record, and what the daemon takes is lent from the record. Injections that wait are counted, and none of their contents is kept: nothing of a
//! script shows them.
#![tactic(auto)]

mod app;
mod calls;
mod injections;
pub mod laws;
mod queue;
mod writer;

pub use calls::Calls;
pub use injections::Injections;
