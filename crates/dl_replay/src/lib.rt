//! The replay: a script of steps, or one that a number makes, is played through the daemon, and what came of it is printed.
//!
//! Proved: `replay`: each status has its cause, and what is written is the report of the run of just these steps (`IsPlayed` of `dl_world`), so each
//! law of `dl_runs` holds of whatever it plays. Rests on tests: `tests/rows`.
//!
//! Chosen: texts are judged in the order configuration, stored configuration, script. `generate` reads both configurations and keeps a trace as
//! `steps` does, and reads no input. A number of the command line has no zero before other digits.
#![tactic(auto)]

mod begin;
mod finish;
pub mod laws;
mod program;
mod task;

pub use dl_startup::Status;
pub use program::replay;
pub use task::Task;
