//! The live daemon: a scenario is played by threads, beside a daemon that goes round, what passes its filters is stored, and the report of its
//! account is written.
//!
//! Proved: `run`: status, account, what the filters stored, and links are those of a run of the scenario, over every interleaving (`HasRun`,
//! `IsRun`). `begin` reads words, configurations, filters, scenario and trace in this order, and says the first that is refused. `assemble` makes the
//! daemon of what the scenario declares (`ArePlayersOf`), and `gather` goes round until the clients have come (`Gathers`). Laws: a run that was
//! played is its account (`what_was_played_is_its_account`): its journal is well-formed, its records account for it, each client has its Close for a
//! cause that its link shows; the status says how the run ended (`a_status_says_how_a_run_ended`, `an_outcome_is_a_run`); the books have all calls
//! that the lines ask for (`played_books_have_all_calls`). Rests on tests: `tests/live`.
//!
//! Not said: which trace files stand where the trace ended in the run.
#![tactic(auto)]

mod beginning;
mod filtering;
mod gathering;
pub mod laws;
mod players;
mod program;
mod scenario;
mod staging;
mod workers;

pub use beginning::{Begun, begin};
pub use dl_startup::Status;
pub use gathering::{Gathered, gather};
pub use players::{Players, assemble};
pub use program::{Ended, run, set_out};
pub use staging::{Stage, set_stage};
pub use workers::beside;
