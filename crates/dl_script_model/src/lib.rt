//! What a script means: the lines of step scripts and scenarios, one after the other, as plain types; and, in definitions, the marks that each
//! line of a step script leaves, the run of all of them, and what is printed of it.
//!
//! What stands here are types and definitions: what each line of a step script comes to, what is printed of a run, and when a scenario's lines are of
//! their form. The laws over them stand in `dl_runs` and `dl_script_runs`, and each reader and player proves that it does what they say.
//!
//! Chosen: the arguments of a line's log call are kept in memory of just their size, up to 48 bytes in place: a script has many. Definitions take the
//! configuration as a record of plain numbers and lists (`Setting` of `dl_model`), since an example can't write down a value with proofs of its
//! ranges. A list of records shows the list of each writer, and not one list of all: else the number of writers would be lost. The folder's answers
//! to Stores and Resets are one list beside the script; where it ends, the folder does what it is asked. A script's clients are never too slow: their
//! links take all bytes after each event.
#![tactic(auto)]

mod arguments;
mod line;
mod scenario;
mod step;

pub use arguments::CallArguments;
pub use line::{AppLine, CallLine, ClaimLine, ContextLine};
pub use scenario::{Scenario, ScenarioLine};
pub use step::{LevelEvents, Step, StepList};
