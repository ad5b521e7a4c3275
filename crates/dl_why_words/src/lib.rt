//! The words of `dlt_why`: what they ask for, as `clap` reads them.
//!
//! Proved: `why_words`: what `clap` finds in the words behind the task that the first one names, or that it refuses them, or that they ask for help
//! (`Says`). Rests on tests: `tests/programs`.
#![tactic(auto)]

mod command;
mod parse;
mod task;
mod words;

pub use parse::WhyFault;
pub use task::{Task, task_of};
pub use words::{WhyWords, why_words};
