//! The lines of scripts: the word that a line begins with, and what the fields behind it say or what is wrong with them.
//!
//! Proved: what the fields of each form of line say, or the first that is wrong and how (`app`, `context`, `log_call`, `user`), and the word that a
//! line begins with. Rests on tests: a table of lines.
#![tactic(auto)]

mod line;
mod word;

pub use line::{
    Call, app, app_id, bare, claim, client_bytes, client_number, clock, context, leave, levels,
    log_call, user, writer_number,
};
pub use word::{ScenarioWord, StepWord, scenario_word, step_word};
