//! Scripts: what their lines say, or the first bad line and what is wrong with it.
//!
//! Proved: `read_steps` and `read_scenario` give the lines in order, or the first bad line and the first kind that is wrong with it; lines that spell
//! steps are read as these, and each step that a script can say has such a line (`a_script_says_what_its_lines_spell`, `a_line_can_spell_each`);
//! `generate` gives exactly the list of its number; what is read or generated can be played (`what_is_read_can_be_played`,
//! `what_is_generated_can_be_played`, `what_is_read_can_be_run`).
//!
//! Not said: that out of memory comes behind every bad line: lists grow while a text is read, so it may be answered before a later bad line was
//! looked at.
//!
//! Chosen: `#` makes a comment only as the first byte of a line. A client is declared by the number of `connect` lines before; `bytes C` and `close
//! C` mean the client to which the hub gave that number. `log` lines count for the limit of calls, filtered ones too. `send` has at most 1,000,000
//! bytes of each client. A script that is too long is read to its first byte too many.
#![tactic(auto)]

mod by_word;
mod claim;
mod error;
mod generator;
pub mod laws;
mod read;
mod scratch;
mod script;

pub use dl_script_fields::ScriptKind;
pub use error::ScriptError;
pub use generator::generate;
pub use script::{read_scenario, read_steps};
