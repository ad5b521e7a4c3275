//! Fields of lines: how a line is cut into them, and what they say or what is wrong with them.
//!
//! Proved: how a line is cut into fields (`fields`, `worded`), and what each kind of field says, or what is wrong with it (`id`, `number`,
//! `severity`, `add`); what is said is what a reader of the payload reads (`what_is_said_is_read`). Rests on tests: a table of arguments.
//!
//! Chosen: a field is quoted only where it begins with `"`, and a blank parts fields also behind a quoted one. An id holds no `"`. Names and units
//! may be empty, and are ASCII; the unit of anything but a number is empty. A number may have zeros before it; `-` stands only before a signed one;
//! hexadecimal digits are of either case; `bool:` is followed by `0` or `1`. One text has 1383 bytes at most, its escapes resolved.
#![tactic(auto)]

pub mod argument;
mod cut;
mod kind;
pub mod laws;
pub mod value;

pub use cut::{cut_into, fields, worded};
pub use kind::{LineError, ScriptKind};
