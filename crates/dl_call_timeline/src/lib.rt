//! What became of a script's log calls, column by column of time: a picture with a row for each writer.
//!
//! Proved: `timeline_of`: the picture has a row for each writer; each of its 120 columns has what the writer's calls there came to, with their lines,
//! and how many of its calls an overflow message tells of that stands there (`timeline`). Rests on tests: `tests/pictures`.
//!
//! Chosen: a call stands at its own timestamp, which its frame has, and not at the moment of the script's clock. An overflow message has no
//! timestamp, so it stands at the last call that it tells of.
#![tactic(auto)]

mod call;
mod marks;
mod names;
mod records;
mod rows;
mod scale;
mod timeline;

pub use call::{Call, Outcome, RecordName};
pub use timeline::timeline_of;
