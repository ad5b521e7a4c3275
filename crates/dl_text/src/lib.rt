//! Texts that the daemon reads and prints: their lines, blanks, decimal numbers, and ids as text.
//!
//! Proved: `lines`, `trimmed`, `parted_at` and `number` give just what stands in the text; an id is written by `push_id` and read again as itself by
//! `read_id` (`id_text_is_read`).
//!
//! Chosen: a blank is a space or a tab; a line ends at LF, and one CR before it is dropped; what stands behind the last LF keeps its CR. A number may
//! have zeros before it, and has no sign.
#![tactic(auto)]

mod decimal;
mod id;
pub mod laws;
mod line;

pub use decimal::number;
pub use id::{push_id, read_id};
pub use line::{SIZE_LIMIT, is_blank, lines, parted_at, trimmed};
