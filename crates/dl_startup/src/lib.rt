//! What the programs share: their configuration and the trace that they begin with, a text that is read to its end, the
//! text that they write, and how they end.
//!
//! Proved: `conf_in`, `stored_in` and `trace_over` tell what the folder's files say, their first fault, or a fault of the folder, and change nothing;
//! `set_up` gives both configurations, or why there are none, a line a status; the number and the line of each `Status`, and which of a run's
//! failures decides (`Failures::status`).
//!
//! Chosen: a status names what failed first in its order, not in time: a folder fault before spent names, these before a write fault, and that before
//! out of memory. Refusals have the order words, input, script, output. The sentence on a fault follows the line of the status.
#![tactic(auto)]

mod configuration;
mod failures;
mod input;
mod output;
mod refusal;
mod setup;
mod status;
mod storage_kind;

pub use configuration::{Setup, set_up};
pub use failures::{Failures, unserved};
pub use input::{ReadError, read_text};
pub use output::write_pieces;
pub use refusal::{conf_word, say_refusal, script_word, storage_word, stored_word};
pub use setup::{CONF_NAME, STORED_NAME, SetupError, conf_in, stored_in, trace_over};
pub use status::Status;
pub use storage_kind::StorageKind;
