//! The configuration `dlt.conf`, and the stored configuration: levels that outlive a run.
//!
//! Proved: `read_conf` and `read_stored` give exactly the values that the lines say, or the first fault with its line; `write_stored` writes what
//! `read_stored` reads as the same levels (`what_is_written_is_read`); `default_conf` is the configuration of an empty text.
//!
//! Chosen: a comment is a line whose first byte behind its blanks is `#`. Of several stored lines with the same ids, and of several `::L` lines, the
//! last holds. A text is read twice where memory is taken, first for its faults: so a fault comes before out of memory. An id text without bytes is
//! an empty id, also where the line has one id alone: such a line is at fault; `%00` is an id of four zero bytes.
#![tactic(auto)]

mod conf;
mod draft;
mod entry;
pub mod laws;
mod reading;
mod setting;
mod stored;

pub use conf::{ConfError, ConfKind, default_conf, read_conf};
pub use dl_bytes::{Conf, Stored, StoredLevel};
pub use stored::{ENTRY_LIMIT, StoredError, StoredKind, read_stored, write_stored};
