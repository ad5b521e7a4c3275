//! The headers of a message: the standard header that each has, and the extended header of a log or control message.
//!
//! Proved: a standard or an extended header is read to its exact value or to the exact refusal, and is written in one spelling; so are the storage
//! header and the headers of replies.
#![tactic(auto)]

mod fault;
mod header;
mod read;
mod reply;
mod write;

pub use fault::HeaderFault;
pub use header::{Extended, Front, Standard};
pub use read::{read_extended, read_front, read_standard};
pub use reply::{REPLY_HEADER_LEN, write_reply_headers};
pub use write::{storage_header, write_extended, write_standard};
