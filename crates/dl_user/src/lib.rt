//! User messages, which external applications send the daemon: as bytes, and from a channel's bytes in any pieces.
//!
//! Proved: `write_user` writes, and `UserCutter` reads, each user message by its layout, whatever the pieces, and each fault as soon as its bytes
//! show it. Rests on tests: messages of libdlt.
//!
//! Chosen: a user message is fit by its lengths; of a log message HTYP, LEN and the number of bytes are looked at, and no more. One for which there
//! is no memory stays, and the next call tries it again. The order of the fields stands twice, in the layout and in the reader, which reads field by
//! field; that the reader reads the layout is proved.
#![tactic(auto)]

mod cutter;
mod fault;
mod fields;
pub mod laws;
mod read;
mod write;

pub use cutter::{UserCut, UserCutter};
pub use fault::UserFault;
pub use write::write_user;
