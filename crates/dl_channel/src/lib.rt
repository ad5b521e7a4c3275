//! The two ways of an external application, which logs over a connection: what it sent is cut into user messages, and the levels that it is
//! to be told wait for it.
//!
//! Each way takes its memory when it is made; a message takes its own when it is cut, and to put a level takes none.
//!
//! Proved: `Inbox::next` gives the next user message in what is held and in the piece behind it, says that there is none yet, or the fault that shows
//! (`Finds`), by the cut of a channel alone, however the bytes came. `Outbox::put_level` puts the LogLevel message behind what waits where it fits in
//! 65,536 bytes; the first one that doesn't makes the outbox full, and nothing is put into a full one (`with_message`). `Outbox::pump` sends the
//! front of what waits and nothing else (`HasSent`, `IsPump`); a full outbox answers Slow.
#![tactic(auto)]

mod finding;
mod inbox;
mod outbox;
mod outcome;
mod sending;

pub use finding::Next;
pub use inbox::Inbox;
pub use outbox::Outbox;
pub use outcome::ChannelEnd;
