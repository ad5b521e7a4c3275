//! Admission: what makes frames is noted behind the Closes of the clients that are too slow for them.
//!
//! The core asks, of each event, that every open client has room for the event's frames. The calls here see to that: each client that
//! lacks the room is closed as slow, in the order of their numbers, and then the event is noted. Log calls of one application, and log messages
//! of one program, go together where every client has room for all of them, and else one by one; no contract tells which it was.
//!
//! Proved: `close_slow` closes just the open clients whose outboxes lack the room, in the order of their numbers (`ClosesSlow`); `log_items`, `tell`,
//! `admit_message` and `admit_messages` note just what they are handed, in order, each behind such Closes (`Admits`, `AreNoted`); a well-formed
//! journal stays so. What these events tell of calls and losses: `what_calls_tell`, `what_losses_tell`, `what_messages_tell`. Rests on tests: that
//! calls, and messages, go together where each client has room for all of them.
#![tactic(auto)]

mod calls;
pub mod laws;
mod losses;
mod messages;
mod slow;

pub use calls::log_items;
pub use losses::tell;
pub use messages::{admit_message, admit_messages};
pub use slow::close_slow;
