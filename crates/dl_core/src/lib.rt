//! The daemon's core: one event at a time, against registry, clients, trace files and journal.
//!
//! Each call that notes an event does all that belongs to it: the registry, the outboxes, the backlog and the trace files
//! are afterwards those of the longer journal. Logging, admission and the sending of replies take no memory; what a
//! request needs is taken by `prepare`.
//!
//! `folder_laws` says what the calls make of the daemon's folder: which files change, how often the folder failed, and whether the stored
//! configuration stands. `client_turns` and `message_turns` say that each event that the core notes keeps its journal well-formed.
//!
//! Proved: whatever journal the core stood for, after a call it stands for that journal and the call's event (`after` of `log`, `lost`, `log_batch`,
//! `user`, `user_batch`, `claim`, `connect`, `close`, `level`, `served` of `request`, over `IsAfter` and `HoldsTrace`): registry, streams, backlog
//! and, while the trace goes on, the folder's trace files are those of the longer journal. A refused message, and a claim that changes nothing, are
//! noted too. A batch is its calls (`a_batch_is_its_calls`, `a_batch_is_its_messages`). `connect` is refused exactly where as many have come as may,
//! or 8 are open; a client is closed only for a cause that is so (`MayEnd`). Each event stands in its turn, so a well-formed journal stays so
//! (`messages_come_in_turn`, `claims_come_in_turn`, `levels_come_in_turn`, `a_connect_comes_in_turn`, `a_request_comes_in_turn`,
//! `closes_come_in_turn`). Of the folder: which files may change, how often it failed, whether the stored configuration stands (`ChangesOwnFiles`,
//! `IsFolderLater`, `a_folder_goes_on`).
//!
//! Not said: who calls the core, and when; that a client which is too slow is closed before an event is its caller's, as is the room that a call asks
//! for.
//!
//! Chosen: before an event is noted, room is reserved for it and for a bound of the Level events that it may owe; what isn't used stays reserved. A
//! claim reserves nothing. The frames of one Lost event are stored one by one, a batch by one call. The core keeps one frame, into which each log
//! call is written, and makes the trace's batch at its begin: no later call takes memory for them. That fewer than 2^40 frames were admitted is a
//! condition of calls that admit.
#![tactic(auto)]

mod admission;
mod admitting;
mod anew;
mod claims;
pub mod client_turns;
mod clients;
mod daemon;
pub mod folder_laws;
pub mod laws;
mod levels;
pub mod message_turns;
mod messages;
mod requests;

pub use daemon::Core;
pub use requests::{Ready, STORED_NAME};
