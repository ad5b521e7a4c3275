//! The registry: which applications and contexts there are, at which levels, and which levels wait to be set.
//!
//! Ids are looked up in maps that keep the order of registration (`dl_apps`): who they are, which numbers and places they have,
//! and which levels of their own. What each slot holds, and the level that its context is to have, stand in a table beside them
//! (`SlotTable`), so that the next level that is owed is found without a look at the others.
//!
//! Proved: `Registry::apply`, `set_own`, `set_default`, `reset` and `next_change` each leave just what the step of `dl_model` leaves, or are refused
//! for its first cause and change nothing; `next_change` gives the Level event that is owed, the least slot first (`IsFirstWaiting`); `info` gives
//! the body of the reply to GetLogInfo, or the one of its two refusals. So the registry is that of its journal (laws `made_is_the_beginning`,
//! `messages_are_events`, `changes_are_owed`, `requests_are_events`). The contracts name the definitions of `dl_model` and have no rule of their own;
//! the table beside the maps is private.
//!
//! Chosen: only a range of slots may wait for a level, which a change widens and `next_change` shortens: a look at a settled registry is one
//! comparison, and a new default level one pass. `OutOfMemory` of `apply` comes only where the message would be accepted; `info` knows its size
//! before it takes memory, so `TooLong` is exact. Whether a message for the zero id is refused as `ZeroId` or as `Taken` no test can tell apart; the
//! zero id is looked for first.
#![tactic(auto)]

mod apply;
mod claims;
mod info;
pub mod laws;
mod levels;
mod registry;
mod table;

pub use dl_bytes::{LAST_VERSION, Stored};
pub use dl_model::{LevelChange, RegistryFault, SetFault};
pub use info::InfoFault;
pub use registry::Registry;
pub use table::{PLACES, SlotTable, slot_of};
