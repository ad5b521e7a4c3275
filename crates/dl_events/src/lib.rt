//! What happened: the events of the daemon, the records of log calls, and the journals that take the events.
//!
//! [`Kept`] keeps its events, [`Counted`] as many as it has room for. [`Unkept`] is for a daemon that runs for months: it keeps no event, only
//! how many there were and how clients went, and never runs out of memory. In proofs it tells all events that were noted, so laws on journals that tell their events
//! hold of it.
//!
//! What must be believed: its list of events is data of proofs alone, and nothing but its length is tied to memory. So a clause on that list
//! says nothing to who holds an [`Unkept`]: no run can read an event out of it. It binds code that is generic over [`Journal`]: such code
//! gets an event into the list by `note` alone, which puts the event that it is given at the end. Lists are made in `make` and in `note`,
//! and nowhere else: the type that has them is private here.
//!
//! Proved: the journals take memory ahead, and `note` adds just its event at the end (`Journal`, `Kept`, `Counted`, `Unkept`); a list of records
//! keeps what it was given (`RecordList`).
//!
//! Chosen: a journal that keeps the number of its events alone counts to 2^64 - 1 and stays there.
#![tactic(auto)]

mod claim_list;
mod closes;
mod event;
mod journal;
mod log;
mod record;
mod unkept;

pub use claim_list::ClaimList;
pub use closes::{Closes, counted};
pub use dl_bytes::Done;
pub use event::{Event, Why};
pub use journal::{Counted, Journal, Kept};
pub use record::{Answer, Record, RecordList};
pub use unkept::Unkept;
