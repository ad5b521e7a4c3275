//! The stop of the live daemon, over its parts, once its writers are back.
//!
//! First all that rings and loss words still hold is taken, admitted and told (`dl_taking::drain_all`); then each client that is open has its
//! closing turns and its Close (`dl_rounds::close_all`); and then the account is made, with what became of each client's link and of the
//! trace files. None of it takes memory but what requests ask for: the room for the ends of links is taken when the daemon is made.
//!
//! Proved: `settle` takes and tells all that rings and loss words still hold, closes each open client, and makes the account with what became of each
//! link (`Settles`). What that is to the journal: `a_stop_is_its_events`; how each client went: `how_clients_went`, and whatever links tell,
//! `how_clients_ended`; a stopped client is complete, a stuck one is cut, a slow one is complete exactly where its outbox was empty
//! (`which_ends_are_complete`); what is left fits into what may still be noted (`what_is_left_fits`).
#![tactic(auto)]

mod ends;
pub mod laws;
mod parts;
mod settling;

pub use ends::EndRoom;
pub use parts::Parts;
pub use settling::settle;
