//! A turn of one external application: what it sent is taken in, message by message, and the levels that its contexts get wait for it.
//!
//! Each call speaks of one channel, with the outboxes of all channels beside it, since a level goes to the channel of its application.
//!
//! Proved: `hear` makes one recv of at most 4096 bytes; the user messages that it makes whole are taken in, in order, each once (`IsTurn`,
//! `ServesEach`): frames are admitted behind the Closes of clients that are too slow, any other goes to the registry, and each level that is owed is
//! put for the channel of the application that has the slot (`TellsLevel`); an accepted registration that owes none is answered with the context's
//! level (`answer_to`). The channel ends as Left, Broken or Bad exactly for that cause (`Stays`). Laws: `a_turn_hears_more` (a channel's User events
//! are the first messages of all that its link gave, whatever the pieces), `levels_are_put`, `a_turn_is_its_events`.
#![tactic(auto)]

mod clients;
mod gathered;
mod hearing;
pub mod laws;
mod levels;
mod outboxes;
mod registration;
mod serving;

pub use clients::open_clients;
pub use gathered::Gathered;
pub use hearing::hear;
pub use outboxes::Outboxes;
pub use registration::Registration;
pub use serving::serve_one;
