//! External applications, which log over a connection each: the channels that are open, what each sent and is to be told, and the turns of the
//! daemon's clients beside them, whose requests set levels that the channels are told.
//!
//! Proved: `Channels::open` opens the next number exactly where it may (`Opens`), else it is refused as spent, then full (`Refuses`); `turn` and
//! `pump` are those of one channel (`HasTurned`, `HasPumped`); `close` unregisters each application of the channel, and then the channel is gone
//! (`HasClosed`), or it goes on closing where memory ran out (`HasBegunToClose`). A client's turn tells the levels that it set to the channels of
//! their applications (`request_turn`, `HasAsked`; law `levels_that_are_asked_for_are_told`).
#![tactic(auto)]

mod channels;
mod closing;
mod fault;
mod history;
pub mod laws;
mod messenger;
mod ways;

pub use channels::Channels;
pub use fault::ChannelFault;
