//! The outside in memory, for tests and for whoever has no files at hand: a source, a sink, a folder, a dial and a clock; the net, with
//! its connections, whose peers send and take what a test prepares; a sign, gates and a net that threads share; and `Failing`, an
//! object of the outside of which chosen calls fail, each with the fault that its trait says.
//!
//! Proved: of `Failing` and of each object in memory what its trait in `dl_outside` says; objects in memory tell all that they hold, so a test over
//! them can look at everything.
//!
//! Chosen: these objects stand apart from the traits, so that who names a trait waits for none of their proofs. A sink in memory counts out of memory
//! as its fault; `Discard` never fails and keeps nothing. Objects in memory don't rest.
#![tactic(auto)]

mod failing;
mod gates;
mod memory;
mod memory_net;
mod shelf;
mod sign;
mod stand_ins;
mod stock;
mod watched;
mod wire;

pub use failing::Failing;
pub use gates::{MeetingGate, Passing, SignGate};
pub use memory::{Discard, MemorySink, MemorySource};
pub use memory_net::MemoryNet;
pub use sign::Sign;
pub use stand_ins::{MemoryDial, StandingClock};
pub use stock::MemoryFolder;
pub use watched::{Wanted, Watched, WatchedNet};
pub use wire::{Manner, MemoryLink, Turn};
