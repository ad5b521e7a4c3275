//! The daemon's clients in its rounds: they are accepted, each is listened to and sent what waits for it, and at the stop each is closed.
//!
//! For each step there is a call for one client, over its link and its listener wherever these are kept, and a loop over all open clients in
//! the order of their numbers. What the daemon's own applications tell of themselves is noted before the first client comes.
//!
//! Proved: `listen_all`, `pump_all` and `close_all` visit just the open clients, each once, in the order of their numbers and as the hub is when its
//! turn comes, by the whole turn, pump or stop of `dl_turns` (`HearsAll`, `PumpsAll`, `ClosesAll`); a link is shut just where its client was closed.
//! `accept_one`: the oldest connection is the link of the client that connects, or is dropped and counted where the hub has no place (`Arrives`,
//! `ConnectsAs`). `greet` notes the registrations of the daemon's own applications (`GreetsEach`, `GreetsFirst`). Laws: a round is its events
//! (`a_round_is_its_events`); why clients stay (`why_clients_stay`); each client that is gone shows why (`gone_clients_show_why`,
//! `clients_are_as_noted`).
//!
//! Not said: that the count of idle turns is below its top of 2^64 - 1, where an idle link counts as one that moved. `greet` asks that no client has
//! come yet.
//!
//! Chosen: each client that may come has a listener of its own, in the memory of eight: one that comes takes over the seat of one that is gone
//! (`ListenerPool`). What the listener of a gone client was stands in proofs alone (`past.rt`). The links of all clients that are gone are shut at the end
//! of a round.
#![tactic(auto)]

mod accepting;
mod greeting;
pub mod laws;
mod listener;
mod listener_pool;
mod partings;
mod past;
mod rounds;
mod visits;

pub use accepting::{Arrival, accept_one, connect_one};
pub use greeting::{greet, greet_one};
pub use listener::Listener;
pub use listener_pool::ListenerPool;
pub use partings::shut_gone;
pub use rounds::{close_all, listen_all, pump_all};
pub use visits::{close_one, listen_to, pump_to};
