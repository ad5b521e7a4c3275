//! The live daemon: its core, its desk, its journal and its clients, in rounds.
//!
//! A daemon is made of a core and a desk, notes what the applications of this process tell of themselves (`hello`), and then goes round and
//! round (`round`): one accept; each client is listened to; each application's calls, claims and losses are taken; each client is sent what waits
//! for it. What is true of it between any two calls is the invariant of its value. Each step of a round is a call of a few lines, and the laws
//! say that each keeps that invariant.
//!
//! Proved: what is true of a `Daemon` between two calls is the invariant of its value (`IsDaemon`): its journal tells just what was taken, reported
//! and set (`IsToldBy`), and in each run that it may be of, core, journal, links and queues stand for each other (`HoldsIn`). `make`; `hello`: just
//! these registrations (`Greets`); `round`: one accept, each client listened to, the calls, claims and losses of each application taken, each client
//! sent what waits, the links of gone clients shut (`IsRound`), and a rest just where nothing moved (`rest_if_idle`); of each application 64 takes
//! gave, or one found its ring empty, and then its losses were taken (`HasHadTurn`); `stop`: the account is settled, or the books come back exactly
//! where one is missing (`Stops`). Many rounds: `rounds_go_on`, `connections_add_up`, `a_round_serves_each_client`.
//!
//! Not said: how long a net rests; that a round comes within some time.
//!
//! Chosen: `hello` asks that the list is that of the desk's applications, each with an id of its own that isn't zero, and rounds and the stop ask
//! that `hello` was done: only then is each application there, and a claim of one that isn't would make the journal ill-formed. The count of links
//! that were dropped stops at 4,294,967,295.
#![tactic(auto)]

pub mod accept_laws;
mod daemon;
pub mod laws;
mod limits;
mod resting;
mod round;
mod stop;
pub mod stop_laws;
mod taking;

pub use daemon::Daemon;
pub use resting::{Rests, rest_if_idle};
pub use round::Round;
