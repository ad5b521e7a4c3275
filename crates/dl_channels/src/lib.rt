//! External applications in the rounds of a daemon: they are accepted, each channel that is open is listened to and sent what waits for it, and ends where
//! there is a cause; and as the daemon stops all channels end.
//!
//! For each step there is a call for one channel, with its link and its end wherever these are kept, and a loop over all that are open, in the order in
//! which they came.
//!
//! Proved: `accept_channel`: the oldest connection is the link of the channel that opened, or was dropped and counted (`Enters`). `hear_all` and
//! `pump_channels` visit each open channel once, in the order in which they came (`HearsAll`, `PumpsAll`); a visit is one turn or one pump, and the
//! channel ends for its cause, its link shut (`hear_channel`, `pump_channel`: `Hears`, `Pumps`). `close_channels` ends each (`StopsAll`), or memory
//! ran out for one (`StopsSome`).
#![tactic(auto)]

mod accepting;
mod rounds;
mod visits;

pub use accepting::{Entry, accept_channel};
pub use rounds::{close_channels, hear_all, pump_channels};
pub use visits::{end_channel, hear_channel, pump_channel};
