//! The clients of a run are launched, one after the other.
//!
//! Proved: `launch_all` launches a scenario's clients one after the other, but those at which the net fails, each with its count risen (`Launched`);
//! where memory runs out, the first ones (`LaunchedFront`).
//!
//! Chosen: a client that can't be started, for lack of a thread too, is a net fault: the report is written, and the status is 8. Whoever connects
//! while a run waits for its clients counts as one of them.
#![tactic(auto)]

mod launching;

pub use launching::launch_all;
