//! How a run of threads ends: what passes its filters is stored, the report of its account is written, and its status is found.
//!
//! Proved: `conclude` stores what passes the filters (`AreStored`), writes the report of the account, or its front where the output failed, or
//! nothing where memory ran out, and answers the status of the gravest failure (`Concludes`, `Finishes`).
#![tactic(auto)]

mod concluding;
mod failing;
mod finishing;

pub use concluding::{Concluded, conclude};
