//! The applications of a registry: one with its contexts (`application`), all of them by their ids (`apps`), in maps that keep the order of registration,
//! and which own levels contexts get (`relevel`).
//!
//! Proved: each call changes just the application or context that its ids name (`changed_app`, `changed_context`), and keeps the order of
//! registration; `free_number` is the least of the 16 numbers that none has, and nothing only where all have come; `relevel` gives each context the
//! own level that both its ids match. Out of memory is answered only where one comes or a context goes, and then nothing has changed.
//!
//! Chosen: room for an application's 64 contexts is taken when it registers, so a claim takes none, and a registry without applications takes none.
#![tactic(auto)]

mod application;
pub mod apps;
mod relevel;

pub use application::{Application, named};
pub use apps::Apps;
pub use relevel::{Relevel, is_match, is_named, is_pattern};
