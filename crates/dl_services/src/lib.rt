//! Requests of diagnostic clients, served against the registry.
//!
//! A request is served in two steps. `wish_of` tells what must be done first of what lies outside the registry: the stored
//! configuration written or removed, or data put into the queue of an application. Whoever does that hands what came of it
//! to `serve`, which changes the registry and gives the reply.
//!
//! Proved: what a request wants of the folder or of an application's queue (`wish_of`; `wants_are_needs`), the reply and the new registry (`serve`)
//! are the definitions' of `dl_model` for every request, fault and answer. What was not done changes nothing, and its status is not 0
//! (`what_was_not_done_changes_nothing`). Out of memory is answered only for the text of a Store and the body of a reply, and then nothing has
//! changed.
//!
//! Chosen: the contracts speak of every configuration with the given `InjectionMode` and `ContextLogLevel`, since a request sees nothing else of it.
#![tactic(auto)]

pub mod laws;
mod service;
mod status;
mod wish;

pub use service::serve;
pub use wish::{Want, wish_of};
