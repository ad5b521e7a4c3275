//! What the daemon is meant to do, as definitions over lists: what happened, and what each client is owed for it.
//! The code here is the plain types that the definitions speak of.
//!
//! What stands here must be believed by whoever reads a promise of a daemon: streams, backlog, levels, registry, replies, trace files, records and
//! journals, each as a function or relation over lists (docs/believe.md has them in the order of belief). Proved of them here: the laws and examples
//! on registries (who is there, `who_is_there`).
//!
//! Chosen: where several stored levels have the same two ids, the last one holds. What a request needs is judged after the Level events before it. A
//! frame longer than a trace file may be would have a file of its own (a stored frame has at most 2000 bytes, and a file at least 2000). A stream's
//! frames and replies are told apart by a relation, *put together from*, since a stream is a list of frames that carry no mark.
#![tactic(auto)]

mod context;
mod described;
mod description;
pub mod journal_examples;
mod registry;
pub mod registry_examples;
pub mod registry_laws;
mod software;

pub use context::{Context, Places};
pub use description::Description;
pub use registry::{LevelChange, RegistryFault, SetFault, Slot};
pub use software::Software;
