//! What the daemon says of itself, as the verbose arguments of log messages: levels that changed, clients and external applications that came and went,
//! and what became of the trace. Which contexts have something new is a function of those that were there before and those that are there now.
//!
//! Proved: each context that is new, has another level, or is gone stands in the lists once, in the order of the registry, and none else (`changed`,
//! `gone`); the arguments of each message are just those of `specs/Said` (`say_level`, `say_connected`, `say_ended` and the others). Rests on tests:
//! when the daemon looks, and who may have set a level (`tests/own`).
#![tactic(auto)]

mod part;
mod said;
mod standing;

pub use part::{Part, push_parts};
pub use said::{
    say_application, say_asked, say_connected, say_context, say_disconnected, say_ended, say_level,
    say_restarted, say_session, say_trace_file, say_untaken,
};
pub use standing::{Standing, changed, gone};
