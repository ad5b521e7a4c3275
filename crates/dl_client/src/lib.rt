//! What an external application does with the log calls of its contexts: filters them, queues their messages, and keeps account.
//!
//! For every list of steps, of any number of contexts: what the link took and what waits is what was queued, in order and
//! nothing else; of each context, the calls that were filtered, queued and lost are those that its accounts among the
//! queued messages tell and those counted since; a call is filtered where its severity is above the level that its context
//! was told last, and lost where the queue had no room for its message, or for an account that has to come before it.
//!
//! Proved: `log` filters, queues or loses a call, or says why it refuses it; `obey`, `open`, `close`, `settle`, `took` and `count_calls` are steps of
//! the same account. For every list of steps: what the link took and what waits is what was queued; the accounts in it and the counts since add up to
//! the calls, fate by fate, and each place holds the level that it was told last (`each_call_is_accounted_for`). A call is written as libdlt 2.18
//! wrote it, for one that was recorded (`a_call_is_written_as_by_libdlt`).
#![tactic(auto)]

mod account;
mod area;
mod arguments;
mod calls;
mod client;
mod context;
pub mod laws;
mod levels;
mod link;
mod message;
mod outcome;
mod registering;
mod state;
mod values;

pub use account::push_account_payload;
pub use area::{Area, append, drop_front, filled, room};
pub use arguments::{add_argument, push_argument};
pub use calls::{count_calls, is_filtered, log};
pub use client::Client;
pub use context::{Call, Context, Opening, Sender};
pub use levels::{obey, settle};
pub use link::took;
pub use outcome::{Answer, Logged};
pub use registering::{close, open, register_app, unregister_app};
pub use values::{
    Format, Kind, Shape, Units, add_named_bool, add_named_number, add_named_raw, add_named_text,
    add_number, add_plain, add_raw, add_text,
};
