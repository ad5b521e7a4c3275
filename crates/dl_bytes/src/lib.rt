//! The plain types that every other crate names: ids, levels, payloads, frames, and bytes.
//!
//! Proved: what each type may hold (`Level` and `OwnLevel` in their ranges, `Payload` up to 1390 bytes, `Frame` up to a stored message's size) is its
//! invariant; `Cursor` reads numbers in either byte order, and where it refuses it stays where it was; `Buffer` never holds more than its limit; one
//! theorem on cutters (a stream is cut the same in any pieces) serves those of `dl_message` and `dl_user`.
//!
//! Chosen: out of memory has one name in all crates, `OutOfMemory`, which is std's `AllocError`. Contracts see an `OwnLevel` as an optional level,
//! nothing for the number -1. `Bytes` and all list types are one generic `Sequence<T>`, whose `len` asks for fewer than 2^32 entries. This crate is
//! longer than others are to be, since all of them name these types and a crate below it would only be handed on.
#![tactic(auto)]

mod buffer;
mod claim;
mod conf;
mod context;
mod cursor;
mod frame;
mod htyp;
mod id;
mod item;
pub mod laws;
mod level;
mod limits;
mod list;
mod moment;
mod outcome;
mod payload;
mod user;

pub use buffer::Buffer;
pub use claim::{Claim, ClaimText};
pub use conf::{AppSpec, Conf, DIRECTORY_LIMIT, Stored, StoredLevel};
pub use context::Ctx;
pub use cursor::{Cursor, Order};
pub use frame::Frame;
pub use htyp::Htyp;
pub use id::{Id, IdFault};
pub use item::{Injection, Item};
pub use level::{Level, OwnLevel, Severity};
pub use limits::{
    ADMITTED_LIMIT, APP_LIMIT, ARGS_LIMIT, BATCH_LIMIT, CALL_LIMIT, CHANNEL_LIMIT,
    CLAIM_TEXT_LIMIT, CLIENT_LIMIT, CONTEXT_LIMIT, COUNTER_LIMIT, FRAME_LIMIT, INJECTION_LIMIT,
    INPUT_PIECE, LAST_VERSION, LINK_PIECE, MESSAGE_LIMIT, OPEN_CHANNEL_LIMIT, OPEN_CLIENT_LIMIT,
    PAYLOAD_LIMIT, REQUEST_LIMIT, RING_LIMIT, SLOTS, TEXT_LIMIT, TURN_FRAMES, WRITER_CALL_LIMIT,
    WRITER_LIMIT,
};
pub use list::{Bytes, Sequence};
pub use moment::Moment;
pub use outcome::{Backlog, Done, Ends, FrameList, LinkEnd, TraceEnd, TraceFile, TraceState};
pub use payload::Payload;
pub use user::UserMsg;

/// There is no memory: the one name for it in all crates.
pub use std::alloc::AllocError as OutOfMemory;
