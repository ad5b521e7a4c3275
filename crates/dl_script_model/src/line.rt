//! What lines of both scripts have in common.

use crate::arguments::CallArguments;
use dl_bytes::{Bytes, ClaimText, Id, OwnLevel, Severity};

/// `app ID CAPACITY [TEXT]`: an application of channel 0, with its ring.
#[derive(Drop)]
pub struct AppLine {
    /// The application's id.
    pub apid: Id,
    /// How many log calls its ring holds, 1 to 4096.
    pub capacity: u16,
    /// Its description, at most 255 bytes; empty where the line has none.
    pub text: Bytes,
}

/// `context APID CTID LEVEL [TEXT]`: a context of an application.
#[derive(Drop)]
pub struct ContextLine {
    /// The application's id.
    pub apid: Id,
    /// The context's id.
    pub ctid: Id,
    /// The level that it has of its own; none for `default`.
    pub level: OwnLevel,
    /// Its description, at most 255 bytes; empty where the line has none.
    pub text: Bytes,
}

/// `W CTID LEVEL [TEXT]`: a writer claims a place for a context of its application.
#[derive(Drop)]
pub struct ClaimLine {
    /// The writer's number, 1 to 32.
    pub writer: u8,
    /// The context's id.
    pub ctid: Id,
    /// The level that it asks for; none for `default`.
    pub level: OwnLevel,
    /// Its description, at most 48 bytes; empty where the line has none.
    pub text: ClaimText,
}

/// `W CTID SEV AT ARG..`: a log call.
#[derive(Drop)]
pub struct CallLine {
    /// The writer's number, 1 to 32.
    pub writer: u8,
    /// The id of the context that it logs under.
    pub ctid: Id,
    /// How grave it is.
    pub severity: Severity,
    /// The timestamp, in units of 0.1 ms.
    pub at: u32,
    /// The arguments.
    pub payload: CallArguments,
}
