//! The limits of the daemon's rounds, each once.

pub(crate) use dl_bytes::CLIENT_LIMIT;
use dl_bytes::{APP_LIMIT, CONTEXT_LIMIT};

/// How many takes of an application may give in a round.
pub(crate) const TAKE_LIMIT: usize = 64;

/// How many places for contexts all applications together have.
pub(crate) const PLACE_LIMIT: u32 = APP_LIMIT as u32 * CONTEXT_LIMIT as u32;

/// How many Claim events rounds may note: one more than there are places.
pub(crate) const CLAIM_LIMIT: u32 = PLACE_LIMIT + 1;

/// For how many events beside its Log and Lost events a daemon needs room: for the Claim events with a Level event of each, and for a Connect and a
/// Close of each client.
pub(crate) const MORE_EVENTS: u64 = 2 * CLAIM_LIMIT as u64 + 2 * CLIENT_LIMIT as u64;
