//! What is told of the log storage.

use dl_bytes::{Sequence, TraceEnd};

/// What a filter stored.
#[derive(Clone, Copy, PartialEq, Eq)]
pub struct StoreEnd {
    /// How many messages.
    pub frames: u64,
    /// Their bytes, with storage headers.
    pub bytes: u64,
    /// Why it ended before all messages that pass were stored, where it did.
    pub end: Option<TraceEnd>,
}

/// What each filter stored, in the order of the filters.
#[derive(Drop)]
pub struct StoreEnds {
    /// The end of each filter.
    pub filters: Sequence<StoreEnd>,
}
