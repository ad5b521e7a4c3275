//! What contracts tell of level words: the levels that were set, and the reads.

use dl_bytes::Level;

/// A level as it was found in a slot.
#[derive(Clone, Copy, PartialEq, Eq)]
pub struct Seen {
    /// How often the slot had been set, counted from the first version of all slots.
    pub version: u64,
    /// The level that was set last.
    pub level: Level,
}

/// A level that was set. Contracts alone speak of it.
pub struct Change {
    /// The slot that was set.
    pub slot: u16,
    /// Its new level.
    pub level: Level,
}

/// A read of a slot. Contracts alone speak of it.
pub struct Read {
    /// The slot that was read.
    pub slot: u16,
    /// The version that was found.
    pub version: u64,
    /// The level that was found.
    pub level: Level,
}
