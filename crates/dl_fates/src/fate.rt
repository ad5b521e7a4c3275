//! What became of a log call, for one client.

/// What became of a log call, for one client.
#[derive(Clone, Copy, PartialEq, Eq)]
pub enum Fate {
    /// Its severity was above the level that its context held.
    Filtered,
    /// Its ring was full, and it was counted as lost.
    RingFull,
    /// It lies in its ring.
    InRing,
    /// It stands in the client's stream.
    InStream {
        /// Behind so many frames.
        place: u64,
    },
    /// Nobody listens, and it waits for the client that comes next.
    InBacklog {
        /// Behind so many frames.
        place: u64,
    },
    /// Nobody listened, and the buffer was full.
    BufferFull {
        /// The client that came next, and was told, if one did.
        next: Option<u32>,
    },
    /// It was put into another client's stream while this one wasn't there.
    ForOthers,
}

/// A log call, by its writer and its number.
#[derive(Clone, Copy, PartialEq, Eq, Hash)]
pub struct CallName {
    /// The writer's number, 1 to 32.
    pub writer: u8,
    /// The call's number among those of its writer, from 1.
    pub call: u64,
}
