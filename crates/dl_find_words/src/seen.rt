//! Messages as they are met in files.

use dl_bytes::Bytes;
use dl_sessions::Entry;

/// Where a message stands.
#[derive(Clone, Copy, PartialEq, Eq)]
pub struct Spot {
    /// The number of its file among those that are read, from 0.
    pub file: u64,
    /// The offset of its first byte in the file, behind a storage header.
    pub offset: u64,
}

/// A message of a session.
#[derive(Clone, Copy, PartialEq, Eq)]
pub struct Seen {
    /// Where it stands.
    pub spot: Spot,
    /// What it tells.
    pub entry: Entry,
}

/// A message with its bytes.
#[derive(Drop)]
pub struct Hit {
    /// Where it stands, and what it tells.
    pub seen: Seen,
    /// Its bytes.
    pub bytes: Bytes,
}
