//! Where the bytes of a description are.

use dl_bytes::{Bytes, ClaimText};

/// What told a description.
#[derive(Drop)]
pub(crate) enum Described {
    /// A message: the bytes are on the heap.
    Told(Bytes),
    /// A claim: the bytes are in place.
    Claimed(ClaimText),
}
