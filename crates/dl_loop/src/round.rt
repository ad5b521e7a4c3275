//! What a round answers.

/// What came of the accept of a round. Just one of these is true.
#[derive(Clone, Copy, Debug, PartialEq, Eq)]
pub struct Round {
    /// The accept gave a link.
    pub accepted: bool,
    /// No connection waited.
    pub none: bool,
    /// An accept failed, in this round or before: there are no more.
    pub failed: bool,
    /// An accept ran out of memory, in this round or before: there are no more.
    pub wanted: bool,
}
