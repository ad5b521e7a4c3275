//! Why no channel opens.

/// Why a channel can't be opened.
#[derive(Clone, Copy, Debug, PartialEq, Eq)]
pub enum ChannelFault {
    /// As many were opened as may be in all.
    Spent,
    /// As many are open as may be at once.
    Full,
    /// There is no memory for it.
    OutOfMemory,
}
