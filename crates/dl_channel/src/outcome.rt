//! Why a channel ends.

use dl_user::UserFault;

/// Why a channel has ended.
#[derive(Clone, Copy, PartialEq, Eq)]
pub enum ChannelEnd {
    /// The program ended its connection.
    Left,
    /// The link failed.
    Broken,
    /// No user message begins with what the program sent.
    Bad(UserFault),
    /// More waited for the program than a channel holds.
    Slow,
    /// There was no memory for what the program sent.
    NoMemory,
}
