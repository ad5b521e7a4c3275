//! What is left of a server that closed.

use dl_bytes::{Backlog, Ends, Sequence};
use dl_channel::ChannelEnd;
use dl_events::Kept;
use dl_outside::LinkList;

/// What is left of a server that closed.
#[derive(Drop)]
pub struct Closed<L> {
    /// The journal.
    pub events: Kept,
    /// What stands at the end beside it.
    pub state: Ends,
    /// What waits for the next client.
    pub backlog: Backlog,
    /// The links of the clients, by number.
    pub clients: LinkList<L>,
    /// The links of the programs, by number.
    pub users: LinkList<L>,
    /// Why each channel that came has ended, where it ended before the closing.
    pub ends: Sequence<Option<ChannelEnd>>,
    /// Whether memory ran out for a link, for a channel, or in the journal.
    pub memory: bool,
}
