//! What is left of a program that served.

use dl_bytes::{Ends, Sequence};
use dl_channel::ChannelEnd;
use dl_events::Kept;
use dl_outside::LinkList;

/// What is left of a program that served.
#[derive(Drop)]
pub struct Served<L> {
    /// The exit status.
    pub status: u8,
    /// The journal, where the closing was made.
    pub events: Option<Kept>,
    /// What stands at the end beside it.
    pub state: Option<Ends>,
    /// The links of the clients, by number.
    pub clients: LinkList<L>,
    /// The links of the programs, by number.
    pub users: LinkList<L>,
    /// Why each channel has ended; none where the closing ended it.
    pub ends: Sequence<Option<ChannelEnd>>,
}
