//! What serves.

use dl_channel::ChannelEnd;
use dl_core::Core;
use dl_outside::LinkList;
use dl_rounds::ListenerPool;
use dl_socket::Channels;

/// A daemon that serves, over a journal and links of one kind.
#[derive(Drop)]
pub struct Server<J, L> {
    /// The core.
    pub core: Core,
    /// What takes the events.
    pub journal: J,
    /// The channels of external applications.
    pub channels: Channels,
    /// The link of each client that came, by the clients' numbers from 1.
    pub clients: LinkList<L>,
    /// What cuts the bytes of each client that may come.
    pub seats: ListenerPool,
    /// The link of each channel that came, by the channels' numbers from 1.
    pub programs: LinkList<L>,
    /// Why each channel that may come has ended, where it has.
    pub ends: Vec<Option<ChannelEnd>>,
    /// How many links were dropped, at most 4,294,967,295.
    pub dropped: u32,
    /// Whether an accept of a client has failed: there are no more.
    pub no_clients: bool,
    /// Whether an accept of a program has failed: there are no more.
    pub no_programs: bool,
    /// Whether memory ran out for a link, for a channel, or in the journal.
    pub wanted: bool,
    /// Whether the link of a client that is gone may not be shut yet.
    pub unshut: bool,
}
