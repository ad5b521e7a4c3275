//! A server is made.

ghost use Rattle.std.specs.Prelude.{◌≡◌, IfOk, [], None, false, replicate};
ghost use Rattle.dl_rounds.specs.Ready.{fresh_listener};
ghost use Rattle.dl_server.specs.Server.{IsMade};

use crate::server::Server;
use dl_bytes::OutOfMemory;
use dl_channel::ChannelEnd;
use dl_core::Core;
use dl_events::Journal;
use dl_outside::{Link, LinkList};
use dl_rounds::ListenerPool;
use dl_socket::Channels;
use std::alloc::Global;

/// So many channels that have not ended.
#[tactic(auto, using(std::proofs::lemmas::List::replicate_more))]
fn no_ends(alloc: Global, count: usize) -> Result<Vec<Option<ChannelEnd>>, OutOfMemory>
    ensures { IfOk result (λ ends. ends.items ≡ replicate count None) }
{
    let mut ends = Vec::with_capacity(alloc, count)?;
    for _made in 0..count {
        ends.push(None)?;
    }
    Ok(ends)
}

/// What a server keeps its links, what cuts its clients' bytes, and the ends of its channels in.
#[derive(Drop)]
struct Rooms<L> {
    clients: LinkList<L>,
    seats: ListenerPool,
    programs: LinkList<L>,
    ends: Vec<Option<ChannelEnd>>,
}

/// Takes the memory that so many clients and so many channels need.
fn make_rooms<L: Drop>(
    alloc: Global,
    most_clients: u32,
    most_channels: u16,
) -> Result<Rooms<L>, OutOfMemory>
    ensures clients { IfOk result (λ rooms. rooms.clients ≡ record { links = []; room = most_clients }) }
    ensures listeners { IfOk result (λ rooms. rooms.seats.listeners ≡ replicate most_clients fresh_listener) }
    ensures programs { IfOk result (λ rooms. rooms.programs ≡ record { links = []; room = most_channels }) }
    ensures ends { IfOk result (λ rooms. rooms.ends.items ≡ replicate most_channels None) }
{
    let clients = LinkList::make(alloc, most_clients)?;
    let seats = ListenerPool::make(alloc, most_clients)?;
    let programs = LinkList::make(alloc, u32::from(most_channels))?;
    let ends = no_ends(alloc, usize::from(most_channels))?;
    Ok(Rooms {
        clients,
        seats,
        programs,
        ends,
    })
}

impl<J: Journal, L: Link> Server<J, L> {
    /// A server of this core and these channels, which notes in this journal: to the core at most so many clients come, and so many channels in all.
    /// It takes all memory that its rounds need of their own, but that of the channels.
    pub fn make(
        alloc: Global,
        core: Core,
        journal: J,
        channels: Channels,
        most_clients: u32,
        most_channels: u16,
    ) -> Result<Server<J, L>, OutOfMemory>
    where
        L: Drop,
        J: Drop,
        ensures { IfOk result (IsMade core journal channels most_clients most_channels) }
    {
        match make_rooms(alloc, most_clients, most_channels) {
            Ok(rooms) => Ok(Server::begin(core, journal, channels, rooms)),
            Err(error) => Err(error),
        }
    }

    // The server of what it is made of, to which nobody came.
    fn begin(core: Core, journal: J, channels: Channels, rooms: Rooms<L>) -> Server<J, L>
        ensures parts { (result.core ≡ core) × (result.journal ≡ journal) × (result.channels ≡ channels) }
        ensures links { (result.clients ≡ rooms.clients) × (result.programs ≡ rooms.programs) }
        ensures lists { (result.seats ≡ rooms.seats) × (result.ends.items ≡ rooms.ends.items) }
        ensures fresh { (result.dropped ≡ 0) × (result.no_clients ≡ false) × (result.no_programs ≡ false) × (result.wanted ≡ false) × (result.unshut ≡ false) }
    {
        let Rooms {
            clients,
            seats,
            programs,
            ends,
        } = rooms;
        Server {
            core,
            journal,
            channels,
            clients,
            seats,
            programs,
            ends,
            dropped: 0,
            no_clients: false,
            no_programs: false,
            wanted: false,
            unshut: false,
        }
    }
}
