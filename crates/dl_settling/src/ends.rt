//! What stands at the end beside the events: what became of each client's link, and the trace files.

ghost use Rattle.std.specs.Prelude.{◌≡◌, ◌≤◌, [], length, vec_capacity};
ghost use Rattle.dl_settling.specs.Ends.{end_in, ends_in, trace_told};

use dl_bytes::{CLIENT_LIMIT, LinkEnd, OutOfMemory, Sequence, TraceState};
use dl_core::Core;
use dl_hub::Hub;
use std::alloc::Global;
use std::marker::Model;

/// The most clients that come to a daemon which stops.
const CLIENTS: usize = CLIENT_LIMIT as usize;

/// Room for the ends of 32 links: its memory is taken once, when it is made.
#[derive(Drop)]
pub struct EndRoom {
    ends: Vec<LinkEnd>,
}

impl Model for EndRoom {
    ghost use Rattle.std.specs.Prelude.{◌≡◌, ◌≤◌, [], vec_capacity};

    // of room nothing is seen
    ghost Value = { Unit {0} };

    ghost view = { λ r. tt };

    ghost invariant = { λ r. (r.ends.items ≡ []) × (32 ≤ vec_capacity r.ends) };
}

impl EndRoom {
    /// Such room.
    pub fn make(alloc: Global) -> Result<EndRoom, OutOfMemory> {
        Ok(EndRoom {
            ends: Vec::with_capacity(alloc, CLIENTS)?,
        })
    }

    /// What became of the links of a hub's clients, of which so many came. It takes no memory.
    pub fn fill(self, hub: &Hub, clients: u32) -> Sequence<LinkEnd>
        requires all { clients ≡ length hub.now.clients }
        requires few { clients ≤ 32 }
        ensures { result ≡ ends_in hub.now }
    {
        Sequence::over(push_ends(hub, clients, self.ends))
    }
}

/// Puts the ends of links one after the other.
fn push_ends(hub: &Hub, clients: u32, room: Vec<LinkEnd>) -> Vec<LinkEnd>
    requires all { clients ≡ length hub.now.clients }
    requires few { clients ≤ 32 }
    requires empty { room.items ≡ [] }
    requires room { 32 ≤ vec_capacity room }
    ensures { result.items ≡ ends_in hub.now }
{
    let mut ends = room;
    for done in 0..clients {
        ends.push(end_of(hub, done + 1)).unwrap();
    }
    ends
}

/// What became of the link of one client.
fn end_of(hub: &Hub, client: u32) -> LinkEnd
    requires first { 1 ≤ client }
    requires came { client ≤ length hub.now.clients }
    ensures { result ≡ end_in hub.now client }
{
    let (frames, bytes) = hub.sent(client);
    LinkEnd {
        client,
        frames,
        bytes,
        complete: hub.left(client) == 0,
    }
}

/// What became of the trace; where none was kept, no file is told of.
pub fn trace_told(alloc: Global, core: Core) -> TraceState
    ensures { result ≡ trace_told core.trace }
{
    match core.into_trace_state() {
        Some(state) => state,
        None => TraceState {
            files: Sequence::over(Vec::new(alloc)),
            end: None,
        },
    }
}
