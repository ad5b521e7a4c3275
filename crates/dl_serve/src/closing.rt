//! The closing of a server, and what is left of it.

ghost use Rattle.std.specs.Prelude.{◌≡◌, ◌≤◌, IfOk, true};
ghost use Rattle.dl_bytes.specs.Limits.{client_limit};
ghost use Rattle.dl_outside.specs.Told.{FolderTold};
ghost use Rattle.dl_server.specs.Server.{HaveLinks, IsServer};
ghost use Rattle.dl_server.specs.State.{seen};
ghost use Rattle.dl_settling.specs.Ends.{trace_told};
ghost use Rattle.dl_serve.specs.Closed.{HasClosedTo, IsLeft};
ghost use Rattle.dl_serve.specs.Rounds.{kept};

use crate::closed::Closed;
use dl_bytes::{Ends, Moment, OutOfMemory, Sequence, TraceState};
use dl_core::Core;
use dl_events::Kept;
use dl_outside::{Folder, Link};
use dl_server::Server;
use dl_settling::EndRoom;
use std::alloc::Global;
use std::sync::Wait;

/// What became of the trace; where none was kept, no file is told of.
pub fn trace_told(alloc: Global, core: Core) -> TraceState
    ensures { result ≡ trace_told core.trace }
{
    match core.into_trace_state() {
        Some(state) => state,
        None => TraceState {
            files: Sequence::over(Vec::new(alloc)),
            end: None,
        },
    }
}

/// What is left of a server that has closed.
fn leave<L: Link>(alloc: Global, server: Server<Kept, L>, room: EndRoom) -> Closed<L>
where
    L: Drop,
    requires linked { HaveLinks server.clients server.core }
    requires few { server.core.hub.limit ≤ client_limit }
    ensures { (folder : FolderTold) → IsLeft L.told (seen L.told kept true folder server) result }
{
    let Server {
        core,
        journal,
        clients,
        programs,
        mut ends,
        dropped,
        wanted,
        ..
    } = server;
    let links = room.fill(core.hub(), clients.len());
    let backlog = core.hub().backlog();
    ends.truncate(programs.len() as usize);
    Closed {
        events: journal,
        state: Ends {
            links,
            dropped,
            trace: trace_told(alloc, core),
        },
        backlog,
        clients,
        users: programs,
        ends: Sequence::over(ends),
        memory: wanted,
    }
}

/// The closing of a server, and what is left of it; where memory ran out for it, nothing.
pub fn close<R: Wait, L: Link, F: Folder>(
    rt: &R,
    alloc: Global,
    server: Server<Kept, L>,
    room: EndRoom,
    moment: Moment,
    folder: &mut F,
) -> Result<Closed<L>, OutOfMemory>
where
    L: Drop,
    requires server { IsServer L.told server }
    requires few { server.core.hub.limit ≤ client_limit }
    ensures { IfOk result (HasClosedTo L.told moment (seen L.told kept true (F.told folder.old) server) (F.told folder.new)) }
{
    let mut server = server;
    match server.close(rt, moment, folder) {
        Ok(()) => Ok(leave(alloc, server, room)),
        Err(error) => Err(error),
    }
}
