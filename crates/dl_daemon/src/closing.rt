//! The closing of a daemon, and what is left of it.

ghost use Rattle.std.specs.Prelude.{IfOk, false};
ghost use Rattle.dl_server.specs.Server.{IsServer};
ghost use Rattle.dl_server.specs.State.{seen};
ghost use Rattle.dl_daemon.specs.Left.{ClosesTo, IsOf, closed_of};
ghost use Rattle.dl_daemon.specs.Rounds.{noted};

use crate::counting::figures_of;
use crate::figures::Passed;
use crate::left::Left;
use dl_bytes::{Moment, OutOfMemory, Sequence};
use dl_events::Unkept;
use dl_outside::{Folder, Link};
use dl_serve::trace_told;
use dl_server::Server;
use std::alloc::Global;
use std::sync::Wait;

/// What is left of a server that has closed.
fn leave<L: Link>(alloc: Global, server: Server<Unkept, L>, passed: Passed) -> Left<L>
where
    L: Drop,
    ensures { IsOf (closed_of server) result }
{
    let figures = figures_of(&server, passed);
    let Server {
        core,
        journal,
        clients,
        programs,
        mut ends,
        ..
    } = server;
    ends.truncate(programs.len() as usize);
    Left {
        journal,
        trace: trace_told(alloc, core),
        clients,
        users: programs,
        ends: Sequence::over(ends),
        figures,
    }
}

/// The closing of a daemon behind all that has passed, and what is left of it; where memory ran out for it, nothing.
pub fn close<R: Wait, L: Link, F: Folder>(
    rt: &R,
    alloc: Global,
    server: Server<Unkept, L>,
    passed: Passed,
    moment: Moment,
    folder: &mut F,
) -> Result<Left<L>, OutOfMemory>
where
    L: Drop,
    requires server { IsServer L.told server }
    ensures { IfOk result (ClosesTo L.told moment (seen L.told noted false (F.told folder.old) server) (F.told folder.new)) }
{
    let mut server = server;
    match server.close(rt, moment, folder) {
        Ok(()) => Ok(leave(alloc, server, passed)),
        Err(error) => Err(error),
    }
}
