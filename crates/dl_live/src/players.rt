//! Who plays a run: its daemon, its applications with their writers, and its clients.

ghost use Rattle.std.specs.Prelude.{IfOk, IfSome};
ghost use Rattle.dl_script.specs.Playable.{IsRunnable};
ghost use Rattle.dl_trace.specs.Made.{IsMade};
ghost use Rattle.dl_live.specs.Playing.{ArePlayersOf};

use crate::beginning::Begun;
use crate::staging::{Stage, set_stage};
use dl_bytes::{Conf, OutOfMemory, Sequence};
use dl_crew::Plan;
use dl_desk::AppList;
use dl_events::Kept;
use dl_loop::Daemon;
use dl_opening::Opened;
use dl_outside::{ClientScript, Link};
use dl_storage::FilterList;
use dl_writer::BookList;
use std::alloc::Global;

/// What plays a run, before the net listens.
#[derive(Drop)]
pub struct Players<L: Link> {
    /// The configuration.
    pub conf: Conf,
    /// The filters of the log storage.
    pub filters: FilterList,
    /// The daemon, which was just made.
    pub daemon: Daemon<L>,
    /// The applications with their contexts.
    pub apps: AppList,
    /// What the workers play.
    pub plan: Plan,
    /// The writers' books.
    pub books: BookList,
    /// What each client sends, and when it leaves.
    pub scripts: Sequence<ClientScript>,
    /// The port on which clients are waited for.
    pub port: u16,
}

/// Makes what plays a run that begins so.
pub fn assemble<L: Link>(alloc: Global, begun: Begun) -> Result<Players<L>, OutOfMemory>
where
    L: Drop,
    requires runnable { IsRunnable begun.scenario }
    requires trace { IfSome begun.trace (IsMade begun.conf) }
    ensures { IfOk result (ArePlayersOf begun) }
{
    let Stage {
        conf,
        filters,
        core,
        opened,
        calls,
        port,
    } = set_stage(alloc, begun)?;
    let Opened {
        desk,
        apps,
        plan,
        books,
        scripts,
    } = opened;
    let daemon = Daemon::make(alloc, core, desk, Kept::make(alloc), calls)?;
    Ok(Players {
        conf,
        filters,
        daemon,
        apps,
        plan,
        books,
        scripts,
        port,
    })
}
