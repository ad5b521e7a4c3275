//! What a run plays: all that its scenario declares, and the daemon's core.

ghost use Rattle.std.specs.Prelude.{IfOk, IfSome};
ghost use Rattle.dl_script.specs.Playable.{IsRunnable};
ghost use Rattle.dl_trace.specs.Made.{IsMade};
ghost use Rattle.dl_live.specs.Stage.{IsSetFor};

use crate::beginning::Begun;
use dl_bytes::{Conf, OutOfMemory};
use dl_core::Core;
use dl_opening::laws::opened_books_have_few_calls;
use dl_opening::{Opened, all_calls, open};
use dl_storage::FilterList;
use std::alloc::Global;

/// What a run plays.
#[derive(Drop)]
pub struct Stage {
    /// The configuration.
    pub conf: Conf,
    /// The filters of the log storage.
    pub filters: FilterList,
    /// The daemon's core, before its first event.
    pub core: Core,
    /// What the scenario declares.
    pub opened: Opened,
    /// How many calls it asks for.
    pub calls: u32,
    /// The port on which clients are waited for.
    pub port: u16,
}

/// Makes what a run plays that begins so.
pub fn set_stage(alloc: Global, begun: Begun) -> Result<Stage, OutOfMemory>
    requires runnable { IsRunnable begun.scenario }
    requires trace { IfSome begun.trace (IsMade begun.conf) }
    ensures { IfOk result (IsSetFor begun) }
{
    opened_books_have_few_calls();
    let Begun {
        conf,
        stored,
        filters,
        scenario,
        trace,
        port,
    } = begun;
    let calls = all_calls(scenario.all());
    let opened = open(alloc, scenario)?;
    let core = Core::make(alloc, &conf, stored, trace, 0)?;
    Ok(Stage {
        conf,
        filters,
        core,
        opened,
        calls,
        port,
    })
}
