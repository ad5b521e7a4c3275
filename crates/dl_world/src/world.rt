//! The world of a script: the daemon's core, and all that moves around it.

ghost use Rattle.std.specs.Prelude.{◌≡◌, [], IfOk, IfSome};
ghost use Rattle.dl_trace.specs.Made.{IsMade};
ghost use Rattle.dl_trace.specs.State as traces;
ghost use Rattle.dl_core.specs.Follows.{Run};
ghost use Rattle.dl_core.specs.Settings.{setting_of};
ghost use Rattle.dl_world.specs.Follows.{IsAfter};

use crate::{Channels, Clients};
use dl_bytes::{Conf, Moment, OutOfMemory, Stored};
use dl_core::Core;
use dl_events::Kept;
use dl_trace::Trace;
use dl_world_calls::{Calls, Injections};
use std::alloc::Global;

/// The moment before a script's clock told one.
const START: Moment = Moment {
    secs: 0,
    micros: 0,
    ticks: 0,
};

/// The core of the daemon, and all that moves around it in a script.
#[derive(Drop)]
pub struct World {
    /// Where memory comes from.
    pub alloc: Global,
    /// The core of the daemon.
    pub core: Core,
    /// The log calls up to it: writers, rings and counts of lost calls.
    pub calls: Calls,
    /// The injections that wait for their applications.
    pub injections: Injections,
    /// The events so far.
    pub journal: Kept,
    /// The clients: what each sent, and which frames its link took.
    pub clients: Clients,
    /// The channels of user messages.
    pub channels: Channels,
    /// The moment that the script's clock told last.
    pub moment: Moment,
    /// Whether Level events wait until they are asked for.
    pub later: bool,
}

impl World {
    /// The world before the first line of a script.
    pub fn make(
        alloc: Global,
        conf: &Conf,
        stored: Stored,
        trace: Option<Trace>,
    ) -> Result<World, OutOfMemory>
        requires trace { IfSome trace (IsMade conf.now) }
        ensures after { IfOk result (λ world. (run : Run) → run.setting ≡ setting_of conf.now stored 0 → run.before ≡ 0 → IfSome trace (traces.IsAfter run.stood run.head) → IsAfter run [] world) }
        ensures trace { IfOk result (λ world. world.core.trace ≡ trace) }
    {
        // An id has four bytes.
        let _ecu = conf.ecu.bytes();
        Ok(World {
            alloc,
            core: Core::make(alloc, conf, stored, trace, 0)?,
            calls: Calls::new(alloc),
            injections: Injections::none(),
            journal: Kept::make(alloc),
            clients: Clients::none(alloc),
            channels: Channels::none(alloc),
            moment: START,
            later: false,
        })
    }
}
