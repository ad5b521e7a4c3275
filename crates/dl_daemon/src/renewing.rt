//! A trace that has ended is begun anew.

ghost use Rattle.std.specs.Prelude.{◌≡◌};
ghost use Rattle.dl_daemon.specs.Renewing.{HasTried, Renews, has_passed, is_mendable, is_try_due, may_go_on, one_try_more, untried};

use dl_bytes::{Conf, Moment, TraceEnd};
use dl_core::Core;
use dl_events::Unkept;
use dl_outside::{Folder, Link};
use dl_server::Server;
use dl_startup::trace_over;
use std::alloc::Global;

/// A minute, in units of 0.1 ms.
const MINUTE: u32 = 600_000;

/// The tries so far to begin an ended trace anew.
#[derive(Clone, Copy, PartialEq, Eq)]
pub struct Tries {
    /// The timestamp of the last one, where there was one.
    pub last: Option<u32>,
    /// How often a trace was begun anew, at most 2^64 - 1.
    pub renewed: u64,
    /// How many frames were not stored by the traces before the last beginning, at most 2^64 - 1.
    pub unstored: u64,
}

impl Tries {
    /// Before the first one.
    fn none() -> Tries
        ensures { result ≡ untried }
    {
        Tries {
            last: None,
            renewed: 0,
            unstored: 0,
        }
    }

    /// Whether a minute or more has passed since the last one.
    fn have_passed(&self, now: u32) -> bool
        ensures { result ≡ has_passed self.now.last now }
    {
        match self.last {
            Some(last) => now.wrapping_sub(last) >= MINUTE,
            None => true,
        }
    }

    /// One more, at this moment, by which a trace was begun anew behind so many frames that were not stored, or none was.
    fn note(&mut self, moment: Moment, begun: Option<u64>)
        ensures { self.new ≡ one_try_more moment begun self.old }
    {
        self.last = Some(moment.ticks);
        if let Some(unstored) = begun {
            self.renewed = self.renewed.saturating_add(1);
            self.unstored = self.unstored.saturating_add(unstored);
        }
    }
}

/// Whether a new trace may go on where one ended so.
fn may_go_on(end: Option<TraceEnd>) -> bool
    ensures { result ≡ may_go_on end }
{
    match end {
        Some(TraceEnd::Failed) | Some(TraceEnd::NoMemory) => true,
        Some(TraceEnd::Spent) | None => false,
    }
}

/// Whether a trace is kept that has ended so.
fn is_mendable(core: &Core) -> bool
    ensures { result ≡ is_mendable core.now.trace }
{
    match core.trace_state() {
        Some(state) => may_go_on(state.end),
        None => false,
    }
}

/// Tries to begin the trace anew, over the trace files that stand. Answers how many frames were not stored before, where it was begun.
fn try_anew<F: Folder>(
    alloc: Global,
    conf: &Conf,
    core: &mut Core,
    moment: Moment,
    folder: &mut F,
) -> Option<u64>
    ensures tried { HasTried conf.now core.old.ecu moment result core.old.trace core.new.trace (F.told folder.old) (F.told folder.new) }
    ensures rest { core.new ≡ record core.old { trace = core.new.trace } }
{
    match trace_over(alloc, folder, conf) {
        Ok(Some(trace)) => core.begin_trace(trace, moment, folder),
        Ok(None) | Err(_) => None,
    }
}

/// What begins an ended trace anew.
#[derive(Drop)]
pub struct Renewal {
    alloc: Global,
    /// The configuration, which says where trace files are, and how big.
    pub conf: Conf,
    /// The tries so far.
    pub tries: Tries,
}

impl Renewal {
    /// For this configuration, before the first try.
    pub fn make(alloc: Global, conf: Conf) -> Renewal
        ensures { (result.conf ≡ conf) × (result.tries ≡ untried) }
    {
        Renewal {
            alloc,
            conf,
            tries: Tries::none(),
        }
    }

    /// Whether a try is due.
    fn is_due(&self, core: &Core, moment: Moment) -> bool
        ensures { result ≡ is_try_due self.now.tries core.now.trace moment }
    {
        is_mendable(core) && self.tries.have_passed(moment.ticks)
    }

    /// Tries to begin an ended trace anew, where that is due: it has not ended since the last number is used up, and a minute has passed since the last
    /// try. Answers how many frames were not stored before, where it was begun.
    pub fn renew<L: Link, F: Folder>(
        &mut self,
        server: &mut Server<Unkept, L>,
        folder: &mut F,
        moment: Moment,
    ) -> Option<u64>
        ensures renews { Renews self.old.conf server.old.core.ecu moment result self.old.tries self.new.tries server.old.core.trace server.new.core.trace (F.told folder.old) (F.told folder.new) }
        ensures conf { self.new.conf ≡ self.old.conf }
        ensures core { server.new.core ≡ record server.old.core { trace = server.new.core.trace } }
        ensures rest { server.new ≡ record server.old { core = server.new.core } }
    {
        if !self.is_due(&server.core, moment) {
            return None;
        }
        let begun = try_anew(self.alloc, &self.conf, &mut server.core, moment, folder);
        self.tries.note(moment, begun);
        begun
    }
}
