//! Claims of this process's writers: a context comes, or gets a place besides.

ghost use Rattle.std.specs.Prelude.{◌≡◌, ◌≤◌, ◌+◌, None};
ghost use Rattle.dl_events.specs.Journal.{one_more};
ghost use Rattle.dl_events.specs.declared.event.Event.TheVariants as event;
ghost use Rattle.dl_registry.specs.Kept.{owed_change, Claims};
ghost use Rattle.dl_core.specs.Noting.{NotesClaim};
ghost use Rattle.dl_core.specs.Waiting.{waiting};

use crate::daemon::Core;
use dl_bytes::{Claim, Moment};
use dl_events::{Event, Journal};

impl Core {
    /// Notes a claim that was taken from its application's ring, which goes to the registry. One whose application is not there, whose place
    /// is not free, or whose slot is at the last version, is noted and changes nothing. At most one Level event waits afterwards. No memory
    /// is taken.
    pub fn claim<J: Journal>(&mut self, claim: &Claim, moment: Moment, journal: &mut J)
        // One for the claim, and one for its Level event.
        requires spare { 2 ≤ J.spare journal.old }
        requires settled { owed_change self.old.registry ≡ None }
        ensures notes { NotesClaim moment claim.now self.old self.new (J.events journal.old) (J.events journal.new) }
        ensures noted { J.noted journal.new ≡ one_more (J.noted journal.old) }
        ensures spare { J.spare journal.new + 1 ≡ J.spare journal.old }
        ensures claims { Claims claim.now self.old.registry self.new.registry }
        ensures waits { waiting self.new.registry ≤ 1 }
        ensures rest { self.new ≡ record self.old { registry = self.new.registry } }
    {
        self.registry.slots_are_apart();
        self.registry.claim(claim);
        journal.note(claimed(claim, moment));
    }
}

/// The event of a claim.
fn claimed(claim: &Claim, moment: Moment) -> Event
    ensures { result ≡ event.Claim claim.now moment }
{
    Event::Claim {
        claim: claim.copy(),
        moment,
    }
}
