//! Events that exist in proofs alone: a log takes no memory, and its functions do nothing at run time.

ghost use Rattle.std.specs.Prelude.{◌≡◌, List, [], ◌∷◌, ◌++◌};
ghost use Rattle.std.specs.Borrow.{ftrue};
ghost use Rattle.dl_events.specs.declared.event.Event.{Event};

use crate::Event;
use std::marker::Model;

/// All events that were put to it, the first one first. It owns nothing, so proofs may choose the list: `new` and `and` alone do.
#[derive(Drop)]
pub(crate) struct Log {
    pub(crate) ghost events: { List Event },
}

impl Model for Log {
    ghost also_owns = { λ _. ftrue };
}

// It owns nothing, so another thread may have it.
unsafe impl Send for Log {}

impl Log {
    /// A log without events.
    pub(crate) fn new() -> Log
        ensures { result.events ≡ [] }
    {
        Log {}
    }

    /// The events of this log, and one more at the end.
    pub(crate) fn and(&self, event: &Event) -> Log
        ensures { result.events ≡ self.now.events ++ event.now ∷ [] }
    {
        Log {}
    }
}
