//! Level events: the levels that contexts have from now on.

ghost use Rattle.std.specs.Prelude.{◌≡◌, ◌≤◌, ◌<◌, ◌+◌, ◌∷◌, [], IfSome, IfNone, OnSome};
ghost use Rattle.dl_events.specs.Journal as notes;
ghost use Rattle.dl_events.specs.Journal.{one_more};
ghost use Rattle.dl_events.specs.declared.event.Event.TheVariants as event;
ghost use Rattle.dl_bytes.specs.Limits.{last_version};
ghost use Rattle.dl_registry.specs.Kept.{owed_change, slots, with_change};
ghost use Rattle.dl_core.specs.Follows.{AddsAlone};
ghost use Rattle.dl_core.specs.Waiting.{waiting};

use crate::daemon::Core;
use dl_events::{Event, Journal};
use dl_registry::LevelChange;

impl Core {
    /// Notes the next Level event that waits: the least slot whose context has another level than the slot holds. It tells
    /// none exactly where none waits.
    pub fn level<J: Journal>(&mut self, journal: &mut J) -> Option<LevelChange>
        requires spare { 0 < waiting self.old.registry → 1 ≤ J.spare journal.old }
        ensures change { result ≡ owed_change self.old.registry }
        ensures version { IfSome result (λ change. (slots self.old.registry change.slot).version < last_version) }
        ensures none { IfNone result ((self.new ≡ self.old) × (journal.new ≡ journal.old)) }
        ensures after { IfSome result (λ change. AddsAlone (event.Level change.slot change.level ∷ []) self.old self.new) }
        ensures event { IfSome result (λ change. notes.Adds (J.events journal.old) (J.events journal.new) (event.Level change.slot change.level)) }
        ensures noted { OnSome result (J.noted journal.new ≡ one_more (J.noted journal.old)) }
        ensures spare { OnSome result (J.spare journal.new + 1 ≡ J.spare journal.old) }
        ensures waits { OnSome result (waiting self.new.registry + 1 ≡ waiting self.old.registry) }
        ensures value { self.new ≡ record self.old { registry = with_change self.old.registry result } }
    {
        self.registry.slots_are_apart();
        let change = self.registry.next_change()?;
        let LevelChange { slot, level } = change;
        journal.note(Event::Level { slot, level });
        Some(change)
    }
}
