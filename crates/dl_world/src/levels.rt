//! Level events: those that wait are noted before the next event, and those that an event owes behind it, unless they are to wait.

ghost use Rattle.std.specs.Prelude.{◌≡◌, ◌+◌, true, false, None, Ok, OnOk};
ghost use Rattle.dl_script_model.specs.Steps.{note_levels, note_levels_now};
ghost use Rattle.dl_registry.specs.Kept.{owed_change};
ghost use Rattle.dl_core.specs.Waiting.{waiting};
ghost use Rattle.dl_world.specs.Follows.{Doing, next_level};

use crate::world::World;
use dl_bytes::OutOfMemory;
use dl_events::Journal;

impl World {
    /// Notes the next Level event that waits, and answers whether there was one.
    pub fn note_level(&mut self) -> Result<bool, OutOfMemory>
        ensures does { OnOk result (Doing next_level self.old self.new) }
        ensures none { result ≡ Ok false → owed_change self.new.core.registry ≡ None }
        ensures fewer { result ≡ Ok true → waiting self.new.core.registry + 1 ≡ waiting self.old.core.registry }
        ensures rest { self.new ≡ record self.old { core = record self.old.core { registry = self.new.core.registry }; journal = self.new.journal } }
    {
        self.journal.reserve(1)?;
        let change = self.core.level(&mut self.journal);
        Ok(change.is_some())
    }

    /// Notes all Level events that wait.
    pub fn note_levels(&mut self) -> Result<(), OutOfMemory>
        ensures does { OnOk result (Doing note_levels self.old self.new) }
        ensures settled { OnOk result (owed_change self.new.core.registry ≡ None) }
        ensures rest { self.new ≡ record self.old { core = record self.old.core { registry = self.new.core.registry }; journal = self.new.journal } }
    {
        while self.note_level()? {}
        Ok(())
    }

    /// The same, unless they are to wait until they are asked for.
    pub fn note_levels_now(&mut self) -> Result<(), OutOfMemory>
        ensures does { OnOk result (Doing note_levels_now self.old self.new) }
        ensures rest { self.new ≡ record self.old { core = record self.old.core { registry = self.new.core.registry }; journal = self.new.journal } }
    {
        if self.later {
            return Ok(());
        }
        self.note_levels()
    }
}
