//! Level events: the level words follow the registry.

ghost use Rattle.std.specs.Prelude.{◌≡◌, ◌≤◌, ◌+◌, ◌-◌, ◌<◌, true, false, None, Some};
ghost use Rattle.dl_events.specs.Journal.{one_more};
ghost use Rattle.dl_outside.specs.Told.{FolderTold};
ghost use Rattle.dl_model.specs.declared.registry.LevelChange.{LevelChange};
ghost use Rattle.dl_registry.specs.Kept.{owed_change};
ghost use Rattle.dl_core.specs.Admission.{more_noted};
ghost use Rattle.dl_core.specs.Waiting.{waiting};
ghost use Rattle.dl_turns.specs.Events.{HaveSetLevels, IsDeskOf, SetsLevel};
ghost use Rattle.dl_turns.specs.State.{side};

use dl_core::Core;
use dl_desk::WriterControl;
use dl_events::Journal;

/// Notes the next Level event that is owed, and sets the level word of its slot. Answers whether there was one.
fn note_level<D: WriterControl, J: Journal>(core: &mut Core, desk: &mut D, journal: &mut J) -> bool
    requires spare { waiting core.old.registry ≤ J.spare journal.old }
    requires desk { IsDeskOf core.old.registry (D.told desk.old) }
    ensures sets { result ≡ true → (folder : FolderTold) → (next : LevelChange) × SetsLevel next
        (side core.old (D.told desk.old) (J.events journal.old) folder)
        (side core.new (D.told desk.new) (J.events journal.new) folder) }
    ensures core { core.new ≡ record core.old { registry = core.new.registry } }
    ensures none { result ≡ false → (owed_change core.new.registry ≡ None) × (core.new ≡ core.old) × (desk.new ≡ desk.old) × (journal.new ≡ journal.old) }
    ensures desk { IsDeskOf core.new.registry (D.told desk.new) }
    ensures spare { result ≡ true → (waiting core.new.registry + 1 ≡ waiting core.old.registry) × (J.spare journal.new + 1 ≡ J.spare journal.old) }
    ensures noted { result ≡ true → J.noted journal.new ≡ one_more (J.noted journal.old) }
    ensures apps { (D.told desk.new).apps ≡ (D.told desk.old).apps }
    ensures first { (D.told desk.new).first ≡ (D.told desk.old).first }
    ensures rest { D.same_rest desk.old desk.new }
{
    core.registry().slots_are_apart();
    match core.level(journal) {
        Some(change) => {
            let _set = desk.set(change.slot, change.level);
            true
        }
        None => false,
    }
}

/// Notes all Level events that are owed, and sets the level words of their slots.
pub fn note_levels<D: WriterControl, J: Journal>(core: &mut Core, desk: &mut D, journal: &mut J)
    requires spare { waiting core.old.registry ≤ J.spare journal.old }
    requires desk { IsDeskOf core.old.registry (D.told desk.old) }
    ensures levels { (folder : FolderTold) → HaveSetLevels
        (side core.old (D.told desk.old) (J.events journal.old) folder)
        (side core.new (D.told desk.new) (J.events journal.new) folder) }
    ensures settled { owed_change core.new.registry ≡ None }
    ensures core { core.new ≡ record core.old { registry = core.new.registry } }
    ensures desk { IsDeskOf core.new.registry (D.told desk.new) }
    ensures spare { J.spare journal.new + waiting core.old.registry ≡ J.spare journal.old + waiting core.new.registry }
    ensures noted { J.noted journal.new ≡ more_noted (waiting core.old.registry - waiting core.new.registry) (J.noted journal.old) }
    ensures apps { (D.told desk.new).apps ≡ (D.told desk.old).apps }
    ensures first { (D.told desk.new).first ≡ (D.told desk.old).first }
    ensures rest { D.same_rest desk.old desk.new }
{
    while note_level(core, desk, journal) {}
}
