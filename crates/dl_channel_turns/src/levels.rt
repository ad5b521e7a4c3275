//! Level events: each is told the program that has the context.

ghost use Rattle.std.specs.Prelude.{◌≡◌, ◌≤◌, ◌+◌, true, false, None, Ok};
ghost use Rattle.dl_outside.specs.Told.{FolderTold};
ghost use Rattle.dl_model.specs.declared.registry.LevelChange.{LevelChange};
ghost use Rattle.dl_registry.specs.Kept.{owed_change};
ghost use Rattle.dl_core.specs.Waiting.{waiting};
ghost use Rattle.dl_channel_turns.specs.Levels.{HaveToldLevels, TellsLevel, answer_to, answered};
ghost use Rattle.dl_channel_turns.specs.State.{side};

use crate::outboxes::Outboxes;
use crate::registration::Registration;
use dl_core::Core;
use dl_events::Journal;

/// Notes the next Level event that is owed, and puts it for its channel. Answers whether there was one.
fn note_level<J: Journal>(core: &mut Core, outboxes: &mut Outboxes, journal: &mut J) -> bool
    requires spare { waiting core.old.registry ≤ J.spare journal.old }
    ensures tells { result ≡ true → (folder : FolderTold) → (next : LevelChange) × TellsLevel next
        (side core.old outboxes.old (J.events journal.old) folder) (side core.new outboxes.new (J.events journal.new) folder) }
    ensures core { core.new ≡ record core.old { registry = core.new.registry } }
    ensures none { result ≡ false → (owed_change core.new.registry ≡ None) × (core.new ≡ core.old) × (outboxes.new ≡ outboxes.old) × (journal.new ≡ journal.old) }
    ensures spare { result ≡ true → (waiting core.new.registry + 1 ≡ waiting core.old.registry) × (J.spare journal.new + 1 ≡ J.spare journal.old) }
{
    core.registry().slots_are_apart();
    match core.level(journal) {
        Some(change) => {
            outboxes.tell(core.registry(), change);
            true
        }
        None => false,
    }
}

/// Notes all Level events that are owed, and puts each for its channel.
pub fn note_levels<J: Journal>(core: &mut Core, outboxes: &mut Outboxes, journal: &mut J)
    requires spare { waiting core.old.registry ≤ J.spare journal.old }
    ensures levels { (folder : FolderTold) → HaveToldLevels
        (side core.old outboxes.old (J.events journal.old) folder) (side core.new outboxes.new (J.events journal.new) folder) }
    ensures settled { owed_change core.new.registry ≡ None }
    ensures core { core.new ≡ record core.old { registry = core.new.registry } }
{
    while note_level(core, outboxes, journal) {}
}

/// The same behind a message that was taken in. Where no Level event is owed, the context that it registered is told its level all the same.
pub fn answer<J: Journal>(
    core: &mut Core,
    outboxes: &mut Outboxes,
    journal: &mut J,
    channel: u16,
    registered: Option<Registration>,
)
    requires spare { waiting core.old.registry ≤ J.spare journal.old }
    ensures levels { (folder : FolderTold) → HaveToldLevels
        (side core.old (answered channel (answer_to registered (Ok core.old.registry.registry) (owed_change core.old.registry)) outboxes.old)
        (J.events journal.old) folder)
        (side core.new outboxes.new (J.events journal.new) folder) }
    ensures settled { owed_change core.new.registry ≡ None }
    ensures core { core.new ≡ record core.old { registry = core.new.registry } }
{
    if note_level(core, outboxes, journal) {
        note_levels(core, outboxes, journal);
    } else {
        outboxes.answer(core.registry(), channel, registered);
    }
}
