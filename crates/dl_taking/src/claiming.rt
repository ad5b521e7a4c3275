//! A claim that was taken, noted with the level that it sets.

ghost use Rattle.std.specs.Prelude.{◌≡◌, ◌≤◌, ◌+◌, None};
ghost use Rattle.dl_outside.specs.Told.{FolderTold};
ghost use Rattle.dl_registry.specs.Kept.{owed_change};
ghost use Rattle.dl_core.specs.Admission.{more_noted};
ghost use Rattle.dl_turns.specs.Events.{IsDeskOf};
ghost use Rattle.dl_turns.specs.State.{side};
ghost use Rattle.dl_taking.specs.Takes.{NotesWithLevels, owed_by, owned_claim};

use dl_bytes::{Claim, Moment};
use dl_core::Core;
use dl_desk::WriterControl;
use dl_events::Journal;
use dl_turns::note_levels;

/// Notes a claim as one of this application, in whose ring it lay; and after it the Level event that it owes, whose level word is set.
pub fn note_claim<D: WriterControl, J: Journal>(
    core: &mut Core,
    desk: &mut D,
    journal: &mut J,
    app: u8,
    claim: &Claim,
    moment: Moment,
)
    requires spare { 2 ≤ J.spare journal.old }
    requires settled { owed_change core.old.registry ≡ None }
    requires desk { IsDeskOf core.old.registry (D.told desk.old) }
    ensures notes { (told : FolderTold) → NotesWithLevels moment (owned_claim app claim.now)
        (side core.old (D.told desk.old) (J.events journal.old) told) (side core.new (D.told desk.new) (J.events journal.new) told) }
    ensures few { owed_by (owned_claim app claim.now) core.old.registry ≤ 1 }
    ensures noted { J.noted journal.new ≡ more_noted (owed_by (owned_claim app claim.now) core.old.registry + 1) (J.noted journal.old) }
    ensures spare { J.spare journal.new + owed_by (owned_claim app claim.now) core.old.registry + 1 ≡ J.spare journal.old }
    ensures core { core.new ≡ record core.old { registry = core.new.registry } }
    ensures settled { owed_change core.new.registry ≡ None }
    ensures desk { IsDeskOf core.new.registry (D.told desk.new) }
    ensures apps { (D.told desk.new).apps ≡ (D.told desk.old).apps }
    ensures first { (D.told desk.new).first ≡ (D.told desk.old).first }
    ensures rest { D.same_rest desk.old desk.new }
{
    core.claim(&own_claim(claim, app), moment, journal);
    note_levels(core, desk, journal);
}

/// The claim as one of this application.
fn own_claim(claim: &Claim, app: u8) -> Claim
    ensures { result ≡ owned_claim app claim.now }
{
    Claim::of(
        app,
        claim.writer(),
        claim.place(),
        claim.ctid(),
        claim.level(),
        claim.text().copy(),
    )
}
