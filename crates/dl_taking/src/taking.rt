//! Some calls of an application with a claim after them, and its losses.

ghost use Rattle.std.specs.Prelude.{◌≡◌, ◌<◌, ◌≤◌, ◌+◌, false, None, count_by, length};
ghost use Rattle.dl_bytes.specs.Limits.{admitted_limit};
ghost use Rattle.dl_registry.specs.Kept.{owed_change};
ghost use Rattle.dl_hub.specs.State.{is_open};
ghost use Rattle.dl_turns.specs.Events.{IsDeskOf};
ghost use Rattle.dl_taking.specs.Side.{seen};
ghost use Rattle.dl_taking.specs.Takes.{Reports, TakesSome, found_none};
ghost use Rattle.dl_taking.specs.Took.{empties_now};

use crate::batch::Batch;
use crate::call_source::CallSource;
use crate::claiming::note_claim;
use crate::filling::fill;
use dl_admission::{log_items, tell};
use dl_core::Core;
use dl_events::Journal;
use dl_outside::{Clock, Folder};
use std::sync::Wait;

/// What was taken of an application's ring.
#[derive(Clone, Copy, PartialEq, Eq)]
pub struct Got {
    /// How many calls.
    pub calls: usize,
    /// Whether a claim was taken after them.
    pub claimed: bool,
}

/// Takes the oldest of an application's ring, so many at most and never more than 64: calls, which are admitted as calls of this moment, up to
/// the first claim, which is noted after them with its Level event. Answers what it took: without a claim, fewer only where it found the ring
/// empty.
pub fn take_some<R: Wait, D: CallSource, J: Journal, C: Clock, F: Folder>(
    rt: &R,
    core: &mut Core,
    desk: &mut D,
    journal: &mut J,
    batch: &mut Batch,
    app: u8,
    most: usize,
    clock: &C,
    folder: &mut F,
) -> Got
    requires app { app < length (D.specs desk.old) }
    requires most { most ≤ 64 }
    requires settled { owed_change core.old.registry ≡ None }
    requires desk { IsDeskOf core.old.registry (D.told desk.old) }
    // One for each call, and two for a claim and its Level event.
    requires spare { count_by is_open core.old.hub.clients + most + 2 ≤ J.spare journal.old }
    requires few { core.old.hub.admitted + most ≤ admitted_limit }
    ensures takes { let s = seen J.events J.noted J.spare F.told D.took D.told in TakesSome app most result
        (s core.old journal.old folder.old desk.old) (s core.new journal.new folder.new desk.new) }
    ensures empties { D.empties desk.new ≡ empties_now app (found_none most result) (D.empties desk.old) }
    ensures given { result.claimed ≡ false → result.calls < most → D.has_given desk.new app }
    ensures settled { owed_change core.new.registry ≡ None }
    ensures desk { IsDeskOf core.new.registry (D.told desk.new) }
    ensures apps { (D.told desk.new).apps ≡ (D.told desk.old).apps }
    ensures first { (D.told desk.new).first ≡ (D.told desk.old).first }
    ensures rest { D.same_but_taken desk.old desk.new }
{
    let claim = fill(rt, desk, batch, app, most);
    let moment = clock.now();
    log_items(core, journal, batch.items(), moment, folder);
    let calls = batch.len();
    match claim {
        Some(claim) => {
            note_claim(core, desk, journal, app, &claim, moment);
            Got {
                calls,
                claimed: true,
            }
        }
        None => Got {
            calls,
            claimed: false,
        },
    }
}

/// Takes the losses of an application, and tells them in a report of this moment; of none it tells nothing. Answers how many.
pub fn report_losses<D: CallSource, J: Journal, C: Clock, F: Folder>(
    core: &mut Core,
    desk: &mut D,
    journal: &mut J,
    app: u8,
    clock: &C,
    folder: &mut F,
) -> u64
    requires app { app < length (D.specs desk.old) }
    requires settled { owed_change core.old.registry ≡ None }
    requires spare { D.has_losses desk.old app → count_by is_open core.old.hub.clients + 1 ≤ J.spare journal.old }
    requires few { core.old.hub.admitted + 32769 ≤ admitted_limit }
    ensures reports { let s = seen J.events J.noted J.spare F.told D.took D.told in Reports (D.specs desk.old) app result
        (s core.old journal.old folder.old desk.old) (s core.new journal.new folder.new desk.new) }
    ensures some { 0 < result → D.has_losses desk.old app }
    ensures all { D.has_told desk.new app }
    ensures empties { D.empties desk.new ≡ D.empties desk.old }
    ensures told { D.told desk.new ≡ D.told desk.old }
    ensures rest { D.same_but_taken desk.old desk.new }
{
    let apid = desk.apid(app);
    let count = desk.losses(app);
    tell(core, journal, app, apid, count, clock.now(), folder);
    count
}
