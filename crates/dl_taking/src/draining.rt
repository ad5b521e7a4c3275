//! All that is left in rings and loss words, once the writers are back.

ghost use Rattle.std.specs.Prelude.{◌≡◌, ◌≢◌, ◌<◌, ◌≤◌, ◌+◌, ℕ, true, false, None, length, min};
ghost use Rattle.dl_cells.specs.Views.{bit};
ghost use Rattle.dl_account.specs.Known.{IsDrained, IsEmpty, IsTold};
ghost use Rattle.dl_registry.specs.Kept.{owed_change};
ghost use Rattle.dl_turns.specs.Events.{IsDeskOf};
ghost use Rattle.dl_taking.specs.Draining.{DrainsAll, DrainsApp, MayNote, SameButTaken, TakesBatch, all_claims_left, all_to_note, calls_left, claims_left, closing_told, closing_took, losses_left, to_note};
ghost use Rattle.dl_taking.specs.Side.{seen};
ghost use Rattle.dl_taking.specs.Takes.{Reports};

use crate::batch::Batch;
use crate::taking::{Got, report_losses, take_some};
use dl_account::Closing;
use dl_bytes::BATCH_LIMIT;
use dl_core::Core;
use dl_events::Journal;
use dl_outside::{Clock, Folder};
use std::sync::Wait;

/// How many events may still be noted.
#[derive(Clone, Copy, PartialEq, Eq)]
pub struct Budget {
    /// Log and Lost events.
    pub events: u32,
    /// Claim events; after each there may be a Level event.
    pub claims: u32,
}

impl Budget {
    /// What is left of it, where so much is noted.
    fn without(self, got: Got) -> Budget
        requires calls { got.calls ≤ self.events }
        requires claim { bit got.claimed ≤ self.claims }
        ensures calls { result.events + got.calls ≡ self.events }
        ensures claim { result.claims + bit got.claimed ≡ self.claims }
    {
        Budget {
            events: self.events - got.calls as u32,
            claims: self.claims - u32::from(got.claimed),
        }
    }
}

/// Takes all that the rings still hold and all losses that were not reported, application by application: of each its calls and claims in batches
/// of at most 64, each noted at one moment, and then its losses, which are told in one report. So many events may still be noted.
pub fn drain_all<R: Wait, J: Journal, C: Clock, F: Folder>(
    rt: &R,
    core: &mut Core,
    closing: &mut Closing,
    journal: &mut J,
    batch: &mut Batch,
    budget: Budget,
    clock: &C,
    folder: &mut F,
)
    requires apps { length closing.old.apps ≤ 16 }
    requires settled { owed_change core.old.registry ≡ None }
    requires desk { IsDeskOf core.old.registry (closing_told closing.old) }
    requires enough { all_to_note closing.old ≤ budget.events }
    requires claims { all_claims_left closing.old ≤ budget.claims }
    requires may { MayNote budget.events budget.claims (length closing.old.apps) core.old.hub (J.spare journal.old) }
    ensures drains { let s = seen J.events J.noted J.spare F.told closing_took closing_told in DrainsAll closing.old.apps
        (s core.old journal.old folder.old closing.old) (s core.new journal.new folder.new closing.new) }
    ensures drained { IsDrained closing.new }
    ensures may { MayNote 0 0 0 core.new.hub (J.spare journal.new) }
    ensures settled { owed_change core.new.registry ≡ None }
    ensures desk { IsDeskOf core.new.registry (closing_told closing.new) }
    ensures rest { SameButTaken closing.old closing.new }
{
    let mut left = budget;
    for app in 0..closing.apps().len() as u8 {
        drain_app(
            rt, core, closing, journal, batch, app, &mut left, clock, folder,
        );
    }
}

/// The same of one application.
fn drain_app<R: Wait, J: Journal, C: Clock, F: Folder>(
    rt: &R,
    core: &mut Core,
    closing: &mut Closing,
    journal: &mut J,
    batch: &mut Batch,
    app: u8,
    left: &mut Budget,
    clock: &C,
    folder: &mut F,
)
    requires app { app < length closing.old.apps }
    requires settled { owed_change core.old.registry ≡ None }
    requires desk { IsDeskOf core.old.registry (closing_told closing.old) }
    requires enough { to_note closing.old.books (closing_took closing.old) app ≤ left.old.events }
    requires claims { claims_left closing.old.books (closing_took closing.old) app ≤ left.old.claims }
    requires may { MayNote left.old.events left.old.claims 1 core.old.hub (J.spare journal.old) }
    ensures drains { let s = seen J.events J.noted J.spare F.told closing_took closing_told in DrainsApp closing.old.apps app
        (s core.old journal.old folder.old closing.old) (s core.new journal.new folder.new closing.new) }
    ensures empty { IsEmpty closing.new app }
    ensures none_lost { IsTold closing.new app }
    ensures used { left.new.events + to_note closing.old.books (closing_took closing.old) app ≡ left.old.events }
    ensures claims_used { left.new.claims + claims_left closing.old.books (closing_took closing.old) app ≡ left.old.claims }
    ensures may { (reports : ℕ) → MayNote left.old.events left.old.claims (reports + 1) core.old.hub (J.spare journal.old)
        → MayNote left.new.events left.new.claims reports core.new.hub (J.spare journal.new) }
    ensures settled { owed_change core.new.registry ≡ None }
    ensures desk { IsDeskOf core.new.registry (closing_told closing.new) }
    ensures rest { SameButTaken closing.old closing.new }
{
    while take_batch(rt, core, closing, journal, batch, app, left, clock, folder) {}
    closing.gathered();
    tell_losses(core, closing, journal, app, left, clock, folder);
}

/// Takes what comes next in the ring of an application, at most 64 and no more than may be noted: calls, and after them a claim, where one
/// comes. Answers whether the ring may hold more.
fn take_batch<R: Wait, J: Journal, C: Clock, F: Folder>(
    rt: &R,
    core: &mut Core,
    closing: &mut Closing,
    journal: &mut J,
    batch: &mut Batch,
    app: u8,
    left: &mut Budget,
    clock: &C,
    folder: &mut F,
) -> bool
    requires app { app < length closing.old.apps }
    requires settled { owed_change core.old.registry ≡ None }
    requires desk { IsDeskOf core.old.registry (closing_told closing.old) }
    requires enough { calls_left closing.old.books (closing_took closing.old) app ≤ left.old.events }
    requires claims { claims_left closing.old.books (closing_took closing.old) app ≤ left.old.claims }
    requires may { MayNote left.old.events left.old.claims 0 core.old.hub (J.spare journal.old) }
    ensures takes { let s = seen J.events J.noted J.spare F.told closing_took closing_told in TakesBatch app
        (s core.old journal.old folder.old closing.old) (s core.new journal.new folder.new closing.new) }
    ensures empty { result ≡ false → IsEmpty closing.new app }
    ensures fewer { result ≡ true → left.new.events + left.new.claims < left.old.events + left.old.claims }
    ensures used { left.new.events + calls_left closing.old.books (closing_took closing.old) app ≡ left.old.events + calls_left closing.new.books (closing_took closing.new) app }
    ensures claims_used { left.new.claims + claims_left closing.old.books (closing_took closing.old) app ≡ left.old.claims + claims_left closing.new.books (closing_took closing.new) app }
    ensures may { (reports : ℕ) → MayNote left.old.events left.old.claims reports core.old.hub (J.spare journal.old)
        → MayNote left.new.events left.new.claims reports core.new.hub (J.spare journal.new) }
    ensures settled { owed_change core.new.registry ≡ None }
    ensures desk { IsDeskOf core.new.registry (closing_told closing.new) }
    ensures rest { SameButTaken closing.old closing.new }
{
    let most = batch_size(left);
    let got = take_some(rt, core, closing, journal, batch, app, most, clock, folder);
    closing.gathered();
    *left = left.without(got);
    may_hold_more(got)
}

/// Whether a ring may hold more, of which so much was taken at once: there was a claim, or the batch is full.
fn may_hold_more(got: Got) -> bool
    ensures some { result ≡ true → 1 ≤ got.calls + bit got.claimed }
    ensures none { result ≡ false → (got.claimed ≡ false) × (got.calls ≢ 64) }
{
    got.claimed || got.calls == BATCH_LIMIT
}

/// How many the next batch may have, calls and claims together, where so many events may still be noted.
fn batch_size(left: &Budget) -> usize
    ensures within { result ≤ left.now.events + left.now.claims }
    ensures few { result ≤ 64 }
    ensures all { result < 64 → result ≡ left.now.events + left.now.claims }
{
    let all = u64::from(left.events) + u64::from(left.claims);
    if all < BATCH_LIMIT as u64 {
        all as usize
    } else {
        BATCH_LIMIT
    }
}

/// Takes the losses of an application and tells them.
fn tell_losses<J: Journal, C: Clock, F: Folder>(
    core: &mut Core,
    closing: &mut Closing,
    journal: &mut J,
    app: u8,
    left: &mut Budget,
    clock: &C,
    folder: &mut F,
)
    requires app { app < length closing.old.apps }
    requires settled { owed_change core.old.registry ≡ None }
    requires desk { IsDeskOf core.old.registry (closing_told closing.old) }
    requires enough { min 1 (losses_left closing.old.books (closing_took closing.old) app) ≤ left.old.events }
    requires may { MayNote left.old.events left.old.claims 1 core.old.hub (J.spare journal.old) }
    ensures reports { let s = seen J.events J.noted J.spare F.told closing_took closing_told in (count : ℕ) × Reports closing.old.apps app count
        (s core.old journal.old folder.old closing.old) (s core.new journal.new folder.new closing.new) }
    ensures none_lost { IsTold closing.new app }
    ensures used { left.new.events + min 1 (losses_left closing.old.books (closing_took closing.old) app) ≡ left.old.events }
    ensures claims { left.new.claims ≡ left.old.claims }
    ensures may { (reports : ℕ) → MayNote left.old.events left.old.claims (reports + 1) core.old.hub (J.spare journal.old)
        → MayNote left.new.events left.new.claims reports core.new.hub (J.spare journal.new) }
    ensures settled { owed_change core.new.registry ≡ None }
    ensures desk { IsDeskOf core.new.registry (closing_told closing.new) }
    ensures rest { SameButTaken closing.old closing.new }
{
    let count = report_losses(core, closing, journal, app, clock, folder);
    if count > 0 {
        left.events -= 1;
    }
}
