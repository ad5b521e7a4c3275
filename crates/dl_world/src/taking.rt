//! What the daemon takes of applications: log calls and claims out of their rings, and counts of lost calls.

ghost use Rattle.std.specs.Prelude.{◌≡◌, ◌≤◌, ◌<◌, None, OnOk, is_some, length};
ghost use Rattle.dl_events.specs.declared.event.Event.TheVariants as event;
ghost use Rattle.dl_script_model.specs.Marks.{moment};
ghost use Rattle.dl_script_model.specs.Steps.{drain, take_injection, take_log, take_losses};
ghost use Rattle.dl_registry.specs.Kept.{owed_change};
ghost use Rattle.dl_core.specs.Files.{Leaves};
ghost use Rattle.dl_world_calls.specs.State.{next_held};
ghost use Rattle.dl_world.specs.Follows.{Does, Doing, NotesNext, NotesNextCall, NotesNextClaim, noting};

use crate::delivery::make_room;
use crate::world::World;
use dl_bytes::{APP_LIMIT, Item, OutOfMemory};
use dl_events::Journal;
use dl_outside::Folder;

impl World {
    /// The daemon takes the next call or claim of an application's ring, where there is one.
    pub fn take_log<F: Folder>(&mut self, app: u8, folder: &mut F) -> Result<(), OutOfMemory>
        ensures does { OnOk result (Does (λ setting answers. take_log setting app) self.old self.new (F.told folder.old) (F.told folder.new)) }
        ensures leaves { Leaves self.old.core self.new.core (F.told folder.old) (F.told folder.new) }
    {
        if self.calls.apps() <= app || !self.has_next(app) {
            return Ok(());
        }
        self.note_levels()?;
        self.note_next(app, folder)?;
        self.note_levels_now()
    }

    /// Whether an application's ring holds something: a call or a claim is next.
    fn has_next(&self, app: u8) -> bool
        requires known { app < length self.now.calls.apps }
        ensures { result ≡ is_some (next_held self.now.calls app) }
    {
        self.calls.next_call(app).is_some() || self.calls.next_claim(app).is_some()
    }

    /// Notes what is next in an application's ring: a call, or a claim.
    fn note_next<F: Folder>(&mut self, app: u8, folder: &mut F) -> Result<(), OutOfMemory>
        requires settled { owed_change self.old.core.registry ≡ None }
        requires known { app < length self.old.calls.apps }
        ensures does { OnOk result (NotesNext app self.old self.new (F.told folder.old) (F.told folder.new)) }
        ensures leaves { Leaves self.old.core self.new.core (F.told folder.old) (F.told folder.new) }
    {
        if self.calls.next_claim(app).is_some() {
            return self.note_claim(app);
        }
        self.note_log(app, folder)
    }

    /// Notes the claim that is next in an application's ring.
    fn note_claim(&mut self, app: u8) -> Result<(), OutOfMemory>
        requires settled { owed_change self.old.core.registry ≡ None }
        requires known { app < length self.old.calls.apps }
        ensures does { OnOk result (NotesNextClaim app self.old self.new) }
        ensures trace { self.new.core.trace ≡ self.old.core.trace }
    {
        let Some(claim) = self.calls.next_claim(app) else {
            return Ok(());
        };
        // One for the claim, and one for its Level event.
        self.journal.reserve(2)?;
        self.core.claim(claim, self.moment, &mut self.journal);
        self.calls.take(app);
        Ok(())
    }

    /// Notes the log call that is next in an application's ring.
    fn note_log<F: Folder>(&mut self, app: u8, folder: &mut F) -> Result<(), OutOfMemory>
        requires settled { owed_change self.old.core.registry ≡ None }
        requires known { app < length self.old.calls.apps }
        ensures does { OnOk result (NotesNextCall app self.old self.new (F.told folder.old) (F.told folder.new)) }
        ensures leaves { Leaves self.old.core self.new.core (F.told folder.old) (F.told folder.new) }
    {
        let Some(item) = self.calls.next_call(app) else {
            return Ok(());
        };
        has_sizes(item);
        let need = self.core.log_need(item);
        make_room(&self.core, &mut self.journal, 1, need)?;
        self.core.log(item, self.moment, folder, &mut self.journal);
        self.calls.take(app);
        self.deliver()
    }

    /// The daemon takes the count of an application's lost calls, where there are some.
    pub fn take_losses<F: Folder>(&mut self, app: u8, folder: &mut F) -> Result<(), OutOfMemory>
        ensures does { OnOk result (Does (λ setting answers. take_losses setting app) self.old self.new (F.told folder.old) (F.told folder.new)) }
        ensures leaves { Leaves self.old.core self.new.core (F.told folder.old) (F.told folder.new) }
    {
        if self.calls.apps() <= app {
            return Ok(());
        }
        let count = self.calls.pending(app);
        if count == 0 {
            return Ok(());
        }
        self.note_levels()?;
        self.note_losses(app, count, folder)?;
        self.note_levels_now()
    }

    /// Notes so many lost calls of an application.
    fn note_losses<F: Folder>(
        &mut self,
        app: u8,
        count: u64,
        folder: &mut F,
    ) -> Result<(), OutOfMemory>
        requires settled { owed_change self.old.core.registry ≡ None }
        requires known { app < length self.old.calls.apps }
        requires some { 1 ≤ count }
        ensures does { OnOk result (Does (λ setting answers. noting (λ now. event.Lost app count (moment now)) setting) self.old self.new (F.told folder.old) (F.told folder.new)) }
        ensures leaves { Leaves self.old.core self.new.core (F.told folder.old) (F.told folder.new) }
    {
        let need = self.core.lost_need(count);
        make_room(&self.core, &mut self.journal, count, need)?;
        let apid = self.calls.apid(app);
        // The records of its losses have four bytes of it.
        let _bytes = apid.bytes();
        self.core
            .lost(app, apid, count, self.moment, folder, &mut self.journal);
        self.calls.tell_losses(app);
        self.deliver()
    }

    /// What is still in an application's ring is taken, and then its losses.
    pub fn drain<F: Folder>(&mut self, app: u8, folder: &mut F) -> Result<(), OutOfMemory>
        ensures does { OnOk result (Does (λ setting answers. drain setting app) self.old self.new (F.told folder.old) (F.told folder.new)) }
        ensures leaves { Leaves self.old.core self.new.core (F.told folder.old) (F.told folder.new) }
    {
        if self.calls.apps() <= app {
            return Ok(());
        }
        for _next in 0..self.calls.held(app) {
            self.take_log(app, folder)?;
        }
        self.take_losses(app, folder)
    }

    /// An application takes its oldest injection, where there is one.
    pub fn take_injection(&mut self, app: u8)
        ensures does { app < 16 → Doing (λ setting. take_injection app) self.old self.new }
        ensures core { self.new.core ≡ self.old.core }
    {
        if (app as usize) < APP_LIMIT && self.injections.waiting(app) > 0 {
            self.injections.go(app);
        }
    }
}

/// The sizes that every log call keeps to: its ids have four bytes, and its payload is within its limit.
fn has_sizes(item: &Item)
    ensures apid { length item.now.apid ≡ 4 }
    ensures ctid { length item.now.ctid ≡ 4 }
    ensures payload { length item.now.payload.bytes ≤ 1390 }
{
    let _apid = item.apid.bytes();
    let _ctid = item.ctid.bytes();
    let _payload = item.payload.bytes();
}
