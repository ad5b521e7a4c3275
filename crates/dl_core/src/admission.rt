//! Log calls and reports of lost ones: each is admitted, stored and noted.

ghost use Rattle.std.specs.Prelude.{◌≡◌, ◌≤◌, ◌<◌, ◌↔◌, ◌+◌, ℕ, List, None, IsTrue, length, map};
ghost use Rattle.dl_bytes.specs.Limits.{admitted_limit};
ghost use Rattle.dl_events.specs.Journal.{one_more};
ghost use Rattle.dl_message.specs.Frames.{log_message};
ghost use Rattle.dl_model.specs.Backlog.{size_of};
ghost use Rattle.dl_registry.specs.Kept.{owed_change};
ghost use Rattle.dl_hub.specs.State.{EachHasRoom};
ghost use Rattle.dl_core.specs.Admission.{lost_frames, more_noted};
ghost use Rattle.dl_core.specs.Noting.{NotesLog, NotesLogs, NotesLost};

use crate::admitting::{admit, admit_each, log_len, logged, lost_len, report};
use crate::daemon::Core;
use dl_bytes::{ADMITTED_LIMIT, Id, Item, Moment};
use dl_events::{Event, Journal};
use dl_message::write_log_frame;
use dl_outside::Folder;
use dl_trace::{begin_batch, store_batch};

impl Core {
    /// Notes a log call that was taken from its ring, and admits its frame.
    pub fn log<F: Folder, J: Journal>(
        &mut self,
        item: &Item,
        moment: Moment,
        folder: &mut F,
        journal: &mut J,
    )
        requires spare { 1 ≤ J.spare journal.old }
        requires settled { owed_change self.old.registry ≡ None }
        requires room { EachHasRoom (length (log_message self.old.ecu item.now)) self.old.hub }
        requires few { self.old.hub.admitted < admitted_limit }
        ensures notes { NotesLog moment item.now self.old self.new (F.told folder.old) (F.told folder.new) (J.events journal.old) (J.events journal.new) }
        ensures noted { J.noted journal.new ≡ one_more (J.noted journal.old) }
        ensures spare { J.spare journal.new + 1 ≡ J.spare journal.old }
        ensures rest { self.new ≡ record self.old { hub = self.new.hub; trace = self.new.trace } }
    {
        write_log_frame(&mut self.frame, self.ecu, item);
        admit(
            &mut self.hub,
            &mut self.trace,
            self.ecu,
            moment,
            self.frame.bytes(),
            folder,
        );
        journal.note(logged(item, moment));
    }

    /// Notes so many lost calls of an application, and admits the records that report them.
    pub fn lost<F: Folder, J: Journal>(
        &mut self,
        app: u8,
        apid: Id,
        count: u64,
        moment: Moment,
        folder: &mut F,
        journal: &mut J,
    )
        requires count { 1 ≤ count }
        requires spare { 1 ≤ J.spare journal.old }
        requires settled { owed_change self.old.registry ≡ None }
        requires room { EachHasRoom (size_of (lost_frames self.old.ecu apid count)) self.old.hub }
        requires few { self.old.hub.admitted + length (lost_frames self.old.ecu apid count) ≤ admitted_limit }
        ensures notes { NotesLost moment app apid count self.old self.new (F.told folder.old) (F.told folder.new) (J.events journal.old) (J.events journal.new) }
        ensures noted { J.noted journal.new ≡ one_more (J.noted journal.old) }
        ensures spare { J.spare journal.new + 1 ≡ J.spare journal.old }
        ensures rest { self.new ≡ record self.old { hub = self.new.hub; trace = self.new.trace } }
    {
        report(
            &mut self.hub,
            &mut self.trace,
            self.ecu,
            apid,
            count,
            moment,
            folder,
        );
        journal.note(Event::Lost { app, count, moment });
    }

    /// Notes log calls of one moment, at most 64, and admits their frames. They are what as many calls of `log` would be,
    /// but that the trace stores them together.
    pub fn log_batch<F: Folder, J: Journal>(
        &mut self,
        items: &[Item],
        moment: Moment,
        folder: &mut F,
        journal: &mut J,
    )
        requires few_items { length items.now ≤ 64 }
        requires spare { length items.now ≤ J.spare journal.old }
        requires settled { owed_change self.old.registry ≡ None }
        requires room { EachHasRoom (size_of (map (log_message self.old.ecu) items.now)) self.old.hub }
        requires few { self.old.hub.admitted + length items.now ≤ admitted_limit }
        ensures notes { NotesLogs moment items.now self.old self.new (F.told folder.old) (F.told folder.new) (J.events journal.old) (J.events journal.new) }
        ensures noted { J.noted journal.new ≡ more_noted (length items.now) (J.noted journal.old) }
        ensures spare { J.spare journal.new + length items.now ≡ J.spare journal.old }
        ensures rest { self.new ≡ record self.old { hub = self.new.hub; trace = self.new.trace } }
    {
        begin_batch(&mut self.trace);
        admit_each(
            &mut self.hub,
            &mut self.trace,
            self.ecu,
            moment,
            items,
            &mut self.frame,
            journal,
        );
        store_batch(&mut self.trace, folder);
    }

    /// Whether so many frames may be admitted.
    pub fn may_admit(&self, frames: u64) -> bool
        ensures { IsTrue result ↔ (self.now.hub.admitted + frames ≤ admitted_limit) }
    {
        let admitted = self.hub.admitted();
        admitted <= ADMITTED_LIMIT && frames <= ADMITTED_LIMIT - admitted
    }

    /// How many bytes a log call puts.
    pub fn log_need(&self, item: &Item) -> u64
        ensures { result ≡ length (log_message self.now.ecu item.now) }
    {
        log_len(self.ecu, item)
    }

    /// How many bytes these log calls put together.
    pub fn batch_need(&self, items: &[Item]) -> u64
        requires { length items.now ≤ 64 }
        ensures { result ≡ size_of (map (log_message self.now.ecu) items.now) }
    {
        let mut need = 0;
        for item in items {
            need += log_len(self.ecu, item);
        }
        need
    }

    /// How many bytes a report of so many lost calls puts, whatever the application.
    pub fn lost_need(&self, count: u64) -> u64
        ensures { (apid : List ℕ) → length apid ≡ 4 → result ≡ size_of (lost_frames self.now.ecu apid count) }
    {
        lost_len(self.ecu, count)
    }
}
