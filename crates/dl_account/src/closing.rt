//! The daemon's side once the writers have ended: it takes back their handles, and then what they left.

ghost use Rattle.std.specs.Prelude.{◌≡◌, ◌+◌, ◌-◌, ◌*◌, ◌^◌, ◌<◌, ◌≤◌, ◌↔◌, ℕ, false, List, length, All, IfOk, IfErr, IfSome, IfNone, IsErr, IsTrue, OnOk, OnErr, OnSome};
ghost use Rattle.std.specs.List.{range_with_len};
ghost use Rattle.std.specs.Option.{IsNone};
ghost use Rattle.dl_cells.specs.LevelHistory.{current_version};
ghost use Rattle.dl_cells.specs.Losses.{reported_of};
ghost use Rattle.dl_ring.specs.declared.item.RingItem.{RingItem as ring_item};
ghost use Rattle.dl_ring.specs.Items.{is_call, took};
ghost use Rattle.dl_desk.specs.Handles.{RingHolds, with_empty_take, with_injected, with_item, with_level, with_refusal, with_report};
ghost use Rattle.dl_desk.specs.Lists.{At};
ghost use Rattle.dl_account.specs.Books.{lost_of};
ghost use Rattle.dl_account.specs.Known.{AreGathered, IsDrained, IsEmpty};
ghost use Rattle.dl_desk.specs.Made.{IsMadeWith};
ghost use Rattle.dl_writer.specs.State.{numbers};
ghost use Rattle.dl_account.specs.Making.{AreMadeWith, IsMadeOf, IsMissing, KeepsDesk, SameBases};
ghost use Rattle.dl_account.specs.Settled.{account_of};

use crate::account::Account;
use crate::entries::Entries;
use crate::joining::{injections_given, join_books, join_firsts};
use crate::ordering::{in_order, missing};
use crate::waiting::{items_waiting, look_at_handles, losses_waiting};
use arrayvec::ArrayVec;
use dl_bytes::{AppSpec, Ends, Injection, Item, Level, Sequence};
use dl_cells::Worn;
use dl_desk::{DaemonHandles, Desk, DeskParts, RingItem, Taken};
use dl_events::Kept;
use dl_writer::BookList;
use std::marker::Model;
use std::snapshot::Snapshot;
use std::sync::Wait;

/// The daemon's side once all writers are back. Nothing is pushed into a ring and no loss is counted any more.
#[derive(Drop)]
pub struct Closing {
    apps: Sequence<AppSpec>,
    handles: DaemonHandles,
    // how many calls and claims wait in the ring of each application
    items: [u64; 16],
    // how many losses wait in its word
    losses: [u64; 16],
    // how many injections its writers were given
    injected: ArrayVec<u64, 16>,
    // what stood in the books, by the writers' numbers
    entries: Entries,
    // the books as they were taken back, for contracts
    books: Snapshot<BookList>,
}

impl Model for Closing {
    ghost use Rattle.dl_account.specs.State.{ClosingState};
    ghost use Rattle.dl_account.specs.ClosingInside.{closing_state, is_closing};

    ghost Value = { ClosingState };

    ghost view = { closing_state };

    ghost invariant = { is_closing };
}

impl Closing {
    /// Takes back all writers with their books. Where a book is missing, both come back untouched.
    pub fn make(desk: Desk, books: BookList) -> Result<Closing, (Desk, BookList)>
        requires { AreMadeWith desk books }
        ensures made { IfOk result (λ closing. IsMadeOf desk books closing) }
        ensures missing { OnErr result (IsMissing books (length desk.owners)) }
        ensures back { IfErr result (λ back. (back.0 ≡ desk) × (back.1 ≡ books)) }
    {
        let writers = desk.writers();
        match missing(&books, writers) {
            Some(_) => Err((desk, books)),
            None => Ok(gather(desk, in_order(books, writers))),
        }
    }

    /// The applications that the desk was made of.
    pub fn apps(&self) -> &[AppSpec]
        ensures { result.now ≡ self.now.apps }
    {
        self.apps.all()
    }

    /// Each application has its handles. It does nothing: its clause is what callers of `take` and of others learn.
    pub fn have_handles(&self)
        ensures { length self.now.handles.apps ≡ length self.now.apps }
    {
        let _ = &self.apps;
    }

    /// What is known of the writers, of the rings, queues and words, and of what was taken and claimed of them.
    pub fn gathered(&self)
        ensures { AreGathered self.now }
    {
        let _ = &self.apps;
    }

    /// The oldest call or claim in the ring of an application. None exactly where it is empty.
    pub fn take<R: Wait>(&mut self, rt: &R, app: u8) -> Option<RingItem>
        requires { app < length self.old.apps }
        ensures taken { IfSome result (λ item. self.new ≡ record self.old { handles = with_item self.old.handles app item }) }
        ensures rest { OnSome result ((contents : List ring_item) × RingHolds self.new.handles app contents) }
        ensures none { IfNone result (self.new ≡ record self.old { handles = with_empty_take self.old.handles app }) }
        ensures empty { IsNone result ↔ IsEmpty self.old app }
    {
        let item = self.handles.take(rt, app)?;
        self.items[usize::from(app)] -= 1;
        Some(item)
    }

    /// As `take`, but a call is copied into the caller's item, once; otherwise that item stays. Nothing comes exactly where
    /// the ring is empty.
    pub fn take_into<R: Wait>(&mut self, rt: &R, app: u8, item: &mut Item) -> Taken
        requires { app < length self.old.apps }
        ensures taken { IfSome (took result item.new) (λ x. self.new ≡ record self.old { handles = with_item self.old.handles app x }) }
        ensures rest { OnSome (took result item.new) ((contents : List ring_item) × RingHolds self.new.handles app contents) }
        ensures none { IfNone (took result item.new) (self.new ≡ record self.old { handles = with_empty_take self.old.handles app }) }
        ensures empty { IsNone (took result item.new) ↔ IsEmpty self.old app }
        ensures kept { is_call result ≡ false → item.new ≡ item.old }
    {
        match self.handles.take_into(rt, app, item) {
            Taken::Nothing => Taken::Nothing,
            taken => {
                self.items[usize::from(app)] -= 1;
                taken
            }
        }
    }

    /// How many calls of an application were lost that were not told yet.
    pub fn losses(&mut self, app: u8) -> u64
        requires { app < length self.old.apps }
        ensures reported { self.new ≡ record self.old { handles = with_report self.old.handles app result } }
        ensures all { reported_of app self.old.handles.losses.reported + result ≡ lost_of app self.old.books }
        ensures small { reported_of app self.new.handles.losses.reported < 2 ^ 47 }
    {
        self.losses[usize::from(app)] = 0;
        self.handles.losses(app)
    }

    /// Sets the level of a slot, 64 times the application's number and the context's place, at the slot's next version.
    /// `Worn` at version 2^56 - 1.
    pub fn set(&mut self, slot: u16, level: Level) -> Result<(), Worn>
        requires { slot < 64 * length self.old.apps }
        ensures worn { IsErr result ↔ (current_version self.old.handles.levels.first slot self.old.handles.levels.sets ≡ 2 ^ 56 - 1) }
        ensures set { OnOk result (self.new ≡ record self.old { handles = with_level self.old.handles slot level }) }
        ensures kept { OnErr result (self.new ≡ self.old) }
    {
        self.handles.set(slot, level)
    }

    /// Puts an injection into the queue of an application, or gives it back. It comes back only where the queue held 16 at
    /// that step, so at least 16 were put before. No writer will take it.
    pub fn inject<R: Wait>(&mut self, rt: &R, app: u8, item: Injection) -> Result<(), Injection>
        requires { app < length self.old.apps }
        ensures pushed { OnOk result (self.new ≡ record self.old { handles = with_injected self.old.handles app item }) }
        ensures refused { OnErr result (self.new ≡ record self.old { handles = with_refusal self.old.handles app }) }
        ensures back { IfErr result (λ back. back ≡ item) }
        ensures full { OnErr result (At self.old.handles.apps app (λ e. 16 ≤ length e.queue.pushed)) }
    {
        let answer = self.handles.inject(rt, app, item);
        self.handles.look(app);
        answer
    }

    /// Whether all was taken and told: every ring is empty, and every loss word is 0.
    pub fn is_drained(&self) -> bool
        ensures { IsTrue result ↔ IsDrained self.now }
    {
        for app in 0..self.apps.len() as usize {
            if self.items[app] != 0 || self.losses[app] != 0 {
                return false;
            }
        }
        true
    }

    /// The account of all that was logged, with the daemon's events, and what stood at the end beside them. No memory.
    pub fn finish(self, journal: Kept, ends: Ends) -> Account
        requires { IsDrained self }
        ensures { result ≡ account_of self journal.events ends }
    {
        let Closing {
            apps,
            handles,
            items: _,
            losses: _,
            injected,
            entries,
            books,
        } = self;
        Account {
            apps,
            handles,
            injected,
            entries,
            books,
            journal,
            ends,
        }
    }
}

// Takes back the writers of these books, which are all, in the order of their numbers.
fn gather(desk: Desk, books: BookList) -> Closing
    requires made { All (λ b. IsMadeWith desk b.writer) books }
    requires numbered { numbers books ≡ range_with_len 1 (length books) }
    requires all { length books ≡ length desk.owners }
    requires bases { SameBases books }
    ensures books { result.books ≡ books }
    ensures kept { KeepsDesk desk result }
{
    let seen = Snapshot::of(&books);
    let DeskParts {
        apps,
        mut handles,
        firsts,
        readers,
        counters,
        owners: _,
    } = desk.into_parts();
    let count = firsts.len() as u8;
    let items = items_waiting(&handles, &books, count);
    let injected = injections_given(&books, count);
    let entries = join_books(&mut handles, books);
    join_firsts(&mut handles, firsts);
    handles.join_words(readers, counters);
    handles.settle();
    look_at_handles(&mut handles, count);
    let losses = losses_waiting(&mut handles, count);
    Closing {
        apps,
        handles,
        items,
        losses,
        injected,
        entries,
        books: seen,
    }
}
