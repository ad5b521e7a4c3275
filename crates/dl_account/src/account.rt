//! The account of all that was logged.

ghost use Rattle.std.specs.Prelude.{◌≡◌, ◌<◌, ◌≤◌, ℕ, length, map, All};
ghost use Rattle.dl_account.specs.Books.{injected_of};
ghost use Rattle.dl_account.specs.Settled.{refusals_of, IsSettled, TellsClaimed, TellsLosses, TellsQueued};
ghost use Rattle.dl_writer.specs.State.{IsWhole};

use crate::entries::Entries;
use arrayvec::ArrayVec;
use dl_bytes::{AppSpec, Ends, Sequence};
use dl_desk::DaemonHandles;
use dl_events::{ClaimList, Event, Kept, RecordList};
use dl_writer::BookList;
use std::marker::Model;
use std::snapshot::Snapshot;

/// What became of each call, with the events of the daemon that took them.
#[derive(Drop)]
pub struct Account {
    pub(crate) apps: Sequence<AppSpec>,
    // it shows what was taken, reported, set and injected
    pub(crate) handles: DaemonHandles,
    // how many injections the writers of each application were given
    pub(crate) injected: ArrayVec<u64, 16>,
    // what stood in the books, by the writers' numbers
    pub(crate) entries: Entries,
    // the books as they were taken back, for contracts
    pub(crate) books: Snapshot<BookList>,
    pub(crate) journal: Kept,
    pub(crate) ends: Ends,
}

impl Model for Account {
    ghost use Rattle.dl_account.specs.State.{AccountState};
    ghost use Rattle.dl_account.specs.AccountInside.{account_state, IsAccount};

    ghost Value = { AccountState };

    ghost view = { account_state };

    ghost invariant = { IsAccount };
}

impl Account {
    /// The records of all writers, by their numbers.
    pub fn records(&self) -> &RecordList
        ensures value { result.now ≡ map (λ b. b.records) self.now.books }
        ensures settled { IsSettled self.now }
        ensures losses { All IsWhole self.now.books → (app : ℕ) → app < length self.now.apps → TellsLosses self.now app }
        ensures queued { All IsWhole self.now.books → All (TellsQueued self.now) self.now.books }
    {
        self.handles.reports();
        self.entries.records()
    }

    /// The claims that the books kept, by the writers' numbers: all that the rings took of them where every book is whole.
    pub fn claims(&self) -> &ClaimList
        ensures value { result.now ≡ map (λ b. b.claims) self.now.books }
        ensures claimed { All IsWhole self.now.books → All (TellsClaimed self.now) self.now.books }
    {
        self.handles.reports();
        self.entries.claims()
    }

    /// How many pushes of a writer, of calls and of claims, its ring refused: none of a writer that isn't the account's. Writers are numbered from 1.
    pub fn refusals(&self, writer: u8) -> u64
        ensures { result ≡ refusals_of self.now.books writer }
    {
        self.entries.refusals(writer)
    }

    /// What the daemon did, in order.
    pub fn events(&self) -> &[Event]
        ensures { result.now ≡ self.now.events }
    {
        self.journal.events()
    }

    /// The applications that the desk was made of.
    pub fn apps(&self) -> &[AppSpec]
        ensures { result.now ≡ self.now.apps }
    {
        self.apps.all()
    }

    /// What stood at the end beside the events.
    pub fn ends(&self) -> &Ends
        ensures { result.now ≡ self.now.outcome }
    {
        &self.ends
    }

    /// How many injections the writers of an application were given.
    pub fn injected(&self, app: u8) -> u64
        requires { app < length self.now.apps }
        ensures { result ≡ injected_of app self.now.books }
    {
        self.injected[usize::from(app)]
    }
}
