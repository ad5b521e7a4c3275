//! What stands in the books of all writers.

ghost use Rattle.std.specs.Prelude.{◌≡◌, ◌<◌, [], length};
ghost use Rattle.dl_account.specs.Entries.{entries_of, refusals_in, with_entry};

use arrayvec::ArrayVec;
use dl_bytes::Claim;
use dl_events::{ClaimList, Record, RecordList};
use std::marker::Model;

/// What stands in the books of at most 32 writers, by the writers' numbers. It takes no memory beside the lists that it is
/// given.
#[derive(Drop)]
pub struct Entries {
    records: RecordList,
    claims: ClaimList,
    // of each writer how many of its pushes, of calls and of claims, its ring refused
    refusals: ArrayVec<u64, 32>,
}

impl Model for Entries {
    ghost use Rattle.std.specs.Prelude.{◌≡◌, length};
    ghost use Rattle.dl_account.specs.Entries.{EntriesState};

    ghost Value = { EntriesState };

    ghost view = { λ e. record { records = e.records; claims = e.claims; refusals = e.refusals.items } };

    ghost invariant = { λ e. (length e.claims ≡ length e.records) × (length e.refusals.items ≡ length e.records) };
}

impl Entries {
    /// No writer's.
    pub fn none() -> Entries
        ensures { result ≡ entries_of [] }
    {
        Entries {
            records: RecordList::none(),
            claims: ClaimList::none(),
            refusals: ArrayVec::new(),
        }
    }

    /// Adds those of the next writer.
    pub fn add(&mut self, records: Vec<Record>, claims: Vec<Claim>, refusals: u64)
        requires { length self.old.records < 32 }
        ensures { self.new ≡ with_entry self.old records.items claims.items refusals }
    {
        self.records.add(records);
        self.claims.add(claims);
        self.refusals.push(refusals);
    }

    /// The records of all writers.
    pub fn records(&self) -> &RecordList
        ensures { result.now ≡ self.now.records }
    {
        &self.records
    }

    /// The claims that the books of all writers kept.
    pub fn claims(&self) -> &ClaimList
        ensures { result.now ≡ self.now.claims }
    {
        &self.claims
    }

    /// How many pushes of a writer its ring refused: none of a writer that isn't there. Writers are numbered from 1.
    pub fn refusals(&self, writer: u8) -> u64
        ensures { result ≡ refusals_in self.now writer }
    {
        if writer == 0 {
            return 0;
        }
        match self.refusals.get(usize::from(writer) - 1) {
            Some(refusals) => *refusals,
            None => 0,
        }
    }
}
