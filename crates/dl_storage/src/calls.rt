//! The records of log calls, looked up by writer and number.

ghost use Rattle.std.specs.Prelude.{◌≡◌, ◌==◌, ℕ, true, option_map};
ghost use Rattle.std.specs.List.{find};
ghost use Rattle.dl_model.specs.Accounts.{AreNumbered};
ghost use Rattle.dl_model.specs.WholeAccounts.{record_named, records_by};

use dl_events::{Record, RecordList};

/// The records of a run. Where the calls of each writer are numbered from 1 and none is missing, as in an account, a record is
/// found at its place.
#[derive(Drop)]
pub struct Calls<'r> {
    /// The records.
    pub records: &'r RecordList,
    /// Whether they are numbered so.
    pub numbered: bool,
    ghost as_told: { numbered ≡ true → (number : ℕ) → AreNumbered (records_by number records.now) },
}

/// Whether calls are numbered from 1, and none is missing.
fn is_numbered(own: &[Record]) -> bool
    ensures { result ≡ true → AreNumbered own.now }
{
    let mut number = 0;
    for record in own {
        number += 1;
        if record.item.call != number {
            return false;
        }
    }
    true
}

/// Whether the calls of each writer are.
fn are_numbered(records: &RecordList) -> bool
    ensures { result ≡ true → (number : ℕ) → AreNumbered (records_by number records.now) }
{
    let mut writer = 0;
    while writer < records.writers() {
        writer += 1;
        if !is_numbered(records.of(writer)) {
            return false;
        }
    }
    true
}

/// The record at the place of a call's number, from 1.
fn at_its_place(own: &[Record], call: u64) -> Option<&Record>
    requires { AreNumbered own.now }
    ensures { option_map (λ r. r.now) result ≡ find (λ r. r.item.call == call) own.now }
{
    let place = call.checked_sub(1)?;
    own.get(place as usize)
}

/// The first record of a call, wherever it stands.
fn search(own: &[Record], call: u64) -> Option<&Record>
    ensures { option_map (λ r. r.now) result ≡ find (λ r. r.item.call == call) own.now }
{
    for record in own {
        if record.item.call == call {
            return Some(record);
        }
    }
    None
}

impl<'r> Calls<'r> {
    /// The calls of these records.
    pub fn over(records: &'r RecordList) -> Calls<'r>
        ensures { result.records.now ≡ records.now }
    {
        Calls {
            records,
            numbered: are_numbered(records),
        }
    }

    /// The record of a writer's call, by its number.
    pub fn record_of(&self, writer: u8, call: u64) -> Option<&'r Record>
        ensures { option_map (λ r. r.now) result ≡ record_named self.now.records.now writer call }
    {
        if writer == 0 || writer > self.records.writers() {
            return None;
        }
        let own = self.records.of(writer);
        if self.numbered {
            at_its_place(own, call)
        } else {
            search(own, call)
        }
    }
}
