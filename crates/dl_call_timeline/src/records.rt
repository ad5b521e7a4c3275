//! Where overflow records stand: at the last of the calls that they tell of.

ghost use Rattle.std.specs.Prelude.{◌≡◌, ◌++◌, ◌∷◌, [], List, IfOk, OnOk, unwrap_or};
ghost use Rattle.std.specs.HashMap as hash;
ghost use Rattle.dl_call_timeline.specs.Calls.{same_record};
ghost use Rattle.dl_call_timeline.specs.Records.{KeepsColumns};
ghost use Rattle.dl_call_timeline.specs.declared.call.Call.{Call};

use crate::call::{Call, RecordName};
use crate::scale::Scale;
use dl_bytes::OutOfMemory;
use std::alloc::Global;
use std::collections::HashMap;

/// The columns of records. It takes memory for each.
#[derive(Drop)]
pub struct Columns {
    /// The columns.
    pub records: HashMap<RecordName, u64>,
}

impl Columns {
    /// The column of a record; the first where it isn't known.
    pub fn column(&self, name: RecordName) -> u64
        ensures { result ≡ unwrap_or (hash.get same_record self.now.records name) 0 }
    {
        match self.records.get(&name) {
            Some(column) => *column,
            None => 0,
        }
    }

    /// Notes a call.
    fn note(&mut self, scale: &Scale, call: &Call) -> Result<(), OutOfMemory>
        ensures { (calls : List Call) → KeepsColumns scale.now calls self.old.records → OnOk result (KeepsColumns scale.now (calls ++ call.now ∷ []) self.new.records) }
    {
        let Some(name) = call.teller() else {
            return Ok(());
        };
        self.records.insert(name, scale.column(call))?;
        Ok(())
    }

    /// The columns of the records that tell of these calls.
    pub fn of(alloc: Global, scale: &Scale, calls: &[Call]) -> Result<Columns, OutOfMemory>
        ensures { IfOk result (λ columns. KeepsColumns scale.now calls.now columns.records) }
    {
        let mut columns = Columns {
            records: HashMap::new(alloc),
        };
        for call in calls {
            columns.note(scale, call)?;
        }
        Ok(columns)
    }
}
