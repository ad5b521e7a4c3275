//! What became of a log call.

ghost use Rattle.std.specs.Prelude.{◌≡◌, ◌<◌, ◌≤◌, ◌-◌, ◌++◌, ◌∷◌, [], Some, length, slice_get};

use arrayvec::ArrayVec;
use dl_bytes::{Item, Level, Sequence};
use std::marker::Model;

/// What became of a log call.
#[derive(Clone, Copy, PartialEq, Eq)]
pub enum Answer {
    /// Its severity was above the level that its context held.
    Filtered,
    /// The application's ring took it.
    Queued,
    /// It passed its level, and met a full ring.
    Lost,
}

/// A log call, the level that it met, and its answer.
#[derive(Drop)]
pub struct Record {
    /// The call. In a filtered one the message counter is the one that the next passing call will have.
    pub item: Item,
    /// The slot of its context: 64 times the application's number and the context's place.
    pub slot: u16,
    /// The version of the level that its one load gave.
    pub version: u64,
    /// That level.
    pub held: Level,
    /// What became of it.
    pub answer: Answer,
}

/// The records of at most 32 writers, by the writers' numbers. It takes no memory beside the lists that it is given.
#[derive(Drop)]
pub struct RecordList {
    writers: ArrayVec<Option<Sequence<Record>>, 32>,
}

impl Model for RecordList {
    ghost use Rattle.std.specs.Prelude.{List, ◌≡◌, map, Some};
    ghost use Rattle.dl_events.specs.declared.record.Record.{Record};
    ghost use Rattle.dl_events.specs.Records.{given};

    ghost Value = { List (List Record) };

    ghost view = { λ r. given r.writers.items };

    ghost invariant = { λ r. r.writers.items ≡ map Some (given r.writers.items) };
}

impl RecordList {
    /// No writer's records.
    pub fn none() -> RecordList
        ensures { result ≡ [] }
    {
        RecordList {
            writers: ArrayVec::new(),
        }
    }

    /// Adds the records of the next writer, in the order of its calls.
    pub fn add(&mut self, records: Vec<Record>)
        requires { length self.old < 32 }
        ensures { self.new ≡ self.old ++ records.items ∷ [] }
    {
        self.writers
            .try_push(Some(Sequence::over(records)))
            .unwrap();
    }

    /// How many writers there are.
    pub fn writers(&self) -> u8
        ensures { result ≡ length self.now }
    {
        self.writers.len() as u8
    }

    /// The records of one writer, from 1.
    pub fn of(&self, writer: u8) -> &[Record]
        requires first { 1 ≤ writer }
        requires known { writer ≤ length self.now }
        ensures { slice_get self.now (writer - 1) ≡ Some result.now }
    {
        match &self.writers[writer as usize - 1] {
            Some(records) => records.all(),
            None => &[],
        }
    }
}
