//! What waits for the daemon, the first one first.

ghost use Rattle.std.specs.Prelude.{◌≡◌, ◌<◌, ◌+◌, ◌-◌, ◌++◌, ◌∷◌, [], length, slice_get, OnOk};

use dl_bytes::OutOfMemory;
use std::alloc::Global;
use std::marker::Model;

/// Where a writer keeps what it gave away: among its records or its claims.
#[derive(Clone, Copy)]
pub struct OwnPlace {
    /// The writer's number, from 1.
    pub writer: u8,
    /// The place among the writer's records, or among its claims.
    pub place: usize,
}

/// What a ring holds of a writer.
#[derive(Clone, Copy)]
pub enum Entry {
    /// A log call, by the place of its record.
    Call(OwnPlace),
    /// A claim, by its place among the writer's claims.
    Claim(OwnPlace),
}

/// Entries in order, of which the first ones are gone. Nothing is ever moved to the front.
#[derive(Drop)]
pub struct Queue {
    entries: Vec<Entry>,
    gone: usize,
}

impl Model for Queue {
    ghost use Rattle.std.specs.Prelude.{◌≤◌, length};
    ghost use Rattle.dl_world_calls.specs.Queue.{Waiting};

    ghost Value = { Waiting };

    ghost view = { λ q. record { entries = q.entries.items; gone = q.gone } };

    ghost invariant = { λ q. q.gone ≤ length q.entries.items };
}

impl Queue {
    /// Nothing came yet.
    pub fn new(alloc: Global) -> Queue
        ensures { result ≡ record { entries = []; gone = 0 } }
    {
        Queue {
            entries: Vec::new(alloc),
            gone: 0,
        }
    }

    /// How many wait.
    pub fn len(&self) -> usize
        ensures value { result ≡ length self.now.entries - self.now.gone }
        ensures whole { result + self.now.gone ≡ length self.now.entries }
    {
        self.entries.len() - self.gone
    }

    /// The first that waits.
    pub fn first(&self) -> Option<Entry>
        ensures { result ≡ slice_get self.now.entries self.now.gone }
    {
        self.entries.get(self.gone).copied()
    }

    /// One more comes, as the last.
    pub fn push(&mut self, entry: Entry) -> Result<(), OutOfMemory>
        ensures { OnOk result (self.new ≡ record { entries = self.old.entries ++ entry ∷ []; gone = self.old.gone }) }
    {
        self.entries.push(entry)?;
        Ok(())
    }

    /// The first that waits goes.
    pub fn drop_first(&mut self)
        requires { self.old.gone < length self.old.entries }
        ensures { self.new ≡ record { entries = self.old.entries; gone = self.old.gone + 1 } }
    {
        self.gone += 1;
    }

    /// All go.
    pub fn drop_all(&mut self)
        ensures { self.new ≡ record { entries = self.old.entries; gone = length self.old.entries } }
    {
        self.gone = self.entries.len();
    }
}
