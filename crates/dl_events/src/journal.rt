//! The journal: the one list of all that the daemon did.

ghost use Rattle.std.specs.Prelude.{Bool, true, false, ◌≡◌, ◌<◌, ◌≤◌, ◌-◌, ◌+◌, ◌++◌, ◌∷◌, [], List, ℕ, Option, Some, None, OnOk, OnErr, IsOk, length};
ghost use Rattle.dl_events.specs.Journal.{Adds, one_more};
ghost use Rattle.dl_events.specs.declared.event.Event.{Event};

use crate::event::Event;
use dl_bytes::OutOfMemory;
use std::alloc::Global;
use std::marker::Model;

/// What takes the events of the daemon, in order. Memory is taken ahead, so that an event is noted without any.
pub trait Journal {
    /// The events, where the journal keeps them.
    ghost events: { Self → Option (List Event) };

    /// How many events were noted.
    ghost noted: { Self → ℕ };

    /// How many more events it can take with no memory.
    ghost spare: { Self → ℕ };

    /// Whether memory may be wanting for room.
    ghost may_run_out: { Bool };

    /// Makes room for this many events.
    fn reserve(&mut self, more: u64) -> Result<(), OutOfMemory>
        ensures events { events self.new ≡ events self.old }
        ensures noted { noted self.new ≡ noted self.old }
        ensures room { OnOk result (more ≤ spare self.new) }
        ensures later { spare self.old ≤ spare self.new }
        ensures refused { OnErr result (spare self.new ≡ spare self.old) }
        ensures wanted { OnErr result (may_run_out ≡ true) };

    /// Adds an event at the end.
    fn note(&mut self, event: Event)
        requires { 1 ≤ spare self.old }
        ensures events { Adds (events self.old) (events self.new) event }
        ensures noted { noted self.new ≡ one_more (noted self.old) }
        ensures spare { spare self.new + 1 ≡ spare self.old };

    /// How many more events it can take with no memory.
    fn spare(&self) -> u64
        ensures { result ≡ spare self.now };
}

/// A journal that keeps its events.
#[derive(Drop)]
pub struct Kept {
    events: Vec<Event>,
    spare: u64,
}

impl Model for Kept {
    ghost use Rattle.std.specs.Prelude.{◌≤◌, ◌+◌, vec_len, vec_capacity};
    ghost use Rattle.dl_events.specs.Journal.{Journaled};

    ghost Value = { Journaled };

    ghost view = { λ k. record { events = k.events.items; spare = k.spare } };

    ghost invariant = { λ k. vec_len k.events + k.spare ≤ vec_capacity k.events };
}

impl Kept {
    /// A journal without events.
    pub fn make(alloc: Global) -> Kept
        ensures { result ≡ record { events = []; spare = 0 } }
    {
        Kept {
            events: Vec::new(alloc),
            spare: 0,
        }
    }

    /// The events, the first one first.
    pub fn events(&self) -> &[Event]
        ensures { result.now ≡ self.now.events }
    {
        &self.events
    }
}

impl Journal for Kept {
    ghost events = { λ k. Some k.events };

    ghost noted = { λ k. length k.events };

    ghost spare = { λ k. k.spare };

    ghost may_run_out = { true };

    fn reserve(&mut self, more: u64) -> Result<(), OutOfMemory> {
        if self.spare < more {
            self.events.reserve(more as usize)?;
            self.spare = more;
        }
        Ok(())
    }

    fn note(&mut self, event: Event) {
        self.events.push(event).unwrap();
        self.spare -= 1;
    }

    fn spare(&self) -> u64 {
        self.spare
    }
}

/// A journal that keeps the number of its events alone, and never runs out of memory.
#[derive(Drop)]
pub struct Counted {
    /// How many events were noted.
    noted: u64,
    spare: u64,
}

impl Model for Counted {
    ghost use Rattle.dl_events.specs.Journal.{Count};

    ghost Value = { Count };

    ghost view = { λ c. record { noted = c.noted; spare = c.spare } };
}

impl Counted {
    /// A journal to which nothing was noted.
    pub fn make() -> Counted
        ensures { result ≡ record { noted = 0; spare = 0 } }
    {
        Counted { noted: 0, spare: 0 }
    }

    /// How many events were noted, at most 2^64 - 1.
    pub fn noted(&self) -> u64
        ensures { result ≡ self.now.noted }
    {
        self.noted
    }
}

impl Journal for Counted {
    ghost events = { λ _. None };

    ghost noted = { λ c. c.noted };

    ghost spare = { λ c. c.spare };

    ghost may_run_out = { false };

    fn reserve(&mut self, more: u64) -> Result<(), OutOfMemory>
        ensures noted { self.new.noted ≡ self.old.noted }
        ensures ok { IsOk result }
        ensures room { more ≤ self.new.spare }
        ensures later { self.old.spare ≤ self.new.spare }
    {
        self.spare = self.spare.max(more);
        Ok(())
    }

    fn note(&mut self, _event: Event) {
        self.noted = self.noted.saturating_add(1);
        self.spare -= 1;
    }

    fn spare(&self) -> u64 {
        self.spare
    }
}
