//! One application: its contexts, the places that are claimed of it, its ring, and its lost calls.

ghost use Rattle.std.specs.Prelude.{◌≡◌, ◌<◌, ◌≤◌, ◌+◌, ◌-◌, ◌++◌, ◌∷◌, [], nat_le, length, slice_get, OnOk, IfSome};
ghost use Rattle.std.specs.List.{position};
ghost use Rattle.std.specs.Str.{bytes_eq};
ghost use Rattle.dl_world_calls.specs.State.{new_app};
ghost use Rattle.dl_world_calls.specs.Queue.{waiting};

use crate::queue::{Entry, Queue};
use dl_bytes::{AppSpec, Id, OutOfMemory};
use std::alloc::Global;
use std::marker::Model;

/// An application of the script.
#[derive(Drop)]
pub struct App {
    spec: AppSpec,
    contexts: Vec<Id>,
    claimed: u8,
    ring: Queue,
    losses: Queue,
}

impl Model for App {
    ghost use Rattle.std.specs.Prelude.{◌≤◌, ◌+◌, length};
    ghost use Rattle.dl_world_calls.specs.State as state;

    ghost Value = { state.App };

    ghost view = { λ a. record { spec = a.spec; contexts = a.contexts.items; claimed = a.claimed; ring = a.ring; losses = a.losses } };

    ghost invariant = { λ a. length a.contexts.items + a.claimed ≤ 64 };
}

impl App {
    /// An application without contexts, for which nothing waits.
    pub fn new(alloc: Global, spec: AppSpec) -> App
        ensures { result ≡ new_app spec }
    {
        App {
            spec,
            contexts: Vec::new(alloc),
            claimed: 0,
            ring: Queue::new(alloc),
            losses: Queue::new(alloc),
        }
    }

    /// The application as it was declared.
    pub fn into_spec(self) -> AppSpec
        ensures { result ≡ self.spec }
    {
        self.spec
    }

    /// Whether this is its id.
    pub fn is_named(&self, apid: Id) -> bool
        ensures { result ≡ bytes_eq self.now.spec.apid apid }
    {
        self.spec.apid == apid
    }

    /// Its id.
    pub fn apid(&self) -> Id
        ensures { result ≡ self.now.spec.apid }
    {
        self.spec.apid
    }

    /// How many calls and claims the ring holds.
    pub fn held(&self) -> usize
        ensures { result ≡ waiting self.now.ring }
    {
        self.ring.len()
    }

    /// Adds a context, as the last.
    pub fn add_context(&mut self, ctid: Id) -> Result<(), OutOfMemory>
        requires { length self.old.contexts + self.old.claimed < 64 }
        ensures { OnOk result (self.new ≡ record self.old { contexts = self.old.contexts ++ ctid ∷ [] }) }
    {
        self.contexts.push(ctid)?;
        Ok(())
    }

    /// The place of the context that has this id.
    pub fn place_of(&self, ctid: Id) -> Option<u8>
        ensures place { result ≡ position (λ id. bytes_eq id ctid) self.now.contexts }
        ensures range { IfSome result (λ place. place < 64) }
    {
        match place_in(&self.contexts, ctid) {
            Some(place) => Some(place as u8),
            None => None,
        }
    }

    /// The next place: as many are given already.
    pub fn next_place(&self) -> u8
        ensures value { result ≡ length self.now.contexts + self.now.claimed }
        ensures range { result ≤ 64 }
    {
        self.contexts.len() as u8 + self.claimed
    }

    /// A claim gets the next place.
    pub fn claim_place(&mut self)
        requires { length self.old.contexts + self.old.claimed < 64 }
        ensures { self.new ≡ record self.old { claimed = self.old.claimed + 1 } }
    {
        self.claimed += 1;
    }

    /// Whether the ring holds as much as it can.
    pub fn is_full(&self) -> bool
        ensures { result ≡ nat_le self.now.spec.capacity (waiting self.now.ring) }
    {
        self.spec.capacity as usize <= self.ring.len()
    }

    /// The ring takes a call or a claim.
    pub fn queue(&mut self, entry: Entry) -> Result<(), OutOfMemory>
        ensures { OnOk result (self.new ≡ record self.old { ring = record { entries = self.old.ring.entries ++ entry ∷ []; gone = self.old.ring.gone } }) }
    {
        self.ring.push(entry)
    }

    /// The first call or claim in the ring.
    pub fn first(&self) -> Option<Entry>
        ensures { result ≡ slice_get self.now.ring.entries self.now.ring.gone }
    {
        self.ring.first()
    }

    /// The daemon takes the first call or claim out of the ring.
    pub fn take_first(&mut self)
        requires { self.old.ring.gone < length self.old.ring.entries }
        ensures { self.new ≡ record self.old { ring = record { entries = self.old.ring.entries; gone = self.old.ring.gone + 1 } } }
    {
        self.ring.drop_first();
    }

    /// A call is counted as lost.
    pub fn lose(&mut self, call: Entry) -> Result<(), OutOfMemory>
        ensures { OnOk result (self.new ≡ record self.old { losses = record { entries = self.old.losses.entries ++ call ∷ []; gone = self.old.losses.gone } }) }
    {
        self.losses.push(call)
    }

    /// How many lost calls the daemon was not told of.
    pub fn pending(&self) -> u64
        ensures { result ≡ waiting self.now.losses }
    {
        self.losses.len() as u64
    }

    /// The daemon is told of all of them.
    pub fn tell_losses(&mut self)
        ensures { self.new ≡ record self.old { losses = record { entries = self.old.losses.entries; gone = length self.old.losses.entries } } }
    {
        self.losses.drop_all();
    }
}

/// The place of an id among others.
fn place_in(ids: &[Id], id: Id) -> Option<usize>
    ensures value { result ≡ position (λ other. bytes_eq other id) ids.now }
    ensures within { IfSome result (λ place. place < length ids.now) }
{
    ids.iter().position(|other| *other == id)
}
