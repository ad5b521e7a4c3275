//! The journal, and how it takes an event.

ghost use Rattle.std.specs.Prelude.{◌≡◌, ◌≤◌, false, [], Some, IsOk};
ghost use Rattle.dl_events.specs.Closes.{closes_in};
ghost use Rattle.dl_events.specs.Told.{Told, count};

use crate::closes::Closes;
use crate::log::Log;
use crate::{Event, Journal};
use dl_bytes::OutOfMemory;
use std::marker::Model;

/// A journal that keeps no event, but how many there were and how clients went. It never runs out of memory, and tells its events in proofs.
#[derive(Drop)]
pub struct Unkept {
    /// How many events were noted.
    noted: u64,
    /// How clients went.
    closes: Closes,
    spare: u64,
    log: Log,
}

impl Model for Unkept {
    ghost use Rattle.std.specs.Prelude.{◌≡◌};
    ghost use Rattle.dl_events.specs.Closes.{closes_in};
    ghost use Rattle.dl_events.specs.Told.{Told, count};

    ghost Value = { Told };

    ghost view = { λ u. record { events = u.log.events; noted = u.noted; spare = u.spare } };

    ghost invariant = { λ u. (u.noted ≡ count u.log.events) × (u.closes ≡ closes_in u.log.events) };
}

impl Unkept {
    /// A journal to which nothing was noted.
    pub fn make() -> Unkept
        ensures { result ≡ record { events = []; noted = 0; spare = 0 } }
    {
        Unkept {
            noted: 0,
            closes: Closes::none(),
            spare: 0,
            log: Log::new(),
        }
    }

    /// How many events were noted, at most 2^64 - 1.
    pub fn noted(&self) -> u64
        ensures noted { result ≡ self.now.noted }
        ensures number { result ≡ count self.now.events }
    {
        self.noted
    }

    /// How many clients were closed, by cause.
    pub fn closes(&self) -> Closes
        ensures { result ≡ closes_in self.now.events }
    {
        self.closes
    }
}

impl Journal for Unkept {
    ghost events = { λ u. Some u.events };

    ghost noted = { λ u. u.noted };

    ghost spare = { λ u. u.spare };

    ghost may_run_out = { false };

    fn reserve(&mut self, more: u64) -> Result<(), OutOfMemory>
        ensures events { self.new.events ≡ self.old.events }
        ensures noted { self.new.noted ≡ self.old.noted }
        ensures ok { IsOk result }
        ensures room { more ≤ self.new.spare }
        ensures later { self.old.spare ≤ self.new.spare }
    {
        self.spare = self.spare.max(more);
        Ok(())
    }

    fn note(&mut self, event: Event) {
        if let Event::Close { why, .. } = &event {
            self.closes = self.closes.with(*why);
        }
        self.log = self.log.and(&event);
        self.noted = self.noted.saturating_add(1);
        self.spare -= 1;
    }

    fn spare(&self) -> u64 {
        self.spare
    }
}
