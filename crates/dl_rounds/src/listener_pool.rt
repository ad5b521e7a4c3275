//! The listeners of all clients that may come, in the memory of those that can be open at once.
//!
//! A client that has gone is listened to no more, so one that comes later takes over its seat: the memory of its listener, as new. What the
//! listener was is still told in proofs: there each client that may come has its own.

ghost use Rattle.std.specs.Prelude.{◌≡◌, ◌≤◌, ◌-◌, ◌<◌, ℕ, length, slice_get, Some, None, IsSome, replicate, true, false};
ghost use Rattle.dl_bytes.specs.Limits.{message_limit, open_client_limit};
ghost use Rattle.dl_hub.specs.State.{outbox_of};
ghost use Rattle.dl_rounds.specs.declared.listener.Listener.{Listener as listener_type};
ghost use Rattle.dl_rounds.specs.ListenerPool.{AreApart};

use crate::listener::{Listener, listeners};
use crate::past::Past;
use dl_bytes::{OPEN_CLIENT_LIMIT, OutOfMemory};
use dl_hub::Hub;
use std::alloc::Global;
use std::marker::Model;

/// The clients that have seats from the begin: the first ones that come.
const FIRST_CLIENTS: [u32; OPEN_CLIENT_LIMIT] = [1, 2, 3, 4, 5, 6, 7, 8];

/// A listener for each client that may come. It has the memory of eight, the most that can be open at once, and takes it in `make`.
#[derive(Drop)]
pub struct ListenerPool {
    /// Whose each seat is. It may be that of a client that has gone, or comes yet.
    clients: Vec<u32>,
    /// The listeners in the seats.
    listeners: Vec<Listener>,
    /// The listeners of all clients, as they were when a seat was taken over last.
    past: Past,
}

impl Model for ListenerPool {
    ghost use Rattle.dl_rounds.specs.ListenerPool.{Fits, Seated, laid};

    ghost Value = { Seated };

    ghost view = { λ s. record { listeners = laid s.clients.items s.listeners.items s.past.listeners; clients = s.clients.items } };

    ghost invariant = { λ s. Fits s.clients.items s.listeners.items s.past.listeners };
}

/// The listeners as they are, kept for proofs.
fn past_of(seats: &ListenerPool) -> Past
    ensures { result.listeners ≡ seats.now.listeners }
{
    Past {}
}

/// The seat of a client that has one.
fn seat_of(clients: &[u32], client: u32) -> usize
    requires { (seat : ℕ) × (slice_get clients.now seat ≡ Some client) }
    ensures { slice_get clients.now result ≡ Some client }
{
    let mut seat = 0;
    while clients[seat] != client {
        seat += 1;
    }
    seat
}

/// The first seat of a client that is not open. There is one where an open client has no seat.
fn seat_of_gone(clients: &[u32], hub: &Hub, client: u32) -> usize
    requires seats { length clients.now ≡ open_client_limit }
    requires apart { AreApart clients.now }
    requires open { IsSome (outbox_of hub.now client) }
    requires waits { (seat : ℕ) → slice_get clients.now seat ≡ Some client → ⊥ }
    ensures within { result < length clients.now }
    ensures gone { (number : ℕ) → slice_get clients.now result ≡ Some number → outbox_of hub.now number ≡ None }
{
    hub.few_are_open();
    let mut seat = 0;
    while hub.is_open(clients[seat]) {
        seat += 1;
    }
    seat
}

impl ListenerPool {
    ghost use Rattle.std.specs.Prelude.{IfOk};
    ghost use Rattle.std.specs.Borrow.{sem};
    ghost use Rattle.dl_rounds.specs.Lends.{LendsListener};
    ghost use Rattle.dl_rounds.specs.ListenerPool.{HasSeat};
    ghost use Rattle.dl_rounds.specs.Ready.{fresh_listener};

    /// The listeners of so many clients, none of whom sent anything yet. It takes all its memory here.
    pub fn make(alloc: Global, most_clients: u32) -> Result<ListenerPool, OutOfMemory>
        ensures { IfOk result (λ seats. seats.listeners ≡ replicate most_clients fresh_listener) }
    {
        Ok(ListenerPool {
            clients: Vec::from_array(alloc, FIRST_CLIENTS)?,
            listeners: listeners(alloc, OPEN_CLIENT_LIMIT as u32)?,
            past: Past::fresh(&most_clients),
        })
    }

    /// Whether a client has a seat.
    fn has_seat(&self, client: u32) -> bool
        ensures has { result ≡ true → HasSeat client self.now }
        ensures none { result ≡ false → HasSeat client self.now → ⊥ }
    {
        self.clients.contains(&client)
    }

    /// Gives an open client a seat, where it has none: that of a client that is not open, its listener as new. No listener changes by that. Other
    /// open clients keep their seats.
    pub fn seat(&mut self, hub: &Hub, client: u32)
        requires open { IsSome (outbox_of hub.now client) }
        requires waits { (HasSeat client self.old → ⊥) → slice_get self.old.listeners (client - 1) ≡ Some fresh_listener }
        requires limits { (place : ℕ) (listener : listener_type) → slice_get self.old.listeners place ≡ Some listener → listener.cutter.limit ≡ message_limit }
        ensures listeners { self.new.listeners ≡ self.old.listeners }
        ensures has { HasSeat client self.new }
        ensures stay { (number : ℕ) → IsSome (outbox_of hub.now number) → HasSeat number self.old → HasSeat number self.new }
    {
        if self.has_seat(client) {
            return;
        }
        let seat = seat_of_gone(&self.clients, hub, client);
        self.past = past_of(self);
        self.clients[seat] = client;
        self.listeners[seat].clear();
    }

    /// The listener of a client that has a seat, to listen by it.
    pub fn of_mut(&mut self, client: u32) -> &mut Listener
        requires seat { HasSeat client self.old }
        requires within { client ≤ length self.old.listeners }
        ensures value { slice_get self.old.listeners (client - 1) ≡ Some result.now }
        ensures* writes_back { sem 𝓛 (LendsListener self.entry client result) }
    {
        let seat = seat_of(&self.clients, client);
        &mut self.listeners[seat]
    }
}
