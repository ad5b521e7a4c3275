//! The hub: all clients, and the backlog.

ghost use Rattle.std.specs.Prelude.{◌≡◌, ◌≤◌, ◌<◌, ◌↔◌, ◌^◌, ◌+◌, ℕ, true, false, [], Err, IfOk, OnErr, OnOk, IfSome};
ghost use Rattle.std.specs.Prelude.{IsTrue, IsSome, IsSomeAnd, count_by, find, length, nat_le, take, map, option_map, vec_capacity};
ghost use Rattle.std.specs.List.{All, list_all};
ghost use Rattle.dl_bytes.specs.Limits.{admitted_limit, client_limit, frame_limit, open_client_limit, request_limit};
ghost use Rattle.dl_model.specs.Traffic.{Connected, Admitted, Reply, Closed};
ghost use Rattle.dl_hub.specs.State.{client_of, outbox_of, fresh, changed, without, with_frame, with_reply, shut, is_open, is_any_open, left_by, messages_left_by, replies_of};
ghost use Rattle.dl_hub.specs.State.{Comes, HasPlace, HasRoom, EachHasRoom, IsFull, IsNextOpen, IsSameHub, IsSpent, MayAsk};
ghost use Rattle.dl_model.specs.Backlog.{outbox_limit, size_of};
ghost use Rattle.dl_model.specs.Overflow.{overflow_frames};
ghost use Rattle.dl_control.specs.Reply.{daemon_apid, daemon_ctid};
ghost use Rattle.dl_hub.specs.Overflow.{came, left_over};
ghost use Rattle.dl_hub.specs.Kept.{places_of, takes_at};
ghost use Rattle.dl_hub.specs.Follows.{Adds, IsAfter};
ghost use Rattle.dl_hub.specs.Pumping.{Pumps, HasFailed, HasWaited, IsOnlySent};
ghost use Rattle.dl_hub.specs.declared.hub.HubFault.TheVariants as HubFault;
ghost use Rattle.dl_hub.specs.declared.hub.Pumped.TheVariants as Pumped;

use crate::client::Client;
use crate::ring::Ring;
use crate::store::Store;
use arrayvec::ArrayVec;
use dl_bytes::{Backlog, CLIENT_LIMIT, Id, OPEN_CLIENT_LIMIT, OutOfMemory, REQUEST_LIMIT};
use dl_outside::{Link, Sends};
use std::alloc::Global;
use std::marker::Model;

/// How many bytes more than the backlog an outbox can hold.
const OUTBOX_EXTRA: usize = 131_072;

/// Why a client can't connect.
#[derive(Clone, Copy, Debug, PartialEq, Eq)]
pub enum HubFault {
    /// As many clients have connected as may in this run.
    Spent,
    /// As many clients are open as may be at once.
    Full,
}

/// How far an outbox was sent.
#[derive(Clone, Copy, PartialEq, Eq)]
pub enum Pumped {
    /// Nothing is left of it.
    All,
    /// The link takes nothing now.
    Busy,
    /// The link failed.
    Failed,
}

/// The clients of the daemon, and the frames that wait for one. What is sent to all goes by the places of those that are
/// open, so it costs nothing for those that have gone.
#[derive(Drop)]
pub struct Hub {
    ecu: Id,
    store: Store,
    limit: u32,
    clients: Vec<Client>,
    places: ArrayVec<u32, OPEN_CLIENT_LIMIT>,
    free: Vec<Ring>,
    admitted: u64,
}

impl Model for Hub {
    ghost use Rattle.std.specs.Prelude.{◌≡◌, ◌≤◌, map, vec_capacity};
    ghost use Rattle.dl_bytes.specs.Limits.{open_client_limit};
    ghost use Rattle.dl_hub.specs.State as state;
    ghost use Rattle.dl_hub.specs.Kept.{Fits, places_of};

    ghost Value = { state.Hub };

    ghost view = { λ h. state.hub_of h.ecu h.store h.limit h.clients.items h.admitted };

    ghost invariant = { λ h. Fits (state.hub_of h.ecu h.store h.limit h.clients.items h.admitted) h.free.items
        × (h.limit ≤ vec_capacity h.clients) × (open_client_limit ≤ vec_capacity h.free)
        × (h.places.items ≡ places_of 0 (map state.is_open h.clients.items)) };
}

/// Of how many messages the frames told that these clients left.
#[tactic(auto, using(crate::proofs::Keeping::messages_more))]
fn messages_left_by(clients: &[Client]) -> u64
    ensures { result ≡ messages_left_by clients.now }
{
    let mut messages: u64 = 0;
    for client in clients {
        messages = messages.saturating_add(client.left_messages());
    }
    messages
}

/// How many bytes these clients left.
#[tactic(auto, using(crate::proofs::Keeping::left_more))]
fn left_by(clients: &[Client]) -> u64
    ensures { result ≡ left_by clients.now }
{
    let mut bytes: u64 = 0;
    for client in clients {
        bytes = bytes.saturating_add(client.left());
    }
    bytes
}

impl Hub {
    /// A hub without clients, of a control unit, with a backlog of at most `buffer` bytes, for a run that ends. It takes all
    /// its memory here.
    pub fn make(alloc: Global, ecu: Id, buffer: u32) -> Result<Hub, OutOfMemory>
        ensures value { IfOk result (λ hub. hub ≡ fresh ecu buffer client_limit) }
        ensures after { IfOk result (λ hub. IsAfter [] (λ _. []) hub) }
    {
        Hub::make_for(alloc, ecu, buffer, CLIENT_LIMIT)
    }

    /// The same for a run to which at most this many clients come.
    pub fn make_for(alloc: Global, ecu: Id, buffer: u32, clients: u32) -> Result<Hub, OutOfMemory>
        ensures value { IfOk result (λ hub. hub ≡ fresh ecu buffer clients) }
        ensures after { IfOk result (λ hub. IsAfter [] (λ _. []) hub) }
    {
        let buffer = buffer as usize;
        Ok(Hub {
            ecu,
            store: Store::make(alloc, buffer)?,
            limit: clients,
            clients: Vec::with_capacity(alloc, clients as usize)?,
            places: ArrayVec::new(),
            free: outboxes(alloc, buffer + OUTBOX_EXTRA)?,
            admitted: 0,
        })
    }

    /// How many clients have come.
    fn came(&self) -> usize
        ensures { result ≡ length self.now.clients }
    {
        self.clients.len()
    }

    /// Whether a client is open: it came, and has not gone.
    pub fn is_open(&self, client: u32) -> bool
        ensures { IsTrue result ↔ IsSome (outbox_of self.now client) }
    {
        match self.client(client) {
            Some(client) => client.is_open(),
            None => false,
        }
    }

    /// A client that came, by its number.
    fn client(&self, client: u32) -> Option<&Client>
        ensures limit { IfSome (client_of self.now client) (λ c. IfSome c.outbox (λ outbox. outbox.capacity ≡ outbox_limit self.now.buffer)) }
        ensures value { option_map (λ r. r.now) result ≡ client_of self.now client }
    {
        if client == 0 {
            return None;
        }
        self.clients.get(client as usize - 1)
    }

    /// Whether any client is open.
    pub fn any_open(&self) -> bool
        ensures { result ≡ is_any_open self.now }
    {
        self.free.len() < OPEN_CLIENT_LIMIT
    }

    /// At most eight clients are open. It does nothing: its clause is what callers learn.
    pub fn few_are_open(&self)
        ensures { count_by is_open self.now.clients ≤ open_client_limit }
    {
        let _ = &self.limit;
    }

    /// The open client with the least number above this one, if there is one: with it the open clients are gone through in
    /// order, whatever becomes of them meanwhile.
    pub fn next_open(&self, after: u32) -> Option<u32>
        ensures { IsNextOpen self.now after result }
    {
        // each place is below it, so that its number fits
        let _limit = self.limit;
        match first_from(&self.places, after) {
            Some(place) => Some(place + 1),
            None => None,
        }
    }

    /// A client's outbox, where it is open.
    fn outbox(&self, client: u32) -> Option<&Ring>
        ensures limit { IfSome (outbox_of self.now client) (λ outbox. outbox.capacity ≡ outbox_limit self.now.buffer) }
        ensures value { option_map (λ r. r.now) result ≡ outbox_of self.now client }
    {
        self.client(client)?.outbox()
    }

    /// How many more bytes a client's outbox can hold.
    pub fn room(&self, client: u32) -> u64
        requires { IsSome (outbox_of self.now client) }
        ensures value { IsSomeAnd (outbox_of self.now client) (λ outbox. result + length outbox.bytes ≡ outbox.capacity) }
        ensures limit { IsSomeAnd (outbox_of self.now client) (λ outbox. outbox.capacity ≡ outbox_limit self.now.buffer) }
    {
        match self.outbox(client) {
            Some(outbox) => outbox.room() as u64,
            None => 0,
        }
    }

    /// How many bytes wait in a client's outbox.
    pub fn waiting(&self, client: u32) -> u64
        requires { IsSome (outbox_of self.now client) }
        ensures { IsSomeAnd (outbox_of self.now client) (λ outbox. result ≡ length outbox.bytes) }
    {
        match self.outbox(client) {
            Some(outbox) => outbox.len() as u64,
            None => 0,
        }
    }

    /// How many frames were admitted.
    pub fn admitted(&self) -> u64
        ensures { result ≡ self.now.admitted }
    {
        self.admitted
    }

    /// Whether each open client has room for this many bytes more: the test of what `admit` asks for.
    pub fn each_has_room(&self, more: u64) -> bool
        ensures { IsTrue result ↔ EachHasRoom more self.now }
    {
        all_take(&self.clients, self.places.as_slice(), more)
    }

    /// Bytes from the front of a client's outbox, as many as stand together; none only where it is empty.
    pub fn front(&self, client: u32) -> &[u8]
        requires { IsSome (outbox_of self.now client) }
        ensures front { IsSomeAnd (outbox_of self.now client) (λ outbox. result.now ≡ take (length result.now) outbox.bytes) }
        ensures within { IsSomeAnd (outbox_of self.now client) (λ outbox. length result.now ≤ length outbox.bytes) }
        ensures some { IsSomeAnd (outbox_of self.now client) (λ outbox. length result.now ≡ 0 → length outbox.bytes ≡ 0) }
    {
        match self.outbox(client) {
            Some(outbox) => outbox.front(),
            None => &[],
        }
    }

    /// Takes bytes from the front of a client's outbox, since its link took them.
    pub fn took(&mut self, client: u32, count: usize)
        requires { IsSomeAnd (outbox_of self.old client) (λ outbox. count ≤ length outbox.bytes) }
        ensures { self.new ≡ changed client (without count) self.old }
    {
        self.clients[client as usize - 1].consume(count);
    }

    /// Whether one more client may connect: fewer came than may, and fewer are open than may be at once.
    pub fn has_place(&self) -> bool
        ensures { IsTrue result ↔ HasPlace self.now }
    {
        self.clients.len() < self.limit as usize && !self.free.is_empty()
    }

    /// Connects a client, and answers its number, from 1. Where no client is open it is handed the backlog.
    pub fn connect(&mut self) -> Result<u32, HubFault>
        ensures spent { (result ≡ Err HubFault.Spent) ↔ IsSpent self.old }
        ensures full { (result ≡ Err HubFault.Full) ↔ IsFull self.old }
        ensures refused { OnErr result (self.new ≡ self.old) }
        ensures number { IfOk result (λ number. number ≡ length self.old.clients + 1) }
        ensures admitted { self.new.admitted ≡ self.old.admitted }
        ensures same { IsSameHub self.old self.new }
        ensures adds { IfOk result (λ number. Adds (Connected number) self.old self.new) }
        ensures comes { OnOk result (Comes self.old self.new) }
    {
        let place = self.clients.len() as u32;
        if place == self.limit {
            return Err(HubFault::Spent);
        }
        let is_first = self.free.len() == OPEN_CLIENT_LIMIT;
        let Some(outbox) = self.free.pop() else {
            return Err(HubFault::Full);
        };
        let client = comer(&mut self.store, self.ecu, outbox, is_first);
        self.clients.push(client).unwrap();
        self.places.push(place);
        Ok(place + 1)
    }

    /// Admits a frame: each open client is sent it, and where none is open it waits in the backlog, or is refused there.
    pub fn admit(&mut self, frame: &[u8])
        requires room { EachHasRoom (length frame.now) self.old }
        requires size { (4 ≤ length frame.now) × (length frame.now ≤ frame_limit) }
        requires few { self.old.admitted < admitted_limit }
        ensures adds { Adds (Admitted frame.now) self.old self.new }
        ensures rooms { (more : ℕ) → EachHasRoom (length frame.now + more) self.old → EachHasRoom more self.new }
        ensures count { self.new.admitted ≡ self.old.admitted + 1 }
        ensures open { map is_open self.new.clients ≡ map is_open self.old.clients }
        ensures replies { replies_of self.new ≡ replies_of self.old }
        ensures same { IsSameHub self.old self.new }
    {
        if self.any_open() {
            self.send_each(frame);
        } else {
            self.keep(frame);
        }
    }

    /// Admits a frame where a client is open: it is put into the stream of each.
    fn send_each(&mut self, frame: &[u8])
        requires open { is_any_open self.old ≡ true }
        requires room { EachHasRoom (length frame.now) self.old }
        requires size { (4 ≤ length frame.now) × (length frame.now ≤ frame_limit) }
        requires few { self.old.admitted < admitted_limit }
        ensures adds { Adds (Admitted frame.now) self.old self.new }
        ensures rooms { (more : ℕ) → EachHasRoom (length frame.now + more) self.old → EachHasRoom more self.new }
        ensures count { self.new.admitted ≡ self.old.admitted + 1 }
        ensures open { map is_open self.new.clients ≡ map is_open self.old.clients }
        ensures replies { replies_of self.new ≡ replies_of self.old }
        ensures same { IsSameHub self.old self.new }
    {
        put_each(&mut self.clients, self.places.as_slice(), frame);
        self.admitted += 1;
    }

    /// Admits a frame where no client is open: it waits in the backlog, or is refused there.
    fn keep(&mut self, frame: &[u8])
        requires closed { is_any_open self.old ≡ false }
        requires size { (4 ≤ length frame.now) × (length frame.now ≤ frame_limit) }
        requires few { self.old.admitted < admitted_limit }
        ensures adds { Adds (Admitted frame.now) self.old self.new }
        ensures rooms { (more : ℕ) → EachHasRoom (length frame.now + more) self.old → EachHasRoom more self.new }
        ensures count { self.new.admitted ≡ self.old.admitted + 1 }
        ensures open { map is_open self.new.clients ≡ map is_open self.old.clients }
        ensures replies { replies_of self.new ≡ replies_of self.old }
        ensures same { IsSameHub self.old self.new }
    {
        self.store.admit(frame);
        self.admitted += 1;
    }

    /// Puts a reply into a client's stream.
    pub fn reply(&mut self, client: u32, frame: &[u8])
        requires room { HasRoom (length frame.now) self.old client }
        requires size { (4 ≤ length frame.now) × (length frame.now ≤ 65535) }
        requires few { IsSomeAnd (client_of self.old client) (λ c. c.replies < request_limit) }
        ensures adds { Adds (Reply client frame.now) self.old self.new }
        ensures value { self.new ≡ changed client (with_reply frame.now) self.old }
    {
        self.clients[client as usize - 1].add_reply(frame);
    }

    /// Ends a client's connection: what its link has not taken is dropped.
    pub fn close(&mut self, client: u32)
        requires { IsSome (outbox_of self.old client) }
        ensures adds { Adds (Closed client) self.old self.new }
        ensures value { self.new ≡ changed client shut self.old }
        ensures limit { IsSomeAnd (outbox_of self.old client) (λ outbox. outbox.capacity ≡ outbox_limit self.old.buffer) }
    {
        let place = client - 1;
        self.places.retain(|other| *other != place);
        if let Some(outbox) = self.clients[place as usize].close() {
            self.free.push(outbox).unwrap();
        }
    }

    /// Sends a client's outbox through its link, until nothing is left or the link takes nothing more.
    pub fn pump<L: Link>(&mut self, client: u32, link: &mut L) -> Pumped
        requires { IsSome (outbox_of self.old client) }
        ensures sent { Pumps client self.old self.new (L.told link.old) (L.told link.new) }
        ensures all { result ≡ Pumped.All → IsSomeAnd (outbox_of self.new client) (λ outbox. outbox.bytes ≡ []) }
        ensures some { result ≡ Pumped.Busy → IsSomeAnd (outbox_of self.new client) (λ outbox. 0 < length outbox.bytes) }
        ensures failed { result ≡ Pumped.Failed → IsSomeAnd (outbox_of self.new client) (λ outbox. 0 < length outbox.bytes) }
        ensures faults { HasFailed result (L.told link.old) (L.told link.new) }
        ensures waits { HasWaited result (L.told link.old) (L.told link.new) }
        ensures link { IsOnlySent (L.told link.old) (L.told link.new) }
    {
        loop {
            let piece = self.front(client);
            if piece.is_empty() {
                return Pumped::All;
            }
            match link.send(piece) {
                Sends::Bytes(count) => self.took(client, count),
                Sends::Busy => return Pumped::Busy,
                Sends::Failed => return Pumped::Failed,
            }
        }
    }

    /// How many frames and how many bytes were put into a client's stream.
    pub fn sent(&self, client: u32) -> (u64, u64)
        requires { (1 ≤ client) × (client ≤ length self.now.clients) }
        ensures { IsSomeAnd (client_of self.now client) (λ c. result ≡ (c.frames, c.bytes)) }
    {
        self.clients[client as usize - 1].put()
    }

    /// How many replies were put into a client's stream: 1,000 is the most.
    pub fn replies(&self, client: u32) -> u32
        requires { (1 ≤ client) × (client ≤ length self.now.clients) }
        ensures { IsSomeAnd (client_of self.now client) (λ c. result ≡ c.replies) }
    {
        self.clients[client as usize - 1].replies()
    }

    /// Whether a client may ask something: it is open, and was put fewer replies than it may be.
    pub fn may_ask(&self, client: u32) -> bool
        ensures { IsTrue result ↔ MayAsk self.now client }
    {
        match self.client(client) {
            Some(client) => client.is_open() && client.replies() < REQUEST_LIMIT,
            None => false,
        }
    }

    /// How many bytes a client's link had not taken when the client went.
    pub fn left(&self, client: u32) -> u64
        requires { (1 ≤ client) × (client ≤ length self.now.clients) }
        ensures { IsSomeAnd (client_of self.now client) (λ c. result ≡ c.left) }
    {
        self.clients[client as usize - 1].left()
    }

    /// How many bytes clients left that are gone, all together: what was put into their streams and not taken by their links, at most 2^64 - 1. It goes through
    /// all that came.
    pub fn untaken(&self) -> u64
        ensures { result ≡ left_by self.now.clients }
    {
        left_by(&self.clients)
    }

    /// Of how many messages the frames told that a client's link had not taken to their last byte when the client went.
    pub fn left_messages(&self, client: u32) -> u64
        requires { (1 ≤ client) × (client ≤ length self.now.clients) }
        ensures { IsSomeAnd (client_of self.now client) (λ c. result ≡ c.messages) }
    {
        self.clients[client as usize - 1].left_messages()
    }

    /// The same of all clients that are gone together, at most 2^64 - 1. It goes through all that came.
    pub fn untaken_messages(&self) -> u64
        ensures { result ≡ messages_left_by self.now.clients }
    {
        messages_left_by(&self.clients)
    }

    /// What waits for a client.
    pub fn backlog(&self) -> Backlog
        ensures { result ≡ record { frames = self.now.frames; bytes = length self.now.backlog; refused = self.now.refused } }
    {
        Backlog {
            frames: self.store.frames(),
            bytes: self.store.len(),
            refused: self.store.refused(),
        }
    }
}

/// Whether the clients at all these places can take this many bytes more.
fn all_take(clients: &[Client], places: &[u32], more: u64) -> bool
    ensures { result ≡ list_all (takes_at clients.now more) places.now }
{
    places.iter().all(|place| takes_at(clients, *place, more))
}

/// Whether the client at a place can take this many bytes more, or there is none.
fn takes_at(clients: &[Client], place: u32, more: u64) -> bool
    ensures { result ≡ takes_at clients.now more place }
{
    match clients.get(place as usize) {
        Some(client) => client.has_room(more),
        None => true,
    }
}

/// An empty outbox for each client that may be open at once.
fn outboxes(alloc: Global, capacity: usize) -> Result<Vec<Ring>, OutOfMemory>
    requires { capacity ≤ 2 ^ 40 }
    ensures many { IfOk result (λ free. length free.items ≡ open_client_limit) }
    ensures room { IfOk result (λ free. open_client_limit ≤ vec_capacity free) }
    ensures empty { IfOk result (λ free. All (λ r. (r.bytes ≡ []) × (r.capacity ≡ capacity) × (r.due ≡ []) × (r.begun ≡ [])) free.items) }
{
    let mut free = Vec::with_capacity(alloc, OPEN_CLIENT_LIMIT)?;
    for _i in 0..OPEN_CLIENT_LIMIT {
        free.push(Ring::make(alloc, capacity)?)?;
    }
    Ok(free)
}

/// A new client. The first of those that are open is handed what waits.
fn comer(store: &mut Store, ecu: Id, outbox: Ring, is_first: bool) -> Client
    requires empty { outbox.bytes ≡ [] }
    requires none { (outbox.due ≡ []) × (outbox.begun ≡ []) }
    requires refused { store.old.refused ≤ admitted_limit }
    requires frames { store.old.frames ≤ admitted_limit }
    requires room { length store.old.ring.bytes + size_of (overflow_frames ecu daemon_apid daemon_ctid store.old.refused) ≤ outbox.capacity }
    ensures client { result ≡ came is_first ecu outbox.capacity store.old }
    ensures left { store.new ≡ left_over is_first store.old }
{
    if is_first {
        store.hand_over(ecu, outbox)
    } else {
        Client::new(outbox)
    }
}

/// Puts a frame into the stream of each client that is open. These are the places of those.
fn put_each(clients: &mut [Client], places: &[u32], frame: &[u8])
    requires open { places.now ≡ places_of 0 (map is_open clients.old) }
    requires size { (4 ≤ length frame.now) × (length frame.now ≤ 65535) }
    requires room { All (λ c. IfSome c.outbox (λ r. length r.bytes + length frame.now ≤ r.capacity)) clients.old }
    requires counts { All (λ c. (c.frames < 2 ^ 63) × (c.bytes + length frame.now < 2 ^ 63)) clients.old }
    ensures { clients.new ≡ map (with_frame frame.now) clients.old }
{
    for place in places {
        clients[*place as usize].add(frame, 1);
    }
}

/// The first of these places that is not below this one.
fn first_from(places: &[u32], least: u32) -> Option<u32>
    ensures { result ≡ find (λ place. nat_le least place) places.now }
{
    places.iter().copied().find(|place| least <= *place)
}
