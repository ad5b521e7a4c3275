//! The clients: what each of them sent, and the stream that its link took.

ghost use Rattle.std.specs.Prelude.{◌≡◌, ◌≤◌, ◌<◌, ◌++◌, ◌∷◌, [], ℕ, List, IfOk, OnOk, IfSome, IsSomeAnd, is_some, length, map};
ghost use Rattle.std.specs.List.{All, AllByRecursion, concat, filter};
ghost use Rattle.dl_bytes.specs.Cutting.{AreCut};
ghost use Rattle.dl_bytes.specs.Limits.{message_limit};
ghost use Rattle.dl_message.specs.Cut.{IsWholeMessage, rest_fault, rest_of};
ghost use Rattle.dl_message.specs.Cutting.{Begins};
ghost use Rattle.dl_message.specs.Requests.{asks};
ghost use Rattle.dl_core.specs.Serving.{IsRequest};
ghost use Rattle.dl_laws.specs.Frames.{TellsLen};
ghost use Rattle.dl_world.specs.Fed.{Asks, IsFedBy, Stands, made_whole};
ghost use Rattle.dl_world.specs.State.{HasSent, client_at, with_client, with_cutter, with_frames, new_client, cutters_of};

use dl_bytes::{Bytes, MESSAGE_LIMIT, OutOfMemory, Sequence};
use dl_laws::add_frames;
use dl_message::{Cut, Cutter, read_message};
use std::alloc::Global;
use std::marker::Model;

/// A client.
#[derive(Drop)]
pub struct Client {
    cutter: Cutter,
    frames: Vec<Bytes>,
}

impl Model for Client {
    ghost use Rattle.std.specs.Prelude.{◌≡◌};
    ghost use Rattle.dl_bytes.specs.Limits.{message_limit};
    ghost use Rattle.dl_world.specs.State as state;

    ghost Value = { state.Client };

    ghost view = { λ c. record { cutter = c.cutter; frames = c.frames.items } };

    ghost invariant = { λ c. c.cutter.limit ≡ message_limit };
}

impl Client {
    /// A client that sent nothing, and was sent nothing.
    pub fn make(alloc: Global) -> Result<Client, OutOfMemory>
        ensures value { IfOk result (λ client. client ≡ new_client) }
    {
        Ok(Client {
            cutter: Cutter::make(alloc, MESSAGE_LIMIT)?,
            frames: Vec::new(alloc),
        })
    }

    /// Takes bytes that the client sent, and adds a copy of each request that they make whole. Answers whether what is left shows a
    /// bad header.
    fn cut(
        &mut self,
        alloc: Global,
        bytes: &[u8],
        requests: &mut Vec<Bytes>,
    ) -> Result<bool, OutOfMemory>
        ensures asks { IfOk result (λ bad. (stream : List ℕ) → IsFedBy stream self.old.cutter → Asks stream bytes.now bad requests.old.items requests.new.items self.new.cutter) }
        ensures each { OnOk result (All IsRequest requests.old.items → All IsRequest requests.new.items) }
        ensures frames { self.new.frames ≡ self.old.frames }
    {
        feed(alloc, &mut self.cutter, bytes, requests)?;
        Ok(is_bad(&mut self.cutter))
    }
}

/// Whether a bad header stands in front of what is left.
fn is_bad(cutter: &mut Cutter) -> bool
    ensures limit { cutter.new.limit ≡ cutter.old.limit }
    ensures stands { (stream : List ℕ) → IsFedBy stream cutter.old → IsFedBy stream cutter.new }
    ensures bad { (stream : List ℕ) → IsFedBy stream cutter.old → result ≡ is_some (rest_fault message_limit (rest_of message_limit stream)) }
{
    matches!(cutter.next(), Cut::Bad(_))
}

/// Feeds a cutter, and adds a copy of each request that is whole.
fn feed(
    alloc: Global,
    cutter: &mut Cutter,
    bytes: &[u8],
    requests: &mut Vec<Bytes>,
) -> Result<(), OutOfMemory>
    requires { cutter.old.limit ≡ message_limit }
    ensures limit { cutter.new.limit ≡ message_limit }
    ensures fed { OnOk result ((stream : List ℕ) → IsFedBy stream cutter.old → IsFedBy (stream ++ bytes.now) cutter.new) }
    ensures asks { OnOk result ((stream : List ℕ) → IsFedBy stream cutter.old → requests.new.items ≡ requests.old.items ++ made_whole stream bytes.now) }
    ensures each { OnOk result (All IsRequest requests.old.items → All IsRequest requests.new.items) }
{
    let mut rest = bytes;
    while !rest.is_empty() {
        let taken = cutter.feed(rest);
        if taken == 0 {
            // It takes nothing more after a bad header.
            return Ok(());
        }
        rest = &rest[taken..];
        cut_whole(alloc, cutter, requests)?;
    }
    Ok(())
}

/// Adds a copy of each request that is whole.
fn cut_whole(
    alloc: Global,
    cutter: &mut Cutter,
    requests: &mut Vec<Bytes>,
) -> Result<(), OutOfMemory>
    requires { cutter.old.limit ≡ message_limit }
    ensures limit { cutter.new.limit ≡ message_limit }
    ensures gives { OnOk result ((given : List (List ℕ)) × AreCut (Begins message_limit) cutter.old.unread given cutter.new.unread
        × (requests.new.items ≡ requests.old.items ++ filter asks given)) }
    ensures stops { OnOk result (Stands cutter.new) }
    ensures each { OnOk result (All IsRequest requests.old.items → All IsRequest requests.new.items) }
{
    while let Cut::Message = cutter.next() {
        let message = cutter.message();
        if is_request(message) {
            requests.push(Bytes::over(Vec::from_slice(alloc, message)?))?;
        }
    }
    Ok(())
}

/// Whether a whole message asks for something.
fn is_request(message: &[u8]) -> bool
    requires { IsWholeMessage message_limit message.now }
    ensures { result ≡ asks message.now }
{
    match read_message(message) {
        Ok(parts) => parts.is_request(),
        Err(_) => false,
    }
}

/// All clients that came, by their numbers from 1.
#[derive(Drop)]
pub struct Clients {
    items: Vec<Client>,
}

impl Model for Clients {
    ghost use Rattle.std.specs.Prelude.{List, length, ◌≤◌};
    ghost use Rattle.dl_world.specs.State as state;

    ghost Value = { List state.Client };

    ghost view = { λ c. c.items.items };

    ghost invariant = { λ c. length c.items.items ≤ 32 };
}

impl Clients {
    /// Nobody came.
    pub fn none(alloc: Global) -> Clients
        ensures { result ≡ [] }
    {
        Clients {
            items: Vec::new(alloc),
        }
    }

    /// How many came.
    pub fn len(&self) -> u32
        ensures value { result ≡ length self.now }
        ensures range { result ≤ 32 }
    {
        self.items.len() as u32
    }

    /// One more comes.
    pub fn add(&mut self, client: Client) -> Result<(), OutOfMemory>
        requires { length self.old < 32 }
        ensures { OnOk result (self.new ≡ self.old ++ client ∷ []) }
    {
        self.items.push(client)?;
        Ok(())
    }

    /// Takes bytes that a client sent, and adds a copy of each request that they make whole. Answers whether what is left shows a
    /// bad header.
    pub fn cut(
        &mut self,
        alloc: Global,
        client: u32,
        bytes: &[u8],
        requests: &mut Vec<Bytes>,
    ) -> Result<bool, OutOfMemory>
        requires known { (1 ≤ client) × (client ≤ length self.old) }
        ensures asks { IfOk result (λ bad. (stream : List ℕ) → HasSent stream (client_at self.old client)
            → IfSome (client_at self.new client) (λ c. Asks stream bytes.now bad requests.old.items requests.new.items c.cutter)) }
        ensures each { OnOk result (All IsRequest requests.old.items → All IsRequest requests.new.items) }
        ensures others { OnOk result (IsSomeAnd (client_at self.new client) (λ c. self.new ≡ with_client client (with_cutter c.cutter) self.old)) }
    {
        self.items[client as usize - 1].cut(alloc, bytes, requests)
    }

    /// The link of a client takes these frames.
    pub fn add_frames(
        &mut self,
        alloc: Global,
        client: u32,
        bytes: Vec<u8>,
    ) -> Result<(), OutOfMemory>
        requires known { (1 ≤ client) × (client ≤ length self.old) }
        ensures frames { OnOk result ((parts : List (List ℕ)) → AllByRecursion TellsLen parts → bytes.items ≡ concat parts
            → self.new ≡ with_client client (with_frames parts) self.old) }
        ensures cutters { cutters_of self.new ≡ cutters_of self.old }
    {
        add_frames(alloc, bytes, &mut self.items[client as usize - 1].frames)
    }

    /// The frames of each, in order.
    pub fn into_streams(self, alloc: Global) -> Result<Sequence<Sequence<Bytes>>, OutOfMemory>
        ensures streams { IfOk result (λ streams. streams ≡ map (λ client. client.frames) self) }
        ensures limit { IfOk result (λ streams. length streams ≤ 32) }
    {
        let mut streams = Vec::with_capacity(alloc, self.items.len())?;
        for client in self.items {
            streams.push(Sequence::over(client.frames))?;
        }
        Ok(Sequence::over(streams))
    }
}
