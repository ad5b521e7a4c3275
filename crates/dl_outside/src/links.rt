//! The connections of a daemon, by number.

ghost use Rattle.std.specs.Prelude.{◌≡◌, ◌-◌, ◌<◌, ◌≤◌, ◌++◌, ◌∷◌, [], IfOk, length, slice_get, Some};
ghost use Rattle.std.specs.Borrow.{sem};
ghost use Rattle.dl_outside.specs.Lends.{LendsLink};

use dl_bytes::OutOfMemory;
use std::alloc::Global;
use std::marker::Model;

/// Links with the numbers 1, 2 and so on, in memory that was taken beforehand.
#[derive(Drop)]
pub struct LinkList<L> {
    links: Vec<L>,
    room: u32,
}

impl<L> Model for LinkList<L> {
    ghost use Rattle.std.specs.Prelude.{◌≤◌, ◌<◌, ◌^◌, vec_len};
    ghost use Rattle.std.specs.Vec.{vec_capacity};
    ghost use Rattle.dl_outside.specs.Links.{Links};

    ghost Value = { Links L };

    ghost view = { λ l. record { links = l.links.items; room = l.room } };

    ghost invariant = { λ l. (l.room ≤ vec_capacity l.links) × (vec_len l.links ≤ l.room) × (l.room < 2 ^ 32) };
}

impl<L> LinkList<L> {
    /// An empty list with no room. It takes no memory.
    pub fn none(alloc: Global) -> LinkList<L>
        ensures { result ≡ record { links = []; room = 0 } }
    {
        LinkList {
            links: Vec::new(alloc),
            room: 0,
        }
    }

    /// An empty list with room for so many links.
    pub fn make(alloc: Global, room: u32) -> Result<LinkList<L>, OutOfMemory>
    where
        L: Drop,
        ensures { IfOk result (λ list. list ≡ record { links = []; room = room }) }
    {
        let links = Vec::with_capacity(alloc, room as usize)?;
        Ok(LinkList { links, room })
    }

    /// How many links there are.
    pub fn len(&self) -> u32
        ensures { result ≡ length self.now.links }
    {
        self.links.len() as u32
    }

    /// The link of this number, from 1.
    pub fn of(&self, number: u32) -> &L
        requires from_one { 1 ≤ number }
        requires within { number ≤ length self.now.links }
        ensures { slice_get self.now.links (number - 1) ≡ Some result.now }
    {
        &self.links[number as usize - 1]
    }

    /// The link of this number, from 1, to call it.
    pub fn of_mut(&mut self, number: u32) -> &mut L
        requires from_one { 1 ≤ number }
        requires within { number ≤ length self.old.links }
        ensures value { slice_get self.old.links (number - 1) ≡ Some result.now }
        ensures* writes_back { sem 𝓛 (LendsLink L.row self.entry number result) }
    {
        &mut self.links[number as usize - 1]
    }

    /// Puts a link at the end. It takes no memory.
    pub fn add(&mut self, link: L)
    where
        L: Drop,
        requires { length self.old.links < self.old.room }
        ensures { self.new ≡ record { links = self.old.links ++ link ∷ []; room = self.old.room } }
    {
        let _ = self.links.push(link);
    }
}
