//! Connections in memory.

ghost use Rattle.std.specs.Prelude.{◌≡◌, ◌≤◌, [], false, IfOk, Some};
ghost use Rattle.std.specs.Vec.{vec_capacity};
ghost use Rattle.dl_memory.specs.Wire.{is_over};

use crate::Failing;
use dl_bytes::OutOfMemory;
use dl_outside::{Gave, Link, Sends};
use std::alloc::Global;
use std::marker::Model;

/// What a connection in memory does with one call.
#[derive(Clone, Copy, PartialEq, Eq)]
pub enum Turn {
    /// At most so many bytes go through; with 0 it is as `NotNow`.
    AtMost(usize),
    /// Nothing goes through: the answer is `NotYet`, or `Busy`.
    NotNow,
}

/// How a connection in memory behaves, call by call. Once its turns are over, each call gives or takes all that it can.
#[derive(Drop)]
pub struct Manner {
    /// What each call of `recv` does, in order.
    pub gives: Vec<Turn>,
    /// What each call of `send` does, in order.
    pub takes: Vec<Turn>,
    /// The numbers of the calls, from 1, that fail where the connection is one of a `MemoryNet`.
    pub fails: Vec<u64>,
}

impl Manner {
    /// The manner of a connection that gives and takes all that it can, and never fails.
    pub fn plain(alloc: Global) -> Manner {
        Manner {
            gives: Vec::new(alloc),
            takes: Vec::new(alloc),
            fails: Vec::new(alloc),
        }
    }
}

/// A connection in memory. It never fails. It has room for so many bytes, and takes no more; what it took can be read.
/// Its input is over once all of it was given and, if the peer leaves after so many bytes, once it took as many.
#[derive(Drop)]
pub struct MemoryLink {
    input: Vec<u8>,
    at: usize,
    leave: Option<u64>,
    taken: Vec<u8>,
    room: usize,
    gives: Vec<Turn>,
    takes: Vec<Turn>,
    reads: usize,
    writes: usize,
    idles: u64,
    waits: u64,
    is_shut: bool,
}

impl Model for MemoryLink {
    ghost use Rattle.std.specs.Prelude.{◌≤◌, ◌<◌, drop, length, take, vec_len};
    ghost use Rattle.std.specs.Vec.{vec_capacity};
    ghost use Rattle.dl_memory.specs.Wire.{Wire};

    ghost Value = { Wire };

    ghost view = { λ l. record {
      left = drop l.at l.input.items;
      given = take l.at l.input.items;
      taken = l.taken.items;
      leave = l.leave;
      room = l.room;
      idles = l.idles;
      waits = l.waits;
      is_shut = l.is_shut;
    } };

    ghost invariant = { λ l. (l.at ≤ length l.input.items) × (vec_len l.taken ≤ l.room) × (l.room ≤ vec_capacity l.taken) };
}

/// The next entry of a list of turns, as a number of bytes; all, once they are over.
fn limit(turns: &[Turn], turn: usize) -> usize {
    match turns.get(turn) {
        Some(Turn::AtMost(bytes)) => *bytes,
        Some(Turn::NotNow) => 0,
        None => usize::MAX,
    }
}

impl MemoryLink {
    /// A connection of a client that sends these bytes, and leaves once it read so many, if it does. It has room for
    /// `room` bytes; that memory is taken here.
    pub fn make(
        alloc: Global,
        sends: Vec<u8>,
        leave: Option<u64>,
        room: usize,
        manner: Manner,
    ) -> Result<MemoryLink, OutOfMemory>
        ensures { IfOk result (λ link. link ≡ record {
          left = sends.items;
          given = [];
          taken = [];
          leave = leave;
          room = room;
          idles = 0;
          waits = 0;
          is_shut = false;
        }) }
    {
        let taken = Vec::with_capacity(alloc, room)?;
        Ok(MemoryLink {
            input: sends,
            at: 0,
            leave,
            taken,
            room,
            gives: manner.gives,
            takes: manner.takes,
            reads: 0,
            writes: 0,
            idles: 0,
            waits: 0,
            is_shut: false,
        })
    }

    /// What it took so far.
    pub fn taken(&self) -> &[u8]
        ensures { result.now ≡ self.now.taken }
    {
        self.taken.as_slice()
    }

    /// Whether its input is over.
    fn is_over(&self) -> bool
        ensures { result ≡ is_over self.now }
    {
        match self.leave {
            Some(bytes) => self.at == self.input.len() && bytes <= self.taken.len() as u64,
            None => false,
        }
    }
}

impl Link for MemoryLink {
    ghost told = { λ l. record {
      left = Some l.left;
      over = Some (is_over l);
      given = Some l.given;
      taken = Some l.taken;
      faults = 0;
      idles = l.idles;
      waits = l.waits;
      is_shut = l.is_shut;
    } };

    fn recv(&mut self, into: &mut [u8]) -> Gave {
        if self.is_over() {
            return Gave::End;
        }
        let rest = &self.input[self.at..];
        let n = limit(&self.gives, self.reads)
            .min(rest.len())
            .min(into.len());
        self.reads = self.reads.saturating_add(1);
        if n == 0 || self.is_shut {
            self.idles = self.idles.saturating_add(1);
            return Gave::NotYet;
        }
        into[..n].copy_from_slice(&rest[..n]);
        self.at += n;
        Gave::Bytes(n)
    }

    fn send(&mut self, piece: &[u8]) -> Sends {
        let free = self.room - self.taken.len();
        let n = limit(&self.takes, self.writes).min(piece.len()).min(free);
        self.writes = self.writes.saturating_add(1);
        if n == 0 || self.is_shut {
            self.waits = self.waits.saturating_add(1);
            return Sends::Busy;
        }
        // There is room for these.
        let _ = self.taken.extend_from_slice(&piece[..n]);
        Sends::Bytes(n)
    }

    fn shut(&mut self) {
        self.is_shut = true;
    }

    fn rest(&mut self) {}

    fn faults(&self) -> u64 {
        0
    }

    fn idles(&self) -> u64 {
        self.idles
    }

    fn waits(&self) -> u64 {
        self.waits
    }
}

/// A connection that waits for its accept, with its memory taken.
#[derive(Drop)]
pub struct Prepared {
    pub sends: Vec<u8>,
    pub leave: Option<u64>,
    pub taken: Vec<u8>,
    pub room: usize,
    pub manner: Manner,
    ghost empty: { taken.items ≡ [] },
    ghost fits: { room ≤ vec_capacity taken },
}

impl Prepared {
    ghost use Rattle.dl_memory.specs.Clients.{link_of};

    /// The connection.
    pub fn open(self) -> Failing<MemoryLink>
        ensures { result ≡ link_of self }
    {
        let Prepared {
            sends,
            leave,
            taken,
            room,
            manner,
        } = self;
        let Manner {
            gives,
            takes,
            fails,
        } = manner;
        let link = MemoryLink {
            input: sends,
            at: 0,
            leave,
            taken,
            room,
            gives,
            takes,
            reads: 0,
            writes: 0,
            idles: 0,
            waits: 0,
            is_shut: false,
        };
        Failing::make(link, fails)
    }
}
