//! A clock and a dial in memory.

ghost use Rattle.std.specs.Prelude.{◌≡◌, ◌<◌, ◌==◌, [], Some, if◌then◌else◌};

use crate::memory::MemorySource;
use dl_bytes::Moment;
use dl_outside::{Clock, Dial, DialFault};
use std::alloc::Global;
use std::marker::Model;

/// A clock that stands.
#[derive(Clone, Copy)]
pub struct StandingClock {
    /// What it always tells.
    pub moment: Moment,
}

impl Clock for StandingClock {
    fn now(&self) -> Moment {
        self.moment
    }
}

/// A dial in memory: one port gives bytes, every other one none. It never fails.
#[derive(Drop)]
pub struct MemoryDial {
    alloc: Global,
    port: u16,
    bytes: Vec<u8>,
    piece: usize,
}

impl Model for MemoryDial {
    ghost use Rattle.std.specs.Prelude.{◌<◌};
    ghost use Rattle.dl_memory.specs.Kept.{Served};

    ghost Value = { Served };

    ghost view = { λ d. record { port = d.port; bytes = d.bytes.items } };

    ghost invariant = { λ d. 0 < d.piece };
}

impl MemoryDial {
    /// A dial whose port gives these bytes, in pieces of at most so many.
    pub fn make(alloc: Global, port: u16, bytes: Vec<u8>, piece: usize) -> MemoryDial
        requires { 0 < piece }
        ensures { result ≡ record { port = port; bytes = bytes.items } }
    {
        MemoryDial {
            alloc,
            port,
            bytes,
            piece,
        }
    }

    /// What a port gives.
    fn served(&self, port: u16) -> &[u8]
        ensures { result.now ≡ (if port == self.now.port then self.now.bytes else []) }
    {
        if port == self.port {
            self.bytes.as_slice()
        } else {
            &[]
        }
    }
}

impl Dial for MemoryDial {
    type S = MemorySource;

    ghost told = { λ d. record { serves = Some (λ port. if port == d.port then d.bytes else []); faults = 0 } };

    fn dial(&mut self, port: u16) -> Result<MemorySource, DialFault> {
        match Vec::from_slice(self.alloc, self.served(port)) {
            Ok(bytes) => Ok(MemorySource::make(bytes, self.piece)),
            Err(_) => Err(DialFault::OutOfMemory),
        }
    }

    fn faults(&self) -> u64 {
        0
    }
}
