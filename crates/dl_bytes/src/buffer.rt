//! The bounded buffer of a stream that comes in any pieces and goes on in whole messages.

ghost use Rattle.std.specs.Prelude.{◌≡◌, ◌≤◌, ◌+◌, ◌-◌, ◌++◌, [], length, min, take, drop, IfOk};

use crate::OutOfMemory;
use std::alloc::Global;
use std::marker::Model;

/// Bytes of a stream that are fed at the end and consumed from the front. It takes memory once, in `make`.
///
/// To consume costs the same however many bytes stay. Consumed bytes give their room back only when `compact` moves
/// what stayed to the front: call it when what is held is no whole message, and each byte of the stream is moved
/// at most once.
#[derive(Drop)]
pub struct Buffer {
    bytes: Vec<u8>,
    /// How many of the bytes are consumed.
    consumed: usize,
    capacity: usize,
}

impl Model for Buffer {
    ghost use Rattle.std.specs.Prelude.{◌≤◌, ◌-◌, length, drop, vec_capacity};
    ghost use Rattle.dl_bytes.specs.Buffer.{Held};

    ghost Value = { Held };

    ghost view = { λ b. record {
      bytes = drop b.consumed b.bytes.items;
      room = b.capacity - length b.bytes.items;
      capacity = b.capacity;
    } };

    ghost invariant = { λ b. (b.consumed ≤ length b.bytes.items) × (length b.bytes.items ≤ b.capacity)
        × (b.capacity ≤ vec_capacity b.bytes) };
}

impl Buffer {
    /// An empty buffer that can hold this many bytes.
    pub fn make(alloc: Global, capacity: usize) -> Result<Buffer, OutOfMemory>
        ensures { IfOk result (λ buffer. buffer ≡ record { bytes = []; room = capacity; capacity = capacity }) }
    {
        Ok(Buffer {
            bytes: Vec::with_capacity(alloc, capacity)?,
            consumed: 0,
            capacity,
        })
    }

    /// The bytes fed and not consumed.
    pub fn bytes(&self) -> &[u8]
        ensures value { result.now ≡ self.now.bytes }
        ensures limit { length self.now.bytes + self.now.room ≤ self.now.capacity }
    {
        &self.bytes[self.consumed..]
    }

    /// How many more bytes a feed takes, until the next `compact`.
    pub fn room(&self) -> usize
        ensures { result ≡ self.now.room }
    {
        self.capacity - self.bytes.len()
    }

    /// Takes as many of the first bytes of the piece as there is room for, and answers how many.
    pub fn feed(&mut self, piece: &[u8]) -> usize
        ensures count { result ≡ min (length piece.now) self.old.room }
        ensures taken { self.new ≡ record {
          bytes = self.old.bytes ++ take result piece.now;
          room = self.old.room - result;
          capacity = self.old.capacity;
        } }
    {
        let count = piece.len().min(self.room());
        self.bytes.extend_from_slice(&piece[..count]).unwrap();
        count
    }

    /// Drops this many bytes from the front.
    pub fn consume(&mut self, count: usize)
        requires { count ≤ length self.old.bytes }
        ensures { self.new ≡ record {
          bytes = drop count self.old.bytes;
          room = self.old.room;
          capacity = self.old.capacity;
        } }
    {
        self.consumed += count;
    }

    /// Makes room for as many bytes as it can hold beside those that it holds. What is held stays.
    pub fn compact(&mut self)
        ensures { self.new ≡ record {
          bytes = self.old.bytes;
          room = self.old.capacity - length self.old.bytes;
          capacity = self.old.capacity;
        } }
    {
        if self.consumed > 0 {
            let len = self.bytes.len() - self.consumed;
            self.bytes.copy_within(self.consumed.., 0);
            self.bytes.truncate(len);
            self.consumed = 0;
        }
    }
}
