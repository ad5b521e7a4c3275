//! A whole message as it is sent, from its standard header on.

ghost use Rattle.std.specs.Prelude.{◌≡◌, ◌≤◌, ◌+◌, ◌++◌, [], length};

use arrayvec::ArrayVec;
use std::marker::Model;

/// A message's bytes, kept in place: standard header, extended header and payload.
#[derive(Drop)]
pub struct Frame {
    bytes: ArrayVec<u8, 1984>,
}

impl Model for Frame {
    ghost use Rattle.std.specs.Prelude.{List, ℕ, ◌≤◌, length};

    ghost Value = { List ℕ };

    ghost view = { λ f. f.bytes.items };

    ghost invariant = { λ f. length f.bytes.items ≤ 1984 };
}

impl Frame {
    /// A frame with nothing in it yet.
    pub fn new() -> Frame
        ensures { result ≡ [] }
    {
        Frame {
            bytes: ArrayVec::new(),
        }
    }

    /// The bytes written so far.
    pub fn bytes(&self) -> &[u8]
        ensures value { result.now ≡ self.now }
        ensures limit { length self.now ≤ 1984 }
    {
        self.bytes.as_slice()
    }

    /// Takes all bytes out.
    pub fn clear(&mut self)
        ensures { self.new ≡ [] }
    {
        self.bytes.clear();
    }

    /// How many more bytes it can take.
    pub fn room(&self) -> usize
        ensures { result + length self.now ≡ 1984 }
    {
        self.bytes.remaining_capacity()
    }

    /// Adds bytes at the end.
    pub fn extend_from_slice(&mut self, bytes: &[u8])
        requires { length self.old + length bytes.now ≤ 1984 }
        ensures { self.new ≡ self.old ++ bytes.now }
    {
        self.bytes.try_extend_from_slice(bytes).unwrap();
    }
}
