//! What a log call carries: the bytes of its arguments, and how many arguments they are.

ghost use Rattle.std.specs.Prelude.{◌≡◌, ◌<◌, ◌≤◌, ◌+◌, ◌-◌, ◌++◌, [], length};

use arrayvec::ArrayVec;
use std::marker::Model;

/// The arguments of a log call as a message carries them, kept in place.
#[derive(Drop)]
pub struct Payload {
    bytes: ArrayVec<u8, 1390>,
    args: u8,
}

impl Model for Payload {
    ghost use Rattle.std.specs.Prelude.{◌≤◌, length};
    ghost use Rattle.dl_bytes.specs.Payload.{Arguments};

    ghost Value = { Arguments };

    ghost view = { λ p. record { bytes = p.bytes.items; args = p.args } };

    ghost invariant = { λ p. length p.bytes.items ≤ 1390 };
}

impl Payload {
    /// No argument.
    pub fn new() -> Payload
        ensures { result ≡ record { bytes = []; args = 0 } }
    {
        Payload {
            bytes: ArrayVec::new(),
            args: 0,
        }
    }

    /// So many arguments, of these bytes. No memory is taken.
    pub fn of(bytes: &[u8], args: u8) -> Payload
        requires { length bytes.now ≤ 1390 }
        ensures { result ≡ record { bytes = bytes.now; args = args } }
    {
        let mut payload = Payload::new();
        payload.extend_from_slice(bytes);
        payload.args = args;
        payload
    }

    /// The arguments' bytes.
    pub fn bytes(&self) -> &[u8]
        ensures value { result.now ≡ self.now.bytes }
        ensures limit { length self.now.bytes ≤ 1390 }
    {
        self.bytes.as_slice()
    }

    /// How many arguments there are: the field NOAR.
    pub fn args(&self) -> u8
        ensures { result ≡ self.now.args }
    {
        self.args
    }

    /// The same arguments once more: the bytes are copied, with no memory taken.
    pub fn copy(&self) -> Payload
        ensures { result ≡ self.now }
    {
        Payload::of(self.bytes(), self.args)
    }

    /// Takes all arguments out.
    pub fn clear(&mut self)
        ensures { self.new ≡ record { bytes = []; args = 0 } }
    {
        self.bytes.clear();
        self.args = 0;
    }

    /// How many more bytes it can take.
    pub fn room(&self) -> usize
        ensures value { result + length self.now.bytes ≡ 1390 }
    {
        self.bytes.remaining_capacity()
    }

    /// Adds bytes of an argument that is being written.
    pub fn extend_from_slice(&mut self, bytes: &[u8])
        requires { length self.old.bytes + length bytes.now ≤ 1390 }
        ensures { self.new ≡ record { bytes = self.old.bytes ++ bytes.now; args = self.old.args } }
    {
        self.bytes.try_extend_from_slice(bytes).unwrap();
    }

    /// Counts an argument whose bytes are all there.
    pub fn count_argument(&mut self)
        requires { self.old.args < 255 }
        ensures { self.new ≡ record { bytes = self.old.bytes; args = self.old.args + 1 } }
    {
        self.args += 1;
    }
}
