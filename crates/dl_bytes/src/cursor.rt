//! Numbers and bytes, one after the other, from the front of a slice.

ghost use Rattle.std.specs.Prelude.{◌≡◌, IfSome, OnSome, IfNone, length};
ghost use Rattle.dl_bytes.specs.Number.{At, at, Gives, bytes_at, number_at};

use crate::id::Id;
use byteorder::{BigEndian, ByteOrder, LittleEndian};

/// The byte order of numbers: the bit MSBF of a standard header says which a payload has.
#[derive(Clone, Copy, PartialEq, Eq)]
pub enum Order {
    /// Lowest byte first.
    Little,
    /// Highest byte first.
    Big,
}

/// What is left to read, with the order of its numbers. A read takes the value from the front, and gives nothing
/// where too few bytes are left: then the cursor stays where it was.
#[derive(Clone, Copy)]
pub struct Cursor<'a> {
    /// What is left to read.
    pub rest: &'a [u8],
    /// The byte order of its numbers.
    pub order: Order,
}

impl<'a> Cursor<'a> {
    /// The next `n` bytes.
    pub fn bytes(&mut self, n: usize) -> Option<&'a [u8]>
        ensures read { Gives (λ x. x.now) result self.new (bytes_at n (at self.old)) }
        ensures len { IfSome result (λ x. length x.now ≡ n) }
        ensures refused { IfNone result (self.new ≡ self.old) }
    {
        if self.rest.len() < n {
            return None;
        }
        let (front, rest) = self.rest.split_at(n);
        self.rest = rest;
        Some(front)
    }

    /// The next byte.
    pub fn u8(&mut self) -> Option<u8>
        ensures read { Gives (λ x. x) result self.new (number_at 1 (at self.old)) }
        ensures refused { IfNone result (self.new ≡ self.old) }
    {
        let front = self.bytes(1)?;
        Some(front[0])
    }

    /// The next two bytes as a number.
    pub fn u16(&mut self) -> Option<u16>
        ensures read { Gives (λ x. x) result self.new (number_at 2 (at self.old)) }
        ensures refused { IfNone result (self.new ≡ self.old) }
    {
        let front = self.bytes(2)?;
        Some(match self.order {
            Order::Little => LittleEndian::read_u16(front),
            Order::Big => BigEndian::read_u16(front),
        })
    }

    /// The next four bytes as a number.
    pub fn u32(&mut self) -> Option<u32>
        ensures read { Gives (λ x. x) result self.new (number_at 4 (at self.old)) }
        ensures refused { IfNone result (self.new ≡ self.old) }
    {
        let front = self.bytes(4)?;
        Some(match self.order {
            Order::Little => LittleEndian::read_u32(front),
            Order::Big => BigEndian::read_u32(front),
        })
    }

    /// The next eight bytes as a number.
    pub fn u64(&mut self) -> Option<u64>
        ensures read { Gives (λ x. x) result self.new (number_at 8 (at self.old)) }
        ensures refused { IfNone result (self.new ≡ self.old) }
    {
        let front = self.bytes(8)?;
        Some(match self.order {
            Order::Little => LittleEndian::read_u64(front),
            Order::Big => BigEndian::read_u64(front),
        })
    }

    /// The next sixteen bytes as a number.
    pub fn u128(&mut self) -> Option<u128>
        ensures read { Gives (λ x. x) result self.new (number_at 16 (at self.old)) }
        ensures refused { IfNone result (self.new ≡ self.old) }
    {
        let front = self.bytes(16)?;
        Some(match self.order {
            Order::Little => LittleEndian::read_u128(front),
            Order::Big => BigEndian::read_u128(front),
        })
    }

    /// The next four bytes as an id.
    pub fn id(&mut self) -> Option<Id>
        ensures read { Gives (λ x. x) result self.new (bytes_at 4 (at self.old)) }
        ensures refused { IfNone result (self.new ≡ self.old) }
    {
        let front = self.bytes(4)?;
        Some(Id::from_bytes([front[0], front[1], front[2], front[3]]))
    }
}
