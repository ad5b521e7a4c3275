//! Files in one piece of memory, in the order of their names.

ghost use Rattle.std.specs.Prelude.{◌≡◌, ◌<◌, ◌≤◌, ◌+◌, ◌-◌, ◌^◌, ◌++◌, Some, length, sum_by, take, drop, vec_len};
ghost use Rattle.std.specs.Vec.{vec_capacity};
ghost use Rattle.dl_memory.specs.Shelf.{IsWithin, place_of, size_of};

use arrayvec::ArrayString;
use std::cmp::Ordering;

/// The most bytes of a name.
pub const NAME_LIMIT: usize = 255;

/// A file: its name, and how many bytes it has.
#[derive(Drop)]
pub struct Entry {
    pub name: ArrayString<NAME_LIMIT>,
    pub size: usize,
}

/// Where a name stands among the entries, or where it would.
#[derive(Clone, Copy)]
pub struct Place {
    /// How many entries come before it.
    pub index: usize,
    /// How many bytes these have.
    pub start: usize,
    /// How many bytes the file has, where there is one.
    pub size: Option<usize>,
}

/// The place of a name.
#[tactic(auto, using(crate::proofs::Shelves::is_within))]
pub fn find(entries: &[Entry], name: &str) -> Place
    requires { sum_by size_of entries.now < 2 ^ 64 }
    ensures place { result ≡ place_of name.now entries.now }
    ensures within { IsWithin (length entries.now) (sum_by size_of entries.now) result }
{
    let mut start = 0;
    for (index, entry) in entries.iter().enumerate() {
        match name.cmp(entry.name.as_str()) {
            Ordering::Less => {
                return Place {
                    index,
                    start,
                    size: None,
                };
            }
            Ordering::Equal => {
                return Place {
                    index,
                    start,
                    size: Some(entry.size),
                };
            }
            Ordering::Greater => start += entry.size,
        }
    }
    Place {
        index: entries.len(),
        start,
        size: None,
    }
}

/// Takes so many bytes out of a list.
pub fn cut(bytes: &mut Vec<u8>, start: usize, count: usize)
    requires { start + count ≤ vec_len bytes.old }
    ensures rest { bytes.new.items ≡ take start bytes.old.items ++ drop (start + count) bytes.old.items }
    ensures len { length bytes.new.items + count ≡ length bytes.old.items }
    ensures room { vec_capacity bytes.new ≡ vec_capacity bytes.old }
{
    let kept = bytes.len() - count;
    bytes[start..].rotate_left(count);
    bytes.truncate(kept);
}

/// Puts bytes into a list, which has room for them.
pub fn paste(bytes: &mut Vec<u8>, start: usize, piece: &[u8])
    requires within { start ≤ vec_len bytes.old }
    requires fits { vec_len bytes.old + length piece.now ≤ vec_capacity bytes.old }
    ensures whole { bytes.new.items ≡ take start bytes.old.items ++ (piece.now ++ drop start bytes.old.items) }
    ensures len { length bytes.new.items ≡ length bytes.old.items + length piece.now }
    ensures room { vec_capacity bytes.old ≤ vec_capacity bytes.new }
{
    let _ = bytes.extend_from_slice(piece);
    bytes[start..].rotate_right(piece.len());
}
