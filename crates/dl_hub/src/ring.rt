//! Frames that wait in a ring.

ghost use Rattle.std.specs.Prelude.{◌≡◌, ◌≤◌, ◌<◌, ◌↔◌, ◌^◌, ◌+◌, ◌-◌, ◌++◌, ◌∷◌, [], IfOk, length, take, drop};
ghost use Rattle.dl_hub.specs.State.{added, consumed, emptied};
ghost use Rattle.dl_hub.specs.Untaken.{AreDue, AreShort, in_front, messages_in, past};

use circular_buffer::HeapCircularBuffer;
use dl_bytes::OutOfMemory;
use std::alloc::Global;
use std::marker::Model;

/// The least bytes of a frame.
const LEAST_FRAME: usize = 4;

/// The most bytes of a frame: there is room for so many of the first one that were taken already.
const MOST_FRAME: usize = 65_535;

/// Frames that are added at the end, and bytes of them that are taken from the front. Of each frame it has how many bytes
/// are left, and of how many messages it tells; the first one it has whole until its last byte is taken. The ring takes its
/// memory once, in `make`, and no call moves what stays.
#[derive(Drop)]
pub struct Ring {
    inner: HeapCircularBuffer<u8>,
    due: HeapCircularBuffer<(u32, u32)>,
    begun: usize,
}

impl Model for Ring {
    ghost use Rattle.std.specs.Prelude.{◌-◌, ◌≤◌, drop, length, take};
    ghost use Rattle.dl_hub.specs.State.{Waiting};
    ghost use Rattle.dl_hub.specs.Untaken.{IsKept};

    ghost Value = { Waiting };

    ghost view = { λ r. record { bytes = drop r.begun r.inner.items; capacity = r.inner.capacity - 65535; due = r.due.items; begun = take r.begun r.inner.items } };

    ghost invariant = { λ r. IsKept r.begun (length r.inner.items - r.begun) (r.inner.capacity - 65535) r.due.items r.due.capacity
        × (r.begun ≤ length r.inner.items) × (65535 ≤ r.inner.capacity) };
}

impl Ring {
    /// An empty ring that can hold this many bytes.
    pub fn make(alloc: Global, capacity: usize) -> Result<Ring, OutOfMemory>
        requires { capacity ≤ 2 ^ 40 }
        ensures { IfOk result (λ ring. ring ≡ record { bytes = []; capacity = capacity; due = []; begun = [] }) }
    {
        let inner = HeapCircularBuffer::with_capacity(alloc, capacity + MOST_FRAME)?;
        let due = HeapCircularBuffer::with_capacity(alloc, capacity / LEAST_FRAME + 1)?;
        Ok(Ring {
            inner,
            due,
            begun: 0,
        })
    }

    /// How many bytes it holds.
    pub fn len(&self) -> usize
        ensures value { result ≡ length self.now.bytes }
        ensures within { (result ≤ self.now.capacity) × (self.now.capacity < 2 ^ 63) }
    {
        self.inner.len() - self.begun
    }

    /// How many more bytes it can hold.
    pub fn room(&self) -> usize
        ensures { result + length self.now.bytes ≡ self.now.capacity }
    {
        self.inner.capacity() - MOST_FRAME - self.len()
    }

    /// Of how many messages its frames tell, at most 2^64 - 1.
    pub fn messages(&self) -> u64
        ensures { result ≡ messages_in self.now.due }
    {
        let (first, second) = self.due.as_slices();
        messages_of(first).saturating_add(messages_of(second))
    }

    /// Adds a frame at the end, that tells of so many messages.
    pub fn push(&mut self, frame: &[u8], messages: u32)
        requires room { length self.old.bytes + length frame.now ≤ self.old.capacity }
        requires size { (4 ≤ length frame.now) × (length frame.now ≤ 65535) }
        ensures { self.new ≡ added frame.now ((length frame.now, messages) ∷ []) self.old }
    {
        let _all = self.inner.fill_from_slice(frame);
        let _fits = self.due.try_push_back((frame.len() as u32, messages));
    }

    /// Bytes from the front, as many as stand together; none only where there are none.
    pub fn front(&self) -> &[u8]
        ensures front { result.now ≡ take (length result.now) self.now.bytes }
        ensures within { length result.now ≤ length self.now.bytes }
        ensures some { length result.now ≡ 0 → length self.now.bytes ≡ 0 }
    {
        let (first, second) = self.inner.as_slices();
        if self.begun < first.len() {
            &first[self.begun..]
        } else {
            &second[self.begun - first.len()..]
        }
    }

    /// Takes this many bytes from the front.
    pub fn consume(&mut self, count: usize)
        requires { count ≤ length self.old.bytes }
        ensures { self.new ≡ consumed count self.old }
    {
        // what is begun and what goes is held, so that the sum fits
        let _held = self.inner.len();
        let taken = self.begun + count;
        self.begun = take_due(&mut self.due, self.begun, count);
        take_bytes(&mut self.inner, taken - self.begun);
    }

    /// Takes all bytes.
    pub fn clear(&mut self)
        ensures { self.new ≡ emptied self.old }
    {
        self.inner.clear();
        self.due.clear();
        self.begun = 0;
    }

    /// Takes all frames of another ring, of which none is begun, where it has none itself.
    pub fn take_over(&mut self, other: &mut Ring)
        requires empty { self.old.bytes ≡ [] }
        requires room { length other.old.bytes ≤ self.old.capacity }
        requires whole { other.old.begun ≡ [] }
        ensures all { self.new ≡ record { bytes = other.old.bytes; capacity = self.old.capacity; due = other.old.due; begun = [] } }
        ensures emptied { other.new ≡ emptied other.old }
    {
        let (first, second) = other.inner.as_slices();
        let _first = self.inner.fill_from_slice(first);
        let _second = self.inner.fill_from_slice(second);
        let (first_due, second_due) = other.due.as_slices();
        let _first_due = self.due.fill_from_slice(first_due);
        let _second_due = self.due.fill_from_slice(second_due);
        other.clear();
    }
}

/// Takes this many bytes from the front.
fn take_bytes(bytes: &mut HeapCircularBuffer<u8>, count: usize)
    requires { count ≤ length bytes.old.items }
    ensures { bytes.new ≡ record bytes.old { items = drop count bytes.old.items } }
{
    let left = bytes.len() - count;
    if left == 0 {
        // what comes next is put where these bytes stood, and not behind them
        bytes.clear();
    } else {
        bytes.truncate_front(left);
    }
}

/// Takes this many bytes from the front of frames, where so many of the first one were taken before: each frame whose last
/// byte is among them goes. It answers how many bytes were taken of the one that is first then.
fn take_due(due: &mut HeapCircularBuffer<(u32, u32)>, begun: usize, count: usize) -> usize
    requires large { AreDue 1 due.old.items }
    requires short { AreShort begun due.old.items }
    requires room { length due.old.items ≤ due.old.capacity }
    ensures due { due.new ≡ record due.old { items = past count due.old.items } }
    ensures front { result ≡ in_front begun count due.old.items }
{
    let mut begun = begun;
    let mut left = count;
    while left > 0 {
        let Some((bytes, messages)) = due.pop_front() else {
            return 0;
        };
        if left < bytes as usize {
            let _fits = due.try_push_front((bytes - left as u32, messages));
            return begun + left;
        }
        left -= bytes as usize;
        begun = 0;
    }
    begun
}

/// Of how many messages these frames tell.
#[tactic(auto, using(crate::proofs::Untaken::messages_one))]
fn messages_of(due: &[(u32, u32)]) -> u64
    ensures { result ≡ messages_in due.now }
{
    let mut messages: u64 = 0;
    for (_, told) in due {
        messages = messages.saturating_add(*told as u64);
    }
    messages
}
