//! Objects in memory. None fails by itself, but that a sink that keeps bytes may want memory, which it counts as a fault.

ghost use Rattle.std.specs.Prelude.{◌≡◌, ◌<◌, ◌⊎◌, min, [], length, Some, None};
ghost use Rattle.dl_outside.specs.Outside.{HasReadCause, HasWriteCause, Reads, Takes};
ghost use Rattle.dl_memory.specs.Kept.{next_piece};
ghost use Rattle.dl_outside.specs.declared.sink.Took.TheVariants as took;

use dl_outside::{Got, Sink, Source, Took};
use std::alloc::Global;
use std::marker::Model;

/// Bytes in memory, read in pieces.
#[derive(Drop)]
pub struct MemorySource {
    bytes: Vec<u8>,
    at: usize,
    piece: usize,
}

impl Model for MemorySource {
    ghost use Rattle.std.specs.Prelude.{◌≤◌, ◌<◌, drop, length};
    ghost use Rattle.dl_memory.specs.Kept.{Supply};

    ghost Value = { Supply };

    ghost view = { λ s. record { bytes = drop s.at s.bytes.items; piece = s.piece } };

    ghost invariant = { λ s. (s.at ≤ length s.bytes.items) × (0 < s.piece) };
}

impl MemorySource {
    /// A source of these bytes, which gives at most `piece` of them in one read.
    pub fn make(bytes: Vec<u8>, piece: usize) -> MemorySource
        requires { 0 < piece }
        ensures { result ≡ record { bytes = bytes.items; piece = piece } }
    {
        MemorySource {
            bytes,
            at: 0,
            piece,
        }
    }
}

impl Source for MemorySource {
    ghost told = { λ s. record { left = Some s.bytes; faults = 0 } };

    fn read(&mut self, into: &mut [u8]) -> Got
        requires { 0 < length into.old }
        ensures bytes { Reads (Some self.old.bytes) (Some self.new.bytes) result into.new }
        ensures cause { HasReadCause 0 0 result }
        ensures answer { result ≡ next_piece self.old (length into.old) }
        ensures piece { self.new.piece ≡ self.old.piece }
    {
        let rest = &self.bytes[self.at..];
        let n = rest.len().min(into.len()).min(self.piece);
        if n == 0 {
            return Got::End;
        }
        into[..n].copy_from_slice(&rest[..n]);
        self.at += n;
        Got::Bytes(n)
    }

    fn faults(&self) -> u64 {
        0
    }
}

/// A sink in memory, which takes at most so many bytes in one write. Its only fault is out of memory.
#[derive(Drop)]
pub struct MemorySink {
    bytes: Vec<u8>,
    piece: usize,
    faults: u64,
}

impl Model for MemorySink {
    ghost use Rattle.std.specs.Prelude.{◌<◌};
    ghost use Rattle.dl_memory.specs.Kept.{Kept};

    ghost Value = { Kept };

    ghost view = { λ s. record { bytes = s.bytes.items; piece = s.piece; faults = s.faults } };

    ghost invariant = { λ s. 0 < s.piece };
}

impl MemorySink {
    /// An empty sink.
    pub fn make(alloc: Global, piece: usize) -> MemorySink
        requires { 0 < piece }
        ensures { result ≡ record { bytes = []; piece = piece; faults = 0 } }
    {
        MemorySink {
            bytes: Vec::new(alloc),
            piece,
            faults: 0,
        }
    }

    /// What it holds.
    pub fn bytes(&self) -> &[u8]
        ensures { result.now ≡ self.now.bytes }
    {
        self.bytes.as_slice()
    }
}

impl Sink for MemorySink {
    ghost told = { λ s. record { held = Some s.bytes; faults = s.faults } };

    fn write(&mut self, piece: &[u8]) -> Took
        requires { 0 < length piece.now }
        ensures bytes { Takes (Some self.old.bytes) (Some self.new.bytes) result piece.now }
        ensures cause { HasWriteCause self.old.faults self.new.faults result }
        ensures answer { (result ≡ took.Failed) ⊎ (result ≡ took.Bytes (min (length piece.now) self.old.piece)) }
        ensures piece { self.new.piece ≡ self.old.piece }
    {
        let n = piece.len().min(self.piece);
        match self.bytes.extend_from_slice(&piece[..n]) {
            Ok(()) => Took::Bytes(n),
            Err(_) => {
                self.faults = self.faults.saturating_add(1);
                Took::Failed
            }
        }
    }

    fn faults(&self) -> u64 {
        self.faults
    }
}

/// A sink that takes everything and keeps nothing. It never fails.
#[derive(Clone, Copy)]
pub struct Discard;

impl Sink for Discard {
    ghost told = { λ _. record { held = None; faults = 0 } };

    fn write(&mut self, piece: &[u8]) -> Took {
        Took::Bytes(piece.len())
    }

    fn faults(&self) -> u64 {
        0
    }
}
