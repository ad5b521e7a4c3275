//! Gates that hold workers, for tests of what runs beside what.

use crate::sign::Sign;
use dl_bytes::OutOfMemory;
use dl_outside::Gate;
use std::alloc::Global;
use std::sync::atomic::{AtomicBool, Ordering};

/// A call of a worker: the number of its writer, from 1, and that of the call, from 1.
#[derive(Clone, Copy, PartialEq, Eq)]
pub struct Passing {
    /// The writer's number.
    pub writer: u8,
    /// The call's number.
    pub call: u64,
}

/// A gate that holds each of two workers before a call of its own until the other has come to its own, for so many turns
/// at most.
#[derive(Drop)]
pub struct MeetingGate {
    first: Passing,
    second: Passing,
    turns: u64,
    first_came: Sign,
    second_came: Sign,
    has_failed: AtomicBool,
}

impl MeetingGate {
    /// A gate at which these two are to meet.
    pub fn make(
        alloc: Global,
        first: Passing,
        second: Passing,
        turns: u64,
    ) -> Result<MeetingGate, OutOfMemory> {
        let first_came = Sign::make(alloc)?;
        let second_came = Sign::make(alloc)?;
        Ok(MeetingGate {
            first,
            second,
            turns,
            first_came,
            second_came,
            has_failed: AtomicBool::new(false),
        })
    }

    /// Whether both came, and neither waited in vain.
    pub fn has_met(&self) -> bool {
        self.first_came.is_given()
            && self.second_came.is_given()
            && !self.has_failed.load(Ordering::SeqCst)
    }

    /// One has come, and waits for the other.
    fn meet(&self, came: &Sign, other: &Sign) {
        came.give();
        if !other.wait(self.turns) {
            self.has_failed.store(true, Ordering::SeqCst);
        }
    }
}

impl Gate for MeetingGate {
    fn pass(&self, writer: u8, call: u64) {
        let passing = Passing { writer, call };
        if passing == self.first {
            self.meet(&self.first_came, &self.second_came);
        } else if passing == self.second {
            self.meet(&self.second_came, &self.first_came);
        }
    }
}

/// A gate that holds one worker before a call until a sign is given, for so many turns at most.
#[derive(Drop)]
pub struct SignGate {
    held: Passing,
    sign: Sign,
    turns: u64,
    was_met: AtomicBool,
}

impl SignGate {
    /// A gate that holds this call until this sign.
    pub fn make(held: Passing, sign: Sign, turns: u64) -> SignGate {
        SignGate {
            held,
            sign,
            turns,
            was_met: AtomicBool::new(false),
        }
    }

    /// Whether the worker came, and the sign with it.
    pub fn was_met(&self) -> bool {
        self.was_met.load(Ordering::SeqCst)
    }
}

impl Gate for SignGate {
    fn pass(&self, writer: u8, call: u64) {
        if (Passing { writer, call }) == self.held && self.sign.wait(self.turns) {
            self.was_met.store(true, Ordering::SeqCst);
        }
    }
}
