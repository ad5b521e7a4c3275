//! How long an object rests where nothing is to be done.

ghost use Rattle.std.specs.Prelude.{◌≡◌, ◌<◌, ◌≤◌, true, false};

use std::thread;
use std::time::{Clock, Duration};

/// How many rests in a row are short.
const SHORT_RESTS: u32 = 100;

/// How long a short rest is, in milliseconds.
const SHORT: u64 = 1;

/// How long a rest is once nothing has happened for long, in milliseconds.
const LONG: u64 = 5;

/// How many rests in a row are short or long: some five seconds of them.
const AWAKE_RESTS: u32 = 1100;

/// How long a rest is once nothing has happened for longer, and nobody is there who could be kept waiting, in milliseconds.
const LONGEST: u64 = 20;

/// How often an object rested since something happened.
#[derive(Clone, Copy)]
pub struct Resting {
    rests: u32,
    is_resting: bool,
}

impl Resting {
    /// Nothing has rested so far.
    pub fn none() -> Resting {
        Resting {
            rests: 0,
            is_resting: false,
        }
    }

    /// Something happened.
    pub fn end(&mut self) {
        self.rests = 0;
    }

    /// A round begins. Where nobody rested since the last one began, something happened in that. Answers whether somebody did.
    pub fn begin_round(&mut self) -> bool
        ensures { result ≡ self.old.is_resting }
    {
        let has_rested = self.is_resting;
        if !has_rested {
            self.rests = 0;
        }
        self.is_resting = false;
        has_rested
    }

    /// How long the next rest is, in milliseconds.
    pub fn next(&mut self, is_alone: bool) -> u64
        ensures short { self.old.rests < 100 → result ≡ 1 }
        ensures long { 100 ≤ self.old.rests → self.old.rests < 1100 → result ≡ 5 }
        ensures attended { 1100 ≤ self.old.rests → is_alone ≡ false → result ≡ 5 }
        ensures alone { 1100 ≤ self.old.rests → is_alone ≡ true → result ≡ 20 }
    {
        self.is_resting = true;
        let rests = self.rests;
        self.rests = AWAKE_RESTS.min(rests.saturating_add(1));
        if rests < SHORT_RESTS {
            SHORT
        } else if rests < AWAKE_RESTS || !is_alone {
            LONG
        } else {
            LONGEST
        }
    }

    /// Rests beside somebody who may be kept waiting.
    pub fn rest<R: Clock>(&mut self, rt: &R) {
        sleep(rt, self.next(false));
    }
}

/// Rests for so many milliseconds, whatever comes.
pub fn sleep<R: Clock>(rt: &R, millis: u64) {
    thread::sleep(rt, Duration::from_millis(millis));
}
