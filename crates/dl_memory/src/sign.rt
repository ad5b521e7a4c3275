//! A sign that threads share.

use dl_bytes::OutOfMemory;
use std::alloc::Global;
use std::sync::Arc;
use std::sync::atomic::{AtomicBool, Ordering};
use std::thread;

/// A sign that one thread gives and others look for. Once given, it stays.
#[derive(Drop)]
pub struct Sign {
    given: Arc<AtomicBool, Global>,
}

impl Sign {
    /// A sign that isn't given yet.
    pub fn make(alloc: Global) -> Result<Sign, OutOfMemory> {
        let given = Arc::new(alloc, AtomicBool::new(false))?;
        Ok(Sign { given })
    }

    /// The same sign, for another owner.
    pub fn share(&self) -> Result<Sign, OutOfMemory> {
        let given = Arc::try_clone(&self.given)?;
        Ok(Sign { given })
    }

    /// Gives the sign.
    pub fn give(&self) {
        self.given.store(true, Ordering::SeqCst);
    }

    /// Whether it was given.
    pub fn is_given(&self) -> bool {
        self.given.load(Ordering::SeqCst)
    }

    /// Waits for the sign, for so many turns at most, and tells whether it came. Each turn lets another thread run.
    pub fn wait(&self, turns: u64) -> bool {
        for _ in 0..turns {
            if self.is_given() {
                return true;
            }
            thread::yield_now();
        }
        self.is_given()
    }
}
