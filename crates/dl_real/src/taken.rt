//! How often a file that was written was taken away by somebody else.

use std::alloc::Global;
use std::sync::Arc;
use std::sync::atomic::{AtomicU64, Ordering};

/// A count of the files that were taken away, or replaced, while they were kept open to be added to. The folder raises it, and who looks on reads it.
#[derive(Drop)]
pub struct Taken {
    // none where there was no memory for it
    count: Option<Arc<AtomicU64, Global>>,
}

impl Taken {
    /// None was taken away. Where there is no memory, none is counted.
    pub fn none(alloc: Global) -> Taken {
        Taken {
            count: Arc::new(alloc, AtomicU64::new(0)).ok(),
        }
    }

    /// The same count, for another one.
    pub fn shared(&self) -> Taken {
        Taken {
            count: match &self.count {
                Some(count) => Arc::try_clone(count).ok(),
                None => None,
            },
        }
    }

    /// One more was taken away.
    pub fn raise(&self) {
        if let Some(count) = &self.count {
            count.fetch_add(1, Ordering::SeqCst);
        }
    }

    /// How many were taken away so far.
    pub fn count(&self) -> u64 {
        match &self.count {
            Some(count) => count.load(Ordering::SeqCst),
            None => 0,
        }
    }
}
