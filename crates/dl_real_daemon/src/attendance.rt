//! Clients in threads of their own: how many have gone, and how many bytes they have read.

use dl_bytes::OutOfMemory;
use std::alloc::Global;
use std::sync::Arc;
use std::sync::atomic::{AtomicU64, Ordering};
use std::thread;
use std::time::{Clock, Duration};

/// What clients and their net share.
#[derive(Drop)]
struct Counts {
    gone: AtomicU64,
    read: AtomicU64,
}

/// How many clients have gone, and how many bytes these have read. Clients and their net each have an owner.
#[derive(Drop)]
pub struct Attendance {
    counts: Arc<Counts, Global>,
}

impl Attendance {
    /// Nobody has gone.
    pub fn none(alloc: Global) -> Result<Attendance, OutOfMemory> {
        let counts = Counts {
            gone: AtomicU64::new(0),
            read: AtomicU64::new(0),
        };
        Ok(Attendance {
            counts: Arc::new(alloc, counts)?,
        })
    }

    /// Another owner of the same counts.
    pub fn share(&self) -> Result<Attendance, OutOfMemory> {
        Ok(Attendance {
            counts: Arc::try_clone(&self.counts)?,
        })
    }

    /// A client goes that has read so many bytes.
    pub fn go(&self, read: u64) {
        self.counts.read.fetch_add(read, Ordering::SeqCst);
        self.counts.gone.fetch_add(1, Ordering::SeqCst);
    }

    /// Waits until so many clients have gone, for so many milliseconds at most, and tells how many bytes these have read.
    pub fn wait<R: Clock>(&self, rt: &R, clients: u64, most: u64) -> u64 {
        for _ in 0..most {
            if self.counts.gone.load(Ordering::SeqCst) >= clients {
                break;
            }
            thread::sleep(rt, Duration::from_millis(1));
        }
        self.counts.read.load(Ordering::SeqCst)
    }
}
