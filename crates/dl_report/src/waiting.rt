//! What a buffer keeps of the frames that come while nobody listens, by numbers alone.

ghost use Rattle.std.specs.Prelude.{◌≡◌, ◌+◌, ◌-◌, ◌≤◌, ◌<◌, ◌^◌, ◌++◌, ◌==◌, ℕ, List, if◌then◌else◌};
ghost use Rattle.dl_report.specs.Batches.{IsBatch, IsMost};
ghost use Rattle.dl_report.specs.Keeping.{counted, kept};

use crate::batch::Batch;
use dl_bytes::Backlog;

/// Nothing waits, and nothing was refused.
const EMPTY: Backlog = Backlog {
    frames: 0,
    bytes: 0,
    refused: 0,
};

/// The backlog, and how many clients are open: while one is, nothing waits.
#[derive(Clone, Copy, PartialEq, Eq)]
pub struct Waiting {
    /// How many bytes the buffer keeps at most.
    pub limit: u32,
    /// How many clients are open.
    pub clients: u64,
    /// What the buffer keeps, and how many frames it refused.
    pub backlog: Backlog,
}

/// How many of the frames have room in so many bytes.
fn fitting(batch: Batch, room: u64) -> u64
    ensures { IsMost batch room result }
{
    if batch.size == 0 {
        batch.frames
    } else {
        batch.frames.min(room / batch.size)
    }
}

impl Waiting {
    /// Nobody came, and nothing waits.
    pub fn new(limit: u32) -> Waiting
        ensures { result ≡ record { limit = limit; clients = 0; backlog = record { frames = 0; bytes = 0; refused = 0 } } }
    {
        Waiting {
            limit,
            clients: 0,
            backlog: EMPTY,
        }
    }

    /// A client comes: what waited is handed to it.
    pub fn come(&mut self)
        requires { self.old.clients < 2 ^ 64 - 1 }
        ensures { self.new ≡ record self.old { clients = self.old.clients + 1; backlog = record { frames = 0; bytes = 0; refused = 0 } } }
    {
        self.clients += 1;
        self.backlog = EMPTY;
    }

    /// A client goes: what is admitted from now on waits, where it was the last one.
    pub fn go(&mut self)
        requires { 0 < self.old.clients }
        ensures { self.new ≡ record self.old { clients = self.old.clients - 1; backlog = record { frames = 0; bytes = 0; refused = 0 } } }
    {
        self.clients -= 1;
        self.backlog = EMPTY;
    }

    /// Frames are admitted: they wait where no client is open.
    pub fn admit(&mut self, batch: Batch)
        requires within { self.old.backlog.bytes ≤ self.old.limit }
        requires few { counted self.old.backlog + batch.frames < 2 ^ 64 }
        ensures limit { self.new.limit ≡ self.old.limit }
        ensures clients { self.new.clients ≡ self.old.clients }
        ensures within { self.new.backlog.bytes ≤ self.new.limit }
        ensures count { counted self.new.backlog ≤ counted self.old.backlog + batch.frames }
        ensures waits { (frames more : List (List ℕ)) → self.old.backlog ≡ kept self.old.limit frames → IsBatch batch more
            → self.new.backlog ≡ kept self.old.limit (if self.old.clients == 0 then frames ++ more else frames) }
    {
        if self.clients == 0 {
            self.keep(batch);
        }
    }

    /// Keeps the frames that have room, up to the first one that has none: it is refused, and so is each one behind it.
    fn keep(&mut self, batch: Batch)
        requires within { self.old.backlog.bytes ≤ self.old.limit }
        requires few { counted self.old.backlog + batch.frames < 2 ^ 64 }
        ensures limit { self.new.limit ≡ self.old.limit }
        ensures clients { self.new.clients ≡ self.old.clients }
        ensures within { self.new.backlog.bytes ≤ self.new.limit }
        ensures count { counted self.new.backlog ≤ counted self.old.backlog + batch.frames }
        ensures waits { (frames more : List (List ℕ)) → self.old.backlog ≡ kept self.old.limit frames → IsBatch batch more
            → self.new.backlog ≡ kept self.old.limit (frames ++ more) }
    {
        let room = self.limit as u64 - self.backlog.bytes;
        let fits = if self.backlog.refused == 0 {
            fitting(batch, room)
        } else {
            0
        };
        self.backlog.frames += fits;
        self.backlog.bytes += fits * batch.size;
        self.backlog.refused += batch.frames - fits;
    }
}
