//! What the system tells of sockets: which of them something has happened to since it was asked last.
//!
//! The sockets of a daemon are in one set of the system's (`epoll`), each once, for what it gives and for what it takes. The set tells of changes alone: of
//! bytes that come, of room that there is again, of an end, an error or a new connection, once each. So a wait on it ends at once where anything has
//! changed since the last wait, also before it began; and what has not changed doesn't end it again, as an end or an error that nobody reads.

use dl_bytes::OutOfMemory;
use mio::unix::SourceFd;
use mio::{Interest, Registry, Token};
use std::alloc::Global;
use std::os::fd::RawFd;
use std::sync::Arc;
use std::sync::atomic::{AtomicBool, AtomicU64, Ordering};

/// For how many descriptors it is kept when something happened to them. Those whose numbers differ by as many share one place: what happens to one of
/// them has the others asked too, for nothing.
const PLACES: usize = 64;

/// How long the next rest may be.
#[derive(Clone, Copy, Debug, PartialEq, Eq)]
pub enum Rest {
    /// Something moved in the round before it, so that more may be there to be moved: it doesn't wait.
    None,
    /// Something is to be asked again of which the system doesn't tell.
    Short,
    /// The system tells of all that may come.
    Long,
}

/// What all share that look at one set.
#[derive(Drop)]
struct Kept {
    registry: Registry,
    // how often news was taken so far
    takes: AtomicU64,
    // for each place, the take that last told something of it
    news: Vec<AtomicU64>,
    // the last take that waited and was told nothing
    vain: AtomicU64,
    // whether a link or a listener moved something in this round
    has_moved: AtomicBool,
    // whether the next rest is to be short
    is_soon: AtomicBool,
    // whether there is a socket of which the system doesn't tell
    is_blind: AtomicBool,
}

/// What the system has told of the sockets of a daemon. Its nets, their connections and who looks on each have an owner of the same.
#[derive(Drop)]
pub struct Readiness {
    kept: Arc<Kept, Global>,
}

impl Readiness {
    /// Nothing was told so far of the sockets of this set.
    pub fn over(alloc: Global, registry: Registry) -> Result<Readiness, OutOfMemory> {
        let mut news = Vec::with_capacity(alloc, PLACES)?;
        for _ in 0..PLACES {
            news.push(AtomicU64::new(0))?;
        }
        let kept = Kept {
            registry,
            takes: AtomicU64::new(0),
            news,
            vain: AtomicU64::new(0),
            has_moved: AtomicBool::new(false),
            is_soon: AtomicBool::new(false),
            is_blind: AtomicBool::new(false),
        };
        Ok(Readiness {
            kept: Arc::new(alloc, kept)?,
        })
    }

    /// Another owner of the same. Where memory runs out for it, rests are short from then on: who has none is told nothing.
    pub fn share(&self) -> Option<Readiness> {
        match Arc::try_clone(&self.kept) {
            Ok(kept) => Some(Readiness { kept }),
            Err(_) => {
                self.be_blind();
                None
            }
        }
    }

    /// There is something of which the system doesn't tell.
    fn be_blind(&self) {
        self.kept.is_blind.store(true, Ordering::SeqCst);
    }

    /// Has the system tell of this descriptor until it is closed, and answers what it tells; or nothing where it doesn't: rests are short from then on.
    pub fn watch(&self, fd: RawFd) -> Option<Readiness> {
        let both = Interest::READABLE | Interest::WRITABLE;
        let token = Token(place(fd));
        match self.kept.registry.register(&mut SourceFd(&fd), token, both) {
            Ok(()) => self.share(),
            Err(_) => {
                self.be_blind();
                None
            }
        }
    }

    /// How often news was taken so far.
    pub fn takes(&self) -> u64 {
        self.kept.takes.load(Ordering::SeqCst)
    }

    /// The take that last told something of this descriptor, or 0.
    pub fn news(&self, fd: RawFd) -> u64 {
        match self.kept.news.get(place(fd)) {
            Some(take) => take.load(Ordering::SeqCst),
            None => 0,
        }
    }

    /// The last take that waited and was told nothing, or 0.
    pub fn vain(&self) -> u64 {
        self.kept.vain.load(Ordering::SeqCst)
    }

    /// News is taken once more. Answers how often it was, with this time.
    pub fn begin_take(&self) -> u64 {
        self.kept
            .takes
            .fetch_add(1, Ordering::SeqCst)
            .wrapping_add(1)
    }

    /// This take told something of a descriptor.
    pub fn tell(&self, token: Token, take: u64) {
        if let Some(last) = self.kept.news.get(token.0) {
            last.store(take, Ordering::SeqCst);
        }
    }

    /// This take waited, and was told nothing.
    pub fn tell_nothing(&self, take: u64) {
        self.kept.vain.store(take, Ordering::SeqCst);
    }

    /// A round begins, in which nothing has moved so far.
    pub fn begin_round(&self) {
        self.kept.has_moved.store(false, Ordering::SeqCst);
    }

    /// Something moved: a connection gave or took bytes, or one came.
    pub fn move_on(&self) {
        self.kept.has_moved.store(true, Ordering::SeqCst);
    }

    /// Something is to be asked again soon, though the system may not tell of it.
    pub fn ask_soon(&self) {
        self.kept.is_soon.store(true, Ordering::SeqCst);
    }

    /// How long the rest may be that begins.
    pub fn begin_rest(&self) -> Rest {
        let has_moved = self.kept.has_moved.swap(false, Ordering::SeqCst);
        let is_soon = self.kept.is_soon.swap(false, Ordering::SeqCst);
        if has_moved {
            Rest::None
        } else if is_soon || self.kept.is_blind.load(Ordering::SeqCst) {
            Rest::Short
        } else {
            Rest::Long
        }
    }
}

/// The place of a descriptor.
fn place(fd: RawFd) -> usize {
    usize::try_from(fd).unwrap_or(0) % PLACES
}
