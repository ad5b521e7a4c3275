//! The seats of a net: which of its connections are open, and when something went through each of them last.

use dl_bytes::OutOfMemory;
use std::alloc::Global;
use std::sync::Arc;
use std::sync::atomic::{AtomicBool, AtomicU64, Ordering};
use std::time::{Clock, Duration};

/// How many connections may be open at once, and when one of them makes room for another that comes.
#[derive(Clone, Copy)]
pub struct SeatRule {
    /// How many may be open.
    pub most: usize,
    /// After how many milliseconds one makes room through which nothing went, where the other side never sent anything.
    pub silent: u64,
    /// After how many it does whatever the other side has sent, where it does at all.
    pub idle: Option<u64>,
}

/// How many connections made room for others. The net raises it, and who looks on reads it.
#[derive(Drop)]
pub struct MadeRoom {
    // none where there was no memory for it
    count: Option<Arc<AtomicU64, Global>>,
}

impl MadeRoom {
    /// None did.
    fn none(alloc: Global) -> MadeRoom {
        MadeRoom {
            count: Arc::new(alloc, AtomicU64::new(0)).ok(),
        }
    }

    /// The same count, for another one.
    pub fn shared(&self) -> MadeRoom {
        MadeRoom {
            count: match &self.count {
                Some(count) => Arc::try_clone(count).ok(),
                None => None,
            },
        }
    }

    /// One more does.
    fn raise(&self) {
        if let Some(count) = &self.count {
            count.fetch_add(1, Ordering::SeqCst);
        }
    }

    /// How many did.
    pub fn count(&self) -> u64 {
        match &self.count {
            Some(count) => count.load(Ordering::SeqCst),
            None => 0,
        }
    }
}

/// The time by the monotonic clock, in milliseconds. A clock that can't be read stands at 0.
pub fn millis<R: Clock>(rt: &R) -> u64 {
    let now = rt.monotonic().unwrap_or(Duration::ZERO);
    u64::try_from(now.as_millis()).unwrap_or(u64::MAX)
}

/// What a connection and its net know of it.
#[derive(Drop)]
struct State {
    // when something went through it last, in milliseconds of the monotonic clock
    moved: AtomicU64,
    has_sent: AtomicBool,
    is_sent_away: AtomicBool,
}

/// The seat of a connection, of which the net and, while it is open, the connection have an owner.
#[derive(Drop)]
pub struct Seat {
    state: Arc<State, Global>,
}

impl Seat {
    /// One of a connection that comes now.
    fn make(alloc: Global, now: u64) -> Result<Seat, OutOfMemory> {
        let state = State {
            moved: AtomicU64::new(now),
            has_sent: AtomicBool::new(false),
            is_sent_away: AtomicBool::new(false),
        };
        Ok(Seat {
            state: Arc::new(alloc, state)?,
        })
    }

    /// The connection's owner of it.
    fn share(&self) -> Option<Seat> {
        match Arc::try_clone(&self.state) {
            Ok(state) => Some(Seat { state }),
            Err(_) => None,
        }
    }

    /// Whether its connection is open.
    fn is_open(&self) -> bool {
        Arc::strong_count(&self.state) > 1
    }

    /// The connection took bytes.
    pub fn note_taken(&self, now: u64) {
        self.state.moved.store(now, Ordering::SeqCst);
    }

    /// The other side sent bytes.
    pub fn note_sent(&self, now: u64) {
        self.state.moved.store(now, Ordering::SeqCst);
        self.state.has_sent.store(true, Ordering::SeqCst);
    }

    /// Whether the connection is to end, to make room.
    pub fn is_sent_away(&self) -> bool {
        self.state.is_sent_away.load(Ordering::SeqCst)
    }

    /// For how long nothing went through it, where it is to make room after that.
    fn idle(&self, rule: &SeatRule, now: u64) -> Option<u64> {
        let idle = now.saturating_sub(self.state.moved.load(Ordering::SeqCst));
        let after = if self.state.has_sent.load(Ordering::SeqCst) {
            rule.idle?
        } else {
            rule.silent
        };
        if idle >= after { Some(idle) } else { None }
    }
}

/// What a connection that comes finds.
#[derive(Clone, Copy, Debug, PartialEq, Eq)]
pub enum Room {
    /// A seat.
    Free,
    /// One soon: a connection is ending to make room.
    Soon,
    /// None.
    None,
}

/// The seats of a net.
#[derive(Drop)]
pub struct Seats {
    alloc: Global,
    all: Vec<Seat>,
    rule: Option<SeatRule>,
    made_room: MadeRoom,
}

impl Seats {
    /// No connection is open, and nobody makes room.
    pub fn none(alloc: Global) -> Seats {
        Seats {
            alloc,
            all: Vec::new(alloc),
            rule: None,
            made_room: MadeRoom::none(alloc),
        }
    }

    /// From now on connections make room by this rule.
    pub fn obey(&mut self, rule: SeatRule) {
        self.rule = Some(rule);
    }

    /// How many connections made room, for who looks on.
    pub fn made_room(&self) -> MadeRoom {
        self.made_room.shared()
    }

    /// Whether no connection is open.
    pub fn are_empty(&self) -> bool {
        !self.all.iter().any(|seat| seat.is_open())
    }

    /// A connection has come. It has a seat, but where there is no memory for it.
    pub fn come(&mut self, now: u64) -> Option<Seat> {
        self.all.retain(|seat| seat.is_open());
        let seat = Seat::make(self.alloc, now).ok()?;
        let its = seat.share()?;
        self.all.push(seat).ok()?;
        Some(its)
    }

    /// Has the connection end through which nothing went for longest, where that is to make room. Answers whether there is one.
    fn send_away(&self, rule: &SeatRule, now: u64) -> bool {
        let mut longest: Option<(u64, &Seat)> = None;
        for seat in &self.all {
            if !seat.is_open() {
                continue;
            }
            let Some(idle) = seat.idle(rule, now) else {
                continue;
            };
            if longest.is_none_or(|(before, _)| idle > before) {
                longest = Some((idle, seat));
            }
        }
        match longest {
            Some((_, seat)) => {
                seat.state.is_sent_away.store(true, Ordering::SeqCst);
                self.made_room.raise();
                true
            }
            None => false,
        }
    }

    /// What a connection finds that comes now. Where all seats are taken, one that is to make room ends.
    pub fn room(&self, now: u64) -> Room {
        let Some(rule) = &self.rule else {
            return Room::Free;
        };
        let open = self.all.iter().filter(|seat| seat.is_open()).count();
        if open < rule.most {
            return Room::Free;
        }
        let is_ending = self
            .all
            .iter()
            .any(|seat| seat.is_open() && seat.is_sent_away());
        if is_ending || self.send_away(rule, now) {
            Room::Soon
        } else {
            Room::None
        }
    }
}
