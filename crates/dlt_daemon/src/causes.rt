//! Why clients and external applications have disconnected, counted, and in words.

use dl_bytes::TraceEnd;
use dl_channel::ChannelEnd;
use dl_daemon::ChannelEnds;
use dl_events::Closes;

/// Why one has disconnected.
#[derive(Clone, Copy, PartialEq, Eq)]
pub enum Cause {
    Left,
    Broken,
    Slow,
    Malformed,
    TooMany,
    BadMessage,
    NoMemory,
    SessionEnded,
}

impl Cause {
    /// It in words.
    pub fn words(self) -> &'static str {
        match self {
            Cause::Left => "left",
            Cause::Broken => "broken",
            Cause::Slow => "too slow",
            Cause::Malformed => "malformed header",
            Cause::TooMany => "too many requests",
            Cause::BadMessage => "bad message",
            Cause::NoMemory => "out of memory",
            Cause::SessionEnded => "session ended",
        }
    }

    /// That of an external application.
    pub fn of(end: ChannelEnd) -> Cause {
        match end {
            ChannelEnd::Left => Cause::Left,
            ChannelEnd::Broken => Cause::Broken,
            ChannelEnd::Bad(_) => Cause::BadMessage,
            ChannelEnd::Slow => Cause::Slow,
            ChannelEnd::NoMemory => Cause::NoMemory,
        }
    }
}

/// How many have disconnected for a cause, at two moments.
#[derive(Clone, Copy)]
pub struct Count {
    pub cause: Cause,
    pub before: u64,
    pub now: u64,
}

/// The count of a cause.
fn counted(cause: Cause, before: u64, now: u64) -> Count {
    Count { cause, before, now }
}

/// How clients have disconnected, by cause.
pub fn closed(before: Closes, now: Closes) -> [Count; 6] {
    [
        counted(Cause::Left, before.left, now.left),
        counted(Cause::Broken, before.broken, now.broken),
        counted(Cause::Slow, before.slow, now.slow),
        counted(Cause::Malformed, before.malformed, now.malformed),
        counted(Cause::TooMany, before.too_many, now.too_many),
        counted(Cause::NoMemory, before.no_memory, now.no_memory),
    ]
}

/// How external applications have disconnected, by cause.
pub fn ended(before: ChannelEnds, now: ChannelEnds) -> [Count; 5] {
    [
        counted(Cause::Left, before.left, now.left),
        counted(Cause::Broken, before.broken, now.broken),
        counted(Cause::BadMessage, before.bad, now.bad),
        counted(Cause::Slow, before.slow, now.slow),
        counted(Cause::NoMemory, before.no_memory, now.no_memory),
    ]
}

/// Why a trace has ended, in words.
pub fn trace_cause(end: TraceEnd) -> &'static str {
    match end {
        TraceEnd::Failed => "a file could not be written",
        TraceEnd::Spent => "file 999999 is full",
        TraceEnd::NoMemory => "out of memory",
    }
}
