//! What is found of a message that is asked for.

use crate::seen::{Hit, Seen, Spot};
use dl_sessions::Since;

/// What records tell of messages that are not here.
#[derive(Clone, Copy, PartialEq, Eq)]
pub struct Reports {
    /// How many the ring of the application lost.
    pub ring: u64,
    /// How many the daemon's buffer refused, of all applications.
    pub buffer: u64,
    /// How many were not stored while the trace had ended, of all applications.
    pub unstored: u64,
    /// Where the last of these records stands.
    pub last: Option<Spot>,
}

/// Messages that are missing where the question points.
#[derive(Clone, Copy, PartialEq, Eq)]
pub struct Hole {
    /// The message before it.
    pub before: Seen,
    /// The message behind it.
    pub behind: Seen,
    /// How many counters were passed over: modulo 256.
    pub missing: u8,
    /// The number of the message behind it, from 1.
    pub number: u64,
    /// What reports between the two tell.
    pub told: Reports,
}

/// Messages that are missing, and what records tell of them.
#[derive(Clone, Copy, PartialEq, Eq)]
pub struct Gone {
    /// The messages round them.
    pub hole: Hole,
    /// What records tell.
    pub told: Reports,
    /// Whether records of the application tell of no other messages: its session counts them all.
    pub is_own: bool,
    /// Whether the one that is asked for passed its level, as far as it was logged.
    pub has_passed: bool,
}

/// The messages that pass a test.
#[derive(Clone, Copy, PartialEq, Eq)]
pub struct Track {
    /// How many there are.
    pub messages: u64,
    /// The first.
    pub first: Option<Seen>,
    /// The last.
    pub last: Option<Seen>,
    /// How often the session changes.
    pub changes: u64,
    /// How often the time steps back.
    pub backs: u64,
    /// How often the counter is met again or steps back where the context changes.
    pub returns: u64,
    /// How many holes there are where the question points.
    pub holes: u64,
    /// The first of them.
    pub hole: Option<Hole>,
    /// What reports tell since the last message.
    pub since: Reports,
    /// What reports tell right behind that hole's last message, before the next one.
    pub behind: Reports,
}

/// Two accounts that a program gave of the context's calls, one behind the other, with the moment that is asked for between them.
#[derive(Clone, Copy)]
pub struct Book {
    /// The first of the two.
    pub before: Seen,
    /// The second one, which tells of the calls between them.
    pub behind: Seen,
    /// What is here of the context between the two.
    pub since: Since,
    /// How many accounts of the session are missing before the second one, by their counter.
    pub lacking: u64,
}

/// The accounts that a program gave of the context's calls.
#[derive(Clone, Copy)]
pub struct Books {
    /// What came of the context since the last account of it.
    pub since: Since,
    /// What came of the session's accounts.
    pub own: Since,
    /// The last account of the context.
    pub last: Option<Seen>,
    /// The first two between which the question points.
    pub book: Option<Book>,
    /// The first one at or behind the time that is asked for.
    pub next: Option<Seen>,
}

/// What is found of a message that is asked for.
#[derive(Drop)]
pub struct Finding {
    /// How many messages are what is asked for.
    pub hits: u64,
    /// The first of them.
    pub hit: Option<Hit>,
    /// The first message of any session.
    pub start: Option<Seen>,
    /// The messages of the application, or of its session where one is named.
    pub session: Track,
    /// Those of the context.
    pub context: Track,
    /// How many messages of the context go on from the session's last counter, and not from the context's.
    pub of_session: u64,
    /// The accounts of the context.
    pub books: Books,
}
