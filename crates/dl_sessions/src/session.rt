//! Plain types: sessions and applications, what a message tells of them, and what is counted.

use dl_bytes::Id;

/// Who sends messages: an application, in whatever ECU. The messages of a program and the daemon's records of it need not name the same one.
#[derive(Clone, Copy, PartialEq, Eq, Hash)]
pub struct Source {
    /// APID: the application.
    pub apid: Id,
}

/// A session of an application: of a writer of this project's daemon, or of a process of another one's.
#[derive(Clone, Copy, PartialEq, Eq, Hash)]
pub struct Session {
    /// The ECU.
    pub ecu: Id,
    /// APID: the application.
    pub apid: Id,
    /// SEID: the session id.
    pub seid: u32,
}

/// A context of a session.
#[derive(Clone, Copy, PartialEq, Eq, Hash)]
pub struct Context {
    /// The ECU.
    pub ecu: Id,
    /// APID: the application.
    pub apid: Id,
    /// SEID: the session id.
    pub seid: u32,
    /// CTID: the context.
    pub ctid: Id,
}

/// A message of an application by its number among them.
#[derive(Clone, Copy, PartialEq, Eq, Hash)]
pub struct Position {
    /// The application.
    pub source: Source,
    /// The number of the message, from 1.
    pub number: u64,
}

/// What a message tells of a context's calls since the account before: a program's library writes accounts (`dl_client`).
#[derive(Clone, Copy, PartialEq, Eq)]
pub struct Calls {
    /// Whether the message is an account; else all that follows is zero.
    pub are_told: bool,
    /// CTID: the context.
    pub ctid: Id,
    /// The log level that decided, 0 (off) to 6 (verbose).
    pub level: u8,
    /// How many calls it filtered.
    pub filtered: u64,
    /// How many calls had their message queued.
    pub queued: u64,
    /// How many calls found no room in the program's queue.
    pub lost: u64,
}

/// What came of a context since its last account.
#[derive(Clone, Copy, PartialEq, Eq)]
pub struct Since {
    /// How many accounts of it came so far.
    pub accounts: u64,
    /// How many of its messages came since the last of them.
    pub messages: u64,
    /// How many are missing between these, by their counters.
    pub missing: u64,
    /// The last of these.
    pub last: Option<Latest>,
}

/// What a message of a session tells.
#[derive(Clone, Copy, PartialEq, Eq)]
pub struct Entry {
    /// Its session.
    pub session: Session,
    /// CTID: its context.
    pub ctid: Id,
    /// MCNT: its message counter.
    pub mcnt: u8,
    /// TMSP: its timestamp, in units of 0.1 ms; 0 where it has none.
    pub ticks: u32,
    /// What it tells of a context's calls.
    pub calls: Calls,
}

/// What the report of lost messages tells.
#[derive(Clone, Copy, PartialEq, Eq)]
pub struct Lost {
    /// Whose messages were lost.
    pub source: Source,
    /// How many were lost.
    pub count: u32,
}

/// What is kept of a message of a session.
#[derive(Clone, Copy, PartialEq, Eq)]
pub struct Latest {
    /// MCNT: its message counter.
    pub mcnt: u8,
    /// TMSP: its timestamp, in units of 0.1 ms; 0 where it has none.
    pub ticks: u32,
}

/// What a message tells an account.
#[derive(Clone, Copy, PartialEq, Eq)]
pub enum Told {
    /// A message of a session: a log message, or another one that takes a message counter (MSTP 1 to 3).
    Log(Entry),
    /// The report of lost messages.
    Lost(Lost),
    /// The record of messages that a trace did not store while it had ended: how many.
    Unstored(u32),
    /// A message that tells no session: nothing.
    Other,
}

/// What a message is to its context.
#[derive(Clone, Copy, PartialEq, Eq)]
pub struct Turn {
    /// How many counters were passed over before it, where each context counts its own: modulo 256.
    pub missing: u8,
    /// The same where its context may have begun anew; else 0.
    pub unsure: u8,
    /// Whether its counter goes on from the context's last one, or is the first, 0, of a new context.
    pub goes_on: bool,
}

/// What is counted of a session.
#[derive(Clone, Copy, PartialEq, Eq)]
pub struct Totals {
    /// How many messages it has.
    pub messages: u64,
    /// The first.
    pub first: Option<Latest>,
    /// The last.
    pub last: Option<Latest>,
    /// How many counters were passed over, where the session counts its messages.
    pub by_session: u64,
    /// How many, where each context counts its own.
    pub by_context: u64,
    /// How many of the first were passed over where the session may have begun anew.
    pub open_session: u64,
    /// How many of the second were passed over where the context may have begun anew.
    pub open_context: u64,
    /// How many messages go on from the session's last counter, and not from their context's.
    pub of_session: u64,
    /// How many messages go on from their context's last counter, and step back or stand still in the session.
    pub of_context: u64,
}

/// What is counted of an application.
#[derive(Clone, Copy, PartialEq, Eq)]
pub struct Tally {
    /// How many messages it has.
    pub messages: u64,
    /// In how many sessions.
    pub sessions: u64,
    /// How many reports of lost messages.
    pub reports: u64,
    /// How many messages these tell as lost.
    pub lost: u64,
    /// Whether messages are missing before its last message, by one of the countings.
    pub has_hole: bool,
}

/// What reports tell of lost messages of an application.
#[derive(Clone, Copy, PartialEq, Eq)]
pub struct Losses {
    /// How many messages it has.
    pub messages: u64,
    /// In how many sessions.
    pub sessions: u64,
    /// How many were reported as lost.
    pub told: u64,
    /// How many of these before its first message.
    pub before: u64,
    /// How many of these behind its last one.
    pub behind: u64,
    /// How many messages of all applications the daemon's buffer was reported to have refused.
    pub buffer: u64,
}

/// A place in the stream where messages are missing.
#[derive(Clone, Copy, PartialEq, Eq)]
pub struct Hole {
    /// The number of the message before which they are missing, from 1.
    pub place: u64,
    /// The number of that message among those of its application, from 1.
    pub number: u64,
    /// What that message tells.
    pub entry: Entry,
    /// How many counters were passed over, where the session counts its messages: modulo 256.
    pub by_session: u8,
    /// How many, where each context counts its own: modulo 256.
    pub by_context: u8,
    /// The first number, where the session may have begun anew; else 0.
    pub open_session: u8,
    /// The second number, where the context may have begun anew; else 0.
    pub open_context: u8,
}
