//! What a receiver counts messages by, and the counter that a message takes.

ghost use Rattle.std.specs.Prelude.{◌≡◌, length, None};
ghost use Rattle.dl_bytes.specs.Htyp.{len_of};
ghost use Rattle.dl_headers.specs.Reading.{front_fault};
ghost use Rattle.dl_receive.specs.Counting.{by_context, by_session, counter_at, counter_by, counter_in, entry_of, of_session};
ghost use Rattle.dl_receive.specs.MessageKind.{kind_of};

use crate::kind::{Kind, kind_of};
use dl_bytes::Id;
use dl_headers::{Extended, Standard};
use dl_message::read_message;

/// What message counters go by.
#[derive(Clone, Copy, PartialEq, Eq)]
pub enum Counting {
    /// The log messages of a session are counted together, as this project's writers count.
    Sessions,
    /// The messages of each context of a session are counted by themselves, whatever their type (MSTP), as COVESA's library counts.
    Contexts,
}

/// Whose messages are counted together: a context's, or a session's, whose ids are zero.
#[derive(Clone, Copy, PartialEq, Eq, Hash)]
pub struct Counted {
    /// SEID: the session.
    pub seid: u32,
    /// APID: the application.
    pub apid: Id,
    /// CTID: the context.
    pub ctid: Id,
}

/// The counter of a message.
#[derive(Clone, Copy, PartialEq, Eq)]
pub struct Counter {
    /// With whose messages it is counted.
    pub counted: Counted,
    /// MCNT: the message counter.
    pub mcnt: u8,
}

/// A message, as a receiver prints it.
#[derive(Clone, Copy, PartialEq, Eq)]
pub struct Entry {
    /// What it is.
    pub kind: Kind,
    /// The counter that it takes, if it takes one.
    pub counter: Option<Counter>,
}

/// A session as a whole.
fn of_session(seid: u32) -> Counted
    ensures { result ≡ of_session seid }
{
    Counted {
        seid,
        apid: Id::from_bytes([0; 4]),
        ctid: Id::from_bytes([0; 4]),
    }
}

/// The counter that a message takes of its session.
fn by_session(kind: Kind) -> Option<Counter>
    ensures { result ≡ by_session kind }
{
    match kind {
        Kind::Log { seid, mcnt, .. } => Some(Counter {
            counted: of_session(seid),
            mcnt,
        }),
        Kind::Overflow { .. } => None,
        Kind::Other { .. } => None,
    }
}

/// The counter that stands in these headers, with the context that they name.
fn counter_in(standard: &Standard, extended: Option<Extended>) -> Option<Counter>
    ensures { result ≡ counter_in standard.now extended }
{
    let extended = extended?;
    let seid = standard.session?;
    Some(Counter {
        counted: Counted {
            seid,
            apid: extended.apid,
            ctid: extended.ctid,
        },
        mcnt: standard.mcnt,
    })
}

/// The counter that a whole message has, with the context that it names.
fn counter_at(message: &[u8]) -> Option<Counter>
    requires front { front_fault message.now ≡ None }
    requires len { length message.now ≡ len_of message.now }
    ensures { result ≡ counter_at message.now }
{
    let Ok(parts) = read_message(message) else {
        return None;
    };
    let standard = parts.standard;
    counter_in(&standard, parts.extended)
}

/// The counter that a message of this kind takes of its context. The report of lost messages takes none.
fn by_context(kind: Kind, message: &[u8]) -> Option<Counter>
    requires front { front_fault message.now ≡ None }
    requires len { length message.now ≡ len_of message.now }
    ensures { result ≡ by_context kind message.now }
{
    match kind {
        Kind::Overflow { .. } => None,
        Kind::Log { .. } => counter_at(message),
        Kind::Other { .. } => counter_at(message),
    }
}

/// The counter that a whole message takes.
fn counter_of(counting: Counting, message: &[u8]) -> Option<Counter>
    requires front { front_fault message.now ≡ None }
    requires len { length message.now ≡ len_of message.now }
    ensures { result ≡ counter_by counting (kind_of message.now) message.now }
{
    match counting {
        Counting::Sessions => by_session(kind_of(message)),
        Counting::Contexts => by_context(kind_of(message), message),
    }
}

/// What a whole message is, and the counter that it takes.
pub fn entry_of(counting: Counting, message: &[u8]) -> Entry
    requires front { front_fault message.now ≡ None }
    requires len { length message.now ≡ len_of message.now }
    ensures { result ≡ entry_of counting message.now }
{
    Entry {
        kind: kind_of(message),
        counter: counter_of(counting, message),
    }
}
