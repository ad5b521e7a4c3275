//! What is asked for: a message of an application and a context, by its time or by its counter.

ghost use Rattle.std.specs.Prelude.{◌≡◌};
ghost use Rattle.dl_find_words.specs.Questions.{is_about, is_account, is_asked, is_at, is_named, is_of_context};

use dl_bytes::Id;
use dl_sessions::Entry;

/// When a message was logged, or as which of its session.
#[derive(Clone, Copy, PartialEq, Eq)]
pub enum Point {
    /// TMSP: its timestamp, in units of 0.1 ms.
    Time(u32),
    /// MCNT: its message counter.
    Counter(u8),
}

/// A message that is asked for.
#[derive(Clone, Copy, PartialEq, Eq)]
pub struct Question {
    /// APID: its application.
    pub apid: Id,
    /// CTID: its context.
    pub ctid: Id,
    /// SEID: its session, where one is named.
    pub seid: Option<u32>,
    /// Its time or its counter.
    pub point: Point,
}

/// Whether a message is of the application, and of the session where one is named.
pub fn is_asked(question: &Question, entry: &Entry) -> bool
    ensures { result ≡ is_asked question.now entry.now }
{
    entry.session.apid == question.apid
        && match question.seid {
            Some(seid) => entry.session.seid == seid,
            None => true,
        }
}

/// Whether it is of the context too.
pub fn is_of_context(question: &Question, entry: &Entry) -> bool
    ensures { result ≡ is_of_context question.now entry.now }
{
    is_asked(question, entry) && entry.ctid == question.ctid
}

/// Whether a message has this time or this counter.
pub fn is_at(point: &Point, entry: &Entry) -> bool
    ensures { result ≡ is_at point.now entry.now }
{
    match point {
        Point::Time(ticks) => entry.ticks == *ticks,
        Point::Counter(mcnt) => entry.mcnt == *mcnt,
    }
}

/// Whether it is what is asked for.
pub fn is_named(question: &Question, entry: &Entry) -> bool
    ensures { result ≡ is_named question.now entry.now }
{
    is_of_context(question, entry) && is_at(&question.point, entry)
}

/// Whether it is an account of calls of its session, of any context.
pub fn is_account(question: &Question, entry: &Entry) -> bool
    ensures { result ≡ is_account question.now entry.now }
{
    is_asked(question, entry) && entry.calls.are_told
}

/// Whether it is an account of the calls of the context.
pub fn is_about(question: &Question, entry: &Entry) -> bool
    ensures { result ≡ is_about question.now entry.now }
{
    is_account(question, entry) && entry.calls.ctid == question.ctid
}
