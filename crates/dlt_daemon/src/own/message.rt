//! What the daemon says of itself: each message with its context and its severity.

use crate::causes::{Cause, trace_cause};
use crate::own::topic::Topic;
use dl_bytes::{Id, TraceEnd};
use dl_client::Area;
use dl_own_log::{
    Standing, say_application, say_asked, say_connected, say_context, say_disconnected, say_ended,
    say_level, say_restarted, say_session, say_trace_file, say_untaken,
};

/// The severities.
const ERROR: u8 = 2;

const WARN: u8 = 3;

const INFO: u8 = 4;

/// Who connects.
#[derive(Clone, Copy, PartialEq, Eq)]
pub enum Who {
    Client,
    Program,
}

impl Who {
    /// It in words.
    fn words(self) -> &'static str {
        match self {
            Who::Client => "client",
            Who::Program => "external application",
        }
    }

    /// More than one in words.
    fn all(self) -> &'static [u8] {
        match self {
            Who::Client => b"clients",
            Who::Program => b"external applications",
        }
    }

    /// The context that tells of it.
    fn topic(self) -> Topic {
        match self {
            Who::Client => Topic::Clients,
            Who::Program => Topic::Programs,
        }
    }
}

/// A message.
#[derive(Clone, Copy)]
pub enum Message<'a> {
    /// A context has this level since it was registered.
    Registered(Standing),
    /// A context has this level when a trace file begins.
    Stands(Standing),
    /// A context has this level by a request of one of these clients.
    Asked(Standing, &'a [u64]),
    /// A context is gone.
    Unregistered(Standing),
    /// A context came, or else is gone, as the external applications see it.
    Context(Standing, bool),
    /// An application came, or else is gone.
    Application(Id, bool),
    /// A client or an external application has connected.
    Connected(Who, u64),
    /// One has disconnected, for this cause, or where several have at once for one of several causes.
    Disconnected(Who, u64, Option<Cause>),
    /// So many clients have disconnected for a cause.
    Causes(u64, Cause),
    /// So many bytes were not taken by the clients that have disconnected.
    Untaken(u64),
    /// The trace goes on in this file, and so many were removed.
    TraceFile(u64, u64),
    /// The trace has ended.
    TraceEnded(TraceEnd),
    /// The trace was begun anew, without so many messages.
    TraceRestarted(u64),
    /// So many have disconnected, since nothing went through their connections, for others that came.
    Idle(Who, u64),
    /// A session of this number began, and so many messages that waited are lost.
    Session(u64, u64),
}

/// Whether something came or is gone, in words.
fn turn(came: bool) -> &'static [u8] {
    if came { b"registered" } else { b"unregistered" }
}

/// The severity of a disconnection.
fn severity_of(cause: Option<Cause>) -> u8 {
    match cause {
        Some(Cause::Left) => INFO,
        _ => WARN,
    }
}

/// A cause in words.
fn cause_words(cause: Option<Cause>) -> &'static str {
    match cause {
        Some(cause) => cause.words(),
        None => "one of the causes below",
    }
}

impl Message<'_> {
    /// The context that says it.
    pub fn topic(&self) -> Topic {
        match self {
            Message::Registered(_)
            | Message::Stands(_)
            | Message::Asked(_, _)
            | Message::Unregistered(_) => Topic::Levels,
            Message::Context(_, _) | Message::Application(_, _) => Topic::Programs,
            Message::Connected(who, _) | Message::Disconnected(who, _, _) | Message::Idle(who, _) =>
                who.topic(),
            Message::Causes(_, _) | Message::Untaken(_) | Message::Session(_, _) => Topic::Clients,
            Message::TraceFile(_, _) | Message::TraceEnded(_) | Message::TraceRestarted(_) => {
                Topic::Trace
            }
        }
    }

    /// How grave it is.
    pub fn severity(&self) -> u8 {
        match self {
            Message::Disconnected(_, _, cause) => severity_of(*cause),
            Message::Causes(_, cause) => severity_of(Some(*cause)),
            Message::TraceEnded(_) => ERROR,
            Message::TraceRestarted(_) | Message::Session(_, _) | Message::Idle(_, _) => WARN,
            _ => INFO,
        }
    }

    /// Adds its arguments, and answers how many there are; 0 where there is no room.
    pub fn push(&self, payload: &mut Area) -> u8 {
        match *self {
            Message::Registered(standing) => say_level(payload, &standing, b"registered"),
            Message::Stands(standing) => say_level(
                payload,
                &standing,
                b"at the begin of a trace file",
            ),
            Message::Asked(standing, clients) => say_asked(payload, &standing, clients),
            Message::Unregistered(standing) => {
                say_context(payload, standing.apid, standing.ctid, b"unregistered")
            }
            Message::Context(standing, came) => {
                say_context(payload, standing.apid, standing.ctid, turn(came))
            }
            Message::Application(apid, came) => say_application(payload, apid, turn(came)),
            Message::Connected(who, number) => {
                say_connected(payload, who.words().as_bytes(), number)
            }
            Message::Disconnected(who, number, cause) => {
                say_disconnected(
                    payload,
                    who.words().as_bytes(),
                    number,
                    cause_words(cause).as_bytes(),
                )
            }
            Message::Causes(count, cause) => {
                say_disconnected(payload, b"clients", count, cause.words().as_bytes())
            }
            Message::Untaken(bytes) => say_untaken(payload, bytes),
            Message::TraceFile(number, removed) => say_trace_file(payload, number, removed),
            Message::TraceEnded(end) => say_ended(payload, trace_cause(end).as_bytes()),
            Message::TraceRestarted(missing) => say_restarted(payload, missing),
            Message::Session(number, lost) => say_session(payload, number, lost),
            Message::Idle(who, count) => {
                say_disconnected(payload, who.all(), count, b"idle, for others that came")
            }
        }
    }
}
