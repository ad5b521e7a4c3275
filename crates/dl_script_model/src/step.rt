//! The lines of a step script.

use crate::line::{AppLine, CallLine, ClaimLine, ContextLine};
use dl_bytes::{Bytes, Id, Sequence};

/// The lines of a step script, in order. Contracts see a list.
pub type StepList = Sequence<Step>;

/// When the daemon hands out a change of a log level.
#[derive(Clone, Copy, PartialEq, Eq)]
pub enum LevelEvents {
    /// Where a line asks for it.
    Later,
    /// At once.
    Now,
}

/// A line of a step script.
#[derive(Drop)]
pub enum Step {
    /// `app`: an application of channel 0, with its ring.
    App(AppLine),
    /// `context`: a context of an application.
    Context(ContextLine),
    /// `writer`: the next writer of an application. Writers are numbered from 1.
    Writer {
        /// The application's id.
        apid: Id,
    },
    /// `clock`: the moment of later events.
    Clock {
        /// Seconds since the beginning of 1970.
        secs: u32,
        /// Microseconds of the second, below 1,000,000.
        micros: u32,
    },
    /// `load`: a writer begins a log call, and reads the level of its context.
    Load(CallLine),
    /// `push`: the writer's call goes into its application's ring.
    Push {
        /// The writer's number, 1 to 32.
        writer: u8,
    },
    /// `count`: the writer's call, which the ring refused, is counted as lost.
    Count {
        /// The writer's number, 1 to 32.
        writer: u8,
    },
    /// `call`: a whole log call.
    Call(CallLine),
    /// `log`: a whole log call, and one take of the application's ring.
    Log(CallLine),
    /// `claim`: a writer claims the next place of its application for a context. The claim waits.
    Claim(ClaimLine),
    /// `announce`: the writer's first claim that waits goes into its application's ring.
    Announce {
        /// The writer's number, 1 to 32.
        writer: u8,
    },
    /// `register`: a claim, and all that wait go into the ring until it refuses one.
    Register(ClaimLine),
    /// `take`: the daemon takes one log call or one claim of an application's ring.
    Take {
        /// The application's id.
        apid: Id,
    },
    /// `losses`: the daemon takes an application's count of lost log calls.
    Losses {
        /// The application's id.
        apid: Id,
    },
    /// `levels later`, `levels now`: whether changes of log levels wait.
    Levels(LevelEvents),
    /// `level`: the next change of a log level that waits is handed out.
    Level,
    /// `connect`: a client connects. Clients are numbered from 1.
    Connect,
    /// `bytes`: bytes from a client.
    Bytes {
        /// The client's number: which of the `connect` lines.
        client: u32,
        /// What it sent.
        bytes: Bytes,
    },
    /// `close`: a client leaves.
    Close {
        /// The client's number: which of the `connect` lines.
        client: u32,
    },
    /// `user`: bytes on a channel of user messages.
    User {
        /// The channel's number, 1 to 16.
        channel: u8,
        /// What came on it.
        bytes: Bytes,
    },
    /// `inject`: an application takes its oldest injection.
    Inject {
        /// The application's id.
        apid: Id,
    },
}
