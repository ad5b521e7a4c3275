//! The lines of a scenario, which a run of threads plays.

use crate::arguments::CallArguments;
use crate::line::{AppLine, ClaimLine, ContextLine};
use dl_bytes::{Bytes, Id, Sequence, Severity};

/// The lines of a scenario, in order. Contracts see a list.
pub type Scenario = Sequence<ScenarioLine>;

/// A line of a scenario.
#[derive(Drop)]
pub enum ScenarioLine {
    /// `app`: an application of channel 0, with its ring.
    App(AppLine),
    /// `context`: a context of an application.
    Context(ContextLine),
    /// `writer`: the next writer of an application. Writers are numbered from 1.
    Writer {
        /// The application's id.
        apid: Id,
    },
    /// `register`: a writer claims the next place of its application for a context. The claims that wait go into the
    /// ring until it refuses one.
    Register(ClaimLine),
    /// `calls`: log calls of a writer, one like the other.
    Calls {
        /// The writer's number, 1 to 32.
        writer: u8,
        /// The id of the context that it logs under.
        ctid: Id,
        /// How grave they are.
        severity: Severity,
        /// How many calls, 1 to 1,000,000.
        count: u32,
        /// The arguments of each.
        payload: CallArguments,
    },
    /// `client`: the next client. Clients are numbered from 1 to 32.
    Client,
    /// `send`: more bytes that a client sends.
    Send {
        /// The client's number, 1 to 32.
        client: u32,
        /// What it sends.
        bytes: Bytes,
    },
    /// `leave`: a client leaves once it has read so many bytes.
    Leave {
        /// The client's number, 1 to 32.
        client: u32,
        /// How many bytes, below 2^63.
        bytes: u64,
    },
}
