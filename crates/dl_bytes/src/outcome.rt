//! What stands at the end of a run: each client's stream, the backlog that is left, and the trace files.

ghost use Rattle.std.specs.Prelude.{◌≡◌, ◌≤◌, ◌<◌, ◌-◌, ◌^◌, Some, length, slice_get};

use crate::list::{Bytes, Sequence};
use std::marker::Model;

/// What the folder answered to a request's write or removal, or the application's queue to its injection.
#[derive(Clone, Copy, PartialEq, Eq)]
pub enum Done {
    /// It was done, or nothing was to be done.
    Yes,
    /// The folder failed, or the queue was full.
    Failed,
    /// There was no memory for it.
    NoMemory,
}

/// Why the storing of the trace ended before the run did.
#[derive(Clone, Copy, PartialEq, Eq)]
pub enum TraceEnd {
    /// The folder failed.
    Failed,
    /// File 999999, the last that has a name, could not take the frame.
    Spent,
    /// There was no memory.
    NoMemory,
}

/// A trace file that stands.
#[derive(Drop)]
pub struct TraceFile {
    /// Its name, with its directory.
    pub name: Bytes,
    /// How many bytes were stored in it.
    pub bytes: u64,
}

/// The trace files that stand, the oldest first.
#[derive(Drop)]
pub struct TraceState {
    /// The files, in the order of their numbers.
    pub files: Sequence<TraceFile>,
    /// Why nothing more is stored, where that is so.
    pub end: Option<TraceEnd>,
}

/// What became of a client's link.
#[derive(Clone, Copy, PartialEq, Eq)]
pub struct LinkEnd {
    /// The client's number, from 1.
    pub client: u32,
    /// How many frames were put into its stream, replies included.
    pub frames: u64,
    /// How many bytes they have together.
    pub bytes: u64,
    /// Whether the link took all of them.
    pub complete: bool,
}

/// What stands at the end of a run beside its events.
#[derive(Drop)]
pub struct Ends {
    /// The end of each client's link, in the order of their numbers.
    pub links: Sequence<LinkEnd>,
    /// How many links were accepted and dropped, since no client could be added.
    pub dropped: u32,
    /// The trace files.
    pub trace: TraceState,
}

/// The backlog: frames that wait for a client.
#[derive(Clone, Copy, PartialEq, Eq)]
pub struct Backlog {
    /// How many frames wait.
    pub frames: u64,
    /// How many bytes they have together.
    pub bytes: u64,
    /// How many frames were refused since the last hand-over, for want of room.
    pub refused: u64,
}

/// The frames of each client's stream, by the clients' numbers.
#[derive(Drop)]
pub struct FrameList {
    clients: Sequence<Sequence<Bytes>>,
}

impl Model for FrameList {
    ghost use Rattle.std.specs.Prelude.{List, ℕ, ◌<◌, ◌^◌, length};

    ghost Value = { List (List (List ℕ)) };

    ghost view = { λ f. f.clients };

    ghost invariant = { λ f. length f.clients < 2 ^ 32 };
}

impl FrameList {
    /// The list of these streams, the first client's first.
    pub fn over(clients: Sequence<Sequence<Bytes>>) -> FrameList
        requires { length clients < 2 ^ 32 }
        ensures { result ≡ clients }
    {
        FrameList { clients }
    }

    /// How many clients there are.
    pub fn clients(&self) -> u32
        ensures { result ≡ length self.now }
    {
        self.clients.len()
    }

    /// The frames of one client, from 1.
    pub fn of(&self, client: u32) -> &[Bytes]
        requires first { 1 ≤ client }
        requires known { client ≤ length self.now }
        ensures { slice_get self.now (client - 1) ≡ Some result.now }
    {
        self.clients.of(client - 1).all()
    }
}
