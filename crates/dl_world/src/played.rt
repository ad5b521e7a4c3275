//! What a run of steps leaves.

use dl_bytes::{AppSpec, Backlog, Ends, FrameList, Sequence};
use dl_events::{ClaimList, Kept, RecordList};

/// What a run of steps leaves, once all is drained and every client is closed.
#[derive(Drop)]
pub struct Played {
    /// The records of each writer's calls, by the writers' numbers.
    pub records: RecordList,
    /// The claims that rings took, by the writers' numbers.
    pub claims: ClaimList,
    /// All that happened, in order.
    pub events: Kept,
    /// The frames that each client was sent, by the clients' numbers.
    pub streams: FrameList,
    /// The applications, as the steps declare them.
    pub specs: Sequence<AppSpec>,
    /// The end of each client's link, and what became of the trace.
    pub ends: Ends,
    /// What waits for the next client.
    pub backlog: Backlog,
}
