//! What a stop is handed.

use crate::ends::EndRoom;
use dl_account::Closing;
use dl_core::Core;
use dl_events::Kept;
use dl_outside::LinkList;
use dl_rounds::ListenerPool;
use dl_taking::Batch;

/// The parts of a daemon whose writers are back.
#[derive(Drop)]
pub struct Parts<L> {
    /// The core.
    pub core: Core,
    /// What stands for the desk.
    pub closing: Closing,
    /// The journal.
    pub journal: Kept,
    /// The link of each client that came, by the clients' numbers from 1.
    pub links: LinkList<L>,
    /// What cuts the bytes of each client that may come.
    pub seats: ListenerPool,
    /// Room for calls that are taken together.
    pub batch: Batch,
    /// Room for what became of each link.
    pub ends: EndRoom,
    /// How many Log and Lost events may still be noted.
    pub events: u32,
    /// How many Claim events may.
    pub claims: u32,
    /// How many links were dropped.
    pub dropped: u32,
}
