//! What is left of a daemon that closed.

use crate::figures::Figures;
use dl_bytes::{Sequence, TraceState};
use dl_channel::ChannelEnd;
use dl_events::Unkept;
use dl_outside::LinkList;

/// What is left of a daemon that closed.
#[derive(Drop)]
pub struct Left<L> {
    /// How many events were noted; in proofs, all of them.
    pub journal: Unkept,
    /// The trace files that stand, and why nothing more was stored, where that is so. No file where no trace was kept.
    pub trace: TraceState,
    /// The links of the clients, by number.
    pub clients: LinkList<L>,
    /// The links of the programs, by number.
    pub users: LinkList<L>,
    /// Why each channel that came has ended, where it ended before the closing.
    pub ends: Sequence<Option<ChannelEnd>>,
    /// What it had counted when it had closed.
    pub figures: Figures,
}
