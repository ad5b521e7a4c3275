//! The handles of one application's ring and of its queue of injections.

use crate::counted_take::CountedTake;
use dl_ring::{InjectPush, InjectTake, RingPush};

/// The daemon's: it takes from the ring, and puts injections into the queue.
#[derive(Drop)]
pub struct AppHandles {
    /// The pass that takes the application's calls and claims.
    pub ring: CountedTake,
    /// The pass that pushes its injections.
    pub queue: InjectPush,
}

/// The first passes for the application's writers, which make those of each writer. They push and take nothing.
#[derive(Drop)]
pub struct FirstHandles {
    /// The first pass of the ring.
    pub push: RingPush,
    /// The first pass of the queue.
    pub injections: InjectTake,
}
