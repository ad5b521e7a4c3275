//! Listeners that exist in proofs alone: they take no memory, and the functions do nothing at run time.

ghost use Rattle.std.specs.Prelude.{◌≡◌, List, replicate};
ghost use Rattle.std.specs.Borrow.{ftrue};
ghost use Rattle.dl_bytes.specs.Limits.{message_limit};
ghost use Rattle.dl_message.specs.Cutting.{unfed};
ghost use Rattle.dl_rounds.specs.declared.listener.Listener.{Listener};

use std::marker::Model;

/// The listeners of all clients that may come, as they were once. It owns nothing, so proofs may choose the list: `fresh` and `past_of` of the
/// seats alone do.
#[derive(Drop)]
pub(crate) struct Past {
    pub(crate) ghost listeners: { List Listener },
}

impl Model for Past {
    ghost also_owns = { λ _. ftrue };
}

// It owns nothing, so another thread may have it.
unsafe impl Send for Past {}

impl Past {
    /// So many listeners, each of a client that sent nothing yet.
    pub(crate) fn fresh(count: &u32) -> Past
        ensures { result.listeners ≡ replicate count.now (record { cutter = unfed message_limit; served = 0 }) }
    {
        Past {}
    }
}
