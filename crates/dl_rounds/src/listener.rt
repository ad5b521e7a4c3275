//! What the daemon keeps of what a client sent.

ghost use Rattle.std.specs.Prelude.{◌≡◌, IfOk, replicate};
ghost use Rattle.dl_bytes.specs.Limits.{message_limit};
ghost use Rattle.dl_message.specs.Cutting.{unfed};

use dl_bytes::{MESSAGE_LIMIT, OutOfMemory};
use dl_message::Cutter;
use std::alloc::Global;

/// What cuts the bytes of a client, and how many of its requests were served.
#[derive(Drop)]
pub struct Listener {
    /// It holds the bytes that are no whole message yet.
    pub cutter: Cutter,
    /// How many requests were served, at most 1000.
    pub served: u32,
}

impl Listener {
    /// The listener of a client that sent nothing yet. It takes all its memory here.
    pub fn make(alloc: Global) -> Result<Listener, OutOfMemory>
        ensures { IfOk result (λ listener. listener ≡ record { cutter = unfed message_limit; served = 0 }) }
    {
        Ok(Listener {
            cutter: Cutter::make(alloc, MESSAGE_LIMIT)?,
            served: 0,
        })
    }

    /// Makes it that of a client that sent nothing yet. It takes no memory.
    pub(crate) fn clear(&mut self)
        ensures { self.new ≡ record { cutter = unfed self.old.cutter.limit; served = 0 } }
    {
        self.cutter.clear();
        self.served = 0;
    }
}

/// So many listeners, each of a client that sent nothing yet.
#[tactic(auto, using(std::proofs::lemmas::List::replicate_more))]
pub(crate) fn listeners(alloc: Global, count: u32) -> Result<Vec<Listener>, OutOfMemory>
    ensures { IfOk result (λ listeners. listeners.items ≡ replicate count (record { cutter = unfed message_limit; served = 0 })) }
{
    let mut listeners = Vec::with_capacity(alloc, count as usize)?;
    for _made in 0..count {
        listeners.push(Listener::make(alloc)?)?;
    }
    Ok(listeners)
}
