//! What the core puts into outboxes goes to the clients at once: a script's links take all.

ghost use Rattle.std.specs.Prelude.{◌≡◌, ◌≤◌, ◌+◌, ◌^◌, ◌↔◌, IsTrue, [], ℕ, List, IfOk, OnOk, IsSome, IsSomeAnd, length};
ghost use Rattle.dl_bytes.specs.Limits.{admitted_limit};
ghost use Rattle.dl_script_model.specs.Marks.{Mark};
ghost use Rattle.dl_core.specs.Follows.{Run};
ghost use Rattle.dl_hub.specs.State.{EachHasRoom, changed, outbox_of, without};
ghost use Rattle.dl_world.specs.Follows.{HasTaken, IsAfter, IsBefore, IsDelivered};

use crate::world::World;
use dl_bytes::OutOfMemory;
use dl_core::Core;
use dl_events::{Journal, Kept};
use std::alloc::Global;

/// Looks whether there is room for an event that admits this many frames with this many bytes together, and makes it in the journal. Since outboxes
/// are empty before each event, and no script has so many calls, lack of room is out of memory.
pub fn make_room(
    core: &Core,
    journal: &mut Kept,
    frames: u64,
    bytes: u64,
) -> Result<(), OutOfMemory>
    ensures room { OnOk result (EachHasRoom bytes core.now.hub) }
    ensures few { OnOk result (core.now.hub.admitted + frames ≤ admitted_limit) }
    ensures spare { OnOk result (1 ≤ journal.new.spare) }
    ensures events { journal.new.events ≡ journal.old.events }
{
    if !core.may_admit(frames) || !core.hub().each_has_room(bytes) {
        return Err(OutOfMemory);
    }
    journal.reserve(1)
}

/// Takes all that is in a client's outbox.
fn empty_outbox(alloc: Global, core: &mut Core, client: u32) -> Result<Vec<u8>, OutOfMemory>
    requires open { IsSome (outbox_of core.old.hub client) }
    ensures bytes { IfOk result (λ bytes. IsSomeAnd (outbox_of core.old.hub client) (λ outbox. bytes.items ≡ outbox.bytes)) }
    ensures value { IfOk result (λ bytes. core.new ≡ record core.old { hub = changed client (without (length bytes.items)) core.old.hub }) }
    ensures empty { OnOk result (IsSomeAnd (outbox_of core.new.hub client) (λ outbox. outbox.bytes ≡ [])) }
    ensures trace { core.new.trace ≡ core.old.trace }
{
    let mut bytes = Vec::new(alloc);
    loop {
        let piece = core.hub().front(client);
        if piece.is_empty() {
            return Ok(bytes);
        }
        let count = piece.len();
        bytes.extend_from_slice(piece)?;
        core.took(client, count);
    }
}

impl World {
    /// Whether a client is open.
    pub fn is_open(&self, client: u32) -> bool
        ensures { IsTrue result ↔ ((1 ≤ client) × (client ≤ length self.now.clients) × IsSome (outbox_of self.now.core.hub client)) }
    {
        1 <= client && client <= self.clients.len() && self.core.hub().is_open(client)
    }

    /// The link of an open client takes all that is in its outbox.
    pub fn deliver_to(&mut self, client: u32) -> Result<(), OutOfMemory>
        requires open { (1 ≤ client) × (client ≤ length self.old.clients) × IsSome (outbox_of self.old.core.hub client) }
        ensures takes { OnOk result ((run : Run) (done : List Mark) → IsBefore run done self.old → IsBefore run done self.new × HasTaken run done self.new client) }
        ensures keeps { OnOk result ((run : Run) (done : List Mark) (other : ℕ) → IsBefore run done self.old → HasTaken run done self.old other → HasTaken run done self.new other) }
        ensures empty { OnOk result (IsSomeAnd (outbox_of self.new.core.hub client) (λ outbox. outbox.bytes ≡ [])) }
        ensures rest { OnOk result (IsDelivered self.old self.new) }
        ensures trace { self.new.core.trace ≡ self.old.core.trace }
    {
        let bytes = empty_outbox(self.alloc, &mut self.core, client)?;
        self.clients.add_frames(self.alloc, client, bytes)
    }

    /// The link of each open client takes all that is in its outbox, in the order of their numbers.
    pub fn deliver(&mut self) -> Result<(), OutOfMemory>
        ensures takes { OnOk result ((run : Run) (done : List Mark) → IsBefore run done self.old → IsAfter run done self.new) }
        ensures rest { OnOk result (IsDelivered self.old self.new) }
        ensures trace { self.new.core.trace ≡ self.old.core.trace }
    {
        for client in 1..self.clients.len() + 1 {
            if self.is_open(client) {
                self.deliver_to(client)?;
            }
        }
        Ok(())
    }
}
