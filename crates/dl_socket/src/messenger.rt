//! Levels that requests set, on their way to the channels.

ghost use Rattle.std.specs.Prelude.{◌≡◌, ◌≢◌, ◌<◌, ◌≤◌, ◌+◌, ◌++◌, ◌∷◌, ℕ, [], replicate, IfOk, IsSome, length, OnErr, OnOk, slice_get, Some, None};
ghost use Rattle.dl_bytes.specs.Limits.{admitted_limit};
ghost use Rattle.dl_bytes.specs.UserMessage.{IsFit};
ghost use Rattle.dl_model.specs.Frames.{user_frames};
ghost use Rattle.dl_channel_turns.specs.Messages.{ServesOne};
ghost use Rattle.dl_channel_turns.specs.Pumping.{PumpsOne};
ghost use Rattle.dl_channel_turns.specs.State.{outbox_of, seen, side, without};
ghost use Rattle.dl_channel_turns.specs.Turns.{IsTurn, Stays};
ghost use Rattle.dl_cells.specs.LevelHistory.{current_version};
ghost use Rattle.dl_registry.specs.Kept.{owed_change, slots};
ghost use Rattle.dl_socket.specs.Ways.{AreWaysOf, way_of};

use crate::history::History;
use crate::ways::{Way, way_in};
use dl_bytes::{Injection, LAST_VERSION, Level, Moment, OutOfMemory, SLOTS, UserMsg};
use dl_cells::Worn;
use dl_channel::{ChannelEnd, Inbox, Outbox};
use dl_channel_turns::{Gathered, Outboxes, hear, serve_one};
use dl_core::Core;
use dl_desk::WriterControl;
use dl_events::Journal;
use dl_outside::{Folder, Link};
use dl_registry::Registry;
use std::alloc::Global;
use std::marker::Model;
use std::sync::Wait;

/// What waits for the channels, and what puts the levels there that requests of the daemon's clients set.
#[derive(Drop)]
pub struct Messenger {
    outboxes: Outboxes,
    // of each slot
    ways: Vec<Option<Way>>,
    // how many levels were set in each slot
    versions: Vec<u64>,
    history: History,
    // none but while a channel is listened to
    gathered: Gathered,
}

impl Model for Messenger {
    ghost use Rattle.std.specs.Prelude.{◌≡◌, [], vec_len};
    ghost use Rattle.dl_socket.specs.Messenger as state;
    ghost use Rattle.dl_socket.specs.Messenger.{AreCounted};

    ghost Value = { state.Messenger };

    ghost view = { λ m. record { outboxes = m.outboxes; ways = m.ways.items; sets = m.history.sets; refused = m.history.refused } };

    ghost invariant = { λ m. (vec_len m.ways ≡ 1024) × (vec_len m.versions ≡ 1024) × AreCounted m.history.sets m.versions.items × (m.gathered ≡ []) };
}

impl Messenger {
    /// Without any channel. It takes all its memory here but that of the channels.
    pub fn make(alloc: Global) -> Result<Messenger, OutOfMemory>
        ensures { IfOk result (λ m. m ≡ record { outboxes = []; ways = replicate 1024 None; sets = []; refused = [] }) }
    {
        let count = usize::from(SLOTS);
        Ok(Messenger {
            outboxes: Outboxes::make(alloc),
            ways: no_ways(alloc, count)?,
            versions: Vec::from_elem(alloc, 0, count)?,
            history: History::new(),
            gathered: Gathered::make(alloc)?,
        })
    }

    /// Learns the way and the version of a slot.
    fn learn_slot(&mut self, registry: &Registry, slot: u16)
        requires { slot < 1024 }
        ensures way { slice_get self.new.ways slot ≡ Some (way_of registry.now.registry slot) }
        ensures ways { (other : ℕ) → other ≢ slot → slice_get self.new.ways other ≡ slice_get self.old.ways other }
        ensures version { current_version 0 slot self.new.sets ≡ (slots registry.now slot).version }
        ensures versions { (other : ℕ) → other ≢ slot → current_version 0 other self.new.sets ≡ current_version 0 other self.old.sets }
        ensures outboxes { self.new.outboxes ≡ self.old.outboxes }
        ensures refused { self.new.refused ≡ self.old.refused }
    {
        let place = usize::from(slot);
        let version = registry.held(slot).version;
        self.ways[place] = way_in(registry, slot);
        self.versions[place] = version;
        self.history.resume(slot, version);
    }

    /// Learns the ways and the versions of all slots, as they are in a registry.
    pub fn learn(&mut self, registry: &Registry)
        ensures ways { AreWaysOf registry.now.registry self.new.ways }
        ensures versions { (slot : ℕ) → slot < 1024 → (slots registry.now slot).version ≡ current_version 0 slot self.new.sets }
        ensures outboxes { self.new.outboxes ≡ self.old.outboxes }
    {
        for slot in 0..SLOTS {
            self.learn_slot(registry, slot);
        }
    }

    /// What waits for a channel that opens comes, as the last.
    pub fn add(&mut self, channel: u16, outbox: Outbox) -> Result<(), OutOfMemory>
        requires { outbox_of self.old.outboxes channel ≡ None }
        ensures added { OnOk result (self.new ≡ record self.old { outboxes = self.old.outboxes ++ (channel, outbox) ∷ [] }) }
        ensures kept { OnErr result (self.new ≡ self.old) }
    {
        self.outboxes.add(channel, outbox)
    }

    /// What waits for a channel that ends goes.
    pub fn remove(&mut self, channel: u16)
        ensures { self.new ≡ record self.old { outboxes = without channel self.old.outboxes } }
    {
        self.outboxes.remove(channel);
    }

    /// Listens to a channel once. The Level events that its messages owe are put for their channels.
    pub fn hear<J: Journal, L: Link, F: Folder>(
        &mut self,
        core: &mut Core,
        journal: &mut J,
        inbox: &mut Inbox,
        channel: u16,
        link: &mut L,
        moment: Moment,
        folder: &mut F,
    ) -> Option<ChannelEnd>
        requires settled { owed_change core.old.registry ≡ None }
        requires few { core.old.hub.admitted + 4096 ≤ admitted_limit }
        ensures turn { let s = seen L.told J.events F.told in IsTurn channel moment result
            (s link.old inbox.old core.old self.old.outboxes journal.old folder.old)
            (s link.new inbox.new core.new self.new.outboxes journal.new folder.new) }
        ensures stays { result ≡ None → Stays (L.told link.old) (L.told link.new) }
        ensures settled { owed_change core.new.registry ≡ None }
        ensures few { core.new.hub.admitted ≤ admitted_limit }
        ensures rest { self.new ≡ record self.old { outboxes = self.new.outboxes } }
    {
        hear(
            core,
            &mut self.outboxes,
            journal,
            inbox,
            &mut self.gathered,
            channel,
            link,
            moment,
            folder,
        )
    }

    /// Takes in a message of a channel. The Level events that it owes are put for their channels. Where memory runs out nothing is done.
    pub fn take_in<J: Journal, F: Folder>(
        &mut self,
        core: &mut Core,
        journal: &mut J,
        channel: u16,
        msg: UserMsg,
        moment: Moment,
        folder: &mut F,
    ) -> Result<(), ChannelEnd>
        requires fit { IsFit msg }
        requires settled { owed_change core.old.registry ≡ None }
        requires few { core.old.hub.admitted + length (user_frames core.old.ecu msg) ≤ admitted_limit }
        ensures serves { OnOk result (ServesOne channel moment msg (side core.old self.old.outboxes (J.events journal.old) (F.told folder.old))
            (side core.new self.new.outboxes (J.events journal.new) (F.told folder.new))) }
        ensures unserved { OnErr result (side core.new self.new.outboxes (J.events journal.new) (F.told folder.new)
            ≡ side core.old self.old.outboxes (J.events journal.old) (F.told folder.old)) }
        ensures settled { owed_change core.new.registry ≡ None }
        ensures admitted { core.new.hub.admitted ≤ core.old.hub.admitted + length (user_frames core.old.ecu msg) }
        ensures rest { self.new ≡ record self.old { outboxes = self.new.outboxes } }
    {
        serve_one(
            core,
            &mut self.outboxes,
            journal,
            channel,
            msg,
            moment,
            folder,
        )
    }

    /// Sends what waits for a channel that is open.
    pub fn pump<L: Link>(&mut self, channel: u16, link: &mut L) -> Option<ChannelEnd>
        requires { IsSome (outbox_of self.old.outboxes channel) }
        ensures pumps { PumpsOne channel result self.old.outboxes self.new.outboxes (L.told link.old) (L.told link.new) }
        ensures rest { self.new ≡ record self.old { outboxes = self.new.outboxes } }
    {
        self.outboxes.pump(channel, link)
    }
}

/// So many slots without a way.
#[tactic(auto, using(std::proofs::lemmas::List::replicate_more))]
fn no_ways(alloc: Global, count: usize) -> Result<Vec<Option<Way>>, OutOfMemory>
    ensures { IfOk result (λ ways. ways.items ≡ replicate count None) }
{
    let mut ways = Vec::with_capacity(alloc, count)?;
    for _made in 0..count {
        ways.push(None)?;
    }
    Ok(ways)
}

impl WriterControl for Messenger {
    ghost use Rattle.dl_socket.specs.Messenger.{HasSent, told_by};
    ghost use Rattle.dl_socket.specs.SentLevels.{none_sent, more_sent};

    ghost told = { told_by };

    ghost same_rest = { HasSent };

    fn set(&mut self, slot: u16, level: Level) -> Result<(), Worn> {
        let place = usize::from(slot);
        let version = self.versions[place];
        if version == LAST_VERSION {
            return Err(Worn);
        }
        self.history.set(slot, level);
        self.versions[place] = version.saturating_add(1);
        if let Some(way) = self.ways[place] {
            self.outboxes.put_level(way.channel, level, way.position);
        }
        Ok(())
    }

    fn inject<R: Wait>(&mut self, rt: &R, app: u8, item: Injection) -> Result<(), Injection> {
        let _ = rt;
        self.history.refuse(app);
        Err(item)
    }

    ghost rest_refl = { none_sent };

    ghost rest_trans = { more_sent };
}
