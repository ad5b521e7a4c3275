//! What waits for the programs of all channels.

ghost use Rattle.std.specs.Prelude.{◌≡◌, ◌<◌, ◌++◌, ◌∷◌, [], None, Ok, IsSome, OnErr, OnOk};
ghost use Rattle.dl_channel.specs.Levels.{with_level};
ghost use Rattle.dl_channel_turns.specs.Levels.{answer_to, answered, told};
ghost use Rattle.dl_channel_turns.specs.Pumping.{PumpsOne};
ghost use Rattle.dl_channel_turns.specs.State.{changed, outbox_of, without};

use crate::registration::Registration;
use dl_bytes::{Level, OutOfMemory};
use dl_channel::{ChannelEnd, Outbox};
use dl_outside::Link;
use dl_registry::{LevelChange, Registry};
use indexmap::IndexMap;
use std::alloc::Global;
use std::marker::Model;

/// The outboxes of the channels that are open, by the channels' numbers.
#[derive(Drop)]
pub struct Outboxes {
    boxes: IndexMap<u16, Outbox>,
}

impl Model for Outboxes {
    ghost use Rattle.std.specs.Prelude.{ℕ, List};
    ghost use Rattle.dl_channel.specs.State as state;

    ghost Value = { List (ℕ × state.Outbox) };

    ghost view = { λ o. o.boxes.entries };
}

impl Outboxes {
    /// Those of no channel.
    pub fn make(alloc: Global) -> Outboxes
        ensures { result ≡ [] }
    {
        Outboxes {
            boxes: IndexMap::new(alloc),
        }
    }

    /// That of a channel that opens comes, as the last.
    pub fn add(&mut self, channel: u16, outbox: Outbox) -> Result<(), OutOfMemory>
        requires { outbox_of self.old channel ≡ None }
        ensures added { OnOk result (self.new ≡ self.old ++ (channel, outbox) ∷ []) }
        ensures unchanged { OnErr result (self.new ≡ self.old) }
    {
        self.boxes.insert(channel, outbox)?;
        Ok(())
    }

    /// That of a channel that has ended goes. The others keep their order.
    pub fn remove(&mut self, channel: u16)
        ensures { self.new ≡ without channel self.old }
    {
        self.boxes.shift_remove(&channel);
    }

    /// Puts the level of a context for a channel, where it is open. The context has this position in its program's own table.
    pub fn put_level(&mut self, channel: u16, level: Level, position: u32)
        ensures { self.new ≡ changed channel (with_level level position) self.old }
    {
        if let Some(outbox) = self.boxes.get_mut(&channel) {
            outbox.put_level(level, position);
        }
    }

    /// Puts a level that was set for the channel of the application that has its slot.
    pub fn tell(&mut self, registry: &Registry, change: LevelChange)
        requires { change.slot < 1024 }
        ensures { self.new ≡ told registry.now.registry change self.old }
    {
        let app = (change.slot / 64) as u8;
        let Some(channel) = registry.channel_of(app) else {
            return;
        };
        let Some(position) = registry.position(change.slot) else {
            return;
        };
        self.put_level(channel, change.level, position);
    }

    /// Puts the level of a context for the channel that registered it.
    pub fn answer(&mut self, registry: &Registry, channel: u16, registered: Option<Registration>)
        ensures { self.new ≡ answered channel (answer_to registered (Ok registry.now.registry) None) self.old }
    {
        let Some(asked) = registered else {
            return;
        };
        let Some(slot) = registry.find(asked.apid, asked.ctid) else {
            return;
        };
        let Some(level) = registry.effective(slot) else {
            return;
        };
        self.put_level(channel, level, asked.position);
    }

    /// Sends what waits for a channel that is open.
    pub fn pump<L: Link>(&mut self, channel: u16, link: &mut L) -> Option<ChannelEnd>
        requires { IsSome (outbox_of self.old channel) }
        ensures { PumpsOne channel result self.old self.new (L.told link.old) (L.told link.new) }
    {
        match self.boxes.get_mut(&channel) {
            Some(outbox) => outbox.pump(link),
            None => unreachable!(),
        }
    }
}
