//! Channels of user messages: what came on each of them.

ghost use Rattle.std.specs.Prelude.{◌≡◌, ◌<◌, ◌==◌, ◌++◌, [], ℕ, List, Some, IfOk, IfSome, OnOk, length};
ghost use Rattle.std.specs.List.{All, position};
ghost use Rattle.dl_bytes.specs.Cutting.{AreCut};
ghost use Rattle.dl_bytes.specs.declared.user.UserMsg.{UserMsg};
ghost use Rattle.dl_user.specs.Cut.{Begins};
ghost use Rattle.dl_world.specs.Fed.{CanBeTold, IsHeardBy, StandsStill, Tells, told_by};
ghost use Rattle.dl_world.specs.State as State;
ghost use Rattle.dl_world.specs.State.{channel_at};

use dl_bytes::{OutOfMemory, UserMsg};
use dl_user::{UserCut, UserCutter};
use std::alloc::Global;
use std::marker::Model;

/// A channel that something came on.
#[derive(Drop)]
pub struct Channel {
    number: u8,
    cutter: UserCutter,
}

impl Model for Channel {
    ghost use Rattle.dl_world.specs.State as state;

    ghost Value = { state.Channel };

    ghost view = { λ c. record { number = c.number; cutter = c.cutter } };
}

/// The place of the channel of this number.
fn place_in(channels: &[Channel], number: u8) -> Option<usize>
    ensures value { result ≡ position (λ (channel : State.Channel). channel.number == number) channels.now }
    ensures within { IfSome result (λ place. place < length channels.now) }
{
    channels.iter().position(|channel| channel.number == number)
}

/// Feeds a channel's cutter, and adds each message that is whole.
fn feed(
    cutter: &mut UserCutter,
    bytes: &[u8],
    messages: &mut Vec<UserMsg>,
) -> Result<(), OutOfMemory>
    ensures heard { OnOk result ((stream : List ℕ) → IsHeardBy stream cutter.old → IsHeardBy (stream ++ bytes.now) cutter.new) }
    ensures tells { OnOk result ((stream : List ℕ) → IsHeardBy stream cutter.old → messages.new.items ≡ messages.old.items ++ told_by stream bytes.now) }
    ensures fit { OnOk result (All CanBeTold messages.old.items → All CanBeTold messages.new.items) }
{
    let mut rest = bytes;
    while !rest.is_empty() {
        let taken = cutter.feed(rest);
        if taken == 0 {
            // It takes nothing more after a message that is wrong.
            return Ok(());
        }
        rest = &rest[taken..];
        cut_whole(cutter, messages)?;
    }
    Ok(())
}

/// Adds each message that is whole.
fn cut_whole(cutter: &mut UserCutter, messages: &mut Vec<UserMsg>) -> Result<(), OutOfMemory>
    ensures gives { OnOk result ((given : List UserMsg) × AreCut Begins cutter.old.unread given cutter.new.unread × (messages.new.items ≡ messages.old.items ++ given)) }
    ensures stops { OnOk result (StandsStill cutter.new) }
    ensures fit { OnOk result (All CanBeTold messages.old.items → All CanBeTold messages.new.items) }
{
    loop {
        match cutter.next() {
            UserCut::Message(message) => messages.push(message)?,
            UserCut::NeedMore | UserCut::Bad(_) => return Ok(()),
            UserCut::OutOfMemory => return Err(OutOfMemory),
        }
    }
}

/// The channels that something came on.
#[derive(Drop)]
pub struct Channels {
    items: Vec<Channel>,
}

impl Model for Channels {
    ghost use Rattle.std.specs.Prelude.{List};
    ghost use Rattle.dl_world.specs.State as state;

    ghost Value = { List state.Channel };

    ghost view = { λ c. c.items.items };
}

impl Channels {
    /// Nothing came on any channel.
    pub fn none(alloc: Global) -> Channels
        ensures { result ≡ [] }
    {
        Channels {
            items: Vec::new(alloc),
        }
    }

    /// Takes bytes that came on a channel, and gives each message that they make whole.
    pub fn cut(
        &mut self,
        alloc: Global,
        channel: u8,
        bytes: &[u8],
    ) -> Result<Vec<UserMsg>, OutOfMemory>
        ensures tells { IfOk result (λ messages. (stream : List ℕ) → IsHeardBy stream (channel_at self.old channel) → Tells stream bytes.now [] messages.items (channel_at self.new channel)) }
        ensures fit { IfOk result (λ messages. All CanBeTold messages.items) }
        ensures others { OnOk result ((other : ℕ) → (other ≡ channel → ⊥) → channel_at self.new other ≡ channel_at self.old other) }
    {
        let place = self.place_of(alloc, channel)?;
        let mut messages = Vec::new(alloc);
        feed(&mut self.items[place].cutter, bytes, &mut messages)?;
        Ok(messages)
    }

    /// The place of a channel. It is made where nothing came on it before.
    fn place_of(&mut self, alloc: Global, channel: u8) -> Result<usize, OutOfMemory>
        ensures place { IfOk result (λ place. (place < length self.new) × (position (λ (one : State.Channel). one.number == channel) self.new ≡ Some place)) }
        ensures same { OnOk result ((other : ℕ) → channel_at self.new other ≡ channel_at self.old other) }
    {
        if let Some(place) = place_in(&self.items, channel) {
            return Ok(place);
        }
        let cutter = UserCutter::make(alloc)?;
        self.items.push(Channel {
            number: channel,
            cutter,
        })?;
        Ok(self.items.len() - 1)
    }
}
