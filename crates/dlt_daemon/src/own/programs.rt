//! Which external applications connected and disconnected, and why, since they were looked at last.

use crate::causes::Cause;
use crate::own::message::{Message, Who};
use crate::own::sender::OwnSender;
use dl_channel::ChannelEnd;
use dl_daemon::Server;
use dl_events::Unkept;
use dl_outside::Link;
use std::alloc::{AllocError, Global};

/// How many channels are looked at for those that are open.
const MOST_CHANNELS: usize = 64;

/// The external applications, as they were looked at last.
#[derive(Drop)]
pub struct Programs {
    alloc: Global,
    // how many came in the sessions before this one
    before: u64,
    came: u32,
    open: Vec<u16>,
}

/// The channels that are open.
fn open_now<L: Link>(alloc: Global, server: &Server<Unkept, L>) -> Result<Vec<u16>, AllocError> {
    let mut open = Vec::new(alloc);
    for place in 0..MOST_CHANNELS {
        match server.channels.at(place) {
            Some(channel) => open.push(channel)?,
            None => break,
        }
    }
    Ok(open)
}

/// Why a channel has ended, where it has.
fn end_of(ends: &[Option<ChannelEnd>], channel: u32) -> Option<Cause> {
    let place = channel.checked_sub(1)?;
    let end = ends.get(place as usize)?;
    match end {
        Some(end) => Some(Cause::of(*end)),
        None => None,
    }
}

/// Whether a channel is among these.
fn is_among(open: &[u16], channel: u32) -> bool {
    open.iter().any(|other| *other as u32 == channel)
}

impl Programs {
    /// None came yet in this session; so many came in those before it.
    pub fn none(alloc: Global, before: u64) -> Programs {
        Programs {
            alloc,
            before,
            came: 0,
            open: Vec::new(alloc),
        }
    }

    /// The number of an external application over all sessions.
    fn number(&self, number: u32) -> u64 {
        self.before.saturating_add(number as u64)
    }

    /// Those that were open go with the session.
    pub fn say_session_ended(&self, says: &mut OwnSender, ticks: u32) {
        for channel in &self.open {
            let number = self.number(*channel as u32);
            let cause = Some(Cause::SessionEnded);
            says.say(&Message::Disconnected(Who::Program, number, cause), ticks);
        }
    }

    /// Says that one is gone.
    fn say_gone(
        &self,
        ends: &[Option<ChannelEnd>],
        channel: u32,
        says: &mut OwnSender,
        ticks: u32,
    ) {
        let cause = end_of(ends, channel);
        let number = self.number(channel);
        says.say(&Message::Disconnected(Who::Program, number, cause), ticks);
    }

    /// Says which came and went.
    pub fn look<L: Link>(
        &mut self,
        server: &Server<Unkept, L>,
        says: &mut OwnSender,
        ticks: u32,
    ) -> Result<(), AllocError> {
        let open = open_now(self.alloc, server)?;
        let came = server.programs.len();
        let ends = server.ends.as_slice();
        for channel in &self.open {
            let number = *channel as u32;
            if !is_among(&open, number) {
                self.say_gone(ends, number, says, ticks);
            }
        }
        for place in self.came..came {
            let channel = place.saturating_add(1);
            let number = self.number(channel);
            says.say(&Message::Connected(Who::Program, number), ticks);
            if !is_among(&open, channel) {
                self.say_gone(ends, channel, says, ticks);
            }
        }
        self.came = came;
        self.open = open;
        Ok(())
    }
}
