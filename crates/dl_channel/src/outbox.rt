//! What waits for a program.

ghost use Rattle.std.specs.Prelude.{◌≡◌, IfOk};
ghost use Rattle.dl_channel.specs.Levels.{level_message, with_level};
ghost use Rattle.dl_channel.specs.Pumping.{IsPump};
ghost use Rattle.dl_channel.specs.State.{empty};

use crate::outcome::ChannelEnd;
use crate::sending::send_all;
use circular_buffer::HeapCircularBuffer;
use dl_bytes::{Frame, Level, OutOfMemory};
use dl_outside::Link;
use std::alloc::Global;
use std::marker::Model;

/// How many bytes can wait for a program.
const WAITING_LIMIT: usize = 65_536;

/// What waits for a program: the levels that it is to be told.
#[derive(Drop)]
pub struct Outbox {
    ring: HeapCircularBuffer<u8>,
    full: bool,
}

impl Model for Outbox {
    ghost use Rattle.std.specs.Prelude.{◌≡◌};
    ghost use Rattle.dl_channel.specs.State as state;
    ghost use Rattle.dl_channel.specs.State.{waiting_limit};

    ghost Value = { state.Outbox };

    ghost view = { λ o. record { waiting = o.ring.items; full = o.full } };

    ghost invariant = { λ o. o.ring.capacity ≡ waiting_limit };
}

impl Outbox {
    /// That of a program for which nothing waits yet.
    pub fn make(alloc: Global) -> Result<Outbox, OutOfMemory>
        ensures { IfOk result (λ outbox. outbox ≡ empty) }
    {
        let ring = HeapCircularBuffer::with_capacity(alloc, WAITING_LIMIT)?;
        Ok(Outbox { ring, full: false })
    }

    /// Puts the level of a context behind what waits, where it fits; from the first that doesn't on nothing is put. The context has this
    /// position in its program's own table. It takes no memory.
    pub fn put_level(&mut self, level: Level, position: u32)
        ensures { self.new ≡ with_level level position self.old }
    {
        if self.full {
            return;
        }
        let message = level_frame(level, position);
        let piece = message.bytes();
        if self.ring.len() + piece.len() <= WAITING_LIMIT {
            let _all = self.ring.fill_from_slice(piece);
        } else {
            self.full = true;
        }
    }

    /// Sends what waits, until nothing is left or the link takes nothing more. The channel ends where its link fails, and
    /// where it is full.
    pub fn pump<L: Link>(&mut self, link: &mut L) -> Option<ChannelEnd>
        ensures { IsPump result self.old self.new (L.told link.old) (L.told link.new) }
    {
        if self.full {
            return Some(ChannelEnd::Slow);
        }
        send_all(&mut self.ring, link)
    }
}

/// The message that tells a program the level of a context; its trace status is -1.
fn level_frame(level: Level, position: u32) -> Frame
    ensures { result ≡ level_message level position }
{
    let mut message = Frame::new();
    message.extend_from_slice(b"DUH\x01");
    message.extend_from_slice(&6u32.to_le_bytes());
    message.extend_from_slice(&[level.number(), 0xFF]);
    message.extend_from_slice(&position.to_le_bytes());
    message
}
