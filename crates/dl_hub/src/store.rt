//! The backlog: frames that wait for a client.

ghost use Rattle.std.specs.Prelude.{◌≡◌, ◌≤◌, ◌<◌, ◌^◌, ◌+◌, ◌++◌, ◌∷◌, [], Some, IfOk, length};
ghost use Rattle.dl_bytes.specs.Limits.{admitted_limit};
ghost use Rattle.dl_model.specs.Backlog.{size_of};
ghost use Rattle.dl_model.specs.Overflow.{overflow_frames};
ghost use Rattle.dl_control.specs.Reply.{daemon_apid, daemon_ctid};
ghost use Rattle.dl_hub.specs.State.{Waiting, emptied, stored, handed};
ghost use Rattle.dl_hub.specs.Overflow.{with_frames, records_due, CanTake};

use crate::client::Client;
use crate::ring::Ring;
use dl_bytes::{Id, OutOfMemory};
use dl_message::overflow_frame;
use std::alloc::Global;
use std::marker::Model;

/// The frames that wait, within a limit of bytes. The first frame that doesn't fit is refused and counted, and so is
/// each one after it, until a client is handed what waits.
#[derive(Drop)]
pub struct Store {
    ring: Ring,
    frames: u64,
    refused: u64,
}

impl Model for Store {
    ghost use Rattle.std.specs.Prelude.{◌≡◌, []};
    ghost use Rattle.dl_hub.specs.State.{Stored};

    ghost Value = { Stored };

    ghost view = { λ s. record { ring = s.ring; frames = s.frames; refused = s.refused } };

    ghost invariant = { λ s. s.ring.begun ≡ [] };
}

impl Store {
    /// A backlog that can hold this many bytes.
    pub fn make(alloc: Global, limit: usize) -> Result<Store, OutOfMemory>
        requires { limit ≤ 2 ^ 40 }
        ensures { IfOk result (λ store. store ≡ record { ring = record { bytes = []; capacity = limit; due = []; begun = [] }; frames = 0; refused = 0 }) }
    {
        Ok(Store {
            ring: Ring::make(alloc, limit)?,
            frames: 0,
            refused: 0,
        })
    }

    /// How many bytes wait.
    pub fn len(&self) -> u64
        ensures { result ≡ length self.now.ring.bytes }
    {
        self.ring.len() as u64
    }

    /// How many frames wait.
    pub fn frames(&self) -> u64
        ensures { result ≡ self.now.frames }
    {
        self.frames
    }

    /// How many frames were refused.
    pub fn refused(&self) -> u64
        ensures { result ≡ self.now.refused }
    {
        self.refused
    }

    /// Keeps a frame, or refuses it.
    pub fn admit(&mut self, frame: &[u8])
        requires frames { self.old.frames < 2 ^ 63 }
        requires refused { self.old.refused < 2 ^ 63 }
        requires within { length self.old.ring.bytes ≤ self.old.ring.capacity }
        requires size { (4 ≤ length frame.now) × (length frame.now ≤ 65535) }
        ensures { self.new ≡ stored frame.now self.old }
    {
        if self.refused == 0 && frame.len() <= self.ring.room() {
            self.ring.push(frame, 1);
            self.frames += 1;
        } else {
            self.refused += 1;
        }
    }

    /// A client that is handed what waits, and told how many frames were refused. Nothing waits afterwards.
    pub fn hand_over(&mut self, ecu: Id, outbox: Ring) -> Client
        requires empty { outbox.bytes ≡ [] }
        requires refused { self.old.refused ≤ admitted_limit }
        requires frames { self.old.frames ≤ admitted_limit }
        requires room { length self.old.ring.bytes + size_of (overflow_frames ecu daemon_apid daemon_ctid self.old.refused) ≤ outbox.capacity }
        ensures client { result ≡ with_frames (overflow_frames ecu daemon_apid daemon_ctid self.old.refused) (records_due ecu self.old.refused) (handed outbox.capacity self.old) }
        ensures emptied { self.new ≡ record { ring = emptied self.old.ring; frames = 0; refused = 0 } }
    {
        let mut client = Client::handed(outbox, &mut self.ring, self.frames);
        add_refused(&mut client, ecu, self.refused);
        self.frames = 0;
        self.refused = 0;
        client
    }
}

/// Adds the records that report this many frames as refused.
fn add_refused(client: &mut Client, ecu: Id, refused: u64)
    requires { CanTake (overflow_frames ecu daemon_apid daemon_ctid refused) client.old }
    ensures { client.new ≡ with_frames (overflow_frames ecu daemon_apid daemon_ctid refused) (records_due ecu refused) client.old }
{
    let mut left = refused;
    while left > 0 {
        let counter = left.min(u32::MAX as u64) as u32;
        let frame = overflow_frame(
            ecu,
            Id::from_bytes(*b"DA1\0"),
            Id::from_bytes(*b"DC1\0"),
            counter,
        );
        client.add(frame.bytes(), counter);
        left -= counter as u64;
    }
}
