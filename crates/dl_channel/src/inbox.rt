//! What a program sent, on its way to be messages.

ghost use Rattle.std.specs.Prelude.{◌≡◌, ◌≤◌, ◌++◌, length, IfOk};
ghost use Rattle.dl_user.specs.Channel.{longest, unfed};
ghost use Rattle.dl_channel.specs.Finding.{Finds};

use crate::finding::{Next, next_message};
use dl_bytes::OutOfMemory;
use dl_user::UserCutter;
use std::alloc::Global;
use std::marker::Model;

/// What a program sent that is no whole message yet.
#[derive(Drop)]
pub struct Inbox {
    cutter: UserCutter,
}

impl Model for Inbox {
    ghost use Rattle.dl_user.specs.Channel.{Channel};
    ghost use Rattle.dl_channel.specs.Finding.{IsWithin};

    ghost Value = { Channel };

    ghost view = { λ i. i.cutter };

    ghost invariant = { λ i. IsWithin i.cutter };
}

impl Inbox {
    /// That of a program which sent nothing yet.
    pub fn make(alloc: Global) -> Result<Inbox, OutOfMemory>
        ensures { IfOk result (λ inbox. inbox ≡ unfed) }
    {
        let cutter = UserCutter::make(alloc)?;
        Ok(Inbox { cutter })
    }

    /// What always holds of what it holds, for callers whose own promise rests on it. It costs nothing.
    pub fn is_within(&self)
        ensures { length self.now.unread ≤ longest }
    {
        let _held = &self.cutter;
    }

    /// The next message in what it holds and in a piece that comes behind it.
    pub fn next(&mut self, piece: &[u8]) -> Next
        ensures { Finds (self.old.unread ++ piece.now) piece.now result self.new }
    {
        next_message(&mut self.cutter, piece)
    }
}
