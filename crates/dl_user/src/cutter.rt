//! The user messages of a channel whose bytes come in any pieces.

ghost use Rattle.std.specs.Prelude.{◌≡◌, IfOk};
ghost use Rattle.dl_user.specs.Channel.{unfed};
ghost use Rattle.dl_user.specs.Cutter.{Feeds, Cuts};

use crate::fault::{ReadError, Stop, UserFault};
use crate::read::front;
use dl_bytes::{Buffer, FRAME_LIMIT, OutOfMemory, UserMsg};
use std::alloc::Global;
use std::marker::Model;

/// The bytes of the longest user message: its marker, its kind, and a log message.
const CAPACITY: usize = 8 + FRAME_LIMIT;

/// What stands at the front of the bytes of a channel.
#[derive(Drop)]
pub enum UserCut {
    /// A message, which is within the limits. It is given once.
    Message(UserMsg),
    /// Nothing, or less than a message.
    NeedMore,
    /// No message, for good.
    Bad(UserFault),
    /// A message for which there is no memory: the next call tries it again.
    OutOfMemory,
}

/// The bytes of a channel, which are fed in any pieces and given as messages.
///
/// Feed and ask for messages in turn: what there was no room for is fed again after `NeedMore`.
#[derive(Drop)]
pub struct UserCutter {
    alloc: Global,
    buffer: Buffer,
    /// The fault that stands at the front, once it was answered.
    bad: Option<UserFault>,
}

impl Model for UserCutter {
    ghost use Rattle.std.specs.Prelude.{◌≡◌, is_some, if◌then◌else◌, IfSome};
    ghost use Rattle.dl_user.specs.declared.fault.Stop.TheVariants.{Bad};
    ghost use Rattle.dl_user.specs.Channel.{Channel};
    ghost use Rattle.dl_user.specs.Cut.{Stops};

    ghost Value = { Channel };

    ghost view = { λ c. record { unread = c.buffer.bytes; room = if is_some c.bad then 0 else c.buffer.room } };

    ghost invariant = { λ c. (c.buffer.capacity ≡ 1992) × IfSome c.bad (λ fault. Stops c.buffer.bytes (Bad fault)) };
}

impl UserCutter {
    /// A cutter of a channel that nothing came on. It takes its memory here, and that of each message when it is given.
    pub fn make(alloc: Global) -> Result<UserCutter, OutOfMemory>
        ensures { IfOk result (λ cutter. cutter ≡ unfed) }
    {
        Ok(UserCutter {
            alloc,
            buffer: Buffer::make(alloc, CAPACITY)?,
            bad: None,
        })
    }

    /// Takes the first bytes of the piece, and answers how many: as many as there is room for, and none after a fault.
    pub fn feed(&mut self, piece: &[u8]) -> usize
        ensures { Feeds self.old piece.now result self.new }
    {
        if self.bad.is_some() {
            return 0;
        }
        self.buffer.feed(piece)
    }

    /// The next message, or why there is none.
    pub fn next(&mut self) -> UserCut
        ensures { Cuts self.old result self.new }
    {
        if let Some(fault) = self.bad {
            return UserCut::Bad(fault);
        }
        match front(self.alloc, self.buffer.bytes()) {
            Ok((msg, len)) => {
                self.buffer.consume(len);
                UserCut::Message(msg)
            }
            Err(ReadError::Stop(Stop::NeedMore)) => {
                self.buffer.compact();
                UserCut::NeedMore
            }
            Err(ReadError::Stop(Stop::Bad(fault))) => {
                self.bad = Some(fault);
                UserCut::Bad(fault)
            }
            Err(ReadError::OutOfMemory) => UserCut::OutOfMemory,
        }
    }
}
