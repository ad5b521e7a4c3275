//! The user messages in what a program sends.

ghost use Rattle.std.specs.Prelude.{◌++◌};
ghost use Rattle.dl_channel.specs.Finding.{Finds, IsWithin};

use dl_bytes::UserMsg;
use dl_user::{UserCut, UserCutter, UserFault};

/// What comes next in the bytes of a program.
#[derive(Drop)]
pub enum Next {
    /// A message, and how many bytes of the piece were fed until it was whole.
    Message(UserMsg, usize),
    /// No message is whole; all bytes of the piece were fed.
    NoMore,
    /// No message begins with what is left.
    Bad(UserFault),
    /// A message is whole for which there is no memory.
    NoMemory,
}

/// Finds the next message in what a cutter holds and in a piece that comes behind it.
pub fn next_message(cutter: &mut UserCutter, piece: &[u8]) -> Next
    requires { IsWithin cutter.old }
    ensures within { IsWithin cutter.new }
    ensures finds { Finds (cutter.old.unread ++ piece.now) piece.now result cutter.new }
{
    let mut taken = 0;
    loop {
        match cutter.next() {
            UserCut::Message(msg) => return Next::Message(msg, taken),
            UserCut::NeedMore if taken == piece.len() => return Next::NoMore,
            UserCut::NeedMore => taken += cutter.feed(&piece[taken..]),
            UserCut::Bad(fault) => return Next::Bad(fault),
            UserCut::OutOfMemory => return Next::NoMemory,
        }
    }
}
