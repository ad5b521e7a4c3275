//! The statuses of replies.

ghost use Rattle.std.specs.Prelude.{◌≡◌};
ghost use Rattle.dl_model.specs.Reply.{done_status};

use dl_bytes::Done;

/// It is done.
pub const DONE: u8 = 0;

/// The service, or what is asked of it, is not supported.
pub const NOT_SUPPORTED: u8 = 1;

/// It is refused, or it failed.
pub const FAILED: u8 = 2;

/// No context matches.
pub const NO_CONTEXT: u8 = 8;

/// The reply would be too long for a message.
pub const TOO_LONG: u8 = 9;

/// There was no memory for it.
pub const NO_MEMORY: u8 = 10;

/// The status of a request that needed the folder, by what came of it.
pub fn folder_status(done: Done) -> u8
    ensures { result ≡ done_status done }
{
    match done {
        Done::Yes => DONE,
        Done::Failed => FAILED,
        Done::NoMemory => NO_MEMORY,
    }
}
