//! Why bytes are no user message.

ghost use Rattle.std.specs.Prelude.{◌≡◌};

use dl_bytes::OutOfMemory;
use dl_headers::HeaderFault;

/// What is wrong with a channel's bytes, in the place of a user message. It shows as soon as its bytes are there.
#[derive(Clone, Copy, Debug, PartialEq, Eq)]
pub enum UserFault {
    /// The first four bytes aren't the marker.
    Marker,
    /// The kind, which is none of 1 to 8.
    Kind(u32),
    /// The message inside a log message has a bad header: what is wrong with it.
    Inner(HeaderFault),
    /// The length of a text, a body or a log message in bytes, which is above its limit.
    TooLong(u32),
    /// The level, which is outside its range.
    Level(i8),
}

/// Why the bytes at the front are no message.
#[derive(Clone, Copy, Debug)]
pub enum Stop {
    /// There are too few of them to tell.
    NeedMore,
    /// They can't become one.
    Bad(UserFault),
}

/// Why no message was given.
#[derive(Clone, Copy, Debug)]
pub enum ReadError {
    /// No message stands at the front.
    Stop(Stop),
    /// It is whole, and there is no memory for it.
    OutOfMemory,
}

impl From<Stop> for ReadError {
    ghost use Rattle.dl_user.specs.declared.fault.ReadError.TheVariants as errors;

    ghost from_gives = { λ stop error. error ≡ errors.Stop stop };

    fn from(stop: Stop) -> ReadError {
        ReadError::Stop(stop)
    }
}

impl From<OutOfMemory> for ReadError {
    ghost use Rattle.dl_user.specs.declared.fault.ReadError.TheVariants.{OutOfMemory};

    ghost from_gives = { λ _ error. error ≡ OutOfMemory };

    fn from(_error: OutOfMemory) -> ReadError {
        ReadError::OutOfMemory
    }
}
