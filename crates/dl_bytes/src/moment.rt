//! When something happened, as the daemon's clock tells it.

ghost use Rattle.std.specs.Prelude.{◌<◌};

/// A moment of the daemon's clock: the time of day for stored headers, and the timestamp for messages.
#[derive(Clone, Copy, PartialEq, Eq)]
pub struct Moment {
    /// Seconds since the beginning of 1970, UTC.
    pub secs: u32,
    /// Microseconds of the second, below 1,000,000.
    pub micros: u32,
    /// The timestamp, in units of 0.1 ms.
    pub ticks: u32,
    ghost within_second: { micros < 1000000 },
}
