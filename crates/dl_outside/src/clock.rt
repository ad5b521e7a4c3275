//! What time it is.

use dl_bytes::Moment;

/// A clock. It has no meaning here: each of its answers is kept in what was noted then.
pub trait Clock {
    /// The moment: the time of day, and the timestamp in units of 0.1 ms.
    fn now(&self) -> Moment;
}
