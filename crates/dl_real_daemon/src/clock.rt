//! The clocks of the machine, and a gate that is open.

ghost use Rattle.std.specs.Prelude.{◌≡◌, ◌-◌, ◌/◌, ◌%◌, ◌^◌};
ghost use Rattle.std.specs.Duration.{as_nanos};

use dl_bytes::Moment;
use dl_outside::{Clock, Gate};
use std::time::Duration;

/// The wall clock and the monotonic clock. The timestamp counts 0.1 ms since the clock was made, and begins again
/// after 2^32 of them, some five days. A clock that can't be read stands at 0.
#[derive(Clone, Copy)]
pub struct SystemClock<R> {
    rt: R,
    start: Duration,
}

/// The moment of a time since 1970, and of a monotonic time with the one at which the clock was made.
fn moment(day: Duration, start: Duration, now: Duration) -> Moment
    ensures secs { result.secs ≡ as_nanos day / 1_000_000_000 % 2 ^ 32 }
    ensures micros { result.micros ≡ as_nanos day % 1_000_000_000 / 1_000 }
    ensures ticks { result.ticks ≡ (as_nanos now - as_nanos start) / 100_000 % 2 ^ 32 }
{
    let passed = now.saturating_sub(start).as_nanos() / 100_000;
    Moment {
        secs: (day.as_secs() % (1 << 32)) as u32,
        micros: day.subsec_micros(),
        ticks: (passed % (1 << 32)) as u32,
    }
}

impl<R: std::time::Clock> SystemClock<R> {
    /// A clock whose timestamp begins now.
    pub fn make(rt: R) -> SystemClock<R> {
        let start = rt.monotonic().unwrap_or(Duration::ZERO);
        SystemClock { rt, start }
    }
}

impl<R: std::time::Clock> Clock for SystemClock<R> {
    fn now(&self) -> Moment {
        let day = self.rt.since_1970().unwrap_or(Duration::ZERO);
        let now = self.rt.monotonic().unwrap_or(self.start);
        moment(day, self.start, now)
    }
}

/// A gate that lets every worker pass at once.
#[derive(Clone, Copy)]
pub struct OpenGate;

impl Gate for OpenGate {
    fn pass(&self, _writer: u8, _call: u64) {}
}
