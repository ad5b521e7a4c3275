//! The machine's clocks against std's.

use dl_bytes::Moment;
use dl_outside::Clock;
use dl_real_daemon::SystemClock;
use std::time::{Duration, Instant};
use std::{io, thread};

/// How often the clock is read.
const READINGS: u32 = 3;

/// The seconds since 1970, as std tells them.
fn secs<R: std::time::Clock>(rt: &R) -> io::Result<u64> {
    Ok(rt.since_1970()?.as_secs())
}

/// The tenths of a millisecond since a moment.
fn tenths<R: std::time::Clock>(rt: &R, since: &Instant) -> io::Result<u128> {
    Ok(since.elapsed(rt)?.as_micros() / 100)
}

/// Whether a moment's ticks and seconds lie between these.
fn lies_within(moment: Moment, ticks: (u128, u128), secs: (u64, u64)) -> bool {
    let at = u128::from(moment.ticks);
    let second = u64::from(moment.secs);
    ticks.0 <= at && at <= ticks.1.saturating_add(1) && secs.0 <= second && second <= secs.1
}

/// Whether a clock that was made between these two moments tells a moment that the machine's clocks have too.
fn tells<R: std::time::Clock, C: Clock>(
    rt: &R,
    clock: &C,
    before: &Instant,
    after: &Instant,
) -> io::Result<bool> {
    let at_least = tenths(rt, after)?;
    let day = secs(rt)?;
    let moment = clock.now();
    let next_day = secs(rt)?;
    let at_most = tenths(rt, before)?;
    Ok(lies_within(moment, (at_least, at_most), (day, next_day)))
}

/// The same of three readings, 30 milliseconds apart.
fn tells_often<R: std::time::Clock, C: Clock>(
    rt: &R,
    clock: &C,
    before: &Instant,
    after: &Instant,
) -> io::Result<bool> {
    for _ in 0..READINGS {
        thread::sleep(rt, Duration::from_millis(30));
        if !tells(rt, clock, before, after)? {
            return Ok(false);
        }
    }
    Ok(true)
}

#[test]
fn readings(rt: HostRuntime) -> io::Result<()> {
    let before = Instant::now(&rt)?;
    let clock = SystemClock::make(rt);
    let after = Instant::now(&rt)?;
    assert!(rt; tells_often(&rt, &clock, &before, &after)?);
    Ok(())
}
