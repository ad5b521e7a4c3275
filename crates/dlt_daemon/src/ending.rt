//! The time between the end of standard input and the closing, in which programs are heard.

/// How long no message may have come before the daemon closes, in units of 0.1 ms.
const QUIET: u32 = 2_000;

/// How long programs that go on are heard at most, in units of 0.1 ms.
const PATIENCE: u32 = 50_000;

/// A daemon that is to end.
#[derive(Clone, Copy)]
pub struct Ending {
    since: u32,
    frames: u64,
    changed: u32,
}

impl Ending {
    /// It is to end from this timestamp on; so many messages were taken in before.
    pub fn at(now: u32, frames: u64) -> Ending {
        Ending {
            since: now,
            frames,
            changed: now,
        }
    }

    /// Whether the programs were heard: for a while no message came, or it took too long.
    pub fn has_heard(&mut self, now: u32, frames: u64) -> bool {
        if frames != self.frames {
            self.frames = frames;
            self.changed = now;
        }
        now.wrapping_sub(self.changed) >= QUIET || now.wrapping_sub(self.since) >= PATIENCE
    }
}
