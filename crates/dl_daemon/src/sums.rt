//! What is counted over several sessions of one process.

ghost use Rattle.std.specs.Prelude.{◌≡◌};
ghost use Rattle.dl_daemon.specs.Sums.{behind, closes_behind, ends_behind, nothing_counted};

use crate::figures::{ChannelEnds, Figures};
use dl_events::Closes;

/// How clients were closed in a session and before it.
pub fn closes_behind(before: &Closes, now: &Closes) -> Closes
    ensures { result ≡ closes_behind before.now now.now }
{
    Closes {
        left: before.left.saturating_add(now.left),
        broken: before.broken.saturating_add(now.broken),
        slow: before.slow.saturating_add(now.slow),
        malformed: before.malformed.saturating_add(now.malformed),
        too_many: before.too_many.saturating_add(now.too_many),
        no_memory: before.no_memory.saturating_add(now.no_memory),
    }
}

/// How channels of programs ended in a session and before it.
pub fn ends_behind(before: &ChannelEnds, now: &ChannelEnds) -> ChannelEnds
    ensures { result ≡ ends_behind before.now now.now }
{
    ChannelEnds {
        left: before.left.saturating_add(now.left),
        broken: before.broken.saturating_add(now.broken),
        bad: before.bad.saturating_add(now.bad),
        slow: before.slow.saturating_add(now.slow),
        no_memory: before.no_memory.saturating_add(now.no_memory),
    }
}

impl Figures {
    /// Those before the first session.
    #[tactic(auto, unfolding(crate::specs::Sums::nothing_counted))]
    pub fn nothing() -> Figures
        ensures { result ≡ nothing_counted }
    {
        Figures {
            clients: 0,
            open_clients: 0,
            closes: Closes {
                left: 0,
                broken: 0,
                slow: 0,
                malformed: 0,
                too_many: 0,
                no_memory: 0,
            },
            untaken: 0,
            channels: 0,
            open_channels: 0,
            ends: ChannelEnds {
                left: 0,
                broken: 0,
                bad: 0,
                slow: 0,
                no_memory: 0,
            },
            frames: 0,
            waiting: 0,
            refused: 0,
            dropped: 0,
            client_faults: 0,
            program_faults: 0,
            files: 0,
            bytes: 0,
            renewed: 0,
            taken: 0,
            unstored: 0,
            ended: false,
        }
    }

    /// These of a session with those of the sessions before it: what came and went is added up, each sum at most 2^64 - 1; what stands now is this session's.
    /// Faults of the nets and trace files that were taken away are counted by who outlives a session.
    #[tactic(auto, unfolding(crate::specs::Sums::behind))]
    pub fn behind(&self, before: &Figures) -> Figures
        ensures { result ≡ behind before.now self.now }
    {
        Figures {
            clients: before.clients.saturating_add(self.clients),
            closes: closes_behind(&before.closes, &self.closes),
            untaken: before.untaken.saturating_add(self.untaken),
            channels: before.channels.saturating_add(self.channels),
            ends: ends_behind(&before.ends, &self.ends),
            frames: before.frames.saturating_add(self.frames),
            dropped: before.dropped.saturating_add(self.dropped),
            renewed: before.renewed.saturating_add(self.renewed),
            unstored: before.unstored.saturating_add(self.unstored),
            ..*self
        }
    }
}
