//! What bounds a daemon that does not end.

ghost use Rattle.std.specs.Prelude.{◌≡◌};
ghost use Rattle.dl_daemon.specs.Limits.{limits};

/// How many clients and channels may come. Who comes beyond that is let go, and counted.
#[derive(Clone, Copy, PartialEq, Eq)]
pub struct Limits {
    /// The most clients in all.
    pub clients: u32,
    /// The most channels that are open at once.
    pub open_channels: u16,
    /// The most channels in all.
    pub channels: u16,
}

impl Limits {
    /// Those of the daemon. For each client and each channel that may come a hundred bytes or two are taken at the begin, and touched as it comes.
    /// What cuts their bytes, and what waits for them, is kept for as many as may be open at once.
    #[tactic(auto, unfolding(crate::specs::Limits::limits))]
    pub fn of_daemon() -> Limits
        ensures { result ≡ limits }
    {
        Limits {
            clients: 65535,
            open_channels: 16,
            channels: 65535,
        }
    }
}
