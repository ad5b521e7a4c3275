//! How clients went, counted by cause.

ghost use Rattle.std.specs.Prelude.{◌≡◌, [], ◌∷◌, ◌++◌, ℕ, List, if◌then◌else◌};
ghost use Rattle.dl_events.specs.Closes.{closes_in};
ghost use Rattle.dl_events.specs.Journal.{one_more};
ghost use Rattle.dl_events.specs.declared.event.Event.{Event};
ghost use Rattle.dl_events.specs.declared.event.Event.TheVariants.{Close};

use crate::Why;

/// How many clients were closed while the daemon ran, by cause, each at most 2^64 - 1.
#[derive(Clone, Copy)]
pub struct Closes {
    /// Those that left.
    pub left: u64,
    /// Those whose link failed.
    pub broken: u64,
    /// Those whose outbox had no room for the next frames.
    pub slow: u64,
    /// Those that sent a message with a bad header.
    pub malformed: u64,
    /// Those that sent more than 1000 requests.
    pub too_many: u64,
    /// Those for whose request there was no memory.
    pub no_memory: u64,
}

/// A count, with one more where that is so. At 2^64 - 1 it stands.
pub fn counted(count: u64, more: bool) -> u64
    ensures { result ≡ (if more then one_more count else count) }
{
    if more { count.saturating_add(1) } else { count }
}

impl Closes {
    /// None was closed.
    pub(crate) fn none() -> Closes
        ensures { result ≡ closes_in [] }
    {
        Closes {
            left: 0,
            broken: 0,
            slow: 0,
            malformed: 0,
            too_many: 0,
            no_memory: 0,
        }
    }

    /// These, and one more that was closed for this cause.
    #[tactic(auto, using(crate::proofs::Closed::closed_more))]
    pub(crate) fn with(self, why: Why) -> Closes
        ensures { (events : List Event) (client : ℕ) → self ≡ closes_in events → result ≡ closes_in (events ++ Close client why ∷ []) }
    {
        Closes {
            left: counted(self.left, matches!(why, Why::Left)),
            broken: counted(self.broken, matches!(why, Why::Broken)),
            slow: counted(self.slow, matches!(why, Why::Slow { .. })),
            malformed: counted(self.malformed, matches!(why, Why::Malformed)),
            too_many: counted(self.too_many, matches!(why, Why::TooMany)),
            no_memory: counted(self.no_memory, matches!(why, Why::NoMemory)),
        }
    }
}
