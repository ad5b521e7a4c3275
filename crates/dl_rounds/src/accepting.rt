//! Clients that come.

ghost use Rattle.std.specs.Prelude.{◌≡◌, ◌≢◌, ◌≤◌, ◌+◌, ◌-◌, ◌^◌, ℕ, min, IfSome, IfNone, OnSome};
ghost use Rattle.dl_outside.specs.Outside.{Stays};
ghost use Rattle.dl_desk.specs.Told.{ControlTold};
ghost use Rattle.dl_registry.specs.Kept.{owed_change};
ghost use Rattle.dl_hub.specs.State.{HasPlace};
ghost use Rattle.dl_rounds.specs.ListenerPool.{Seated};
ghost use Rattle.dl_rounds.specs.declared.accepting.Arrival.TheVariants as arrival;
ghost use Rattle.dl_rounds.specs.Arrivals.{Arrives, ConnectsAs, Connects};
ghost use Rattle.dl_rounds.specs.Ready.{AreHeard, AreLinked, open_clients};

use dl_core::Core;
use dl_events::Journal;
use dl_outside::{Accepted, LinkList, Net};

/// What came of an accept.
#[derive(Clone, Copy, PartialEq, Eq)]
pub enum Arrival {
    /// A client connected, under this number.
    Client(u32),
    /// A link came and was dropped: as many clients are open as may be at once, or as many came as may come.
    Dropped,
    /// No connection waits.
    Nobody,
    /// The net failed: its count of faults rose.
    Failed,
    /// Memory ran out.
    OutOfMemory,
}

/// Connects a client that has come, and answers its number. Where the hub has no place for it there is none, and it is counted in `dropped`, up
/// to 4,294,967,295.
pub fn connect_one<J: Journal>(core: &mut Core, journal: &mut J, dropped: &mut u32) -> Option<u32>
    requires settled { owed_change core.old.registry ≡ None }
    requires spare { HasPlace core.old.hub → 1 ≤ J.spare journal.old }
    ensures connects { IfSome result (λ number. Connects number core.old core.new (J.events journal.old) (J.events journal.new)) }
    ensures spare { OnSome result (J.spare journal.new + 1 ≡ J.spare journal.old) }
    ensures kept { OnSome result (dropped.new ≡ dropped.old) }
    ensures refused { IfNone result (HasPlace core.old.hub → ⊥) }
    ensures same { IfNone result ((core.new ≡ core.old) × (journal.new ≡ journal.old)) }
    ensures dropped { IfNone result (dropped.new ≡ min (dropped.old + 1) (2 ^ 32 - 1)) }
{
    if core.may_connect() {
        return core.connect(journal).ok();
    }
    *dropped = dropped.saturating_add(1);
    None
}

/// Accepts one connection, and connects its client: its link is the last one then. Where the hub has no place for it the link is dropped and
/// counted.
pub fn accept_one<N: Net, J: Journal>(
    core: &mut Core,
    journal: &mut J,
    net: &mut N,
    links: &mut LinkList<N::L>,
    dropped: &mut u32,
) -> Arrival
where
    N::L: Drop,
    requires linked { AreLinked links.old core.old (J.spare journal.old) }
    requires spare { HasPlace core.old.hub → open_clients core.old.hub + 2 ≤ J.spare journal.old }
    ensures arrives { Arrives N.L.told result (N.told net.old) (N.told net.new) links.old links.new dropped.old dropped.new }
    ensures connects { ConnectsAs result core.old core.new (J.events journal.old) (J.events journal.new) }
    ensures listens { Stays (N.told net.old).listens_on (N.told net.new).listens_on }
    ensures launched { Stays (N.told net.old).launched (N.told net.new).launched }
    ensures linked { AreLinked links.new core.new (J.spare journal.new) }
    ensures heard { (seated : Seated) (desk : ControlTold) → AreHeard seated core.old desk → AreHeard seated core.new desk }
    ensures spare { (number : ℕ) → result ≡ arrival.Client number → J.spare journal.new + 1 ≡ J.spare journal.old }
    ensures unused { ((number : ℕ) → result ≢ arrival.Client number) → journal.new ≡ journal.old }
{
    match net.accept() {
        Accepted::Link(link) => match connect_one(core, journal, dropped) {
            Some(client) => {
                links.add(link);
                Arrival::Client(client)
            }
            None => Arrival::Dropped,
        },
        Accepted::None => Arrival::Nobody,
        Accepted::Failed => Arrival::Failed,
        Accepted::OutOfMemory => Arrival::OutOfMemory,
    }
}
