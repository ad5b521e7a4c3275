//! All open clients, in the order of their numbers.

ghost use Rattle.std.specs.Prelude.{◌≡◌, ℕ, None, map};
ghost use Rattle.dl_desk.specs.Told.{ControlTold};
ghost use Rattle.dl_hub.specs.State.{IsSameHub, outbox_of};
ghost use Rattle.dl_rounds.specs.ListenerPool.{Seated};
ghost use Rattle.dl_rounds.specs.Ready.{AreHeard, AreLinked, KeepsRoom};
ghost use Rattle.dl_rounds.specs.Rounds.{seated};
ghost use Rattle.dl_rounds.specs.Visits.{HaveShut, HearsAll, PumpsAll};

use crate::listener_pool::ListenerPool;
use crate::visits::{close_one, listen_to, pump_to};
use dl_core::Core;
use dl_desk::WriterControl;
use dl_events::Journal;
use dl_outside::{Folder, Link, LinkList};
use std::alloc::Global;
use std::sync::Wait;

/// Listens to each open client once, in the order of their numbers. Answers whether anything moved.
pub fn listen_all<R: Wait, D: WriterControl, J: Journal, L: Link, F: Folder>(
    rt: &R,
    alloc: Global,
    core: &mut Core,
    desk: &mut D,
    journal: &mut J,
    links: &mut LinkList<L>,
    seats: &mut ListenerPool,
    folder: &mut F,
) -> bool
    requires linked { AreLinked links.old core.old (J.spare journal.old) }
    requires heard { AreHeard seats.old core.old (D.told desk.old) }
    ensures visits { let c = seated L.told D.told J.events F.told in HearsAll result
        (c links.old seats.old core.old desk.old journal.old folder.old) (c links.new seats.new core.new desk.new journal.new folder.new) }
    ensures linked { AreLinked links.new core.new (J.spare journal.new) }
    ensures heard { AreHeard seats.new core.new (D.told desk.new) }
    ensures room { KeepsRoom core.old core.new (J.spare journal.old) (J.spare journal.new) }
    ensures same { IsSameHub core.old.hub core.new.hub }
    ensures rest { D.same_rest desk.old desk.new }
{
    let mut moved = false;
    let mut last = 0;
    while let Some(client) = core.hub().next_open(last) {
        seats.seat(core.hub(), client);
        let link = links.of_mut(client);
        let listener = seats.of_mut(client);
        moved |= listen_to(
            rt, alloc, core, desk, journal, listener, client, link, folder,
        );
        last = client;
    }
    moved
}

/// Sends each open client once what waits for it, in the order of their numbers. Answers whether anything moved.
pub fn pump_all<J: Journal, L: Link>(
    core: &mut Core,
    journal: &mut J,
    links: &mut LinkList<L>,
) -> bool
    requires linked { AreLinked links.old core.old (J.spare journal.old) }
    ensures visits { PumpsAll result (map L.told links.old.links) (map L.told links.new.links) core.old core.new (J.events journal.old) (J.events journal.new) }
    ensures linked { AreLinked links.new core.new (J.spare journal.new) }
    ensures heard { (seated : Seated) (desk : ControlTold) → AreHeard seated core.old desk → AreHeard seated core.new desk }
    ensures room { KeepsRoom core.old core.new (J.spare journal.old) (J.spare journal.new) }
    ensures same { IsSameHub core.old.hub core.new.hub }
{
    let mut moved = false;
    let mut last = 0;
    while let Some(client) = core.hub().next_open(last) {
        moved |= pump_to(core, journal, client, links.of_mut(client));
        last = client;
    }
    moved
}

/// Closes each open client, in the order of their numbers, as the daemon stops.
pub fn close_all<R: Wait, D: WriterControl, J: Journal, L: Link, F: Folder>(
    rt: &R,
    alloc: Global,
    core: &mut Core,
    desk: &mut D,
    journal: &mut J,
    links: &mut LinkList<L>,
    seats: &mut ListenerPool,
    folder: &mut F,
)
    requires linked { AreLinked links.old core.old (J.spare journal.old) }
    requires heard { AreHeard seats.old core.old (D.told desk.old) }
    ensures visits { let c = seated L.told D.told J.events F.told in HaveShut L.told
        (c links.old seats.old core.old desk.old journal.old folder.old) (c links.new seats.new core.new desk.new journal.new folder.new) }
    ensures none { (number : ℕ) → outbox_of core.new.hub number ≡ None }
    ensures linked { AreLinked links.new core.new (J.spare journal.new) }
    ensures heard { AreHeard seats.new core.new (D.told desk.new) }
    ensures room { KeepsRoom core.old core.new (J.spare journal.old) (J.spare journal.new) }
    ensures same { IsSameHub core.old.hub core.new.hub }
    ensures rest { D.same_rest desk.old desk.new }
{
    let mut last = 0;
    while let Some(client) = core.hub().next_open(last) {
        seats.seat(core.hub(), client);
        let link = links.of_mut(client);
        let listener = seats.of_mut(client);
        close_one(
            rt, alloc, core, desk, journal, listener, client, link, folder,
        );
        last = client;
    }
}
