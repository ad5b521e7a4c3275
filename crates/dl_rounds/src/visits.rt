//! One client in its round. Nothing here knows where its link and its listener are kept.

ghost use Rattle.std.specs.Prelude.{◌≡◌, ◌≤◌, ℕ, true, IsSome, None};
ghost use Rattle.dl_bytes.specs.Limits.{message_limit};
ghost use Rattle.dl_registry.specs.Kept.{owed_change};
ghost use Rattle.dl_hub.specs.State.{outbox_of};
ghost use Rattle.dl_turns.specs.Events.{HasServed, IsDeskOf, IsServing};
ghost use Rattle.dl_rounds.specs.Clients.{seen};
ghost use Rattle.dl_rounds.specs.Ready.{KeepsRoom};
ghost use Rattle.dl_rounds.specs.Visits.{Heard, PumpsTo, Shuts};

use crate::listener::Listener;
use dl_core::Core;
use dl_desk::WriterControl;
use dl_events::Journal;
use dl_outside::{Folder, Link};
use dl_turns::{client_turn, close_turn, pump_turn};
use std::alloc::Global;
use std::sync::Wait;

/// Listens to a client that is open, and shuts its link where that closed it. Answers whether anything moved: the link gave a byte, or the
/// client was closed.
pub fn listen_to<R: Wait, D: WriterControl, J: Journal, L: Link, F: Folder>(
    rt: &R,
    alloc: Global,
    core: &mut Core,
    desk: &mut D,
    journal: &mut J,
    listener: &mut Listener,
    client: u32,
    link: &mut L,
    folder: &mut F,
) -> bool
    requires limit { listener.old.cutter.limit ≡ message_limit }
    requires serving { IsServing client listener.old.served core.old (D.told desk.old) }
    requires spare { 1 ≤ J.spare journal.old }
    ensures heard { let c = seen L.told D.told J.events F.told in Heard client result
        (c link.old listener.old core.old desk.old journal.old folder.old) (c link.new listener.new core.new desk.new journal.new folder.new) }
    ensures limit { listener.new.cutter.limit ≡ message_limit }
    ensures settled { owed_change core.new.registry ≡ None }
    ensures desk { IsDeskOf core.new.registry (D.told desk.new) }
    ensures spare { KeepsRoom core.old core.new (J.spare journal.old) (J.spare journal.new) }
    ensures rest { D.same_rest desk.old desk.new }
{
    let idles = link.idles();
    let closed = client_turn(
        rt,
        alloc,
        core,
        desk,
        journal,
        &mut listener.cutter,
        &mut listener.served,
        client,
        link,
        folder,
    );
    match closed {
        Some(_why) => {
            link.shut();
            true
        }
        None => link.idles() == idles,
    }
}

/// Sends what waits for a client that is open, as much of it as its link takes, and shuts the link where that closed the client. Answers
/// whether anything moved: the link took a byte, or the client was closed.
pub fn pump_to<J: Journal, L: Link>(
    core: &mut Core,
    journal: &mut J,
    client: u32,
    link: &mut L,
) -> bool
    requires open { IsSome (outbox_of core.old.hub client) }
    requires settled { owed_change core.old.registry ≡ None }
    requires spare { 1 ≤ J.spare journal.old }
    ensures pumped { PumpsTo client result (L.told link.old) (L.told link.new) core.old core.new (J.events journal.old) (J.events journal.new) }
    ensures registry { core.new.registry ≡ core.old.registry }
    ensures served { (served : ℕ) → HasServed client served core.old → HasServed client served core.new }
    ensures spare { KeepsRoom core.old core.new (J.spare journal.old) (J.spare journal.new) }
{
    let waiting = core.hub().waiting(client);
    match pump_turn(core, journal, client, link) {
        Some(_why) => {
            link.shut();
            true
        }
        None => core.hub().waiting(client) < waiting,
    }
}

/// Closes a client that is open, at the daemon's stop: it has its closing turns before that, and its link is shut behind it.
pub fn close_one<R: Wait, D: WriterControl, J: Journal, L: Link, F: Folder>(
    rt: &R,
    alloc: Global,
    core: &mut Core,
    desk: &mut D,
    journal: &mut J,
    listener: &mut Listener,
    client: u32,
    link: &mut L,
    folder: &mut F,
)
    requires limit { listener.old.cutter.limit ≡ message_limit }
    requires serving { IsServing client listener.old.served core.old (D.told desk.old) }
    requires spare { 1 ≤ J.spare journal.old }
    ensures closed { let c = seen L.told D.told J.events F.told in Shuts L.told client
        (c link.old listener.old core.old desk.old journal.old folder.old) (c link.new listener.new core.new desk.new journal.new folder.new) }
    ensures limit { listener.new.cutter.limit ≡ message_limit }
    ensures settled { owed_change core.new.registry ≡ None }
    ensures desk { IsDeskOf core.new.registry (D.told desk.new) }
    ensures spare { KeepsRoom core.old core.new (J.spare journal.old) (J.spare journal.new) }
    ensures rest { D.same_rest desk.old desk.new }
{
    let _why = close_turn(
        rt,
        alloc,
        core,
        desk,
        journal,
        &mut listener.cutter,
        &mut listener.served,
        client,
        link,
        folder,
    );
    link.shut();
}
