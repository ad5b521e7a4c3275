//! One client's turns: it is listened to, and what waits for it is sent.

ghost use Rattle.std.specs.Prelude.{◌≡◌, ◌≤◌, ◌+◌, ℕ, IsSome, IfNone, OnSome};
ghost use Rattle.dl_bytes.specs.Limits.{message_limit};
ghost use Rattle.dl_outside.specs.Told.{FolderTold};
ghost use Rattle.dl_desk.specs.Told.{ControlTold};
ghost use Rattle.dl_registry.specs.Kept.{owed_change};
ghost use Rattle.dl_hub.specs.State.{outbox_of};
ghost use Rattle.dl_turns.specs.Events.{HasServed, IsDeskOf, IsServing};
ghost use Rattle.dl_turns.specs.State.{seen, side};
ghost use Rattle.dl_turns.specs.Turns.{IsPump, IsTurn};

use crate::client::Client;
use crate::hearing::listen;
use dl_core::Core;
use dl_desk::WriterControl;
use dl_events::{Journal, Why};
use dl_hub::Pumped;
use dl_message::Cutter;
use dl_outside::{Folder, Link};
use std::alloc::Global;
use std::sync::Wait;

/// Listens to a client that is open: its link is asked once for at most 4096 bytes, and the requests that they make whole are served in
/// order, each with the Level events that it owes. The client is closed where its link has ended or failed, where a request is refused,
/// and where a bad header stands behind the requests. The answer is the cause, and none where the client is still open.
///
/// The levels that are set and the injections go to the desk, or to what stands for it once the writers are back. `served` is the number
/// of the client's requests so far, and the cutter holds what it sent and is no whole message yet.
pub fn client_turn<R: Wait, D: WriterControl, J: Journal, L: Link, F: Folder>(
    rt: &R,
    alloc: Global,
    core: &mut Core,
    desk: &mut D,
    journal: &mut J,
    cutter: &mut Cutter,
    served: &mut u32,
    client: u32,
    link: &mut L,
    folder: &mut F,
) -> Option<Why>
    requires limit { cutter.old.limit ≡ message_limit }
    requires serving { IsServing client served.old core.old (D.told desk.old) }
    requires spare { 1 ≤ J.spare journal.old }
    ensures turn { let s = seen L.told D.told J.events F.told in IsTurn client result
        (s link.old cutter.old core.old desk.old journal.old folder.old)
        (s link.new cutter.new core.new desk.new journal.new folder.new) }
    ensures limit { cutter.new.limit ≡ message_limit }
    ensures serving { IfNone result (IsServing client served.new core.new (D.told desk.new)) }
    ensures served { HasServed client served.new core.new }
    ensures settled { owed_change core.new.registry ≡ None }
    ensures desk { IsDeskOf core.new.registry (D.told desk.new) }
    ensures spare { IfNone result (J.spare journal.old ≤ J.spare journal.new) }
    ensures noted { OnSome result (J.spare journal.old ≤ J.spare journal.new + 1) }
    ensures rest { D.same_rest desk.old desk.new }
{
    let mut own = Client {
        number: client,
        cutter,
        served,
    };
    match listen(rt, alloc, core, desk, journal, &mut own, link, folder) {
        Ok(_gave) => None,
        Err(why) => {
            core.close(client, why, journal);
            Some(why)
        }
    }
}

/// Sends what waits for a client that is open, until nothing is left or its link takes nothing more. The client is closed where its link
/// fails.
pub fn pump_turn<J: Journal, L: Link>(
    core: &mut Core,
    journal: &mut J,
    client: u32,
    link: &mut L,
) -> Option<Why>
    requires open { IsSome (outbox_of core.old.hub client) }
    requires settled { owed_change core.old.registry ≡ None }
    requires spare { 1 ≤ J.spare journal.old }
    ensures pump { (desk : ControlTold) (folder : FolderTold)
        → IsPump client result (L.told link.old) (L.told link.new) (side core.old desk (J.events journal.old) folder) (side core.new desk (J.events journal.new) folder) }
    ensures open { IfNone result (IsSome (outbox_of core.new.hub client)) }
    ensures settled { owed_change core.new.registry ≡ None }
    ensures registry { core.new.registry ≡ core.old.registry }
    ensures served { (served : ℕ) → HasServed client served core.old → HasServed client served core.new }
    ensures spare { IfNone result (journal.new ≡ journal.old) }
    ensures noted { OnSome result (J.spare journal.old ≡ J.spare journal.new + 1) }
{
    match core.pump(client, link) {
        Pumped::All | Pumped::Busy => None,
        Pumped::Failed => {
            core.close(client, Why::Broken, journal);
            Some(Why::Broken)
        }
    }
}
