//! The closing turns of a client at the daemon's stop.

ghost use Rattle.std.specs.Prelude.{◌≡◌, ◌≤◌, ◌<◌, ◌+◌, ◌⊎◌, ℕ, true, false, length, IsSomeAnd, Ok, Err, Some, IfErr, IfOk, IsSome, OnErr, OnOk};
ghost use Rattle.dl_bytes.specs.Limits.{message_limit};
ghost use Rattle.dl_events.specs.declared.event.Why.TheVariants.{Left};
ghost use Rattle.dl_outside.specs.Told.{FolderTold};
ghost use Rattle.dl_desk.specs.Told.{ControlTold};
ghost use Rattle.dl_registry.specs.Kept.{owed_change};
ghost use Rattle.dl_hub.specs.State.{outbox_of};
ghost use Rattle.dl_core.specs.Closing.{MayEnd};
ghost use Rattle.dl_turns.specs.Clients.{IsSame};
ghost use Rattle.dl_turns.specs.Events.{Closes, HasServed, IsDeskOf, IsServing};
ghost use Rattle.dl_turns.specs.Gone.{TellTheEnd};
ghost use Rattle.dl_turns.specs.State.{seen, side};
ghost use Rattle.dl_turns.specs.Stopping.{GoesOn, IsClosedIn, IsStop, HasClosingTurns};

use crate::client::Client;
use crate::hearing::listen;
use crate::turns::pump_turn;
use dl_core::Core;
use dl_desk::WriterControl;
use dl_events::{Journal, Why};
use dl_message::Cutter;
use dl_outside::{Folder, Link};
use std::alloc::Global;
use std::sync::Wait;

/// The most closing turns of a client.
const CLOSING_TURNS: u32 = 1000;

/// Why a client that is still open is closed at the stop.
fn stop_cause(core: &Core, client: u32) -> Why
    requires { IsSome (outbox_of core.now.hub client) }
    ensures stop { IsStop result }
    ensures may { MayEnd core.now.hub client result }
{
    let left = core.hub().waiting(client);
    if left == 0 {
        return Why::Stopped;
    }
    Why::Stuck { left }
}

/// Closes a client that is still open: stopped where nothing waits for it, and stuck where something does.
fn stop<J: Journal>(core: &mut Core, journal: &mut J, client: u32) -> Why
    requires open { IsSome (outbox_of core.old.hub client) }
    requires settled { owed_change core.old.registry ≡ None }
    requires spare { 1 ≤ J.spare journal.old }
    ensures stop { IsStop result }
    ensures closes { (desk : ControlTold) (folder : FolderTold) → Closes client result (side core.old desk (J.events journal.old) folder) (side core.new desk (J.events journal.new) folder) }
    ensures served { (served : ℕ) → HasServed client served core.old → HasServed client served core.new }
    ensures registry { core.new.registry ≡ core.old.registry }
    ensures spare { J.spare journal.new + 1 ≡ J.spare journal.old }
{
    let why = stop_cause(core, client);
    core.close(client, why, journal);
    why
}

/// Whether a link gave nothing and nothing is left to send.
fn is_quiet(core: &Core, client: u32, gave: bool) -> bool
    requires { IsSome (outbox_of core.now.hub client) }
    ensures quiet { result ≡ true → (gave ≡ false) × IsSomeAnd (outbox_of core.now.hub client) (λ outbox. length outbox.bytes ≡ 0) }
    ensures not_quiet { result ≡ false → (gave ≡ true) ⊎ IsSomeAnd (outbox_of core.now.hub client) (λ outbox. 0 < length outbox.bytes) }
{
    if gave {
        return false;
    }
    core.hub().waiting(client) == 0
}

/// Rests where nothing moved in a turn: the link gave nothing, and of so many bytes that waited it took none. A link that moves never waits.
fn rest_if_stuck<L: Link>(core: &Core, client: u32, link: &mut L, gave: bool, before: u64)
    requires { IsSome (outbox_of core.now.hub client) }
    ensures { L.told link.new ≡ L.told link.old }
{
    let left = core.hub().waiting(client);
    if !gave && left > 0 && left == before {
        link.rest();
    }
}

/// One closing turn: the client is listened to, and then what waits is sent. Answers whether the link gave nothing and nothing is left to
/// send; an error is the cause for which the client was closed.
fn closing_turn<R: Wait, D: WriterControl, J: Journal, L: Link, F: Folder>(
    rt: &R,
    alloc: Global,
    core: &mut Core,
    desk: &mut D,
    journal: &mut J,
    client: &mut Client,
    link: &mut L,
    folder: &mut F,
) -> Result<bool, Why>
    requires limit { client.old.cutter.now.limit ≡ message_limit }
    requires serving { IsServing client.old.number client.old.served.now core.old (D.told desk.old) }
    requires spare { 1 ≤ J.spare journal.old }
    ensures goes { let s = seen L.told D.told J.events F.told in IfOk result (λ quiet. GoesOn client.old.number quiet
        (s link.old client.old.cutter.now core.old desk.old journal.old folder.old)
        (s link.new client.new.cutter.now core.new desk.new journal.new folder.new)) }
    ensures closed { let s = seen L.told D.told J.events F.told in IfErr result (λ why. IsClosedIn client.old.number why
        (s link.old client.old.cutter.now core.old desk.old journal.old folder.old)
        (s link.new client.new.cutter.now core.new desk.new journal.new folder.new)) }
    ensures limit { client.new.cutter.now.limit ≡ message_limit }
    ensures serving { OnOk result (IsServing client.old.number client.new.served.now core.new (D.told desk.new)) }
    ensures served { HasServed client.old.number client.new.served.now core.new }
    ensures settled { owed_change core.new.registry ≡ None }
    ensures desk { IsDeskOf core.new.registry (D.told desk.new) }
    ensures spare { OnOk result (J.spare journal.old ≤ J.spare journal.new) }
    ensures noted { OnErr result (J.spare journal.old ≤ J.spare journal.new + 1) }
    ensures left { result ≡ Err Left → TellTheEnd L.told → (L.told link.new).over ≡ Some true }
    ensures same { IsSame client.old client.new }
    ensures rest { D.same_rest desk.old desk.new }
{
    let number = client.number;
    let gave = match listen(rt, alloc, core, desk, journal, client, link, folder) {
        Ok(gave) => gave,
        Err(why) => {
            core.close(number, why, journal);
            return Err(why);
        }
    };
    let before = core.hub().waiting(number);
    match pump_turn(core, journal, number, link) {
        Some(why) => Err(why),
        None => {
            rest_if_stuck(core, number, link, gave, before);
            Ok(is_quiet(core, number, gave))
        }
    }
}

/// Closes a client at the daemon's stop, and answers the cause. Before that it has closing turns, at most 1000: in each it is listened to
/// as in a turn, and what waits for it is sent. They end after the first one in which its link gave nothing and nothing is left to send,
/// or in which the client was closed. One that is still open is stopped, or is stuck where its link did not take all. The link rests after a
/// turn in which nothing moved.
pub fn close_turn<R: Wait, D: WriterControl, J: Journal, L: Link, F: Folder>(
    rt: &R,
    alloc: Global,
    core: &mut Core,
    desk: &mut D,
    journal: &mut J,
    cutter: &mut Cutter,
    served: &mut u32,
    client: u32,
    link: &mut L,
    folder: &mut F,
) -> Why
    requires limit { cutter.old.limit ≡ message_limit }
    requires serving { IsServing client served.old core.old (D.told desk.old) }
    requires spare { 1 ≤ J.spare journal.old }
    ensures wound_up { let s = seen L.told D.told J.events F.told in HasClosingTurns client result
        (s link.old cutter.old core.old desk.old journal.old folder.old)
        (s link.new cutter.new core.new desk.new journal.new folder.new) }
    ensures limit { cutter.new.limit ≡ message_limit }
    ensures served { HasServed client served.new core.new }
    ensures settled { owed_change core.new.registry ≡ None }
    ensures desk { IsDeskOf core.new.registry (D.told desk.new) }
    ensures noted { J.spare journal.old ≤ J.spare journal.new + 1 }
    ensures left { result ≡ Left → TellTheEnd L.told → (L.told link.new).over ≡ Some true }
    ensures rest { D.same_rest desk.old desk.new }
{
    let mut own = Client {
        number: client,
        cutter,
        served,
    };
    let mut turns = 0;
    while turns < CLOSING_TURNS {
        match closing_turn(rt, alloc, core, desk, journal, &mut own, link, folder) {
            Ok(quiet) => {
                if quiet {
                    return stop(core, journal, client);
                }
                turns += 1;
            }
            Err(why) => return why,
        }
    }
    stop(core, journal, client)
}
