//! A request of a client, served: what it wants is done, its reply is put, and the Level events that it owes follow.

ghost use Rattle.std.specs.Prelude.{◌≡◌, ◌≤◌, ◌<◌, ◌+◌, ◌++◌, ℕ, List, Ok, Err, Some, None, Option, IfErr, IfOk, IfSome, IsSome, IsSomeAnd, OnErr, OnOk};
ghost use Rattle.std.specs.Result.{result_err};
ghost use Rattle.dl_bytes.specs.Limits.{message_limit, request_limit};
ghost use Rattle.dl_registry.specs.Kept.{owed_change};
ghost use Rattle.dl_hub.specs.State.{client_of, outbox_of};
ghost use Rattle.dl_core.specs.Serving.{IsRequest, injection_in};
ghost use Rattle.dl_turns.specs.Clients.{IsSame};
ghost use Rattle.dl_turns.specs.Events.{IsFor, IsServing, Posts, ServesOne};
ghost use Rattle.dl_turns.specs.Sent.{HasCut};
ghost use Rattle.dl_turns.specs.State.{side};
ghost use Rattle.dl_turns.specs.Turns.{Refuses, ServesAll};

use crate::client::Client;
use crate::cutting::{Next, next_request};
use crate::levels::note_levels;
use dl_bytes::Bytes;
use dl_core::{Core, Ready};
use dl_desk::WriterControl;
use dl_events::{Journal, Why};
use dl_outside::Folder;
use std::alloc::Global;
use std::sync::Wait;

/// Puts the injection that a request wants into its application's queue. Answers whether the queue took one.
fn push_injection<R: Wait, D: WriterControl>(rt: &R, desk: &mut D, ready: &Ready) -> bool
    requires { IfSome (injection_in ready.now.want) (λ i. i.0 < (D.told desk.old).apps) }
    ensures posts { Posts ready.now.want result (D.told desk.old) (D.told desk.new) }
    ensures rest { D.same_rest desk.old desk.new }
{
    match ready.injection() {
        Some((app, injection)) => desk.inject(rt, app, injection).is_ok(),
        None => false,
    }
}

/// A copy of a message.
fn copy(alloc: Global, message: &[u8]) -> Option<Bytes>
    ensures { IfSome result (λ bytes. bytes ≡ message.now) }
{
    match Vec::from_slice(alloc, message) {
        Ok(bytes) => Some(Bytes::over(bytes)),
        Err(_) => None,
    }
}

/// Gets a request ready, which is to be served: the checks that stand before it, in their order. An error is the cause to close the
/// client.
fn prepare<J: Journal>(
    alloc: Global,
    core: &mut Core,
    journal: &mut J,
    client: u32,
    message: &[u8],
) -> Result<Ready, Why>
    requires request { IsRequest message.now }
    requires open { IsSome (outbox_of core.old.hub client) }
    requires counted { IsSomeAnd (client_of core.old.hub client) (λ c. c.replies ≤ request_limit) }
    requires settled { owed_change core.old.registry ≡ None }
    ensures core { core.new ≡ core.old }
    ensures events { J.events journal.new ≡ J.events journal.old }
    ensures ready { IfOk result (λ ready. IsFor client message.now core.old (J.spare journal.old) (J.spare journal.new) ready) }
    ensures refused { IfErr result (λ why. Refuses client message.now why core.old) }
    ensures spare { OnErr result (J.spare journal.new ≡ J.spare journal.old) }
{
    if !core.may_ask(client) {
        return Err(Why::TooMany);
    }
    let Ok(need) = core.request_need(message) else {
        return Err(Why::NoMemory);
    };
    let room = core.hub().room(client);
    if room < need {
        return Err(Why::Slow { room, need });
    }
    let Some(frame) = copy(alloc, message) else {
        return Err(Why::NoMemory);
    };
    match core.prepare(client, frame, journal) {
        Ok(ready) => Ok(ready),
        Err(_) => Err(Why::NoMemory),
    }
}

/// Serves a request of a client that is open, unless something forbids it. An error is the cause to close the client.
fn serve_one<R: Wait, D: WriterControl, J: Journal, F: Folder>(
    rt: &R,
    alloc: Global,
    core: &mut Core,
    desk: &mut D,
    journal: &mut J,
    served: &mut u32,
    client: u32,
    message: &[u8],
    folder: &mut F,
) -> Result<(), Why>
    requires request { IsRequest message.now }
    requires serving { IsServing client served.old core.old (D.told desk.old) }
    ensures serves { OnOk result (ServesOne client message.now
        (side core.old (D.told desk.old) (J.events journal.old) (F.told folder.old))
        (side core.new (D.told desk.new) (J.events journal.new) (F.told folder.new))) }
    ensures refused { IfErr result (λ why. Refuses client message.now why core.old) }
    ensures unserved { OnErr result ((core.new ≡ core.old) × (desk.new ≡ desk.old) × (J.events journal.new ≡ J.events journal.old) × (folder.new ≡ folder.old)) }
    ensures serving { IsServing client served.new core.new (D.told desk.new) }
    ensures spare { J.spare journal.old ≤ J.spare journal.new }
    ensures rest { D.same_rest desk.old desk.new }
{
    let ready = prepare(alloc, core, journal, client, message)?;
    let pushed = push_injection(rt, desk, &ready);
    core.request(ready, pushed, folder, journal);
    *served += 1;
    note_levels(core, desk, journal);
    Ok(())
}

/// Serves the requests that a piece of a client's stream makes whole, in order. An error is the cause to close the client: a
/// request that is refused, or a bad header behind them.
pub fn serve_each<R: Wait, D: WriterControl, J: Journal, F: Folder>(
    rt: &R,
    alloc: Global,
    core: &mut Core,
    desk: &mut D,
    journal: &mut J,
    client: &mut Client,
    piece: &[u8],
    folder: &mut F,
) -> Result<(), Why>
    requires limit { client.old.cutter.now.limit ≡ message_limit }
    requires serving { IsServing client.old.number client.old.served.now core.old (D.told desk.old) }
    ensures serves { ServesAll client.old.number (client.old.cutter.now.unread ++ piece.now) (result_err result)
        (side core.old (D.told desk.old) (J.events journal.old) (F.told folder.old))
        (side core.new (D.told desk.new) (J.events journal.new) (F.told folder.new)) }
    ensures cut { OnOk result ((stream : List ℕ) → HasCut stream client.old.cutter.now → HasCut (stream ++ piece.now) client.new.cutter.now) }
    ensures limit { client.new.cutter.now.limit ≡ message_limit }
    ensures serving { IsServing client.old.number client.new.served.now core.new (D.told desk.new) }
    ensures spare { J.spare journal.old ≤ J.spare journal.new }
    ensures same { IsSame client.old client.new }
    ensures rest { D.same_rest desk.old desk.new }
{
    let number = client.number;
    let mut rest = piece;
    loop {
        match next_request(client.cutter, rest) {
            Next::Request(taken) => {
                rest = &rest[taken..];
                let request = client.cutter.message();
                match serve_one(
                    rt,
                    alloc,
                    core,
                    desk,
                    journal,
                    client.served,
                    number,
                    request,
                    folder,
                ) {
                    Ok(()) => {}
                    Err(why) => return Err(why),
                }
            }
            Next::NoMore => return Ok(()),
            Next::Bad => return Err(Why::Malformed),
        }
    }
}
