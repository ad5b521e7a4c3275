//! A client is listened to.

ghost use Rattle.std.specs.Prelude.{◌≡◌, ◌≤◌, true, false, Ok};
ghost use Rattle.std.specs.Result.{result_err};
ghost use Rattle.dl_bytes.specs.Limits.{message_limit};
ghost use Rattle.dl_outside.specs.Outside.{HasRisen, Stays};
ghost use Rattle.dl_turns.specs.Clients.{IsSame};
ghost use Rattle.dl_turns.specs.Events.{IsServing};
ghost use Rattle.dl_turns.specs.State.{seen};
ghost use Rattle.dl_turns.specs.Turns.{HasGiven, Listens};

use crate::client::Client;
use crate::serving::serve_each;
use dl_bytes::LINK_PIECE;
use dl_core::Core;
use dl_desk::WriterControl;
use dl_events::{Journal, Why};
use dl_outside::{Folder, Gave, Link};
use std::alloc::Global;
use std::sync::Wait;

/// Asks a client's link once for at most 4096 bytes, and serves the requests that they make whole. Answers whether the link gave any;
/// an error is the cause to close the client.
pub fn listen<R: Wait, D: WriterControl, J: Journal, L: Link, F: Folder>(
    rt: &R,
    alloc: Global,
    core: &mut Core,
    desk: &mut D,
    journal: &mut J,
    client: &mut Client,
    link: &mut L,
    folder: &mut F,
) -> Result<bool, Why>
    requires limit { client.old.cutter.now.limit ≡ message_limit }
    requires serving { IsServing client.old.number client.old.served.now core.old (D.told desk.old) }
    ensures listens { let s = seen L.told D.told J.events F.told in Listens client.old.number (result_err result)
        (s link.old client.old.cutter.now core.old desk.old journal.old folder.old)
        (s link.new client.new.cutter.now core.new desk.new journal.new folder.new) }
    ensures gave { result ≡ Ok true → HasGiven (L.told link.old).given (L.told link.new).given }
    ensures idle { result ≡ Ok false → HasRisen (L.told link.old).idles (L.told link.new).idles × Stays (L.told link.old).given (L.told link.new).given }
    ensures limit { client.new.cutter.now.limit ≡ message_limit }
    ensures serving { IsServing client.old.number client.new.served.now core.new (D.told desk.new) }
    ensures spare { J.spare journal.old ≤ J.spare journal.new }
    ensures same { IsSame client.old client.new }
    ensures rest { D.same_rest desk.old desk.new }
{
    let mut buffer = [0; LINK_PIECE];
    match link.recv(&mut buffer) {
        Gave::Bytes(count) => {
            let piece = &buffer[..count];
            match serve_each(rt, alloc, core, desk, journal, client, piece, folder) {
                Ok(()) => Ok(true),
                Err(why) => Err(why),
            }
        }
        Gave::NotYet => Ok(false),
        Gave::End => Err(Why::Left),
        Gave::Failed => Err(Why::Broken),
    }
}
