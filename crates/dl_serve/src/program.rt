//! The top call.

ghost use Rattle.std.specs.Prelude.{◌≡◌, ◌≤◌, IfSome, None, map, string_bytes};
ghost use Rattle.dl_bytes.specs.Limits.{client_limit};
ghost use Rattle.dl_server.specs.Server.{IsServer};
ghost use Rattle.dl_trace.specs.Made.{IsMade};
ghost use Rattle.dl_serve.specs.Program.{Ended, EndsBegun, EndsWith, HandsBack, Serves};
ghost use Rattle.dl_serve.specs.Told.{seen};

use crate::beginning::{Begun, begin};
use crate::closed::Closed;
use crate::closing::close;
use crate::faults::count;
use crate::finishing::{failures_of, finish};
use crate::laws::{
    an_end_is_a_serving, how_clients_went, how_each_round_serves, how_programs_ended,
    what_programs_sent_is_admitted, what_programs_took, what_was_served_is_its_journal,
    who_was_handed_out, why_links_were_dropped,
};
use crate::opened::Opened;
use crate::opening::{listen, open};
use crate::outcome::Outcome;
use crate::rounds::serve_rounds;
use crate::served::Served;
use dl_bytes::Sequence;
use dl_outside::{Clock, Folder, LinkList, Net, Sink};
use dl_startup::Status;
use std::alloc::Global;
use std::sync::Wait;

/// The program's name, and the words that it takes to serve.
const PROGRAM: &[u8] = b"dlt_run";

const USAGE: &[u8] = b"dlt_run --serve [--conf NAME] [--port N] [--users N] [--rounds N]";

/// What is left where the closing was not made.
fn left_early<L>(status: Status) -> Outcome<L>
    ensures { (result.status ≡ status) × (result.closed ≡ None) }
{
    Outcome {
        status,
        closed: None,
    }
}

/// Makes the rounds of what was opened, closes it, and writes the report.
fn serve_opened<R: Wait, F: Folder, N: Net, C: Clock, O: Sink>(
    rt: &R,
    alloc: Global,
    opened: Opened<N::L>,
    folder: &mut F,
    net: &mut N,
    users: &mut N,
    clock: &C,
    out: &mut O,
) -> Outcome<N::L>
where
    N::L: Drop,
    requires server { IsServer N.L.told opened.server }
    requires few { opened.server.core.hub.limit ≤ client_limit }
    ensures { let s = seen F.told N.told O.told in EndsWith N.L.told opened.server opened.rounds
        (s folder.old net.old users.old out.old) (s folder.new net.new users.new out.new) result.status result.closed }
{
    let Opened {
        mut server,
        ends,
        rounds,
        ..
    } = opened;
    let before = count(folder, net, users);
    let full = serve_rounds(rt, rounds, &mut server, net, users, clock, folder);
    let closed = match close(rt, alloc, server, ends, clock.now(), folder) {
        Ok(closed) => closed,
        Err(_) => return left_early(Status::OutOfMemory),
    };
    let now = count(folder, net, users);
    let failures = failures_of(&closed, before, now, full);
    let status = finish(alloc, &closed, failures, out);
    Outcome {
        status,
        closed: Some(closed),
    }
}

/// Opens what these words and configurations ask for, and serves.
fn serve_begun<R: Wait, F: Folder, N: Net, C: Clock, O: Sink>(
    rt: &R,
    alloc: Global,
    begun: Begun,
    folder: &mut F,
    net: &mut N,
    users: &mut N,
    clock: &C,
    out: &mut O,
) -> Outcome<N::L>
where
    N::L: Drop,
    requires { IfSome begun.trace (IsMade begun.conf) }
    ensures { let s = seen F.told N.told O.told in EndsBegun N.L.told begun
        (s folder.old net.old users.old out.old) (s folder.new net.new users.new out.new) result.status result.closed }
{
    let opened = match open(alloc, begun) {
        Ok(opened) => opened,
        Err(_) => return left_early(Status::OutOfMemory),
    };
    match listen(net, users, opened.port, opened.users) {
        Ok(()) => serve_opened(rt, alloc, opened, folder, net, users, clock, out),
        Err(status) => left_early(status),
    }
}

/// Begins as the words ask, and serves.
fn serve_words<R: Wait, F: Folder, N: Net, C: Clock, O: Sink>(
    rt: &R,
    alloc: Global,
    words: &[String],
    folder: &mut F,
    net: &mut N,
    users: &mut N,
    clock: &C,
    out: &mut O,
) -> Outcome<N::L>
where
    N::L: Drop,
    ensures { let s = seen F.told N.told O.told in Ended N.L.told (map string_bytes words.now)
        (s folder.old net.old users.old out.old) (s folder.new net.new users.new out.new) result.status result.closed }
{
    what_was_served_is_its_journal::<N::L>();
    what_programs_sent_is_admitted::<N::L>();
    how_programs_ended::<N::L>();
    how_clients_went::<N::L>();
    what_programs_took::<N::L>();
    why_links_were_dropped::<N::L>();
    who_was_handed_out::<N::L>();
    how_each_round_serves::<N::L>();
    match begin(alloc, words, folder) {
        Ok(begun) => serve_begun(rt, alloc, begun, folder, net, users, clock, out),
        Err(status) => left_early(status),
    }
}

/// What is handed back of it.
fn served_of<L>(alloc: Global, status: Status, closed: Option<Closed<L>>) -> Served<L>
    ensures { HandsBack status closed result }
{
    let number = status.number();
    match closed {
        Some(closed) => Served {
            status: number,
            events: Some(closed.events),
            state: Some(closed.state),
            clients: closed.clients,
            users: closed.users,
            ends: closed.ends,
        },
        None => Served {
            status: number,
            events: None,
            state: None,
            clients: LinkList::none(alloc),
            users: LinkList::none(alloc),
            ends: Sequence::over(Vec::new(alloc)),
        },
    }
}

/// Serves clients and external applications, as the words ask: so many rounds, then the closing and the report. It may wait.
pub fn serve<R: Wait, F: Folder, N: Net, C: Clock, O: Sink, E: Sink>(
    rt: &R,
    alloc: Global,
    words: &[String],
    folder: &mut F,
    net: &mut N,
    users: &mut N,
    clock: &C,
    out: &mut O,
    err: &mut E,
) -> Served<N::L>
where
    N::L: Drop,
    ensures { let s = seen F.told N.told O.told in Serves N.L.told E.told (map string_bytes words.now)
        (s folder.old net.old users.old out.old) (s folder.new net.new users.new out.new) err.old err.new result }
{
    an_end_is_a_serving::<N::L>();
    let Outcome { status, closed } = serve_words(rt, alloc, words, folder, net, users, clock, out);
    status.say(PROGRAM, USAGE, err);
    served_of(alloc, status, closed)
}
