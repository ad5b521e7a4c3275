//! The top call.

ghost use Rattle.std.specs.Prelude.{◌≡◌, IfSome, None, map, string_bytes};
ghost use Rattle.dl_server.specs.Server.{IsServer};
ghost use Rattle.dl_trace.specs.Made.{IsMade};
ghost use Rattle.dl_daemon.specs.Outside.{seen};
ghost use Rattle.dl_daemon.specs.Program.{Ended, EndsBegun, EndsWith, Keeps};
ghost use Rattle.dl_daemon.specs.Status.{status_of};

use crate::beginning::{ask, begin};
use crate::closing::close;
use crate::laws::{
    an_end_is_a_keeping, how_clients_went, how_each_round_serves, how_programs_ended,
    what_programs_sent_is_admitted, what_programs_took, what_was_kept_is_its_journal,
    why_links_were_dropped,
};
use crate::limits::Limits;
use crate::opened::Opened;
use crate::opening::open;
use crate::outcome::Outcome;
use crate::rounds::{Stop, go_round, passed};
use crate::watch::Watch;
use dl_outside::{Clock, Folder, Net, Sink};
use dl_serve::{Begun, listen};
use dl_startup::Status;
use std::alloc::Global;
use std::sync::Wait;

/// The program's name.
const PROGRAM: &[u8] = b"dlt_daemon";

/// The words that it takes.
pub const USAGE: &[u8] = b"dlt_daemon [--conf NAME] [--port N] [--users N] [--status SECONDS]";

/// What is left where there was no closing.
fn left_early<L>(status: Status) -> Outcome<L>
    ensures { (result.status ≡ status) × (result.left ≡ None) }
{
    Outcome { status, left: None }
}

/// The status of a daemon that closed.
fn status_of(why: Stop) -> Status
    ensures { result ≡ status_of why }
{
    match why {
        Stop::Asked => Status::Ok,
        Stop::Spent => Status::JournalFull,
    }
}

/// Makes the rounds of what was opened, and closes it.
fn keep_opened<R: Wait, F: Folder, N: Net, C: Clock, W: Watch>(
    rt: &R,
    alloc: Global,
    opened: Opened<N::L>,
    folder: &mut F,
    net: &mut N,
    users: &mut N,
    clock: &C,
    watch: &mut W,
) -> Outcome<N::L>
where
    N::L: Drop,
    requires server { IsServer N.L.told opened.server }
    ensures { let s = seen F.told N.told W.watched in EndsWith N.L.told opened.renewal.conf opened.renewal.tries opened.server
        (s folder.old net.old users.old watch.old) (s folder.new net.new users.new watch.new) result.status result.left }
{
    let Opened {
        mut server,
        mut renewal,
        ..
    } = opened;
    let why = go_round(
        rt,
        &mut server,
        &mut renewal,
        net,
        users,
        clock,
        folder,
        watch,
    );
    let passed = passed(net, users, &renewal);
    match close(rt, alloc, server, passed, clock.now(), folder) {
        Ok(left) => Outcome {
            status: status_of(why),
            left: Some(left),
        },
        Err(_) => left_early(Status::OutOfMemory),
    }
}

/// Opens what was begun, and keeps it running.
fn keep_begun<R: Wait, F: Folder, N: Net, C: Clock, W: Watch>(
    rt: &R,
    alloc: Global,
    limits: Limits,
    begun: Begun,
    folder: &mut F,
    net: &mut N,
    users: &mut N,
    clock: &C,
    watch: &mut W,
) -> Outcome<N::L>
where
    N::L: Drop,
    requires { IfSome begun.trace (IsMade begun.conf) }
    ensures { let s = seen F.told N.told W.watched in EndsBegun N.L.told limits begun
        (s folder.old net.old users.old watch.old) (s folder.new net.new users.new watch.new) result.status result.left }
{
    let opened = match open(alloc, limits, begun) {
        Ok(opened) => opened,
        Err(_) => return left_early(Status::OutOfMemory),
    };
    match listen(net, users, opened.port, opened.users) {
        Ok(()) => keep_opened(rt, alloc, opened, folder, net, users, clock, watch),
        Err(status) => left_early(status),
    }
}

/// Begins as the words ask, and keeps it running.
fn keep_words<R: Wait, F: Folder, N: Net, C: Clock, W: Watch>(
    rt: &R,
    alloc: Global,
    words: &[String],
    folder: &mut F,
    net: &mut N,
    users: &mut N,
    clock: &C,
    watch: &mut W,
) -> Outcome<N::L>
where
    N::L: Drop,
    ensures { let s = seen F.told N.told W.watched in Ended N.L.told (map string_bytes words.now)
        (s folder.old net.old users.old watch.old) (s folder.new net.new users.new watch.new) result.status result.left }
{
    what_was_kept_is_its_journal::<N::L>();
    what_programs_sent_is_admitted::<N::L>();
    how_programs_ended::<N::L>();
    how_clients_went::<N::L>();
    what_programs_took::<N::L>();
    how_each_round_serves::<N::L>();
    why_links_were_dropped::<N::L>();
    let asked = match ask(alloc, words) {
        Ok(asked) => asked,
        Err(status) => return left_early(status),
    };
    watch.begin(asked.status);
    match begin(alloc, asked, folder) {
        Ok(begun) => keep_begun(
            rt,
            alloc,
            Limits::of_daemon(),
            begun,
            folder,
            net,
            users,
            clock,
            watch,
        ),
        Err(status) => left_early(status),
    }
}

/// Keeps a daemon running for clients and external applications, as the words ask, until its watch ends it, or until 2^40 - 4,096 frames and more
/// were admitted; then it closes. Answers how it ended. It may wait.
///
/// What passes does not end it. After a failed accept the net is asked again in the next round, and counts its faults. A trace that has ended is begun anew,
/// over the trace files that then stand, at most once a minute and as often as that is wanted; but where its last number was used up, it stays ended.
pub fn keep<R: Wait, F: Folder, N: Net, C: Clock, W: Watch, E: Sink>(
    rt: &R,
    alloc: Global,
    words: &[String],
    folder: &mut F,
    net: &mut N,
    users: &mut N,
    clock: &C,
    watch: &mut W,
    err: &mut E,
) -> Outcome<N::L>
where
    N::L: Drop,
    ensures { let s = seen F.told N.told W.watched in Keeps N.L.told E.told (map string_bytes words.now)
        (s folder.old net.old users.old watch.old) (s folder.new net.new users.new watch.new) err.old err.new result.status result.left }
{
    an_end_is_a_keeping::<N::L>();
    let ended = keep_words(rt, alloc, words, folder, net, users, clock, watch);
    ended.status.say(PROGRAM, USAGE, err);
    ended
}
