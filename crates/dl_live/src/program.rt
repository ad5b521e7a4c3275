//! The program: what the words ask for is begun and played by threads, the report is written, and the status answered.

ghost use Rattle.std.specs.Prelude.{◌≡◌, ◌||◌, IfOk, None, map, string_bytes};
ghost use Rattle.dl_core.specs.Files.{Leaves};
ghost use Rattle.dl_script.specs.Playable.{IsRunnable};
ghost use Rattle.dl_live.specs.Ends.{failed_so};
ghost use Rattle.dl_live.specs.Performing.{HasBegun, LeavesOthers, LeavesSome, PerformsFrom, PlaysOn, status_of};
ghost use Rattle.dl_live.specs.Playing.{CanBePlayed, HasBeenPlayed, HasSetOut, IsUnderWay};
ghost use Rattle.dl_live.specs.Program.{ChangesNoOther, HasRun, Outcome, no_links};
ghost use Rattle.dl_live.specs.Told.{seen};

use crate::beginning::{Begun, begin};
use crate::gathering::gather;
use crate::laws::an_outcome_is_a_run;
use crate::players::{Players, assemble};
use crate::workers::beside;
use dl_account::Account;
use dl_bytes::{Conf, Moment, OutOfMemory};
use dl_ending::{Concluded, conclude};
use dl_launch::launch_all;
use dl_outside::{Clock, Folder, Gate, Link, LinkList, Net, NetFault, Sink};
use dl_startup::{Failures, Status};
use dl_storage::{FilterList, StoreEnds};
use std::alloc::Global;
use std::sync::Wait;
use std::thread::Threads;

/// The program's name, with which each line on standard error begins.
const PROGRAM: &[u8] = b"dlt_run";

/// The words that it takes, as the line says it that refuses others.
const USAGE: &[u8] = b"dlt_run [--conf NAME] [--port N] SCENARIO";

/// How a run ended.
#[derive(Drop)]
pub struct Ended<L> {
    /// The exit status, the number of a `Status`.
    pub status: u8,
    /// The account, where the run came to one.
    pub account: Option<Account>,
    /// What the filters of the log storage stored; none where the run came to no account, or there was no memory to store anything.
    pub storage: Option<StoreEnds>,
    /// The links of the clients, by their numbers.
    pub links: LinkList<L>,
}

/// The same, with the status by its name.
#[derive(Drop)]
struct Came<L> {
    status: Status,
    account: Option<Account>,
    storage: Option<StoreEnds>,
    links: LinkList<L>,
}

/// What was played.
#[derive(Drop)]
struct Played<L> {
    conf: Conf,
    filters: FilterList,
    account: Account,
    links: LinkList<L>,
    /// A client could not be launched, or an accept failed while clients were waited for.
    failed: bool,
    /// An accept ran out of memory.
    wanted: bool,
}

/// The applications tell of themselves, and the clients are launched. Tells how many were. What comes before it is that the net listens; what
/// comes after it are the daemon's rounds. Where memory runs out, a part of the clients may have been launched, and the run is over.
pub fn set_out<F: Folder, N: Net>(
    players: &mut Players<N::L>,
    moment: Moment,
    folder: &mut F,
    net: &mut N,
) -> Result<u32, OutOfMemory>
where
    requires can { CanBePlayed players.old }
    ensures out { IfOk result (λ count. HasSetOut players.old players.new count
        (N.told net.old) (N.told net.new) (F.told folder.old) (F.told folder.new)) }
    ensures leaves { Leaves players.old.daemon.core players.new.daemon.core (F.told folder.old) (F.told folder.new) }
{
    players.daemon.hello(&players.apps, moment, folder)?;
    let launched = launch_all(net, players.scripts.all())?;
    Ok(launched)
}

/// Plays on, once so many clients were launched: rounds until they have come, the writers' calls beside more rounds, and the stop.
fn play_on<
    R: Threads + Wait + Sync,
    F: Folder + Send,
    N: Net + Send,
    C: Clock + Sync,
    G: Gate + Sync,
>(
    rt: &R,
    players: Players<N::L>,
    launched: u32,
    folder: &mut F,
    net: &mut N,
    clock: &C,
    gate: &G,
) -> Played<N::L>
where
    N::L: Drop + Send,
    requires under_way { IsUnderWay players launched (N.told net.old) (F.told folder.old) }
    ensures conf { (result.conf ≡ players.conf) × (result.filters ≡ players.filters) }
    ensures played { PlaysOn N.L.told players launched (N.told net.old) (N.told net.new) (F.told folder.old) (F.told folder.new) result }
    ensures leaves { LeavesSome players.daemon.core (F.told folder.old) (F.told folder.new) }
{
    let Players {
        conf,
        filters,
        mut daemon,
        plan,
        mut books,
        scripts,
        ..
    } = players;
    let gathered = gather(rt, launched, &mut daemon, net, clock, folder);
    let late = beside(rt, &plan, &mut books, &mut daemon, net, clock, gate, folder);
    let all = launched as usize == scripts.all().len();
    let failed = either(!all, gathered.failed);
    let wanted = either(gathered.wanted, late);
    match daemon.stop(rt, books, net, clock, folder) {
        Ok((account, links)) => Played {
            conf,
            filters,
            account,
            links,
            failed,
            wanted,
        },
        Err(_) => unreachable!(),
    }
}

/// Plays a run, once the net listens.
fn play<R: Threads + Wait + Sync, F: Folder + Send, N: Net + Send, C: Clock + Sync, G: Gate + Sync>(
    rt: &R,
    players: Players<N::L>,
    folder: &mut F,
    net: &mut N,
    clock: &C,
    gate: &G,
) -> Result<Played<N::L>, OutOfMemory>
where
    N::L: Drop + Send,
    requires can { CanBePlayed players }
    ensures conf { IfOk result (λ played. (played.conf ≡ players.conf) × (played.filters ≡ players.filters)) }
    ensures played { IfOk result (λ played. HasBeenPlayed N.L.told players played.wanted played.failed (N.told net.old) (N.told net.new)
        (F.told folder.old) (F.told folder.new) played.account played.links) }
    ensures leaves { LeavesSome players.daemon.core (F.told folder.old) (F.told folder.new) }
{
    let mut players = players;
    match set_out(&mut players, clock.now(), folder, net) {
        Ok(launched) => Ok(play_on(rt, players, launched, folder, net, clock, gate)),
        Err(error) => {
            drop(players);
            Err(error)
        }
    }
}

/// The status of a net that could not listen.
fn unheard_of(fault: NetFault) -> Status
    ensures { result ≡ status_of fault }
{
    match fault {
        NetFault::Failed => Status::NetFault,
        NetFault::OutOfMemory => Status::OutOfMemory,
    }
}

/// Whether one of two things happened.
fn either(one: bool, other: bool) -> bool
    ensures { result ≡ one || other }
{
    one || other
}

/// What went wrong in a run whose report is to be written: the net failed, the folder did, or memory ran out.
fn went_wrong(net: bool, folder: bool, memory: bool) -> Failures
    ensures { result ≡ failed_so net folder memory }
{
    Failures {
        net,
        folder,
        names_spent: false,
        journal_full: false,
        output: false,
        memory,
    }
}

/// What a run comes to that came to no account.
fn to_nothing<L>(alloc: Global, status: Status) -> Came<L>
    ensures status { result.status ≡ status }
    ensures account { result.account ≡ None }
    ensures storage { result.storage ≡ None }
    ensures links { result.links ≡ no_links }
{
    Came {
        status,
        account: None,
        storage: None,
        links: LinkList::none(alloc),
    }
}

/// Plays a run that began, stores what passes its filters, and writes its report.
fn perform<
    R: Threads + Wait + Sync,
    F: Folder + Send,
    N: Net + Send,
    C: Clock + Sync,
    G: Gate + Sync,
    O: Sink,
>(
    rt: &R,
    alloc: Global,
    begun: Begun,
    folder: &mut F,
    net: &mut N,
    clock: &C,
    gate: &G,
    out: &mut O,
) -> Came<N::L>
where
    N::L: Drop + Send,
    requires runnable { IsRunnable begun.scenario }
    requires begun { HasBegun begun }
    ensures performs { let s = seen F.told N.told O.told in PerformsFrom N.L.told begun
        (s folder.old net.old out.old) (s folder.new net.new out.new) result.status result.account result.storage result.links }
    ensures others { LeavesOthers begun (F.told folder.old).files (F.told folder.new).files }
{
    let net_before = net.faults();
    let folder_before = folder.faults();
    let players = match assemble(alloc, begun) {
        Ok(players) => players,
        Err(_) => return to_nothing(alloc, Status::OutOfMemory),
    };
    match net.listen(players.port) {
        Ok(()) => {}
        Err(fault) => {
            drop(players);
            return to_nothing(alloc, unheard_of(fault));
        }
    }
    let played = match play(rt, players, folder, net, clock, gate) {
        Ok(played) => played,
        Err(_) => return to_nothing(alloc, Status::OutOfMemory),
    };
    let Played {
        conf,
        filters,
        account,
        links,
        failed,
        wanted,
    } = played;
    let net_after = net.faults();
    let folder_after = folder.faults();
    let failures = went_wrong(
        either(failed, net_after > net_before),
        folder_after > folder_before,
        wanted,
    );
    let Concluded { status, storage } = conclude(
        alloc, &account, &conf, &filters, failures, folder, out,
    );
    Came {
        status,
        account: Some(account),
        storage,
        links,
    }
}

/// Does what the words ask for.
fn ask<
    R: Threads + Wait + Sync,
    F: Folder + Send,
    N: Net + Send,
    C: Clock + Sync,
    G: Gate + Sync,
    O: Sink,
>(
    rt: &R,
    alloc: Global,
    words: &[String],
    folder: &mut F,
    net: &mut N,
    clock: &C,
    gate: &G,
    out: &mut O,
) -> Came<N::L>
where
    N::L: Drop + Send,
    ensures outcome { let s = seen F.told N.told O.told in Outcome N.L.told (map string_bytes words.now)
        (s folder.old net.old out.old) (s folder.new net.new out.new) result.status result.account result.storage result.links }
    ensures others { ChangesNoOther (map string_bytes words.now) (F.told folder.old) (F.told folder.new) }
{
    match begin(alloc, words, folder) {
        Ok(begun) => perform(rt, alloc, begun, folder, net, clock, gate, out),
        Err(status) => to_nothing(alloc, status),
    }
}

/// Plays a scenario with threads: the words are those of the command line, the program's name first. Configuration, stored configuration, filters,
/// scenario and trace files are those of the folder. The daemon listens on the net, and launches the scenario's clients there; each writer has a
/// worker of its own, which makes its calls beside the daemon's rounds. When all workers have ended the daemon stops, the messages that pass the
/// filters are stored below `storage` in the folder, and the report of the account is written to `out`. Each status but `Ok` is said on `err` in one line, and a fault of `err` changes nothing.
pub fn run<
    R: Threads + Wait + Sync,
    F: Folder + Send,
    N: Net + Send,
    C: Clock + Sync,
    G: Gate + Sync,
    O: Sink,
    E: Sink,
>(
    rt: &R,
    alloc: Global,
    words: &[String],
    folder: &mut F,
    net: &mut N,
    clock: &C,
    gate: &G,
    out: &mut O,
    err: &mut E,
) -> Ended<N::L>
where
    N::L: Drop + Send,
    ensures { let s = seen F.told N.told O.told in
        HasRun N.L.told (map string_bytes words.now) (s folder.old net.old out.old) (s folder.new net.new out.new) (E.told err.old) (E.told err.new) result }
{
    an_outcome_is_a_run::<N::L>();
    let came = ask(rt, alloc, words, folder, net, clock, gate, out);
    came.status.say(PROGRAM, USAGE, err);
    Ended {
        status: came.status.number(),
        account: came.account,
        storage: came.storage,
        links: came.links,
    }
}
