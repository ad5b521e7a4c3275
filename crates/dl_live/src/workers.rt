//! The workers, and the daemon's rounds beside them.

ghost use Rattle.std.specs.Prelude.{◌≡◌, ◌≤◌, true, All, length};
ghost use Rattle.std.specs.Thread.{IsSync};
ghost use Rattle.dl_crew.specs.Plays.{ArePairs, CanPlay, HasPlayed};
ghost use Rattle.dl_loop.specs.Scene.{scene};
ghost use Rattle.dl_live.specs.Playing.{Rounds, TellsWanted};

use dl_crew::{Plan, crew};
use dl_loop::Daemon;
use dl_loop::accept_laws::{connections_add_up, what_an_answer_tells};
use dl_loop::laws::rounds_go_on;
use dl_outside::{Clock, Folder, Gate, Net};
use dl_writer::BookList;
use std::mem;
use std::sync::atomic::{AtomicBool, Ordering};
use std::sync::{Wait, WaitMethods};
use std::thread::{Threads, join_mut};

/// Goes round for as long as the workers are at it. Tells whether an accept ran out of memory.
fn rounds<R: Wait, N: Net, C: Clock, F: Folder>(
    rt: &R,
    at_work: &AtomicBool,
    daemon: &mut Daemon<N::L>,
    net: &mut N,
    clock: &C,
    folder: &mut F,
) -> bool
where
    N::L: Drop,
    requires greeted { daemon.old.greeted ≡ true }
    ensures goes { Rounds (N.told net.old) (N.told net.new) (scene daemon.old (F.told folder.old)) (scene daemon.new (F.told folder.new)) }
    ensures wanted { TellsWanted result (scene daemon.old (F.told folder.old)) (scene daemon.new (F.told folder.new)) }
{
    rounds_go_on::<N::L>();
    connections_add_up::<N::L>();
    what_an_answer_tells::<N::L>();
    let mut wanted = false;
    for _round in rt.forever() {
        if !at_work.load(Ordering::SeqCst) {
            break;
        }
        wanted = daemon.round(rt, net, clock, folder).wanted;
    }
    wanted
}

/// Lets all workers make their calls.
fn work<R: Threads + Wait + Sync, C: Clock + Sync, G: Gate + Sync>(
    rt: &R,
    at_work: &AtomicBool,
    plan: &Plan,
    books: &mut BookList,
    clock: &C,
    gate: &G,
)
    requires few { length books.old ≤ 32 }
    requires room { All (CanPlay plan.now.lines) books.old }
    ensures { ArePairs (HasPlayed plan.now.contexts plan.now.lines) books.old books.new }
{
    let all = mem::replace(books, BookList::none());
    *books = crew(rt, plan, clock, gate, all);
    at_work.store(false, Ordering::SeqCst);
}

/// Lets all workers make their calls while the daemon goes round. Tells whether an accept ran out of memory. Where no thread can be made, the calls
/// are made first.
pub fn beside<
    R: Threads + Wait + Sync,
    N: Net + Send,
    C: Clock + Sync,
    G: Gate + Sync,
    F: Folder + Send,
>(
    rt: &R,
    plan: &Plan,
    books: &mut BookList,
    daemon: &mut Daemon<N::L>,
    net: &mut N,
    clock: &C,
    gate: &G,
    folder: &mut F,
) -> bool
where
    N::L: Drop + Send,
    requires few { length books.old ≤ 32 }
    requires room { All (CanPlay plan.now.lines) books.old }
    requires greeted { daemon.old.greeted ≡ true }
    ensures played { ArePairs (HasPlayed plan.now.contexts plan.now.lines) books.old books.new }
    ensures goes { Rounds (N.told net.old) (N.told net.new) (scene daemon.old (F.told folder.old)) (scene daemon.new (F.told folder.new)) }
    ensures wanted { TellsWanted result (scene daemon.old (F.told folder.old)) (scene daemon.new (F.told folder.new)) }
{
    let flag = AtomicBool::new(true);
    let at_work = &flag;
    let (wanted, ()) = join_mut(
        rt,
        &mut || -> bool
            requires { daemon.now.greeted ≡ true }
            ensures goes { Rounds (N.told net.entry.now) (N.told net.exit.now) (scene daemon.entry.now (F.told folder.entry.now)) (scene daemon.exit.now (F.told folder.exit.now)) }
            ensures wanted { TellsWanted result (scene daemon.entry.now (F.told folder.entry.now)) (scene daemon.exit.now (F.told folder.exit.now)) }
        { rounds(rt, at_work, daemon, net, clock, folder) },
        &mut ||
            requires { IsSync R.row × IsSync C.row × IsSync G.row × (length books.now ≤ 32) × All (CanPlay plan.now.lines) books.now }
            ensures { ArePairs (HasPlayed plan.entry.now.contexts plan.entry.now.lines) books.entry.now books.exit.now }
        { work(rt, at_work, plan, books, clock, gate) },
    );
    wanted
}
