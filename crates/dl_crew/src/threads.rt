//! All workers, each in a thread of its own.

ghost use Rattle.std.specs.Prelude.{◌≤◌, All, length};
ghost use Rattle.std.specs.Thread.{IsSync};
ghost use Rattle.dl_crew.specs.Plays.{ArePairs, CanPlay, HasPlayed};

use crate::asked_calls::Plan;
use crate::worker::play;
use dl_outside::{Clock, Gate};
use dl_writer::{Book, BookList};
use std::sync::Wait;
use std::thread::{Threads, join};

/// Plays all books at once, each by a thread of its own, and gives them back in their order. The last one is played here,
/// and a new thread sees to the others; where none can be made, those are played afterwards. No memory is taken.
pub fn crew<R: Threads + Wait + Sync, C: Clock + Sync, G: Gate + Sync>(
    rt: &R,
    plan: &Plan,
    clock: &C,
    gate: &G,
    books: BookList,
) -> BookList
    requires few { length books ≤ 32 }
    requires room { All (CanPlay plan.now.lines) books }
    ensures { ArePairs (HasPlayed plan.now.contexts plan.now.lines) books result }
{
    let mut books = books;
    let Some(last) = books.pop() else {
        return BookList::none();
    };
    let (mut done, played) = join(
        rt,
        move || -> BookList
            requires { IsSync R.row × IsSync C.row × IsSync G.row × (length books ≤ 31) × All (CanPlay plan.now.lines) books }
            ensures { ArePairs (HasPlayed plan.entry.now.contexts plan.entry.now.lines) books result }
        { crew(rt, plan, clock, gate, books) },
        move || -> Book
            requires { CanPlay plan.now.lines last }
            ensures { HasPlayed plan.entry.now.contexts plan.entry.now.lines last result }
        { play(rt, plan, clock, gate, last) },
    );
    done.add(played);
    done
}
