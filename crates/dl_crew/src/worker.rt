//! One worker: it makes the claims and the calls of one writer.

ghost use Rattle.std.specs.Prelude.{◌≡◌, ◌<◌, ◌≤◌, ◌+◌, ◌∷◌, [], None, OnErr, OnOk, All, length, replicate};
ghost use Rattle.std.specs.Option.{option_to_list};
ghost use Rattle.dl_crew.specs.Calls.{content, count_in, register_in};
ghost use Rattle.dl_crew.specs.Plays.{CanPlay, FindsFull, HasPlayed, HasRoom, Makes, PlaysLine};
ghost use Rattle.dl_writer.specs.Claiming.{name_fault, KeepsAnnounced};
ghost use Rattle.dl_writer.specs.State.{IsWhole};

use crate::asked_calls::{AskedCalls, Plan, asked_calls, asked_claim};
use crate::own::Own;
use dl_outside::{Clock, Gate};
use dl_script_model::ScenarioLine;
use dl_writer::{Book, RegisterFault};
use std::sync::Wait;

/// A book that is being played, and the contexts that its writer claimed so far.
#[derive(Drop)]
struct Work {
    book: Book,
    own: Own,
}

/// Makes the claims and the calls of the book's writer, line by line. Before its n-th call, from 1, the worker passes the
/// gate; the clock's ticks are the call's timestamp; and after each call it asks for one injection. Where claims wait, it
/// announces them before each call, and once more behind the last line. Where no place is left for a claim, which no run
/// of a scenario comes to, it ends there. No memory is taken.
pub fn play<R: Wait, C: Clock, G: Gate>(
    rt: &R,
    plan: &Plan,
    clock: &C,
    gate: &G,
    book: Book,
) -> Book
    requires { CanPlay plan.now.lines book }
    ensures { HasPlayed plan.now.contexts plan.now.lines book result }
{
    let mut work = Work {
        book,
        own: Own::none(),
    };
    for line in plan.lines.all() {
        let Ok(()) = play_line(rt, plan, clock, gate, &mut work, line) else {
            return work.book;
        };
    }
    announce_waiting(rt, &mut work.book);
    work.book
}

// Does what a line asks of the writer.
fn play_line<R: Wait, C: Clock, G: Gate>(
    rt: &R,
    plan: &Plan,
    clock: &C,
    gate: &G,
    work: &mut Work,
    line: &ScenarioLine,
) -> Result<(), RegisterFault>
    requires room { HasRoom (count_in work.old.book.writer.push.number line.now) work.old.book }
    requires claims { length work.old.own + length (option_to_list (register_in work.old.book.writer.push.number line.now)) ≤ 64 }
    requires names { All (λ a. name_fault a.ctid a.text ≡ None) (option_to_list (register_in work.old.book.writer.push.number line.now)) }
    ensures played { OnOk result (PlaysLine plan.now.contexts work.old.own work.new.own line.now work.old.book work.new.book) }
    ensures full { OnErr result (FindsFull line.now work.old.book work.new.book) }
{
    if let Some(asked) = asked_claim(work.book.number(), line) {
        let ctx = work
            .book
            .register(rt, asked.ctid, asked.level, asked.text.bytes())?;
        work.own.add(ctx);
        return Ok(());
    }
    let (app, number) = (work.book.app(), work.book.number());
    if let Some(calls) = asked_calls(plan.contexts.all(), &work.own, app, number, line) {
        make_calls(rt, clock, gate, &mut work.book, &calls);
    }
    Ok(())
}

// Makes so many calls, one like the other.
fn make_calls<R: Wait, C: Clock, G: Gate>(
    rt: &R,
    clock: &C,
    gate: &G,
    book: &mut Book,
    calls: &AskedCalls,
)
    requires room { HasRoom calls.now.count book.old }
    requires own { calls.now.ctx.app ≡ book.old.writer.app }
    ensures { Makes (replicate calls.now.count (content calls.now.ctx calls.now.severity calls.now.payload)) book.old book.new }
{
    for _call in 0..calls.count {
        make_call(rt, clock, gate, book, calls);
    }
}

// Makes one of them, and asks for one injection.
fn make_call<R: Wait, C: Clock, G: Gate>(
    rt: &R,
    clock: &C,
    gate: &G,
    book: &mut Book,
    calls: &AskedCalls,
)
    requires room { HasRoom 1 book.old }
    requires own { calls.now.ctx.app ≡ book.old.writer.app }
    ensures { Makes (content calls.now.ctx calls.now.severity calls.now.payload ∷ []) book.old book.new }
{
    announce_waiting(rt, book);
    gate.pass(book.number(), book.records().len() as u64 + 1);
    let at = clock.now().ticks;
    let Ok(_) = book.log(rt, &calls.ctx, calls.severity, at, &calls.payload) else {
        unreachable!()
    };
    let _injection = book.next_injection(rt);
}

// Announces the claims that wait, where any does.
fn announce_waiting<R: Wait>(rt: &R, book: &mut Book)
    ensures announced { KeepsAnnounced book.old book.new (length book.new.writer.waiting) }
    ensures whole { IsWhole book.old → IsWhole book.new }
{
    if book.waiting() > 0 {
        book.announce(rt);
    }
}
