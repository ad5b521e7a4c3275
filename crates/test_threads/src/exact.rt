//! Rings and queues that are filled to the brim: a call is lost, and a claim waits, exactly where the ring is full.

ghost use Rattle.std.specs.Prelude.{◌≡◌, ◌<◌, ◌≤◌, length};

use crate::programs::{Program, injection, one_app};
use dl_account::{Answer, Book, Ctx, Desk, RingItem};
use dl_bytes::{Id, OwnLevel, Payload, Severity};
use std::alloc::Global;
use std::sync::Wait;

/// Logs a call, and answers what became of it.
fn log<R: Wait>(rt: &R, book: &mut Book, ctx: &Ctx, at: u32) -> Option<Answer> {
    let text = Payload::new();
    match book.log(rt, ctx, Severity::Info, at, &text) {
        Ok(answer) => Some(answer),
        Err(_) => None,
    }
}

/// Whether a call through each book has this answer.
fn each_answers<R: Wait>(rt: &R, books: &mut [Book], ctx: &Ctx, at: u32, answer: Answer) -> bool {
    for book in books {
        if log(rt, book, ctx, at) != Some(answer) {
            return false;
        }
    }
    true
}

/// Logs so many calls in turn through all books, and tells whether the ring took them all.
fn queued_in_turn<R: Wait>(rt: &R, books: &mut [Book], ctx: &Ctx, calls: u32) -> bool {
    for at in 0..calls {
        if !each_answers(rt, books, ctx, at, Answer::Queued) {
            return false;
        }
    }
    true
}

/// Whether the next take gives this call of this writer.
fn gives<R: Wait>(rt: &R, desk: &mut Desk, writer: u8, call: u64) -> bool
    requires { 0 < length desk.old.apps }
    ensures { length desk.new.apps ≡ length desk.old.apps }
{
    match desk.take(rt, 0) {
        Some(RingItem::Log(item)) => item.writer == writer && item.call == call,
        Some(RingItem::Register(_)) | None => false,
    }
}

/// Whether the next takes give so many calls of the writers 1 and 2 in turn.
fn gives_in_turn<R: Wait>(rt: &R, desk: &mut Desk, calls: u64) -> bool
    requires { 0 < length desk.old.apps }
    ensures { length desk.new.apps ≡ length desk.old.apps }
{
    for call in 0..calls {
        if !gives(rt, desk, 1, call + 1) || !gives(rt, desk, 2, call + 1) {
            return false;
        }
    }
    true
}

/// Of nine calls through each book, where the ring holds eight of each: whether it takes eight in turn, loses the ninth, and gives
/// the eight and nothing more, and whether two calls were lost.
fn nine_each<R: Wait>(rt: &R, desk: &mut Desk, ctx: &Ctx, books: &mut [Book]) -> [bool; 5]
    requires { 0 < length desk.old.apps }
{
    [
        queued_in_turn(rt, books, ctx, 8),
        each_answers(rt, books, ctx, 8, Answer::Lost),
        gives_in_turn(rt, desk, 8),
        desk.take(rt, 0).is_none(),
        desk.losses(0) == 2,
    ]
}

/// Puts injections with the service ids from 0 on until one comes back, and answers which one that was.
fn fill<R: Wait>(rt: &R, desk: &mut Desk) -> u32
    requires { 0 < length desk.old.apps }
    ensures { length desk.new.apps ≡ length desk.old.apps }
{
    for service in 0..100 {
        if desk.inject(rt, 0, injection(service)).is_err() {
            return service;
        }
    }
    100
}

/// Whether the writer is given the service ids from `first` up to `end` next, in order.
fn is_given<R: Wait>(rt: &R, book: &mut Book, first: u32, end: u32) -> bool {
    for service in first..end {
        let Some(injection) = book.next_injection(rt) else {
            return false;
        };
        if injection.service != service {
            return false;
        }
    }
    true
}

/// Whether sixteen injections wait at most, the first writer is given them in order, and one more waits once it was given one.
fn wait_sixteen<R: Wait>(rt: &R, desk: &mut Desk, books: &mut [Book]) -> [bool; 5]
    requires { 0 < length desk.old.apps }
{
    let Some(book) = books.first_mut() else {
        return [false; 5];
    };
    [
        fill(rt, desk) == 16,
        is_given(rt, book, 0, 1),
        desk.inject(rt, 0, injection(16)).is_ok(),
        is_given(rt, book, 1, 17),
        book.next_injection(rt).is_none(),
    ]
}

/// Claims a context, and answers its place and how many claims wait then.
fn claim<R: Wait>(rt: &R, book: &mut Book, ctid: [u8; 4]) -> Option<(u8, u8)> {
    let own = OwnLevel::of(-1)?;
    match book.register(rt, Id::from_bytes(ctid), own, b"") {
        Ok(ctx) => Some((ctx.place(), book.waiting())),
        Err(_) => None,
    }
}

/// Whether the next take gives the claim of this place.
fn gives_claim<R: Wait>(rt: &R, desk: &mut Desk, place: u8) -> bool
    requires { 0 < length desk.old.apps }
    ensures { length desk.new.apps ≡ length desk.old.apps }
{
    match desk.take(rt, 0) {
        Some(RingItem::Register(claim)) => claim.place() == place,
        Some(RingItem::Log(_)) | None => false,
    }
}

/// Of two claims behind a context, where the ring holds one item: whether the second one waits until the first one is taken.
fn claims_wait<R: Wait>(rt: &R, desk: &mut Desk, books: &mut [Book]) -> [bool; 5]
    requires { 0 < length desk.old.apps }
{
    let Some(book) = books.first_mut() else {
        return [false; 5];
    };
    [
        claim(rt, book, *b"CTXA") == Some((1, 0)),
        claim(rt, book, *b"CTXB") == Some((2, 1)),
        book.announce(rt) == 1,
        gives_claim(rt, desk, 1),
        book.announce(rt) == 0 && book.claims().len() == 2 && gives_claim(rt, desk, 2),
    ]
}

/// What is tried on a program.
#[derive(Clone, Copy)]
enum Trial {
    FullRing,
    FullQueue,
    WaitingClaims,
}

/// What is so of a trial with these books.
fn tried<R: Wait>(rt: &R, desk: &mut Desk, ctx: &Ctx, books: &mut [Book], trial: Trial) -> [bool; 5]
    requires { 0 < length desk.old.apps }
{
    match trial {
        Trial::FullRing => nine_each(rt, desk, ctx, books),
        Trial::FullQueue => wait_sixteen(rt, desk, books),
        Trial::WaitingClaims => claims_wait(rt, desk, books),
    }
}

/// The same of a program with a ring that holds so many calls, and so many writers.
fn is_so<R: Wait>(rt: &R, alloc: Global, capacity: u16, writers: u8, trial: Trial) -> [bool; 5]
    requires { (1 ≤ capacity) × (capacity ≤ 4096) }
{
    match one_app(alloc, capacity, writers, 9) {
        Ok(
            Program {
                mut desk,
                ctx,
                mut books,
            },
        ) => tried(rt, &mut desk, &ctx, &mut books, trial),
        Err(_) => [false; 5],
    }
}

/// Two books on one ring that holds 16.
#[test]
fn ring_exact(rt: HostRuntime) {
    assert!(rt; is_so(&rt, rt.alloc(), 16, 2, Trial::FullRing) == [true; 5]);
}

#[test]
fn sixteen_injections_wait(rt: HostRuntime) {
    assert!(rt; is_so(&rt, rt.alloc(), 1, 1, Trial::FullQueue) == [true; 5]);
}

#[test]
fn claims_wait_for_the_ring(rt: HostRuntime) {
    assert!(rt; is_so(&rt, rt.alloc(), 1, 1, Trial::WaitingClaims) == [true; 5]);
}
