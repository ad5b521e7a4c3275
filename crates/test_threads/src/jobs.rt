//! What the threads of a crowd do: they claim contexts, and log.

ghost use Rattle.std.specs.Prelude.{◌≡◌};
ghost use Rattle.dl_desk.specs.Made.{IsMadeWith};
ghost use Rattle.dl_desk.specs.State.{DeskState};

use dl_account::laws::made_stays;
use dl_account::{Book, Ctx, Desk, RegisterFault};
use dl_bytes::{Id, OwnLevel, Payload, Severity};
use std::snapshot::Snapshot;
use std::sync::Wait;
use std::thread::Promise;

/// What each thread does. Those of the first writers claim so many contexts each; then every thread makes so many calls, under
/// the context that it was given last, or else under the declared one.
#[derive(Clone, Copy)]
pub struct Job {
    /// The last of the writers that claim contexts.
    pub claimers: u8,
    /// How many contexts each of them claims.
    pub claims: u8,
    /// How many calls each thread makes.
    pub calls: u32,
}

impl Job {
    /// Each thread makes so many calls, and none claims.
    pub fn calls(calls: u32) -> Job
        ensures { result.calls ≡ calls }
    {
        Job {
            claimers: 0,
            claims: 0,
            calls,
        }
    }
}

/// What a thread gives back: its book, and how many of its claims found the table full.
#[derive(Drop)]
pub struct Worked {
    pub book: Book,
    pub full: u64,
}

/// What a thread's book will be: that of a writer which was made with this desk, under the number and with the base that its book
/// had before.
#[derive(Drop)]
pub struct OfWriter {
    pub desk: Snapshot<Desk>,
    pub before: Snapshot<Book>,
}

impl Promise<Worked> for OfWriter {
    ghost use Rattle.std.specs.Prelude.{◌≡◌};
    ghost use Rattle.dl_desk.specs.Made.{IsMadeWith};

    ghost kept_by = { λ p w. IsMadeWith p.desk.value w.book.writer × (w.book.writer.push.number ≡ p.before.value.writer.push.number) × (w.book.writer.base ≡ p.before.value.writer.base) };
}

/// The id of this context of this writer.
fn id_of(writer: u8, count: u8) -> Id {
    Id::from_bytes([b'C', writer, count, b'X'])
}

/// Claims so many contexts that are off, and answers the last one that it was given, and how many claims found the table full.
fn claim_all<R: Wait>(rt: &R, book: &mut Book, claims: u8, declared: Ctx) -> (Ctx, u64)
    ensures made { (desk : DeskState) → IsMadeWith desk book.old.writer → IsMadeWith desk book.new.writer }
    ensures number { book.new.writer.push.number ≡ book.old.writer.push.number }
    ensures base { book.new.writer.base ≡ book.old.writer.base }
{
    let Some(off) = OwnLevel::of(0) else {
        return (declared, 0);
    };
    made_stays();
    let writer = book.number();
    let mut last = declared;
    let mut full = 0u64;
    for count in 0..claims {
        match book.register(rt, id_of(writer, count), off, b"claimed") {
            Ok(ctx) => last = ctx,
            Err(RegisterFault::TableFull) => full = full.saturating_add(1),
            Err(_) => (),
        }
    }
    (last, full)
}

/// Makes so many calls under this context.
fn log_all<R: Wait>(rt: &R, book: &mut Book, ctx: Ctx, calls: u32)
    ensures made { (desk : DeskState) → IsMadeWith desk book.old.writer → IsMadeWith desk book.new.writer }
    ensures number { book.new.writer.push.number ≡ book.old.writer.push.number }
    ensures base { book.new.writer.base ≡ book.old.writer.base }
{
    made_stays();
    let text = Payload::new();
    for at in 0..calls {
        let _answer = book.log(rt, &ctx, Severity::Warn, at, &text);
    }
}

/// Does a thread's part of the job.
pub fn work<R: Wait>(rt: &R, book: Book, declared: Ctx, job: Job) -> Worked
    ensures made { (desk : DeskState) → IsMadeWith desk book.writer → IsMadeWith desk result.book.writer }
    ensures number { result.book.writer.push.number ≡ book.writer.push.number }
    ensures base { result.book.writer.base ≡ book.writer.base }
{
    let mut book = book;
    let claims = if book.number() <= job.claimers {
        job.claims
    } else {
        0
    };
    let (ctx, full) = claim_all(rt, &mut book, claims, declared);
    log_all(rt, &mut book, ctx, job.calls);
    Worked { book, full }
}
