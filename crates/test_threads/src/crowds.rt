//! Threads, each with a book of its own, on one ring.

ghost use Rattle.std.specs.Prelude.{◌≡◌, ◌<◌, ◌≤◌, true, length, map, All, IfOk, vec_len};
ghost use Rattle.std.specs.List.{range_with_len};
ghost use Rattle.dl_desk.specs.Made.{IsLater, IsMadeWith};
ghost use Rattle.dl_desk.specs.State.{DeskState};
ghost use Rattle.dl_account.specs.Known.{IsDrained};
ghost use Rattle.dl_account.specs.Making.{AreMadeWith};
ghost use Rattle.dl_writer.specs.State.{numbers};

use crate::jobs::{Job, OfWriter, Worked, work};
use crate::programs::{Program, hear_all, no_ends, one_app};
use dl_account::{Account, Book, BookList, Claim, ClaimList, Closing, Ctx, Desk, Kept, Record};
use dl_bytes::{Level, OutOfMemory, Severity};
use std::alloc::Global;
use std::snapshot::Snapshot;
use std::sync::Wait;
use std::thread;
use std::thread::{PromisedHandle, Scope, Threads};

/// How many calls the threads of a crowd make together.
const ALL: u64 = 4000;

/// How often the level is set.
const SETS: u32 = 2000;

/// The level of this version: none at version 0, info at version 1, and then the severities in turn.
fn level_of(version: u64) -> Option<Level> {
    match version {
        0 => Level::of(0),
        1 => Some(Level::from(Severity::Info)),
        later => Level::of((later % 7) as u8),
    }
}

/// Sets the level of the context.
fn set(desk: &mut Desk, level: Level)
    requires { 0 < length desk.old.apps }
    ensures { IsLater desk.old desk.new }
{
    let _worn = desk.set(0, level);
}

/// Sets the level of the context again and again, from version 2 on.
fn set_often(desk: &mut Desk)
    requires { 0 < length desk.old.apps }
    ensures { IsLater desk.old desk.new }
{
    for count in 0..SETS {
        let Some(level) = level_of(u64::from(count) + 2) else {
            break;
        };
        set(desk, level);
    }
}

/// Sets levels meanwhile, or does nothing.
fn serve(desk: &mut Desk, sets: bool)
    requires { 0 < length desk.old.apps }
    ensures { IsLater desk.old desk.new }
{
    if sets {
        set_often(desk);
    }
}

/// Starts a thread for each book, which does its part of the job.
fn start<'s, E: 's, R: Threads + Wait + Sync>(
    scope: &'s Scope<'s, E>,
    rt: &'s R,
    alloc: Global,
    desk: &Desk,
    books: Vec<Book>,
    declared: Ctx,
    job: Job,
) -> Result<Vec<PromisedHandle<Worked, OfWriter>>, OutOfMemory>
    requires made { All (λ b. IsMadeWith desk.now b.writer) books.items }
    requires bases { All (λ b. b.writer.base ≡ 1) books.items }
    ensures numbered { IfOk result (λ children. map (λ c. c.promise.before.value.writer.push.number) children.items ≡ map (λ b. b.writer.push.number) books.items) }
    ensures bases { IfOk result (λ children. All (λ c. c.promise.before.value.writer.base ≡ 1) children.items) }
    ensures same { IfOk result (λ children. All (λ c. c.promise.desk.value ≡ desk.now) children.items) }
{
    let mut children = Vec::new(alloc);
    for book in books {
        let before = Snapshot::of(&book);
        let promise = OfWriter {
            desk: Snapshot::of(desk),
            before,
        };
        let child = scope.spawn_with(promise, move || work(rt, book, declared, job))?;
        children.push(child)?;
    }
    Ok(children)
}

/// What all threads give back: their books, and how many of their claims found the table full.
#[derive(Drop)]
struct Back {
    books: BookList,
    full: u64,
}

/// Waits for all threads.
fn join_all<R: Threads>(rt: &R, children: Vec<PromisedHandle<Worked, OfWriter>>) -> Back
    requires few { vec_len children ≤ 32 }
    requires bases { All (λ c. c.promise.before.value.writer.base ≡ 1) children.items }
    ensures numbered { numbers result.books ≡ map (λ c. c.promise.before.value.writer.push.number) children.items }
    ensures made { (desk : DeskState) → All (λ c. c.promise.desk.value ≡ desk) children.items → All (λ b. IsMadeWith desk b.writer) result.books }
    ensures bases { All (λ b. b.writer.base ≡ 1) result.books }
{
    let mut books = BookList::none();
    let mut full = 0u64;
    for child in children {
        let worked = child.join(rt);
        full = full.saturating_add(worked.full);
        books.add(worked.book);
    }
    Back { books, full }
}

/// Lets all books work beside the daemon, each in a thread of its own.
fn work_beside<'s, E: 's, R: Threads + Wait + Sync>(
    scope: &'s Scope<'s, E>,
    rt: &'s R,
    alloc: Global,
    desk: &mut Desk,
    books: Vec<Book>,
    declared: Ctx,
    job: Job,
    sets: bool,
) -> Result<Back, OutOfMemory>
    requires apps { 0 < length desk.old.apps }
    requires few { vec_len books ≤ 32 }
    requires made { All (λ b. IsMadeWith desk.old b.writer) books.items }
    requires numbered { map (λ b. b.writer.push.number) books.items ≡ range_with_len 1 (vec_len books) }
    requires bases { All (λ b. b.writer.base ≡ 1) books.items }
    ensures made { IfOk result (λ back. AreMadeWith desk.new back.books) }
{
    match start(scope, rt, alloc, desk, books, declared, job) {
        Ok(children) => {
            serve(desk, sets);
            Ok(join_all(rt, children))
        }
        Err(fault) => Err(fault),
    }
}

/// The daemon's side once all are back, and how many of their claims found the table full.
#[derive(Drop)]
struct Gathered {
    full: u64,
    closing: Closing,
}

/// The daemon's side once all are back, where that is all.
fn gather(desk: Desk, back: Back) -> Option<Gathered>
    requires { AreMadeWith desk back.books }
{
    let Back { books, full } = back;
    match Closing::make(desk, books) {
        Ok(closing) => Some(Gathered { full, closing }),
        Err(_) => None,
    }
}

/// All books at once, each in a thread of its own that does its part of the job.
fn crowd<R: Threads + Wait + Sync>(
    rt: &R,
    alloc: Global,
    desk: Desk,
    books: Vec<Book>,
    declared: Ctx,
    job: Job,
    sets: bool,
) -> Result<Option<Gathered>, OutOfMemory>
    requires apps { 0 < length desk.apps }
    requires few { vec_len books ≤ 32 }
    requires made { All (λ b. IsMadeWith desk b.writer) books.items }
    requires numbered { map (λ b. b.writer.push.number) books.items ≡ range_with_len 1 (vec_len books) }
    requires bases { All (λ b. b.writer.base ≡ 1) books.items }
{
    thread::scope(
        thread::scope_env(),
        rt,
        move |scope| -> Result<Option<Gathered>, OutOfMemory>
            requires apps { 0 < length desk.apps }
            requires few { vec_len books ≤ 32 }
            requires made { All (λ b. IsMadeWith desk b.writer) books.items }
            requires numbered { map (λ b. b.writer.push.number) books.items ≡ range_with_len 1 (vec_len books) }
            requires bases { All (λ b. b.writer.base ≡ 1) books.items }
        {
            let mut desk = desk;
            match work_beside(scope, rt, alloc, &mut desk, books, declared, job, sets) {
                Ok(back) => Ok(gather(desk, back)),
                Err(fault) => Err(fault),
            }
        },
    )
}

/// How many calls were made, and whether each met a level that its context held, with no version below the one before.
#[derive(Clone, Copy)]
struct Calls {
    calls: u64,
    are_held: bool,
}

/// Whether each record has the level that its context held at its version, and no version falls.
fn are_held(records: &[Record]) -> bool {
    let mut last = 0;
    for record in records {
        if level_of(record.version) != Some(record.held) || record.version < last {
            return false;
        }
        last = record.version;
    }
    true
}

/// With the records of one writer more.
fn added(before: Calls, records: &[Record]) -> Calls {
    Calls {
        calls: before.calls.saturating_add(records.len() as u64),
        are_held: before.are_held && are_held(records),
    }
}

/// What became of the calls of all writers.
fn counted(account: &Account) -> Calls {
    let records = account.records();
    let mut all = Calls {
        calls: 0,
        are_held: true,
    };
    for writer in 1..=records.writers() {
        all = added(all, records.of(writer));
    }
    all
}

/// Marks the places of these claims, and tells whether none of them was marked before.
fn mark(places: &mut [bool; 64], claims: &[Claim]) -> bool {
    for claim in claims {
        let place = usize::from(claim.place());
        if places[place] {
            return false;
        }
        places[place] = true;
    }
    true
}

/// How many places the writers claimed behind the declared context, where no place was claimed twice.
fn claimed(claims: &ClaimList) -> Option<u64> {
    let mut places = [false; 64];
    places[0] = true;
    let mut count = 0u64;
    for writer in 1..=claims.writers() {
        let theirs = claims.of(writer);
        if !mark(&mut places, theirs) {
            return None;
        }
        count = count.saturating_add(theirs.len() as u64);
    }
    Some(count)
}

/// A crowd's calls, how many places were claimed, and how many claims found the table full.
#[derive(Clone, Copy)]
struct Outcome {
    calls: Calls,
    claimed: Option<u64>,
    full: u64,
}

/// Takes what is left once the threads are back, and tells whether it is all.
fn hear_rest<R: Wait>(rt: &R, closing: &mut Closing) -> bool
    ensures { result ≡ true → IsDrained closing.new }
{
    if closing.apps().len() != 1 {
        return false;
    }
    hear_all(rt, closing);
    closing.is_drained()
}

/// What an account tells.
fn told_by(account: &Account, full: u64) -> Outcome {
    Outcome {
        calls: counted(account),
        claimed: claimed(account.claims()),
        full,
    }
}

/// What the account of a drained daemon's side tells.
fn told(alloc: Global, closing: Closing, full: u64) -> Outcome
    requires { IsDrained closing }
{
    let account = closing.finish(Kept::make(alloc), no_ends(alloc));
    told_by(&account, full)
}

/// What became of all calls and claims, of the daemon's side once the threads are back.
fn drained<R: Wait>(rt: &R, alloc: Global, gathered: Gathered) -> Option<Outcome> {
    let Gathered { full, mut closing } = gathered;
    if hear_rest(rt, &mut closing) {
        Some(told(alloc, closing, full))
    } else {
        None
    }
}

/// What becomes of the calls and the claims of so many threads on one ring that holds so many.
fn run_crowd<R: Threads + Wait + Sync>(
    rt: &R,
    alloc: Global,
    capacity: u16,
    threads: u8,
    job: Job,
    sets: bool,
) -> Option<Outcome>
    requires capacity { (1 ≤ capacity) × (capacity ≤ 4096) }
    requires few { threads ≤ 32 }
{
    match one_app(alloc, capacity, threads, job.calls) {
        Ok(Program { desk, ctx, books }) => {
            match crowd(rt, alloc, desk, books, ctx, job, sets) {
                Ok(Some(gathered)) => drained(rt, alloc, gathered),
                Ok(None) | Err(_) => None,
            }
        }
        Err(_) => None,
    }
}

/// Whether each call has a record, and met a level that its context held.
fn met_levels(outcome: Option<Outcome>) -> bool {
    match outcome {
        Some(Outcome { calls, .. }) => calls.calls == ALL && calls.are_held,
        None => false,
    }
}

/// Whatever the schedule: each level that a call met is one that its context held, and no version falls.
#[test]
fn levels_are_held(rt: HostRuntime) {
    let outcome = run_crowd(&rt, rt.alloc(), 16, 2, Job::calls(2000), true);
    assert!(rt; met_levels(outcome));
}

/// Whether 63 places were claimed behind the declared context, no place twice, and all other claims found the table full.
fn are_apart(outcome: Option<Outcome>) -> [bool; 3] {
    match outcome {
        Some(outcome) => [
            outcome.claimed == Some(63),
            outcome.full == 65,
            outcome.calls.calls == 160,
        ],
        None => [false; 3],
    }
}

/// Eight threads claim sixteen contexts each of one application while two others log, a hundred times, on a ring that holds all that
/// they push: whether the places were given apart each time.
fn are_apart_each_time<R: Threads + Wait + Sync>(rt: &R, alloc: Global) -> bool {
    let job = Job {
        claimers: 8,
        claims: 16,
        calls: 16,
    };
    for _run in 0..100 {
        let outcome = run_crowd(rt, alloc, 256, 10, job, false);
        if are_apart(outcome) != [true; 3] {
            return false;
        }
    }
    true
}

/// Whatever the schedule: no place is claimed twice, and claims are refused only once all places are.
#[test]
fn no_place_twice(rt: HostRuntime) {
    assert!(rt; are_apart_each_time(&rt, rt.alloc()));
}
