//! What the tests begin with: an application with a context at level info, and the books of its writers.

ghost use Rattle.std.specs.Prelude.{◌≡◌, ◌+◌, ◌<◌, ◌≤◌, [], length, map, All, IfOk};
ghost use Rattle.std.specs.List.{range_with_len};
ghost use Rattle.dl_desk.specs.Apps.{contexts};
ghost use Rattle.dl_desk.specs.Made.{IsAppOf, IsMadeWith, MakesWriter};

use dl_account::{App, AppSpec, Book, Closing, Ctx, Desk, Ends, RingItem, TraceState};
use dl_bytes::{Bytes, Id, Injection, Level, OutOfMemory, OwnLevel, Payload, Sequence, Severity};
use std::alloc::Global;
use std::sync::Wait;

/// A desk of one application, that one's context, and the books of its writers.
#[derive(Drop)]
pub struct Program {
    pub desk: Desk,
    pub ctx: Ctx,
    pub books: Vec<Book>,
}

/// One application, whose ring holds so many calls, with one context at level info, and so many writers with books of so
/// much room.
pub fn one_app(alloc: Global, capacity: u16, writers: u8, room: u32) -> Result<Program, OutOfMemory>
    requires capacity { (1 ≤ capacity) × (capacity ≤ 4096) }
    ensures apps { IfOk result (λ p. length p.desk.apps ≡ 1) }
    ensures made { IfOk result (λ p. All (λ b. IsMadeWith p.desk b.writer) p.books.items) }
    ensures numbered { IfOk result (λ p. map (λ b. b.writer.push.number) p.books.items ≡ range_with_len 1 writers) }
    ensures bases { IfOk result (λ p. All (λ b. b.writer.base ≡ 1) p.books.items) }
{
    let specs = [spec(alloc, *b"LOG1", capacity)];
    match Desk::make(alloc, &specs) {
        Ok((mut desk, mut apps)) => match open(alloc, apps.of_mut(0), &mut desk, writers, room) {
            Ok(Opened { ctx, books }) => Ok(Program { desk, ctx, books }),
            Err(fault) => Err(fault),
        },
        Err(fault) => Err(fault),
    }
}

/// An application's context, and the books of its writers.
#[derive(Drop)]
struct Opened {
    ctx: Ctx,
    books: Vec<Book>,
}

/// The context at level info of a desk's first application, and the books of so many writers.
fn open(
    alloc: Global,
    app: &mut App,
    desk: &mut Desk,
    writers: u8,
    room: u32,
) -> Result<Opened, OutOfMemory>
    requires app { IsAppOf desk.old app.old }
    requires some { 0 < length desk.old.apps }
    requires first { desk.old.owners ≡ [] }
    requires one { length app.old.hello ≡ 1 }
    ensures apps { IfOk result (λ _. desk.new.apps ≡ desk.old.apps) }
    ensures made { IfOk result (λ o. All (λ b. IsMadeWith desk.new b.writer) o.books.items) }
    ensures numbered { IfOk result (λ o. map (λ b. b.writer.push.number) o.books.items ≡ range_with_len 1 writers) }
    ensures bases { IfOk result (λ o. All (λ b. b.writer.base ≡ 1) o.books.items) }
{
    let ctx = context(app)?;
    let Ok(()) = desk.set(0, Level::from(Severity::Info)) else {
        return Err(OutOfMemory);
    };
    match open_books(alloc, app, desk, writers, room) {
        Ok(books) => Ok(Opened { ctx, books }),
        Err(fault) => Err(fault),
    }
}

/// An application with this id.
pub fn spec(alloc: Global, apid: [u8; 4], capacity: u16) -> AppSpec
    ensures capacity { result.capacity ≡ capacity }
    ensures text { result.text ≡ [] }
{
    AppSpec {
        apid: Id::from_bytes(apid),
        capacity,
        text: Bytes::over(Vec::new(alloc)),
    }
}

/// A context of an application.
pub fn context(app: &mut App) -> Result<Ctx, OutOfMemory>
    ensures number { app.new.number ≡ app.old.number }
    ensures apid { app.new.apid ≡ app.old.apid }
    ensures first { IfOk result (λ _. contexts app.new ≡ length app.old.hello) }
{
    let Some(own) = OwnLevel::of(-1) else {
        return Err(OutOfMemory);
    };
    match app.context(Id::from_bytes(*b"TEST"), b"", own) {
        Ok(ctx) => Ok(ctx),
        Err(_) => Err(OutOfMemory),
    }
}

/// The book of the next writer of an application.
#[tactic(auto, using(dl_account::proofs::OpenBooks::same_app))]
pub fn book(alloc: Global, app: &mut App, desk: &mut Desk, room: u32) -> Result<Book, OutOfMemory>
    requires { IsAppOf desk.old app.old }
    ensures still { IsAppOf desk.new app.new }
    ensures same { (app.new.number ≡ app.old.number) × (app.new.apid ≡ app.old.apid) × (app.new.hello ≡ app.old.hello) }
    ensures base { IfOk result (λ b. b.writer.base ≡ contexts app.old) }
    ensures number { IfOk result (λ b. b.writer.push.number ≡ length desk.old.owners + 1) }
    ensures made { IfOk result (λ b. IsMadeWith desk.new b.writer) }
    ensures desk { IfOk result (λ _. MakesWriter app.old.number desk.old desk.new) }
{
    match app.writer(desk) {
        Ok(writer) => match Book::make(alloc, writer, room) {
            Ok(book) => Ok(book),
            Err(_) => Err(OutOfMemory),
        },
        Err(_) => Err(OutOfMemory),
    }
}

/// The books of so many writers of an application, the first ones of a desk.
pub fn open_books(
    alloc: Global,
    app: &mut App,
    desk: &mut Desk,
    writers: u8,
    room: u32,
) -> Result<Vec<Book>, OutOfMemory>
    requires app { IsAppOf desk.old app.old }
    requires first { desk.old.owners ≡ [] }
    requires one { contexts app.old ≡ 1 }
    ensures apps { IfOk result (λ _. desk.new.apps ≡ desk.old.apps) }
    ensures made { IfOk result (λ books. All (λ b. IsMadeWith desk.new b.writer) books.items) }
    ensures numbered { IfOk result (λ books. map (λ b. b.writer.push.number) books.items ≡ range_with_len 1 writers) }
    ensures bases { IfOk result (λ books. All (λ b. b.writer.base ≡ 1) books.items) }
{
    let mut books = Vec::new(alloc);
    for writer in 0..writers {
        books.push(book(alloc, app, desk, room)?)?;
    }
    Ok(books)
}

/// An injection with this service id.
pub fn injection(service: u32) -> Injection {
    Injection {
        place: 0,
        service,
        body: Payload::new(),
    }
}

/// Nothing at the end.
pub fn no_ends(alloc: Global) -> Ends {
    Ends {
        links: Sequence::over(Vec::new(alloc)),
        dropped: 0,
        trace: TraceState {
            files: Sequence::over(Vec::new(alloc)),
            end: None,
        },
    }
}

/// Takes what is oldest in the ring of the first application, where something waits.
fn takes<R: Wait>(rt: &R, closing: &mut Closing) -> Option<RingItem>
    requires { 0 < length closing.old.apps }
    ensures { closing.new.apps ≡ closing.old.apps }
{
    closing.take(rt, 0)
}

/// Takes what waits of the first application, and hears of its losses.
pub fn hear_all<R: Wait>(rt: &R, closing: &mut Closing)
    requires { 0 < length closing.old.apps }
{
    for _taken in 0..u64::MAX {
        if takes(rt, closing).is_none() {
            break;
        }
    }
    let _lost = closing.losses(0);
}
