//! Calls, contexts, writers and claims past what there is room for.

ghost use Rattle.std.specs.Prelude.{◌≡◌};
ghost use Rattle.dl_desk.specs.Made.{IsAppOf};

use crate::programs::{book, context, spec};
use dl_account::{
    Answer, App, AppFault, Book, BookFault, Desk, RegisterFault, Writer, WriterFault,
};
use dl_bytes::{Ctx, Id, OwnLevel, Payload, Severity};
use std::alloc::Global;
use std::sync::Wait;
use std::test::Fail;

/// A description that no claim may have.
const LONG: [u8; 49] = [b'x'; 49];

/// The id of this context.
fn id_of(number: u8) -> Id {
    Id::from_bytes([b'C', b'0' + number / 10, b'0' + number % 10, b'X'])
}

/// Declares contexts with ids of their own until one is refused, and answers how many were declared.
fn fill(app: &mut App) -> (u8, Option<AppFault>)
    ensures number { app.new.number ≡ app.old.number }
    ensures apid { app.new.apid ≡ app.old.apid }
{
    let Some(own) = OwnLevel::of(-1) else {
        return (0, None);
    };
    for number in 0..100u8 {
        if let Err(fault) = app.context(id_of(number), b"", own) {
            return (number, Some(fault));
        }
    }
    (100, None)
}

/// Makes writers until one is refused, and answers how many were made.
#[tactic(auto, using(dl_account::proofs::OpenBooks::same_app))]
fn make_writers(app: &mut App, desk: &mut Desk) -> (u8, Option<WriterFault>)
    requires { IsAppOf desk.old app.old }
{
    for count in 0..100u8 {
        if let Err(fault) = app.writer(desk) {
            return (count, Some(fault));
        }
    }
    (100, None)
}

/// What is answered to four calls through a book with room for two records, of which the second is another application's.
fn answers<R: Wait>(rt: &R, book: &mut Book, own: &Ctx) -> [Result<Answer, BookFault>; 4] {
    let foreign = Ctx::of(1, 0, Id::from_bytes(*b"LOG2"), Id::from_bytes(*b"TEST"));
    let text = Payload::new();
    [
        book.log(rt, own, Severity::Info, 1, &text),
        book.log(rt, &foreign, Severity::Info, 2, &text),
        book.log(rt, own, Severity::Info, 3, &text),
        book.log(rt, own, Severity::Info, 4, &text),
    ]
}

/// What was answered past the limits, and to a context once there is a writer.
#[derive(Drop)]
struct Met {
    calls: [Result<Answer, BookFault>; 4],
    contexts: (u8, Option<AppFault>),
    writers: (u8, Option<WriterFault>),
    late: (u8, Option<AppFault>),
}

/// Goes past the limits of an application's writers, and of a book with room for two records.
#[tactic(auto, using(dl_account::proofs::OpenBooks::same_app))]
fn pass_writers<R: Wait>(
    rt: &R,
    alloc: Global,
    app: &mut App,
    desk: &mut Desk,
    own: &Ctx,
    contexts: (u8, Option<AppFault>),
) -> Option<Met>
    requires { IsAppOf desk.old app.old }
{
    match book(alloc, app, desk, 2) {
        Ok(mut book) => Some(Met {
            calls: answers(rt, &mut book, own),
            contexts,
            writers: make_writers(app, desk),
            late: fill(app),
        }),
        Err(_) => None,
    }
}

/// Goes past the limits of an application: the 65th context, the 33rd writer, and a book with room for two records.
#[tactic(auto, using(dl_account::proofs::OpenBooks::same_app))]
fn pass_limits<R: Wait>(rt: &R, alloc: Global, app: &mut App, desk: &mut Desk) -> Option<Met>
    requires { IsAppOf desk.old app.old }
{
    match context(app) {
        Ok(own) => {
            let contexts = fill(app);
            pass_writers(rt, alloc, app, desk, &own, contexts)
        }
        Err(_) => None,
    }
}

/// Goes past the limits of one application.
fn meet<R: Wait>(rt: &R, alloc: Global) -> Option<Met> {
    let specs = [spec(alloc, *b"LOG1", 16)];
    match Desk::make(alloc, &specs) {
        Ok((mut desk, mut apps)) => pass_limits(rt, alloc, apps.of_mut(0), &mut desk),
        Err(_) => None,
    }
}

/// Whether these are the answers to the calls, to the 65th context, the 33rd writer, and a context after a writer.
fn are_refused(met: &Met) -> [bool; 4] {
    [
        met.calls
            == [
                Ok(Answer::Filtered),
                Err(BookFault::Foreign),
                Ok(Answer::Filtered),
                Err(BookFault::Full),
            ],
        met.contexts == (63, Some(AppFault::ContextsFull)),
        met.writers == (31, Some(WriterFault::WritersFull)),
        met.late == (0, Some(AppFault::Started)),
    ]
}

#[test]
fn past_the_limits(rt: HostRuntime) -> Result<(), Fail> {
    let met = meet(&rt, rt.alloc()).ok_or("no memory")?;
    assert!(rt; are_refused(&met) == [true; 4]);
    Ok(())
}

/// Claims contexts with ids of their own until one is refused, and answers how many were claimed.
fn claim_all<R: Wait>(rt: &R, writer: &mut Writer, own: OwnLevel) -> (u8, Option<RegisterFault>) {
    for number in 0..100u8 {
        if let Some(fault) = refusal(rt, writer, id_of(number), own, b"") {
            return (number, Some(fault));
        }
    }
    (100, None)
}

/// Why a claim is refused, where it is.
fn refusal<R: Wait>(
    rt: &R,
    writer: &mut Writer,
    ctid: Id,
    own: OwnLevel,
    text: &[u8],
) -> Option<RegisterFault> {
    match writer.register(rt, ctid, own, text) {
        Ok(_) => None,
        Err(fault) => Some(fault),
    }
}

/// Whether a claim is refused that has no id, one with a long description, and the 65th one.
fn are_claims_refused<R: Wait>(rt: &R, writer: &mut Writer) -> [bool; 3] {
    let Some(own) = OwnLevel::of(-1) else {
        return [false; 3];
    };
    [
        refusal(rt, writer, Id::from_bytes([0; 4]), own, &LONG) == Some(RegisterFault::ZeroId),
        refusal(rt, writer, id_of(0), own, &LONG) == Some(RegisterFault::TooLong),
        claim_all(rt, writer, own) == (64, Some(RegisterFault::TableFull)),
    ]
}

/// The same of a writer of this application.
fn claim_past<R: Wait>(rt: &R, app: &mut App, desk: &mut Desk) -> [bool; 3]
    requires { IsAppOf desk.old app.old }
{
    match app.writer(desk) {
        Ok(mut writer) => are_claims_refused(rt, &mut writer),
        Err(_) => [false; 3],
    }
}

/// The same of an application without contexts.
fn claim_past_the_table<R: Wait>(rt: &R, alloc: Global) -> [bool; 3] {
    let specs = [spec(alloc, *b"LOG1", 16)];
    match Desk::make(alloc, &specs) {
        Ok((mut desk, mut apps)) => claim_past(rt, apps.of_mut(0), &mut desk),
        Err(_) => [false; 3],
    }
}

#[test]
fn the_65th_claim(rt: HostRuntime) {
    assert!(rt; claim_past_the_table(&rt, rt.alloc()) == [true; 3]);
}
