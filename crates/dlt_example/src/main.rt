//! How a program logs, and what becomes of each call: an application whose ring holds two calls, and a context at level info. Of four calls
//! one is filtered by the level, two are queued, and one finds the ring full. The daemon's side, here in the same thread, takes what was
//! queued and is told what was lost. Each thread that logs has a writer of its own.
//!
//! Proved: that it is safe and ends, where calls that may wait return. No clause says what it prints; a stored run does.
#![tactic(auto)]

ghost use Rattle.std.specs.Prelude.{◌≡◌, ◌<◌, [], IfOk, IfSome, length};
ghost use Rattle.dl_desk.specs.Made.{IsAppOf};

use dl_account::{Answer, App, AppSpec, Ctx, Desk, Writer};
use dl_bytes::{Bytes, Id, Level, OutOfMemory, OwnLevel, Payload, Severity};
use std::alloc::Global;
use std::process::ExitCode;
use std::sync::Wait;

/// A context at level info, and a writer.
#[tactic(auto, using(dl_account::proofs::OpenBooks::same_app))]
fn open(app: &mut App, desk: &mut Desk) -> Option<(Ctx, Writer)>
    requires some { 0 < length desk.old.apps }
    requires of { IsAppOf desk.old app.old }
    ensures { IfSome result (λ _. desk.new.apps ≡ desk.old.apps) }
{
    let info = OwnLevel::of(4)?;
    let ctx = app
        .context(Id::from_bytes(*b"TEST"), b"what it says", info)
        .ok()?;
    desk.set(0, Level::from(Severity::Info)).ok()?;
    let writer = app.writer(desk).ok()?;
    Some((ctx, writer))
}

/// An application whose ring holds two calls.
fn spec(alloc: Global) -> AppSpec
    ensures capacity { result.capacity ≡ 2 }
    ensures text { result.text ≡ [] }
{
    AppSpec {
        apid: Id::from_bytes(*b"LOG1"),
        capacity: 2,
        text: Bytes::over(Vec::new(alloc)),
    }
}

/// The daemon's side of the application, its context and a writer.
fn declare(alloc: Global) -> Result<(Desk, Ctx, Writer), OutOfMemory>
    ensures { IfOk result (λ made. length made.0.apps ≡ 1) }
{
    let specs = [spec(alloc)];
    let (mut desk, mut apps) = Desk::make(alloc, &specs)?;
    match open(apps.of_mut(0), &mut desk) {
        Some((ctx, writer)) => Ok((desk, ctx, writer)),
        None => Err(OutOfMemory),
    }
}

/// Logs an empty message, and says what became of it.
fn log<R: Wait>(
    rt: &R,
    writer: &mut Writer,
    ctx: &Ctx,
    severity: Severity,
    at: u32,
) -> &'static str {
    match writer.send(rt, ctx, severity, at, &Payload::new()) {
        Ok(Answer::Queued) => "queued",
        Ok(Answer::Filtered) => "filtered",
        Ok(Answer::Lost) => "lost",
        Err(_) => "refused",
    }
}

/// Takes what the ring holds, and counts it.
fn take_all<R: Wait>(rt: &R, desk: &mut Desk) -> u32
    requires { 0 < length desk.old.apps }
    ensures { length desk.new.apps ≡ length desk.old.apps }
{
    let mut taken = 0u32;
    for _call in 0..2 {
        taken = taken.saturating_add(u32::from(desk.take(rt, 0).is_some()));
    }
    taken
}

/// What became of a call at debug and three at info, how many were taken, and how many were told as lost.
#[derive(Clone, Copy)]
struct Became {
    debug: &'static str,
    info: [&'static str; 3],
    taken: u32,
    told: u64,
}

/// Logs four messages, and takes what the ring holds.
fn play<R: Wait>(rt: &R, desk: &mut Desk, ctx: &Ctx, writer: &mut Writer) -> Became
    requires { 0 < length desk.old.apps }
{
    Became {
        debug: log(rt, writer, ctx, Severity::Debug, 0),
        info: [
            log(rt, writer, ctx, Severity::Info, 1),
            log(rt, writer, ctx, Severity::Info, 2),
            log(rt, writer, ctx, Severity::Info, 3),
        ],
        taken: take_all(rt, desk),
        told: desk.losses(0),
    }
}

/// Says it on standard output.
fn say(rt: &HostRuntime, became: Became) -> ExitCode {
    let Became {
        debug,
        info: [first, second, third],
        taken,
        told,
    } = became;
    match println!(rt;
        "debug {debug}; info {first}, {second}, {third}; taken {taken}, told as lost {told}"
    ) {
        Ok(()) => ExitCode::SUCCESS,
        Err(_) => ExitCode::FAILURE,
    }
}

fn main(rt: HostRuntime) -> ExitCode {
    match declare(rt.alloc()) {
        Ok((mut desk, ctx, mut writer)) => say(&rt, play(&rt, &mut desk, &ctx, &mut writer)),
        Err(_) => ExitCode::FAILURE,
    }
}
