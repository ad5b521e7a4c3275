//! Workers that run at once, and the daemon beside them; and a client that is too slow.

use crate::playing::{Doors, MUCH, PATIENCE, Seen, Stage, play};
use dl_bytes::OutOfMemory;
use dl_memory::{MeetingGate, Passing, Wanted};
use std::alloc::Global;
use std::sync::Wait;
use std::test::Fail;
use std::thread::Threads;

/// Two applications with two writers each, of which one is filtered, and a client.
const TWO: &str =
    "app LOG1 4096\napp LOG2 4096\ncontext LOG1 TEST info\ncontext LOG2 TEST info\nwriter LOG1\nwriter LOG1\nwriter LOG2\nwriter LOG2\ncalls 1 TEST info 1000 \"hi\"\ncalls 2 TEST debug 1000 \"hi\"\ncalls 3 TEST info 1000 \"hi\"\ncalls 4 TEST warn 1000 \"hi\"\nclient\n";

/// What it prints.
const TWO_REPORT: &str =
    "client 1 stopped 3000 105000 complete\napp LOG1 calls 2000 queued 1000 filtered 1000 lost 0 reported 0\napp LOG2 calls 2000 queued 2000 filtered 0 lost 0 reported 0\n";

/// The same, where the client injects into the first application.
const INJECTING: &str =
    "app LOG1 4096\napp LOG2 4096\ncontext LOG1 TEST info\ncontext LOG2 TEST info\nwriter LOG1\nwriter LOG1\nwriter LOG2\nwriter LOG2\ncalls 1 TEST info 1000 \"hi\"\ncalls 2 TEST debug 1000 \"hi\"\ncalls 3 TEST info 1000 \"hi\"\ncalls 4 TEST warn 1000 \"hi\"\nclient\nsend 1 2100001716014C4F473154455354FF0F000001000000AB\n";

/// What that prints.
const INJECTED_REPORT: &str =
    "client 1 stopped 3001 105023 complete\napp LOG1 calls 2000 queued 1000 filtered 1000 lost 0 reported 0\napp LOG2 calls 2000 queued 2000 filtered 0 lost 0 reported 0\n";

/// A link that takes nothing, and more than its outbox holds.
const SLOW: &str =
    "app LOG1 4096\ncontext LOG1 TEST info\nwriter LOG1\ncalls 1 TEST info 200 fill:967\nclient\n";

/// What that prints.
const SLOW_REPORT: &str =
    "client 1 slow 141 141000 cut\nbacklog 10 10000 49\napp LOG1 calls 200 queued 200 filtered 0 lost 0 reported 0\n";

/// Bytes that nobody waits for.
const NO_BYTES: Wanted = [0; 16];

/// The first call's message.
const FIRST: Wanted = [
    0x3D, 0x00, 0x00, 0x23, 0x45, 0x43, 0x55, 0x31, 0, 0, 0, 1, 0, 0, 0, 0,
];

/// The beginning of a reply of 23 bytes.
const REPLY: Wanted = [
    0x25, 0x00, 0x00, 0x17, 0x45, 0x43, 0x55, 0x31, 0x26, 0x01, 0x44, 0x41, 0x31, 0x00, 0x44, 0x43,
];

/// A run: the configuration, the scenario, how much its links have room for, which call of the first writer waits until a client was sent the wanted
/// bytes, 0 where none does, and what it prints.
#[derive(Clone, Copy)]
struct Case {
    conf: &'static str,
    scenario: &'static str,
    room: usize,
    held: u64,
    wanted: Wanted,
    report: &'static str,
}

/// What a run comes to, where it printed just that, and a worker that was to be held came, and what it waited for.
fn played<R: Threads + Wait + Sync>(
    rt: &R,
    alloc: Global,
    case: &Case,
) -> Result<Option<Seen>, OutOfMemory> {
    let mut doors = Doors::make(alloc, case.room, case.held, case.wanted)?;
    let mut stage = Stage::make(alloc, case.conf, case.scenario)?;
    let seen = play(rt, alloc, &mut stage, &mut doors.net, &doors.gate);
    let is_well = seen.status == 0
        && stage.has(case.report)
        && (case.held == 0 || doors.gate.was_met());
    Ok(is_well.then_some(seen))
}

#[test]
fn daemon_beside_writers(rt: HostRuntime) -> Result<(), Fail> {
    // the first writer waits until its first call was sent
    let case = Case {
        conf: "",
        scenario: TWO,
        room: MUCH,
        held: 2,
        wanted: FIRST,
        report: TWO_REPORT,
    };
    let seen = played(&rt, rt.alloc(), &case)?;
    assert!(rt; seen.is_some());
    Ok(())
}

#[test]
fn injected_beside_writers(rt: HostRuntime) -> Result<(), Fail> {
    // the first writer waits until the client has its reply
    let case = Case {
        conf: "",
        scenario: INJECTING,
        room: MUCH,
        held: 2,
        wanted: REPLY,
        report: INJECTED_REPORT,
    };
    let seen = played(&rt, rt.alloc(), &case)?;
    assert!(rt; seen.is_some_and(|seen| seen.injected == 1));
    Ok(())
}

#[test]
fn slow_link(rt: HostRuntime) -> Result<(), Fail> {
    let case = Case {
        conf: "RingbufferMaxSize = 10000\n",
        scenario: SLOW,
        room: 0,
        held: 0,
        wanted: NO_BYTES,
        report: SLOW_REPORT,
    };
    let seen = played(&rt, rt.alloc(), &case)?;
    assert!(rt; seen.is_some_and(|seen| seen.slow == (1, 72, 1000)));
    Ok(())
}

/// Whether the second calls of two writers meet, and all is well.
fn both_meet<R: Threads + Wait + Sync>(rt: &R, alloc: Global) -> Result<bool, OutOfMemory> {
    let one = Passing { writer: 1, call: 2 };
    let two = Passing { writer: 2, call: 2 };
    let gate = MeetingGate::make(alloc, one, two, PATIENCE)?;
    let mut doors = Doors::make(alloc, MUCH, 0, NO_BYTES)?;
    let mut stage = Stage::make(alloc, "", TWO)?;
    let seen = play(rt, alloc, &mut stage, &mut doors.net, &gate);
    Ok(seen.status == 0 && stage.has(TWO_REPORT) && gate.has_met())
}

#[test]
fn two_writers_meet(rt: HostRuntime) -> Result<(), Fail> {
    let have_met = both_meet(&rt, rt.alloc())?;
    assert!(rt; have_met);
    Ok(())
}

/// What is printed of two thousand calls of which so many were queued, and no client came: the others were filtered. A frame has 35 bytes: the headers
/// have 26, and the text "hi" takes 9.
fn report(alloc: Global, queued: u64) -> Result<String, OutOfMemory> {
    let filtered = 2000u64.saturating_sub(queued);
    let bytes = queued.saturating_mul(35);
    if queued == 0 {
        return format!(in alloc;
            "app LOG1 calls 2000 queued 0 filtered {filtered} lost 0 reported 0\n"
        );
    }
    format!(in alloc;
        "backlog {queued} {bytes} 0\napp LOG1 calls 2000 queued {queued} filtered {filtered} lost 0 reported 0\n"
    )
}

/// Whether just what is expected was printed where so many calls were queued.
fn has_report(alloc: Global, stage: &Stage, queued: u64) -> Result<bool, OutOfMemory> {
    let report = report(alloc, queued)?;
    Ok(stage.has(report.as_str()))
}

/// Two writers, each of which claims a context with this level and makes a thousand calls under it.
const CLAIMED_OFF: &str =
    "app LOG1 4096\nwriter LOG1\nwriter LOG1\nregister 1 CTXA off\ncalls 1 CTXA info 1000 \"hi\"\nregister 2 CTXB off\ncalls 2 CTXB fatal 1000 \"hi\"\n";

const CLAIMED_AT_INFO: &str =
    "app LOG1 4096\nwriter LOG1\nwriter LOG1\nregister 1 CTXA info\ncalls 1 CTXA info 1000 \"hi\"\nregister 2 CTXB info\ncalls 2 CTXB fatal 1000 \"hi\"\n";

/// What a run of such writers comes to, where both claims were noted and taken, and just what is expected was printed.
fn claimed<R: Threads + Wait + Sync>(
    rt: &R,
    alloc: Global,
    scenario: &str,
) -> Result<Option<Seen>, OutOfMemory> {
    let mut doors = Doors::make(alloc, MUCH, 0, NO_BYTES)?;
    let mut stage = Stage::make(alloc, "", scenario)?;
    let seen = play(rt, alloc, &mut stage, &mut doors.net, &doors.gate);
    let is_well = seen.status == 0 && seen.claims == (2, 2);
    let has_report = has_report(alloc, &stage, seen.taken)?;
    Ok((is_well && has_report).then_some(seen))
}

#[test]
fn claimed_off(rt: HostRuntime) -> Result<(), Fail> {
    // neither before the daemon takes the claim nor behind it a call passes
    let seen = claimed(&rt, rt.alloc(), CLAIMED_OFF)?;
    assert!(rt; seen.is_some_and(|seen| seen.filtered && seen.taken == 0));
    Ok(())
}

#[test]
fn claimed_at_info(rt: HostRuntime) -> Result<(), Fail> {
    // how many calls pass depends on when the daemon takes the claims; none behind that is filtered
    let seen = claimed(&rt, rt.alloc(), CLAIMED_AT_INFO)?;
    assert!(rt; seen.is_some_and(|seen| seen.queued));
    Ok(())
}
