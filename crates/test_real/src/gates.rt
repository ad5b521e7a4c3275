//! What threads share: a sign, two gates, and a net that gives a sign.

use dl_bytes::Bytes;
use dl_memory::{MeetingGate, MemoryNet, Passing, Sign, SignGate, Wanted, WatchedNet};
use dl_outside::{Accepted, ClientScript, Gate, Link, Net, Sends};
use std::alloc::Global;
use std::collections::VecDeque;
use std::test::Fail;
use std::thread;

/// How many turns a thread waits at most where another one comes.
const LONG: u64 = 1 << 40;

const FIRST: Passing = Passing { writer: 1, call: 2 };

const SECOND: Passing = Passing { writer: 2, call: 2 };

/// One worker makes three calls.
fn work<G: Gate>(gate: &G, writer: u8) {
    for call in 1..4 {
        gate.pass(writer, call);
    }
}

#[test]
fn two_workers_meet(rt: HostRuntime) -> Result<(), Fail> {
    let gate = MeetingGate::make(rt.alloc(), FIRST, SECOND, LONG)?;
    let met = &gate;
    thread::join(&rt, move || work(met, 1), move || work(met, 2));
    assert!(rt; gate.has_met());
    Ok(())
}

/// Whether two workers meet before the one comes, and after the other came and went.
fn meet_in_turn(alloc: Global) -> Option<[bool; 2]> {
    let gate = MeetingGate::make(alloc, FIRST, SECOND, 10).ok()?;
    let before = gate.has_met();
    work(&gate, 1);
    work(&gate, 2);
    Some([before, gate.has_met()])
}

#[test]
fn one_after_the_other_they_do_not_meet(rt: HostRuntime) {
    assert!(rt; meet_in_turn(rt.alloc()) == Some([false; 2]));
}

#[test]
fn a_worker_waits_for_a_sign(rt: HostRuntime) -> Result<(), Fail> {
    let sign = Sign::make(rt.alloc())?;
    let gate = SignGate::make(FIRST, sign.share()?, LONG);
    let (held, given) = (&gate, &sign);
    thread::join(&rt, move || work(held, 1), move || given.give());
    assert!(rt; gate.was_met() && sign.is_given());
    Ok(())
}

/// Whether a worker meets a sign that nobody gives.
fn meets_nobody(alloc: Global) -> Option<bool> {
    let gate = SignGate::make(FIRST, Sign::make(alloc).ok()?, 10);
    work(&gate, 1);
    Some(gate.was_met())
}

#[test]
fn a_worker_waits_no_longer_than_it_may(rt: HostRuntime) {
    assert!(rt; meets_nobody(rt.alloc()) == Some(false));
}

const WANTED: Wanted = *b"the wanted bytes";

/// A net of one client, whose link gives a sign.
fn watched(alloc: Global, sign: Sign) -> WatchedNet<MemoryNet> {
    let within = MemoryNet::make(alloc, 100, VecDeque::new(alloc));
    WatchedNet::make(within, WANTED, sign)
}

/// Whether a client comes, whose link takes the whole piece.
fn sends<N: Net>(alloc: Global, net: &mut N, piece: &[u8]) -> bool
where
    N::L: Drop,
{
    let client = ClientScript {
        sends: Bytes::over(Vec::new(alloc)),
        leave: None,
    };
    if net.launch(&client).is_err() {
        return false;
    }
    match net.accept() {
        Accepted::Link(link) => takes(link, piece),
        _ => false,
    }
}

/// Whether a link takes the whole piece.
fn takes<L: Link + Drop>(mut link: L, piece: &[u8]) -> bool {
    !piece.is_empty() && link.send(piece) == Sends::Bytes(piece.len())
}

/// Whether sending this piece gives the sign.
fn gives_sign(alloc: Global, piece: &[u8]) -> Option<bool> {
    let sign = Sign::make(alloc).ok()?;
    let mut net = watched(alloc, sign.share().ok()?);
    if sends(alloc, &mut net, piece) {
        Some(sign.is_given())
    } else {
        None
    }
}

#[test]
fn a_net_gives_a_sign(rt: HostRuntime) {
    let alloc = rt.alloc();
    assert!(rt; gives_sign(alloc, b"here are the wanted bytes.") == Some(true));
    assert!(rt; gives_sign(alloc, b"here are the wanted byte") == Some(false));
}
