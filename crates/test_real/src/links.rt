//! Links under load: one peer reads all, another one reads nothing.

use crate::sockets::{LOOPBACK, first};
use dl_outside::{Link, Net, Sends};
use dl_real_daemon::TcpNet;
use std::alloc::Global;
use std::io::Read;
use std::net::{TcpListener, TcpStream};
use std::thread;
use std::thread::Threads;
use std::time::Clock;

/// 100,000 frames of 100 bytes.
const TOTAL: u64 = 100_000 * 100;

/// After so many bytes they come again: 251 frames, no two of them alike.
const PERIOD: usize = 251 * 100;

/// How many turns a sender makes at most.
const MOST_TURNS: u32 = 10_000_000;

/// How many of these bytes come at a place, each of them in order. None where one is another.
fn in_order(piece: &[u8], place: u64) -> Option<u64> {
    let mut read = place;
    for byte in piece {
        if u64::from(*byte) != read % 251 {
            return None;
        }
        read = read.saturating_add(1);
    }
    Some(read)
}

/// The next bytes of a stream, where they come in order at a place: the place behind them.
fn read_piece(stream: &mut TcpStream, place: u64) -> Option<u64> {
    let mut piece = [0; 8192];
    let n = stream.read(&mut piece).unwrap_or(0);
    in_order(piece.get(..n)?, place)
}

/// How many bytes are read to the end, each of them in order.
fn read_in_order(mut stream: TcpStream) -> u64 {
    let mut read = 0u64;
    for _ in 0..u64::MAX {
        match read_piece(&mut stream, read) {
            Some(place) if place > read => read = place,
            Some(_) => break,
            None => return 0,
        }
    }
    read
}

/// The bytes that are sent over and over.
fn frames(alloc: Global) -> Option<Vec<u8>> {
    let mut bytes = Vec::with_capacity(alloc, PERIOD).ok()?;
    for n in 0..PERIOD {
        bytes.push((n % 251) as u8).ok()?;
    }
    Some(bytes)
}

/// The next answer of a link that is sent bytes from a place on.
fn send_from<L: Link>(link: &mut L, frames: &[u8], sent: u64) -> Sends {
    let at = (sent % PERIOD as u64) as usize;
    if at < frames.len() {
        link.send(&frames[at..])
    } else {
        Sends::Failed
    }
}

/// Sends all frames through one link, and as much as goes through another one meanwhile. Tells how much that was.
fn send_all<L: Link>(link: &mut L, stuck: &mut L, frames: &[u8]) -> (u64, u64) {
    let (mut sent, mut other) = (0u64, 0u64);
    for _ in 0..MOST_TURNS {
        if sent >= TOTAL {
            break;
        }
        if let Sends::Bytes(n) = send_from(stuck, frames, other) {
            other = other.saturating_add(n as u64);
        }
        match send_from(link, frames, sent) {
            Sends::Bytes(n) => sent = sent.saturating_add(n as u64),
            Sends::Busy => link.rest(),
            Sends::Failed => break,
        }
    }
    (sent, other)
}

/// What two links come to, of which the other is stuck: how many bytes each was sent, how many the first one's peer read, and the counts of both.
#[derive(Clone, Copy)]
struct Seen {
    sent: u64,
    other: u64,
    read: u64,
    faults: u64,
    waits: u64,
}

/// Nobody came.
const NOTHING: Seen = Seen {
    sent: 0,
    other: 0,
    read: 0,
    faults: u64::MAX,
    waits: 0,
};

/// Sends all through one link, as far as there is memory, and shuts it then.
fn send_through<L: Link>(alloc: Global, link: &mut L, stuck: &mut L) -> (u64, u64) {
    let sent = match frames(alloc) {
        Some(bytes) => send_all(link, stuck, &bytes),
        None => (0, 0),
    };
    link.shut();
    sent
}

/// The same of a link whose peer reads in a thread of its own, beside one that is stuck.
fn send_beside<R: Threads, L: Link>(
    rt: &R,
    alloc: Global,
    peer: TcpStream,
    link: &mut L,
    stuck: &mut L,
) -> Seen {
    let Ok(reader) = thread::spawn(rt, move || read_in_order(peer)) else {
        return NOTHING;
    };
    let (sent, other) = send_through(alloc, link, stuck);
    Seen {
        sent,
        other,
        read: reader.join(rt),
        faults: link.faults().saturating_add(stuck.faults()),
        waits: stuck.waits(),
    }
}

/// A peer of a net that listens, and its link.
fn dialled<R: std::net::Net, N: Net>(rt: &R, net: &mut N, port: u16) -> Option<(R::Stream, N::L)>
where
    R::Stream: Drop,
    N::L: Drop,
{
    let peer = TcpStream::connect(rt, (LOOPBACK, port)).ok()?;
    match first(net) {
        Some(link) => Some((peer, link)),
        None => None,
    }
}

/// What a second peer comes to, beside one that is stuck.
fn with_second<R: Threads + std::net::Net<Stream = TcpStream>, N: Net>(
    rt: &R,
    alloc: Global,
    net: &mut N,
    port: u16,
    stuck: &mut N::L,
) -> Seen
where
    N::L: Drop,
{
    match dialled(rt, net, port) {
        Some((peer, mut link)) => send_beside(rt, alloc, peer, &mut link, stuck),
        None => NOTHING,
    }
}

/// What two peers come to, of which the first reads nothing.
fn with_both<R: Threads + std::net::Net<Stream = TcpStream>, N: Net>(
    rt: &R,
    alloc: Global,
    net: &mut N,
    port: u16,
) -> Seen
where
    N::L: Drop,
{
    match dialled(rt, net, port) {
        Some((peer, mut stuck)) => {
            let seen = with_second(rt, alloc, net, port, &mut stuck);
            drop(peer);
            seen
        }
        None => NOTHING,
    }
}

/// The same over a net.
fn stuck<
    R: std::net::Net<Stream = TcpStream, Listener = TcpListener>
        + Threads
        + Clock
        + AllocGlobal
        + Copy
        + Drop,
>(rt: R) -> Seen {
    let mut net = TcpNet::make(rt, LOOPBACK);
    if net.listen(0).is_err() {
        return NOTHING;
    }
    let port = net.port();
    with_both(&rt, rt.alloc(), &mut net, port)
}

/// Whether all was sent, and read in order, and the peer that reads nothing was not sent all, and was told so without a wait.
fn is_stuck(seen: Seen) -> [bool; 4] {
    [
        seen.sent >= TOTAL && seen.read == seen.sent,
        seen.other > 0 && seen.other < seen.sent,
        seen.waits > 0,
        seen.faults == 0,
    ]
}

#[test]
fn a_stuck_peer_holds_up_nobody(rt: HostRuntime) {
    assert!(rt; is_stuck(stuck(rt)) == [true; 4]);
}
