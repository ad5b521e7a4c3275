//! A net over loopback: who comes, who doesn't, and who ends.

use dl_bytes::Bytes;
use dl_outside::{Accepted, ClientScript, Dial, Gave, Link, Net, Sends};
use dl_real::TcpDial;
use dl_real_daemon::TcpNet;
use std::alloc::Global;
use std::io;
use std::net::{IpAddr, Ipv4Addr, TcpListener, TcpStream};
use std::thread::Threads;
use std::time::{Clock, Instant};

/// The address of the tests.
pub const LOOPBACK: IpAddr = IpAddr::V4(Ipv4Addr::LOCALHOST);

/// How many turns a test waits for what comes: some seconds.
pub const TURNS: u32 = 2000;

/// How long a call that doesn't wait may take, in microseconds.
const AT_ONCE: u128 = 100;

/// The first connection that comes.
pub fn first<N: Net>(net: &mut N) -> Option<N::L>
where
    N::L: Drop,
{
    for _ in 0..TURNS {
        if let Accepted::Link(link) = net.accept() {
            return Some(link);
        }
        net.rest();
    }
    None
}

/// The next answer that isn't `NotYet`.
fn next<L: Link>(link: &mut L, into: &mut [u8; 16]) -> Gave {
    for _ in 0..TURNS {
        match link.recv(into) {
            Gave::NotYet => link.rest(),
            gave => return gave,
        }
    }
    Gave::NotYet
}

/// A client that sends these bytes.
pub fn script(alloc: Global, sends: &[u8], leave: Option<u64>) -> Option<ClientScript> {
    Some(ClientScript {
        sends: Bytes::over(Vec::from_slice(alloc, sends).ok()?),
        leave,
    })
}

/// Whether a net refuses a client before it listens, and counts that.
fn refuses<N: Net>(net: &mut N, client: &ClientScript) -> bool {
    net.launch(client).is_err() && net.faults() == 1
}

/// Whether a net listens, and launches a client.
fn launches<N: Net>(net: &mut N, client: &ClientScript) -> bool {
    net.listen(0).is_ok() && net.launch(client).is_ok()
}

/// How often a link failed and waited.
fn troubles<L: Link>(link: &L) -> (u64, u64) {
    (link.faults(), link.waits())
}

/// Whether a link gives four bytes, which are these, and nothing more then.
fn gives<L: Link>(link: &mut L, wanted: [u8; 4]) -> bool {
    let mut piece = [0; 16];
    next(link, &mut piece) == Gave::Bytes(4)
        && piece.starts_with(&wanted)
        && link.recv(&mut piece) == Gave::NotYet
}

/// Whether a link gives what its client sends, takes what it leaves after, and ends then.
fn plays<L: Link>(link: &mut L) -> [bool; 4] {
    [
        gives(link, *b"ping"),
        link.send(b"pong") == Sends::Bytes(4),
        next(link, &mut [0; 16]) == Gave::End,
        troubles(link) == (0, 0),
    ]
}

/// The same of the first link of a net. It is dropped.
fn play_first<N: Net>(net: &mut N) -> Option<[bool; 4]>
where
    N::L: Drop,
{
    let mut link = first(net)?;
    Some(plays(&mut link))
}

/// The same of a net that refuses the client before it listens, and launches it then.
fn play_client<N: Net>(alloc: Global, net: &mut N) -> Option<[bool; 4]>
where
    N::L: Drop,
{
    let client = script(alloc, b"ping", Some(4))?;
    if refuses(net, &client) && launches(net, &client) {
        play_first(net)
    } else {
        None
    }
}

/// What a client comes to that leaves: whether the port was none before and one then, and how many bytes it read.
fn left<
    R: std::net::Net<Stream = TcpStream, Listener = TcpListener>
        + Threads
        + Clock
        + AllocGlobal
        + Copy
        + Drop,
>(rt: R) -> (Option<[bool; 4]>, bool, u64) {
    let mut net = TcpNet::make(rt, LOOPBACK);
    let before = net.port();
    let played = play_client(rt.alloc(), &mut net);
    let after = net.port();
    (played, before == 0 && after > 0, net.finish())
}

#[test]
fn a_client_that_leaves(rt: HostRuntime) {
    assert!(rt; left(rt) == (Some([true; 4]), true, 4));
}

/// Whether a link takes bytes until it is shut, and then takes and gives nothing.
fn is_shut<L: Link>(link: &mut L) -> [bool; 3] {
    let is_open = link.send(b"hello") == Sends::Bytes(5);
    link.shut();
    [
        is_open,
        link.send(b"more") == Sends::Busy,
        link.recv(&mut [0; 16]) == Gave::NotYet,
    ]
}

/// A net that launches a client which sends nothing and stays: its link.
fn silent<N: Net>(alloc: Global, net: &mut N) -> Option<N::L>
where
    N::L: Drop,
{
    let client = script(alloc, b"", None)?;
    if launches(net, &client) {
        first(net)
    } else {
        None
    }
}

/// Whether there is a link which is so.
fn is_shut_there<L: Link>(link: &mut Option<L>) -> bool {
    match link {
        Some(link) => is_shut(link) == [true; 3],
        None => false,
    }
}

/// How often a link that is there failed, had nothing and waited.
fn counts<L: Link>(link: &Option<L>) -> (u64, u64, u64) {
    match link {
        Some(link) => (link.faults(), link.idles(), link.waits()),
        None => (u64::MAX, 0, 0),
    }
}

/// What a client comes to whose link is shut and stays: how many bytes it read, and the counts of the link.
fn shut<
    R: std::net::Net<Stream = TcpStream, Listener = TcpListener>
        + Threads
        + Clock
        + AllocGlobal
        + Copy
        + Drop,
>(rt: R) -> (bool, u64, (u64, u64, u64)) {
    let mut net = TcpNet::make(rt, LOOPBACK);
    let mut link = silent(rt.alloc(), &mut net);
    let is_shut = is_shut_there(&mut link);
    let read = net.finish();
    (is_shut, read, counts(&link))
}

#[test]
fn a_client_is_ended_by_shut_alone(rt: HostRuntime) {
    assert!(rt; shut(rt) == (true, 5, (0, 1, 1)));
}

/// How long an accept took that finds nothing, and then a `recv`, in microseconds.
fn took<R: Clock, N: Net>(rt: &R, net: &mut N, link: &mut N::L) -> io::Result<(u128, u128)>
where
    N::L: Drop,
{
    let begun = Instant::now(rt)?;
    let _ = net.accept();
    let between = begun.elapsed(rt)?.as_micros();
    let _ = link.recv(&mut [0; 16]);
    let ended = begun.elapsed(rt)?.as_micros();
    Ok((between, ended.saturating_sub(between)))
}

/// How long the quickest of a hundred took.
fn quickest<R: Clock, N: Net>(rt: &R, net: &mut N, link: &mut N::L) -> io::Result<(u128, u128)>
where
    N::L: Drop,
{
    let (mut accepts, mut reads) = (u128::MAX, u128::MAX);
    for _ in 0..100 {
        let (accept, read) = took(rt, net, link)?;
        accepts = accepts.min(accept);
        reads = reads.min(read);
    }
    Ok((accepts, reads))
}

/// Whether neither waits, and each `recv` is counted as one that found nothing.
fn is_at_once<R: Clock, N: Net>(rt: &R, net: &mut N, link: &mut N::L) -> [bool; 4]
where
    N::L: Drop,
{
    let (accept, read) = quickest(rt, net, link).unwrap_or((u128::MAX, u128::MAX));
    [
        accept < AT_ONCE,
        read < AT_ONCE,
        link.idles() == 100,
        net.faults() == 0,
    ]
}

/// The same of a link of a client that sends nothing.
fn silent_is_at_once<R: Clock, N: Net>(rt: &R, alloc: Global, net: &mut N) -> bool
where
    N::L: Drop,
{
    match silent(alloc, net) {
        Some(mut link) => is_at_once(rt, net, &mut link) == [true; 4],
        None => false,
    }
}

/// The same over a net, and how many bytes the client read.
fn at_once<
    R: std::net::Net<Stream = TcpStream, Listener = TcpListener>
        + Threads
        + Clock
        + AllocGlobal
        + Copy
        + Drop,
>(rt: R) -> (bool, u64) {
    let mut net = TcpNet::make(rt, LOOPBACK);
    let is_so = silent_is_at_once(&rt, rt.alloc(), &mut net);
    (is_so, net.finish())
}

#[test]
fn nothing_waits(rt: HostRuntime) {
    assert!(rt; at_once(rt) == (true, 0));
}

/// Whether nobody is reached, and that is counted.
fn reaches_nobody<D: Dial>(dial: &mut D) -> bool
where
    D::S: Drop,
{
    dial.dial(1).is_err() && dial.faults() == 1
}

#[test]
fn nobody_listens(rt: HostRuntime) {
    let mut dial = TcpDial::over(rt, None);
    assert!(rt; reaches_nobody(&mut dial));
}
