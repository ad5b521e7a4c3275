//! Clients over TCP. No call on a socket waits.

ghost use Rattle.std.specs.Prelude.{◌≡◌, ◌<◌, true, None, length};
ghost use Rattle.dl_outside.specs.Link.{Receives, Sent};
ghost use Rattle.dl_outside.specs.Outside.{HasRisen};

use crate::alive::keep_alive;
use crate::answers::{came, is_pause};
use crate::attendance::Attendance;
use crate::client::attend;
use crate::known::Known;
use crate::newcomer::{FirstSign, Newcomer};
use crate::readiness::Readiness;
use crate::resting::{Resting, sleep};
use crate::seats::{MadeRoom, Room, Seat, SeatRule, Seats, millis};
use crate::streams::{pass_on, receive};
use crate::waiter::Waiter;
use dl_bytes::OutOfMemory;
use dl_outside::{Accepted, ClientScript, Gave, Link, Net, NetFault, Sends};
use dl_real::{Troubles, is_memory};
use std::io::{Error, ErrorKind};
use std::net::{IpAddr, Ipv4Addr, Ipv6Addr, Shutdown, TcpListener, TcpStream};
use std::os::fd::AsRawFd;
use std::thread::Threads;
use std::time::Clock;
use std::{io, thread};

/// How many milliseconds clients may take to end.
const CLIENT_PATIENCE: u64 = 60_000;

/// How many pieces of a connection's input are passed over at its end.
const LAST_PIECES: u32 = 64;

/// How long a net rests at most that rests until something comes, in milliseconds.
const WATCHFUL: u64 = 1_000;

/// What a connection gives, where it is still there.
fn given(stream: &mut Option<TcpStream>, into: &mut [u8]) -> Gave
    requires { 0 < length into.old }
    ensures { Receives None None result into.new }
{
    match stream {
        Some(stream) => receive(stream, into),
        None => Gave::NotYet,
    }
}

/// What a connection takes, where it is still there.
fn taken(stream: &mut Option<TcpStream>, piece: &[u8]) -> Sends
    requires { 0 < length piece.now }
    ensures { Sent None None result piece.now }
{
    match stream {
        Some(stream) => pass_on(stream, piece),
        None => Sends::Busy,
    }
}

/// Ends a connection, and gives its descriptor back. What has come and was not read is passed over first: else the system would tell the peer
/// of an error, and drop what it has not sent yet.
fn hang_up(stream: TcpStream) {
    let mut stream = stream;
    // A peer that is gone needs no end.
    let _ = stream.shutdown(Shutdown::Write);
    let mut into = [0; 1024];
    for _piece in 0..LAST_PIECES {
        match receive(&mut stream, &mut into) {
            Gave::Bytes(_) => {}
            Gave::NotYet | Gave::End | Gave::Failed => break,
        }
    }
}

/// A client's connection over TCP. It tells no content. No call waits but `rest`, which sleeps about a millisecond, and
/// up to five once nothing has gone through the link for a hundred rests. What is known of its socket is not asked of the system again.
#[derive(Drop)]
pub struct TcpLink<R> {
    rt: R,
    // none once it was shut
    stream: Option<TcpStream>,
    // none where memory ran out for it, and once it was shut
    seat: Option<Seat>,
    known: Known,
    resting: Resting,
    faults: u64,
    idles: u64,
    waits: u64,
    is_shut: bool,
}

impl<R: Clock> TcpLink<R> {
    /// Whether it is to end, to make room for another one. Then the other side gets nothing more, and what it has sent is the last.
    fn is_sent_away(&self) -> bool {
        let Some(seat) = &self.seat else {
            return false;
        };
        if !seat.is_sent_away() {
            return false;
        }
        if let Some(stream) = &self.stream {
            let _ = stream.shutdown(Shutdown::Both);
        }
        true
    }

    /// The other side sent bytes.
    fn note_sent(&self) {
        if let Some(seat) = &self.seat {
            seat.note_sent(millis(&self.rt));
        }
    }

    /// It took bytes.
    fn note_taken(&self) {
        if let Some(seat) = &self.seat {
            seat.note_taken(millis(&self.rt));
        }
    }
}

impl<R: Clock> Link for TcpLink<R> {
    ghost told = { λ l. record {
      left = None;
      over = None;
      given = None;
      taken = None;
      faults = l.faults;
      idles = l.idles;
      waits = l.waits;
      is_shut = l.is_shut;
    } };

    fn recv(&mut self, into: &mut [u8]) -> Gave {
        let ends = self.is_sent_away();
        if self.is_shut || (self.known.has_no_input() && !ends) {
            self.idles = self.idles.saturating_add(1);
            return Gave::NotYet;
        }
        let gave = given(&mut self.stream, into);
        match gave {
            Gave::Bytes(_) => {
                self.resting.end();
                self.note_sent();
                self.known.note_input(true);
            }
            Gave::NotYet => {
                self.idles = self.idles.saturating_add(1);
                self.known.note_input(false);
            }
            Gave::End => {}
            Gave::Failed => self.faults = self.faults.saturating_add(1),
        }
        gave
    }

    fn send(&mut self, piece: &[u8]) -> Sends {
        if self.is_shut || self.known.has_no_room() {
            self.waits = self.waits.saturating_add(1);
            return Sends::Busy;
        }
        let sent = taken(&mut self.stream, piece);
        match sent {
            Sends::Bytes(_) => {
                self.resting.end();
                self.note_taken();
                self.known.note_room(true);
            }
            Sends::Busy => {
                self.waits = self.waits.saturating_add(1);
                self.known.note_room(false);
            }
            Sends::Failed => self.faults = self.faults.saturating_add(1),
        }
        sent
    }

    fn shut(&mut self) {
        self.is_shut = true;
        if let Some(stream) = self.stream.take() {
            hang_up(stream);
        }
        self.seat = None;
    }

    fn rest(&mut self) {
        self.resting.rest(&self.rt);
    }

    fn faults(&self) -> u64 {
        self.faults
    }

    fn idles(&self) -> u64 {
        self.idles
    }

    fn waits(&self) -> u64 {
        self.waits
    }
}

/// A net over TCP. It tells no content. It listens on the address that it was made with: `Ipv4Addr::LOCALHOST` is
/// reached from this machine alone, and nothing here asks who a client is. Its own clients dial that address, or
/// loopback where it stands for every address of the machine. No call waits but `rest`, which ends when anything comes: a client, bytes of one, or room for
/// what it is to be sent. Where nothing comes it takes about a millisecond, up to five once a hundred rounds in a row have rested, and up to twenty once
/// some five seconds of them have, while no connection of it is open: nobody is kept waiting then. A net that is watchful rests a second at most
/// in place of these, and so serves where all that comes comes over sockets. It looks at a connection that comes while no other is open for a twentieth of a
/// second, or until that sends something: who is gone again by then, as a port scan or a health check, is no client, and takes nothing of what waits for one.
#[derive(Drop)]
pub struct TcpNet<R> {
    rt: R,
    address: IpAddr,
    port: u16,
    listener: Option<TcpListener>,
    // how many clients were launched, and how many of them have gone
    launched: u64,
    gone: Option<Attendance>,
    seats: Seats,
    // what takes the news of its sockets; none where another net does, and where the system has refused it
    waiter: Option<Waiter>,
    // none where the system has refused it
    tidings: Option<Readiness>,
    // what is known of its listener
    known: Known,
    // the connection that came last, while it isn't known whether it stays
    newcomer: Option<Newcomer>,
    is_watchful: bool,
    resting: Resting,
    troubles: Troubles,
    faults: u64,
}

impl<R> TcpNet<R> {
    /// What went wrong so far, each sentence with the port and the cause.
    pub fn troubles(&self) -> &[String] {
        self.troubles.all()
    }

    /// The port on which it listens, or 0 where it doesn't.
    pub fn port(&self) -> u16
        ensures { result ≡ self.now.port }
    {
        self.port
    }

    /// Counts an error as a fault, unless it is out of memory, and notes what it was.
    fn refused(&mut self, port: u16, error: Error) -> NetFault
        ensures failed { result ≡ NetFault.Failed → HasRisen self.old.faults self.new.faults }
        ensures memory { result ≡ NetFault.OutOfMemory → self.new.faults ≡ self.old.faults }
    {
        if is_memory(&error) {
            return NetFault::OutOfMemory;
        }
        self.faults = self.faults.saturating_add(1);
        self.troubles.note_port(self.address, port, &error);
        NetFault::Failed
    }
}

impl<R: AllocGlobal> TcpNet<R> {
    /// A net that is to listen on this address, with what tells of its sockets.
    fn over(rt: R, address: IpAddr, waiter: Option<Waiter>, tidings: Option<Readiness>) -> TcpNet<R>
        ensures faults { result.faults ≡ 0 }
        ensures port { result.port ≡ 0 }
    {
        let troubles = Troubles::none(rt.alloc());
        let seats = Seats::none(rt.alloc());
        TcpNet {
            rt,
            address,
            port: 0,
            listener: None,
            launched: 0,
            gone: None,
            seats,
            waiter,
            tidings,
            known: Known::nothing(),
            newcomer: None,
            is_watchful: false,
            resting: Resting::none(),
            troubles,
            faults: 0,
        }
    }

    /// A net that is to listen on this address. Where the system refuses what would tell of its sockets, it asks each of them at each turn.
    pub fn make(rt: R, address: IpAddr) -> TcpNet<R>
    where
        R: std::net::Net,
        ensures faults { result.faults ≡ 0 }
        ensures port { result.port ≡ 0 }
    {
        let waiter = Waiter::make(&rt, rt.alloc()).ok();
        let tidings = tidings_of(&waiter);
        TcpNet::over(rt, address, waiter, tidings)
    }

    /// A net that is to listen on the address of another one, which rests for both.
    pub fn beside(rt: R, other: &TcpNet<R>) -> TcpNet<R>
        ensures faults { result.faults ≡ 0 }
        ensures port { result.port ≡ 0 }
    {
        TcpNet::beside_at(rt, other, other.address)
    }

    /// A net that is to listen on this address, beside another one, which rests for both.
    pub fn beside_at(rt: R, other: &TcpNet<R>, address: IpAddr) -> TcpNet<R>
        ensures faults { result.faults ≡ 0 }
        ensures port { result.port ≡ 0 }
    {
        let tidings = tidings_of(&other.waiter);
        TcpNet::over(rt, address, None, tidings)
    }
}

/// What a net tells of its sockets, for another one that looks at it.
fn tidings_of(waiter: &Option<Waiter>) -> Option<Readiness> {
    waiter.as_ref()?.tidings()
}

impl<R> TcpNet<R> {
    /// From now on it rests until something comes over a socket, a second at most; and while no connection is open, one that comes is handed on once it has
    /// sent something, or has stayed for a twentieth of a second.
    pub fn be_watchful(&mut self)
        ensures { self.new ≡ record self.old { is_watchful = true } }
    {
        self.is_watchful = true;
    }

    /// From now on, where so many connections are open, one through which nothing goes makes room for another that comes.
    pub fn seat(&mut self, rule: SeatRule)
        ensures { self.new ≡ record self.old { seats = self.new.seats } }
    {
        self.seats.obey(rule);
    }

    /// How many connections made room for others, for who looks on.
    pub fn made_room(&self) -> MadeRoom {
        self.seats.made_room()
    }

    /// What it tells of its sockets, where it does.
    pub fn tidings(&self) -> Option<Readiness> {
        tidings_of(&self.waiter)
    }
}

impl<R: Threads + AllocGlobal> TcpNet<R> {
    /// Stops listening, and waits until its clients have ended, a minute at most. Drop the links before. It tells how many
    /// bytes its clients have read.
    pub fn finish(self) -> u64
    where
        R: Drop + Clock,
    {
        let TcpNet {
            rt,
            address: _,
            port: _,
            listener,
            launched,
            gone,
            seats: _,
            waiter: _,
            tidings: _,
            known: _,
            newcomer: _,
            is_watchful: _,
            resting: _,
            troubles: _,
            faults: _,
        } = self;
        drop(listener);
        match gone {
            Some(gone) => gone.wait(&rt, launched, CLIENT_PATIENCE),
            None => 0,
        }
    }

    /// The counts of its clients, for one more.
    fn counts(&mut self) -> Result<Attendance, OutOfMemory>
        ensures { self.new.faults ≡ self.old.faults }
    {
        if self.gone.is_none() {
            self.gone = Some(Attendance::none(self.rt.alloc())?);
        }
        match &self.gone {
            Some(gone) => gone.share(),
            None => Err(OutOfMemory),
        }
    }
}

impl<R> TcpNet<R> {
    /// The seat of one more connection, or none where memory runs out for it.
    fn come(&mut self) -> Option<Seat>
    where
        R: Clock,
        ensures { self.new ≡ record self.old { seats = self.new.seats } }
    {
        let now = millis(&self.rt);
        self.seats.come(now)
    }

    /// A round begins: the news is taken, unless a rest has just taken it.
    fn begin_round(&mut self)
        ensures { self.new.faults ≡ self.old.faults }
    {
        let has_rested = self.resting.begin_round();
        if let Some(waiter) = &mut self.waiter {
            waiter.begin_round(has_rested);
        }
    }

    /// The client that waited longest, or nothing where none waits or nothing listens.
    fn next_client(&mut self) -> io::Result<Option<TcpStream>>
        ensures { self.new.faults ≡ self.old.faults }
    {
        match &self.listener {
            Some(listener) if !self.known.has_no_input() => waiting(listener, &mut self.known),
            _ => Ok(None),
        }
    }

    /// Has one more connection looked at that comes.
    fn look_at(&mut self, stream: TcpStream)
    where
        R: Clock,
        ensures { self.new.faults ≡ self.old.faults }
    {
        let known = Known::of(self.tidings.as_ref(), stream.as_raw_fd());
        self.newcomer = Some(Newcomer::over(&self.rt, stream, known));
    }

    /// What the connection shows that came last: that it stays, where nothing would be lost with it or nobody looks.
    fn shown(&self, newcomer: &Newcomer) -> FirstSign
    where
        R: Clock,
    {
        if self.is_watchful && self.is_alone() {
            newcomer.shows(&self.rt)
        } else {
            FirstSign::Stays
        }
    }

    /// The connection that came last, where it stays. One that is gone again is let go.
    fn settled(&mut self) -> Option<Newcomer>
    where
        R: Clock,
        ensures { self.new.faults ≡ self.old.faults }
    {
        let newcomer = self.newcomer.take()?;
        match self.shown(&newcomer) {
            FirstSign::Stays => self.seated(newcomer),
            FirstSign::Gone => {
                // others may wait behind it
                self.known.note_input(true);
                None
            }
            FirstSign::Nothing => {
                self.known.ask_soon();
                self.newcomer = Some(newcomer);
                None
            }
        }
    }

    /// A connection that stays, unless another one is ending to make room for it: then it waits.
    fn seated(&mut self, newcomer: Newcomer) -> Option<Newcomer>
    where
        R: Clock,
        ensures { self.new.faults ≡ self.old.faults }
    {
        match self.seats.room(millis(&self.rt)) {
            Room::Free | Room::None => Some(newcomer),
            Room::Soon => {
                self.known.ask_soon();
                self.newcomer = Some(newcomer);
                None
            }
        }
    }

    /// The client that waited longest, once it stays.
    fn next_to_stay(&mut self) -> io::Result<Option<Newcomer>>
    where
        R: Clock,
        ensures { self.new.faults ≡ self.old.faults }
    {
        if self.newcomer.is_none() {
            if let Some(stream) = self.next_client()? {
                self.look_at(stream);
            }
        }
        Ok(self.settled())
    }

    /// Rests until something comes, for so many milliseconds at most. Answers false where nothing would tell of it.
    fn rests(&mut self, short: u64, long: u64) -> bool
        ensures { self.new.faults ≡ self.old.faults }
    {
        match &mut self.waiter {
            Some(waiter) => waiter.rest(short, long),
            None => false,
        }
    }

    /// Whether no connection that it accepted is open.
    fn is_alone(&self) -> bool {
        self.seats.are_empty()
    }
}

/// A listener that doesn't wait, and its port: the one that is asked for, or with 0 a free one.
fn listener<R: std::net::Net<Stream = TcpStream, Listener = TcpListener>>(
    rt: &R,
    address: IpAddr,
    port: u16,
) -> io::Result<(TcpListener, u16)> {
    let listener = TcpListener::bind(rt, (address, port))?;
    listener.set_nonblocking(true)?;
    let port = listener.local_addr()?.port();
    Ok((listener, port))
}

/// The address that reaches a listener on this address from the same machine.
pub fn reached_at(address: IpAddr) -> IpAddr {
    if !address.is_unspecified() {
        return address;
    }
    match address {
        IpAddr::V4(_) => IpAddr::V4(Ipv4Addr::LOCALHOST),
        IpAddr::V6(_) => IpAddr::V6(Ipv6Addr::LOCALHOST),
    }
}

/// Starts a client in a thread of its own, which is counted when it goes.
fn start<R: std::net::Net<Stream = TcpStream, Listener = TcpListener> + Threads + AllocGlobal>(
    rt: &R,
    address: IpAddr,
    port: u16,
    script: &ClientScript,
    counts: Attendance,
) -> io::Result<()> {
    let sends = Vec::from_slice(rt.alloc(), script.sends.all())?;
    let leave = script.leave;
    let stream = TcpStream::connect(rt, (reached_at(address), port))?;
    match thread::spawn(rt, move || counts.go(attend(stream, sends, leave))) {
        Ok(_client) => Ok(()),
        Err(_) => Err(Error::from(ErrorKind::Other)),
    }
}

/// The client that waited longest, or nothing where none waits. Its socket doesn't wait. What the listener gave is noted: a client that has gone again
/// may have others behind it.
fn waiting(listener: &TcpListener, known: &mut Known) -> io::Result<Option<TcpStream>> {
    let answer = listener.accept();
    let is_empty = match &answer {
        Ok(_) => false,
        Err(error) => is_pause(error),
    };
    let came = came(answer)?;
    known.note_input(!is_empty);
    let Some((stream, _)) = came else {
        return Ok(None);
    };
    stream.set_nonblocking(true)?;
    // Without it frames come later, and no more.
    let _ = stream.set_nodelay(true);
    keep_alive(stream.as_raw_fd());
    Ok(Some(stream))
}

impl<R> Net for TcpNet<R>
where
    R: std::net::Net<Stream = TcpStream, Listener = TcpListener>
        + Threads
        + Clock
        + AllocGlobal
        + Copy,
{
    type L = TcpLink<R>;

    ghost told = { λ n. record { listens_on = None; launched = None; waiting = None; faults = n.faults } };

    fn listen(&mut self, port: u16) -> Result<(), NetFault> {
        if self.listener.is_some() && self.port == port {
            // It stays open from one session to the next.
            return Ok(());
        }
        match listener(&self.rt, self.address, port) {
            Ok((listener, bound)) => {
                self.known = Known::of(self.tidings.as_ref(), listener.as_raw_fd());
                self.listener = Some(listener);
                self.port = bound;
                Ok(())
            }
            Err(error) => Err(self.refused(port, error)),
        }
    }

    fn launch(&mut self, script: &ClientScript) -> Result<(), NetFault> {
        let Ok(counts) = self.counts() else {
            return Err(NetFault::OutOfMemory);
        };
        match start(&self.rt, self.address, self.port, script, counts) {
            Ok(()) => {
                self.launched = self.launched.saturating_add(1);
                Ok(())
            }
            Err(error) => Err(self.refused(self.port, error)),
        }
    }

    fn accept(&mut self) -> Accepted<TcpLink<R>> {
        self.begin_round();
        match self.next_to_stay() {
            Ok(Some(newcomer)) => {
                self.resting.end();
                Accepted::Link(TcpLink {
                    rt: self.rt,
                    known: newcomer.known,
                    stream: Some(newcomer.stream),
                    seat: self.come(),
                    resting: Resting::none(),
                    faults: 0,
                    idles: 0,
                    waits: 0,
                    is_shut: false,
                })
            }
            Ok(None) => Accepted::None,
            Err(error) => {
                self.known.ask_soon();
                match self.refused(self.port, error) {
                    NetFault::Failed => Accepted::Failed,
                    NetFault::OutOfMemory => Accepted::OutOfMemory,
                }
            }
        }
    }

    fn rest(&mut self) {
        let is_alone = self.is_alone();
        let short = self.resting.next(is_alone);
        let long = if self.is_watchful { WATCHFUL } else { short };
        if !self.rests(short, long) {
            sleep(&self.rt, short);
        }
    }

    fn faults(&self) -> u64 {
        self.faults
    }
}
