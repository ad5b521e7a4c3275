//! The daemon, and its calls.

ghost use Rattle.std.specs.Prelude.{◌≡◌, ◌+◌, ◌<◌, ◌≤◌, ℕ, true, false, [], length, IfOk, OnOk, OnErr};
ghost use Rattle.std.specs.List.{AllByRecursion};
ghost use Rattle.std.specs.Result.{is_ok};
ghost use Rattle.dl_rounds.specs.Greetings.{IsIntroduced, hello_of, registered};
ghost use Rattle.dl_outside.specs.Told.{NetTold};
ghost use Rattle.dl_loop.specs.Daemon.{IsDaemon};
ghost use Rattle.dl_loop.specs.Greeting.{AreListed, Greets, GreetsFirst};
ghost use Rattle.dl_loop.specs.InRound.{HasHadTurn};
ghost use Rattle.dl_loop.specs.Later.{GoesRound, IsLaterGreeted};
ghost use Rattle.dl_loop.specs.Made.{IsBegun, IsMade, IsUntouched, fresh_listeners};
ghost use Rattle.dl_loop.specs.RoundSteps.{AcceptsIfMay, IsRound, Serves, answer_of, has_moved};
ghost use Rattle.dl_loop.specs.Scene.{scene};
ghost use Rattle.dl_loop.specs.Limits.{more_events};
ghost use Rattle.dl_loop.specs.Steps.{Hears, Parts, Pumps, is_failure, is_want};

use crate::laws::a_daemon_goes_on;
use crate::limits::{CLIENT_LIMIT, MORE_EVENTS};
use crate::resting::rest_if_idle;
use crate::round::Round;
use dl_bytes::{Moment, OutOfMemory};
use dl_core::Core;
use dl_desk::{AppList, Desk};
use dl_events::{Journal, Kept};
use dl_outside::{Clock, Folder, Link, LinkList, Net};
use dl_rounds::{Arrival, ListenerPool, accept_one, greet, listen_all, pump_all, shut_gone};
use dl_settling::EndRoom;
use dl_taking::Batch;
use std::alloc::Global;
use std::marker::Model;
use std::snapshot::Snapshot;
use std::sync::Wait;

/// The live daemon over links of one kind.
#[derive(Drop)]
pub struct Daemon<L: Link> {
    pub(crate) core: Core,
    pub(crate) desk: Desk,
    pub(crate) journal: Kept,
    // of each client that came its link, by the clients' numbers from 1
    pub(crate) links: LinkList<L>,
    // of each client that may come what cuts its bytes
    pub(crate) seats: ListenerPool,
    pub(crate) batch: Batch,
    // room for what becomes of each client's link
    pub(crate) ends: EndRoom,
    // how many Log and Lost events there may be
    pub(crate) calls: u32,
    // how many there are
    pub(crate) noted: u32,
    // how many Claim events there are
    pub(crate) claimed: u32,
    // how many links were dropped
    pub(crate) dropped: u32,
    // whether an accept has failed, and whether one has run out of memory
    pub(crate) failed: bool,
    pub(crate) wanted: bool,
    // whether its own applications have told of themselves
    pub(crate) greeted: bool,
    pub(crate) alloc: Global,
    // the core and the desk as they were handed in, for contracts
    pub(crate) first_core: Snapshot<Core>,
    pub(crate) first_desk: Snapshot<Desk>,
}

impl<L: Link> Model for Daemon<L> {
    ghost use Rattle.dl_loop.specs.State.{DaemonState, daemon_of};
    ghost use Rattle.dl_loop.specs.Daemon.{IsDaemon};

    ghost Value = { DaemonState L };

    ghost view = { λ d. daemon_of d.core d.desk d.journal d.links d.seats d.calls d.noted d.claimed d.dropped d.failed d.wanted
        d.greeted d.first_core.value d.first_desk.value };

    ghost invariant = { λ d. IsDaemon L.told (daemon_of d.core d.desk d.journal d.links d.seats d.calls d.noted d.claimed d.dropped
        d.failed d.wanted d.greeted d.first_core.value d.first_desk.value) };
}

impl<L: Link> Daemon<L> {
    /// A daemon of this core and this desk, which notes in this journal: so many Log and Lost events at most. It takes all memory that its rounds
    /// and its stop need of their own: for what cuts the bytes of 32 clients, for their links, and for these events, for a Connect and a Close of
    /// each client, and for as many claims as may come with their Level events.
    pub fn make(
        alloc: Global,
        core: Core,
        desk: Desk,
        journal: Kept,
        calls: u32,
    ) -> Result<Daemon<L>, OutOfMemory>
    where
        L: Drop,
        requires begun { IsBegun core }
        requires untouched { IsUntouched desk }
        requires empty { journal.events ≡ [] }
        ensures made { IfOk result IsMade }
        ensures parts { IfOk result (λ d. (d.core ≡ core) × (d.desk ≡ desk) × (d.calls ≡ calls)) }
    {
        let mut journal = journal;
        match make_rooms(alloc, &mut journal, calls) {
            Ok(rooms) => Ok(Daemon::begin(alloc, core, desk, journal, rooms, calls)),
            Err(error) => Err(error),
        }
    }

    // The daemon of what it is made of.
    fn begin(
        alloc: Global,
        core: Core,
        desk: Desk,
        journal: Kept,
        rooms: Rooms<L>,
        calls: u32,
    ) -> Daemon<L>
        requires begun { IsBegun core }
        requires untouched { IsUntouched desk }
        requires empty { journal.events ≡ [] }
        requires room { calls + more_events ≤ journal.spare }
        requires links { rooms.links ≡ record { links = []; room = 32 } }
        requires listeners { rooms.seats.listeners ≡ fresh_listeners }
        ensures made { IsMade result }
        ensures parts { (result.core ≡ core) × (result.desk ≡ desk) × (result.calls ≡ calls) }
    {
        let first_core = Snapshot::of(&core);
        let first_desk = Snapshot::of(&desk);
        let Rooms {
            links,
            seats,
            batch,
            ends,
        } = rooms;
        Daemon {
            core,
            desk,
            journal,
            links,
            seats,
            batch,
            ends,
            calls,
            noted: 0,
            claimed: 0,
            dropped: 0,
            failed: false,
            wanted: false,
            greeted: false,
            alloc,
            first_core,
            first_desk,
        }
    }

    /// What is true of a daemon. It does nothing: its clause is what callers learn.
    pub fn is_daemon(&self)
        ensures { IsDaemon L.told self.now }
    {
        let _ = &self.dropped;
    }

    /// Notes what the applications of this process tell of themselves, before the first client comes. The list is that of the desk's applications.
    /// Where memory ran out the first ones of these messages are noted, each with its Level events.
    pub fn hello<F: Folder>(
        &mut self,
        apps: &AppList,
        moment: Moment,
        folder: &mut F,
    ) -> Result<(), OutOfMemory>
        requires introduced { AllByRecursion IsIntroduced apps.now }
        requires nobody { self.old.links.links ≡ [] }
        requires place { registered self.old.core + length apps.now ≤ length self.old.desk.apps }
        requires listed { AreListed self.old.desk.apps apps.now }
        ensures greets { OnOk result (Greets moment (hello_of apps.now) (scene self.old (F.told folder.old)) (scene self.new (F.told folder.new))) }
        ensures first { OnErr result (GreetsFirst moment (hello_of apps.now)
            (scene self.old (F.told folder.old)) (scene self.new (F.told folder.new))) }
        ensures later { IsLaterGreeted (scene self.old (F.told folder.old)) (scene self.new (F.told folder.new)) }
        ensures greeted { self.new.greeted ≡ is_ok result }
    {
        let told = greet(
            self.alloc,
            &mut self.core,
            &mut self.desk,
            &mut self.journal,
            apps,
            moment,
            folder,
        );
        self.greeted = told.is_ok();
        told
    }

    /// Whether the daemon's own applications have told of themselves: `hello` was Ok.
    pub fn greeted(&self) -> bool
        ensures { result ≡ self.now.greeted }
    {
        self.greeted
    }

    /// One round: an accept, unless one has failed or run out of memory before; each open client is listened to; each application's calls and claims
    /// are taken, at most 64, and then its losses; and each open client is sent what waits for it. The link of a client that is gone is shut then,
    /// also where it was too slow for what was taken. The net rests where nothing came, was taken or went.
    pub fn round<R: Wait, N: Net<L = L>, C: Clock, F: Folder>(
        &mut self,
        rt: &R,
        net: &mut N,
        clock: &C,
        folder: &mut F,
    ) -> Round
    where
        L: Drop,
        requires greeted { self.old.greeted ≡ true }
        ensures round { IsRound L.told result (N.told net.old) (N.told net.new)
            (scene self.old (F.told folder.old)) (scene self.new (F.told folder.new)) }
        ensures turns { (app : ℕ) → app < length self.old.desk.apps
            → HasHadTurn app (scene self.old (F.told folder.old)) (scene self.new (F.told folder.new)) }
        ensures goes { GoesRound (N.told net.old) (N.told net.new) (scene self.old (F.told folder.old)) (scene self.new (F.told folder.new)) }
    {
        let served = self.serve_all(rt, net, clock, folder);
        self.part();
        served.answer
    }
}

/// What a round answers, and whether anything moved in it.
#[derive(Drop)]
struct Served {
    answer: Round,
    moved: bool,
}

/// What clients, the calls of a round and the ends of links have room in.
#[derive(Drop)]
struct Rooms<L> {
    links: LinkList<L>,
    seats: ListenerPool,
    batch: Batch,
    ends: EndRoom,
}

/// Takes the memory that rounds need of their own, in the journal too.
fn make_rooms<L: Drop>(
    alloc: Global,
    journal: &mut Kept,
    calls: u32,
) -> Result<Rooms<L>, OutOfMemory>
    ensures events { journal.new.events ≡ journal.old.events }
    ensures room { OnOk result (calls + more_events ≤ journal.new.spare) }
    ensures links { IfOk result (λ rooms. rooms.links ≡ record { links = []; room = 32 }) }
    ensures listeners { IfOk result (λ rooms. rooms.seats.listeners ≡ fresh_listeners) }
{
    journal.reserve(u64::from(calls) + MORE_EVENTS)?;
    let links = LinkList::make(alloc, CLIENT_LIMIT)?;
    let seats = all_seats(alloc)?;
    let batch = Batch::make(alloc)?;
    let ends = EndRoom::make(alloc)?;
    Ok(Rooms {
        links,
        seats,
        batch,
        ends,
    })
}

/// The listeners of all clients that may come.
#[tactic(auto, unfolding(crate::specs::Made::fresh_listeners))]
fn all_seats(alloc: Global) -> Result<ListenerPool, OutOfMemory>
    ensures { IfOk result (λ seats. seats.listeners ≡ fresh_listeners) }
{
    ListenerPool::make(alloc, CLIENT_LIMIT)
}

/// The answer of a round, by what came of its accept.
fn answer_of(came: Arrival) -> Round
    ensures { result ≡ answer_of came }
{
    Round {
        accepted: matches!(came, Arrival::Client(_) | Arrival::Dropped),
        none: matches!(came, Arrival::Nobody),
        failed: is_failure(came),
        wanted: is_want(came),
    }
}

/// Whether the net failed.
fn is_failure(came: Arrival) -> bool
    ensures { result ≡ is_failure came }
{
    matches!(came, Arrival::Failed)
}

/// Whether memory ran out.
fn is_want(came: Arrival) -> bool
    ensures { result ≡ is_want came }
{
    matches!(came, Arrival::OutOfMemory)
}

impl<L: Link> Daemon<L> {
    // All of a round but that the links of clients that are gone are shut. The net rests where nothing moved.
    fn serve_all<R: Wait, N: Net<L = L>, C: Clock, F: Folder>(
        &mut self,
        rt: &R,
        net: &mut N,
        clock: &C,
        folder: &mut F,
    ) -> Served
    where
        L: Drop,
        requires greeted { self.old.greeted ≡ true }
        ensures serves { (serves : Serves L.told result.answer (N.told net.old) (N.told net.new)
            (scene self.old (F.told folder.old)) (scene self.new (F.told folder.new))) × (result.moved ≡ has_moved serves) }
        ensures goes { GoesRound (N.told net.old) (N.told net.new) (scene self.old (F.told folder.old)) (scene self.new (F.told folder.new)) }
    {
        dl_rounds::laws::a_round_is_its_events::<L>();
        dl_core::laws::what_links_take();
        self.is_daemon();
        let came = self.accept(net);
        self.is_daemon();
        let heard = self.listen(rt, folder);
        let taken = self.take_all(rt, clock, folder);
        self.is_daemon();
        let sent = self.pump();
        let answer = answer_of(came);
        let moved = rest_if_idle(net, answer.accepted | heard | taken | sent);
        Served { answer, moved }
    }

    // The links of clients that are gone are shut.
    fn part(&mut self)
        ensures { Parts L.told self.old self.new }
    {
        a_daemon_goes_on::<L>();
        shut_gone(self.core.hub(), &mut self.links);
    }

    // One accept, unless an earlier one failed or ran out of memory: then that one's answer again.
    fn accept<N: Net<L = L>>(&mut self, net: &mut N) -> Arrival
    where
        L: Drop,
        ensures { AcceptsIfMay L.told result (N.told net.old) (N.told net.new) self.old self.new }
    {
        if self.failed {
            return Arrival::Failed;
        }
        if self.wanted {
            return Arrival::OutOfMemory;
        }
        a_daemon_goes_on::<L>();
        let came = accept_one(
            &mut self.core,
            &mut self.journal,
            net,
            &mut self.links,
            &mut self.dropped,
        );
        self.failed = is_failure(came);
        self.wanted = is_want(came);
        came
    }

    // Each open client is listened to. Answers whether anything moved.
    fn listen<R: Wait, F: Folder>(&mut self, rt: &R, folder: &mut F) -> bool
        ensures { Hears L.told result (F.told folder.old) (F.told folder.new) self.old self.new }
    {
        a_daemon_goes_on::<L>();
        listen_all(
            rt,
            self.alloc,
            &mut self.core,
            &mut self.desk,
            &mut self.journal,
            &mut self.links,
            &mut self.seats,
            folder,
        )
    }

    // Each open client is sent what waits for it. Answers whether anything moved.
    fn pump(&mut self) -> bool
        ensures { Pumps L.told result self.old self.new }
    {
        a_daemon_goes_on::<L>();
        pump_all(&mut self.core, &mut self.journal, &mut self.links)
    }
}
