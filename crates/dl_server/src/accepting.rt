//! Clients and programs that come.

ghost use Rattle.std.specs.Prelude.{◌≡◌, ◌≤◌, ◌+◌, true, length};
ghost use Rattle.dl_outside.specs.Told.{FolderTold};
ghost use Rattle.dl_server.specs.Accepts.{AcceptsClientIfMay, AcceptsOne, AcceptsProgramIfMay, has_arrived, has_entered, has_failed, has_failed_to_enter, has_wanted, has_wanted_to_enter};
ghost use Rattle.dl_server.specs.Server.{IsServer, SameLimits};
ghost use Rattle.dl_server.specs.State.{seen};
ghost use Rattle.dl_server.specs.Steps.{MakesRoom};

use crate::server::Server;
use dl_channels::{Entry, accept_channel};
use dl_events::Journal;
use dl_outside::{Link, Net};
use dl_rounds::{Arrival, accept_one};

/// A Connect and its Close.
const MORE_EVENTS: u64 = 2;

/// Whether a client's link came.
fn has_arrived(came: Arrival) -> bool
    ensures { result ≡ has_arrived came }
{
    matches!(came, Arrival::Client(_) | Arrival::Dropped)
}

/// Whether the net of the clients failed.
fn has_failed(came: Arrival) -> bool
    ensures { result ≡ has_failed came }
{
    matches!(came, Arrival::Failed)
}

/// Whether memory ran out for a client's link.
fn has_wanted(came: Arrival) -> bool
    ensures { result ≡ has_wanted came }
{
    matches!(came, Arrival::OutOfMemory)
}

/// Whether a program's link came.
fn has_entered(came: Entry) -> bool
    ensures { result ≡ has_entered came }
{
    matches!(came, Entry::Channel(_) | Entry::Dropped | Entry::Unopened)
}

/// Whether the net of the programs failed.
fn has_failed_to_enter(came: Entry) -> bool
    ensures { result ≡ has_failed_to_enter came }
{
    matches!(came, Entry::Failed)
}

/// Whether memory ran out for a program's link or for its channel.
fn has_wanted_to_enter(came: Entry) -> bool
    ensures { result ≡ has_wanted_to_enter came }
{
    matches!(came, Entry::OutOfMemory | Entry::Unopened)
}

impl<J: Journal, L: Link> Server<J, L> {
    /// Makes room in the journal for a Close of each client that came, and of one more with its Connect. Answers whether it is there.
    pub(crate) fn make_room(&mut self) -> bool
        ensures makes { (folder : FolderTold) → MakesRoom result (seen L.told J.events J.may_run_out folder self.old) (seen L.told J.events J.may_run_out folder self.new) }
        ensures rest { self.new ≡ record self.old { journal = self.new.journal; wanted = self.new.wanted } }
        ensures room { result ≡ true → length self.new.clients.links + 2 ≤ J.spare self.new.journal }
    {
        let clients = u64::from(self.clients.len());
        match self.journal.reserve(clients + MORE_EVENTS) {
            Ok(()) => true,
            Err(_) => {
                self.wanted = true;
                false
            }
        }
    }

    /// Accepts one client. Answers whether a link came.
    fn accept_connection<N: Net<L = L>>(&mut self, net: &mut N) -> bool
    where
        L: Drop,
        requires server { IsServer L.told self.old }
        requires room { length self.old.clients.links + 2 ≤ J.spare self.old.journal }
        ensures accepts { (folder : FolderTold) → AcceptsOne L.told result (N.told net.old) (N.told net.new)
            (seen L.told J.events J.may_run_out folder self.old) (seen L.told J.events J.may_run_out folder self.new) }
        ensures server { IsServer L.told self.new }
        ensures limits { SameLimits self.old self.new }
    {
        let came = accept_one(
            &mut self.core,
            &mut self.journal,
            net,
            &mut self.clients,
            &mut self.dropped,
        );
        self.no_clients = has_failed(came);
        self.wanted |= has_wanted(came);
        has_arrived(came)
    }

    /// Accepts one client, unless an accept of one has failed before, or there is no room in the journal. Answers whether a link came.
    pub(crate) fn accept_client<N: Net<L = L>>(&mut self, net: &mut N) -> bool
    where
        L: Drop,
        requires server { IsServer L.told self.old }
        ensures accepts { (folder : FolderTold) → AcceptsClientIfMay L.told result (N.told net.old) (N.told net.new)
            (seen L.told J.events J.may_run_out folder self.old) (seen L.told J.events J.may_run_out folder self.new) }
        ensures server { IsServer L.told self.new }
        ensures limits { SameLimits self.old self.new }
    {
        if self.no_clients {
            return false;
        }
        if !self.make_room() {
            return false;
        }
        self.accept_connection(net)
    }

    /// Accepts one program, unless an accept of one has failed before. Answers whether a link came.
    pub(crate) fn accept_program<N: Net<L = L>>(&mut self, net: &mut N) -> bool
    where
        L: Drop,
        requires server { IsServer L.told self.old }
        ensures accepts { (folder : FolderTold) → AcceptsProgramIfMay L.told result (N.told net.old) (N.told net.new)
            (seen L.told J.events J.may_run_out folder self.old) (seen L.told J.events J.may_run_out folder self.new) }
        ensures server { IsServer L.told self.new }
        ensures limits { SameLimits self.old self.new }
    {
        if self.no_programs {
            return false;
        }
        let came = accept_channel(
            &mut self.channels,
            net,
            &mut self.programs,
            &mut self.dropped,
        );
        self.no_programs = has_failed_to_enter(came);
        self.wanted |= has_wanted_to_enter(came);
        has_entered(came)
    }
}
