//! What a round does with those who are there.

ghost use Rattle.std.specs.Prelude.{◌≡◌, ◌≤◌, ◌+◌, length, true, false, None};
ghost use Rattle.dl_hub.specs.State.{IsNextOpen};
ghost use Rattle.dl_outside.specs.Told.{FolderTold};
ghost use Rattle.dl_server.specs.Server.{IsServer, SameLimits};
ghost use Rattle.dl_server.specs.State.{seen};
ghost use Rattle.dl_server.specs.Steps.{HearsClients, HearsClientsIfMay, HearsPrograms, PartsClients, PumpsClients, PumpsClientsIfMay, PumpsPrograms};

use crate::server::Server;
use dl_bytes::Moment;
use dl_channel_turns::open_clients;
use dl_channels::{hear_all, pump_channels};
use dl_core::Core;
use dl_events::Journal;
use dl_outside::{Folder, Link};
use dl_rounds::laws::links_of_gone_clients_are_shut;
use dl_rounds::{pump_all, shut_gone};
use std::sync::Wait;

/// Whether no client is open.
fn is_nobody_open(core: &Core) -> bool
    ensures none { result ≡ true → IsNextOpen core.now.hub 0 None }
    ensures some { result ≡ false → IsNextOpen core.now.hub 0 None → ⊥ }
{
    core.hub().next_open(0).is_none()
}

impl<J: Journal, L: Link> Server<J, L> {
    /// Listens to each open client. Answers whether anything moved.
    fn serve_clients<R: Wait, F: Folder>(&mut self, rt: &R, folder: &mut F) -> bool
        requires server { IsServer L.told self.old }
        requires room { length self.old.clients.links + 2 ≤ J.spare self.old.journal }
        ensures hears { let s = seen L.told J.events J.may_run_out in HearsClients result (s (F.told folder.old) self.old) (s (F.told folder.new) self.new) }
        ensures server { IsServer L.told self.new }
        ensures limits { SameLimits self.old self.new }
    {
        links_of_gone_clients_are_shut::<L>();
        self.channels.listen_all(
            rt,
            &mut self.core,
            &mut self.journal,
            &mut self.clients,
            &mut self.seats,
            folder,
        )
    }

    /// Listens to each open client, where there is one, and room in the journal. Answers whether anything moved. Without a client nothing is asked.
    pub(crate) fn hear_clients<R: Wait, F: Folder>(&mut self, rt: &R, folder: &mut F) -> bool
        requires server { IsServer L.told self.old }
        ensures hears { let s = seen L.told J.events J.may_run_out in HearsClientsIfMay result (s (F.told folder.old) self.old) (s (F.told folder.new) self.new) }
        ensures server { IsServer L.told self.new }
        ensures limits { SameLimits self.old self.new }
    {
        if is_nobody_open(&self.core) {
            return false;
        }
        if !self.make_room() {
            return false;
        }
        self.serve_clients(rt, folder)
    }

    /// Listens to each channel, and ends those for which there is a cause. Answers whether anything moved.
    pub(crate) fn hear_programs<F: Folder>(&mut self, moment: Moment, folder: &mut F) -> bool
        requires server { IsServer L.told self.old }
        ensures hears { let s = seen L.told J.events J.may_run_out in HearsPrograms moment result (s (F.told folder.old) self.old) (s (F.told folder.new) self.new) }
        ensures server { IsServer L.told self.new }
        ensures limits { SameLimits self.old self.new }
    {
        let registry = self.core.registry();
        registry.slots_are_apart();
        let open = open_clients(self.core.hub());
        let moved = hear_all(
            &mut self.channels,
            &mut self.core,
            &mut self.journal,
            &mut self.programs,
            &mut self.ends,
            moment,
            folder,
        );
        self.unshut |= open_clients(self.core.hub()) < open;
        moved
    }

    /// Sends each open client what waits for it. Answers whether anything moved.
    fn send_clients(&mut self) -> bool
        requires server { IsServer L.told self.old }
        requires room { length self.old.clients.links + 2 ≤ J.spare self.old.journal }
        ensures pumps { (folder : FolderTold) → PumpsClients result (seen L.told J.events J.may_run_out folder self.old) (seen L.told J.events J.may_run_out folder self.new) }
        ensures server { IsServer L.told self.new }
        ensures limits { SameLimits self.old self.new }
    {
        links_of_gone_clients_are_shut::<L>();
        let registry = self.core.registry();
        registry.slots_are_apart();
        pump_all(&mut self.core, &mut self.journal, &mut self.clients)
    }

    /// Sends each open client what waits for it, where there is room in the journal. Answers whether anything moved.
    pub(crate) fn pump_clients(&mut self) -> bool
        requires server { IsServer L.told self.old }
        ensures pumps { (folder : FolderTold) → PumpsClientsIfMay result (seen L.told J.events J.may_run_out folder self.old) (seen L.told J.events J.may_run_out folder self.new) }
        ensures server { IsServer L.told self.new }
        ensures limits { SameLimits self.old self.new }
    {
        if !self.make_room() {
            return false;
        }
        self.send_clients()
    }

    /// Sends each channel what waits for it, and ends those for which there is a cause.
    pub(crate) fn pump_programs<F: Folder>(&mut self, moment: Moment, folder: &mut F)
        requires server { IsServer L.told self.old }
        ensures pumps { let s = seen L.told J.events J.may_run_out in PumpsPrograms moment (s (F.told folder.old) self.old) (s (F.told folder.new) self.new) }
        ensures server { IsServer L.told self.new }
        ensures limits { SameLimits self.old self.new }
    {
        let registry = self.core.registry();
        registry.slots_are_apart();
        let open = open_clients(self.core.hub());
        pump_channels(
            &mut self.channels,
            &mut self.core,
            &mut self.journal,
            &mut self.programs,
            &mut self.ends,
            moment,
            folder,
        );
        self.unshut |= open_clients(self.core.hub()) < open;
    }

    /// Shuts the links of clients that are gone. It goes through them only where one may not be shut yet: the others cost a round nothing.
    pub(crate) fn part_clients(&mut self)
        requires server { IsServer L.told self.old }
        ensures parts { (folder : FolderTold) → PartsClients (seen L.told J.events J.may_run_out folder self.old) (seen L.told J.events J.may_run_out folder self.new) }
        ensures none { self.new.unshut ≡ false }
        ensures server { IsServer L.told self.new }
        ensures limits { SameLimits self.old self.new }
    {
        links_of_gone_clients_are_shut::<L>();
        if self.unshut {
            shut_gone(self.core.hub(), &mut self.clients);
            self.unshut = false;
        }
    }
}
