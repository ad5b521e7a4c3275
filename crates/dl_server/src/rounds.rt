//! One round.

ghost use Rattle.std.specs.Prelude.{◌≡◌};
ghost use Rattle.dl_outside.specs.Told.{FolderTold};
ghost use Rattle.dl_server.specs.Round.{AcceptsAll, HasMadeRound, Hears, Pumps, has_come, has_heard};
ghost use Rattle.dl_server.specs.Server.{IsServer, SameLimits};
ghost use Rattle.dl_server.specs.State.{seen, shown};

use crate::server::Server;
use dl_events::Journal;
use dl_loop::rest_if_idle;
use dl_outside::{Clock, Folder, Link, Net};
use std::sync::Wait;

impl<J: Journal, L: Link> Server<J, L> {
    /// One accept on each net that has not failed. Answers whether a link came.
    fn accept_all<N: Net<L = L>>(&mut self, net: &mut N, users: &mut N) -> bool
    where
        L: Drop,
        requires server { IsServer L.told self.old }
        ensures accepts { (folder : FolderTold) → (accepts : AcceptsAll L.told (N.told net.old) (N.told net.new) (N.told users.old) (N.told users.new)
            (seen L.told J.events J.may_run_out folder self.old) (seen L.told J.events J.may_run_out folder self.new)) × (result ≡ has_come accepts) }
        ensures server { IsServer L.told self.new }
        ensures limits { SameLimits self.old self.new }
    {
        let client = self.accept_client(net);
        let program = self.accept_program(users);
        client || program
    }

    /// Each open client is listened to, and each channel. Answers whether anything moved.
    fn hear<R: Wait, C: Clock, F: Folder>(&mut self, rt: &R, clock: &C, folder: &mut F) -> bool
        requires server { IsServer L.told self.old }
        ensures hears { let s = seen L.told J.events J.may_run_out in
            (hears : Hears (s (F.told folder.old) self.old) (s (F.told folder.new) self.new)) × (result ≡ has_heard hears) }
        ensures server { IsServer L.told self.new }
        ensures limits { SameLimits self.old self.new }
    {
        let asked = self.hear_clients(rt, folder);
        let heard = self.hear_programs(clock.now(), folder);
        asked || heard
    }

    /// Each open client is sent what waits for it, and each channel; the links of clients that are gone are shut. Answers whether anything moved.
    fn pump<C: Clock, F: Folder>(&mut self, clock: &C, folder: &mut F) -> bool
        requires server { IsServer L.told self.old }
        ensures pumps { let s = seen L.told J.events J.may_run_out in
            (pumps : Pumps (s (F.told folder.old) self.old) (s (F.told folder.new) self.new)) × (result ≡ pumps.moved) }
        ensures server { IsServer L.told self.new }
        ensures limits { SameLimits self.old self.new }
    {
        let sent = self.pump_clients();
        self.pump_programs(clock.now(), folder);
        self.part_clients();
        sent
    }

    /// One round: one accept on each net that has not failed; each open client is listened to, and each channel; each open client is sent what waits
    /// for it, and each channel. Where memory runs out for the Closes of clients, these are left to the next round. The net of the clients rests
    /// where nothing moved. Answers whether anything did: a link came, a client or a program said something or was closed, or a client's link took
    /// a byte.
    pub fn round<R: Wait, N: Net<L = L>, C: Clock, F: Folder>(
        &mut self,
        rt: &R,
        net: &mut N,
        users: &mut N,
        clock: &C,
        folder: &mut F,
    ) -> bool
    where
        L: Drop,
        requires server { IsServer L.told self.old }
        ensures round { let s = shown L.told J.events J.may_run_out F.told in HasMadeRound L.told result
            (N.told net.old) (N.told net.new) (N.told users.old) (N.told users.new) (s folder.old self.old) (s folder.new self.new) }
        ensures server { IsServer L.told self.new }
        ensures limits { SameLimits self.old self.new }
    {
        let came = self.accept_all(net, users);
        let heard = self.hear(rt, clock, folder);
        let sent = self.pump(clock, folder);
        rest_if_idle(net, came | heard | sent)
    }
}
