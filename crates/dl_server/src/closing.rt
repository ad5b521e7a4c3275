//! The closing.

ghost use Rattle.std.specs.Prelude.{◌≤◌, ◌+◌, OnErr, OnOk, length};
ghost use Rattle.dl_server.specs.Closing.{ClosesClients, ClosesPrograms, ClosesSomePrograms, IsClosed, IsHalfClosed};
ghost use Rattle.dl_server.specs.Server.{HaveLinks, IsServer, SameLimits};
ghost use Rattle.dl_server.specs.State.{seen};
ghost use Rattle.dl_turns.specs.Gone.{TellTheEnd};

use crate::server::Server;
use dl_bytes::{Moment, OutOfMemory};
use dl_channels::close_channels;
use dl_events::Journal;
use dl_outside::{Folder, Link};
use std::sync::Wait;

impl<J: Journal, L: Link> Server<J, L> {
    /// Ends each channel, as the daemon stops.
    fn close_programs<F: Folder>(
        &mut self,
        moment: Moment,
        folder: &mut F,
    ) -> Result<(), OutOfMemory>
        requires server { IsServer L.told self.old }
        ensures closed { OnOk result (let s = seen L.told J.events J.may_run_out in ClosesPrograms moment (s (F.told folder.old) self.old) (s (F.told folder.new) self.new)) }
        ensures some { OnErr result (let s = seen L.told J.events J.may_run_out in ClosesSomePrograms moment
            (s (F.told folder.old) self.old) (s (F.told folder.new) self.new)) }
        ensures server { IsServer L.told self.new }
        ensures limits { SameLimits self.old self.new }
    {
        // A client that is too slow for what their ends admit is closed.
        self.unshut = true;
        let registry = self.core.registry();
        registry.slots_are_apart();
        close_channels(
            &mut self.channels,
            &mut self.core,
            &mut self.journal,
            &mut self.programs,
            moment,
            folder,
        )
    }

    /// Closes each client, as the daemon stops: each has its closing turns before that.
    fn close_clients<R: Wait, F: Folder>(&mut self, rt: &R, folder: &mut F)
        requires server { IsServer L.told self.old }
        requires room { length self.old.clients.links + 2 ≤ J.spare self.old.journal }
        ensures closes { let s = seen L.told J.events J.may_run_out in ClosesClients (TellTheEnd L.told) (s (F.told folder.old) self.old) (s (F.told folder.new) self.new) }
        ensures linked { HaveLinks self.new.clients self.new.core }
        ensures limits { SameLimits self.old self.new }
    {
        self.channels.close_clients(
            rt,
            &mut self.core,
            &mut self.journal,
            &mut self.clients,
            &mut self.seats,
            folder,
        );
    }

    /// The closing: each channel ends, and then each client has its closing turns and its Close. All links are shut. Where memory runs out for a
    /// channel's end or for the Closes, the rest stays as it is.
    pub fn close<R: Wait, F: Folder>(
        &mut self,
        rt: &R,
        moment: Moment,
        folder: &mut F,
    ) -> Result<(), OutOfMemory>
        requires server { IsServer L.told self.old }
        ensures closed { OnOk result (let s = seen L.told J.events J.may_run_out in IsClosed (TellTheEnd L.told) moment
            (s (F.told folder.old) self.old) (s (F.told folder.new) self.new)) }
        ensures half { OnErr result (let s = seen L.told J.events J.may_run_out in IsHalfClosed moment (s (F.told folder.old) self.old) (s (F.told folder.new) self.new)) }
        ensures linked { HaveLinks self.new.clients self.new.core }
        ensures limits { SameLimits self.old self.new }
    {
        match self.close_programs(moment, folder) {
            Ok(()) => {}
            Err(_) => return Err(OutOfMemory),
        }
        if !self.make_room() {
            return Err(OutOfMemory);
        }
        self.close_clients(rt, folder);
        Ok(())
    }
}
