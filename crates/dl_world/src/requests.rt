//! Requests of clients.

ghost use Rattle.std.specs.Prelude.{◌≡◌, ◌≤◌, ◌<◌, None, Some, OnOk, IsSome, IsSomeAnd, length, map, option_map};
ghost use Rattle.std.specs.List.{All};
ghost use Rattle.dl_script_model.specs.Steps.{ask, in_sequence, receive, request_now};
ghost use Rattle.dl_registry.specs.Kept.{owed_change};
ghost use Rattle.dl_hub.specs.State.{client_of, outbox_of};
ghost use Rattle.dl_core.specs.Serving.{IsRequest, injection_in};
ghost use Rattle.dl_core.specs.Files.{Leaves};
ghost use Rattle.dl_world.specs.Follows.{Does, Queues};

use crate::world::World;
use dl_bytes::{APP_LIMIT, Bytes, INJECTION_LIMIT, OutOfMemory, REQUEST_LIMIT};
use dl_core::Ready;
use dl_events::Why;
use dl_outside::Folder;
use dl_world_calls::Injections;

/// Puts the injection that a request wants into its application's queue. Answers whether the queue took one.
fn push_injection(injections: &mut Injections, ready: &Ready) -> bool
    ensures { Queues (option_map (λ i. i.0) (injection_in ready.now.want)) result injections.old injections.new }
{
    match ready.injection() {
        Some((app, _injection)) => push(injections, app),
        None => false,
    }
}

/// Puts an injection into an application's queue, unless that is full.
fn push(injections: &mut Injections, app: u8) -> bool
    ensures { Queues (Some app) result injections.old injections.new }
{
    if app as usize >= APP_LIMIT || injections.waiting(app) as usize >= INJECTION_LIMIT {
        return false;
    }
    injections.come(app);
    true
}

impl World {
    /// Bytes come from a client that is open: each request that they make whole is served in turn. Where they show a bad header the
    /// client is closed.
    pub fn receive<F: Folder>(
        &mut self,
        client: u32,
        bytes: &[u8],
        folder: &mut F,
    ) -> Result<(), OutOfMemory>
        ensures does { OnOk result (Does (λ setting answers. receive setting answers client bytes.now) self.old self.new (F.told folder.old) (F.told folder.new)) }
        ensures leaves { Leaves self.old.core self.new.core (F.told folder.old) (F.told folder.new) }
    {
        if !self.is_open(client) {
            return Ok(());
        }
        let mut requests = Vec::new(self.alloc);
        let is_bad = self.clients.cut(self.alloc, client, bytes, &mut requests)?;
        self.ask_each(client, requests, folder)?;
        if is_bad {
            return self.close(client, Why::Malformed);
        }
        Ok(())
    }

    /// Whole requests of a client, one after the other.
    fn ask_each<F: Folder>(
        &mut self,
        client: u32,
        requests: Vec<Bytes>,
        folder: &mut F,
    ) -> Result<(), OutOfMemory>
        requires requests { All IsRequest requests.items }
        ensures does { OnOk result (Does (λ setting answers. in_sequence (map (ask setting answers client) requests.items)) self.old self.new (F.told folder.old) (F.told folder.new)) }
        ensures leaves { Leaves self.old.core self.new.core (F.told folder.old) (F.told folder.new) }
    {
        for frame in requests {
            self.ask(client, frame, folder)?;
        }
        Ok(())
    }

    /// A whole request of a client: the 1001st closes it. One of a client that was closed is nothing.
    fn ask<F: Folder>(
        &mut self,
        client: u32,
        frame: Bytes,
        folder: &mut F,
    ) -> Result<(), OutOfMemory>
        requires request { IsRequest frame }
        ensures does { OnOk result (Does (λ setting answers. ask setting answers client frame) self.old self.new (F.told folder.old) (F.told folder.new)) }
        ensures leaves { Leaves self.old.core self.new.core (F.told folder.old) (F.told folder.new) }
    {
        if !self.is_open(client) {
            return Ok(());
        }
        if self.core.hub().replies(client) >= REQUEST_LIMIT {
            return self.close(client, Why::TooMany);
        }
        self.note_levels()?;
        self.serve(client, frame, folder)?;
        self.note_levels_now()
    }

    /// Serves a request of an open client: the folder or an application's queue does what it wants, and the reply is put.
    fn serve<F: Folder>(
        &mut self,
        client: u32,
        frame: Bytes,
        folder: &mut F,
    ) -> Result<(), OutOfMemory>
        requires request { IsRequest frame }
        requires settled { owed_change self.old.core.registry ≡ None }
        requires open { (1 ≤ client) × (client ≤ length self.old.clients) × IsSome (outbox_of self.old.core.hub client) }
        requires few { IsSomeAnd (client_of self.old.core.hub client) (λ c. c.replies < 1000) }
        ensures does { OnOk result (Does (λ setting answers. request_now setting answers client frame) self.old self.new (F.told folder.old) (F.told folder.new)) }
        ensures leaves { Leaves self.old.core self.new.core (F.told folder.old) (F.told folder.new) }
    {
        let need = self.core.request_need(frame.all())?;
        if self.core.hub().room(client) < need {
            return Err(OutOfMemory);
        }
        let ready = self.core.prepare(client, frame, &mut self.journal)?;
        let pushed = push_injection(&mut self.injections, &ready);
        self.core.request(ready, pushed, folder, &mut self.journal);
        self.deliver()
    }
}
