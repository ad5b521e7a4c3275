//! Clients that come and go.

ghost use Rattle.std.specs.Prelude.{◌≡◌, ◌≤◌, ◌<◌, ◌+◌, None, OnOk, IsSome, count_by, length};
ghost use Rattle.dl_events.specs.declared.event.Event.TheVariants as event;
ghost use Rattle.dl_model.specs.Journal.{is_connect};
ghost use Rattle.dl_script_model.specs.Marks.{journal};
ghost use Rattle.dl_script_model.specs.Steps.{close, connect};
ghost use Rattle.dl_registry.specs.Kept.{owed_change};
ghost use Rattle.dl_hub.specs.State.{outbox_of};
ghost use Rattle.dl_world.specs.Follows.{Doing, IsPlain, MayConnect, noting, open_among};

use crate::Client;
use crate::world::World;
use dl_bytes::{CLIENT_LIMIT, OPEN_CLIENT_LIMIT, OutOfMemory};
use dl_events::{Journal, Why};

impl World {
    /// How many clients are open.
    fn open_clients(&self) -> u32
        ensures { result ≡ open_among self.now }
    {
        let mut open = 0;
        for client in 1..self.clients.len() + 1 {
            if self.is_open(client) {
                open += 1;
            }
        }
        open
    }

    /// A client comes, where fewer than 32 came and fewer than 8 are open.
    pub fn connect(&mut self) -> Result<(), OutOfMemory>
        ensures does { OnOk result (Doing connect self.old self.new) }
        ensures trace { self.new.core.trace ≡ self.old.core.trace }
    {
        if self.clients.len() == CLIENT_LIMIT || self.open_clients() as usize >= OPEN_CLIENT_LIMIT {
            return Ok(());
        }
        self.note_levels()?;
        self.note_connect()?;
        self.note_levels_now()
    }

    /// Notes that a client comes.
    fn note_connect(&mut self) -> Result<(), OutOfMemory>
        requires settled { owed_change self.old.core.registry ≡ None }
        requires few { length self.old.clients < 32 }
        ensures does { OnOk result (MayConnect self.old → Doing (noting (λ now. event.Connect (1 + count_by is_connect (journal now)))) self.old self.new) }
        ensures trace { self.new.core.trace ≡ self.old.core.trace }
    {
        let client = Client::make(self.alloc)?;
        self.journal.reserve(1)?;
        match self.core.connect(&mut self.journal) {
            Ok(_number) => self.clients.add(client)?,
            Err(_) => return Ok(()),
        }
        self.deliver()
    }

    /// A client that is open goes, for this cause.
    pub fn close(&mut self, client: u32, why: Why) -> Result<(), OutOfMemory>
        requires cause { IsPlain why }
        ensures does { OnOk result (Doing (λ setting. close setting client why) self.old self.new) }
        ensures trace { self.new.core.trace ≡ self.old.core.trace }
    {
        if !self.is_open(client) {
            return Ok(());
        }
        self.note_levels()?;
        self.note_close(client, why)?;
        self.note_levels_now()
    }

    /// Notes that a client goes, once its link took all that was in its outbox.
    fn note_close(&mut self, client: u32, why: Why) -> Result<(), OutOfMemory>
        requires settled { owed_change self.old.core.registry ≡ None }
        requires open { (1 ≤ client) × (client ≤ length self.old.clients) × IsSome (outbox_of self.old.core.hub client) }
        requires cause { IsPlain why }
        ensures does { OnOk result (Doing (noting (λ now. event.Close client why)) self.old self.new) }
        ensures trace { self.new.core.trace ≡ self.old.core.trace }
    {
        self.deliver_to(client)?;
        self.journal.reserve(1)?;
        self.core.close(client, why, &mut self.journal);
        Ok(())
    }
}
