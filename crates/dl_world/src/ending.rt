//! The end of a run: all is drained, the clients are closed, and what is left is handed out.

ghost use Rattle.std.specs.Prelude.{◌≡◌, ◌≤◌, List, IfOk, OnOk, count_by, length, map};
ghost use Rattle.std.specs.List.{range_with_len};
ghost use Rattle.dl_events.specs.declared.event.Why.TheVariants as why;
ghost use Rattle.dl_model.specs.Journal.{is_connect};
ghost use Rattle.dl_script_model.specs.Marks.{Mark, apps, journal, writer_numbers};
ghost use Rattle.dl_script_model.specs.Steps.{close, drain, end_of, finish, in_sequence};
ghost use Rattle.dl_core.specs.Follows.{Run};
ghost use Rattle.dl_core.specs.Files.{Leaves};
ghost use Rattle.dl_world.specs.Follows.{Does, Doing, IsAfter};
ghost use Rattle.dl_world.specs.Left.{IsLeft, links_in, told_of};

use crate::Clients;
use crate::played::Played;
use crate::world::World;
use dl_bytes::{Ends, FrameList, LinkEnd, OutOfMemory, Sequence, TraceState};
use dl_core::Core;
use dl_events::Why;
use dl_hub::Hub;
use dl_outside::Folder;
use std::alloc::Global;

impl World {
    /// Open calls are finished, rings and losses are emptied, Level events no longer wait, and the clients are closed. Claims that wait stay
    /// unannounced.
    pub fn end<F: Folder>(&mut self, folder: &mut F) -> Result<(), OutOfMemory>
        ensures does { OnOk result (Does (λ setting answers. end_of setting) self.old self.new (F.told folder.old) (F.told folder.new)) }
        ensures leaves { Leaves self.old.core self.new.core (F.told folder.old) (F.told folder.new) }
    {
        self.finish_all()?;
        self.drain_all(folder)?;
        self.note_levels()?;
        self.close_all()
    }

    /// What the open call of each writer still needs.
    fn finish_all(&mut self) -> Result<(), OutOfMemory>
        ensures does { OnOk result (Doing (λ setting done. in_sequence (map finish (writer_numbers done)) done) self.old self.new) }
        ensures core { self.new.core ≡ self.old.core }
    {
        for writer in 1..self.calls.writers() + 1 {
            self.finish(writer)?;
        }
        Ok(())
    }

    /// Application by application, what is still in the ring is taken, and then the losses.
    fn drain_all<F: Folder>(&mut self, folder: &mut F) -> Result<(), OutOfMemory>
        ensures does { OnOk result (Does (λ setting answers done. in_sequence (map (drain setting) (range_with_len 0 (length (apps done)))) done) self.old self.new (F.told folder.old) (F.told folder.new)) }
        ensures leaves { Leaves self.old.core self.new.core (F.told folder.old) (F.told folder.new) }
    {
        for app in 0..self.calls.apps() {
            self.drain(app, folder)?;
        }
        Ok(())
    }

    /// The clients that are open are closed, in the order of their numbers.
    fn close_all(&mut self) -> Result<(), OutOfMemory>
        ensures does { OnOk result (Doing (λ setting done. in_sequence (map (λ client. close setting client why.Stopped) (range_with_len 1 (count_by is_connect (journal done)))) done) self.old self.new) }
        ensures trace { self.new.core.trace ≡ self.old.core.trace }
    {
        for client in 1..self.clients.len() + 1 {
            self.close(client, Why::Stopped)?;
        }
        Ok(())
    }

    /// What the run leaves.
    pub fn into_played(self) -> Result<Played, OutOfMemory>
        requires came { length self.clients ≤ length self.core.hub.clients }
        ensures leaves { IfOk result (λ played. (run : Run) (done : List Mark) → IsAfter run done self → IsLeft run done self.core played) }
    {
        let World {
            alloc,
            core,
            calls,
            journal,
            clients,
            ..
        } = self;
        let links = links_of(alloc, core.hub(), &clients)?;
        let backlog = core.hub().backlog();
        let trace = trace_of(alloc, core);
        let streams = FrameList::over(clients.into_streams(alloc)?);
        let (records, claims, specs) = calls.into_parts()?;
        Ok(Played {
            records,
            claims,
            events: journal,
            streams,
            specs,
            ends: Ends {
                links,
                dropped: 0,
                trace,
            },
            backlog,
        })
    }
}

/// What the link of each client took: all of its stream.
fn links_of(alloc: Global, hub: &Hub, clients: &Clients) -> Result<Sequence<LinkEnd>, OutOfMemory>
    requires came { length clients.now ≤ length hub.now.clients }
    ensures { IfOk result (λ links. links ≡ links_in hub.now (range_with_len 1 (length clients.now))) }
{
    let mut links = Vec::new(alloc);
    for client in 1..clients.len() + 1 {
        let (frames, bytes) = hub.sent(client);
        links.push(LinkEnd {
            client,
            frames,
            bytes,
            complete: true,
        })?;
    }
    Ok(Sequence::over(links))
}

/// What became of the trace; where none was handed in, no file is told of.
fn trace_of(alloc: Global, core: Core) -> TraceState
    ensures { result ≡ told_of core.trace }
{
    match core.into_trace_state() {
        Some(state) => state,
        None => TraceState {
            files: Sequence::over(Vec::new(alloc)),
            end: None,
        },
    }
}
