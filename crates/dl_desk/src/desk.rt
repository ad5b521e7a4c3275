//! The daemon's side while the writers log.

ghost use Rattle.std.specs.Prelude.{◌≡◌, ◌+◌, ◌-◌, ◌*◌, ◌^◌, ◌<◌, ◌≤◌, ◌↔◌, false, List, [], length, map, slice_get, Some, Err, IfOk, IfErr, IfSome, IfNone, IsErr, MatchResult, OnOk, OnErr, OnSome};
ghost use Rattle.dl_cells.specs.LevelHistory.{current_version};
ghost use Rattle.dl_cells.specs.Losses.{reported_of};
ghost use Rattle.dl_ring.specs.declared.item.RingItem.{RingItem as ring_item};
ghost use Rattle.dl_ring.specs.Items.{is_call, took};
ghost use Rattle.dl_desk.specs.Lists.{At};
ghost use Rattle.dl_desk.specs.Apps.{declared_apps};
ghost use Rattle.dl_desk.specs.DeskInside.{IsDesk};
ghost use Rattle.dl_desk.specs.Handles.{RingHolds, with_empty_take, with_injected, with_item, with_level, with_refusal, with_report};
ghost use Rattle.dl_desk.specs.Made.{AreFit, IsLater, IsMadeWith, IsNew, IsUnused, MakesWriter, writer_fault};
ghost use Rattle.dl_desk.specs.declared.fault.WriterFault.{WriterFault};

use crate::app::AppList;
use crate::app_handles::FirstHandles;
use crate::fault::WriterFault;
use crate::handles::DaemonHandles;
use crate::parts::Parts;
use arrayvec::ArrayVec;
use dl_bytes::{AppSpec, Injection, Item, Level, OutOfMemory, Sequence, WRITER_LIMIT};
use dl_cells::{LevelReader, LossWriter, Worn};
use dl_ring::{RingItem, Taken};
use dl_writer::{ClaimRoom, Owner, Writer, WriterHandles};
use std::alloc::Global;
use std::marker::Model;
use std::sync::Wait;

/// A desk taken apart, for whoever gathers the writers.
#[derive(Drop)]
pub struct DeskParts {
    /// The applications that the desk was made of.
    pub apps: Sequence<AppSpec>,
    /// The daemon's handles of all that it shares with the writers.
    pub handles: DaemonHandles,
    /// The handles from which those of the writers were split.
    pub firsts: Vec<FirstHandles>,
    /// The reader of the levels from which those of the writers were split.
    pub readers: LevelReader,
    /// The counter of the losses from which those of the writers were split.
    pub counters: LossWriter,
    /// The application of each writer that was made, by the writers' numbers from 1.
    pub owners: ArrayVec<u8, 32>,
}

/// The daemon's side of the library: it takes the calls, the claims and the losses of each application, sets levels and
/// injects.
#[derive(Drop)]
pub struct Desk {
    pub(crate) apps: Sequence<AppSpec>,
    pub(crate) handles: DaemonHandles,
    pub(crate) firsts: Vec<FirstHandles>,
    pub(crate) readers: LevelReader,
    pub(crate) counters: LossWriter,
    // the application of each writer that was made
    pub(crate) owners: ArrayVec<u8, 32>,
}

impl Model for Desk {
    ghost use Rattle.dl_desk.specs.State.{DeskState};
    ghost use Rattle.dl_desk.specs.DeskInside.{desk_state, IsDesk};

    ghost Value = { DeskState };

    ghost view = { desk_state };

    ghost invariant = { λ d. IsDesk (desk_state d) };
}

impl Desk {
    /// A desk for these applications, at most 16, and the applications themselves. It takes the memory of all that they
    /// share with the daemon. Each slot begins at version 0 with level 0.
    pub fn make(alloc: Global, specs: &[AppSpec]) -> Result<(Desk, AppList), OutOfMemory>
        requires { AreFit specs.now }
        ensures desk { IfOk result (λ made. IsNew made.0 specs.now) }
        ensures apps { IfOk result (λ made. made.1 ≡ declared_apps 0 specs.now) }
    {
        let mut parts = Parts::none(alloc);
        for spec in specs {
            parts.add(alloc, spec)?;
        }
        parts.into_desk(alloc)
    }

    /// The oldest call or claim in the ring of an application. None comes only where the ring was empty at that step.
    pub fn take<R: Wait>(&mut self, rt: &R, app: u8) -> Option<RingItem>
        requires { app < length self.old.apps }
        ensures taken { IfSome result (λ item. self.new ≡ record self.old { handles = with_item self.old.handles app item }) }
        ensures rest { OnSome result ((contents : List ring_item) × RingHolds self.new.handles app contents) }
        ensures none { IfNone result (self.new ≡ record self.old { handles = with_empty_take self.old.handles app }) }
        ensures empty { IfNone result (RingHolds self.new.handles app []) }
        ensures later { IsLater self.old self.new }
    {
        self.handles.take(rt, app)
    }

    /// What `take` does, with a call copied once, into the one that the caller keeps. A claim comes in the answer. Where there
    /// was no call, the caller's stays.
    pub fn take_into<R: Wait>(&mut self, rt: &R, app: u8, item: &mut Item) -> Taken
        requires { app < length self.old.apps }
        ensures taken { IfSome (took result item.new) (λ x. self.new ≡ record self.old { handles = with_item self.old.handles app x }) }
        ensures rest { OnSome (took result item.new) ((contents : List ring_item) × RingHolds self.new.handles app contents) }
        ensures none { IfNone (took result item.new) (self.new ≡ record self.old { handles = with_empty_take self.old.handles app }) }
        ensures empty { IfNone (took result item.new) (RingHolds self.new.handles app []) }
        ensures kept { is_call result ≡ false → item.new ≡ item.old }
        ensures later { IsLater self.old self.new }
    {
        self.handles.take_into(rt, app, item)
    }

    /// How many calls of an application were lost since the last call of this kind: one swap of its loss word.
    pub fn losses(&mut self, app: u8) -> u64
        requires { app < length self.old.apps }
        ensures reported { self.new ≡ record self.old { handles = with_report self.old.handles app result } }
        ensures small { reported_of app self.new.handles.losses.reported < 2 ^ 47 }
        ensures later { IsLater self.old self.new }
    {
        self.handles.losses(app)
    }

    /// Sets the level of a slot, 64 times the application's number and the context's place, at the slot's next version.
    /// `Worn` at version 2^56 - 1.
    pub fn set(&mut self, slot: u16, level: Level) -> Result<(), Worn>
        requires { slot < 64 * length self.old.apps }
        ensures worn { IsErr result ↔ (current_version self.old.handles.levels.first slot self.old.handles.levels.sets ≡ 2 ^ 56 - 1) }
        ensures set { OnOk result (self.new ≡ record self.old { handles = with_level self.old.handles slot level }) }
        ensures kept { OnErr result (self.new ≡ self.old) }
        ensures later { IsLater self.old self.new }
    {
        self.handles.set(slot, level)
    }

    /// Puts an injection into the queue of an application, or gives it back. It comes back only where the queue held 16 at
    /// that step, so at least 16 were put before.
    pub fn inject<R: Wait>(&mut self, rt: &R, app: u8, item: Injection) -> Result<(), Injection>
        requires { app < length self.old.apps }
        ensures pushed { OnOk result (self.new ≡ record self.old { handles = with_injected self.old.handles app item }) }
        ensures refused { OnErr result (self.new ≡ record self.old { handles = with_refusal self.old.handles app }) }
        ensures back { IfErr result (λ back. back ≡ item) }
        ensures full { OnErr result (At self.old.handles.apps app (λ e. 16 ≤ length e.queue.pushed)) }
        ensures later { IsLater self.old self.new }
    {
        self.handles.inject(rt, app, item)
    }

    /// The applications that the desk was made of.
    pub fn apps(&self) -> &[AppSpec]
        ensures { result.now ≡ self.now.apps }
    {
        self.apps.all()
    }

    /// Each application has its handles. It does nothing: its clause is what callers of `take` and of others learn.
    pub fn have_handles(&self)
        ensures { length self.now.handles.apps ≡ length self.now.apps }
    {
        let _ = &self.apps;
    }

    /// How many writers were made.
    pub fn writers(&self) -> u8
        ensures value { result ≡ length self.now.owners }
        ensures range { result ≤ 32 }
    {
        self.owners.len() as u8
    }

    /// Its parts, with all that is true of them together.
    pub fn into_parts(self) -> DeskParts
        ensures kept { IsDesk self }
        ensures apps { result.apps ≡ self.apps }
        ensures handles { result.handles ≡ self.handles }
        ensures firsts { result.firsts.items ≡ self.firsts }
        ensures readers { result.readers ≡ self.readers }
        ensures counters { result.counters ≡ self.counters }
        ensures owners { result.owners.items ≡ self.owners }
    {
        let Desk {
            apps,
            handles,
            firsts,
            readers,
            counters,
            owners,
        } = self;
        DeskParts {
            apps,
            handles,
            firsts,
            readers,
            counters,
            owners,
        }
    }
}

impl Desk {
    // The next writer, of this application. The memory for its waiting claims comes first, since what is split off can't be
    // put back.
    pub(crate) fn make_writer(&mut self, owner: Owner) -> Result<Writer, WriterFault>
        requires apid { slice_get (map (λ s. s.apid) self.old.apps) owner.app ≡ Some owner.apid }
        requires base { owner.base ≤ 64 }
        ensures fault { IfSome (writer_fault self.old) (λ fault. result ≡ Err fault) }
        ensures memory { IfNone (writer_fault self.old) (MatchResult result (λ _. Unit {0}) (λ fault. fault ≡ WriterFault.OutOfMemory)) }
        ensures refused { OnErr result (self.new ≡ self.old) }
        ensures number { IfOk result (λ w. w.push.number ≡ length self.old.owners + 1) }
        ensures app { IfOk result (λ w. w.app ≡ owner.app) }
        ensures apid { IfOk result (λ w. w.apid ≡ owner.apid) }
        ensures base { IfOk result (λ w. w.base ≡ owner.base) }
        ensures unused { IfOk result IsUnused }
        ensures made { IfOk result (λ w. IsMadeWith self.new w) }
        ensures desk { IfOk result (λ _. MakesWriter owner.app self.old self.new) }
    {
        if self.owners.len() == WRITER_LIMIT {
            return Err(WriterFault::WritersFull);
        }
        let waiting = ClaimRoom::make(*self.firsts.allocator())?;
        let number = self.owners.len() as u8 + 1;
        let first = &mut self.firsts[usize::from(owner.app)];
        let handles = WriterHandles {
            push: first.push.split(number),
            reader: self.readers.split(),
            losses: self.counters.split(),
            injections: first.injections.split(),
        };
        self.owners.push(owner.app);
        Ok(Writer::of(owner, number, handles, waiting))
    }
}
