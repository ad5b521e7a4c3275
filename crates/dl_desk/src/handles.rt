//! The daemon's handles of all that it shares with the writers.

ghost use Rattle.std.specs.Prelude.{◌≡◌, ◌+◌, ◌-◌, ◌*◌, ◌%◌, ◌^◌, ◌<◌, ◌≤◌, ◌↔◌, false, List, ℕ, [], ◌∷◌, ◌++◌, length, nat_lt, All, IfErr, IfSome, IfNone, IsErr, OnOk, OnErr, OnSome};
ghost use Rattle.dl_cells.specs.Views.{bit, times, all_shares};
ghost use Rattle.dl_cells.specs.Claims.{given_of, refused_of};
ghost use Rattle.dl_cells.specs.LevelHistory.{current_version, IsEntry};
ghost use Rattle.dl_cells.specs.declared.level_history.Read.{Read};
ghost use Rattle.dl_cells.specs.Losses.{counted_of, reported_of};
ghost use Rattle.dl_ring.specs.declared.item.RingItem.{RingItem as ring_item};
ghost use Rattle.dl_ring.specs.Items.{is_call, took};
ghost use Rattle.dl_desk.specs.Lists.{At};
ghost use Rattle.dl_desk.specs.Handles.{QueueHolds, RingHolds, with_empty_take, with_injected, with_item, with_level, with_passes, with_refusal, with_report, with_words};

use crate::app_handles::AppHandles;
use dl_bytes::{Injection, Item, Level};
use dl_cells::{LevelKeeper, LevelReader, LossKeeper, LossWriter, Worn};
use dl_ring::{InjectTake, RingItem, RingPush, Taken};
use std::marker::Model;
use std::sync::Wait;

/// The daemon's handles: those of each application, of the level words and of the loss words.
#[derive(Drop)]
pub struct DaemonHandles {
    pub(crate) apps: Vec<AppHandles>,
    pub(crate) levels: LevelKeeper,
    pub(crate) losses: LossKeeper,
}

impl Model for DaemonHandles {
    ghost use Rattle.dl_desk.specs.Handles.{HandlesState};
    ghost use Rattle.dl_desk.specs.HandlesInside.{handles_state, IsHandles};

    ghost Value = { HandlesState };

    ghost view = { handles_state };

    ghost invariant = { λ e. IsHandles (handles_state e) };
}

impl DaemonHandles {
    /// The oldest call or claim in the ring of an application. None comes only where the ring was empty at that step.
    pub fn take<R: Wait>(&mut self, rt: &R, app: u8) -> Option<RingItem>
        requires { app < length self.old.apps }
        ensures taken { IfSome result (λ item. self.new ≡ with_item self.old app item) }
        ensures rest { OnSome result ((contents : List ring_item) × RingHolds self.new app contents) }
        ensures none { IfNone result (self.new ≡ with_empty_take self.old app) }
        ensures empty { IfNone result (RingHolds self.new app []) }
    {
        self.apps[usize::from(app)].ring.take(rt)
    }

    /// What `take` does, with a call copied once, into the one that the caller keeps. A claim comes in the answer. Where there
    /// was no call, the caller's stays.
    pub fn take_into<R: Wait>(&mut self, rt: &R, app: u8, item: &mut Item) -> Taken
        requires { app < length self.old.apps }
        ensures taken { IfSome (took result item.new) (λ x. self.new ≡ with_item self.old app x) }
        ensures rest { OnSome (took result item.new) ((contents : List ring_item) × RingHolds self.new app contents) }
        ensures none { IfNone (took result item.new) (self.new ≡ with_empty_take self.old app) }
        ensures empty { IfNone (took result item.new) (RingHolds self.new app []) }
        ensures kept { is_call result ≡ false → item.new ≡ item.old }
    {
        self.apps[usize::from(app)].ring.take_into(rt, item)
    }

    /// How many calls of an application were lost since the last time, which are told to no one else.
    pub fn losses(&mut self, app: u8) -> u64
        requires { app < length self.old.apps }
        ensures reported { self.new ≡ with_report self.old app result }
        ensures all { self.old.losses.shares ≡ all_shares → reported_of app self.new.losses.reported ≡ counted_of app self.old.losses.counted }
        ensures small { reported_of app self.new.losses.reported < 2 ^ 47 }
    {
        self.losses.take(app)
    }

    /// Sets a slot to a level, at the slot's next version.
    pub fn set(&mut self, slot: u16, level: Level) -> Result<(), Worn>
        requires { slot < 64 * length self.old.apps }
        ensures worn { IsErr result ↔ (current_version self.old.levels.first slot self.old.levels.sets ≡ 2 ^ 56 - 1) }
        ensures set { OnOk result (self.new ≡ with_level self.old slot level) }
        ensures kept { OnErr result (self.new ≡ self.old) }
    {
        self.levels.set(slot, level)
    }

    /// Puts an injection into the queue of an application, or gives it back. It comes back only where at least 16 were
    /// pushed before.
    pub fn inject<R: Wait>(&mut self, rt: &R, app: u8, item: Injection) -> Result<(), Injection>
        requires { app < length self.old.apps }
        ensures pushed { OnOk result (self.new ≡ with_injected self.old app item) }
        ensures refused { OnErr result (self.new ≡ with_refusal self.old app) }
        ensures back { IfErr result (λ back. back ≡ item) }
        ensures full { OnErr result (At self.old.apps app (λ e. 16 ≤ length e.queue.pushed)) }
    {
        self.apps[usize::from(app)].queue.push(rt, item)
    }

    /// Takes back a pass of an application's ring and one of its queue, and answers how many pushes of the first were refused.
    pub fn join_passes(&mut self, app: u8, push: RingPush, injections: InjectTake) -> u64
        requires within { app < length self.old.apps }
        requires ring { At self.old.apps app (λ e. push.ring ≡ e.ring.ring) }
        requires queue { At self.old.apps app (λ e. injections.queue ≡ e.queue.queue) }
        ensures joined { self.new ≡ with_passes self.old app push injections }
        ensures refusals { result ≡ push.refusals }
    {
        let handles = &mut self.apps[usize::from(app)];
        let refusals = handles.ring.join(push);
        handles.queue.join(injections);
        refusals
    }

    /// Takes back a reader of the levels and a counter of the losses.
    pub fn join_words(&mut self, reader: LevelReader, counter: LossWriter)
        requires levels { reader.table ≡ self.old.levels.table }
        requires claims { reader.claims ≡ self.old.levels.claims }
        requires losses { counter.table ≡ self.old.losses.table }
        ensures { self.new ≡ with_words self.old reader counter }
    {
        self.levels.join(reader);
        self.losses.join(counter);
    }

    /// Looks at the ring and the queue of an application, and changes nothing.
    pub fn look(&mut self, app: u8)
        requires { app < length self.old.apps }
        ensures same { self.new ≡ self.old }
        ensures ring { (contents : List ring_item) × RingHolds self.new app contents }
        ensures queue { (left : ℕ) × QueueHolds self.new app left }
        ensures range { At self.new.apps app (λ e. length e.queue.pushed < 2 ^ 64) }
    {
        let handles = &mut self.apps[usize::from(app)];
        handles.ring.look();
        handles.queue.look();
    }

    /// How many calls and claims were taken from the ring of an application, modulo 2^64.
    pub fn taken(&self, app: u8) -> u64
        requires { app < length self.now.apps }
        ensures { At self.now.apps app (λ e. result ≡ length e.ring.taken % 2 ^ 64) }
    {
        self.apps[usize::from(app)].ring.taken()
    }

    /// How many losses of an application wait to be taken: a look at its word.
    pub fn pending(&mut self, app: u8) -> u64
        requires { app < length self.old.apps }
        ensures same { self.new ≡ self.old }
        ensures all { self.old.losses.shares ≡ all_shares → reported_of app self.old.losses.reported + result ≡ counted_of app self.old.losses.counted }
    {
        self.losses.pending(app)
    }

    /// How many numbers were given to the claims of an application: a look at its claim word.
    pub fn given(&mut self, app: u8) -> u8
        requires { app < length self.old.apps }
        ensures same { self.new ≡ self.old }
        ensures range { result ≤ 64 }
        ensures apart { (n : ℕ) → times n (given_of app self.old.levels.given) ≤ bit (nat_lt n result) }
        ensures few { length (given_of app self.old.levels.given) ≤ result }
        ensures all { self.old.levels.shares ≡ all_shares → (n : ℕ) → times n (given_of app self.old.levels.given) ≡ bit (nat_lt n result) }
        ensures count { self.old.levels.shares ≡ all_shares → length (given_of app self.old.levels.given) ≡ result }
        ensures full { 0 < refused_of app self.old.levels.refused → result ≡ 64 }
    {
        self.levels.given(app)
    }

    /// Looks at one level, after which each read that was taken back is known to be one that was set.
    pub fn settle(&mut self)
        ensures entries { All (IsEntry self.old.levels.first self.old.levels.sets) self.new.levels.reads }
        ensures reads { (r : Read) × (self.new ≡ record self.old { levels = record self.old.levels { reads = self.old.levels.reads ++ r ∷ [] } }) }
    {
        self.levels.settle();
    }

    /// No losses of an application that isn't there were reported, and of none as many as 2^47.
    pub fn reports(&self)
        ensures none { (app : ℕ) → length self.now.apps ≤ app → reported_of app self.now.losses.reported ≡ 0 }
        ensures small { (app : ℕ) → reported_of app self.now.losses.reported < 2 ^ 47 }
    {
        let _ = &self.apps;
    }
}
