//! The pass with which the daemon takes.

ghost use Rattle.std.specs.Prelude.{◌≡◌, ◌+◌, false, List, ◌∷◌, [], ◌++◌, IfSome, OnSome, IfNone};
ghost use Rattle.dl_ring.specs.declared.item.RingItem.{RingItem as ring_item};
ghost use Rattle.dl_ring.specs.Items.{took, is_call};
ghost use Rattle.dl_ring.specs.Order.{Holds};
ghost use Rattle.dl_ring.specs.State.{with_pass};

use crate::item::{RingItem, Taken};
use crate::push::RingPush;
use crate::ring::{Gather, Ring, RingPass, Take};
use dl_bytes::Item;
use dl_cells::one_more;
use std::marker::Model;
use std::sync::{Arc, Wait};

/// The one pass of a ring that takes.
#[derive(Drop)]
pub struct RingTake {
    pub(crate) ring: Arc<Ring>,
    pub(crate) pass: RingPass,
    /// How many takes found nothing.
    pub(crate) empties: u64,
}

impl Model for RingTake {
    ghost use Rattle.std.specs.Arc.{arc_value};
    ghost use Rattle.crossbeam_queue.specs.Passes.{view as knows, IsPassOf, ruled_capacity};
    ghost use Rattle.dl_ring.specs.State.{TakeState};
    ghost use Rattle.dl_ring.specs.Passes.{IsTaker};

    ghost Value = { TakeState };

    ghost view = { λ p. record {
      ring = p.pass.table_id;
      capacity = ruled_capacity (arc_value p.ring).queue;
      taken = (knows p.pass).taken;
      empties = p.empties;
      joined = (knows p.pass).joined;
      first = (knows p.pass).gives;
      given = (knows p.pass).given;
    } };

    ghost invariant = { λ p. IsPassOf (arc_value p.ring).queue p.pass × IsTaker (knows p.pass) };
}

impl RingTake {
    /// The oldest item, taken from the ring at one step. None comes only where the ring was empty at that step.
    pub fn take<R: Wait>(&mut self, rt: &R) -> Option<RingItem>
        ensures taken { IfSome result (λ item. self.new ≡ record self.old { taken = self.old.taken ++ item ∷ [] }) }
        ensures rest { OnSome result ((contents : List ring_item) × Holds self.new contents) }
        ensures none { IfNone result (self.new ≡ record self.old { empties = self.old.empties + 1 }) }
        ensures empty { IfNone result (Holds self.new []) }
    {
        let full = self.take_box(rt)?;
        let item = full.copy();
        self.ring.give_back(rt, full);
        Some(item)
    }

    /// Takes the oldest item: what `take` does, but a call is copied into an item that the caller keeps, and its bytes are
    /// copied once. A claim comes in the answer. Where no call came, the caller's item stays.
    pub fn take_into<R: Wait>(&mut self, rt: &R, item: &mut Item) -> Taken
        ensures taken { IfSome (took result item.new) (λ x. self.new ≡ record self.old { taken = self.old.taken ++ x ∷ [] }) }
        ensures rest { OnSome (took result item.new) ((contents : List ring_item) × Holds self.new contents) }
        ensures none { IfNone (took result item.new) (self.new ≡ record self.old { empties = self.old.empties + 1 }) }
        ensures empty { IfNone (took result item.new) (Holds self.new []) }
        ensures kept { is_call result ≡ false → item.new ≡ item.old }
    {
        match self.take_box(rt) {
            Some(full) => {
                let taken = full.copy_into(item);
                self.ring.give_back(rt, full);
                taken
            }
            None => Taken::Nothing,
        }
    }

    /// Takes in a pass that pushes no more, and answers how many of its pushes were refused.
    pub fn join(&mut self, push: RingPush) -> u64
        requires { push.ring ≡ self.old.ring }
        ensures joined { self.new ≡ with_pass self.old push }
        ensures refusals { result ≡ push.refusals }
    {
        let RingPush {
            ring: _,
            pass,
            refusals,
            spare: _,
        } = push;
        self.ring.queue.absorb::<Gather>(&mut self.pass, pass);
        refusals
    }

    /// Looks at the ring and changes nothing: what it holds at that moment, with what was taken, is what the joined
    /// passes pushed. After the last join this is all that was ever pushed.
    pub fn look(&mut self)
        ensures same { self.new ≡ self.old }
        ensures rest { (contents : List ring_item) × Holds self.new contents }
    {
        self.ring.queue.learn_as::<Take>(&mut self.pass);
    }
}

impl RingTake {
    // The oldest box of the ring.
    fn take_box<R: Wait>(&mut self, rt: &R) -> Option<Box<RingItem>>
        ensures taken { IfSome result (λ full. self.new ≡ record self.old { taken = self.old.taken ++ full.value ∷ [] }) }
        ensures rest { OnSome result ((contents : List ring_item) × Holds self.new contents) }
        ensures none { IfNone result (self.new ≡ record self.old { empties = self.old.empties + 1 }) }
        ensures empty { IfNone result (Holds self.new []) }
    {
        match self.ring.queue.pop_as::<Take, R>(rt, &mut self.pass) {
            Some(full) => Some(full),
            None => {
                self.empties = one_more(rt, self.empties);
                None
            }
        }
    }
}
