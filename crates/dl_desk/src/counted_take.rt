//! The pass of a ring that takes, with a counter of what it took.

ghost use Rattle.std.specs.Prelude.{◌≡◌, ◌+◌, ◌%◌, ◌^◌, false, List, ◌∷◌, [], ◌++◌, length, IfSome, OnSome, IfNone};
ghost use Rattle.dl_ring.specs.declared.item.RingItem.{RingItem as ring_item};
ghost use Rattle.dl_ring.specs.Items.{is_call, took};
ghost use Rattle.dl_ring.specs.Order.{Holds};
ghost use Rattle.dl_ring.specs.State.{with_pass};

use dl_bytes::Item;
use dl_ring::{RingItem, RingPush, RingTake, Taken};
use std::marker::Model;
use std::sync::Wait;

/// A ring's pass that takes, and how many calls and claims it took.
#[derive(Drop)]
pub struct CountedTake {
    pass: RingTake,
    // modulo 2^64
    count: u64,
}

impl Model for CountedTake {
    ghost use Rattle.std.specs.Prelude.{◌≡◌, ◌%◌, ◌^◌, length};
    ghost use Rattle.dl_ring.specs.State.{TakeState};

    ghost Value = { TakeState };

    ghost view = { λ t. t.pass };

    ghost invariant = { λ t. t.count ≡ length t.pass.taken % 2 ^ 64 };
}

impl CountedTake {
    /// Over a pass that took nothing yet.
    pub(crate) fn over(pass: RingTake) -> CountedTake
        requires { pass.taken ≡ [] }
        ensures { result ≡ pass }
    {
        CountedTake { pass, count: 0 }
    }

    /// The oldest call or claim, taken from the ring at one step. None comes only where the ring was empty at that step.
    pub fn take<R: Wait>(&mut self, rt: &R) -> Option<RingItem>
        ensures taken { IfSome result (λ item. self.new ≡ record self.old { taken = self.old.taken ++ item ∷ [] }) }
        ensures rest { OnSome result ((contents : List ring_item) × Holds self.new contents) }
        ensures none { IfNone result (self.new ≡ record self.old { empties = self.old.empties + 1 }) }
        ensures empty { IfNone result (Holds self.new []) }
    {
        let item = self.pass.take(rt);
        if item.is_some() {
            self.count = self.count.wrapping_add(1);
        }
        item
    }

    /// What `take` does, with a call copied once, into the one that the caller keeps. A claim comes in the answer. Where there
    /// was no call, the caller's stays.
    pub fn take_into<R: Wait>(&mut self, rt: &R, item: &mut Item) -> Taken
        ensures taken { IfSome (took result item.new) (λ x. self.new ≡ record self.old { taken = self.old.taken ++ x ∷ [] }) }
        ensures rest { OnSome (took result item.new) ((contents : List ring_item) × Holds self.new contents) }
        ensures none { IfNone (took result item.new) (self.new ≡ record self.old { empties = self.old.empties + 1 }) }
        ensures empty { IfNone (took result item.new) (Holds self.new []) }
        ensures kept { is_call result ≡ false → item.new ≡ item.old }
    {
        let taken = self.pass.take_into(rt, item);
        match taken {
            Taken::Nothing => {}
            Taken::Call | Taken::Claim(_) => self.count = self.count.wrapping_add(1),
        }
        taken
    }

    /// Takes in a pass that pushes no more, and answers how many of its pushes were refused.
    pub fn join(&mut self, push: RingPush) -> u64
        requires { push.ring ≡ self.old.ring }
        ensures joined { self.new ≡ with_pass self.old push }
        ensures refusals { result ≡ push.refusals }
    {
        self.pass.join(push)
    }

    /// Looks at the ring and changes nothing, as the pass does.
    pub fn look(&mut self)
        ensures same { self.new ≡ self.old }
        ensures rest { (contents : List ring_item) × Holds self.new contents }
    {
        self.pass.look();
    }

    /// How many calls and claims it took, modulo 2^64.
    pub fn taken(&self) -> u64
        ensures { result ≡ length self.now.taken % 2 ^ 64 }
    {
        self.count
    }
}
