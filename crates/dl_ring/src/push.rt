//! The passes with which writers push.

ghost use Rattle.std.specs.Prelude.{◌≡◌, ◌+◌, ◌≤◌, ◌∷◌, [], ◌++◌, true, false, OnOk, OnErr, IfErr};
ghost use Rattle.dl_cells.specs.Views.{times};
ghost use Rattle.dl_ring.specs.Items.{item_with};
ghost use Rattle.dl_ring.specs.Order.{writer_of, MetFull};
ghost use Rattle.dl_ring.specs.declared.item.RingItem.TheVariants as ring_item;
ghost use Rattle.dl_ring.specs.State.{unused_push};

use crate::call::Call;
use crate::item::RingItem;
use crate::ring::{Push, Ring, RingPass, new_pass};
use dl_bytes::Payload;
use dl_cells::one_more;
use std::marker::{Brand, Model};
use std::sync::{Arc, Wait};

/// One writer's pass of a ring. Passes push at once from many threads, each under a number of its own.
#[derive(Drop)]
pub struct RingPush {
    pub(crate) ring: Arc<Ring>,
    pub(crate) pass: RingPass,
    /// How many pushes were refused.
    pub(crate) refusals: u64,
    /// Of the first pass: an owner of the ring for each number that it has not given.
    pub(crate) spare: Option<Vec<Option<Arc<Ring>>>>,
}

impl Model for RingPush {
    ghost use Rattle.std.specs.Prelude.{◌≡◌, false, MatchOption};
    ghost use Rattle.std.specs.Arc.{arc_value};
    ghost use Rattle.crossbeam_queue.specs.Passes.{view as knows, IsPassOf, ruled_capacity};
    ghost use Rattle.dl_ring.specs.State.{PushState};
    ghost use Rattle.dl_ring.specs.Passes.{IsPusher, HasOwners};

    ghost Value = { PushState };

    ghost view = { λ p. record {
      ring = p.pass.table_id;
      capacity = ruled_capacity (arc_value p.ring).queue;
      number = (knows p.pass).number;
      pushed = (knows p.pass).pushed;
      refusals = p.refusals;
      first = (knows p.pass).gives;
      given = (knows p.pass).given;
    } };

    ghost invariant = { λ p. IsPassOf (arc_value p.ring).queue p.pass × IsPusher (knows p.pass)
        × MatchOption p.spare ((knows p.pass).gives ≡ false) (λ owners. HasOwners (arc_value p.ring) (knows p.pass).given owners.items) };
}

impl RingPush {
    /// Puts an item at the end of the ring, or gives it back. After a refusal it is known that there was a moment at which
    /// the ring was full, with all that this pass had pushed taken before or lying in it.
    pub fn push<R: Wait>(&mut self, rt: &R, item: RingItem) -> Result<(), RingItem>
        requires { writer_of item ≡ self.old.number }
        ensures pushed { OnOk result (self.new ≡ record self.old { pushed = self.old.pushed ++ item ∷ [] }) }
        ensures refused { OnErr result (self.new ≡ record self.old { refusals = self.old.refusals + 1 }) }
        ensures back { IfErr result (λ back. back ≡ item) }
        ensures full { OnErr result (MetFull self.old.capacity self.old.number self.old.pushed) }
    {
        let mut full = self.ring.free_box(rt);
        *full = item;
        match self.push_box(rt, full) {
            Ok(()) => Ok(()),
            Err(back) => {
                let item = back.copy();
                self.ring.give_back(rt, back);
                Err(item)
            }
        }
    }

    /// Puts the call with this payload at the end of the ring, and tells whether there was room. After a refusal the same is
    /// known as after one of `push`. It is never inlined, so that a filtered call doesn't pay for it.
    #[inline(never)]
    pub fn push_call<R: Wait>(&mut self, rt: &R, call: &Call, payload: &Payload) -> bool
        requires { call.now.writer ≡ self.old.number }
        ensures pushed { result ≡ true → self.new ≡ record self.old { pushed = self.old.pushed ++ ring_item.Log (item_with call.now payload.now) ∷ [] } }
        ensures refused { result ≡ false → self.new ≡ record self.old { refusals = self.old.refusals + 1 } }
        ensures full { result ≡ false → MetFull self.old.capacity self.old.number self.old.pushed }
    {
        let mut full = self.ring.free_box(rt);
        call.fill_box(&mut full, payload);
        match self.push_box(rt, full) {
            Ok(()) => true,
            Err(back) => {
                self.ring.give_back(rt, back);
                false
            }
        }
    }

    /// A pass for another writer, under its number. The first pass makes them all.
    pub fn split(&mut self, writer: u8) -> RingPush
        requires first { self.old.first ≡ true }
        requires positive { 1 ≤ writer }
        requires fresh { times writer self.old.given ≡ 0 }
        ensures given { self.new ≡ record self.old { given = self.old.given ++ writer ∷ [] } }
        ensures new { result ≡ unused_push self.old.ring self.old.capacity writer false }
    {
        let Some(owners) = &mut self.spare else {
            unreachable!()
        };
        let ring = owners[usize::from(writer)].take().unwrap();
        let pass = new_pass::<Brand>(&self.ring.queue, &mut self.pass, writer);
        RingPush {
            ring,
            pass,
            refusals: 0,
            spare: None,
        }
    }
}

impl RingPush {
    // Puts a box at the end of the ring, or gives it back.
    fn push_box<R: Wait>(&mut self, rt: &R, full: Box<RingItem>) -> Result<(), Box<RingItem>>
        requires { writer_of full.value ≡ self.old.number }
        ensures pushed { OnOk result (self.new ≡ record self.old { pushed = self.old.pushed ++ full.value ∷ [] }) }
        ensures refused { OnErr result (self.new ≡ record self.old { refusals = self.old.refusals + 1 }) }
        ensures back { IfErr result (λ back. back ≡ full) }
        ensures met { OnErr result (MetFull self.old.capacity self.old.number self.old.pushed) }
    {
        match self.ring.queue.push_as::<Push, R>(rt, &mut self.pass, full) {
            Ok(()) => Ok(()),
            Err(back) => {
                self.refusals = one_more(rt, self.refusals);
                Err(back)
            }
        }
    }
}
