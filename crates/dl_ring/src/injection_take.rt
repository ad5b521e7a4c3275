//! The passes with which an application's writers take.

ghost use Rattle.std.specs.Prelude.{◌≡◌, ◌+◌, ◌<◌, ℕ, true, false, ◌∷◌, [], ◌++◌, IfSome, OnSome, IfNone};
ghost use Rattle.dl_ring.specs.InjectionOrder.{Rises, MetEmpty};
ghost use Rattle.dl_ring.specs.InjectionState.{unused_take};

use crate::injection_queue::{Queue, QueuePass, Share, Take};
use dl_bytes::Injection;
use dl_cells::one_more;
use std::marker::Model;
use std::sync::{Arc, Wait};

/// A pass of a queue of injections that takes. Passes take at once from many threads.
#[derive(Drop)]
pub struct InjectTake {
    pub(crate) queue: Arc<Queue>,
    pub(crate) pass: QueuePass,
    /// How many takes found nothing.
    pub(crate) empties: u64,
    /// Of the first pass: an owner of the queue for each pass that it may still make.
    pub(crate) spare: Option<Vec<Arc<Queue>>>,
}

impl Model for InjectTake {
    ghost use Rattle.std.specs.Prelude.{◌≡◌, false, MatchOption};
    ghost use Rattle.std.specs.Arc.{arc_value};
    ghost use Rattle.crossbeam_queue.specs.Passes.{view as knows, IsPassOf, ruled_capacity};
    ghost use Rattle.dl_ring.specs.InjectionState.{TakeState};
    ghost use Rattle.dl_ring.specs.InjectionPasses.{IsTaker, HasOwners};

    ghost Value = { TakeState };

    ghost view = { λ p. record {
      queue = p.pass.table_id;
      taken = (knows p.pass).taken;
      empties = p.empties;
      first = (knows p.pass).gives;
      splits = (knows p.pass).splits;
    } };

    ghost invariant = { λ p. IsPassOf (arc_value p.queue) p.pass × IsTaker (knows p.pass)
        × MatchOption p.spare ((knows p.pass).gives ≡ false) (λ owners. HasOwners (arc_value p.queue) (knows p.pass).splits owners.items) };
}

impl InjectTake {
    /// The oldest injection, taken from the queue at one step. None comes only where the queue was empty at that step.
    pub fn take<R: Wait>(&mut self, rt: &R) -> Option<Injection>
        ensures taken { IfSome result (λ injection. (number : ℕ) × (self.new ≡ record self.old { taken = self.old.taken ++ (record { number = number; injection = injection }) ∷ [] })) }
        ensures rises { OnSome result (Rises self.new.taken) }
        ensures none { IfNone result (self.new ≡ record self.old { empties = self.old.empties + 1 }) }
        ensures empty { IfNone result (MetEmpty self.old.taken) }
    {
        match self.queue.pop_as::<Take, R>(rt, &mut self.pass) {
            Some(entry) => Some(entry.injection),
            None => {
                self.empties = one_more(rt, self.empties);
                None
            }
        }
    }

    /// A further pass that takes. The first one makes them all, at most 32.
    pub fn split(&mut self) -> InjectTake
        requires first { self.old.first ≡ true }
        requires room { self.old.splits < 32 }
        ensures splits { self.new ≡ record self.old { splits = self.old.splits + 1 } }
        ensures new { result ≡ unused_take self.old.queue false }
    {
        let Some(owners) = &mut self.spare else {
            unreachable!()
        };
        let queue = owners.pop().unwrap();
        let pass = self.queue.another::<Share>(&mut self.pass);
        InjectTake {
            queue,
            pass,
            empties: 0,
            spare: None,
        }
    }
}
