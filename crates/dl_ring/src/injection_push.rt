//! The pass with which the daemon pushes.

ghost use Rattle.std.specs.Prelude.{◌≡◌, ◌+◌, ◌^◌, ◌<◌, ◌≤◌, ℕ, ◌∷◌, [], ◌++◌, length, OnOk, OnErr, IfErr};
ghost use Rattle.dl_ring.specs.InjectionOrder.{Holds};
ghost use Rattle.dl_ring.specs.InjectionState.{with_pass};

use crate::injection_queue::{Gather, Look, Push, Queue, QueuePass};
use crate::injection_take::InjectTake;
use crate::injection_view::Entry;
use dl_bytes::Injection;
use dl_cells::one_more;
use std::marker::Model;
use std::sync::{Arc, Wait};

/// The one pass of a queue of injections that pushes.
#[derive(Drop)]
pub struct InjectPush {
    pub(crate) queue: Arc<Queue>,
    pub(crate) pass: QueuePass,
    /// The number of the next injection: how many were pushed.
    pub(crate) next: u64,
    /// How many pushes were refused.
    pub(crate) refusals: u64,
}

impl Model for InjectPush {
    ghost use Rattle.std.specs.Prelude.{◌≡◌};
    ghost use Rattle.std.specs.Arc.{arc_value};
    ghost use Rattle.crossbeam_queue.specs.Passes.{view as knows, IsPassOf, ruled_capacity};
    ghost use Rattle.dl_ring.specs.InjectionState.{PushState};
    ghost use Rattle.dl_ring.specs.InjectionPasses.{IsPusher};

    ghost Value = { PushState };

    ghost view = { λ p. record {
      queue = p.pass.table_id;
      pushed = (knows p.pass).pushed;
      refusals = p.refusals;
      joined = (knows p.pass).joined;
      first = (knows p.pass).gives;
      splits = (knows p.pass).splits;
    } };

    ghost invariant = { λ p. IsPassOf (arc_value p.queue) p.pass × (ruled_capacity (arc_value p.queue) ≡ 16) × IsPusher (knows p.pass) p.next };
}

impl InjectPush {
    /// Puts an injection at the end of the queue, or gives it back. After a refusal it is known that at least 16 injections
    /// were pushed before.
    pub fn push<R: Wait>(&mut self, rt: &R, item: Injection) -> Result<(), Injection>
        ensures pushed { OnOk result (self.new ≡ record self.old { pushed = self.old.pushed ++ item ∷ [] }) }
        ensures refused { OnErr result (self.new ≡ record self.old { refusals = self.old.refusals + 1 }) }
        ensures back { IfErr result (λ back. back ≡ item) }
        ensures full { OnErr result (16 ≤ length self.old.pushed) }
    {
        let entry = Entry {
            number: self.next,
            injection: item,
        };
        match self.queue.push_as::<Push, R>(rt, &mut self.pass, entry) {
            Ok(()) => {
                self.next = one_more(rt, self.next);
                Ok(())
            }
            Err(back) => {
                self.refusals = one_more(rt, self.refusals);
                Err(back.injection)
            }
        }
    }

    /// Takes in a pass that takes no more, and answers how many of its takes found nothing.
    pub fn join(&mut self, take: InjectTake) -> u64
        requires { take.queue ≡ self.old.queue }
        ensures joined { self.new ≡ with_pass self.old take }
        ensures empties { result ≡ take.empties }
    {
        let InjectTake {
            queue: _,
            pass,
            empties,
            spare: _,
        } = take;
        self.queue.absorb::<Gather>(&mut self.pass, pass);
        empties
    }

    /// Looks at the queue and changes nothing: so many injections are left, and what the joined passes took is of what
    /// was pushed, each once. After the last join nothing else was taken.
    pub fn look(&mut self)
        ensures same { self.new ≡ self.old }
        ensures rest { (left : ℕ) × Holds self.new left }
        ensures few { length self.new.pushed < 2 ^ 64 }
    {
        self.queue.learn_as::<Look>(&mut self.pass);
    }
}
