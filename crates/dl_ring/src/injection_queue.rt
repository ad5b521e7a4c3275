//! The queue under its rule: how it is made, and what each kind of step makes of the views.

ghost use Rattle.std.specs.Prelude.{◌≡◌, true, IfOk};
ghost use Rattle.dl_ring.specs.InjectionState.{unused_push, unused_take};

use crate::injection_push::InjectPush;
use crate::injection_take::InjectTake;
use crate::injection_view::{Entry, View};
use crossbeam_queue::protocol::{Join, Lesson, Outcome, Protocol, Split};
use crossbeam_queue::{Pass, RuledArrayQueue};
use dl_bytes::{INJECTION_LIMIT, OutOfMemory, WRITER_LIMIT};
use dl_cells::owners;
use std::alloc::Global;
use std::sync::Arc;

/// The rule of a queue: each injection is taken by one pass, once, or is left.
pub struct OneEach;

impl Protocol<Entry, View> for OneEach {
    ghost use Rattle.dl_ring.specs.InjectionRule.{Keeps, opener};

    ghost holds = { Keeps };

    ghost first = { opener };
}

pub type Queue = RuledArrayQueue<Entry, View, OneEach>;

pub type QueuePass = Pass<Entry, View>;

/// A push: one entry more, or the queue is full.
pub struct Push;

impl Outcome<Entry, View> for Push {
    ghost use Rattle.std.specs.Prelude.{◌≡◌};
    ghost use Rattle.dl_ring.specs.InjectionRule.{with_pushed};

    ghost then = { λ v e w. w ≡ with_pushed v e };
}

impl Lesson<Entry, View> for Push {
    ghost use Rattle.std.specs.Prelude.{◌≤◌, length};

    ghost fact = { λ v items. length items ≤ length v.pushed };
}

/// A take: the oldest entry, or the queue is empty.
pub struct Take;

impl Outcome<Entry, View> for Take {
    ghost use Rattle.std.specs.Prelude.{◌≡◌};
    ghost use Rattle.dl_ring.specs.InjectionOrder.{Rises};
    ghost use Rattle.dl_ring.specs.InjectionRule.{with_taken};

    ghost then = { λ v e w. (w ≡ with_taken v e) × Rises w.taken };
}

impl Lesson<Entry, View> for Take {
    ghost use Rattle.std.specs.Prelude.{◌≡◌, length};
    ghost use Rattle.dl_ring.specs.InjectionOrder.{MetEmpty};

    ghost fact = { λ v items. length items ≡ 0 → MetEmpty v.taken };
}

/// A look of the pass that pushes.
pub struct Look;

impl Lesson<Entry, View> for Look {
    ghost use Rattle.std.specs.Prelude.{length};
    ghost use Rattle.dl_ring.specs.InjectionOrder.{Rest};

    ghost fact = { λ v items. Rest v.pushed v.gives v.splits v.joined (length items) };
}

/// The pass with which a queue is made becomes the one that pushes and the first that takes.
struct Passes;

impl Split<View> for Passes {
    ghost use Rattle.dl_ring.specs.InjectionRule.{pusher, first_taker};

    ghost left = { λ _. pusher };

    ghost right = { λ _. first_taker };
}

/// A further pass that takes.
pub struct Share;

impl Split<View> for Share {
    ghost use Rattle.dl_ring.specs.InjectionRule.{with_split, taker};

    ghost left = { with_split };

    ghost right = { λ _. taker };
}

/// A pass that takes joins the one that pushes.
pub struct Gather;

impl Join<View> for Gather {
    ghost use Rattle.dl_ring.specs.InjectionRule.{with_joined, spent};

    ghost both = { with_joined };

    ghost spent = { spent };
}

/// A queue of at most 16 injections: the one pass that pushes, and the first that takes.
pub fn make_injections(alloc: Global) -> Result<(InjectPush, InjectTake), OutOfMemory>
    ensures { IfOk result (λ passes. (passes.0 ≡ unused_push passes.0.queue) × (passes.1 ≡ unused_take passes.0.queue true)) }
{
    let (made, mut pass) = Queue::ruled(alloc, INJECTION_LIMIT)?;
    let taker = made.another::<Passes>(&mut pass);
    let Ok(queue) = Arc::new(alloc, made) else {
        return Err(OutOfMemory);
    };
    // one pass that takes for each writer
    let spare = owners(alloc, &queue, WRITER_LIMIT)?;
    let shared = Arc::try_clone(&queue)?;
    let push = InjectPush {
        queue,
        pass,
        next: 0,
        refusals: 0,
    };
    let take = InjectTake {
        queue: shared,
        pass: taker,
        empties: 0,
        spare: Some(spare),
    };
    Ok((push, take))
}
