//! The queue under its rule, with its free boxes: how it is made, and what each kind of step makes of the views.

ghost use Rattle.std.specs.Prelude.{◌≡◌, ℕ, ◌+◌, ◌≤◌, ◌<◌, true, length, IfOk, vec_len};
ghost use Rattle.std.specs.List.{All};
ghost use Rattle.std.specs.Arc.{arc_value};
ghost use Rattle.crossbeam_queue.specs.Passes.{view, IsSamePass, IsPassOf, ruled_capacity};
ghost use Rattle.dl_cells.specs.Views.{times};
ghost use Rattle.dl_ring.specs.Rule.{pusher, with_given};
ghost use Rattle.dl_ring.specs.Passes.{Owns};
ghost use Rattle.dl_ring.specs.State.{unused_push, unused_take};

use crate::call::Call;
use crate::item::RingItem;
use crate::push::RingPush;
use crate::take::RingTake;
use crate::view::View;
use crossbeam_queue::protocol::{Join, Lesson, Outcome, Protocol, Split};
use crossbeam_queue::{ArrayQueue, Pass, RuledArrayQueue};
use dl_bytes::{Id, OutOfMemory, Payload, Severity};
use std::alloc::Global;
use std::marker::{Brand, PhantomData};
use std::sync::{Arc, Wait};
use std::thread;

/// How many boxes passes have in their hands at most, where no more than 32 writers have a pass: one each, the first pass
/// and the one that takes.
const HANDS: usize = 34;

/// The rule of a ring: each pass's items come out in the order of its pushes, each once.
pub struct InOrder;

impl Protocol<Box<RingItem>, View> for InOrder {
    ghost use Rattle.dl_ring.specs.Boxes.{KeepsBoxed};
    ghost use Rattle.dl_ring.specs.Rule.{opener};

    ghost holds = { KeepsBoxed };

    ghost first = { opener };
}

/// The boxes that are full, in the order of their pushes.
pub type Queue = RuledArrayQueue<Box<RingItem>, View, InOrder>;

pub type RingPass = Pass<Box<RingItem>, View>;

/// What the passes of a ring share. A box is full or free, or a pass fills or empties it.
#[derive(Drop)]
pub struct Ring {
    /// The full ones.
    pub queue: Queue,
    /// The free ones.
    pub free: ArrayQueue<Box<RingItem>>,
}

/// A push: one item more, or the ring is full.
pub struct Push;

impl Outcome<Box<RingItem>, View> for Push {
    ghost use Rattle.std.specs.Prelude.{◌≡◌};
    ghost use Rattle.dl_ring.specs.Rule.{with_pushed};

    ghost then = { λ v full w. w ≡ with_pushed v full.value };
}

impl Lesson<Box<RingItem>, View> for Push {
    ghost use Rattle.std.specs.Prelude.{◌≡◌, ◌++◌, List};
    ghost use Rattle.dl_ring.specs.declared.item.RingItem.{RingItem as ring_item};
    ghost use Rattle.dl_ring.specs.Boxes.{values};
    ghost use Rattle.dl_ring.specs.Order.{of};

    ghost fact = { λ v boxes. (taken : List ring_item) × (of v.number (taken ++ values boxes) ≡ v.pushed) };
}

/// A take: the oldest item, or the ring is empty.
pub struct Take;

impl Outcome<Box<RingItem>, View> for Take {
    ghost use Rattle.std.specs.Prelude.{◌≡◌, List};
    ghost use Rattle.dl_ring.specs.declared.item.RingItem.{RingItem as ring_item};
    ghost use Rattle.dl_ring.specs.Order.{Rest};
    ghost use Rattle.dl_ring.specs.Rule.{with_taken};

    ghost then = { λ v full w. (w ≡ with_taken v full.value) × ((contents : List ring_item) × Rest w.gives w.given w.taken w.joined contents) };
}

impl Lesson<Box<RingItem>, View> for Take {
    ghost use Rattle.dl_ring.specs.Boxes.{values};
    ghost use Rattle.dl_ring.specs.Order.{Rest};

    ghost fact = { λ v boxes. Rest v.gives v.given v.taken v.joined (values boxes) };
}

/// The pass with which a ring is made becomes the first that pushes and the one that takes.
struct Passes;

impl Split<View> for Passes {
    ghost use Rattle.dl_ring.specs.Rule.{first_pusher, taker};

    ghost left = { λ _. first_pusher };

    ghost right = { λ _. taker };
}

/// A pass joins the one that takes.
pub struct Gather;

impl Join<View> for Gather {
    ghost use Rattle.dl_ring.specs.Rule.{with_joined, spent};

    ghost both = { with_joined };

    ghost spent = { spent };
}

/// The number that a new pass is given.
pub trait Number {
    ghost number: { ℕ };
}

impl Number for Brand {
    ghost number = { 0 };
}

/// A new pass, under a number that was not given.
pub struct Give<N> {
    number: PhantomData<N>,
}

impl<N: Number> Split<View> for Give<N> {
    ghost use Rattle.dl_ring.specs.Rule.{pusher, with_given};

    ghost left = { λ v. with_given v N.number };

    ghost right = { λ _. pusher N.number };
}

/// A new pass of the ring, under this number.
pub fn new_pass<N: Number>(queue: &Queue, pass: &mut RingPass, number: u8) -> RingPass
    requires number { number ≡ N.number }
    requires pass { IsPassOf queue.now pass.old × ((view pass.old).gives ≡ true) }
    requires positive { 1 ≤ number }
    requires fresh { times number (view pass.old).given ≡ 0 }
    ensures same { IsSamePass pass.old pass.new × (view pass.new ≡ with_given (view pass.old) number) }
    ensures new { IsPassOf queue.now result × (view result ≡ pusher number) }
{
    queue.another::<Give<N>>(pass)
}

impl Ring {
    /// A free box, whatever it holds. There always is one, since each pass has one box at most: this waits only for a pass
    /// that is just giving one back or taking one.
    pub fn free_box<R: Wait>(&self, rt: &R) -> Box<RingItem> {
        for _ in rt.forever() {
            if let Some(free) = self.free.pop(rt) {
                return free;
            }
            thread::yield_now();
        }
        unreachable!()
    }

    /// Gives a box back. There always is room, since the queue of free boxes has room for all of them.
    pub fn give_back<R: Wait>(&self, rt: &R, free: Box<RingItem>) {
        let _ = self.free.push(rt, free);
    }
}

/// What lies in a box before its first use.
fn no_item() -> RingItem {
    let call = Call {
        app: 0,
        writer: 0,
        severity: Severity::Info,
        mcnt: 0,
        at: 0,
        apid: Id::from_bytes([0; 4]),
        ctid: Id::from_bytes([0; 4]),
        number: 0,
    };
    RingItem::Log(call.item(&Payload::new()))
}

/// So many free boxes.
fn free_boxes(alloc: Global, count: usize) -> Result<ArrayQueue<Box<RingItem>>, OutOfMemory>
    requires { 0 < count }
{
    let mut free = ArrayQueue::new(alloc, count)?;
    for _box in 0..count {
        let Ok(made) = Box::new(alloc, no_item()) else {
            return Err(OutOfMemory);
        };
        if free.push_mut(made).is_err() {
            return Err(OutOfMemory);
        }
    }
    Ok(free)
}

/// An owner of the ring for each number of a pass.
fn owners(alloc: Global, ring: &Arc<Ring>) -> Result<Vec<Option<Arc<Ring>>>, OutOfMemory>
    ensures { IfOk result (λ owners. (vec_len owners ≡ 256) × All (Owns (arc_value ring.now)) owners.items) }
{
    let mut owners = Vec::with_capacity(alloc, 256)?;
    for _number in 0..256usize {
        let owner = Arc::try_clone(ring)?;
        owners.push(Some(owner))?;
    }
    Ok(owners)
}

/// A ring that holds at most this many items, 1 to 4096: the first pass that pushes, which has the number 0, and the
/// one pass that takes. All memory that the ring ever takes is taken here.
pub fn make_ring(alloc: Global, capacity: u16) -> Result<(RingPush, RingTake), OutOfMemory>
    requires { (1 ≤ capacity) × (capacity ≤ 4096) }
    ensures { IfOk result (λ passes. (passes.0 ≡ unused_push passes.0.ring capacity 0 true) × (passes.1 ≡ unused_take passes.0.ring capacity)) }
{
    let (queue, mut pass) = Queue::ruled(alloc, usize::from(capacity))?;
    let taker = queue.another::<Passes>(&mut pass);
    let free = free_boxes(alloc, usize::from(capacity) + HANDS)?;
    let Ok(ring) = Arc::new(alloc, Ring { queue, free }) else {
        return Err(OutOfMemory);
    };
    let spare = owners(alloc, &ring)?;
    let shared = Arc::try_clone(&ring)?;
    let push = RingPush {
        ring,
        pass,
        refusals: 0,
        spare: Some(spare),
    };
    let take = RingTake {
        ring: shared,
        pass: taker,
        empties: 0,
    };
    Ok((push, take))
}
