//! Eight threads count lost calls, and the keeper takes them.

ghost use Rattle.std.specs.Prelude.{◌≡◌, ◌*◌, ◌<◌, [], All, IfOk, vec_len};
ghost use Rattle.dl_cells.specs.Losses.{counted_of, reported_of};

use dl_bytes::OutOfMemory;
use dl_cells::{LossKeeper, LossWriter, make_losses};
use std::alloc::Global;
use std::snapshot::Snapshot;
use std::thread;
use std::thread::{Promise, PromisedHandle, Threads};

// How many threads count, and how often each.
const COUNTERS: u64 = 8;

const EACH: u64 = 10_000;

// A thread gives its writer back, with all that it counted.
#[derive(Drop)]
struct Counted(Snapshot<LossKeeper>);

impl Promise<LossWriter> for Counted {
    ghost use Rattle.dl_cells.specs.Losses.{counted_of};

    ghost kept_by = { λ p w. (w.table ≡ p.0.value.table) × (counted_of 0 w.counted ≡ 10000) × (w.splits_left ≡ 0) };
}

#[tactic(auto, using(dl_cells::proofs::LossSums::counted_more))]
fn count_each(mut writer: LossWriter) -> LossWriter
    requires some { 0 < writer.apps }
    requires fresh { writer.counted ≡ [] }
    ensures table { result.table ≡ writer.table }
    ensures counted { counted_of 0 result.counted ≡ 10000 }
    ensures splits_left { result.splits_left ≡ writer.splits_left }
{
    for _n in 0..EACH {
        writer.count(0);
    }
    writer
}

// Takes while others count.
#[tactic(auto, using(dl_cells::proofs::LossSums::reported_more))]
fn take_often(keeper: &mut LossKeeper) -> u64
    requires some { 0 < keeper.old.apps }
    requires none { keeper.old.reported ≡ [] }
    ensures reported { reported_of 0 keeper.new.reported ≡ result }
    ensures rest { keeper.new ≡ record keeper.old { reported = keeper.new.reported } }
{
    let mut taken = 0;
    for _n in 0..EACH {
        taken += keeper.take(0);
    }
    taken
}

fn start(
    rt: &impl Threads,
    alloc: Global,
    keeper: &LossKeeper,
    first: &mut LossWriter,
) -> Result<Vec<PromisedHandle<LossWriter, Counted>>, OutOfMemory>
    requires { (0 < first.old.apps) × (first.old.counted ≡ []) × (first.old.splits_left ≡ 64) × (first.old.table ≡ keeper.now.table) }
    ensures first { IfOk result (λ _. first.new ≡ record first.old { splits_left = 56 }) }
    ensures count { IfOk result (λ children. vec_len children ≡ 8) }
    ensures same { IfOk result (λ children. All (λ c. c.promise.0.value.table ≡ keeper.now.table) children.items) }
{
    let mut children = Vec::new(alloc);
    for _n in 0..COUNTERS {
        let writer = first.split();
        let counted = Counted(Snapshot::of(keeper));
        children.push(thread::spawn_with(rt, counted, move || count_each(writer))?)?;
    }
    Ok(children)
}

fn gather(
    rt: &impl Threads,
    keeper: &mut LossKeeper,
    children: Vec<PromisedHandle<LossWriter, Counted>>,
)
    requires { (keeper.old.counted ≡ []) × (keeper.old.shares ≡ 0) × All (λ c. c.promise.0.value.table ≡ keeper.old.table) children.items }
    ensures rest { keeper.new ≡ record keeper.old { counted = keeper.new.counted; shares = vec_len children } }
    ensures counted { counted_of 0 keeper.new.counted ≡ 10000 * vec_len children }
{
    for child in children {
        keeper.join(child.join(rt));
    }
}

/// What eight threads count, as the keeper takes it meanwhile, and at last.
pub fn count_together(rt: &impl Threads, alloc: Global) -> Result<u64, OutOfMemory>
    ensures { IfOk result (λ all. all ≡ 80000) }
{
    let (mut keeper, mut first) = make_losses(alloc, 1)?;
    let children = start(rt, alloc, &keeper, &mut first)?;
    let taken = take_often(&mut keeper);
    gather(rt, &mut keeper, children);
    keeper.join(first);
    Ok(taken + keeper.pending(0))
}
