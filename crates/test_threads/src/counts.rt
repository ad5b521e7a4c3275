//! Counts of two writers.

ghost use Rattle.std.specs.Prelude.{◌≡◌, []};

use dl_cells::{LossKeeper, LossWriter, make_losses};
use std::alloc::Global;

/// Counts three and two calls of the first application and one of the second, and takes those of the first: what is told before, what is
/// taken, and what comes then.
fn counted(keeper: &mut LossKeeper, first: &mut LossWriter, second: &mut LossWriter) -> [u64; 3]
    requires keeper { keeper.old.apps ≡ 2 }
    requires first { (first.old.apps ≡ 2) × (first.old.counted ≡ []) }
    requires second { (second.old.apps ≡ 2) × (second.old.counted ≡ []) }
    ensures keeper { (keeper.new.table ≡ keeper.old.table) × (keeper.new.apps ≡ keeper.old.apps) }
    ensures first { first.new.table ≡ first.old.table }
    ensures second { second.new.table ≡ second.old.table }
{
    first.count(0);
    second.count(0);
    first.count(1);
    second.count(0);
    first.count(0);
    first.count(0);
    [keeper.pending(0), keeper.take(0), keeper.take(0)]
}

/// The same of words that were just made, and what is told of the second application once both writers are back.
fn counted_by_two(alloc: Global) -> Option<([u64; 3], u64)> {
    match make_losses(alloc, 2) {
        Ok((mut keeper, mut first)) => {
            let mut second = first.split();
            let told = counted(&mut keeper, &mut first, &mut second);
            keeper.join(second);
            keeper.join(first);
            Some((told, keeper.pending(1)))
        }
        Err(_) => None,
    }
}

/// Two writers count three and two lost calls of one application, which are taken once.
#[test]
fn what_is_counted_is_taken_once(rt: HostRuntime) {
    assert!(rt; counted_by_two(rt.alloc()) == Some(([5, 5, 0], 1)));
}
