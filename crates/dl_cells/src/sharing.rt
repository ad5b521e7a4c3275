//! Owners of what threads share, and counts of what no view shows.

ghost use Rattle.std.specs.Prelude.{◌≡◌, ◌+◌, IfOk, All, vec_len};
ghost use Rattle.std.specs.Arc.{arc_value};

use dl_bytes::OutOfMemory;
use std::alloc::Global;
use std::sync::{Arc, Wait};

/// Owners of a shared value for ends that are to be split off later, so that a split takes no memory and can't fail.
pub fn owners<T: Drop>(
    alloc: Global,
    shared: &Arc<T, Global>,
    count: usize,
) -> Result<Vec<Arc<T, Global>>, OutOfMemory>
    ensures count { IfOk result (λ owners. vec_len owners ≡ count) }
    ensures same { IfOk result (λ owners. All (λ owner. arc_value owner ≡ arc_value shared.now) owners.items) }
{
    let mut owners = Vec::with_capacity(alloc, count)?;
    for _n in 0..count {
        owners.push(Arc::try_clone(shared)?)?;
    }
    Ok(owners)
}

/// One more than this count. No run counts so far that it has no room.
pub fn one_more<R: Wait>(rt: &R, count: u64) -> u64
    ensures { result ≡ count + 1 }
{
    if count == u64::MAX {
        for _ in rt.forever() {}
        unreachable!()
    }
    count + 1
}
