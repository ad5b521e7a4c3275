//! Four threads read a slot while the keeper sets it.

ghost use Rattle.std.specs.Prelude.{◌≡◌, ◌<◌, false, IfOk};

use dl_bytes::{Level, OutOfMemory};
use dl_cells::{LevelKeeper, LevelReader, make_levels};
use std::alloc::Global;
use std::thread;
use std::thread::{Promise, PromisedHandle, Threads};

// How many threads read, and how often the keeper sets the slot.
const READERS: u64 = 4;

const SETS: u64 = 10_000;

// A thread saw no version fall.
#[derive(Drop)]
struct Steady;

impl Promise<bool> for Steady {
    ghost kept_by = { λ _ fell. fell ≡ false };
}

// Reads until the last version is there. Whether a version fell.
fn watch(mut reader: LevelReader) -> bool
    requires { 0 < reader.slots }
    ensures { result ≡ false }
{
    let mut last = reader.load(0).version;
    for _n in 0..u64::MAX {
        if last == SETS {
            break;
        }
        let seen = reader.load(0);
        if seen.version < last {
            return true;
        }
        last = seen.version;
    }
    false
}

fn set_often(keeper: &mut LevelKeeper)
    requires { 0 < keeper.old.slots }
{
    for n in 0..SETS {
        if let Some(level) = Level::of((n % 7) as u8) {
            let _worn = keeper.set(0, level);
        }
    }
}

fn start_watchers(
    rt: &impl Threads,
    alloc: Global,
    first: &mut LevelReader,
) -> Result<Vec<PromisedHandle<bool, Steady>>, OutOfMemory>
    requires { (0 < first.old.slots) × (first.old.splits_left ≡ 64) }
{
    let mut children = Vec::new(alloc);
    for _n in 0..READERS {
        let reader = first.split();
        children.push(thread::spawn_with(rt, Steady, move || watch(reader))?)?;
    }
    Ok(children)
}

/// Whether a reader saw a version fall.
pub fn watch_together(rt: &impl Threads, alloc: Global) -> Result<bool, OutOfMemory>
    ensures { IfOk result (λ fell. fell ≡ false) }
{
    let (mut keeper, mut first) = make_levels(alloc, 1, 0)?;
    let children = start_watchers(rt, alloc, &mut first)?;
    set_often(&mut keeper);
    let mut fell = false;
    for child in children {
        fell |= child.join(rt);
    }
    Ok(fell)
}
