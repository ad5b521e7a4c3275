//! One slot.

ghost use Rattle.std.specs.Prelude.{◌≡◌, ◌<◌};

use dl_bytes::{Level, Severity};
use dl_cells::{LevelKeeper, LevelReader, make_levels};
use std::alloc::Global;

/// The last version.
const LAST: u64 = 0xff_ffff_ffff_ffff;

/// Sets the slot twice, one version before the last: whether it was off, is set, is worn then, is at the last version, and both readers see
/// what was set.
fn wears_out(
    keeper: &mut LevelKeeper,
    reader: &mut LevelReader,
    other: &mut LevelReader,
) -> [bool; 6]
    requires keeper { 0 < keeper.old.slots }
    requires reader { 0 < reader.old.slots }
    requires other { 0 < other.old.slots }
    ensures keeper { (keeper.new.table ≡ keeper.old.table) × (keeper.new.claims ≡ keeper.old.claims) }
    ensures reader { (reader.new.table ≡ reader.old.table) × (reader.new.claims ≡ reader.old.claims) }
    ensures other { (other.new.table ≡ other.old.table) × (other.new.claims ≡ other.old.claims) }
{
    let info = Level::from(Severity::Info);
    let before = other.load(0);
    let was_set = keeper.set(0, info).is_ok();
    let is_worn = keeper.set(0, Level::from(Severity::Fatal)).is_err();
    let seen = reader.load(0);
    [
        before.level.number() == 0,
        was_set,
        is_worn,
        keeper.version(0) == LAST,
        seen.version == LAST && seen.level == info,
        other.load(0) == seen,
    ]
}

/// The same of a slot that was just made, with both readers joined at the end.
fn one_wears_out(alloc: Global) -> [bool; 6] {
    match make_levels(alloc, 1, LAST - 1) {
        Ok((mut keeper, mut reader)) => {
            let mut other = reader.split();
            let are_so = wears_out(&mut keeper, &mut reader, &mut other);
            keeper.join(other);
            keeper.join(reader);
            keeper.settle();
            are_so
        }
        Err(_) => [false; 6],
    }
}

/// A slot is set once more before its version is the last one, and its readers see what was set.
#[test]
fn a_slot_wears_out(rt: HostRuntime) {
    assert!(rt; one_wears_out(rt.alloc()) == [true; 6]);
}
