use crate::claims::claim_together;
use crate::levels::watch_together;
use crate::losses::count_together;
use std::test::Fail;

/// No lost call is lost, and none is counted twice, while eight threads count and the keeper takes.
#[test]
fn eight_writers_count(rt: HostRuntime) -> Result<(), Fail> {
    assert_eq!(rt; count_together(&rt, rt.alloc())?, 80_000);
    Ok(())
}

/// No reader sees a version fall while the keeper sets the slot.
#[test]
fn four_readers_watch(rt: HostRuntime) -> Result<(), Fail> {
    assert!(rt; !watch_together(&rt, rt.alloc())?);
    Ok(())
}

/// Eight threads claim sixteen numbers each: 64 of the claims are given, each another number, and the others find none left.
#[test]
fn eight_writers_claim(rt: HostRuntime) -> Result<(), Fail> {
    let (_keeper, given) = claim_together(&rt, rt.alloc())?;
    assert_eq!(rt; given.count, 64);
    assert_eq!(rt; given.bits, u64::MAX);
    Ok(())
}
