//! The contexts that are there with their levels, and what is new of them.

ghost use Rattle.std.specs.Prelude.{◌≡◌, IfOk, map};
ghost use Rattle.dl_own_log.specs.Standings.{changed, gone, is_among, is_there};

use dl_bytes::{Id, Level, OutOfMemory};
use std::alloc::Global;

/// A context that is there, and the level that filters it.
#[derive(Clone, Copy, PartialEq, Eq)]
pub struct Standing {
    /// The id of its application.
    pub apid: Id,
    /// Its own id.
    pub ctid: Id,
    /// The level.
    pub level: Level,
}

/// Whether a context is among these.
fn is_there(all: &[Standing], one: &Standing) -> bool
    ensures { result ≡ is_there all.now one.now }
{
    all.iter()
        .any(|other| other.apid == one.apid && other.ctid == one.ctid)
}

/// Whether a context is among these with the same level.
fn is_among(all: &[Standing], one: &Standing) -> bool
    ensures { result ≡ is_among all.now one.now }
{
    all.iter().any(|other| {
        other.apid == one.apid && other.ctid == one.ctid && other.level == one.level
    })
}

/// Those that weren't there before, or had another level: each once, in their order.
pub fn changed(
    alloc: Global,
    before: &[Standing],
    now: &[Standing],
) -> Result<Vec<Standing>, OutOfMemory>
    ensures { IfOk result (λ all. all.items ≡ changed before.now now.now) }
{
    let mut all = Vec::new(alloc);
    for standing in now {
        if !is_among(before, standing) {
            all.push(*standing)?;
        }
    }
    Ok(all)
}

/// Those that aren't there any more: each once, in their order.
pub fn gone(
    alloc: Global,
    before: &[Standing],
    now: &[Standing],
) -> Result<Vec<Standing>, OutOfMemory>
    ensures { IfOk result (λ all. all.items ≡ gone before.now now.now) }
{
    let mut all = Vec::new(alloc);
    for standing in before {
        if !is_there(now, standing) {
            all.push(*standing)?;
        }
    }
    Ok(all)
}
