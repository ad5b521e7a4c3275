//! The contexts that are there, with the levels that filter them.

use dl_bytes::{Id, Level, OutOfMemory, OwnLevel};
use dl_own_log::Standing;
use dl_registry::{InfoFault, Registry};
use std::alloc::Global;

/// No id: it names all.
const ALL: [u8; 4] = [0; 4];

/// The form of GetLogInfo that tells own levels, and no descriptions.
const LEVELS: u8 = 6;

/// How many applications are looked for; there are sixteen at most.
const MOST_APPLICATIONS: u32 = 64;

/// Adds the contexts of an application, and gives what follows them.
fn push_contexts<'a>(
    all: &mut Vec<Standing>,
    apid: Id,
    default: Level,
    count: usize,
    listed: &'a [u8],
) -> Result<&'a [u8], OutOfMemory> {
    let mut rest = listed;
    for _context in 0..count {
        let [a, b, c, d, own, _, behind @ ..] = rest else {
            break;
        };
        let level = match OwnLevel::of(own.cast_signed()) {
            Some(own) => own.effective(default),
            None => default,
        };
        let ctid = Id::from_bytes([*a, *b, *c, *d]);
        all.push(Standing { apid, ctid, level })?;
        rest = behind;
    }
    Ok(rest)
}

/// The contexts that a reply to GetLogInfo tells, in the order of the registry.
fn listed(alloc: Global, default: Level, body: &[u8]) -> Result<Vec<Standing>, OutOfMemory> {
    let mut all = Vec::new(alloc);
    let mut rest = body.get(2..).unwrap_or(body);
    for _application in 0..MOST_APPLICATIONS {
        let [a, b, c, d, low, high, behind @ ..] = rest else {
            break;
        };
        let apid = Id::from_bytes([*a, *b, *c, *d]);
        let count = u16::from_le_bytes([*low, *high]);
        rest = push_contexts(&mut all, apid, default, count as usize, behind)?;
    }
    Ok(all)
}

/// The contexts that are registered, in the registry's order.
pub fn contexts(alloc: Global, registry: &Registry) -> Result<Vec<Standing>, OutOfMemory> {
    let all = Id::from_bytes(ALL);
    match registry.info(LEVELS, all, all) {
        Ok(body) => listed(alloc, registry.default_level(), body.all()),
        Err(InfoFault::Nobody) => Ok(Vec::new(alloc)),
        Err(InfoFault::TooLong) | Err(InfoFault::OutOfMemory) => Err(OutOfMemory),
    }
}
