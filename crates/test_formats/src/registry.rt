//! A registry whose slots have one version left.

use dl_bytes::{Bytes, Done, Id, Level, OwnLevel, Sequence, UserMsg};
use dl_control::{Request, RequestFault};
use dl_model::Software;
use dl_registry::{LAST_VERSION, Registry, SetFault, Stored};
use dl_services::{serve, wish_of};
use std::alloc::Global;

/// An application, and a context of it.
const APP: [u8; 4] = *b"LOG1";

const CONTEXT: [u8; 4] = *b"TEST";

/// A registry at level 4, nothing stored, each slot with one version left.
fn empty(alloc: Global) -> Option<Registry> {
    let stored = Stored {
        level: None,
        own: Sequence::over(Vec::new(alloc)),
    };
    Registry::make(alloc, Level::of(4)?, stored, LAST_VERSION - 1).ok()
}

/// Whether the application registers, and the context at level 6.
fn fill(alloc: Global, registry: &mut Registry) -> bool {
    let Some(level) = OwnLevel::of(6) else {
        return false;
    };
    let app = UserMsg::RegisterApp {
        apid: Id::from_bytes(APP),
        pid: 1,
        text: Bytes::over(Vec::new(alloc)),
    };
    let context = UserMsg::RegisterContext {
        apid: Id::from_bytes(APP),
        ctid: Id::from_bytes(CONTEXT),
        position: 7,
        level,
        trace: -1,
        pid: 1,
        text: Bytes::over(Vec::new(alloc)),
    };
    registry.apply(1, &app).is_ok() && registry.apply(1, &context).is_ok()
}

/// The next change of a level: the slot, and the level's number.
fn next(registry: &mut Registry) -> Option<(u16, u8)> {
    let change = registry.next_change()?;
    Some((change.slot, change.level.number()))
}

/// The ids of the context.
fn ids() -> (Id, Id) {
    (Id::from_bytes(APP), Id::from_bytes(CONTEXT))
}

/// A request for this level of the context.
fn asks(level: i8) -> Result<Request, RequestFault> {
    let (apid, ctid) = ids();
    Ok(Request::SetLogLevel { apid, ctid, level })
}

/// The status of the reply to a request, of a daemon whose default level is this one; 255 where memory runs out.
fn status_of(
    alloc: Global,
    registry: &mut Registry,
    request: &Result<Request, RequestFault>,
    default: Level,
) -> u8 {
    let (apid, ctid) = ids();
    let Ok(wish) = wish_of(alloc, registry, request, (apid, ctid), true, default) else {
        return 255;
    };
    match serve(
        alloc,
        registry,
        request,
        (apid, ctid),
        Software::Run,
        true,
        default,
        wish,
        Done::Yes,
    ) {
        Ok(reply) => reply.status,
        Err(_) => 255,
    }
}

/// Whether the context, which comes at level 6, gets it, which takes its slot's last version: it can't be reset to the default level 4, or set to
/// another one, but to that which it has.
fn changes_once(alloc: Global, registry: &mut Registry, default: Level) -> [bool; 7] {
    [
        fill(alloc, registry),
        next(registry) == Some((0, 6)),
        next(registry).is_none(),
        registry.reset(default) == Err(SetFault::Worn),
        status_of(alloc, registry, &asks(3), default) == 2,
        status_of(alloc, registry, &asks(6), default) == 0,
        next(registry).is_none(),
    ]
}

/// The same of a registry of its own.
fn last_version(alloc: Global) -> Option<[bool; 7]> {
    let default = Level::of(4)?;
    match empty(alloc) {
        Some(mut registry) => Some(changes_once(alloc, &mut registry, default)),
        None => None,
    }
}

#[test]
fn one_version_is_left(rt: HostRuntime) {
    assert!(rt; last_version(rt.alloc()) == Some([true; 7]));
}
