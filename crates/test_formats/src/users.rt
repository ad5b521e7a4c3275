//! User messages by the tables of the format, and what libdlt wrote.

ghost use Rattle.std.specs.Prelude.{◌<◌};

use dl_bytes::{Bytes, Id, Level, OwnLevel, UserMsg};
use dl_user::{UserCut, UserCutter, write_user};
use std::alloc::Global;

/// An application and a context.
fn ids() -> (Id, Id) {
    (Id::from_bytes(*b"SOCK"), Id::from_bytes(*b"TEST"))
}

/// A text or bytes.
fn text(alloc: Global, bytes: &[u8]) -> Option<Bytes> {
    Some(Bytes::over(Vec::from_slice(alloc, bytes).ok()?))
}

/// A log message of these bytes.
fn log(bytes: Bytes) -> UserMsg {
    UserMsg::Log(bytes)
}

/// The application registers with this description.
fn app(text: Bytes) -> UserMsg {
    let (apid, _) = ids();
    UserMsg::RegisterApp { apid, pid: 1, text }
}

/// The context registers with this description and at this level.
fn context(level: OwnLevel, text: Bytes) -> UserMsg {
    let (apid, ctid) = ids();
    UserMsg::RegisterContext {
        apid,
        ctid,
        position: 2,
        level,
        trace: -1,
        pid: 1,
        text,
    }
}

/// These bytes are injected.
fn injection(body: Bytes) -> UserMsg {
    UserMsg::Injection {
        position: 2,
        service: 0x1000,
        body,
    }
}

/// A message of each kind with a text or bytes, by its fields, and the bytes of it.
fn with_text(alloc: Global, kind: u8) -> Option<UserMsg> {
    match kind {
        1 => Some(log(text(alloc, b"\x20\0\0\x05\xaa")?)),
        2 => Some(app(text(alloc, b"abc")?)),
        4 => Some(context(OwnLevel::of(-1)?, text(alloc, b"hi")?)),
        7 => Some(injection(text(alloc, b"abc")?)),
        _ => None,
    }
}

/// The context's level becomes this one.
fn level(level: Level) -> UserMsg {
    UserMsg::LogLevel {
        level,
        trace: -2,
        position: 2,
    }
}

/// The application is gone.
fn app_gone() -> UserMsg {
    let (apid, _) = ids();
    UserMsg::UnregisterApp { apid, pid: 1 }
}

/// The context is gone.
fn context_gone() -> UserMsg {
    let (apid, ctid) = ids();
    UserMsg::UnregisterContext { apid, ctid, pid: 1 }
}

/// Five calls of the application were lost.
fn overflow() -> UserMsg {
    let (apid, _) = ids();
    UserMsg::Overflow { counter: 5, apid }
}

/// A message of each other kind.
fn without_text(kind: u8) -> Option<UserMsg> {
    match kind {
        3 => Some(app_gone()),
        5 => Some(context_gone()),
        6 => Some(level(Level::of(6)?)),
        8 => Some(overflow()),
        _ => None,
    }
}

/// The bytes of those messages, by the format, in the order of their kinds.
const SPELLINGS: [&[u8]; 8] = [
    b"DUH\x01\x01\0\0\0\x20\0\0\x05\xaa",
    b"DUH\x01\x02\0\0\0SOCK\x01\0\0\0\x03\0\0\0abc",
    b"DUH\x01\x03\0\0\0SOCK\x01\0\0\0",
    b"DUH\x01\x04\0\0\0SOCKTEST\x02\0\0\0\xff\xff\x01\0\0\0\x02\0\0\0hi",
    b"DUH\x01\x05\0\0\0SOCKTEST\x01\0\0\0",
    b"DUH\x01\x06\0\0\0\x06\xfe\x02\0\0\0",
    b"DUH\x01\x07\0\0\0\x02\0\0\0\0\x10\0\0\x03\0\0\0abc",
    b"DUH\x01\x08\0\0\0\x05\0\0\0SOCK",
];

/// The messages of a session of libdlt, of kinds 2, 4, 4, 4, 1, 1, 5 and 3. Its contexts register with the level -2.
const SESSION: [&[u8]; 8] = [
    b"DUH\x01\x02\0\0\0LOG\0\xc9w\0\0\x1c\0\0\0Test Application for Logging",
    b"DUH\x01\x04\0\0\0LOG\0TEST\0\0\0\0\xfe\xfe\xc9w\0\0\x18\0\0\0Test Context for Logging",
    b"DUH\x01\x04\0\0\0LOG\0TS1\0\x01\0\0\0\xfe\xfe\xc9w\0\0\x1b\0\0\0Test Context1 for injection",
    b"DUH\x01\x04\0\0\0LOG\0TS2\0\x02\0\0\0\xfe\xfe\xc9w\0\0\x1b\0\0\0Test Context2 for injection",
    b"DUH\x01\x01\0\0\0=\0\02ECU1\0\0w\xc9\0\xc1O\xaeA\x02LOG\0TEST#\x08\0\0\0\0\0\0\0\0\0\0\0\x02\0\0\x06\0hello\0",
    b"DUH\x01\x01\0\0\0=\x01\02ECU1\0\0w\xc9\0\xc1PwA\x02LOG\0TEST#\x08\0\0\0\0\0\0\x01\0\0\0\0\x02\0\0\x06\0hello\0",
    b"DUH\x01\x05\0\0\0LOG\0TEST\xc9w\0\0",
    b"DUH\x01\x03\0\0\0LOG\0\xc9w\0\0",
];

/// The bytes of a message.
pub fn written(alloc: Global, msg: &UserMsg) -> Option<Bytes> {
    if !msg.is_fit() {
        return None;
    }
    write_user(alloc, msg).ok()
}

/// Whether the message of this kind is written so.
fn spells(alloc: Global, kind: u8, spelling: &[u8]) -> bool {
    match without_text(kind) {
        Some(msg) => is_again(alloc, &msg, spelling),
        None => is_text_again(alloc, kind, spelling),
    }
}

/// The same of one with a text or bytes.
fn is_text_again(alloc: Global, kind: u8, spelling: &[u8]) -> bool {
    match with_text(alloc, kind) {
        Some(msg) => is_again(alloc, &msg, spelling),
        None => false,
    }
}

/// The first kind that is written otherwise.
fn other_kind(alloc: Global, spellings: &[&[u8]]) -> Option<u8> {
    let mut kind = 1u8;
    for spelling in spellings {
        if !spells(alloc, kind, spelling) {
            return Some(kind);
        }
        kind = kind.wrapping_add(1);
    }
    None
}

#[test]
fn each_kind_is_written(rt: HostRuntime) {
    assert!(rt; other_kind(rt.alloc(), &SPELLINGS).is_none());
}

/// Whether these bytes are a context's message that was written again. Its level, 20 bytes behind its begin, is -1, also where
/// it was read as -2.
fn is_context_again(again: &[u8], message: &[u8]) -> bool {
    again.get(..20) == message.get(..20)
        && again.get(20) == Some(&0xff)
        && again.get(21..) == message.get(21..)
}

/// Whether these bytes are a message that was written again.
fn are_again(again: &[u8], message: &[u8]) -> bool {
    if message.get(4) == Some(&4) {
        is_context_again(again, message)
    } else {
        again == message
    }
}

/// Whether a message is written so.
fn is_again(alloc: Global, msg: &UserMsg, message: &[u8]) -> bool {
    match written(alloc, msg) {
        Some(again) => are_again(again.all(), message),
        None => false,
    }
}

/// What a cutter gives: the message that is wanted, none before more bytes come, or something else.
enum Given {
    Wanted,
    NeedMore,
    Other,
}

/// Whether a message is wanted, and is written so.
fn is_wanted(alloc: Global, msg: &UserMsg, wanted: Option<&&[u8]>) -> bool {
    match wanted {
        Some(message) => is_again(alloc, msg, message),
        None => false,
    }
}

/// What a cutter gives where this message is wanted.
fn next(alloc: Global, cutter: &mut UserCutter, wanted: Option<&&[u8]>) -> Given {
    match cutter.next() {
        UserCut::Message(msg) => {
            if is_wanted(alloc, &msg, wanted) {
                Given::Wanted
            } else {
                Given::Other
            }
        }
        UserCut::NeedMore => Given::NeedMore,
        UserCut::Bad(_) | UserCut::OutOfMemory => Given::Other,
    }
}

/// Where among these messages a cutter is that began at a place and gave what it had, 16 at most.
fn place_after(
    alloc: Global,
    cutter: &mut UserCutter,
    wanted: &[&[u8]],
    place: usize,
) -> Option<usize> {
    let mut at = place;
    for _ in 0..16 {
        match next(alloc, cutter, wanted.get(at)) {
            Given::Wanted => at = at.saturating_add(1),
            Given::NeedMore => return Some(at),
            Given::Other => return None,
        }
    }
    None
}

/// Whether a cutter gives these messages of these bytes in pieces of this size, and wants more bytes behind each piece.
fn gives(
    alloc: Global,
    cutter: &mut UserCutter,
    bytes: &[u8],
    size: usize,
    wanted: &[&[u8]],
) -> bool
    requires { 0 < size }
{
    let mut at = 0usize;
    for piece in bytes.chunks(size) {
        cutter.feed(piece);
        match place_after(alloc, cutter, wanted, at) {
            Some(place) => at = place,
            None => return false,
        }
    }
    at == wanted.len()
}

/// Whether a new cutter gives these messages of these bytes in pieces of this size, each written again.
pub fn are_cut(alloc: Global, bytes: &[u8], size: usize, wanted: &[&[u8]]) -> bool
    requires { 0 < size }
{
    match UserCutter::make(alloc) {
        Ok(mut cutter) => gives(alloc, &mut cutter, bytes, size, wanted),
        Err(_) => false,
    }
}

/// The place of the first of these messages that isn't cut from its bytes in pieces of this size.
fn other_cut(alloc: Global, spellings: &[&[u8]], size: usize) -> Option<usize>
    requires { 0 < size }
{
    for (place, spelling) in spellings.iter().enumerate() {
        if !are_cut(alloc, spelling, size, &[*spelling]) {
            return Some(place);
        }
    }
    None
}

#[test]
fn each_kind_is_read(rt: HostRuntime) {
    assert!(rt; other_cut(rt.alloc(), &SPELLINGS, 1).is_none());
    assert!(rt; other_cut(rt.alloc(), &SPELLINGS, 3).is_none());
    assert!(rt; other_cut(rt.alloc(), &SPELLINGS, 100).is_none());
}

/// The bytes of messages, one behind the other.
fn joined(alloc: Global, messages: &[&[u8]]) -> Option<Vec<u8>> {
    let mut bytes = Vec::new(alloc);
    for message in messages {
        bytes.extend_from_slice(message).ok()?;
    }
    Some(bytes)
}

/// Whether the session's messages are cut from its bytes in pieces of this size.
fn is_session(alloc: Global, size: usize) -> bool
    requires { 0 < size }
{
    match joined(alloc, &SESSION) {
        Some(bytes) => are_cut(alloc, &bytes, size, &SESSION),
        None => false,
    }
}

#[test]
fn messages_of_libdlt(rt: HostRuntime) {
    assert!(rt; is_session(rt.alloc(), 368));
    assert!(rt; is_session(rt.alloc(), 1));
    assert!(rt; is_session(rt.alloc(), 7));
}
