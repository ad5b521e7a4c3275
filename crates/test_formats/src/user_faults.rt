//! Why bytes are no user message, and how long one may be.

use crate::users::{are_cut, written};
use dl_bytes::{Bytes, Id, UserMsg};
use dl_headers::HeaderFault;
use dl_user::{UserCut, UserCutter, UserFault};
use std::alloc::Global;

/// Each fault with the fewest bytes that show it.
const FAULTS: [(&[u8], UserFault); 15] = [
    (b"DUH\x02", UserFault::Marker),
    (b"\0\0\0\0", UserFault::Marker),
    (b"DUH\x01\0\0\0\0", UserFault::Kind(0)),
    (b"DUH\x01\x09\0\0\0", UserFault::Kind(9)),
    (
        b"DUH\x01\x01\0\0\0\x40\0\0\x04",
        UserFault::Inner(HeaderFault::Version(2)),
    ),
    (
        b"DUH\x01\x01\0\0\0\x20\0\0\x03",
        UserFault::Inner(HeaderFault::Length(3)),
    ),
    (
        b"DUH\x01\x01\0\0\0\x3d\0\0\x19",
        UserFault::Inner(HeaderFault::Length(25)),
    ),
    (b"DUH\x01\x01\0\0\0\x20\0\x07\xc1", UserFault::TooLong(1985)),
    (
        b"DUH\x01\x02\0\0\0SOCK\x01\0\0\0\0\x01\0\0",
        UserFault::TooLong(256),
    ),
    (
        b"DUH\x01\x04\0\0\0SOCKTEST\x02\0\0\0\x06\xff\x01\0\0\0\0\x01\0\0",
        UserFault::TooLong(256),
    ),
    (
        b"DUH\x01\x04\0\0\0SOCKTEST\x02\0\0\0\x07\xff\x01\0\0\0\0\x01\0\0",
        UserFault::Level(7),
    ),
    (
        b"DUH\x01\x04\0\0\0SOCKTEST\x02\0\0\0\xfd\xff\x01\0\0\0\0\0\0\0",
        UserFault::Level(-3),
    ),
    (b"DUH\x01\x06\0\0\0\x07\xff\0\0\0\0", UserFault::Level(7)),
    (b"DUH\x01\x06\0\0\0\xff\xff\0\0\0\0", UserFault::Level(-1)),
    (
        b"DUH\x01\x07\0\0\0\x02\0\0\0\0\x10\0\0\x6f\x05\0\0",
        UserFault::TooLong(1391),
    ),
];

/// Whether a cutter wants more bytes, and takes one.
fn takes(cutter: &mut UserCutter, byte: u8) -> bool {
    matches!(cutter.next(), UserCut::NeedMore) && cutter.feed(&[byte]) == 1
}

/// Whether a cutter wants more until it has all of these bytes.
fn takes_all(cutter: &mut UserCutter, bytes: &[u8]) -> bool {
    for byte in bytes {
        if !takes(cutter, *byte) {
            return false;
        }
    }
    true
}

/// Whether a cutter finds this fault, and takes nothing more.
fn finds(cutter: &mut UserCutter, fault: UserFault) -> bool {
    matches!(cutter.next(), UserCut::Bad(found) if found == fault) && cutter.feed(b"DUH\x01") == 0
}

/// Whether a cutter wants more until it has all of these bytes, finds this fault then, and keeps to it.
fn shows(cutter: &mut UserCutter, bytes: &[u8], fault: UserFault) -> bool {
    takes_all(cutter, bytes) && finds(cutter, fault) && finds(cutter, fault)
}

/// Whether these bytes, and no fewer, have this fault. A fault stays.
fn has_fault(alloc: Global, bytes: &[u8], fault: UserFault) -> bool {
    match UserCutter::make(alloc) {
        Ok(mut cutter) => shows(&mut cutter, bytes, fault),
        Err(_) => false,
    }
}

/// The place of the first of these that has another fault, or has it elsewhere.
fn other(alloc: Global, rows: &[(&[u8], UserFault)]) -> Option<usize> {
    for (place, (bytes, fault)) in rows.iter().enumerate() {
        if !has_fault(alloc, bytes, *fault) {
            return Some(place);
        }
    }
    None
}

#[test]
fn faults(rt: HostRuntime) {
    assert!(rt; other(rt.alloc(), &FAULTS).is_none());
}

/// Writes a message's header into the first of its bytes.
fn head(bytes: &mut [u8]) {
    let count = bytes.len();
    if let [first, _, high, low, ..] = bytes {
        *first = 0x20;
        *high = (count >> 8 & 0xff) as u8;
        *low = (count & 0xff) as u8;
    }
}

/// So many bytes, the first of which are a message's header.
fn letters(alloc: Global, count: usize) -> Option<Bytes> {
    let mut bytes = Vec::from_elem(alloc, 0, count).ok()?;
    head(&mut bytes);
    Some(Bytes::over(bytes))
}

/// The message of an application with a text of so many bytes.
fn app(alloc: Global, count: usize) -> Option<UserMsg> {
    Some(UserMsg::RegisterApp {
        apid: Id::from_bytes(*b"SOCK"),
        pid: 1,
        text: letters(alloc, count)?,
    })
}

/// An injection of so many bytes.
fn injection(alloc: Global, count: usize) -> Option<UserMsg> {
    Some(UserMsg::Injection {
        position: 0,
        service: 0xfff,
        body: letters(alloc, count)?,
    })
}

/// A log message of so many bytes.
fn log(alloc: Global, count: usize) -> Option<UserMsg> {
    Some(UserMsg::Log(letters(alloc, count)?))
}

/// Whether these bytes are so many, and are cut as they are.
fn is_cut(alloc: Global, bytes: &[u8], length: usize) -> bool {
    bytes.len() == length && are_cut(alloc, bytes, 1000, &[bytes])
}

/// Whether a message is written in so many bytes, and is cut from them.
fn has_length(alloc: Global, msg: Option<UserMsg>, length: usize) -> bool {
    match msg {
        Some(msg) => match written(alloc, &msg) {
            Some(bytes) => is_cut(alloc, bytes.all(), length),
            None => false,
        },
        None => false,
    }
}

/// Whether there is a message that is too long.
fn is_unfit(msg: Option<UserMsg>) -> bool {
    match msg {
        Some(msg) => !msg.is_fit(),
        None => false,
    }
}

#[test]
fn longest_text(rt: HostRuntime) {
    assert!(rt; has_length(rt.alloc(), app(rt.alloc(), 255), 275));
    assert!(rt; is_unfit(app(rt.alloc(), 256)));
}

#[test]
fn longest_injection(rt: HostRuntime) {
    assert!(rt; has_length(rt.alloc(), injection(rt.alloc(), 1390), 1410));
    assert!(rt; is_unfit(injection(rt.alloc(), 1391)));
}

#[test]
fn longest_message(rt: HostRuntime) {
    assert!(rt; has_length(rt.alloc(), log(rt.alloc(), 1984), 1992));
    assert!(rt; is_unfit(log(rt.alloc(), 1985)));
}
