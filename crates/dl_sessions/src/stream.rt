//! A stream of messages as a file holds it, cut into messages.

ghost use Rattle.std.specs.Prelude.{◌≡◌, drop, nat_eq, Some};
ghost use Rattle.std.specs.List.{starts_with};
ghost use Rattle.dl_sessions.specs.Stream.{before_len, end_of, first_place, rest_behind, storage_pattern, stored_ecu, told_at};

use crate::session::Told;
use crate::told::told_of;
use dl_bytes::Id;
use dl_headers::{HeaderFault, read_front};

/// What begins a storage header: `DLT` and 1. Behind it stand the time of day, and the ECU.
const STORAGE: [u8; 4] = [0x44, 0x4c, 0x54, 0x01];

/// What a serial header is: `DLS` and 1.
const SERIAL: [u8; 4] = [0x44, 0x4c, 0x53, 0x01];

/// How a stream ends.
#[derive(Clone, Copy, PartialEq, Eq)]
pub enum End {
    /// After a whole message, or without one.
    Whole,
    /// Within a message.
    Within,
    /// With bytes that no message begins with.
    Bad,
}

/// Where a message stands at the front of a stream.
#[derive(Clone, Copy)]
pub struct Place {
    /// The ECU that its storage header tells; else zero.
    pub ecu: Id,
    /// The bytes before it: of a storage header or a serial header, or none.
    pub before: usize,
    /// LEN: its bytes.
    pub len: u16,
}

/// Whether a storage header begins these bytes.
fn is_stored(bytes: &[u8]) -> bool
    ensures { result ≡ starts_with nat_eq bytes.now storage_pattern }
{
    bytes.starts_with(&STORAGE)
}

/// The bytes of what stands before a message.
fn before_len(bytes: &[u8]) -> usize
    ensures { result ≡ before_len bytes.now }
{
    if is_stored(bytes) {
        16
    } else if bytes.starts_with(&SERIAL) {
        4
    } else {
        0
    }
}

/// What stands behind the first bytes; nothing, where there are no more.
pub fn behind(bytes: &[u8], count: usize) -> &[u8]
    ensures { result.now ≡ drop count bytes.now }
{
    if bytes.len() < count {
        &[]
    } else {
        &bytes[count..]
    }
}

/// The ECU that a storage header tells.
fn stored_ecu(bytes: &[u8]) -> Id
    ensures { result ≡ stored_ecu bytes.now }
{
    if is_stored(bytes) && bytes.len() >= 16 {
        Id::from_bytes([bytes[12], bytes[13], bytes[14], bytes[15]])
    } else {
        Id::from_bytes([0, 0, 0, 0])
    }
}

/// Where the message stands that begins these bytes, if it is whole.
pub fn first_place(bytes: &[u8]) -> Option<Place>
    ensures { result ≡ first_place bytes.now }
{
    let before = before_len(bytes);
    let message = behind(bytes, before);
    let Ok(front) = read_front(message) else {
        return None;
    };
    if message.len() < front.len as usize {
        return None;
    }
    Some(Place {
        ecu: stored_ecu(bytes),
        before,
        len: front.len,
    })
}

/// How a stream ends that has this rest.
pub fn end_of(rest: &[u8]) -> End
    ensures { result ≡ end_of rest.now }
{
    if rest.is_empty() {
        return End::Whole;
    }
    match read_front(behind(rest, before_len(rest))) {
        Err(HeaderFault::Version(_)) => End::Bad,
        Err(HeaderFault::Length(_)) => End::Bad,
        Err(HeaderFault::Short(_)) => End::Within,
        Ok(_) => End::Within,
    }
}

/// What the message tells that stands at the front of these bytes.
pub fn told_first(bytes: &[u8], place: &Place) -> Told
    requires { first_place bytes.now ≡ Some place.now }
    ensures { result ≡ told_at place.now bytes.now }
{
    let message = behind(bytes, place.before);
    told_of(place.ecu, &message[..place.len as usize])
}

/// What stands behind the message at the front of these bytes.
pub fn behind_first<'a>(bytes: &'a [u8], place: &Place) -> &'a [u8]
    ensures { result.now ≡ rest_behind place.now bytes.now }
{
    behind(behind(bytes, place.before), place.len as usize)
}
