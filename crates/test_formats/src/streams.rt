//! Captured streams, cut and read: what they say is to the letter what an independent decoder printed.

ghost use Rattle.std.specs.Prelude.{◌≡◌, length};
ghost use Rattle.dl_bytes.specs.Htyp.{len_of};

use crate::captures::{CAPTURES, Capture};
use crate::shown::Shown;
use dl_args::Order;
use dl_bytes::{Htyp, Id};
use dl_headers::{Extended, Standard};
use dl_message::{Cut, Cutter, MESSAGE_LIMIT, Parts, read_message};
use std::alloc::Global;

/// How far a stream was read: how many messages came, where the next one begins, and whether each line was that of its message.
#[derive(Clone, Copy)]
struct Place {
    count: u32,
    at: usize,
    is_well: bool,
}

/// Where a stream begins.
const BEGIN: Place = Place {
    count: 0,
    at: 0,
    is_well: true,
};

/// Feeds a cutter a piece of this size, and answers the bytes from the first one on that it didn't take.
fn fed<'a>(cutter: &mut Cutter, stream: &'a [u8], size: usize) -> &'a [u8] {
    let taken = cutter.feed(stream.get(..size).unwrap_or(stream));
    stream.get(taken..).unwrap_or(&[])
}

/// Takes the line of the message that a cutter has, where it has one.
fn take_next(alloc: Global, cutter: &mut Cutter, shown: &mut Shown, place: Place) -> Place {
    match cutter.next() {
        Cut::Message => {
            let message = cutter.message();
            Place {
                count: place.count.saturating_add(1),
                at: place.at.saturating_add(message.len()),
                is_well: place.is_well && takes_line(alloc, shown, place, message),
            }
        }
        Cut::NeedMore => place,
        Cut::Bad(_) => Place {
            is_well: false,
            ..place
        },
    }
}

/// Takes the lines of a stream that a cutter is fed in pieces of this size, each as far as there is room.
fn take_all(
    alloc: Global,
    cutter: &mut Cutter,
    stream: &[u8],
    size: usize,
    shown: &mut Shown,
) -> Place {
    let mut rest = stream;
    let mut place = BEGIN;
    for _ in stream {
        rest = fed(cutter, rest, size);
        place = take_next(alloc, cutter, shown, place);
    }
    place
}

/// Whether a stream says so in pieces of this size. The last line says that nothing is left.
fn is_decoded(alloc: Global, stream: &[u8], size: usize, decoded: &str) -> bool {
    let mut shown = Shown::of(decoded);
    match Cutter::make(alloc, MESSAGE_LIMIT) {
        Ok(mut cutter) => {
            let place = take_all(alloc, &mut cutter, stream, size, &mut shown);
            place.is_well && place.at == stream.len() && shown.takes(b"end\n") && shown.is_over()
        }
        Err(_) => false,
    }
}

/// Whether a captured stream says in pieces of several sizes what was decoded of it.
fn is_captured(alloc: Global, capture: &Capture) -> bool {
    match hex::decode(alloc, capture.stream) {
        Ok(stream) => {
            is_decoded(alloc, &stream, stream.len(), capture.decoded)
                && is_decoded(alloc, &stream, 1, capture.decoded)
                && is_decoded(alloc, &stream, 7, capture.decoded)
        }
        Err(_) => false,
    }
}

/// The place of the first of these that says something else.
fn other(alloc: Global, captures: &[Capture]) -> Option<usize> {
    captures
        .iter()
        .position(|capture| !is_captured(alloc, capture))
}

#[test]
fn streams_in_any_pieces(rt: HostRuntime) {
    assert!(rt; other(rt.alloc(), &CAPTURES).is_none());
}

/// Takes the line of a message: its number, its place, the fields of its headers, and the arguments of a verbose log message.
fn takes_line(alloc: Global, shown: &mut Shown, place: Place, message: &[u8]) -> bool
    requires { length message.now ≡ len_of message.now }
{
    let front = shown.takes_number(u128::from(place.count))
        && shown.takes(b" ")
        && shown.takes_number(place.at as u128);
    match read_message(message) {
        Ok(parts) => front && takes_parts(alloc, shown, &parts, message) && shown.takes(b"\n"),
        Err(_) => false,
    }
}

/// Takes the fields of a message's headers, and its arguments.
fn takes_parts(alloc: Global, shown: &mut Shown, parts: &Parts, message: &[u8]) -> bool {
    let (Some(head), Some(payload)) = (&parts.extended, message.get(parts.start..)) else {
        return false;
    };
    let is_verbose_log = head.msin & 0x0f == 0x01;
    takes_standard(shown, &parts.standard)
        && takes_extended(shown, head)
        && (!is_verbose_log
            || shown.takes(b" | ")
                && shown.takes_payload(alloc, payload, order_of(parts.standard.htyp), head.noar))
}

/// Takes the fields of a standard header.
fn takes_standard(shown: &mut Shown, standard: &Standard) -> bool {
    let Some(ecu) = standard.ecu else {
        return false;
    };
    shown.takes(b" ")
        && shown.takes_upper(standard.htyp)
        && shown.takes(b" ")
        && shown.takes_number(u128::from(standard.mcnt))
        && shown.takes(b" ")
        && shown.takes_number(u128::from(standard.len))
        && takes_id(shown, ecu)
        && shown.takes(b" ")
        && shown.takes_number_or_none(standard.session)
        && shown.takes(b" ")
        && shown.takes_number_or_none(standard.ticks)
}

/// Takes the fields of an extended header.
fn takes_extended(shown: &mut Shown, head: &Extended) -> bool {
    shown.takes(b" ")
        && shown.takes_upper(head.msin)
        && shown.takes(b" ")
        && shown.takes_number(u128::from(head.noar))
        && takes_id(shown, head.apid)
        && takes_id(shown, head.ctid)
}

/// Takes an id behind a blank.
fn takes_id(shown: &mut Shown, id: Id) -> bool {
    shown.takes(b" ") && shown.takes_id(id.bytes())
}

fn order_of(htyp: u8) -> Order {
    if Htyp(htyp).has_big_numbers() {
        Order::Big
    } else {
        Order::Little
    }
}
