//! Payloads that are read: each kind of argument in both byte orders, and every refusal; and what doesn't fit into one that is written.

use crate::shown::Shown;
use dl_args::{
    Arg, ArgFault, ArgList, Order, PayloadFull, Width, add_bool, add_text, read_args, sint_fits,
    uint_fits,
};
use dl_bytes::Payload;
use std::alloc::Global;

/// One argument in either byte order, and what it says.
const ORDERS: &[(&[u8], &[u8], &str)] = &[
    (b"\x11\0\0\0\x01", b"\0\0\0\x11\x01", "bool:-,1"),
    (b"\x10\0\x02\0\0", b"\0\x02\0\x10\0", "bool:-,0"),
    (
        b"\x11\x08\0\0\x02\0t\0\x01",
        b"\0\0\x08\x11\0\x02t\0\x01",
        "bool:74,1",
    ),
    (
        b"\x22\0\0\0\xfe\xff",
        b"\0\0\0\x22\xff\xfe",
        "sint16:-,-,-2",
    ),
    (
        b"\x23\x08\0\0\x02\0\x03\0t\0ms\0\0\0\0\x80",
        b"\0\0\x08\x23\0\x02\0\x03t\0ms\0\x80\0\0\0",
        "sint32:74,6d73,-2147483648",
    ),
    (
        b"\x25\0\0\0\xfe\xff\xff\xff\xff\xff\xff\xff\xff\xff\xff\xff\xff\xff\xff\xff",
        b"\0\0\0\x25\xff\xff\xff\xff\xff\xff\xff\xff\xff\xff\xff\xff\xff\xff\xff\xfe",
        "sint128:-,-,-2",
    ),
    (
        b"\x45\0\x01\0\x01\x02\0\0\0\0\0\0\0\0\0\0\0\0\0\0",
        b"\0\x01\0\x45\0\0\0\0\0\0\0\0\0\0\0\0\0\0\x02\x01",
        "uint128:-,-,513",
    ),
    (
        b"\x42\x08\0\0\x01\0\x02\0tms\x01\x02",
        b"\0\0\x08\x42\0\x01\0\x02tms\x02\x01",
        "uint16:74,6d73,513",
    ),
    (
        b"\0\x82\0\0\x03\0hi\0",
        b"\0\0\x82\0\0\x03hi\0",
        "utf8:-,6869",
    ),
    (
        b"\x03\x02\0\0\x02\0hi",
        b"\0\0\x02\x03\0\x02hi",
        "ascii:-,6869",
    ),
    (
        b"\0\x8a\0\0\x01\0\x02\0t\0\0",
        b"\0\0\x8a\0\0\x01\0\x02t\0\0",
        "utf8:74,",
    ),
    (
        b"\0\x04\x02\0\x02\0\x0a\0",
        b"\0\x02\x04\0\0\x02\x0a\0",
        "raw:-,0a00",
    ),
    (
        b"\0\x0c\0\0\x01\0\0\0\x0a",
        b"\0\0\x0c\0\0\x01\0\0\x0a",
        "raw:,0a",
    ),
];

/// Whether a payload has these arguments.
fn says(alloc: Global, payload: &[u8], order: Order, count: u8, wanted: &str) -> bool {
    let mut shown = Shown::of(wanted);
    shown.takes_payload(alloc, payload, order, count) && shown.is_over()
}

/// Whether a payload of one argument has this fault.
fn has_fault(alloc: Global, payload: &[u8], order: Order, fault: ArgFault) -> bool {
    match read_args(alloc, payload, order, 1) {
        Ok(_) => false,
        Err(found) => found == fault,
    }
}

/// Whether a payload that ends before its argument does is short, wherever it ends.
fn is_short(alloc: Global, payload: &[u8], order: Order) -> bool {
    for end in 0..payload.len() {
        if !has_fault(alloc, &payload[..end], order, ArgFault::Short(0)) {
            return false;
        }
    }
    true
}

/// Whether a payload has this argument.
fn is_read(alloc: Global, payload: &[u8], order: Order, wanted: &str) -> bool {
    says(alloc, payload, order, 1, wanted) && is_short(alloc, payload, order)
}

/// What the first of these says that is read otherwise in one of the orders.
fn other<'a>(alloc: Global, rows: &[(&[u8], &[u8], &'a str)]) -> Option<&'a str> {
    for (little, big, wanted) in rows {
        if !is_read(alloc, little, Order::Little, wanted)
            || !is_read(alloc, big, Order::Big, wanted)
        {
            return Some(*wanted);
        }
    }
    None
}

#[test]
fn both_orders(rt: HostRuntime) {
    assert_eq!(rt; other(rt.alloc(), ORDERS), None);
}

/// Arguments one behind the other, as they are written in `tests/rows/arguments.table`.
const ALL: &[u8] =
    b"\x11\0\0\0\x01\x22\0\0\0\xfe\xff\0\x04\0\0\x02\0\x0a\xff\x41\x08\0\0\x02\0\x03\0t\0ms\0\x07\x45\0\0\0\x2c\x01\0\0\0\0\0\0\0\0\0\0\0\0\0\0\0\x82\0\0\x03\0hi\0\x11\x08\0\0\x02\0t\0\0\x21\x08\0\0\x01\0\x01\0\0\0\x80\0\x8a\0\0\x01\0\x02\0t\0\0\0\x0c\0\0\x01\0\x02\0t\0\x0a";

/// What they say.
const SAID: &str =
    "bool:-,1; sint16:-,-,-2; raw:-,0aff; uint8:74,6d73,7; uint128:-,-,300; utf8:-,6869; bool:74,0; sint8:,,-128; utf8:74,; raw:74,0a";

#[test]
fn each_behind_another(rt: HostRuntime) {
    assert!(rt; says(rt.alloc(), ALL, Order::Little, 10, SAID));
}

/// So many unsigned numbers of 8 bits, from 0 on.
fn numbers(alloc: Global, count: u8) -> Option<Vec<u8>> {
    let mut payload = Vec::new(alloc);
    for number in 0..count {
        if payload.extend_from_slice(&[0x41, 0, 0, 0, number]).is_err() {
            return None;
        }
    }
    Some(payload)
}

/// Whether an argument is this unsigned number.
fn is_number(arg: &Arg, number: usize) -> bool {
    matches!(arg, Arg::Uint { value, .. } if *value == number as u128)
}

/// Whether the arguments are so many numbers, from 0 on.
fn are_numbers(args: &ArgList, count: usize) -> bool {
    let args = args.all();
    args.len() == count
        && args
            .iter()
            .enumerate()
            .all(|(place, arg)| is_number(arg, place))
}

/// What comes of 255 numbers of these bytes: whether they are read, or why not.
fn read_numbers(alloc: Global, payload: &[u8]) -> Result<bool, ArgFault> {
    match read_args(alloc, payload, Order::Little, 255) {
        Ok(args) => Ok(are_numbers(&args, 255)),
        Err(fault) => Err(fault),
    }
}

/// The same of 255 numbers of which so many bytes are there.
fn most(alloc: Global, len: usize) -> Result<bool, ArgFault> {
    match numbers(alloc, 255) {
        Some(payload) => read_numbers(alloc, payload.get(..len).unwrap_or(&[])),
        None => Err(ArgFault::OutOfMemory),
    }
}

/// The most arguments that a message can have, read in one call; and where the last of them lacks a byte.
#[test]
fn most_arguments(rt: HostRuntime) {
    assert!(rt; most(rt.alloc(), 1275) == Ok(true));
    assert!(rt; most(rt.alloc(), 1274) == Err(ArgFault::Short(1270)));
}

/// Payloads, and why they have no argument.
const REFUSED: [(&[u8], &str); 4] = [
    (b"\x83\0\0\0", " ! unsupported 0 131"),
    (b"\x11\0\0\0\x02", " ! value 0"),
    (b"\0\x82\0\0\x03\0h", " ! short 0"),
    (b"\0\x02\x01\0\x01\0\0", " ! unsupported 0 66048"),
];

/// The place of the first of these that has another reason, or none.
fn other_refusal(alloc: Global, rows: &[(&[u8], &str)]) -> Option<usize> {
    rows.iter().position(|(payload, wanted)| !says(alloc, payload, Order::Little, 1, wanted))
}

#[test]
fn refused(rt: HostRuntime) {
    assert!(rt; other_refusal(rt.alloc(), &REFUSED).is_none());
}

/// Whether a text of 1383 letters fills a payload, and one of a letter more doesn't fit, and neither does an argument behind it. What doesn't fit changes
/// nothing.
fn fills(payload: &mut Payload, text: &str) -> [bool; 5] {
    [
        add_text(payload, text) == Err(PayloadFull),
        payload.bytes().is_empty(),
        add_text(payload, text.get(1..).unwrap_or("")).is_ok(),
        add_bool(payload, true) == Err(PayloadFull),
        payload.bytes().len() == 1390,
    ]
}

#[test]
fn a_full_payload(rt: HostRuntime) {
    let letters = [b'a'; 1384];
    let mut payload = Payload::new();
    assert!(rt; fills(&mut payload, str::from_utf8(&letters).unwrap_or("")) == [true; 5]);
}

#[test]
fn widths(rt: HostRuntime) {
    assert!(rt; sint_fits(Width::W8, -128));
    assert!(rt; !sint_fits(Width::W8, -129));
    assert!(rt; !uint_fits(Width::W64, 1 << 64));
}
