//! Why bytes begin with no message.

use dl_headers::{HeaderFault, read_standard};
use dl_message::{Cut, Cutter, MESSAGE_LIMIT};
use std::alloc::Global;

/// Why the bytes begin with no standard header.
fn fault_of(bytes: &[u8]) -> Option<HeaderFault> {
    match read_standard(bytes) {
        Ok(_) => None,
        Err(fault) => Some(fault),
    }
}

/// Bytes, and why they begin with no standard header.
const FAULTS: [(&[u8], HeaderFault); 5] = [
    (&[0x41, 0, 0, 4], HeaderFault::Version(2)),
    (&[0x21, 0, 0, 3], HeaderFault::Length(3)),
    (&[0x3d, 0, 0, 0x19], HeaderFault::Length(25)),
    (&[0x3d, 0, 0, 0x23], HeaderFault::Short(16)),
    (&[0x3d], HeaderFault::Short(4)),
];

/// The place of the first of these with another fault.
fn other_fault(rows: &[(&[u8], HeaderFault)]) -> Option<usize> {
    rows.iter()
        .position(|(bytes, fault)| fault_of(bytes) != Some(*fault))
}

#[test]
fn refusals(rt: HostRuntime) {
    assert!(rt; other_fault(&FAULTS).is_none());
}

/// Whether a cutter takes so many of these bytes, finds this fault then, and takes nothing behind it.
fn finds(cutter: &mut Cutter, bytes: &[u8], taken: usize, fault: HeaderFault) -> bool {
    cutter.feed(bytes) == taken
        && cutter.next() == Cut::Bad(fault)
        && cutter.feed(&[0x20, 0, 0, 4]) == 0
        && cutter.next() == Cut::Bad(fault)
}

/// The same of a new cutter.
fn ends_at(alloc: Global, bytes: &[u8], taken: usize, fault: HeaderFault) -> bool {
    match Cutter::make(alloc, MESSAGE_LIMIT) {
        Ok(mut cutter) => finds(&mut cutter, bytes, taken, fault),
        Err(_) => false,
    }
}

#[test]
fn two_serial_headers(rt: HostRuntime) {
    assert!(rt; ends_at(rt.alloc(), b"DLS\x01DLS\x01", 8, HeaderFault::Version(2)));
}

#[test]
fn too_long_a_message(rt: HostRuntime) {
    assert!(rt; ends_at(rt.alloc(), &[0x20, 0, 8, 1], 4, HeaderFault::Length(2049)));
}
