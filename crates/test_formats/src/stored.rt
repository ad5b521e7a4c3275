//! Stored configurations: what they say. Lines at fault, and what is written, are rows of `tests/rows`.

use dl_bytes::{Stored, StoredLevel};
use dl_conf::read_stored;
use std::alloc::Global;

/// The ids of a context, and its level.
type Own = ([u8; 4], [u8; 4], u8);

/// A text, and the default level and the own levels that it says.
type Row = (&'static [u8], Option<u8>, &'static [Own]);

/// The texts of a default level and own levels, and what they are read as.
const STORED: [Row; 8] = [
    (b"", None, &[]),
    (b"::4\nLOG1:FULL:6\n", Some(4), &[(*b"LOG1", *b"FULL", 6)]),
    (b"\r\n\n::0\r\n::6", Some(6), &[]),
    // any byte may be written with digits, which are of either case
    (b"%41%4c:%3a%3A%25:0", None, &[(*b"AL\0\0", *b"::%\0", 0)]),
    (b"%00:A%00:1", None, &[([0; 4], *b"A\0\0\0", 1)]),
    // the last of two lines with the same ids holds
    (
        b"A:B:1\nA:C:2\n%41:B:3\n",
        None,
        &[(*b"A\0\0\0", *b"C\0\0\0", 2), (*b"A\0\0\0", *b"B\0\0\0", 3)],
    ),
    (b"#:~:5", None, &[(*b"#\0\0\0", *b"~\0\0\0", 5)]),
    (
        b"%FF%fe%01%7f:%20:2\n",
        None,
        &[(*b"\xff\xfe\x01\x7f", *b" \0\0\0", 2)],
    ),
];

/// Whether an own level is this one.
fn is_own(found: &StoredLevel, own: &Own) -> bool {
    found.apid.bytes() == own.0 && found.ctid.bytes() == own.1 && found.level.number() == own.2
}

/// Whether all own levels are these.
fn are_own(found: &[StoredLevel], own: &[Own]) -> bool {
    found.len() == own.len() && found.iter().zip(own).all(|(found, own)| is_own(found, own))
}

/// The default level by its number.
fn level_of(stored: &Stored) -> Option<u8> {
    match stored.level {
        Some(level) => Some(level.number()),
        None => None,
    }
}

/// Whether the text says this.
fn says(alloc: Global, text: &[u8], level: Option<u8>, own: &[Own]) -> bool {
    match read_stored(alloc, text) {
        Ok(stored) => level_of(&stored) == level && are_own(stored.own.all(), own),
        Err(_) => false,
    }
}

/// The place of the first of these that says something else.
fn other(alloc: Global, rows: &[Row]) -> Option<usize> {
    rows.iter()
        .position(|(text, level, own)| !says(alloc, text, *level, own))
}

#[test]
fn stored_texts(rt: HostRuntime) {
    assert!(rt; other(rt.alloc(), &STORED).is_none());
}
