//! A trace of three pieces, each of whose reads fails in turn.

use dl_memory::{Failing, MemoryFolder, MemorySink};
use dl_outside::Folder;
use dl_trace_why::{FilesWanted, Wanted, account};
use std::alloc::Global;

/// The name of the trace.
const NAME: &str = "w.dlt";

/// A message of 26 bytes behind a storage header.
const MESSAGE: [u8; 42] =
    *b"DLT\x01\0\0\0\0\0\0\0\0ECU1\x3d\0\0\x1aECU1\0\0\0\x07\0\0\0\0\x41\0LOG1TEST";

/// How many messages the trace has: 168,000 bytes.
const MESSAGES: u32 = 4000;

/// What is said of it.
const SAID: &[u8] =
    b"session ECU1 LOG1 7 4000 0.0000 0.0000 by session: none missing between, or a multiple of 256; before: not recorded here, the first counter is 0; behind: not known\napplication LOG1: none missing between, or a multiple of 256; none told\n";

/// The trace, none of whose messages is missing.
fn trace(alloc: Global) -> Option<Vec<u8>> {
    let mut bytes = Vec::new(alloc);
    for number in 0..MESSAGES {
        let mut message = MESSAGE;
        message[17] = (number % 256) as u8;
        bytes.extend_from_slice(&message).ok()?;
    }
    Some(bytes)
}

/// A folder with the trace, of which this call fails.
fn folder(alloc: Global, call: u64) -> Option<Failing<MemoryFolder>> {
    let mut inner = MemoryFolder::make(alloc, 1, 200_000).ok()?;
    let bytes = trace(alloc)?;
    inner.put(NAME, &bytes).ok()?;
    match Vec::from_slice(alloc, &[call]) {
        Ok(calls) => Some(Failing::make(inner, calls)),
        Err(_) => None,
    }
}

/// Whether the account ends so where this call fails: its status, and what it writes and says.
fn ends(alloc: Global, call: u64, wanted: (u8, &[u8], &[u8])) -> Option<bool> {
    let mut folder = folder(alloc, call)?;
    let mut out = MemorySink::make(alloc, 1000);
    let mut err = MemorySink::make(alloc, 1000);
    let asked = Wanted {
        files: FilesWanted::Stream(NAME),
        picture: None,
    };
    let status = account(alloc, asked, &mut folder, &mut out, &mut err);
    Some((status, out.bytes(), err.bytes()) == wanted)
}

#[test]
fn each_read_fails_in_turn(rt: HostRuntime) {
    for call in 1..=4 {
        let fails: (u8, &[u8], &[u8]) = (7, b"", b"dlt_why: read fault\n");
        assert!(rt; ends(rt.alloc(), call, fails) == Some(true));
    }
}

#[test]
fn all_reads_tell_all(rt: HostRuntime) {
    let said: (u8, &[u8], &[u8]) = (0, SAID, b"");
    assert!(rt; ends(rt.alloc(), 5, said) == Some(true));
}
