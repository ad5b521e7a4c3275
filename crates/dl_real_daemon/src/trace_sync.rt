//! Brings trace files to the disk, so that they survive a power cut.

use dl_bytes::TraceFile;
use std::alloc::Global;
use std::fs::{File, Files, OpenFile};
use std::io;
use std::str::from_utf8;

/// Syncs the trace files each so many seconds: the newest one, and those that were begun since the last time.
#[derive(Drop)]
pub struct TraceSync {
    every: u32,
    // when the last time was, in seconds since the beginning of 1970
    last: Option<u32>,
    // the newest file then
    newest: Vec<u8>,
}

/// Brings a file to the disk, with what it holds by now.
fn sync_file<R: Files>(rt: &R, name: &[u8]) -> io::Result<()> {
    match from_utf8(name) {
        Ok(name) => File::open(rt, name)?.sync_all(),
        Err(_) => Ok(()),
    }
}

impl TraceSync {
    /// Each so many seconds.
    pub fn each(alloc: Global, every: u32) -> TraceSync {
        TraceSync {
            every,
            last: None,
            newest: Vec::new(alloc),
        }
    }

    /// Whether so many seconds have passed since the last time.
    fn is_due(&self, now: u32) -> bool {
        match self.last {
            Some(last) => now.wrapping_sub(last) >= self.every,
            None => true,
        }
    }

    /// The files that may have something that is not on the disk: the newest one of the last time, and those behind it.
    fn stale<'a>(&self, files: &'a [TraceFile]) -> &'a [TraceFile] {
        let newest = self.newest.as_slice();
        match files.iter().position(|file| file.name.all() == newest) {
            Some(at) => files.get(at..).unwrap_or(files),
            None => files,
        }
    }

    /// Brings the files to the disk, where that is due. A file that can't be opened any more is passed over.
    pub fn turn<R: Files>(&mut self, rt: &R, files: &[TraceFile], now: u32) {
        if !self.is_due(now) {
            return;
        }
        self.last = Some(now);
        let Some(newest) = files.last() else {
            return;
        };
        for file in self.stale(files) {
            let _ = sync_file(rt, file.name.all());
        }
        self.newest.clear();
        let _ = self.newest.extend_from_slice(newest.name.all());
    }
}
