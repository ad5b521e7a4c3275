//! Where status lines go: to standard output, and where one is named into a file that has the last one alone.

ghost use Rattle.std.specs.Prelude.{◌≡◌, None};

use dl_outside::{Sink, Took};
use dl_real::has_room;
use std::alloc::Global;
use std::fs;
use std::fs::Files;
use std::io::Eprint;

/// The number of the descriptor of standard error.
const STANDARD_ERROR: i32 = 2;

/// What the name of the file has behind it while its line is written.
const FRESH: &str = ".new";

/// A file that has the last status line: each is written beside it and then put in its place, so that who reads it finds a whole line.
#[derive(Drop)]
pub struct StatusFile {
    name: String,
    fresh: String,
    // whether the last line could not be put there, which was said
    has_failed: bool,
}

impl StatusFile {
    /// A file of this name; none where there is no memory for it.
    pub fn named(alloc: Global, name: &str) -> Option<StatusFile> {
        Some(StatusFile {
            name: format!(in alloc; "{name}").ok()?,
            fresh: format!(in alloc; "{name}{FRESH}").ok()?,
            has_failed: false,
        })
    }

    /// Puts a line in the place of the one before. Where that fails, it is said on standard error, and not once more while it goes on.
    fn put<R: Files + Eprint + AllocGlobal>(&mut self, rt: &R, line: &[u8]) {
        let fresh = self.fresh.as_str();
        let put = match fs::write(rt, fresh, line) {
            Ok(()) => fs::rename(rt, fresh, self.name.as_str()),
            Err(error) => Err(error),
        };
        match put {
            Ok(()) => self.has_failed = false,
            Err(error) => {
                if !self.has_failed && has_room(STANDARD_ERROR) {
                    let name = self.name.as_str();
                    let _ = eprintln!(rt; "dlt_daemon: {name}: {error}");
                }
                self.has_failed = true;
            }
        }
    }
}

/// Where status lines go. It tells no content.
#[derive(Drop)]
pub struct StatusOutput<R, O> {
    rt: R,
    out: O,
    file: Option<StatusFile>,
    // whether the rest of a line may follow
    is_within: bool,
}

impl<R, O> StatusOutput<R, O> {
    /// This output, and this file, where there is one.
    pub fn over(rt: R, out: O, file: Option<StatusFile>) -> StatusOutput<R, O> {
        StatusOutput {
            rt,
            out,
            file,
            is_within: false,
        }
    }
}

impl<R: Files + Eprint + AllocGlobal, O: Sink> Sink for StatusOutput<R, O> {
    ghost told = { λ s. record { held = None; faults = (O.told s.out).faults } };

    fn write(&mut self, piece: &[u8]) -> Took {
        if let Some(file) = &mut self.file {
            if !self.is_within {
                file.put(&self.rt, piece);
            }
        }
        let took = self.out.write(piece);
        self.is_within = match took {
            Took::Bytes(n) => n < piece.len(),
            Took::Failed => false,
        };
        took
    }

    fn faults(&self) -> u64 {
        self.out.faults()
    }
}
