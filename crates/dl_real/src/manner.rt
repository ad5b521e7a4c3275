//! How a program uses its files: where they may lie, and how much of one is read.

use crate::paths::{is_inside, is_trace_file};
use crate::whole::read_whole;
use std::alloc::Global;
use std::fs::{File, Files};
use std::io;
use std::io::{Error, ErrorKind, Read};

/// How many bytes of a text are read at most: one more than a reader of texts takes, so that it refuses a longer one.
const TEXT_MOST: u64 = 16_777_217;

/// What a picture begins with.
const PICTURE_FRONT: &[u8] = b"<svg";

/// How a program uses its files.
#[derive(Clone, Copy)]
pub enum Manner {
    /// It reads texts, and writes below its folder.
    Texts,
    /// It reads files of any size, and puts pictures where it is told to.
    Pictures,
    /// It has this name and goes on for long.
    Daemon(&'static str),
}

impl Manner {
    /// Whether it goes on for long.
    pub fn is_daemon(self) -> bool {
        match self {
            Manner::Daemon(_) => true,
            Manner::Texts | Manner::Pictures => false,
        }
    }
}

/// The name, where this may be written: below the folder, a trace file anywhere, and a picture anywhere.
pub fn writable(manner: Manner, name: &str) -> io::Result<&str> {
    let anywhere = match manner {
        Manner::Pictures => !name.is_empty(),
        Manner::Texts | Manner::Daemon(_) => false,
    };
    if anywhere || is_inside(name) || is_trace_file(name) {
        Ok(name)
    } else {
        Err(Error::from(ErrorKind::InvalidInput))
    }
}

/// Whether a file that stands may be replaced: a picture is put in the place of a picture or of an empty file alone.
pub fn replaces<R: Files>(rt: &R, manner: Manner, name: &str) -> io::Result<bool> {
    match manner {
        Manner::Texts | Manner::Daemon(_) => Ok(true),
        Manner::Pictures => {
            let mut file = File::open(rt, name)?;
            let mut front = [0; 4];
            let n = file.read(&mut front)?;
            Ok(n == 0 || &front[..n] == PICTURE_FRONT)
        }
    }
}

/// The bytes of a file; of a text no more than `TEXT_MOST`.
pub fn read_of<F: Read + Drop>(alloc: Global, manner: Manner, file: F) -> io::Result<Vec<u8>> {
    let most = match manner {
        Manner::Pictures => u64::MAX,
        Manner::Texts | Manner::Daemon(_) => TEXT_MOST,
    };
    let mut file = file.take(most);
    read_whole(alloc, &mut file)
}
