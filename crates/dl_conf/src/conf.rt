//! `dlt.conf` as a whole: the configuration that it says, or its first fault.

ghost use Rattle.std.specs.Prelude.{◌≡◌};
ghost use Rattle.dl_conf.specs.Conf.{defaults};
ghost use Rattle.dl_conf.specs.Outcome.{values_of, ReadsConf};

use crate::reading::{read_lines, without_return};
use dl_bytes::{Bytes, Conf, Id, Level, Severity};
use dl_text::SIZE_LIMIT;
use std::alloc::Global;

/// What is wrong with a line, or with the whole text.
#[derive(Clone, Copy, Debug, PartialEq, Eq)]
pub enum ConfKind {
    /// There is no `=`, or nothing behind it.
    NoValue,
    /// The value isn't 1 to 10 decimal digits.
    NotNumber,
    /// The number is out of the key's range.
    OutOfRange,
    /// The text is too long, or has a byte that it may not have.
    BadText,
    /// All trace files together may be smaller than two of them: the line is the last that sets either size.
    Sizes,
    /// The text has more than 16,777,216 bytes: the line is 0.
    Size,
}

/// Why a configuration could not be read.
#[derive(Clone, Copy, Debug, PartialEq, Eq)]
pub enum ConfError {
    /// The text isn't of the form.
    Fault {
        /// The number of the line at fault, counted from 1.
        line: u32,
        /// What is wrong with it.
        kind: ConfKind,
    },
    /// There is no memory for the configuration, whose text is of the form.
    OutOfMemory,
}

/// The configuration without a file.
pub fn default_conf(alloc: Global) -> Conf
    ensures { values_of result ≡ defaults }
{
    Conf {
        ecu: Id::from_bytes(*b"ECU1"),
        level: Level::from(Severity::Info),
        buffer: 10_000_000,
        directory: Bytes::over(Vec::new(alloc)),
        file_size: 1_000_000,
        max_size: 4_000_000,
        injection: true,
    }
}

/// The configuration that a text says, as the file `dlt.conf` has it: lines `KEY = VALUE`. Keys that this daemon has no
/// use for are passed over; of a key that stands several times the last line holds, and each is checked.
pub fn read_conf(alloc: Global, bytes: &[u8]) -> Result<Conf, ConfError>
    ensures { ReadsConf bytes.now result }
{
    if bytes.len() > SIZE_LIMIT {
        let (line, kind) = (0, ConfKind::Size);
        return Err(ConfError::Fault { line, kind });
    }
    let draft = match read_lines(without_return(bytes)) {
        Ok(draft) => draft,
        Err((line, kind)) => return Err(ConfError::Fault { line, kind }),
    };
    if draft.max_size < 2 * draft.file_size {
        let (line, kind) = (draft.sizes_line, ConfKind::Sizes);
        return Err(ConfError::Fault { line, kind });
    }
    let Ok(directory) = Vec::from_slice(alloc, draft.directory) else {
        return Err(ConfError::OutOfMemory);
    };
    Ok(Conf {
        ecu: draft.ecu,
        level: draft.level,
        buffer: draft.buffer,
        directory: Bytes::over(directory),
        file_size: draft.file_size,
        max_size: draft.max_size,
        injection: draft.injection,
    })
}
