//! Why a script is refused.

ghost use Rattle.std.specs.Prelude.{◌≡◌};
ghost use Rattle.dl_script.specs.Script.{error_at};

use dl_script_fields::{LineError, ScriptKind};
use std::alloc::{AllocError, AllocFailed};

/// Why a script can't be read.
#[derive(Clone, Copy, Debug, PartialEq, Eq)]
pub enum ScriptError {
    /// It is refused.
    Fault {
        /// The first bad line, counted from 1, ignored lines included; 0 for the whole text.
        line: u32,
        /// What is wrong with it.
        kind: ScriptKind,
    },
    /// There is no memory for its lines.
    OutOfMemory,
}

impl ScriptError {
    /// The same of a script, at this line.
    pub fn at(line: u32, error: LineError) -> ScriptError
        ensures { result ≡ error_at line error }
    {
        match error {
            LineError::Fault(kind) => ScriptError::Fault { line, kind },
            LineError::OutOfMemory => ScriptError::OutOfMemory,
        }
    }
}

impl From<AllocError> for ScriptError {
    ghost use Rattle.dl_script.specs.declared.error.ScriptError.TheVariants.{OutOfMemory};

    ghost from_gives = { λ _ e. e ≡ OutOfMemory };

    fn from(_error: AllocError) -> ScriptError {
        ScriptError::OutOfMemory
    }
}

impl<T: Drop> From<AllocFailed<T>> for ScriptError {
    ghost use Rattle.dl_script.specs.declared.error.ScriptError.TheVariants.{OutOfMemory};

    ghost from_gives = { λ _ e. e ≡ OutOfMemory };

    fn from(_error: AllocFailed<T>) -> ScriptError {
        ScriptError::OutOfMemory
    }
}
