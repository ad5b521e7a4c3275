//! Why a line is refused.

ghost use Rattle.std.specs.Prelude.{◌≡◌};

use std::alloc::{AllocError, AllocFailed};

/// What is wrong with a script: of its first bad line, the first that applies. The kinds come in this order, but that of
/// several fields at fault the leftmost decides, by the kind of its own type: `Id`, `Level`, `Number`, `Hex` or `Text`.
#[derive(Clone, Copy, Debug, PartialEq, Eq)]
pub enum ScriptKind {
    /// There is no such script. Its line is 0.
    Missing,
    /// The text has more than 16,777,216 bytes. Its line is 0.
    Size,
    /// The line isn't UTF-8.
    NotUtf8,
    /// The first field is no word of a script.
    Word,
    /// There are too many or too few fields, a quoted field is broken or a text not quoted, or an argument or a word
    /// behind `levels` is of no known form.
    Fields,
    /// A field is no id.
    Id,
    /// A field is no level or no severity.
    Level,
    /// A field is no number, or one out of its range.
    Number,
    /// A field isn't pairs of hexadecimal digits, one pair at least.
    Hex,
    /// A text has more than 255 bytes, or that of a claim more than 48.
    Text,
    /// An application or a context stands behind a `user` line, or a context behind a claim on its application.
    Order,
    /// The line names an application, a context, a writer or a client that no earlier line declares.
    Unknown,
    /// The application or the context is declared already, or the client leaves already.
    Twice,
    /// A limit is passed: of applications, contexts with claims, writers, clients, calls, or bytes that a client sends.
    Limit,
    /// The arguments don't fit a log call: they have more than 1390 bytes, or are more than 255.
    Payload,
}

/// Why a line can't be read.
#[derive(Clone, Copy, Debug)]
pub enum LineError {
    /// It is refused.
    Fault(ScriptKind),
    /// There is no memory for what it says.
    OutOfMemory,
}

impl From<ScriptKind> for LineError {
    ghost use Rattle.dl_script_fields.specs.declared.kind.LineError.TheVariants.{Fault};

    ghost from_gives = { λ kind e. e ≡ Fault kind };

    fn from(kind: ScriptKind) -> LineError {
        LineError::Fault(kind)
    }
}

impl From<AllocError> for LineError {
    ghost use Rattle.dl_script_fields.specs.declared.kind.LineError.TheVariants.{OutOfMemory};

    ghost from_gives = { λ _ e. e ≡ OutOfMemory };

    fn from(_error: AllocError) -> LineError {
        LineError::OutOfMemory
    }
}

impl<T: Drop> From<AllocFailed<T>> for LineError {
    ghost use Rattle.dl_script_fields.specs.declared.kind.LineError.TheVariants.{OutOfMemory};

    ghost from_gives = { λ _ e. e ≡ OutOfMemory };

    fn from(_error: AllocFailed<T>) -> LineError {
        LineError::OutOfMemory
    }
}
