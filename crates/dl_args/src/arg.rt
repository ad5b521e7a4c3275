//! The arguments of a log message, and why they can't be written or read.

ghost use Rattle.std.specs.Prelude.{◌≡◌};
ghost use Rattle.dl_args.specs.declared.arg.ArgFault.TheVariants.{OutOfMemory};

use crate::width::Width;
use dl_bytes::{Bytes, OutOfMemory, Sequence};
use std::alloc::AllocFailed;

/// An argument in verbose mode. A name, a unit and a text stand without their closing zero byte, and needn't be UTF-8.
#[derive(Drop)]
pub enum Arg {
    /// A truth value.
    Bool {
        /// The name, where VARI of the type info says that there is one.
        name: Option<Bytes>,
        /// The value.
        value: bool,
    },
    /// A signed number. Name and unit come together.
    Sint {
        /// The name, where VARI of the type info says that there is one.
        name: Option<Bytes>,
        /// The unit, such as `ms`, where there is a name.
        unit: Option<Bytes>,
        /// How many bits it has in the payload.
        width: Width,
        /// The value.
        value: i128,
    },
    /// An unsigned number. Name and unit come together.
    Uint {
        /// The name, where VARI of the type info says that there is one.
        name: Option<Bytes>,
        /// The unit, such as `ms`, where there is a name.
        unit: Option<Bytes>,
        /// How many bits it has in the payload.
        width: Width,
        /// The value.
        value: u128,
    },
    /// A text.
    Text {
        /// The name, where VARI of the type info says that there is one.
        name: Option<Bytes>,
        /// The text.
        bytes: Bytes,
        /// Whether SCOD of the type info says UTF-8, or else ASCII. It isn't checked.
        utf8: bool,
    },
    /// Bytes of any meaning.
    Raw {
        /// The name, where VARI of the type info says that there is one.
        name: Option<Bytes>,
        /// The bytes.
        bytes: Bytes,
    },
}

/// Arguments in the order of the payload. Contracts see a list.
pub type ArgList = Sequence<Arg>;

/// The argument would pass the 1390 bytes or the 255 arguments of a payload.
#[derive(Clone, Copy, Debug, PartialEq, Eq)]
pub struct PayloadFull;

/// Why arguments can't be read: the first one that can't be, by the place in the payload where it begins.
#[derive(Clone, Copy, Debug, PartialEq, Eq)]
pub enum ArgFault {
    /// It passes the end of the payload.
    Short(usize),
    /// Its type info, the second number, says no kind that is read here: a float, an array or a structure, say, or two
    /// kinds at once.
    Unsupported(usize, u32),
    /// It is a truth value whose byte is neither 0 nor 1.
    Value(usize),
    /// Every argument can be read, and there was no memory for a copy of them.
    OutOfMemory,
}

impl From<OutOfMemory> for ArgFault {
    ghost from_gives = { λ _ e. e ≡ OutOfMemory };

    fn from(_e: OutOfMemory) -> ArgFault {
        ArgFault::OutOfMemory
    }
}

impl<T: Drop> From<AllocFailed<T>> for ArgFault {
    ghost from_gives = { λ _ e. e ≡ OutOfMemory };

    fn from(_e: AllocFailed<T>) -> ArgFault {
        ArgFault::OutOfMemory
    }
}
