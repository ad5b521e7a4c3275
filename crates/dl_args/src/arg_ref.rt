//! An argument whose bytes still stand in the payload, and its copy.

ghost use Rattle.std.specs.Prelude.{◌≡◌, IfOk};
ghost use Rattle.dl_args.specs.Borrowed.{name_in, arg_in};

use crate::arg::Arg;
use crate::width::Width;
use dl_bytes::{Bytes, OutOfMemory, Sequence};
use std::alloc::Global;

/// An argument as [`Arg`] has it, whose name, unit and bytes still belong to the payload.
#[derive(Clone, Copy)]
pub enum ArgRef<'a> {
    /// A truth value.
    Bool {
        /// The name, where there is one.
        name: Option<&'a [u8]>,
        /// The value.
        value: bool,
    },
    /// A signed number. Name and unit come together.
    Sint {
        /// The name, where there is one.
        name: Option<&'a [u8]>,
        /// The unit, where there is a name.
        unit: Option<&'a [u8]>,
        /// How many bits it has in the payload.
        width: Width,
        /// The value.
        value: i128,
    },
    /// An unsigned number. Name and unit come together.
    Uint {
        /// The name, where there is one.
        name: Option<&'a [u8]>,
        /// The unit, where there is a name.
        unit: Option<&'a [u8]>,
        /// How many bits it has in the payload.
        width: Width,
        /// The value.
        value: u128,
    },
    /// A text.
    Text {
        /// The name, where there is one.
        name: Option<&'a [u8]>,
        /// The text, without its closing zero byte.
        bytes: &'a [u8],
        /// Whether it says that it is UTF-8, or else ASCII. It isn't checked.
        utf8: bool,
    },
    /// Bytes of any meaning.
    Raw {
        /// The name, where there is one.
        name: Option<&'a [u8]>,
        /// The bytes.
        bytes: &'a [u8],
    },
}

impl<'a> ArgRef<'a> {
    /// A copy with bytes of its own.
    pub fn to_owned(self, alloc: Global) -> Result<Arg, OutOfMemory>
        ensures { IfOk result (λ copy. copy ≡ arg_in self.entry) }
    {
        Ok(match self {
            ArgRef::Bool { name, value } => Arg::Bool {
                name: owned_name(alloc, name)?,
                value,
            },
            ArgRef::Sint {
                name,
                unit,
                width,
                value,
            } => Arg::Sint {
                name: owned_name(alloc, name)?,
                unit: owned_name(alloc, unit)?,
                width,
                value,
            },
            ArgRef::Uint {
                name,
                unit,
                width,
                value,
            } => Arg::Uint {
                name: owned_name(alloc, name)?,
                unit: owned_name(alloc, unit)?,
                width,
                value,
            },
            ArgRef::Text { name, bytes, utf8 } => Arg::Text {
                name: owned_name(alloc, name)?,
                bytes: owned(alloc, bytes)?,
                utf8,
            },
            ArgRef::Raw { name, bytes } => Arg::Raw {
                name: owned_name(alloc, name)?,
                bytes: owned(alloc, bytes)?,
            },
        })
    }
}

/// A copy of these bytes.
fn owned(alloc: Global, bytes: &[u8]) -> Result<Bytes, OutOfMemory>
    ensures { IfOk result (λ copy. copy ≡ bytes.now) }
{
    Ok(Sequence::over(Vec::from_slice(alloc, bytes)?))
}

/// A copy of a name or a unit, where there is one.
fn owned_name(alloc: Global, text: Option<&[u8]>) -> Result<Option<Bytes>, OutOfMemory>
    ensures { IfOk result (λ copy. copy ≡ name_in text.entry) }
{
    match text {
        Some(bytes) => Ok(Some(owned(alloc, bytes)?)),
        None => Ok(None),
    }
}
