//! The arguments of a log call as a list of lines keeps them.

ghost use Rattle.std.specs.Prelude.{◌≡◌, ◌≤◌, IfOk, length};

use dl_bytes::Payload;
use smallvec::SmallVec;
use std::alloc::{AllocError, Global};
use std::marker::Model;

/// The arguments of a log call, in memory of just their size: a list of lines may hold a million of them. Up to 48 bytes, as
/// most calls have, lie in place and take none. Contracts see what they see of a [`Payload`].
#[derive(Drop)]
pub struct CallArguments {
    bytes: SmallVec<u8, 48>,
    args: u8,
}

impl Model for CallArguments {
    ghost use Rattle.std.specs.Prelude.{◌≤◌, length};
    ghost use Rattle.dl_bytes.specs.Payload.{Arguments};

    ghost Value = { Arguments };

    ghost view = { λ a. record { bytes = a.bytes.items; args = a.args } };

    ghost invariant = { λ a. length a.bytes.items ≤ 1390 };
}

impl CallArguments {
    /// A copy of these arguments.
    pub fn of(alloc: Global, payload: &Payload) -> Result<CallArguments, AllocError>
        ensures { IfOk result (λ copy. copy ≡ payload.now) }
    {
        let mut bytes = SmallVec::new(alloc);
        bytes.extend_from_slice(payload.bytes())?;
        Ok(CallArguments {
            bytes,
            args: payload.args(),
        })
    }

    /// The arguments' bytes, at most 1390.
    pub fn bytes(&self) -> &[u8]
        ensures value { result.now ≡ self.now.bytes }
        ensures limit { length self.now.bytes ≤ 1390 }
    {
        self.bytes.as_slice()
    }

    /// How many arguments there are: the field NOAR.
    pub fn args(&self) -> u8
        ensures { result ≡ self.now.args }
    {
        self.args
    }
}
