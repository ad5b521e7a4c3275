//! Descriptions of contexts.

ghost use Rattle.std.specs.Prelude.{◌≡◌};

use crate::described::Described;
use dl_bytes::{Bytes, ClaimText};
use std::marker::Model;

/// The description of a context: as a message told it, or as a claim brought it along.
#[derive(Drop)]
pub struct Description {
    described: Described,
}

impl Model for Description {
    ghost use Rattle.std.specs.Prelude.{List, ℕ};
    ghost use Rattle.dl_model.specs.Description.{bytes_of};

    ghost Value = { List ℕ };

    ghost view = { λ d. bytes_of d.described };
}

impl Description {
    /// One that a message told.
    pub fn told(text: Bytes) -> Description
        ensures { result ≡ text }
    {
        Description {
            described: Described::Told(text),
        }
    }

    /// One that a claim brought along. No memory is taken.
    pub fn claimed(text: ClaimText) -> Description
        ensures { result ≡ text }
    {
        Description {
            described: Described::Claimed(text),
        }
    }

    /// Its bytes.
    pub fn all(&self) -> &[u8]
        ensures { result.now ≡ self.now }
    {
        match &self.described {
            Described::Told(text) => text.all(),
            Described::Claimed(text) => text.bytes(),
        }
    }
}
