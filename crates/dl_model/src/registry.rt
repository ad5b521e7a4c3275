//! What a registry tells: levels that change, and why a call was refused.

ghost use Rattle.std.specs.Prelude.{◌≡◌};

use dl_bytes::{Level, OutOfMemory};

/// What the level word of a context's slot holds.
#[derive(Clone, Copy, PartialEq, Eq)]
pub struct Slot {
    /// How often the level was set since the beginning, counted from the first version.
    pub version: u64,
    /// The level that was set last; 0 before any was.
    pub level: Level,
}

/// A level that a slot gets: the filter of the context that has the slot.
#[derive(Clone, Copy, PartialEq, Eq)]
pub struct LevelChange {
    /// 64 times the number of the application, and the place of the context.
    pub slot: u16,
    /// The effective level of the context.
    pub level: Level,
}

/// Why a user message was refused: the first cause that applies, in the order of the checks of its kind.
#[derive(Clone, Copy, Debug, PartialEq, Eq)]
pub enum RegistryFault {
    /// An id has no letter.
    ZeroId,
    /// The application belongs to another channel.
    Taken,
    /// No application of this channel has the id.
    UnknownApp,
    /// The application has no context of the id.
    UnknownContext,
    /// There are 16 applications.
    AppsFull,
    /// None of the application's 64 places is free.
    ContextsFull,
    /// The slot that the context would get is at its last version.
    Worn,
    /// There was no memory.
    OutOfMemory,
}

impl From<OutOfMemory> for RegistryFault {
    ghost use Rattle.dl_model.specs.declared.registry.RegistryFault.TheVariants as fault;

    ghost from_gives = { λ _ made. made ≡ fault.OutOfMemory };

    fn from(_error: OutOfMemory) -> RegistryFault {
        RegistryFault::OutOfMemory
    }
}

/// Why levels were not set.
#[derive(Clone, Copy, Debug, PartialEq, Eq)]
pub enum SetFault {
    /// No context matches.
    Nobody,
    /// A slot whose effective level would change is at its last version.
    Worn,
}
