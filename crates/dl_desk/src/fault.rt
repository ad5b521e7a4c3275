//! Why a context or a writer was not made.

use dl_bytes::OutOfMemory;

/// Why an application got no context more. Nothing changed.
#[derive(Clone, Copy, Debug, PartialEq, Eq)]
pub enum AppFault {
    /// A writer of it was made. Its writers claim the contexts that come later.
    Started,
    /// It has 64 contexts.
    ContextsFull,
    /// It has a context of this id.
    Twice,
    /// The description has more than 255 bytes.
    TooLong,
    /// There is no memory.
    OutOfMemory,
}

/// Why no writer was made. Nothing changed.
#[derive(Clone, Copy, Debug, PartialEq, Eq)]
pub enum WriterFault {
    /// 32 writers were made with the desk.
    WritersFull,
    /// There is no memory for the claims that will wait for the ring.
    OutOfMemory,
}

impl From<OutOfMemory> for AppFault {
    ghost use Rattle.std.specs.Prelude.{◌≡◌};
    ghost use Rattle.dl_desk.specs.declared.fault.AppFault.TheVariants as fault;

    ghost from_gives = { λ _ error. error ≡ fault.OutOfMemory };

    fn from(_: OutOfMemory) -> AppFault {
        AppFault::OutOfMemory
    }
}

impl From<OutOfMemory> for WriterFault {
    ghost use Rattle.std.specs.Prelude.{◌≡◌};
    ghost use Rattle.dl_desk.specs.declared.fault.WriterFault.TheVariants as fault;

    ghost from_gives = { λ _ error. error ≡ fault.OutOfMemory };

    fn from(_: OutOfMemory) -> WriterFault {
        WriterFault::OutOfMemory
    }
}
