//! Why a call was not made, or a context not claimed.

/// Why a writer refused a call. Nothing changed.
#[derive(Clone, Copy, Debug, PartialEq, Eq)]
pub enum LogFault {
    /// The context is another application's.
    Foreign,
    /// The writer made as many calls as it can, 2^40.
    Spent,
}

/// Why a book refused a call. Nothing changed.
#[derive(Clone, Copy, Debug, PartialEq, Eq)]
pub enum BookFault {
    /// The book has as many records as it has room for.
    Full,
    /// The context is another application's.
    Foreign,
    /// The writer made as many calls as it can, 2^40.
    Spent,
}

/// Why a context was not claimed: the first that applies, in this order.
#[derive(Clone, Copy, Debug, PartialEq, Eq)]
pub enum RegisterFault {
    /// The context's id is zero. Nothing changed.
    ZeroId,
    /// The description has more than 48 bytes. Nothing changed.
    TooLong,
    /// No place of the application is left. Nothing changed but what the claim step itself leaves.
    TableFull,
}

impl From<LogFault> for BookFault {
    ghost use Rattle.std.specs.Prelude.{◌≡◌};
    ghost use Rattle.dl_writer.specs.Faults.{book_fault};

    ghost from_gives = { λ fault error. error ≡ book_fault fault };

    fn from(fault: LogFault) -> BookFault {
        match fault {
            LogFault::Foreign => BookFault::Foreign,
            LogFault::Spent => BookFault::Spent,
        }
    }
}
