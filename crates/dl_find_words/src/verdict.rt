//! What is said of a message, and the word that its answer begins with.

ghost use Rattle.std.specs.Prelude.{◌≡◌};
ghost use Rattle.dl_find_words.specs.Verdict.{decides, word_of};

use crate::found::{Book, Gone, Hole};
use crate::seen::Seen;

/// The word that an answer begins with. None is `cut` yet: no record tells that a message was cut.
#[derive(Clone, Copy)]
pub enum Word {
    /// It is here.
    Here,
    /// A level filtered it.
    Filtered,
    /// A ring or the program's queue had no room for it.
    Lost,
    /// The daemon's buffer had no room for it.
    Refused,
    /// It was not stored, since the trace had ended.
    Unstored,
    /// It is of a file that rotation removed.
    Rotated,
    /// It is before what was recorded.
    Before,
    /// It is behind what was recorded.
    Behind,
    /// It was not logged.
    Unlogged,
    /// The bytes leave it open.
    Unknown,
}

/// What is said of a message that isn't here.
#[derive(Clone, Copy)]
pub enum Verdict {
    /// Calls of its context were filtered, and each other one is here.
    Filtered {
        /// The accounts.
        book: Book,
    },
    /// The program's queue lost calls of its context, and each other one is here.
    Dropped {
        /// The accounts.
        book: Book,
    },
    /// Each call of its context is here.
    Unlogged {
        /// The accounts.
        book: Book,
    },
    /// The ring of its application lost it.
    Lost {
        /// What is missing.
        gone: Gone,
    },
    /// The daemon's buffer refused it.
    Refused {
        /// What is missing.
        gone: Gone,
    },
    /// It was not stored.
    Unstored {
        /// What is missing.
        gone: Gone,
    },
    /// Records tell of it, or a level filtered it.
    Doubted {
        /// What is missing.
        gone: Gone,
        /// The account of filtered calls.
        account: Seen,
    },
    /// It is before what was recorded, and files before the first are not here.
    Rotated {
        /// The first message here.
        first: Seen,
    },
    /// It is before what was recorded.
    Before {
        /// The first message here.
        first: Seen,
    },
    /// It is behind what was recorded.
    Behind {
        /// The last message here.
        last: Seen,
    },
    /// The records do not tell of as many as are missing.
    Untold {
        /// What is missing.
        gone: Gone,
    },
    /// Messages are missing at several places that it may be of.
    Holes {
        /// How many.
        count: u64,
        /// The first.
        hole: Hole,
    },
    /// Its counter may be of a message before the first one here, or messages are missing that it may be of.
    Early {
        /// The first message here.
        first: Seen,
        /// At how many places messages are missing that it may be of.
        count: u64,
        /// The first of them.
        hole: Hole,
    },
    /// Nothing tells whether its session counts its messages or each context its own, and these differ.
    Counting {
        /// What is missing where the session counts.
        session: Option<Hole>,
        /// What is missing where the context counts.
        context: Option<Hole>,
    },
    /// No counter is missing there.
    Whole,
    /// No message of its context is here.
    NoContext,
    /// No message of its application is here.
    Nobody,
    /// Several sessions of its application are here.
    Sessions,
    /// Times step back so often.
    Backs {
        /// How often.
        count: u64,
    },
    /// An account is missing before the one that tells of it.
    Gapped {
        /// The accounts.
        book: Book,
    },
    /// The account can't be.
    Refuted {
        /// The accounts.
        book: Book,
    },
    /// Its calls are of several kinds.
    Mixed {
        /// The accounts.
        book: Book,
        /// What is missing where the question points.
        hole: Option<Hole>,
    },
}

/// The word that the answer begins with.
pub fn word_of(verdict: &Verdict) -> Word
    ensures { result ≡ word_of verdict.now }
{
    match verdict {
        Verdict::Filtered { .. } => Word::Filtered,
        Verdict::Dropped { .. } => Word::Lost,
        Verdict::Unlogged { .. } => Word::Unlogged,
        Verdict::Lost { .. } => Word::Lost,
        Verdict::Refused { .. } => Word::Refused,
        Verdict::Unstored { .. } => Word::Unstored,
        Verdict::Rotated { .. } => Word::Rotated,
        Verdict::Before { .. } => Word::Before,
        Verdict::Behind { .. } => Word::Behind,
        Verdict::Doubted { .. } => Word::Unknown,
        Verdict::Untold { .. } => Word::Unknown,
        Verdict::Holes { .. } => Word::Unknown,
        Verdict::Early { .. } => Word::Unknown,
        Verdict::Counting { .. } => Word::Unknown,
        Verdict::Whole => Word::Unknown,
        Verdict::NoContext => Word::Unknown,
        Verdict::Nobody => Word::Unknown,
        Verdict::Sessions => Word::Unknown,
        Verdict::Backs { .. } => Word::Unknown,
        Verdict::Gapped { .. } => Word::Unknown,
        Verdict::Refuted { .. } => Word::Unknown,
        Verdict::Mixed { .. } => Word::Unknown,
    }
}

/// Whether it decides what became of the message.
pub fn decides(verdict: &Verdict) -> bool
    ensures { result ≡ decides (word_of verdict.now) }
{
    match word_of(verdict) {
        Word::Unknown => false,
        Word::Here => true,
        Word::Filtered => true,
        Word::Lost => true,
        Word::Refused => true,
        Word::Unstored => true,
        Word::Rotated => true,
        Word::Before => true,
        Word::Behind => true,
        Word::Unlogged => true,
    }
}
