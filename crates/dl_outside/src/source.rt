//! Where bytes come from.

ghost use Rattle.std.specs.Prelude.{◌≡◌, ◌<◌, length};
ghost use Rattle.dl_outside.specs.Outside.{HasReadCause, Reads};
ghost use Rattle.dl_outside.specs.Told.{SourceTold};

/// What a read gave.
#[derive(Clone, Copy, PartialEq, Eq)]
pub enum Got {
    /// So many bytes, at least one.
    Bytes(usize),
    /// Nothing is left.
    End,
    /// The source failed: its count of faults rose.
    Failed,
}

/// A source of bytes, as standard input or a file.
pub trait Source {
    /// What it tells of itself: what is left to read, and how often it has failed.
    ghost told: { Self → SourceTold };

    /// Reads the next bytes into the front of `into`.
    fn read(&mut self, into: &mut [u8]) -> Got
        requires { 0 < length into.old }
        ensures bytes { Reads (told self.old).left (told self.new).left result into.new }
        ensures cause { HasReadCause (told self.old).faults (told self.new).faults result };

    /// How often it has failed. The count never falls.
    fn faults(&self) -> u64
        ensures { result ≡ (told self.now).faults };
}
