//! Where bytes go.

ghost use Rattle.std.specs.Prelude.{◌≡◌, ◌<◌, length};
ghost use Rattle.dl_outside.specs.Outside.{HasWriteCause, Takes};
ghost use Rattle.dl_outside.specs.Told.{SinkTold};

/// What a write did.
#[derive(Clone, Copy, PartialEq, Eq)]
pub enum Took {
    /// It took so many bytes of the piece, at least one.
    Bytes(usize),
    /// The sink failed: its count of faults rose.
    Failed,
}

/// A sink for bytes, as standard output.
pub trait Sink {
    /// What it tells of itself: what it holds, and how often it has failed.
    ghost told: { Self → SinkTold };

    /// Appends the front of the piece, as much of it as the sink takes.
    fn write(&mut self, piece: &[u8]) -> Took
        requires { 0 < length piece.now }
        ensures bytes { Takes (told self.old).held (told self.new).held result piece.now }
        ensures cause { HasWriteCause (told self.old).faults (told self.new).faults result };

    /// How often it has failed. The count never falls.
    fn faults(&self) -> u64
        ensures { result ≡ (told self.now).faults };
}
