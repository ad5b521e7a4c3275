//! A connection of a client.

ghost use Rattle.std.specs.Prelude.{◌≡◌, ◌<◌, true, IsTrue, length};
ghost use Rattle.dl_outside.specs.Outside.{Stays};
ghost use Rattle.dl_outside.specs.Link.{EndsRightly, Gives, HasReceiveCause, HasSendCause, NothingCame, NothingWent, Receives, Sent, StaysOver};
ghost use Rattle.dl_outside.specs.Told.{LinkTold};

/// What a link gave.
#[derive(Clone, Copy, PartialEq, Eq)]
pub enum Gave {
    /// So many bytes, at least one.
    Bytes(usize),
    /// Nothing so far: its count of idle turns rose.
    NotYet,
    /// The peer has ended, and nothing is left.
    End,
    /// The link failed: its count of faults rose.
    Failed,
}

/// What a link did with a piece.
#[derive(Clone, Copy, PartialEq, Eq)]
pub enum Sends {
    /// It took so many bytes of the piece, at least one.
    Bytes(usize),
    /// It takes nothing now: its count of busy turns rose.
    Busy,
    /// The link failed: its count of faults rose.
    Failed,
}

/// A connection to a client, both ways.
pub trait Link {
    /// What it tells of itself: what is left of its input and whether that is over, what it gave and what it took, its counts, and whether it
    /// was shut.
    ghost told: { Self → LinkTold };

    /// Reads the next bytes into the front of `into`.
    fn recv(&mut self, into: &mut [u8]) -> Gave
        requires { 0 < length into.old }
        ensures bytes { Receives (told self.old).left (told self.new).left result into.new }
        ensures given { Gives (told self.old).given (told self.new).given result into.new }
        ensures end { EndsRightly (told self.old) result }
        ensures cause { HasReceiveCause (told self.old) (told self.new) result }
        ensures over { StaysOver (told self.old) (told self.new) }
        ensures untaken { Stays (told self.old).taken (told self.new).taken }
        ensures waits { (told self.new).waits ≡ (told self.old).waits }
        ensures shut { (told self.new).is_shut ≡ (told self.old).is_shut }
        ensures closed { IsTrue (told self.old).is_shut → NothingCame result };

    /// Sends the front of the piece, as much of it as the link takes.
    fn send(&mut self, piece: &[u8]) -> Sends
        requires { 0 < length piece.now }
        ensures bytes { Sent (told self.old).taken (told self.new).taken result piece.now }
        ensures cause { HasSendCause (told self.old) (told self.new) result }
        ensures left { Stays (told self.old).left (told self.new).left }
        ensures over { StaysOver (told self.old) (told self.new) }
        ensures ungiven { Stays (told self.old).given (told self.new).given }
        ensures idles { (told self.new).idles ≡ (told self.old).idles }
        ensures shut { (told self.new).is_shut ≡ (told self.old).is_shut }
        ensures closed { IsTrue (told self.old).is_shut → NothingWent result };

    /// Ends the connection for the peer. Nothing goes through the link afterwards.
    fn shut(&mut self)
        ensures shut { (told self.new).is_shut ≡ true }
        ensures left { Stays (told self.old).left (told self.new).left }
        ensures over { StaysOver (told self.old) (told self.new) }
        ensures given { Stays (told self.old).given (told self.new).given }
        ensures taken { Stays (told self.old).taken (told self.new).taken }
        ensures faults { (told self.new).faults ≡ (told self.old).faults }
        ensures idles { (told self.new).idles ≡ (told self.old).idles }
        ensures waits { (told self.new).waits ≡ (told self.old).waits };

    /// Rests a while, where nothing is to be done. It changes nothing that the link tells.
    fn rest(&mut self)
        ensures { told self.new ≡ told self.old };

    /// How often it has failed. The count never falls.
    fn faults(&self) -> u64
        ensures { result ≡ (told self.now).faults };

    /// How often `recv` answered that nothing had come. The count never falls.
    fn idles(&self) -> u64
        ensures { result ≡ (told self.now).idles };

    /// How often `send` answered that it could take nothing. The count never falls.
    fn waits(&self) -> u64
        ensures { result ≡ (told self.now).waits };
}
