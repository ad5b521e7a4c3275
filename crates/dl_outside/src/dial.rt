//! How a client reaches a daemon.

ghost use Rattle.std.specs.Prelude.{◌≡◌, Some, IfOk, IfSome};
ghost use Rattle.dl_outside.specs.Dial.{HasCause};
ghost use Rattle.dl_outside.specs.Told.{DialTold};

use crate::source::Source;

/// Why a dial was refused.
#[derive(Clone, Copy, Debug, PartialEq, Eq)]
pub enum DialFault {
    /// The dial failed: its count of faults rose.
    Failed,
    /// Memory ran out.
    OutOfMemory,
}

/// A way to connect to a port and to read what comes from there.
pub trait Dial {
    /// What a connection is read as.
    type S: Source;

    /// What it tells of itself: what each port gives, and how often it has failed.
    ghost told: { Self → DialTold };

    /// Connects to this port. The source has not failed yet, and has left all that the port gives.
    fn dial(&mut self, port: u16) -> Result<Self::S, DialFault>
        ensures sound { IfOk result (λ source. (Self.S.told source).faults ≡ 0) }
        ensures bytes { IfOk result (λ source. IfSome (told self.old).serves (λ bytes. (Self.S.told source).left ≡ Some (bytes port))) }
        ensures serves { (told self.new).serves ≡ (told self.old).serves }
        ensures cause { HasCause (told self.old).faults (told self.new).faults result };

    /// How often it has failed. The count never falls.
    fn faults(&self) -> u64
        ensures { result ≡ (told self.now).faults };
}
