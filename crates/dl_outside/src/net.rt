//! Where a daemon's clients come from.

ghost use Rattle.std.specs.Prelude.{◌≡◌};
ghost use Rattle.dl_outside.specs.Outside.{Stays};
ghost use Rattle.dl_outside.specs.Link.{IsFresh};
ghost use Rattle.dl_outside.specs.Net.{Accepts, HasAcceptCause, HasCause, Launches, Listens, Queues};
ghost use Rattle.dl_outside.specs.Told.{NetTold};

use crate::client::ClientScript;
use crate::link::Link;

/// Why a net refused a call.
#[derive(Clone, Copy, Debug, PartialEq, Eq)]
pub enum NetFault {
    /// The net failed: its count of faults rose.
    Failed,
    /// Memory ran out.
    OutOfMemory,
}

/// What an accept gave.
#[derive(Drop)]
pub enum Accepted<L> {
    /// The client that waited longest.
    Link(L),
    /// No client waits.
    None,
    /// The net failed: its count of faults rose.
    Failed,
    /// Memory ran out.
    OutOfMemory,
}

/// A network, in which a daemon listens and clients are started.
pub trait Net {
    /// Its connections.
    type L: Link;

    /// What it tells of itself: its port, the clients that were launched, the connections that wait for an accept, and how often it has failed.
    ghost told: { Self → NetTold Self.L };

    /// Begins to listen on this port.
    fn listen(&mut self, port: u16) -> Result<(), NetFault>
        ensures port { Listens (told self.old).listens_on (told self.new).listens_on result port }
        ensures launched { Stays (told self.old).launched (told self.new).launched }
        ensures waiting { Stays (told self.old).waiting (told self.new).waiting }
        ensures cause { HasCause (told self.old).faults (told self.new).faults result };

    /// Starts a client, which dials this net.
    fn launch(&mut self, script: &ClientScript) -> Result<(), NetFault>
        ensures launched { Launches (told self.old).launched (told self.new).launched result script.now }
        ensures waiting { Queues (told self.old).waiting (told self.new).waiting result }
        ensures port { Stays (told self.old).listens_on (told self.new).listens_on }
        ensures cause { HasCause (told self.old).faults (told self.new).faults result };

    /// Takes the connection that waited longest. It is handed out fresh.
    fn accept(&mut self) -> Accepted<Self::L>
        ensures waiting { Accepts (told self.old).waiting (told self.new).waiting result }
        ensures fresh { (link : _) → result ≡ Accepted.Link link → IsFresh (Self.L.told link) }
        ensures launched { Stays (told self.old).launched (told self.new).launched }
        ensures port { Stays (told self.old).listens_on (told self.new).listens_on }
        ensures cause { HasAcceptCause (told self.old).faults (told self.new).faults result };

    /// Rests a while, where nothing is to be done. It changes nothing that the net tells.
    fn rest(&mut self)
        ensures { told self.new ≡ told self.old };

    /// How often it has failed. The count never falls.
    fn faults(&self) -> u64
        ensures { result ≡ (told self.now).faults };
}
