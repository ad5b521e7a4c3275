//! Programs outside that come.

ghost use Rattle.std.specs.Prelude.{◌≡◌, ◌≤◌};
ghost use Rattle.dl_outside.specs.Outside.{Stays};
ghost use Rattle.dl_channels.specs.Accepting.{AreLinked, Enters, entry_of};

use dl_outside::{Accepted, LinkList, Net};
use dl_socket::{ChannelFault, Channels};

/// What came of an accept.
#[derive(Clone, Copy, PartialEq, Eq)]
pub enum Entry {
    /// A channel opened, under this number.
    Channel(u16),
    /// A link came and was dropped: as many channels are open as may be at once, or as many came as may come.
    Dropped,
    /// A link came and was dropped, since there was no memory for its channel.
    Unopened,
    /// No connection waits.
    Nobody,
    /// The net failed: its count of faults rose.
    Failed,
    /// Memory ran out.
    OutOfMemory,
}

/// Accepts one connection of an external application, and opens a channel for it: its link is the last one then. Where none can be opened the link is
/// dropped and counted in `dropped`, up to 4,294,967,295.
pub fn accept_channel<N: Net>(
    channels: &mut Channels,
    net: &mut N,
    links: &mut LinkList<N::L>,
    dropped: &mut u32,
) -> Entry
where
    N::L: Drop,
    requires { AreLinked links.old channels.old }
    ensures enters { Enters N.L.told result (N.told net.old) (N.told net.new) links.old links.new dropped.old dropped.new channels.old channels.new }
    ensures listens { Stays (N.told net.old).listens_on (N.told net.new).listens_on }
    ensures launched { Stays (N.told net.old).launched (N.told net.new).launched }
    ensures linked { AreLinked links.new channels.new }
{
    match net.accept() {
        Accepted::Link(link) => match channels.open() {
            Ok(channel) => {
                links.add(link);
                Entry::Channel(channel)
            }
            Err(fault) => {
                *dropped = dropped.saturating_add(1);
                entry_of(fault)
            }
        },
        Accepted::None => Entry::Nobody,
        Accepted::Failed => Entry::Failed,
        Accepted::OutOfMemory => Entry::OutOfMemory,
    }
}

/// What becomes of a link for which no channel can be opened.
fn entry_of(fault: ChannelFault) -> Entry
    ensures { result ≡ entry_of fault }
{
    match fault {
        ChannelFault::Spent | ChannelFault::Full => Entry::Dropped,
        ChannelFault::OutOfMemory => Entry::Unopened,
    }
}
