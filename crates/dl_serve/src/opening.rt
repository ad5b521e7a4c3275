//! A server is made, and the nets listen.

ghost use Rattle.std.specs.Prelude.{◌≡◌, IfOk, IfSome};
ghost use Rattle.dl_trace.specs.Made.{IsMade};
ghost use Rattle.dl_serve.specs.Open.{IsOpenedFor, Listen, ListensOn, refused};

use crate::beginning::Begun;
use crate::opened::Opened;
use dl_bytes::{CHANNEL_LIMIT, CLIENT_LIMIT, OutOfMemory};
use dl_core::Core;
use dl_events::Kept;
use dl_outside::{Link, Net, NetFault};
use dl_server::Server;
use dl_server::laws::a_made_server_is_one;
use dl_settling::EndRoom;
use dl_socket::Channels;
use dl_startup::Status;
use std::alloc::Global;

/// Makes what serves.
pub fn open<L: Link>(alloc: Global, begun: Begun) -> Result<Opened<L>, OutOfMemory>
where
    L: Drop,
    requires { IfSome begun.trace (IsMade begun.conf) }
    ensures { IfOk result (IsOpenedFor L.told begun) }
{
    let Begun {
        conf,
        stored,
        trace,
        port,
        users,
        rounds,
    } = begun;
    a_made_server_is_one::<Kept, L>();
    let core = Core::make(alloc, &conf, stored, trace, 0)?;
    let channels = Channels::make(alloc)?;
    let journal = Kept::make(alloc);
    let server = Server::make(alloc, core, journal, channels, CLIENT_LIMIT, CHANNEL_LIMIT)?;
    let ends = EndRoom::make(alloc)?;
    Ok(Opened {
        server,
        conf,
        ends,
        port,
        users,
        rounds,
    })
}

/// The status of a net that did not listen.
fn refused(fault: NetFault) -> Status
    ensures { result ≡ refused fault }
{
    match fault {
        NetFault::Failed => Status::NetFault,
        NetFault::OutOfMemory => Status::OutOfMemory,
    }
}

/// A net listens, or the status is why it does not.
fn listen_on<N: Net>(net: &mut N, port: u16) -> Result<(), Status>
    ensures { ListensOn port (N.told net.old) (N.told net.new) result }
{
    match net.listen(port) {
        Ok(()) => Ok(()),
        Err(fault) => Err(refused(fault)),
    }
}

/// Both nets listen, or the status is why one of them does not.
pub fn listen<N: Net>(net: &mut N, users: &mut N, port: u16, user_port: u16) -> Result<(), Status>
    ensures { Listen port user_port (N.told net.old) (N.told net.new) (N.told users.old) (N.told users.new) result }
{
    match listen_on(net, port) {
        Ok(()) => listen_on(users, user_port),
        Err(status) => Err(status),
    }
}
