//! A daemon is made.

ghost use Rattle.std.specs.Prelude.{IfOk, IfSome};
ghost use Rattle.dl_trace.specs.Made.{IsMade};
ghost use Rattle.dl_daemon.specs.Open.{IsOpenedFor};

use crate::limits::Limits;
use crate::opened::Opened;
use crate::renewing::Renewal;
use dl_bytes::OutOfMemory;
use dl_core::Core;
use dl_events::Unkept;
use dl_model::Software;
use dl_outside::Link;
use dl_serve::Begun;
use dl_server::Server;
use dl_server::laws::a_made_server_is_one;
use dl_socket::Channels;
use std::alloc::Global;

/// Makes the daemon of what was begun, within these limits. It takes all memory here that its rounds need of their own.
pub fn open<L: Link>(alloc: Global, limits: Limits, begun: Begun) -> Result<Opened<L>, OutOfMemory>
where
    L: Drop,
    requires { IfSome begun.trace (IsMade begun.conf) }
    ensures { IfOk result (IsOpenedFor L.told limits begun) }
{
    let Begun {
        conf,
        stored,
        trace,
        port,
        users,
        ..
    } = begun;
    a_made_server_is_one::<Unkept, L>();
    let core = Core::make_for(
        alloc,
        Software::Daemon,
        &conf,
        stored,
        trace,
        0,
        limits.clients,
    )?;
    let channels = Channels::make_for(alloc, limits.open_channels, limits.channels)?;
    let journal = Unkept::make();
    let server = Server::make(
        alloc,
        core,
        journal,
        channels,
        limits.clients,
        limits.channels,
    )?;
    Ok(Opened {
        server,
        renewal: Renewal::make(alloc, conf),
        port,
        users,
    })
}
