//! What serves, before the nets listen.

use dl_bytes::Conf;
use dl_events::Kept;
use dl_server::Server;
use dl_settling::EndRoom;

/// What serves.
#[derive(Drop)]
pub struct Opened<L> {
    /// The server, to which nobody came.
    pub server: Server<Kept, L>,
    /// The configuration.
    pub conf: Conf,
    /// Room for what becomes of each client's link.
    pub ends: EndRoom,
    /// The port on which clients are waited for.
    pub port: u16,
    /// The port on which programs are waited for that log.
    pub users: u16,
    /// How many rounds are made.
    pub rounds: u32,
}
