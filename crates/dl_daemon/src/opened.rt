//! A daemon before its nets listen.

use crate::renewing::Renewal;
use dl_events::Unkept;
use dl_server::Server;

/// A daemon before its nets listen.
#[derive(Drop)]
pub struct Opened<L> {
    /// The server, to which nobody came.
    pub server: Server<Unkept, L>,
    /// What begins its trace anew, where that has ended.
    pub renewal: Renewal,
    /// The port on which clients are waited for.
    pub port: u16,
    /// The port on which programs are waited for that log.
    pub users: u16,
}
