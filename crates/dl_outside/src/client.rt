//! What a client of the daemon does.

use dl_bytes::Bytes;

/// A client that dials the daemon, sends its bytes, and reads.
#[derive(Drop)]
pub struct ClientScript {
    /// What it sends.
    pub sends: Bytes,
    /// After how many bytes that it read it closes; where there is none, it reads to the end.
    pub leave: Option<u64>,
}
