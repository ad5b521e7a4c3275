//! A connection of this process to a port of its own.

use crate::streams::{pass_on, receive};
use crate::tcp::reached_at;
use dl_outside::{Gave, Sends};
use std::net::{IpAddr, Net, TcpListener, TcpStream};

/// A connection of this process to a port on which it listens itself. But for its making no call waits, and that one only until the system has noted the
/// connection: the port need not accept it for that.
#[derive(Drop)]
pub struct OwnLink {
    stream: TcpStream,
}

impl OwnLink {
    /// Dials a port of this machine at the address at which it listens; nothing where that fails.
    pub fn dial<R: Net<Stream = TcpStream, Listener = TcpListener>>(
        rt: &R,
        address: IpAddr,
        port: u16,
    ) -> Option<OwnLink> {
        let stream = TcpStream::connect(rt, (reached_at(address), port)).ok()?;
        stream.set_nonblocking(true).ok()?;
        // Without it bytes come later, and no more.
        let _ = stream.set_nodelay(true);
        Some(OwnLink { stream })
    }

    /// Sends the front of the piece, as much of it as there is room for.
    pub fn send(&mut self, piece: &[u8]) -> Sends {
        if piece.is_empty() {
            return Sends::Busy;
        }
        pass_on(&mut self.stream, piece)
    }

    /// Reads what has come into the front of `into`.
    pub fn recv(&mut self, into: &mut [u8]) -> Gave {
        if into.is_empty() {
            return Gave::NotYet;
        }
        receive(&mut self.stream, into)
    }
}
