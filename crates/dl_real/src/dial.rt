//! A way to the ports of a machine over TCP.

ghost use Rattle.std.specs.Prelude.{◌≡◌, None};

use crate::answers::is_memory;
use crate::reading::Reading;
use crate::reasons::reason;
use dl_outside::{Dial, DialFault};
use std::io;
use std::net::{Ipv4Addr, TcpListener, TcpStream};

/// A way to the ports of a machine. It tells no content.
#[derive(Drop)]
pub struct TcpDial<R> {
    rt: R,
    // the machine, where it is another than this one
    host: Option<String>,
    // why the last dial failed
    why: &'static str,
    faults: u64,
}

impl<R> TcpDial<R> {
    /// A dial that has not failed yet: of this machine, or of a host by its name or address.
    pub fn over(rt: R, host: Option<String>) -> TcpDial<R>
        ensures { result.faults ≡ 0 }
    {
        TcpDial {
            rt,
            host,
            why: "",
            faults: 0,
        }
    }

    /// Why the last dial failed, where one did.
    pub fn why(&self) -> &'static str {
        self.why
    }
}

impl<R: std::net::Net<Stream = TcpStream, Listener = TcpListener>> TcpDial<R> {
    /// Connects to a port of the machine.
    fn connect(&self, port: u16) -> io::Result<TcpStream> {
        match &self.host {
            Some(host) => TcpStream::connect(&self.rt, (host.as_str(), port)),
            None => TcpStream::connect(&self.rt, (Ipv4Addr::LOCALHOST, port)),
        }
    }
}

impl<R: std::net::Net<Stream = TcpStream, Listener = TcpListener>> Dial for TcpDial<R> {
    type S = Reading<TcpStream>;

    ghost told = { λ d. record { serves = None; faults = d.faults } };

    fn dial(&mut self, port: u16) -> Result<Reading<TcpStream>, DialFault> {
        match self.connect(port) {
            Ok(stream) => Ok(Reading::over(stream)),
            Err(error) if is_memory(&error) => Err(DialFault::OutOfMemory),
            Err(error) => {
                self.faults = self.faults.saturating_add(1);
                self.why = reason(&error);
                Err(DialFault::Failed)
            }
        }
    }

    fn faults(&self) -> u64 {
        self.faults
    }
}
