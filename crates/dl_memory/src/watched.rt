//! A net that gives a sign once a client has been sent certain bytes.

ghost use Rattle.std.specs.Prelude.{None};

use crate::sign::Sign;
use dl_outside::{Accepted, ClientScript, Gave, Link, Net, NetFault, Sends};

/// The bytes for which a net looks.
pub type Wanted = [u8; 16];

/// Another link, which gives a sign once it took a piece that has the wanted bytes.
#[derive(Drop)]
pub struct Watched<L> {
    /// The link within.
    pub inner: L,
    wanted: Wanted,
    sign: Sign,
}

/// Whether a piece has these bytes.
fn has(piece: &[u8], wanted: &Wanted) -> bool {
    piece
        .windows(wanted.len())
        .any(|window| window == wanted.as_slice())
}

impl<L: Link> Link for Watched<L> {
    ghost told = { λ l. L.told l.inner };

    fn recv(&mut self, into: &mut [u8]) -> Gave {
        self.inner.recv(into)
    }

    fn send(&mut self, piece: &[u8]) -> Sends {
        let sent = self.inner.send(piece);
        if let Sends::Bytes(n) = sent {
            if has(&piece[..n], &self.wanted) {
                self.sign.give();
            }
        }
        sent
    }

    fn shut(&mut self) {
        self.inner.shut();
    }

    fn rest(&mut self) {
        self.inner.rest();
    }

    fn faults(&self) -> u64 {
        self.inner.faults()
    }

    fn idles(&self) -> u64 {
        self.inner.idles()
    }

    fn waits(&self) -> u64 {
        self.inner.waits()
    }
}

/// Another net, whose links give a sign once one of them took a piece that has the wanted bytes. It doesn't tell its
/// waiting connections.
#[derive(Drop)]
pub struct WatchedNet<N> {
    /// The net within.
    pub inner: N,
    wanted: Wanted,
    sign: Sign,
}

impl<N> WatchedNet<N> {
    /// The net `inner`, which looks for these bytes.
    pub fn make(inner: N, wanted: Wanted, sign: Sign) -> WatchedNet<N> {
        WatchedNet {
            inner,
            wanted,
            sign,
        }
    }
}

impl<N: Net> Net for WatchedNet<N> {
    type L = Watched<N::L>;

    ghost told = { λ n. record {
      listens_on = (N.told n.inner).listens_on;
      launched = (N.told n.inner).launched;
      waiting = None;
      faults = (N.told n.inner).faults;
    } };

    fn listen(&mut self, port: u16) -> Result<(), NetFault> {
        self.inner.listen(port)
    }

    fn launch(&mut self, script: &ClientScript) -> Result<(), NetFault> {
        self.inner.launch(script)
    }

    fn accept(&mut self) -> Accepted<Watched<N::L>> {
        // Before the link is taken, so that none is lost.
        let Ok(sign) = self.sign.share() else {
            return Accepted::OutOfMemory;
        };
        match self.inner.accept() {
            Accepted::Link(inner) => Accepted::Link(Watched {
                inner,
                wanted: self.wanted,
                sign,
            }),
            Accepted::None => Accepted::None,
            Accepted::Failed => Accepted::Failed,
            Accepted::OutOfMemory => Accepted::OutOfMemory,
        }
    }

    fn rest(&mut self) {
        self.inner.rest();
    }

    fn faults(&self) -> u64 {
        self.inner.faults()
    }
}
