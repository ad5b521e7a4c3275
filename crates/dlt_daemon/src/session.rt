//! Sessions of the daemon: numbers of clients and of external applications are those of a session, and where few are left the next one begins in the same
//! process, over the same sockets.

use crate::own::Own;
use dl_daemon::{Limits, Numbers, Server};
use dl_events::Unkept;
use dl_outside::Link;

/// A session that begins behind another one.
#[derive(Clone, Copy)]
pub struct NewSession {
    /// Its number, from 1 on.
    pub number: u64,
    /// How many clients went with the one before it.
    pub clients: u64,
    /// How many external applications did.
    pub programs: u64,
    /// How many messages that waited for a client are lost with it.
    pub lost: u64,
}

/// Which session is running, and whether it ends.
#[derive(Clone, Copy)]
pub struct Sessions {
    number: u64,
    limits: Limits,
    // how many messages the daemon itself had logged when it was asked last
    said: u64,
    // with which numbers the session ends, once it does
    last: Option<Numbers>,
}

impl Sessions {
    /// The first one runs.
    pub fn first() -> Sessions {
        Sessions {
            number: 1,
            limits: Limits::of_daemon(),
            said: 0,
            last: None,
        }
    }

    /// The numbers of a server, without the channel of the daemon itself.
    fn numbers<L: Link>(server: &Server<Unkept, L>, own: Option<&Own>) -> Numbers {
        let numbers = Numbers::of(server);
        let its = match own {
            Some(own) => own.channels(),
            None => 0,
        };
        Numbers {
            open_channels: numbers.open_channels.saturating_sub(its),
            ..numbers
        }
    }

    /// Whether all that the daemon itself has logged was read in the round before.
    fn is_heard(&mut self, own: Option<&Own>) -> bool {
        let Some(own) = own else {
            return true;
        };
        let is_same = own.said() == self.said;
        self.said = own.said();
        is_same && own.is_done()
    }

    /// Whether no number is left.
    fn is_used_up(&self, numbers: &Numbers) -> bool {
        numbers.clients >= self.limits.clients
            || numbers.channels >= u32::from(self.limits.channels)
    }

    /// Whether the session ends here.
    pub fn is_over<L: Link>(&mut self, server: &Server<Unkept, L>, own: Option<&Own>) -> bool {
        let is_heard = self.is_heard(own);
        let numbers = Sessions::numbers(server, own);
        if !self.limits.end(&numbers) {
            return false;
        }
        if !is_heard && !self.is_used_up(&numbers) {
            return false;
        }
        self.last = Some(numbers);
        true
    }

    /// The session that begins now, where the last one ended for its numbers.
    pub fn next(&mut self) -> Option<NewSession> {
        let last = self.last.take()?;
        self.number = self.number.saturating_add(1);
        self.said = 0;
        Some(NewSession {
            number: self.number,
            clients: last.open_clients,
            programs: last.open_channels,
            lost: if last.open_clients == 0 {
                last.waiting
            } else {
                0
            },
        })
    }
}
