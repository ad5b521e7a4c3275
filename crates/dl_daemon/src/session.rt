//! When a session ends, so that the next one begins: numbers of clients and of programs are those of a session.

ghost use Rattle.std.specs.Prelude.{◌≡◌};
ghost use Rattle.dl_daemon.specs.Session.{ends, is_last, is_quiet, is_scarce, numbers_of, waits};

use crate::counting::{has_ended, open_channels};
use crate::limits::Limits;
use dl_channel_turns::open_clients;
use dl_events::Unkept;
use dl_outside::Link;
use dl_server::Server;

/// Which numbers of a session are used, and who and what would be lost with it.
#[derive(Clone, Copy)]
pub struct Numbers {
    /// Clients that came.
    pub clients: u32,
    /// Programs that came.
    pub channels: u32,
    /// Clients that are open.
    pub open_clients: u64,
    /// Programs whose channel is open.
    pub open_channels: u64,
    /// Frames that wait for the next client, or that it is to be told of, at most 2^64 - 1.
    pub waiting: u64,
    /// Whether a trace has ended.
    pub has_ended: bool,
}

impl Numbers {
    /// Those of a server.
    pub fn of<L: Link>(server: &Server<Unkept, L>) -> Numbers
        ensures { result ≡ numbers_of server.now }
    {
        let hub = server.core.hub();
        let backlog = hub.backlog();
        Numbers {
            clients: server.clients.len(),
            channels: server.programs.len(),
            open_clients: open_clients(hub),
            open_channels: open_channels(&server.channels) as u64,
            waiting: backlog.frames.saturating_add(backlog.refused),
            has_ended: has_ended(&server.core),
        }
    }

    /// Whether nobody is there, and nothing would be lost.
    fn are_quiet(&self) -> bool
        ensures { result ≡ is_quiet self.now }
    {
        self.open_clients == 0 && self.open_channels == 0 && self.waiting == 0 && !self.has_ended
    }

    /// Whether something waits for a client while none is open.
    fn wait(&self) -> bool
        ensures { result ≡ waits self.now }
    {
        self.open_clients == 0 && self.waiting > 0
    }
}

/// Whether less than an eighth of these numbers is left.
fn is_scarce(limit: u32, used: u32) -> bool
    ensures { result ≡ is_scarce limit used }
{
    limit.saturating_sub(used) < limit / 8
}

/// Whether one of these numbers is left, or none.
fn is_last(limit: u32, used: u32) -> bool
    ensures { result ≡ is_last limit used }
{
    limit <= used.saturating_add(1)
}

impl Limits {
    /// Whether a session ends that has used these numbers. It does where few are left and nothing is lost by it. Where one is left it does in any case; but the
    /// last number of a client stays for one that is to take what waits.
    pub fn end(&self, numbers: &Numbers) -> bool
        ensures { result ≡ ends self.now numbers.now }
    {
        let channels = u32::from(self.channels);
        if is_last(channels, numbers.channels) || self.clients <= numbers.clients {
            return true;
        }
        if is_last(self.clients, numbers.clients) && !numbers.wait() {
            return true;
        }
        (is_scarce(self.clients, numbers.clients) || is_scarce(channels, numbers.channels))
            && numbers.are_quiet()
    }
}
