//! The rounds.

ghost use Rattle.std.specs.Prelude.{◌≡◌, false, true};
ghost use Rattle.dl_server.specs.Server.{IsServer, SameLimits};
ghost use Rattle.dl_server.specs.State.{shown};
ghost use Rattle.dl_serve.specs.Rounds.{HasRoom, HasMadeRounds, IsFull, kept};

use dl_events::Kept;
use dl_outside::{Clock, Folder, Net};
use dl_server::Server;
use std::sync::Wait;

/// How many events are too many at the begin of a round.
const EVENT_LIMIT: usize = 1_000_000;

/// Whether a journal has so many.
fn is_full(journal: &Kept) -> bool
    ensures full { result ≡ true → IsFull (kept journal.now) }
    ensures room { result ≡ false → HasRoom (kept journal.now) }
{
    journal.events().len() >= EVENT_LIMIT
}

/// So many rounds, unless the journal is full at the begin of one. Answers whether it was.
pub fn serve_rounds<R: Wait, N: Net, C: Clock, F: Folder>(
    rt: &R,
    rounds: u32,
    server: &mut Server<Kept, N::L>,
    net: &mut N,
    users: &mut N,
    clock: &C,
    folder: &mut F,
) -> bool
where
    N::L: Drop,
    requires server { IsServer N.L.told server.old }
    ensures served { let s = shown N.L.told kept true F.told in HasMadeRounds N.L.told rounds result (N.told net.old) (N.told net.new) (N.told users.old) (N.told users.new)
        (s folder.old server.old) (s folder.new server.new) }
    ensures server { IsServer N.L.told server.new }
    ensures limits { SameLimits server.old server.new }
{
    for _round in 0..rounds {
        let full = is_full(&server.journal);
        if full {
            return true;
        }
        server.round(rt, net, users, clock, folder);
    }
    false
}
