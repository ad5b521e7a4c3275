//! Rounds until the clients have come that were launched.

ghost use Rattle.std.specs.Prelude.{◌≡◌, false, true};
ghost use Rattle.dl_loop.specs.Scene.{scene};
ghost use Rattle.dl_live.specs.Playing.{Gathers};

use dl_loop::Daemon;
use dl_loop::accept_laws::{connections_add_up, what_an_answer_tells};
use dl_loop::laws::rounds_go_on;
use dl_outside::{Clock, Folder, Net};
use std::sync::Wait;

/// How often in a row nobody may come.
const PATIENCE: u32 = 1000;

/// How the wait for clients ended, where it did not end well.
#[derive(Clone, Copy, PartialEq, Eq)]
pub struct Gathered {
    /// An accept failed.
    pub failed: bool,
    /// An accept ran out of memory.
    pub wanted: bool,
}

/// Goes round until as many links came as clients were launched, an accept failed or ran out of memory, or nobody came a thousand times in a
/// row.
pub fn gather<R: Wait, N: Net, C: Clock, F: Folder>(
    rt: &R,
    launched: u32,
    daemon: &mut Daemon<N::L>,
    net: &mut N,
    clock: &C,
    folder: &mut F,
) -> Gathered
where
    N::L: Drop,
    requires greeted { daemon.old.greeted ≡ true }
    requires accepts { (daemon.old.failed ≡ false) × (daemon.old.wanted ≡ false) }
    ensures { Gathers N.L.told launched result (N.told net.old) (N.told net.new) (scene daemon.old (F.told folder.old)) (scene daemon.new (F.told folder.new)) }
{
    rounds_go_on::<N::L>();
    connections_add_up::<N::L>();
    what_an_answer_tells::<N::L>();
    let mut came = 0;
    let mut nobody = 0;
    while came < launched && nobody < PATIENCE {
        let round = daemon.round(rt, net, clock, folder);
        if round.failed || round.wanted {
            return Gathered {
                failed: round.failed,
                wanted: round.wanted,
            };
        }
        if round.accepted {
            came += 1;
            nobody = 0;
        } else {
            nobody += 1;
        }
    }
    Gathered {
        failed: false,
        wanted: false,
    }
}
