//! The rounds.

ghost use Rattle.std.specs.Prelude.{◌≡◌, IfSome, None};
ghost use Rattle.dl_server.specs.Server.{IsServer};
ghost use Rattle.dl_daemon.specs.Rounds.{HasMadeRounds, HasRoom, StopsFor, opened_again};
ghost use Rattle.dl_daemon.specs.Watching.{asked_once};

use crate::figures::Passed;
use crate::renewing::Renewal;
use crate::watch::Watch;
use dl_bytes::{Moment, TURN_FRAMES};
use dl_events::Unkept;
use dl_outside::{Clock, Folder, Link, Net};
use dl_server::Server;
use std::sync::Wait;

/// Why the rounds of a daemon end.
#[derive(Clone, Copy, Debug, PartialEq, Eq)]
pub enum Stop {
    /// The watch said so.
    Asked,
    /// The turn of a channel might admit more frames than 2^40 in all.
    Spent,
}

/// Whether, and why, no round is to begin.
fn stops<L: Link, W: Watch>(
    server: &Server<Unkept, L>,
    passed: Passed,
    moment: Moment,
    watch: &mut W,
) -> Option<Stop>
    ensures watched { W.watched watch.new ≡ asked_once result (W.watched watch.old) }
    ensures stops { IfSome result (λ why. StopsFor why server.now.core) }
    ensures room { result ≡ None → HasRoom server.now.core }
{
    if !server.core.may_admit(TURN_FRAMES) {
        return Some(Stop::Spent);
    }
    if !watch.goes_on(server, passed, moment) {
        return Some(Stop::Asked);
    }
    None
}

/// Nets that failed are asked again: a failed accept ends nothing, and the net counts it.
fn ask_again<L>(server: &mut Server<Unkept, L>)
    ensures { server.new ≡ opened_again server.old }
{
    server.no_clients = false;
    server.no_programs = false;
}

/// What has passed so far.
pub(crate) fn passed<N: Net>(net: &N, users: &N, renewal: &Renewal) -> Passed
    ensures { result ≡ record {
      client_faults = (N.told net.now).faults;
      program_faults = (N.told users.now).faults;
      renewed = renewal.now.tries.renewed;
      taken = 0;
      unstored = renewal.now.tries.unstored;
    } }
{
    Passed {
        client_faults: net.faults(),
        program_faults: users.faults(),
        renewed: renewal.tries.renewed,
        taken: 0,
        unstored: renewal.tries.unstored,
    }
}

/// Goes round until the watch ends it, or more frames might be admitted than may be. A trace that has ended is begun anew, at most once a minute. Answers
/// why it stopped. It may wait.
pub fn go_round<R: Wait, N: Net, C: Clock, F: Folder, W: Watch>(
    rt: &R,
    server: &mut Server<Unkept, N::L>,
    renewal: &mut Renewal,
    net: &mut N,
    users: &mut N,
    clock: &C,
    folder: &mut F,
    watch: &mut W,
) -> Stop
where
    N::L: Drop,
    requires server { IsServer N.L.told server.old }
    ensures rounds { HasMadeRounds N.L.told renewal.old.conf renewal.old.tries result (N.told net.old) (N.told net.new) (N.told users.old) (N.told users.new)
        (F.told folder.old) (F.told folder.new) (W.watched watch.old) (W.watched watch.new) server.old server.new }
    ensures server { IsServer N.L.told server.new }
{
    for _round in rt.forever() {
        let moment = clock.now();
        match stops(server, passed(net, users, renewal), moment, watch) {
            Some(why) => return why,
            None => {}
        }
        let _begun = renewal.renew(server, folder, moment);
        ask_again(server);
        server.round(rt, net, users, clock, folder);
    }
    unreachable!()
}
