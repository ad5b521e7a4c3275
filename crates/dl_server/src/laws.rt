//! Laws of a server: what its rounds and its closing are to its journal.

ghost use Rattle.std.specs.Prelude.{◌≡◌, ◌≤◌, ℕ, Bool, true, Option};
ghost use Rattle.dl_bytes.specs.declared.conf.Conf.{Conf};
ghost use Rattle.dl_bytes.specs.declared.conf.Stored.{Stored};
ghost use Rattle.dl_bytes.specs.declared.moment.Moment.{Moment};
ghost use Rattle.dl_core.specs.Settings.{begun_for};
ghost use Rattle.dl_loop.specs.Daemon.{TellTaken};
ghost use Rattle.dl_model.specs.declared.software.Software.{Software};
ghost use Rattle.dl_outside.specs.Told.{NetTold};
ghost use Rattle.dl_server.specs.Closing.{IsClosed};
ghost use Rattle.dl_server.specs.Holds.{GoesOn, GoesOnUntilClosed};
ghost use Rattle.dl_server.specs.Round.{IsRound};
ghost use Rattle.dl_server.specs.Server.{IsMade, IsServer};
ghost use Rattle.dl_server.specs.State.{State};
ghost use Rattle.dl_server.specs.declared.server.Server.{Server};
ghost use Rattle.dl_socket.specs.Channels.{none_opened};
ghost use Rattle.dl_trace.specs.State.{Trace};
ghost use Rattle.dl_turns.specs.Gone.{TellTheEnd};

use dl_events::Journal;
use dl_outside::Link;

/// A server that was just made, of a core before its first event and of channels of which none was opened, is one.
pub fn a_made_server_is_one<J: Journal, L: Link>()
    ensures { (software : Software) (conf : Conf) (stored : Stored) (first : ℕ) (trace : Option Trace) (journal : J) (clients programs at_once in_all : ℕ) (s : Server J L)
        → IsMade (begun_for software conf stored first trace clients) journal (none_opened at_once in_all) clients programs s → in_all ≤ programs → IsServer L.told s }
{}

/// A round is its events: core, folder and what the links took are those of the longer journal, which stays well-formed. It is so where the folder held
/// the trace files that stood, and where it did not.
pub fn a_round_is_its_events<L: Link>()
    ensures { (held : Bool) (net net_now users users_now : NetTold L) (old new : State) → IsRound L.told net net_now users users_now old new
        → GoesOn (TellTaken L.told) (held ≡ true) old new }
{
    dl_rounds::laws::a_round_is_its_events::<L>();
    dl_turns::laws::a_pump_is_its_events();
}

/// A closing is its events, likewise.
pub fn a_closing_is_its_events<L: Link>()
    ensures { (held : Bool) (moment : Moment) (old new : State) → IsClosed (TellTheEnd L.told) moment old new
        → GoesOnUntilClosed (TellTaken L.told) (held ≡ true) old new }
{
    dl_rounds::laws::a_round_is_its_events::<L>();
}
