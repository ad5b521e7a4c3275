//! Laws of a daemon that stops.

ghost use Rattle.std.specs.Prelude.{◌≡◌, true, ◌≤◌, ◌+◌, ◌-◌, ◌<◌, ◌^◌, ℕ, List, All, length};
ghost use Rattle.dl_bytes.specs.Limits.{client_limit};
ghost use Rattle.dl_outside.specs.Links.{Links};
ghost use Rattle.dl_outside.specs.Told.{FolderTold};
ghost use Rattle.dl_writer.specs.State.{BookState, IsWhole};
ghost use Rattle.dl_account.specs.Known.{AreGathered};
ghost use Rattle.dl_account.specs.Making.{IsMadeOf};
ghost use Rattle.dl_account.specs.State.{AccountState, ClosingState};
ghost use Rattle.dl_taking.specs.Took.{took_by};
ghost use Rattle.dl_settling.specs.Room.{IsFew, together};
ghost use Rattle.dl_settling.specs.Settling.{Settles};
ghost use Rattle.dl_loop.specs.Daemon.{IsDaemon};
ghost use Rattle.dl_loop.specs.Limits.{place_limit};
ghost use Rattle.dl_loop.specs.State.{DaemonState};
ghost use Rattle.dl_loop.specs.Stops.{IsStopped, MayStop, stopping_of};

use dl_outside::Link;

/// A daemon may stop where its books are whole and have together at most as many records as it may note: all that is left fits. Of claims there
/// are no more than places.
pub fn a_daemon_may_stop<L: Link>()
    ensures { (d : DaemonState L) (books : List BookState) (closing : ClosingState) → IsDaemon L.told d → IsFew d.noted (took_by d.desk.handles) (length d.desk.apps)
        → d.calls < 2 ^ 32 → IsMadeOf d.desk books closing → AreGathered closing → All IsWhole closing.books → together closing.books ≤ d.calls
        → MayStop d closing (d.calls - d.noted) (place_limit - d.claimed) }
{}

/// What the stop of a daemon leaves.
pub fn what_a_stop_leaves<L: Link>()
    ensures { (d : DaemonState L) (books : List BookState) (closing : ClosingState) (account : AccountState) (links : Links L) (folder folder_now : FolderTold)
        → IsDaemon L.told d → d.greeted ≡ true → IsMadeOf d.desk books closing → Settles L.told d.dropped (stopping_of d closing) account links folder folder_now
        → IsStopped L.told d account links folder folder_now }
{
    dl_settling::laws::a_stop_is_its_events::<L>();
    dl_settling::laws::how_clients_went::<L>();
    dl_settling::laws::how_clients_ended::<L>();
    dl_core::client_turns::who_has_an_outbox();
    dl_core::laws::what_links_take();
}
