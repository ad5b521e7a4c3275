//! Laws of a stop: what it is to the journal, to each client, and to the account.

ghost use Rattle.std.specs.Prelude.{◌≡◌, ◌++◌, ◌+◌, ◌≤◌, ◌==◌, ℕ, true, false, List, All, length, map};
ghost use Rattle.dl_bytes.specs.declared.conf.AppSpec.{AppSpec};
ghost use Rattle.dl_bytes.specs.declared.outcome.LinkEnd.{LinkEnd};
ghost use Rattle.dl_events.specs.declared.event.Event.{Event};
ghost use Rattle.dl_events.specs.declared.event.Why.TheVariants.{Slow, Stopped, Stuck};
ghost use Rattle.dl_model.specs.Backlog.{outbox_limit};
ghost use Rattle.dl_model.specs.Setting.{Setting};
ghost use Rattle.dl_outside.specs.Links.{Links};
ghost use Rattle.dl_outside.specs.Told.{FolderTold, LinkTold};
ghost use Rattle.dl_writer.specs.State.{IsWhole};
ghost use Rattle.dl_account.specs.Known.{AreGathered};
ghost use Rattle.dl_account.specs.State.{AccountState, ClosingState};
ghost use Rattle.dl_core.specs.Follows.{IsAfter, Run};
ghost use Rattle.dl_core.specs.State.{Core};
ghost use Rattle.dl_taking.specs.Drained.{GivesTook, IsDrain};
ghost use Rattle.dl_taking.specs.Draining.{all_claims_left, all_to_note, closing_took};
ghost use Rattle.dl_taking.specs.Side.{Side};
ghost use Rattle.dl_turns.specs.Gone.{TellTheEnd};
ghost use Rattle.dl_rounds.specs.Passing.{AreAsNoted};
ghost use Rattle.dl_rounds.specs.Shown.{AllShowWhy};
ghost use Rattle.dl_rounds.specs.declared.listener.Listener.{Listener};
ghost use Rattle.dl_settling.specs.Ends.{ends_in};
ghost use Rattle.dl_settling.specs.Room.{HasFewClaims, IsFew, together};
ghost use Rattle.dl_settling.specs.Settling.{Settles};
ghost use Rattle.dl_settling.specs.State.{Stopping, clients_at, clients_of};
ghost use Rattle.dl_settling.specs.Stopped.{IsStop, account_took};
ghost use Rattle.dl_settling.specs.Went.{HasEnded, HaveEnded, HaveGone, TellBytes, TellStreams};

use dl_outside::Link;

/// A stop is its events and the bytes that links took: journal, core, folder, level words and queues of injections go on by them, and a
/// well-formed journal stays so. The journal tells just what was taken, and no client is open in the end.
pub fn a_stop_is_its_events<L: Link>()
    ensures { (dropped : ℕ) (old : Stopping L) (account : AccountState) (links : Links L) (folder folder_now : FolderTold)
        → (settles : Settles L.told dropped old account links folder folder_now) → IsStop L.told dropped settles.closed.core old account links folder folder_now }
{
    dl_rounds::laws::clients_are_as_noted::<L>();
}

/// Clients that are as a run's events have them are so while calls, claims and losses are taken, where their links tell.
pub fn clients_stay_as_noted()
    ensures { (run : Run) (past : List Event) (taken : ℕ → List ℕ) (specs : List AppSpec) (old new : Side) (links : List LinkTold) (listeners : List Listener)
        → (drain : IsDrain specs old new) → GivesTook specs new.took run → AreAsNoted run past taken (clients_at links listeners old)
        → AreAsNoted run (past ++ drain.more) taken (clients_at links listeners new) }
{}

/// What stands at the end of links tells, in each run, how many frames and bytes each client's stream has.
pub fn ends_tell_streams()
    ensures { (run : Run) (events : List Event) (taken : ℕ → List ℕ) (core : Core) → IsAfter run events taken core
        → TellStreams run events (length core.hub.clients) (ends_in core.hub) }
{}

/// At the end of a stop each client has gone as the model of a daemon's end says, where links tell what they gave and took; and so are the ends of
/// their links.
pub fn how_clients_went<L: Link>()
    ensures { (run : Run) (taken : ℕ → List ℕ) (dropped : ℕ) (old : Stopping L) (account : AccountState) (links : Links L) (folder folder_now : FolderTold)
        → Settles L.told dropped old account links folder folder_now → TellBytes L.told → GivesTook account.apps (account_took account) run
        → AreAsNoted run old.journal.events taken (clients_of L.told old folder) → HaveGone run account.events (map L.told links.links) account.outcome.links }
{
    dl_rounds::laws::clients_are_as_noted::<L>();
}

/// At the end of a stop each client has its Close, whatever links tell. As much was left of its stream as the cause tells, and its end is complete
/// where nothing was; and its link shows the cause by its counts.
pub fn how_clients_ended<L: Link>()
    ensures { (run : Run) (taken : ℕ → List ℕ) (dropped : ℕ) (old : Stopping L) (account : AccountState) (links : Links L) (folder folder_now : FolderTold)
        → Settles L.told dropped old account links folder folder_now → GivesTook account.apps (account_took account) run → IsAfter run old.journal.events taken old.core
        → AllShowWhy (TellTheEnd L.told) old.journal.events old.core.hub (map L.told old.links.links)
        → HaveEnded (TellTheEnd L.told) run.setting account.events (map L.told links.links) account.outcome.links }
{
    dl_rounds::laws::gone_clients_show_why::<L>();
    dl_rounds::laws::a_round_is_its_events::<L>();
}

/// A stopped client's link took all of its stream, and a stuck one's did not. A slow one's did exactly where its outbox had the room that an empty
/// one has.
pub fn which_ends_are_complete<L: Link>()
    ensures stopped { (setting : Setting) (events : List Event) (number : ℕ) (link : LinkTold) (end : LinkEnd) (ended : HasEnded (TellTheEnd L.told) setting events number link end)
        → ended.cause ≡ Stopped → end.complete ≡ true }
    ensures stuck { (setting : Setting) (events : List Event) (number bytes : ℕ) (link : LinkTold) (end : LinkEnd) (ended : HasEnded (TellTheEnd L.told) setting events number link end)
        → ended.cause ≡ Stuck bytes → end.complete ≡ false }
    ensures slow { (setting : Setting) (events : List Event) (number room need : ℕ) (link : LinkTold) (end : LinkEnd) (ended : HasEnded (TellTheEnd L.told) setting events number link end)
        → ended.cause ≡ Slow room need → end.complete ≡ (room == outbox_limit setting.buffer) }
{}

/// All that is left of the applications fits into what may still be noted, where the books are whole and have together at most so many records as
/// there may be events: with the Log and Lost events that there are it makes no more than these records. Of claims there are at most 64 for each
/// application: with the Claim events that there are those that are left make at most 1024.
pub fn what_is_left_fits()
    ensures calls { (closing : ClosingState) (noted calls : ℕ) → AreGathered closing → All IsWhole closing.books → together closing.books ≤ calls
        → IsFew noted (closing_took closing) (length closing.apps) → noted + all_to_note closing ≤ calls }
    ensures claims { (closing : ClosingState) (claimed : ℕ) → AreGathered closing → length closing.apps ≤ 16
        → HasFewClaims claimed (closing_took closing) (length closing.apps) → claimed + all_claims_left closing ≤ 1024 }
{}
