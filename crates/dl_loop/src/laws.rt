//! Laws of the daemon.

ghost use Rattle.std.specs.Prelude.{◌≡◌, true, false, ◌<◌, ◌≤◌, ◌+◌, ◌/◌, ◌%◌, ◌^◌, ◌++◌, ◌∷◌, [], ℕ, Bool, List, length, min};
ghost use Rattle.std.specs.List.{AllByRecursion};
ghost use Rattle.dl_bytes.specs.declared.conf.AppSpec.{AppSpec};
ghost use Rattle.dl_bytes.specs.declared.moment.Moment.{Moment};
ghost use Rattle.dl_bytes.specs.declared.user.UserMsg.{UserMsg};
ghost use Rattle.dl_events.specs.declared.event.Event.{Event};
ghost use Rattle.dl_cells.specs.Losses.{report, reported_of};
ghost use Rattle.dl_cells.specs.declared.loss_keeper.Report.{Report};
ghost use Rattle.dl_model.specs.ClientEnds.{MayDrop};
ghost use Rattle.dl_outside.specs.Links.{Links};
ghost use Rattle.dl_outside.specs.Told.{FolderTold, NetTold};
ghost use Rattle.dl_desk.specs.Apps.{AppState};
ghost use Rattle.dl_desk.specs.Made.{IsNew};
ghost use Rattle.dl_desk.specs.State.{DeskState};
ghost use Rattle.dl_account.specs.Settled.{IsJournalOf};
ghost use Rattle.dl_account.specs.State.{AccountState};
ghost use Rattle.dl_rounds.specs.Greetings.{IsRegistration, MayGreet, hello_of, registered};
ghost use Rattle.dl_taking.specs.declared.taking.Got.{Got};
ghost use Rattle.dl_rounds.specs.Passing.{EachOpen, WasRead, WasSent};
ghost use Rattle.dl_rounds.specs.declared.accepting.Arrival.{Arrival};
ghost use Rattle.dl_loop.specs.Bounds.{HasBounds};
ghost use Rattle.dl_loop.specs.Daemon.{IsDaemon};
ghost use Rattle.dl_loop.specs.Greeting.{AreListed, Greets};
ghost use Rattle.dl_loop.specs.InRound.{HasHadTurn};
ghost use Rattle.dl_loop.specs.Later.{GoesRound, IsLaterBy};
ghost use Rattle.dl_loop.specs.Made.{IsMade, IsUntouched};
ghost use Rattle.dl_loop.specs.RoundSteps.{IsRound};
ghost use Rattle.dl_loop.specs.Scene.{Scene, scene};
ghost use Rattle.dl_loop.specs.Limits.{claim_limit};
ghost use Rattle.dl_loop.specs.State.{DaemonState, clients_of, desk_told};
ghost use Rattle.dl_loop.specs.Steps.{Accepts, GoesOn, Hears, Parts, Pumps};
ghost use Rattle.dl_loop.specs.Stops.{IsStopped};
ghost use Rattle.dl_loop.specs.Takes.{TakesLosses, TakesSomeOf, TakesTurn};
ghost use Rattle.dl_loop.specs.Told.{IsToldBy};
ghost use Rattle.dl_loop.specs.declared.round.Round.{Round};

use dl_outside::Link;

/// A journal that tells just what was taken, reported and set is the journal of the account that is made of it.
pub fn what_is_told_is_the_journal()
    ensures { (events : List Event) (s : AccountState) → IsToldBy events (length s.apps) s.handles → IsJournalOf events s }
{}

/// A daemon may be made of a desk that was just made, and of one of which writers were made since.
pub fn a_new_desk_is_untouched()
    ensures new { (desk : DeskState) (specs : List AppSpec) → length specs ≤ 16 → IsNew desk specs → IsUntouched desk }
    ensures with_writers { (desk : DeskState) (specs : List AppSpec) → length specs ≤ 16 → IsNew (record desk { owners = [] }) specs → IsUntouched desk }
{}

/// A daemon that was just made is one.
pub fn a_made_daemon_is_one<L: Link>()
    ensures { (d : DaemonState L) → IsMade d → IsDaemon L.told d }
{}

/// A daemon is one after an accept, whatever came of it; after listening to each open client; after sending each what waits for it; and after the
/// links of clients that are gone were shut.
pub fn a_daemon_goes_on<L: Link>()
    ensures accepted { (came : Arrival) (net net_now : NetTold L) (old new : DaemonState L) → IsDaemon L.told old
        → Accepts L.told came net net_now old new → IsDaemon L.told new }
    ensures heard { (moved : Bool) (folder folder_now : FolderTold) (old new : DaemonState L) → IsDaemon L.told old
        → Hears L.told moved folder folder_now old new → GoesOn old new → IsDaemon L.told new }
    ensures pumped { (moved : Bool) (old new : DaemonState L) → IsDaemon L.told old
        → Pumps L.told moved old new → GoesOn old new → IsDaemon L.told new }
    ensures parted { (old new : DaemonState L) → IsDaemon L.told old → Parts L.told old new → IsDaemon L.told new }
{
    dl_rounds::laws::clients_are_as_noted::<L>();
    dl_rounds::laws::gone_clients_show_why::<L>();
    dl_turns::laws::a_pump_is_its_events();
}

/// A daemon is one after calls and a claim of an application were taken, and after its losses were.
pub fn a_daemon_goes_on_taking<L: Link>()
    ensures calls { (app most : ℕ) (got : Got) (folder folder_now : FolderTold) (old new : DaemonState L) → IsDaemon L.told old → old.greeted ≡ true
        → app < length old.desk.apps → old.noted + most ≤ old.calls → old.claimed < claim_limit
        → TakesSomeOf app most got (scene old folder) (scene new folder_now) → IsDaemon L.told new }
    ensures losses { (app count : ℕ) (folder folder_now : FolderTold) (old new : DaemonState L) → IsDaemon L.told old → old.greeted ≡ true
        → app < length old.desk.apps → old.noted < old.calls → TakesLosses app count (scene old folder) (scene new folder_now) → IsDaemon L.told new }
{}

/// A daemon is one after its own applications told of themselves, before the first client came: after all that those of its desk tell, and after
/// some of it, where it doesn't say that they have.
pub fn a_daemon_goes_on_greeting<L: Link>()
    ensures all { (moment : Moment) (apps : List AppState) (folder folder_now : FolderTold) (old new : DaemonState L) → IsDaemon L.told old
        → old.links.links ≡ [] → registered old.core ≡ 0 → AllByRecursion IsRegistration (hello_of apps) → AreListed old.desk.apps apps
        → Greets moment (hello_of apps) (scene old folder) (scene new folder_now)
        → MayGreet new.core (desk_told new.desk) new.journal.spare → old.journal.spare ≤ new.journal.spare → IsDaemon L.told new }
    ensures some { (moment : Moment) (msgs : List UserMsg) (folder folder_now : FolderTold) (old new : DaemonState L) → IsDaemon L.told old
        → old.links.links ≡ [] → AllByRecursion IsRegistration msgs → Greets moment msgs (scene old folder) (scene new folder_now)
        → MayGreet new.core (desk_told new.desk) new.journal.spare → old.journal.spare ≤ new.journal.spare → new.greeted ≡ false → IsDaemon L.told new }
{}

/// Rounds of a daemon in a row are rounds of it, and none is one in which nothing happened.
pub fn rounds_go_on<L: Link>()
    ensures none { (net : NetTold L) (s : Scene L) → GoesRound net net s s }
    ensures both { (net net_between net_now : NetTold L) (first second third : Scene L) → GoesRound net net_between first second
        → GoesRound net_between net_now second third → GoesRound net net_now first third }
{}

/// Links are dropped only where as many clients had come as may be open at once: in rounds of a daemon to which nobody had come, and in its stop.
pub fn links_are_dropped_where_they_may_be<L: Link>()
    ensures rounds { (net net_now : NetTold L) (old new : Scene L) → old.daemon.links.links ≡ [] → old.daemon.dropped ≡ 0 → GoesRound net net_now old new
        → MayDrop new.daemon.journal.events new.daemon.dropped }
    ensures stop { (d : DaemonState L) (account : AccountState) (links : Links L) (folder folder_now : FolderTold) → MayDrop d.journal.events d.dropped
        → IsStopped L.told d account links folder folder_now → MayDrop account.events account.outcome.dropped }
{}

/// A daemon that is later by some events and then by others is later by all of them; and by no event it is as it was.
pub fn a_daemon_is_later<L: Link>()
    ensures none { (s : Scene L) → IsLaterBy [] s s }
    ensures both { (some others : List Event) (first second third : Scene L) → IsLaterBy some first second → IsLaterBy others second third
        → IsLaterBy (some ++ others) first third }
{}

/// Each client that is open after a round has a link that gave a byte in it or had nothing to give yet; and nothing is left to send to it, or its
/// link took nothing more.
pub fn a_round_serves_each_client<L: Link>()
    ensures read { (answer : Round) (net net_now : NetTold L) (old new : Scene L) (round : IsRound L.told answer net net_now old new)
        → EachOpen WasRead (clients_of L.told round.serves.accepted old.folder) (clients_of L.told new.daemon new.folder) }
    ensures sent { (answer : Round) (net net_now : NetTold L) (old new : Scene L) (round : IsRound L.told answer net net_now old new)
        → EachOpen WasSent (clients_of L.told round.serves.accepted old.folder) (clients_of L.told new.daemon new.folder) }
{
    dl_rounds::laws::a_round_visits_each_client();
    dl_rounds::laws::why_clients_stay();
}

/// In a round each application has its turn: 64 takes of its ring give, or one finds the ring empty, and then its losses are taken once; but no more
/// are taken where the Log and Lost events are as many as calls are allowed, and no more of its ring where there are 1025 Claim events.
pub fn a_round_takes_of_each_application<L: Link>()
    ensures turn { (app : ℕ) (old new : Scene L) → TakesTurn app old new → HasHadTurn app old new }
    ensures round { (answer : Round) (net net_now : NetTold L) (old new : Scene L) → IsRound L.told answer net net_now old new
        → (app : ℕ) → app < length old.daemon.desk.apps → HasHadTurn app old new }
{}

/// A daemon admits far fewer frames than may be: the bound goes on with Log events and with Lost events, and fewer than 2^32 of these admit
/// fewer than 2^33 frames.
pub fn few_frames_are_admitted()
    ensures few { (noted admitted : ℕ) (reports : List Report) → HasBounds noted admitted reports → noted < 2 ^ 32 → admitted < 2 ^ 33 }
    ensures logs { (noted admitted many : ℕ) (reports : List Report) → HasBounds noted admitted reports
        → HasBounds (noted + many) (admitted + many) reports }
    ensures lost { (noted admitted app count frames : ℕ) (reports : List Report) → app < 16 → frames ≡ count / 4294967295 + min 1 (count % 4294967295)
        → ((other : ℕ) → reported_of other (reports ++ report app count ∷ []) < 2 ^ 47)
        → HasBounds noted admitted reports → HasBounds (noted + 1) (admitted + frames) (reports ++ report app count ∷ []) }
{}
