//! Laws on what a run comes to.

ghost use Rattle.std.specs.Prelude.{◌≡◌, ℕ, ◌+◌, ◌^◌, ◌<◌, ◌≤◌, ◌++◌, All, Bool, false, List, [], Option, length};
ghost use Rattle.std.specs.List.{AllByRecursion, range_with_len};
ghost use Rattle.dl_crew.specs.Plays.{ArePairs, CanPlay, HasPlayed};
ghost use Rattle.dl_desk.specs.Made.{IsLater};
ghost use Rattle.dl_desk.specs.State.{DeskState};
ghost use Rattle.dl_desk.specs.Told.{ControlTold, told_by};
ghost use Rattle.dl_ending.specs.Ending.{Finishes};
ghost use Rattle.dl_events.specs.declared.event.Event.{Event};
ghost use Rattle.dl_account.specs.Making.{AreMadeWith};
ghost use Rattle.dl_account.specs.Settled.{IsSettled};
ghost use Rattle.dl_account.specs.State.{AccountState};
ghost use Rattle.dl_loop.specs.Greeting.{AreListed};
ghost use Rattle.dl_message.specs.Requests.{requests};
ghost use Rattle.dl_model.specs.ClientEnds.{HasGone, LinkDid, asked_by};
ghost use Rattle.dl_model.specs.Frames.{FrameSource};
ghost use Rattle.dl_model.specs.Setting.{Setting};
ghost use Rattle.dl_opening.specs.Opening.{IsOpened};
ghost use Rattle.dl_opening.specs.Scenario.{writers};
ghost use Rattle.dl_opening.specs.declared.opened.Opened.{Opened};
ghost use Rattle.dl_outside.specs.Links.{Links};
ghost use Rattle.dl_outside.specs.Told.{FolderTold, LinkTold, NetTold, SinkTold};
ghost use Rattle.dl_rounds.specs.Greetings.{IsIntroduced, registered};
ghost use Rattle.dl_script.specs.Playable.{IsRunnable};
ghost use Rattle.dl_script_model.specs.declared.scenario.ScenarioLine.{ScenarioLine};
ghost use Rattle.dl_settling.specs.Room.{together};
ghost use Rattle.dl_startup.specs.Setup.{IsBegun};
ghost use Rattle.dl_startup.specs.Unchanged.{IsQuiet};
ghost use Rattle.dl_startup.specs.declared.failures.Failures.{Failures};
ghost use Rattle.dl_startup.specs.declared.status.Status.{Status};
ghost use Rattle.dl_storage.specs.declared.ends.StoreEnd.{StoreEnd};
ghost use Rattle.dl_storage.specs.declared.ends.StoreEnds.{StoreEnds};
ghost use Rattle.dl_turns.specs.Injected.{HasInjected};
ghost use Rattle.dl_writer.specs.State.{BookState, IsWhole, numbers};
ghost use Rattle.dl_live.specs.declared.beginning.Begun.{Begun};
ghost use Rattle.dl_live.specs.declared.players.Players.{Players};
ghost use Rattle.dl_live.specs.Account.{IsComeTo};
ghost use Rattle.dl_live.specs.Clients.{IsHeard};
ghost use Rattle.dl_live.specs.Ends.{EndsStored, KnownOf, report};
ghost use Rattle.dl_live.specs.Injected.{IsInjected};
ghost use Rattle.dl_live.specs.Played.{HasPlayedAll};
ghost use Rattle.dl_live.specs.Playing.{ArePlayersOf, CanBePlayed, HasBeenPlayed};
ghost use Rattle.dl_live.specs.Program.{ChangesNoOther, IsRun, Outcome, Says};
ghost use Rattle.dl_live.specs.Told.{Told, told};

use dl_crew::laws::played_books_stay;
use dl_opening::laws::{opened_books_ask_for_all, opened_books_can_be_played};
use dl_outside::Link;

/// The books of an opened scenario, once they were played by a crew, have a record of each call that the lines ask of their writers, in the order of
/// the lines; each is whole, its writer's claims are those of its `register` lines, and it asked for an injection after each call. So it is where no
/// place was wanting for a claim. They are numbered from 1 on.
pub fn played_books_have_all_calls()
    ensures played { (lines : List ScenarioLine) (o : Opened) (books : List BookState) → IsRunnable lines → IsOpened lines o
        → ArePairs (HasPlayed o.plan.contexts o.plan.lines) o.books books → All (λ b. b.writer.table_full ≡ 0) books
        → ArePairs (HasPlayedAll lines) (writers lines) books }
    ensures numbered { (lines : List ScenarioLine) (o : Opened) (books : List BookState) → IsOpened lines o
        → ArePairs (HasPlayed o.plan.contexts o.plan.lines) o.books books → numbers books ≡ range_with_len 1 (length books) }
{
    opened_books_ask_for_all();
    opened_books_can_be_played();
    played_books_stay();
}

/// Where the queue of an application took and refused just the injections of a journal's requests, the account of that journal tells what became of
/// them: its writers were given no more than the queue took, and no more than 16 are left.
pub fn an_account_tells_of_injections()
    ensures { (setting : Setting) (account : AccountState) (first : ControlTold) (app : ℕ) → IsSettled account → app < length account.apps
        → first.pushed app ≡ [] → first.refusals app ≡ 0
        → HasInjected setting [] account.events app first (told_by (length account.apps) account.handles) → IsInjected setting account app }
{}

/// What a status says of a run is what is promised of the whole: the words decide first, what is written is the report of the account and of what
/// the filters stored, or its front, and where all is of the form and nothing fails, the report was written whole, or a frame had no name, or memory
/// ran out.
pub fn an_outcome_is_a_run<L: Link>()
    ensures { (said : List (List ℕ)) (old new : Told L) (err err_now : SinkTold) (status : Status) (account : Option AccountState) (links : Links L)
        → (stored : Option StoreEnds) → Outcome L.told said old new status account stored links → ChangesNoOther said old.folder new.folder
        → Says status err err_now → IsRun L.told said old new err err_now status account stored links }
{}

/// What the calls of a run ask of what was assembled for it: its applications introduce themselves and have a place at the desk, its clients and its
/// books are few enough, and each book has room. And what the stop asks of the books that the crew played: they are whole, they are of the desk as it is
/// then, and there are no more calls than the daemon may note.
pub fn what_was_assembled_can_be_played<L: Link>()
    ensures introduced { (p : Players L) → CanBePlayed p → AllByRecursion IsIntroduced p.apps }
    ensures nobody { (p : Players L) → CanBePlayed p → p.daemon.links.links ≡ [] }
    ensures listed { (p : Players L) → CanBePlayed p → AreListed p.daemon.desk.apps p.apps }
    ensures place { (p : Players L) → CanBePlayed p → registered p.daemon.core + length p.apps ≤ length p.daemon.desk.apps }
    ensures scripts { (p : Players L) → CanBePlayed p → length p.scripts < 2 ^ 32 }
    ensures books { (p : Players L) → CanBePlayed p → (length p.books ≤ 32) × All (CanPlay p.plan.lines) p.books }
    ensures whole { (p : Players L) (books : List BookState) → CanBePlayed p → ArePairs (HasPlayed p.plan.contexts p.plan.lines) p.books books → All IsWhole books }
    ensures made { (p : Players L) (books : List BookState) (desk : DeskState) → CanBePlayed p → ArePairs (HasPlayed p.plan.contexts p.plan.lines) p.books books
        → IsLater p.daemon.desk desk → AreMadeWith desk books }
    ensures few { (p : Players L) (books : List BookState) → CanBePlayed p → ArePairs (HasPlayed p.plan.contexts p.plan.lines) p.books books
        → together books ≤ p.daemon.calls }
{}

/// A run that was played is come to its account: its journal is well-formed and its records account for it, it is of the scenario, its clients were
/// served, net and folder are what its events made of them, and its trace files are those of its events. The folder may have been looked at before, but
/// it was left alone since the trace was begun over it.
pub fn what_was_played_is_its_account<L: Link>()
    ensures { (begun : Begun) (p : Players L) (wanted failed : Bool) (net heard net_now : NetTold L) (first folder folder_now : FolderTold) (out out_now : SinkTold)
        (account : AccountState) (links : Links L) → IsRunnable begun.scenario → ArePlayersOf begun p → IsBegun begun.conf first.files begun.trace
        → IsQuiet first folder → IsHeard begun.port net heard → HasBeenPlayed L.told p wanted failed heard net_now folder folder_now account links
        → IsComeTo L.told begun (told first net out) (told folder_now net_now out_now) account links }
{}

/// The status that is found as a report is written says how the run ended.
pub fn a_status_says_how_a_run_ended<L: Link>()
    ensures { (begun : Begun) (account : AccountState) (ends : List StoreEnd) (old new : Told L) (failures : Failures) (status : Status)
        → failures.journal_full ≡ false → KnownOf begun account ends old new failures.net failures.folder failures.names_spent failures.memory
        → Finishes (report begun account ends) failures old.out new.out status → EndsStored begun account ends old new status }
{}

/// Where a client was cut off, at whatever byte of what it had to send, it asked a prefix of what all of that asks: what it was owed are the replies to
/// those requests, in their order.
pub fn who_was_cut_off_was_owed_a_prefix()
    ensures { (setting : Setting) (source : FrameSource) (events : List Event) (client : ℕ) (did : LinkDid) (unsent : List ℕ)
        → (gone : HasGone setting source events client did)
        → (more : List (List ℕ)) × (requests (did.given ++ unsent) ≡ asked_by client gone.before ++ more) }
{}
