//! Laws on a scenario that was opened.

ghost use Rattle.std.specs.Prelude.{◌≡◌, ℕ, ◌+◌, ◌≤◌, List, All, length, sum_by};
ghost use Rattle.dl_crew.specs.Plays.{ArePairs, CanPlay, HasPlayed};
ghost use Rattle.dl_account.specs.Books.{books_of, registers_of};
ghost use Rattle.dl_script.specs.Playable.{IsRunnable};
ghost use Rattle.dl_script_model.specs.declared.scenario.ScenarioLine.{ScenarioLine};
ghost use Rattle.dl_writer.specs.State.{BookState, IsWhole};
ghost use Rattle.dl_opening.specs.Asked.{IsAsked};
ghost use Rattle.dl_opening.specs.Opening.{IsOpened};
ghost use Rattle.dl_opening.specs.Scenario.{all_calls, base_of, writers};
ghost use Rattle.dl_opening.specs.declared.opened.Opened.{Opened};

/// All books together have room for no more calls than the lines ask for, and these are no more than a scenario may ask for.
pub fn opened_books_have_few_calls()
    ensures room { (lines : List ScenarioLine) (o : Opened) → IsOpened lines o → sum_by (λ b. b.room) o.books ≤ all_calls lines }
    ensures few { (lines : List ScenarioLine) → IsRunnable lines → all_calls lines ≤ 1000000 }
{}

/// What a worker calls with its book is all that the lines ask of its writer: each call of each `calls` line in order, with
/// the application of the writer, and the context, the severity and the arguments of the line. It is so whatever places the
/// writer's claims get, and for the calls behind each of its claims alike.
pub fn opened_books_ask_for_all()
    ensures { (lines : List ScenarioLine) (o : Opened) → IsRunnable lines → IsOpened lines o → ArePairs (IsAsked lines o) (writers lines) o.books }
{}

/// The books of an opened scenario can be played by a crew: each has room for all calls and for all claims that the lines ask
/// of its writer, and is whole. The base of each writer is the number of contexts that the lines declare of its application.
pub fn opened_books_can_be_played()
    ensures few { (lines : List ScenarioLine) (o : Opened) → IsOpened lines o → length o.books ≤ 32 }
    ensures room { (lines : List ScenarioLine) (o : Opened) → IsRunnable lines → IsOpened lines o → All (CanPlay o.plan.lines) o.books }
    ensures whole { (lines : List ScenarioLine) (o : Opened) → IsOpened lines o → All IsWhole o.books }
    ensures bases { (lines : List ScenarioLine) (o : Opened) → IsOpened lines o → All (λ b. b.writer.base ≡ base_of lines b.writer.app) o.books }
{}

/// Once they were played, the writers of an application asked for no more places, together, than it has left beside its
/// declared contexts.
pub fn played_books_have_places()
    ensures { (lines : List ScenarioLine) (o : Opened) (books : List BookState) → IsRunnable lines → IsOpened lines o
        → ArePairs (HasPlayed o.plan.contexts o.plan.lines) o.books books
        → (app : ℕ) → All (λ b. registers_of app books + b.writer.base ≤ 64) (books_of app books) }
{}
