//! Laws on books that were played.

ghost use Rattle.std.specs.Prelude.{◌≡◌, ℕ, List, All};
ghost use Rattle.dl_bytes.specs.Context.{Context};
ghost use Rattle.dl_script_model.specs.declared.scenario.ScenarioLine.{ScenarioLine};
ghost use Rattle.dl_desk.specs.Made.{IsMadeWith};
ghost use Rattle.dl_desk.specs.State.{DeskState};
ghost use Rattle.dl_writer.specs.State.{BookState, IsWhole, numbers};
ghost use Rattle.dl_crew.specs.Plays.{ArePairs, HasPlayed};

/// Books that were played are those of the same writers, in their order; they are whole where they were; their writers are of
/// the desk that they were of; and where each writer's base is the one of its application, whatever that is, it still is.
pub fn played_books_stay()
    ensures numbered { (contexts : List Context) (lines : List ScenarioLine) (old new : List BookState) →
        ArePairs (HasPlayed contexts lines) old new → numbers new ≡ numbers old }
    ensures whole { (contexts : List Context) (lines : List ScenarioLine) (old new : List BookState) →
        ArePairs (HasPlayed contexts lines) old new → All IsWhole old → All IsWhole new }
    ensures made { (contexts : List Context) (lines : List ScenarioLine) (desk : DeskState) (old new : List BookState) →
        ArePairs (HasPlayed contexts lines) old new → All (λ b. IsMadeWith desk b.writer) old → All (λ b. IsMadeWith desk b.writer) new }
    ensures bases { (contexts : List Context) (lines : List ScenarioLine) (base : ℕ → ℕ) (old new : List BookState) →
        ArePairs (HasPlayed contexts lines) old new → All (λ b. b.writer.base ≡ base b.writer.app) old → All (λ b. b.writer.base ≡ base b.writer.app) new }
{}
