//! What the log calls tell of the marks that they are after, each as what a function that does nothing ensures.

ghost use Rattle.std.specs.Prelude.{◌≡◌, ◌<◌, ◌++◌, ◌∷◌, [], List, ℕ, length, option_map, slice_get, true, None};
ghost use Rattle.dl_script_model.specs.declared.line.CallLine.{CallLine};
ghost use Rattle.dl_model.specs.Setting.{Setting};
ghost use Rattle.dl_script_model.specs.Steps.{loaded};
ghost use Rattle.dl_script_model.specs.Marks.{Mark, number_of, pushes, taken};
ghost use Rattle.dl_world_calls.specs.State.{Calls, numbered, named, next_held, as_held};
ghost use Rattle.dl_world_calls.specs.Follows.{IsAfter, is_no_call};
ghost use Rattle.dl_world_calls.specs.Injections.{AreAfter, is_no_injection};

/// An application has the number that the marks give it.
pub fn numbers_are_those_of_the_marks()
    ensures { (done : List Mark) (calls : Calls) (apid : List ℕ) → IsAfter done calls → numbered calls apid ≡ number_of apid done }
{}

/// What the daemon takes next out of a ring is the first of what the ring took and the daemon did not take yet.
pub fn the_next_is_the_first_left()
    ensures { (done : List Mark) (calls : Calls) (app : ℕ) → app < length calls.apps → IsAfter done calls
        → next_held calls app ≡ option_map as_held (slice_get (pushes app done) (taken app done)) }
{}

/// A call of a writer or a context that is not known is not loaded.
pub fn what_names_nothing_loads_nothing()
    ensures { (setting : Setting) (done : List Mark) (calls : Calls) (line : CallLine) → IsAfter done calls
        → named calls line ≡ None → loaded setting line done ≡ None }
{}

/// What is no declaration, no step of a call, and nothing that the daemon takes of an application leaves all as it was.
pub fn other_marks_change_nothing()
    ensures { (done : List Mark) (mark : Mark) (calls : Calls) → is_no_call mark ≡ true → IsAfter done calls → IsAfter (done ++ mark ∷ []) calls }
{}

/// The counts of injections change by injections alone.
pub fn other_marks_leave_injections()
    ensures { (done : List Mark) (mark : Mark) (waiting : List ℕ) → is_no_injection mark ≡ true → AreAfter done waiting → AreAfter (done ++ mark ∷ []) waiting }
{}
