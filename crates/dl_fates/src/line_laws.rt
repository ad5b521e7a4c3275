//! Laws on the lines in which lost calls are told.

ghost use Rattle.std.specs.Prelude.{◌≡◌, ◌<◌, ◌++◌, ℕ, true, List, Some};
ghost use Rattle.dl_bytes.specs.declared.outcome.Done.{Done};
ghost use Rattle.dl_script_model.specs.declared.step.Step.TheVariants as line;
ghost use Rattle.dl_script_model.specs.Marks.{Call, Mark, number_of, pending, to_count, to_push};
ghost use Rattle.dl_model.specs.Setting.{Setting};
ghost use Rattle.dl_script_model.specs.Steps.{act_of};
ghost use Rattle.dl_fates.specs.Lines.{StepAt};
ghost use Rattle.dl_fates.specs.Noted.{is_refused_next, lost_behind_count, next_lost};
ghost use Rattle.dl_fates.specs.Told.{told_in, told_loaded, told_refused};

/// Whatever came before, where lost calls of an application are counted and not yet told, the next of its `losses` lines is the next line that notes a
/// Lost event of it, and behind that line none of them is left to be told.
pub fn losses_lines_tell()
    ensures next { (setting : Setting) (answers : List Done) (apid : List ℕ) (app : ℕ) (steps : List StepAt) (done : List Mark) →
        number_of apid done ≡ Some app → 0 < pending app done → told_in apid steps ≡ next_lost setting answers app steps done }
    ensures all { (setting : Setting) (answers : List Done) (apid : List ℕ) (app : ℕ) (done : List Mark) →
        number_of apid done ≡ Some app → 0 < pending app done → pending app (done ++ act_of setting answers (line.Losses apid) done) ≡ 0 }
{}

/// Whatever came before, where a writer's call was refused and is to be counted, the line that is said to tell of it notes the first Lost event of its
/// application behind the line that counts it. So it is where its call was loaded, and the ring refuses it when it is pushed.
pub fn open_calls_are_told()
    ensures refused { (setting : Setting) (answers : List Done) (writer : ℕ) (apid : List ℕ) (steps : List StepAt) (done : List Mark) (c : Call) →
        to_count writer done ≡ Some c → number_of apid done ≡ Some c.item.app →
        told_refused (Some apid) writer steps ≡ lost_behind_count setting answers writer c.item.app steps done }
    ensures loaded { (setting : Setting) (answers : List Done) (writer : ℕ) (apid : List ℕ) (steps : List StepAt) (done : List Mark) (c : Call) →
        to_push writer done ≡ Some c → number_of apid done ≡ Some c.item.app → is_refused_next setting answers writer steps done ≡ true →
        told_loaded (Some apid) writer steps ≡ lost_behind_count setting answers writer c.item.app steps done }
{}
