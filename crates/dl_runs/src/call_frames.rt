//! Laws on the frames of log calls, and on the ids of applications.

ghost use Rattle.std.specs.Prelude.{◌≡◌, ◌<◌, ℕ, List, [], ◌++◌, length, slice_get, Some, count_by};
ghost use Rattle.std.specs.List.{filter_map, AllByRecursion};
ghost use Rattle.dl_bytes.specs.declared.outcome.Done.{Done};
ghost use Rattle.dl_script_model.specs.declared.line.AppLine.{AppLine};
ghost use Rattle.dl_script_model.specs.declared.step.Step.{Step};
ghost use Rattle.dl_message.specs.Frames.{log_message};
ghost use Rattle.dl_model.specs.Setting.{Setting};
ghost use Rattle.dl_script_model.specs.Marks.{Call, Mark, OfCall, apid_of, apps, call_of, number_of, pushes};
ghost use Rattle.dl_script_model.specs.Runs.{AreFounded, IsNext};
ghost use Rattle.dl_script_model.specs.Replay.{frame_of_call};
ghost use Rattle.dl_script_model.specs.Steps.{after_lines, run};
ghost use Rattle.dl_runs.specs.CallFrame.{HasItsFrame};
ghost use Rattle.dl_events.specs.declared.event.Event.{Event};
ghost use Rattle.dl_model.specs.Frames.{FrameSource};
ghost use Rattle.dl_model.specs.Journal as journal;
ghost use Rattle.dl_script_model.specs.Marks as marks;
ghost use Rattle.dl_script_model.specs.Steps as steps;
ghost use Rattle.dl_model.specs.Traffic.{clients, is_open};
ghost use Rattle.dl_model.specs.ClientStream.{traffic};

/// A writer and a number name one call: all steps with both are steps of the same call.
pub fn numbers_name_calls()
    ensures { (setting : Setting) (done : List Mark) → AreFounded setting [] done →
        AllByRecursion (λ (a : Call). AllByRecursion (λ (b : Call). a.item.writer ≡ b.item.writer → a.item.call ≡ b.item.call → a ≡ b)
        (filter_map call_of done)) (filter_map call_of done) }
{}

/// Each call of a run has its frame, at any point of the run, and keeps it whatever comes later. The same of the calls that a
/// ring took, and of the one that a Log event is of.
pub fn calls_have_their_frames()
    ensures now { (setting : Setting) (done : List Mark) → AreFounded setting [] done →
        AllByRecursion (HasItsFrame setting done) (filter_map call_of done) }
    ensures later { (setting : Setting) (done more : List Mark) → AreFounded setting [] done →
        AllByRecursion (HasItsFrame setting (done ++ more)) (filter_map call_of done) }
    ensures pushed { (setting : Setting) (done more : List Mark) → AreFounded setting [] done → (app place : ℕ) (call : Call) →
        slice_get (pushes app done) place ≡ Some (OfCall call) → HasItsFrame setting (done ++ more) call }
    ensures taken { (setting : Setting) (done more : List Mark) → AreFounded setting [] done → (app writer number : ℕ) →
        (next : IsNext app writer number done) →
        frame_of_call setting (done ++ more) writer number ≡ log_message setting.ecu next.call.item }
{}

/// So does each call of lines of a script, and of a whole run.
pub fn runs_have_their_frames()
    ensures lines { (setting : Setting) (answers : List Done) (steps : List Step) →
        AllByRecursion (HasItsFrame setting (after_lines setting answers steps)) (filter_map call_of (after_lines setting answers steps)) }
    ensures whole { (setting : Setting) (answers : List Done) (steps : List Step) →
        AllByRecursion (HasItsFrame setting (run setting answers steps)) (filter_map call_of (run setting answers steps)) }
{}

/// Whatever gives each call of a run its frame gives that of each call that a ring took.
pub fn rings_have_their_frames()
    ensures { (ecu : List ℕ) (frame : ℕ → ℕ → List ℕ) (done : List Mark) →
        AllByRecursion (λ (call : Call). frame call.item.writer call.item.call ≡ log_message ecu call.item) (filter_map call_of done) →
        (app place : ℕ) (call : Call) → slice_get (pushes app done) place ≡ Some (OfCall call) →
        frame call.item.writer call.item.call ≡ log_message ecu call.item }
{}

/// An application keeps its id by its number, whatever comes later: the one that was declared at its place.
pub fn applications_keep_their_ids()
    ensures named { (done more : List Mark) (apid : List ℕ) (app : ℕ) → number_of apid done ≡ Some app → apid_of (done ++ more) app ≡ apid }
    ensures kept { (done more : List Mark) (app : ℕ) → app < length (apps done) → apid_of (done ++ more) app ≡ apid_of done app }
    ensures placed { (done more : List Mark) (app : ℕ) (line : AppLine) → slice_get (apps done) app ≡ Some line → apid_of (done ++ more) app ≡ line.apid }
{}

/// The traffic of a journal has the clients of the journal: the same ones are there, and as many came.
pub fn who_is_there_by_the_journal()
    ensures there { (source : FrameSource) (client : ℕ) (done : List Mark) →
        is_open client (traffic source (marks.journal done)) ≡ steps.is_open client done }
    ensures came { (source : FrameSource) (events : List Event) → length (clients (traffic source events)) ≡ count_by journal.is_connect events }
{}
