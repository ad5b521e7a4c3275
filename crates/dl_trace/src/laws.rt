//! Laws on trace files.

ghost use Rattle.std.specs.Prelude.{◌≡◌, ℕ, List, [], Option, Some};
ghost use Rattle.dl_outside.specs.Folder.{Files};
ghost use Rattle.dl_model.specs.TraceFiles.{StoredFile};
ghost use Rattle.dl_trace.specs.Pieces.{frames_in};
ghost use Rattle.dl_trace.specs.Runs.{Ran};
ghost use Rattle.dl_trace.specs.InFolder.{HasFiles};
ghost use Rattle.dl_trace.specs.State.{Trace, IsAfter, files_after};

/// After any calls that stored their frames, the trace files of the folder are those of the definition over all frames
/// stored and the files that stood before, and the trace tells of them.
pub fn calls_leave_the_trace_files()
    ensures { (calls : List (List (List ℕ))) (trace last : Trace) (folder : Files) (now : Option Files) (stood : List StoredFile) →
        IsAfter stood [] trace → HasFiles trace.directory folder stood → Ran calls trace (Some folder) last now
        → IsAfter stood (frames_in calls) last × ((left : Files) × (now ≡ Some left) × HasFiles trace.directory left (files_after trace stood (frames_in calls))) }
{}

/// A folder holds one list of trace files: the one that `Trace::make` found is the one that any caller knows.
pub fn a_folder_has_one_list()
    ensures { (directory : List ℕ) (folder : Files) (files others : List StoredFile) → HasFiles directory folder files → HasFiles directory folder others → files ≡ others }
{}
