//! Laws on the trace files of a run.

ghost use Rattle.std.specs.Prelude.{◌≡◌, ◌≤◌, ℕ, List, ◌++◌, length};
ghost use Rattle.std.specs.List.{flat_map, concat, AllByRecursion};
ghost use Rattle.dl_events.specs.declared.event.Event.{Event};
ghost use Rattle.dl_model.specs.Frames.{FrameSource, stored_frames};
ghost use Rattle.dl_model.specs.TraceFiles.{StoredFile, trace_files};
ghost use Rattle.dl_laws.specs.OwnFiles.{own_files};
ghost use Rattle.dl_laws.specs.ShortFrames.{AreShort};

/// The files of this run that stand, put together, are a suffix of the stored frames put together. None of them is longer
/// than a file may be, where no stored frame is; and none is, where a file may have 2,000 bytes, as every configuration lets it.
pub fn what_stands_is_the_newest()
    ensures suffix { (size max_size : ℕ) (old : List StoredFile) (frames : List (List ℕ)) →
        (gone : List ℕ) × (concat frames ≡ gone ++ flat_map (λ (file : StoredFile). file.bytes) (own_files old (trace_files size max_size old frames))) }
    ensures sizes { (size max_size : ℕ) (old : List StoredFile) (frames : List (List ℕ)) → AllByRecursion (λ (frame : List ℕ). length frame ≤ size) frames
        → AllByRecursion (λ (file : StoredFile). length file.bytes ≤ size) (own_files old (trace_files size max_size old frames)) }
    ensures of_events { (size max_size : ℕ) (old : List StoredFile) (source : FrameSource) (events : List Event) → 2000 ≤ size → AreShort source events
        → AllByRecursion (λ (file : StoredFile). length file.bytes ≤ size) (own_files old (trace_files size max_size old (stored_frames source events))) }
{}
