//! Laws on trace files.

ghost use Rattle.std.specs.Prelude.{◌≡◌, ◌≤◌, ◌<◌, ◌+◌, ◌-◌, ℕ, List, length, [], ◌∷◌, ◌++◌};
ghost use Rattle.std.specs.List.{flat_map, concat, AllByRecursion};
ghost use Rattle.dl_model.specs.Backlog.{size_of};
ghost use Rattle.dl_model.specs.TraceFiles.{StoredFile, greatest, total_size, kept, closed, made, segments, trace_files, grown};

/// The trace files after frames were stored. The files that were made hold the frames in order, and no others; those
/// that stand are the newest of the old ones and these. None is longer than a file may be, where no frame is.
pub fn trace_files_are_the_newest()
    ensures bytes { (size : ℕ) (old : List StoredFile) (frames : List (List ℕ)) → flat_map (λ (file : StoredFile). file.bytes) (made size old frames) ≡ concat frames }
    ensures suffix { (size max_size : ℕ) (old : List StoredFile) (frames : List (List ℕ)) →
        (gone : List StoredFile) × (old ++ made size old frames ≡ gone ++ trace_files size max_size old frames) }
    ensures sizes { (size : ℕ) (old : List StoredFile) (frames : List (List ℕ)) → AllByRecursion (λ (frame : List ℕ). length frame ≤ size) frames
        → AllByRecursion (λ (file : StoredFile). length file.bytes ≤ size) (made size old frames) }
{}

/// How much stands: the closed files have room beside the open one, and one file more had none.
pub fn trace_files_have_room()
    ensures room { (size max_size : ℕ) (old : List StoredFile) (first : List ℕ) (frames : List (List ℕ)) →
        total_size (closed (trace_files size max_size old (first ∷ frames))) ≤ max_size - size }
    ensures longest { (size max_size : ℕ) (old gone : List StoredFile) (file : StoredFile) (first : List ℕ) (frames : List (List ℕ)) →
        let standing = trace_files size max_size old (first ∷ frames) in
        old ++ made size old (first ∷ frames) ≡ gone ++ file ∷ standing → max_size - size < total_size (file ∷ closed standing) }
{}

/// The trace files after one frame more: the first frame begins a file behind the old ones, each later one goes into
/// the open file or begins the next.
pub fn trace_goes_on()
    ensures first { (size max_size : ℕ) (old : List StoredFile) (frame : List ℕ) → trace_files size max_size old (frame ∷ [])
        ≡ kept (max_size - size) old ++ record { number = greatest old + 1; bytes = frame } ∷ [] }
    ensures later { (size max_size : ℕ) (old before : List StoredFile) (newest : StoredFile) (first frame : List ℕ) (frames : List (List ℕ)) →
        trace_files size max_size old (first ∷ frames) ≡ before ++ newest ∷ []
        → trace_files size max_size old (first ∷ (frames ++ frame ∷ [])) ≡ grown size max_size before newest frame }
    ensures newest { (size max_size : ℕ) (old : List StoredFile) (first : List ℕ) (frames : List (List ℕ)) →
        (before : List StoredFile) × (newest : StoredFile) × (trace_files size max_size old (first ∷ frames) ≡ before ++ newest ∷ []) }
{}

/// A file is as full as it can be: each segment but the last could not take the frame that the next one begins with.
pub fn a_file_is_full_before_the_next()
    ensures { (size : ℕ) (frames : List (List ℕ)) (before after : List (List (List ℕ))) (segment next : List (List ℕ)) → segments size frames ≡ before ++ segment ∷ next ∷ after →
        (first : List ℕ) × (rest : List (List ℕ)) × (next ≡ first ∷ rest) × (size < size_of segment + length first) }
{}
