//! Laws on the places of stored frames.

ghost use Rattle.std.specs.Prelude.{◌≡◌, ◌≤◌, ◌++◌, ◌∷◌, ℕ, List, false, length};
ghost use Rattle.dl_model.specs.TraceFiles.{StoredFile, greatest, is_spent, number_limit, trace_files};
ghost use Rattle.dl_fates.specs.FilePlaces.{Says, left_files, place_of};

/// What is said of the place of a stored frame is so: where it is in a file, a file of that number stands in the end and has its bytes; where that
/// file was removed, none of its number stands, and the one that was made had its bytes; and the trace had ended exactly where the frame needed a
/// file whose number no name has.
pub fn a_frame_is_where_it_is_said_to_be()
    ensures { (size max_size : ℕ) (old : List StoredFile) (before after : List (List ℕ)) (frame : List ℕ) →
        Says size max_size old before frame after (place_of size max_size old (before ++ frame ∷ after) (length before)) }
{}

/// The files that are left are the trace files of all frames, or, where the trace has ended, of those before its end.
pub fn the_files_left_are_trace_files()
    ensures whole { (size max_size : ℕ) (old : List StoredFile) (frames : List (List ℕ)) → is_spent size old frames ≡ false
        → left_files size max_size old frames ≡ trace_files size max_size old frames }
    ensures ended { (size max_size : ℕ) (old : List StoredFile) (frames : List (List ℕ)) → greatest old ≤ number_limit
        → (stored later : List (List ℕ)) × (frames ≡ stored ++ later) × (is_spent size old stored ≡ false)
        × (left_files size max_size old frames ≡ trace_files size max_size old stored) }
{}
