//! Laws of the folder.

ghost use Rattle.std.specs.Prelude.{◌≡◌, ◌++◌, ◌∷◌, [], ℕ, Bool, List, Option};
ghost use Rattle.dl_bytes.specs.declared.outcome.Done.{Done};
ghost use Rattle.dl_bytes.specs.declared.outcome.TraceEnd.{TraceEnd};
ghost use Rattle.dl_events.specs.declared.event.Event.{Event};
ghost use Rattle.dl_events.specs.declared.event.Event.TheVariants as event;
ghost use Rattle.dl_model.specs.Journal.{need_after};
ghost use Rattle.dl_model.specs.Setting.{Setting};
ghost use Rattle.dl_outside.specs.Told.{FolderTold};
ghost use Rattle.dl_services.specs.Wish.{needed};
ghost use Rattle.dl_services.specs.declared.wish.Want.{Want};
ghost use Rattle.dl_core.specs.Serving.{Answers};
ghost use Rattle.dl_core.specs.State.{Core};
ghost use Rattle.dl_core.specs.Files.{Leaves};
ghost use Rattle.dl_core.specs.Later.{IsFolderLater};

/// Calls that leave the files of others do so one after the other; and so does no call.
pub fn files_of_others_stay()
    ensures none { (core : Core) (told : FolderTold) → Leaves core core told told }
    ensures both { (old between new : Core) (told told_between told_now : FolderTold) → Leaves old between told told_between
        → Leaves between new told_between told_now → Leaves old new told told_now }
{}

/// What events make of the folder, more events go on with; and no event leaves it as it was.
pub fn a_folder_goes_on()
    ensures none { (setting : Setting) (before : List Event) (ended : Option TraceEnd) (told : FolderTold) → IsFolderLater setting before [] ended ended told told }
    ensures both { (setting : Setting) (before first second : List Event) (ended ended_between ended_now : Option TraceEnd) (old between new : FolderTold)
        → IsFolderLater setting before first ended ended_between old between → IsFolderLater setting (before ++ first) second ended_between ended_now between new
        → IsFolderLater setting before (first ++ second) ended ended_now old new }
{}

/// A request of which the folder, or a queue, did what it wants is its event.
pub fn a_request_asks_the_folder()
    ensures { (setting : Setting) (before : List Event) (client : ℕ) (frame : List ℕ) (ended : Option TraceEnd) (wants : Want) (pushed : Bool) (answer : Done) (old new : FolderTold)
        → need_after setting before frame ≡ needed wants → Answers wants pushed answer old new
        → IsFolderLater setting before (event.Request client frame answer ∷ []) ended ended old new }
{}
