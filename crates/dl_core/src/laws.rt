//! Laws of the core, over whole journals.

ghost use Rattle.std.specs.Prelude.{◌≡◌, ◌≤◌, ◌+◌, ◌/◌, ◌%◌, ◌++◌, ◌∷◌, ℕ, List, [], count_by, map, min, None, Some, IsSomeAnd, length};
ghost use Rattle.dl_events.specs.declared.event.Event.{Event};
ghost use Rattle.dl_model.specs.Journal.{is_request_of, owed};
ghost use Rattle.dl_outside.specs.Told.{FolderTold};
ghost use Rattle.dl_registry.specs.Kept.{owed_change};
ghost use Rattle.dl_hub.specs.Follows.{took_more};
ghost use Rattle.dl_hub.specs.State.{Client, bytes_before, changed, client_of, outbox_of, without};
ghost use Rattle.dl_trace.specs.State.{Trace, counted, listed};
ghost use Rattle.dl_bytes.specs.declared.conf.Conf.{Conf};
ghost use Rattle.dl_bytes.specs.declared.item.Item.{Item};
ghost use Rattle.dl_bytes.specs.declared.moment.Moment.{Moment};
ghost use Rattle.dl_bytes.specs.declared.user.UserMsg.{UserMsg};
ghost use Rattle.dl_core.specs.Admission.{lost_frames};
ghost use Rattle.dl_core.specs.Follows.{Run, GoesOnWith, HoldsFiles, HoldsTrace, IsAfter, files_with, stored_by};
ghost use Rattle.dl_core.specs.Noting.{AddsCall, AddsCalls, AddsMessage, AddsMessages};
ghost use Rattle.dl_core.specs.State.{Core};

/// While no event came, the folder holds the trace files that stood before, with the frames with which the trace begins.
pub fn the_beginning_holds_what_stood()
    ensures { (run : Run) (core : Core) (folder : FolderTold) → HoldsFiles run run.head folder.files → HoldsTrace run [] core folder }
{}

/// Where a trace that has begun has the place of one that was kept, the core stands for the same events.
pub fn a_new_trace_goes_on()
    ensures { (conf : Conf) (head : List (List ℕ)) (kept : Trace) (core : Core) → GoesOnWith conf head kept core }
{}

/// No Level event waits exactly where the journal owes none.
pub fn waiting_is_owed()
    ensures { (run : Run) (events : List Event) (taken : ℕ → List ℕ) (core : Core) → IsAfter run events taken core → owed_change core.registry ≡ owed run.setting events }
{}

/// Where a link takes bytes from the front of its client's outbox, the core stands for the same journal as before, with those
/// bytes behind what the link had taken.
pub fn what_links_take()
    ensures { (run : Run) (events : List Event) (taken : ℕ → List ℕ) (core : Core) (count client : ℕ) → IsAfter run events taken core
        → IsSomeAnd (outbox_of core.hub client) (λ outbox. count ≤ length outbox.bytes)
        → IsAfter run events (took_more taken client (bytes_before count (outbox_of core.hub client))) (record core { hub = changed client (without count) core.hub }) }
{
    dl_hub::laws::what_links_take();
}

/// A batch of log calls is its calls one after the other: what makes the events of some calls, and then that of one more, makes those of
/// all of them together, as `log_batch` does.
pub fn a_batch_is_its_calls()
    ensures { (moment : Moment) (items : List Item) (item : Item) (old between new : Core) (folder folder_between folder_now : FolderTold) →
        AddsCalls moment items old between folder folder_between → AddsCall moment item between new folder_between folder_now
        → AddsCalls moment (items ++ item ∷ []) old new folder folder_now }
{}

/// A batch of log messages is its messages one after the other: what makes the events of some messages, and then that of one more, makes
/// those of all of them together, as `user_batch` does.
pub fn a_batch_is_its_messages()
    ensures { (moment : Moment) (channel : ℕ) (msgs : List UserMsg) (msg : UserMsg) (old between new : Core) (folder folder_between folder_now : FolderTold) →
        AddsMessages moment channel msgs old between folder folder_between → AddsMessage moment channel msg between new folder_between folder_now
        → AddsMessages moment channel (msgs ++ msg ∷ []) old new folder folder_now }
{}

/// How many records report so many lost calls: one for each 4,294,967,295 of them, and one for the rest.
pub fn how_many_records()
    ensures { (ecu apid : List ℕ) (count : ℕ) → length (lost_frames ecu apid count) ≡ count / 4294967295 + min 1 (count % 4294967295) }
{}

/// What a trace tells: the trace files, with their names and sizes, of the frames that it was to store. Once it has ended, of some first
/// ones of them, and how many the others are.
pub fn what_a_trace_tells()
    ensures { (run : Run) (events : List Event) (taken : ℕ → List ℕ) (core : Core) (kept : Trace) → IsAfter run events taken core → core.trace ≡ Some kept
        → (stored later : List (List ℕ)) × (stored_by run events ≡ stored ++ later) × (kept.state.end ≡ None → later ≡ []) × (kept.unstored ≡ counted (length later))
        × (kept.state.files ≡ map (listed run.setting.directory) (files_with run stored)) }
{}

/// How many replies a client was put: one for each of its requests in the journal.
pub fn replies_are_requests()
    ensures { (run : Run) (events : List Event) (taken : ℕ → List ℕ) (core : Core) (number : ℕ) (client : Client) → IsAfter run events taken core
        → client_of core.hub number ≡ Some client → client.replies ≡ count_by (is_request_of number) events }
{}
