//! Laws on well-formed journals: what a client is sent, and what waits for the next one.

ghost use Rattle.std.specs.Prelude.{◌≡◌, ◌<◌, ◌≤◌, ◌+◌, ◌⊎◌, ◌↔◌, ℕ, true, List, ◌∷◌, ◌++◌, count_by, length, drop, map, IfSome};
ghost use Rattle.std.specs.List.{after_last, AllByRecursion};
ghost use Rattle.dl_events.specs.declared.event.Event.{Event};
ghost use Rattle.dl_events.specs.declared.event.Event.TheVariants.{Connect, Close};
ghost use Rattle.dl_events.specs.declared.event.Why.TheVariants as why;
ghost use Rattle.dl_model.specs.Setting.{Setting};
ghost use Rattle.dl_model.specs.Journal.{AreInTurn, IsFramesNeed, IsInTurn, IsOpen, IsReplyNeed, IsSettled, IsWellFormed, is_close, is_connect, registry_of, slots_of};
ghost use Rattle.dl_model.specs.Frames.{FrameSource, admitted, stored_frames};
ghost use Rattle.dl_model.specs.Backlog.{outbox_limit, size_of, waiting, fitting, refused};
ghost use Rattle.dl_model.specs.ClientEnds.{HasGone, LinkDid};
ghost use Rattle.dl_model.specs.ClientStream.{traffic, stream};
ghost use Rattle.dl_model.specs.Registry.{level_at};
ghost use Rattle.dl_model.specs.Traffic.{is_open};
ghost use Rattle.dl_laws.specs.ClientParts.{IsSent, NeitherComesNorGoes, Stay, TookAll, WasCutOff, events_of, open_count};
ghost use Rattle.dl_laws.specs.ShortFrames.{AreShort};

/// A well-formed journal goes on with events that stand in their turn behind it.
pub fn a_well_formed_journal_goes_on()
    ensures { (setting : Setting) (source : FrameSource) (events more : List Event) → IsWellFormed setting source events → AreInTurn setting source events more → IsWellFormed setting source (events ++ more) }
{}

/// An event that stands in its turn does so whatever follows, and events that do go on with others that stand in their turn behind them.
pub fn turns_go_on()
    ensures event { (setting : Setting) (source : FrameSource) (before : List Event) (event : Event) (xs ys : List Event) →
        IsInTurn setting source before event xs → IsInTurn setting source before event (xs ++ ys) }
    ensures events { (setting : Setting) (source : FrameSource) (before xs ys : List Event) →
        AreInTurn setting source before xs → AreInTurn setting source (before ++ xs) ys → AreInTurn setting source before (xs ++ ys) }
{}

/// A client that was closed as slow was behind: what had been put into its stream, with what was needed for it then, is more than its
/// outbox holds. What was needed were the frames of the next event, or a reply.
pub fn a_slow_client_was_behind()
    ensures behind { (setting : Setting) (source : FrameSource) (client room need : ℕ) (before after : List Event) →
        IsWellFormed setting source (before ++ Close client (why.Slow room need) ∷ after) →
        outbox_limit setting.buffer < size_of (stream source setting.buffer client before) + need }
    ensures needed { (setting : Setting) (source : FrameSource) (client room need : ℕ) (before after : List Event) →
        IsWellFormed setting source (before ++ Close client (why.Slow room need) ∷ after) →
        (IsFramesNeed source after need) ⊎ (IsReplyNeed source before need) }
{}

/// What the end of a client's link tells: a link of a stopped client took all of its stream, that of a stuck one did not, and that of a
/// slow one did exactly where the room was a whole outbox.
pub fn link_ends_tell_how_clients_went()
    ensures stopped { (setting : Setting) (source : FrameSource) (events : List Event) (client : ℕ) (did : LinkDid) (gone : HasGone setting source events client did) →
        gone.cause ≡ why.Stopped → TookAll setting source events client did }
    ensures stuck { (setting : Setting) (source : FrameSource) (events : List Event) (client : ℕ) (did : LinkDid) (gone : HasGone setting source events client did) →
        (left : ℕ) → gone.cause ≡ why.Stuck left → WasCutOff setting source events client did }
    ensures slow { (setting : Setting) (source : FrameSource) (events : List Event) (client : ℕ) (did : LinkDid) (gone : HasGone setting source events client did) →
        (room need : ℕ) → gone.cause ≡ why.Slow room need → room ≡ outbox_limit setting.buffer → TookAll setting source events client did }
    ensures room { (setting : Setting) (source : FrameSource) (events : List Event) (client : ℕ) (did : LinkDid) (gone : HasGone setting source events client did) →
        (room need : ℕ) → gone.cause ≡ why.Slow room need → TookAll setting source events client did → room ≡ outbox_limit setting.buffer }
{}

/// Where no Level event is owed, levels are in force: the last level of each context's slot is the one that filters its calls.
pub fn levels_are_in_force()
    ensures { (setting : Setting) (events : List Event) → IsSettled setting events → (slot : ℕ) →
        IfSome (level_at (registry_of setting events) slot) (λ level. (slots_of setting events slot).level ≡ level) }
{}

/// What is stored is what is admitted: without their storage headers, which have 16 bytes, the stored frames are the admitted ones, in order.
pub fn what_is_stored_is_admitted()
    ensures { (source : FrameSource) (events : List Event) → length source.ecu ≡ 4 → map (drop 16) (stored_frames source events) ≡ admitted source events }
{}

/// Stored frames have at most 2,000 bytes, which every trace file has room for: a message has at most 1,984.
pub fn stored_frames_are_short()
    ensures { (source : FrameSource) (events : List Event) → AreShort source events → AllByRecursion (λ (frame : List ℕ). length frame ≤ 2000) (stored_frames source events) }
{}

/// A client comes once and goes once: in a well-formed journal nothing else says of it that it came or went.
pub fn a_client_comes_once()
    ensures { (setting : Setting) (source : FrameSource) (stay : Stay) → IsWellFormed setting source (events_of stay) →
        NeitherComesNorGoes stay.client stay.before × NeitherComesNorGoes stay.client stay.middle × NeitherComesNorGoes stay.client stay.after }
{}

/// A client is open in a journal exactly where it is in the traffic of it.
pub fn who_is_open()
    ensures { (source : FrameSource) (client : ℕ) (events : List Event) → (is_open client (traffic source events) ≡ true) ↔ IsOpen client events }
{}

/// In a well-formed journal the clients that are open and those that went are all that came.
pub fn open_and_gone_are_all()
    ensures { (setting : Setting) (source : FrameSource) (events : List Event) → IsWellFormed setting source events →
        open_count source events + count_by is_close events ≡ count_by is_connect events }
{}

/// What a client is sent is unbroken: behind what was due to it stands every frame that was admitted between its Connect and
/// its Close, in order, and its replies among them. These frames are one part of all that was admitted. The same holds of a
/// client that is still there.
pub fn streams_are_unbroken()
    ensures closed { (setting : Setting) (source : FrameSource) (buffer : ℕ) (stay : Stay) → IsWellFormed setting source (events_of stay) →
        IsSent source buffer stay.client stay.before stay.middle (stream source buffer stay.client (events_of stay)) }
    ensures open_yet { (setting : Setting) (source : FrameSource) (buffer client : ℕ) (before middle : List Event) →
        let events = before ++ Connect client ∷ middle in
        IsWellFormed setting source events → IsOpen client events → IsSent source buffer client before middle (stream source buffer client events) }
    ensures one_part { (source : FrameSource) (stay : Stay) →
        admitted source (events_of stay) ≡ admitted source stay.before ++ (admitted source stay.middle ++ admitted source stay.after) }
    ensures last_part { (source : FrameSource) (client : ℕ) (before middle : List Event) →
        admitted source (before ++ Connect client ∷ middle) ≡ admitted source before ++ admitted source middle }
{}

/// The backlog accounts for itself: where no client is open, the frames that are due to the next one and the number of those
/// that were refused make up all that was admitted since the last client went. Once a frame was refused, so is every later
/// one, until the frames are handed over.
pub fn the_backlog_accounts_for_itself()
    ensures since { (source : FrameSource) (events : List Event) → ((client : ℕ) → IsOpen client events → ⊥) →
        waiting (traffic source events) ≡ admitted source (after_last is_close events) }
    ensures due { (source : FrameSource) (buffer : ℕ) (events : List Event) → ((client : ℕ) → IsOpen client events → ⊥) →
        let waited = waiting (traffic source events) in
        length (fitting buffer waited) + refused buffer waited ≡ length (admitted source (after_last is_close events)) }
    ensures refused_on { (buffer : ℕ) (frames more : List (List ℕ)) → 0 < refused buffer frames →
        (fitting buffer (frames ++ more) ≡ fitting buffer frames) × (refused buffer (frames ++ more) ≡ refused buffer frames + length more) }
{}
