//! Clients that connect, ask and are closed, in their turn.

ghost use Rattle.std.specs.Prelude.{◌≡◌, ◌↔◌, ℕ, false, List, None, IsSome};
ghost use Rattle.dl_bytes.specs.declared.outcome.Done.{Done};
ghost use Rattle.dl_events.specs.declared.event.Event.{Event};
ghost use Rattle.dl_events.specs.declared.event.Event.TheVariants.{Close, Request};
ghost use Rattle.dl_events.specs.declared.event.Why.{Why};
ghost use Rattle.dl_events.specs.declared.event.Why.TheVariants.{Slow};
ghost use Rattle.dl_model.specs.Journal.{is_slow, IsOpen};
ghost use Rattle.dl_registry.specs.Kept.{owed_change};
ghost use Rattle.dl_hub.specs.State.{outbox_of, HasPlace};
ghost use Rattle.dl_core.specs.Follows.{IsAfter, Run};
ghost use Rattle.dl_core.specs.State.{Core};
ghost use Rattle.dl_core.specs.Next.{CanEnd, ComesBeforeFrames, ComesInTurn, ConnectsInTurn, IsAnswered, IsReplySize};

/// A client has an outbox exactly where it is open in the journal.
pub fn who_has_an_outbox()
    ensures { (run : Run) (events : List Event) (taken : ℕ → List ℕ) (core : Core) (client : ℕ) → IsAfter run events taken core
        → IsSome (outbox_of core.hub client) ↔ IsOpen client events }
{}

/// One client more stands in its turn where it may connect: its Connect has the number behind that of the last that came.
pub fn a_connect_comes_in_turn()
    ensures { (core : Core) (later : List Event) → HasPlace core.hub → owed_change core.registry ≡ None → ConnectsInTurn later core }
{}

/// A client's request stands in its turn, with the answer that the folder or the application's queue gave to what it wants.
pub fn a_request_comes_in_turn()
    ensures { (core : Core) (client : ℕ) (frame : List ℕ) (answer : Done) (later : List Event) → IsAnswered core client frame answer
        → ComesInTurn (Request client frame answer) later core }
{}

/// The Close of a client that may be closed stands in its turn. That of a slow one does where its room was too little for the frames of the
/// next event that is no such Close, or for a reply, which has at most 65,535 bytes.
pub fn closes_come_in_turn()
    ensures not_slow { (core : Core) (client : ℕ) (why : Why) (later : List Event) → CanEnd core client why → is_slow (Close client why) ≡ false
        → ComesInTurn (Close client why) later core }
    ensures before_frames { (core : Core) (client room need : ℕ) (later : List Event) → CanEnd core client (Slow room need)
        → ComesBeforeFrames (Close client (Slow room need)) need later core }
    ensures at_reply { (core : Core) (client room need : ℕ) (later : List Event) → CanEnd core client (Slow room need) → IsReplySize core need
        → ComesInTurn (Close client (Slow room need)) later core }
{}
