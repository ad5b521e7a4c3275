//! Laws of a client's turns: what they are to the journal, to what the client sent, and to what its link took.

ghost use Rattle.std.specs.Prelude.{◌≡◌, ◌⊎◌, ℕ, true, Option, None, Some, IsSome};
ghost use Rattle.dl_events.specs.declared.event.Why.{Why};
ghost use Rattle.dl_events.specs.declared.event.Why.TheVariants.{Left};
ghost use Rattle.dl_model.specs.ClientEnds.{LinkDid};
ghost use Rattle.dl_outside.specs.Outside.{HasRisen};
ghost use Rattle.dl_turns.specs.Gone.{IsShown, ShowsCause, Tells};
ghost use Rattle.dl_turns.specs.Later.{IsLaterStage};
ghost use Rattle.dl_turns.specs.State.{Stage};
ghost use Rattle.dl_turns.specs.Stopping.{HasClosingTurns};
ghost use Rattle.dl_turns.specs.Turns.{HasGiven, IsPump, IsTurn};

/// A turn is its events and the bytes that the client's link gave: the core, the folder, the level words and the queues are afterwards those of
/// the longer journal, no other client has changed, and the client's Request events are the requests of what it sent.
pub fn a_turn_is_its_events()
    ensures { (client : ℕ) (why : Option Why) (old new : Stage) → IsTurn client why old new → IsLaterStage client why old new }
{}

/// A pump is its events and the bytes that the client's link took: the same, and the core is that for these bytes more.
pub fn a_pump_is_its_events()
    ensures { (client : ℕ) (why : Option Why) (old new : Stage) → IsPump client why old.link new.link old.side new.side → new.cutter ≡ old.cutter
        → IsLaterStage client why old new }
{
    dl_core::laws::what_links_take();
}

/// A client is still open after its turn only where its link gave a byte, or had nothing to give yet, its count of idle turns risen.
pub fn why_a_client_stays()
    ensures { (client : ℕ) (old new : Stage) → IsTurn client None old new
        → HasGiven old.link.given new.link.given ⊎ HasRisen old.link.idles new.link.idles }
{}

/// What the daemon's stop does to a client, its closing turns and its Close, is its events and the bytes that its link gave and took.
pub fn a_stop_is_its_events()
    ensures { (client : ℕ) (why : Why) (old new : Stage) → HasClosingTurns client why old new → IsLaterStage client (Some why) old new }
{
    dl_core::laws::what_links_take();
}

/// What a link did shows why its client went. A client left only where its link was over; a link need not tell whether it is. At the stop
/// `close_turn` says so itself.
pub fn links_show_why_clients_went()
    ensures turn { (client : ℕ) (why : Why) (old new : Stage) (did : LinkDid) → IsTurn client (Some why) old new → Tells old.link new.link did
        → (why ≡ Left → did.is_over ≡ true) → IsShown did why }
    ensures pump { (client : ℕ) (why : Why) (old new : Stage) (did : LinkDid) → IsPump client (Some why) old.link new.link old.side new.side
        → Tells old.link new.link did → IsShown did why }
    ensures stop { (client : ℕ) (why : Why) (old new : Stage) (did : LinkDid) → HasClosingTurns client why old new → Tells old.link new.link did
        → (why ≡ Left → did.is_over ≡ true) → IsShown did why }
    ensures left { (client : ℕ) (old new : Stage) → IsTurn client (Some Left) old new → IsSome old.link.over → new.link.over ≡ Some true }
{}

/// Every link shows by its counts why its client went, whatever else it tells.
pub fn counts_show_why_clients_went()
    ensures turn { (client : ℕ) (why : Why) (old new : Stage) → IsTurn client (Some why) old new → ShowsCause new.link why }
    ensures pump { (client : ℕ) (why : Why) (old new : Stage) → IsPump client (Some why) old.link new.link old.side new.side → ShowsCause new.link why }
    ensures stop { (client : ℕ) (why : Why) (old new : Stage) → HasClosingTurns client why old new → ShowsCause new.link why }
{}
