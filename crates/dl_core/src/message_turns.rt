//! Log calls, reports of lost calls, user messages, claims and Level events in their turn, and events one after the other.

ghost use Rattle.std.specs.Prelude.{◌≡◌, ◌++◌, ℕ, List, [], ◌∷◌, None, Some};
ghost use Rattle.dl_bytes.specs.Claim.{Claimed};
ghost use Rattle.dl_bytes.specs.declared.moment.Moment.{Moment};
ghost use Rattle.dl_bytes.specs.declared.user.UserMsg.{UserMsg};
ghost use Rattle.dl_events.specs.declared.event.Event.{Event};
ghost use Rattle.dl_events.specs.declared.event.Event.TheVariants as event;
ghost use Rattle.dl_model.specs.declared.registry.LevelChange.{LevelChange};
ghost use Rattle.dl_registry.specs.Kept.{owed_change};
ghost use Rattle.dl_core.specs.Registering.{HasAppOf};
ghost use Rattle.dl_core.specs.State.{Core};
ghost use Rattle.dl_core.specs.Next.{ComeInTurn, ComesInTurn, ComesWhileRunning, Makes, StaysFormed};

/// A log call, a report of lost calls and a user message stand in their turn where no Level event is owed, while the daemon runs.
pub fn messages_come_in_turn()
    ensures log { (core : Core) (app writer call : ℕ) (moment : Moment) (later : List Event) → owed_change core.registry ≡ None
        → ComesWhileRunning (event.Log app writer call moment) later core }
    ensures lost { (core : Core) (app count : ℕ) (moment : Moment) (later : List Event) → owed_change core.registry ≡ None
        → ComesWhileRunning (event.Lost app count moment) later core }
    ensures user { (core : Core) (channel : ℕ) (msg : UserMsg) (moment : Moment) (later : List Event) → owed_change core.registry ≡ None
        → ComesWhileRunning (event.User channel msg moment) later core }
{}

/// A claim stands in its turn where its application is there, as one of this process, and no Level event is owed, while the daemon runs.
pub fn claims_come_in_turn()
    ensures { (core : Core) (claim : Claimed) (moment : Moment) (later : List Event) → HasAppOf claim core.registry → owed_change core.registry ≡ None
        → ComesWhileRunning (event.Claim claim moment) later core }
{}

/// The Level event that is owed stands in its turn.
pub fn levels_come_in_turn()
    ensures { (core : Core) (next : LevelChange) (later : List Event) → owed_change core.registry ≡ Some next
        → ComesInTurn (event.Level next.slot next.level) later core }
{}

/// Events come one after the other: those of two calls, of which the second finds what the first left, are in their turn together. Where
/// events are in their turn, a journal that is well-formed stays so.
pub fn events_come_in_turn()
    ensures one { (core : Core) (event : Event) → ComesInTurn event [] core → ComeInTurn (event ∷ []) core }
    ensures both { (core between : Core) (first more : List Event) → Makes first core between
        → ComeInTurn first core → ComeInTurn more between → ComeInTurn (first ++ more) core }
    ensures formed { (core : Core) (events : List Event) → ComeInTurn events core → StaysFormed events core }
{}
