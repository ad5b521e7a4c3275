//! Laws: what the calls leave, against whole journals. What is kept after the calls is what the definitions make of the
//! events that they stand for.

ghost use Rattle.std.specs.Prelude.{◌≡◌, ◌≢◌, ◌<◌, ◌≤◌, ℕ, ℤ, List, [], ◌∷◌, ◌++◌, Option, Some, Result, Ok, Err, IsErr};
ghost use Rattle.dl_bytes.specs.Claim.{Claimed};
ghost use Rattle.dl_bytes.specs.Id.{zero_id};
ghost use Rattle.dl_bytes.specs.Level.{own_level_of};
ghost use Rattle.dl_bytes.specs.declared.moment.Moment.{Moment};
ghost use Rattle.dl_bytes.specs.declared.outcome.Done.{Done};
ghost use Rattle.dl_bytes.specs.declared.outcome.Done.TheVariants as done;
ghost use Rattle.dl_bytes.specs.declared.user.UserMsg.{UserMsg};
ghost use Rattle.dl_control.specs.declared.request.Request.TheVariants.{SetLogLevel, SetAllLogLevel, SetDefault, Reset, Store};
ghost use Rattle.dl_events.specs.declared.event.Event.{Event};
ghost use Rattle.dl_events.specs.declared.event.Event.TheVariants.{User, Claim, Level, Request};
ghost use Rattle.dl_model.specs.declared.registry.LevelChange.{LevelChange};
ghost use Rattle.dl_model.specs.declared.registry.RegistryFault.{RegistryFault};
ghost use Rattle.dl_model.specs.declared.registry.RegistryFault.TheVariants as fault;
ghost use Rattle.dl_model.specs.declared.registry.SetFault.{SetFault};
ghost use Rattle.dl_model.specs.Journal.{owed};
ghost use Rattle.dl_model.specs.Registry.{applied, own_set, default_set, reset, level_at};
ghost use Rattle.dl_model.specs.Reply.{asked, now_stored};
ghost use Rattle.dl_model.specs.Setting.{Setting};
ghost use Rattle.dl_registry.specs.Kept.{Kept, Applies, Claims, Sets, IsAfter, made, slots, owed_change, with_change, with_registry};

/// What `make` gives is what the empty journal leaves.
pub fn made_is_the_beginning()
    ensures { (setting : Setting) → IsAfter setting [] (made setting.level setting.stored setting.first) }
{}

/// A message that `apply` was given, and for which memory was not wanting, is its User event: accepted or refused, what is
/// kept is what the longer journal leaves.
pub fn messages_are_events()
    ensures { (setting : Setting) (events : List Event) (channel : ℕ) (msg : UserMsg) (moment : Moment) (result : Result (Unit {0}) RegistryFault) (old new : Kept) →
        IsAfter setting events old → Applies (applied (slots old) old.registry channel msg) old result new → result ≢ Err fault.OutOfMemory →
        IsAfter setting (events ++ User channel msg moment ∷ []) new }
{}

/// A claim that `claim` was given is its Claim event, whether it changed something or not: what is kept is what the longer journal
/// leaves.
pub fn claims_are_events()
    ensures { (setting : Setting) (events : List Event) (claim : Claimed) (moment : Moment) (old new : Kept) →
        IsAfter setting events old → Claims claim old new → IsAfter setting (events ++ Claim claim moment ∷ []) new }
{}

/// What `next_change` gives is the Level event that the journal owes: the effective level of the context that has its slot.
/// After it, what is kept is what the longer journal leaves.
pub fn changes_are_owed()
    ensures change { (setting : Setting) (events : List Event) (kept : Kept) → IsAfter setting events kept → owed_change kept ≡ owed setting events }
    ensures level { (kept : Kept) (change : LevelChange) → owed_change kept ≡ Some change → (change.slot < 1024) × (level_at kept.registry change.slot ≡ Some change.level) }
    ensures event { (setting : Setting) (events : List Event) (kept : Kept) (change : LevelChange) → IsAfter setting events kept → owed_change kept ≡ Some change →
        IsAfter setting (events ++ Level change.slot change.level ∷ []) (with_change kept (Some change)) }
{}

/// A request that sets levels is its Request event: what is kept after `set_own`, `set_default`, or `reset` with the level
/// of `ContextLogLevel`, is what the longer journal leaves, and so is what is kept where the own levels of now are stored.
pub fn requests_are_events()
    ensures own { (setting : Setting) (events : List Event) (client : ℕ) (frame apid ctid : List ℕ) (level : ℤ) (own : Option ℕ) (answer : Done) (result : Result ℕ SetFault) (old new : Kept) →
        asked frame ≡ Ok (SetLogLevel apid ctid level) → own_level_of level ≡ Some own →
        IsAfter setting events old → Sets (own_set (slots old) old.registry apid ctid own) old result new →
        IsAfter setting (events ++ Request client frame answer ∷ []) new }
    ensures all { (setting : Setting) (events : List Event) (client : ℕ) (frame : List ℕ) (level : ℤ) (own : Option ℕ) (answer : Done) (result : Result ℕ SetFault) (old new : Kept) →
        asked frame ≡ Ok (SetAllLogLevel level) → own_level_of level ≡ Some own →
        IsAfter setting events old → Sets (own_set (slots old) old.registry zero_id zero_id own) old result new →
        IsAfter setting (events ++ Request client frame answer ∷ []) new }
    ensures default { (setting : Setting) (events : List Event) (client : ℕ) (frame : List ℕ) (level : ℕ) (answer : Done) (result : Result (Unit {0}) SetFault) (old new : Kept) →
        asked frame ≡ Ok (SetDefault level) → level ≤ 6 →
        IsAfter setting events old → Sets (default_set (slots old) old.registry level) old result new →
        IsAfter setting (events ++ Request client frame answer ∷ []) new }
    ensures reset { (setting : Setting) (events : List Event) (client : ℕ) (frame : List ℕ) (result : Result (Unit {0}) SetFault) (old new : Kept) →
        asked frame ≡ Ok Reset →
        IsAfter setting events old → Sets (reset (slots old) old.registry setting.level) old result new →
        IsAfter setting (events ++ Request client frame done.Yes ∷ []) new }
    ensures store { (setting : Setting) (events : List Event) (client : ℕ) (frame : List ℕ) (kept : Kept) →
        asked frame ≡ Ok Store → IsAfter setting events kept →
        IsAfter setting (events ++ Request client frame done.Yes ∷ []) (with_registry kept (now_stored kept.registry)) }
{}
