//! Laws of registries and histories: what the definitions, which go along a journal, say of the whole of it.

ghost use Rattle.std.specs.Prelude.{◌≡◌, ◌≤◌, ◌<◌, ◌+◌, ℕ, true, false, nat_eq, List, [], ◌∷◌, ◌++◌, length, Some, None, IfSome};
ghost use Rattle.std.specs.List.{last_or, list_any};
ghost use Rattle.dl_events.specs.declared.event.Event.{Event};
ghost use Rattle.dl_events.specs.declared.event.Event.TheVariants.{Level};
ghost use Rattle.dl_model.specs.History.{level_for, history, slot_after};
ghost use Rattle.dl_model.specs.Journal.{step, registry_of, slots_of, accepted_at, accepted};
ghost use Rattle.dl_model.specs.Registry.{App, least_free, IsInOrder};
ghost use Rattle.dl_model.specs.Setting.{Setting};
ghost use Rattle.dl_model.specs.Stays.{own_at, levels_given, registers, unregisters, registers_context, ends_context, is_app_there, is_context_there, stays};

/// One event more is one step of the registry, and adds at most its own message to the accepted ones.
pub fn one_event_more()
    ensures registry { (setting : Setting) (events : List Event) (event : Event) →
        registry_of setting (events ++ event ∷ []) ≡ step setting (slots_of setting events) (registry_of setting events) event }
    ensures accepted { (setting : Setting) (events : List Event) (event : Event) →
        accepted setting (events ++ event ∷ []) ≡ accepted setting events ++ accepted_at setting events event }
{}

/// A Level event gives its slot the next version, and leaves every other slot.
pub fn one_level_more()
    ensures history { (events : List Event) (slot level : ℕ) →
        history (events ++ Level slot level ∷ []) slot ≡ history events slot ++ level ∷ [] }
    ensures given { (first : ℕ) (events : List Event) (slot level : ℕ) →
        slot_after first (events ++ Level slot level ∷ []) slot ≡ record { version = (slot_after first events slot).version + 1; level = level } }
    ensures others { (first : ℕ) (events : List Event) (slot : ℕ) (event : Event) → level_for slot event ≡ None →
        slot_after first (events ++ event ∷ []) slot ≡ slot_after first events slot }
{}

/// The least free number is free, each smaller one is used, and it is no greater than the number of used ones.
pub fn least_free_number()
    ensures free { (used : List ℕ) → list_any (nat_eq (least_free used)) used ≡ false }
    ensures least { (used : List ℕ) (n : ℕ) → n < least_free used → list_any (nat_eq n) used ≡ true }
    ensures bound { (used : List ℕ) → least_free used ≤ length used }
{}

/// After every journal the applications have numbers of their own below 16, and the contexts of each application places of
/// their own below 64: so there are at most 16 applications with 64 contexts each, and no two contexts have the same slot.
pub fn numbers_stay_apart()
    ensures order { (setting : Setting) (events : List Event) → IsInOrder (registry_of setting events) }
    ensures apps { (setting : Setting) (events : List Event) → length (registry_of setting events).apps ≤ 16 }
{}

/// An application of a channel is there where some accepted message registered it, and none after that unregistered it. So
/// is a context, whose stay the leaving of its application ends too.
pub fn who_is_there()
    ensures apps { (setting : Setting) (events : List Event) (channel : ℕ) (apid : List ℕ) →
        is_app_there setting events channel apid ≡ stays (registers channel apid) (unregisters channel apid) (accepted setting events) }
    ensures contexts { (setting : Setting) (events : List Event) (channel : ℕ) (apid ctid : List ℕ) →
        is_context_there setting events channel apid ctid
        ≡ stays (registers_context channel apid ctid) (ends_context channel apid ctid) (accepted setting events) }
{}

/// The own level of a context that is there is the one that was given last: at the begin of its stay, by SetLogLevel, or
/// by ResetToFactoryDefault.
pub fn own_level_was_given_last()
    ensures { (setting : Setting) (events : List Event) (apid ctid : List ℕ) →
        IfSome (own_at (registry_of setting events) apid ctid)
        (λ own. last_or None (levels_given setting events apid ctid) ≡ Some own) }
{}
