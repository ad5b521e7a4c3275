//! What a registry holds, by the last event that gave it, and examples on registries.

ghost use Rattle.std.specs.Prelude.{◌≡◌, ℕ, ◌-◌, ◌^◌, List, [], ◌∷◌, ◌++◌, codes, Some, None, IfSome};
ghost use Rattle.std.specs.List.{last_or};
ghost use Rattle.dl_bytes.specs.declared.moment.Moment.{Moment};
ghost use Rattle.dl_bytes.specs.declared.outcome.Done.TheVariants.{Yes};
ghost use Rattle.dl_events.specs.declared.event.Event.{Event};
ghost use Rattle.dl_events.specs.declared.event.Event.TheVariants.{Level};
ghost use Rattle.dl_model.specs.Along.{along};
ghost use Rattle.dl_model.specs.Journal.{registry_of, reply_after, slots_of, start};
ghost use Rattle.dl_model.specs.Registry.{level_at, next_change};
ghost use Rattle.dl_model.specs.RegistryExamples.{app_comes, context_comes, defaults, hex, nearly_worn, one_context};
ghost use Rattle.dl_model.specs.Setting.{Setting};
ghost use Rattle.dl_laws.specs.GivenLast.{default_at, number_at, number_of, stored_at, told_at, told_of};
ghost use Rattle.dl_laws.specs.RegistryCases.{comes_with_text, info_with_texts, last_slots, twice_stored};

/// What a registry holds was given last. The default level: at the beginning, by SetDefaultLogLevel or by
/// ResetToFactoryDefault. The stored levels: by the stored configuration that was read, by StoreConfiguration or by
/// ResetToFactoryDefault. What an application tells of itself: by the last accepted message that registered it; and its number: by
/// the one that began its stay.
pub fn what_a_registry_holds_was_given_last()
    ensures default_level { (setting : Setting) (events : List Event) →
        last_or (Some (start setting).level) (along (default_at setting) events) ≡ Some (registry_of setting events).level }
    ensures stored { (setting : Setting) (events : List Event) →
        last_or (Some setting.stored.own) (along (stored_at setting) events) ≡ Some (registry_of setting events).stored }
    ensures told { (setting : Setting) (events : List Event) (apid : List ℕ) →
        IfSome (told_of (registry_of setting events) apid) (λ app. last_or None (along (told_at setting apid) events) ≡ Some app) }
    ensures number { (setting : Setting) (events : List Event) (apid : List ℕ) →
        IfSome (number_of (registry_of setting events) apid) (λ number. last_or None (along (number_at setting apid) events) ≡ Some number) }
{}

/// A context that registers again tells itself anew: GetLogInfo with texts has the later text.
#[tactic(auto, unfolding(dl_control::specs::Reading::request_of, dl_control::specs::Reading::log_info_at))]
pub fn tells_itself_anew()
    ensures { (at : Moment) →
        reply_after defaults (one_context at ++ comes_with_text at (codes "new") ∷ []) info_with_texts Yes
        ≡ hex (codes "25 00 00 30 45 43 55 31 26 01 44 41 31 00 44 43 31 00 03 00 00 00 07 01 00 4C 4F 47 31 01 00 54 45 53 54 04 FF 03 00 6E 65 77 00 00 00 00 00 00") }
{}

/// Where two levels were stored for one context, the last one counts.
pub fn stored_twice()
    ensures { (at : Moment) →
        level_at (registry_of twice_stored (app_comes at 0 (codes "LOG1") ∷ context_comes at 0 (codes "LOG1") (codes "TEST") (Some 1) ∷ [])) 0 ≡ Some 5 }
{}

/// The last application has the slots from 960 to 1023: its contexts are owed their levels there, the least slot first. A slot that no
/// Level event gave a level holds 0, of the first version.
pub fn the_last_slots()
    ensures level { level_at last_slots 1000 ≡ Some 4 }
    ensures first { next_change (slots_of defaults []) last_slots ≡ Some (record { slot = 1000; level = 4 }) }
    ensures last { next_change (slots_of defaults (Level 1000 4 ∷ [])) last_slots ≡ Some (record { slot = 1023; level = 4 }) }
    ensures none { next_change (slots_of defaults (Level 1000 4 ∷ Level 1023 4 ∷ [])) last_slots ≡ None }
    ensures begins { slots_of nearly_worn [] 1000 ≡ record { version = 2 ^ 56 - 2; level = 0 } }
{}
