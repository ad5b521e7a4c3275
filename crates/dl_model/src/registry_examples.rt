//! Examples on registries, levels and replies, each shown of the definitions by computation.
#![tactic(auto, unfolding(dl_control::specs::Reading::request_of, dl_control::specs::Reading::log_level_at, dl_control::specs::Reading::log_info_at, dl_control::specs::Reading::default_level_at, dl_control::specs::Reading::injection_of, dl_control::specs::Reading::body_at))]

ghost use Rattle.std.specs.Prelude.{◌≡◌, ℕ, ◌-◌, ◌^◌, List, [], ◌∷◌, ◌++◌, codes, negsuc, false, Option, Some, None, Ok, Err, map, is_some};
ghost use Rattle.std.specs.Map.{keys_of};
ghost use Rattle.std.specs.Option.{option_map};
ghost use Rattle.dl_bytes.specs.declared.moment.Moment.{Moment};
ghost use Rattle.dl_bytes.specs.declared.outcome.Done.TheVariants.{Yes, Failed, NoMemory};
ghost use Rattle.dl_bytes.specs.declared.user.UserMsg.TheVariants.{RegisterApp, RegisterContext, UnregisterContext};
ghost use Rattle.dl_events.specs.declared.event.Event.TheVariants.{Level, Request, Connect, Close};
ghost use Rattle.dl_events.specs.declared.event.Why.TheVariants as why;
ghost use Rattle.dl_model.specs.declared.registry.RegistryFault.TheVariants as fault;
ghost use Rattle.dl_model.specs.Frames.{FrameSource};
ghost use Rattle.dl_model.specs.Journal.{IsWellFormed, registry_of, slots_of, owed, reply_after, accepted};
ghost use Rattle.dl_model.specs.Registry.{applied, app_of, context_at, effective, level_at, owns_now};
ghost use Rattle.dl_model.specs.RegistryExamples.{hex, defaults, nearly_worn, id, app_comes, app_goes, context_comes, context_goes, claims, query, asks, asks_level, get_log_info, injection_for, set_level, set_default, store, reset_all, two_contexts, one_context, two_places};

/// A default level that changes: the context that follows it is owed a Level event, and the one with a level of its own
/// isn't. GetLogInfo tells own levels: 0xFF for none.
pub fn default_level_changes()
    ensures owed { (at : Moment) →
        owed defaults (two_contexts at ++ asks (set_default 2) ∷ []) ≡ Some (record { slot = 0; level = 2 }) }
    ensures settled { (at : Moment) → owed defaults (two_contexts at ++ asks (set_default 2) ∷ Level 0 2 ∷ []) ≡ None }
    ensures done { (at : Moment) → reply_after defaults (two_contexts at) (query (set_default 2)) Yes
        ≡ hex (codes "25 00 00 17 45 43 55 31 26 01 44 41 31 00 44 43 31 00 11 00 00 00 00") }
    ensures refused { (at : Moment) → reply_after defaults (two_contexts at) (query (set_default 7)) Yes
        ≡ hex (codes "25 00 00 17 45 43 55 31 26 01 44 41 31 00 44 43 31 00 11 00 00 00 02") }
    ensures info { (at : Moment) →
        reply_after defaults (two_contexts at ++ asks (set_default 2) ∷ Level 0 2 ∷ [])
        (query (get_log_info 6)) Yes
        ≡ hex (codes "25 00 00 2F 45 43 55 31 26 01 44 41 31 00 44 43 31 00 03 00 00 00 06 01 00 4C 4F 47 31 02 00 54 45 53 54 FF FF 46 55 4C 4C 06 FF 00 00 00 00") }
{}

/// SetLogLevel, with its numbers in either order, and SoftwareVersion: the replies.
pub fn plain_replies()
    ensures all { (at : Moment) →
        reply_after defaults (one_context at) (query (hex (codes "01 00 00 00 00 00 00 00 00 00 00 00 05 00 00 00 00"))) Yes
        ≡ hex (codes "25 00 00 17 45 43 55 31 26 01 44 41 31 00 44 43 31 00 01 00 00 00 00") }
    ensures big { (at : Moment) →
        reply_after defaults (one_context at)
        (hex (codes "23 00 00 1F 16 01 41 50 50 00 43 4F 4E 00 00 00 00 01 00 00 00 00 00 00 00 00 05 00 00 00 00")) Yes
        ≡ hex (codes "25 00 00 17 45 43 55 31 26 01 44 41 31 00 44 43 31 00 01 00 00 00 00") }
    ensures big_owed { (at : Moment) →
        owed defaults (one_context at
        ++ Request 1 (hex (codes "23 00 00 1F 16 01 41 50 50 00 43 4F 4E 00 00 00 00 01 00 00 00 00 00 00 00 00 05 00 00 00 00")) Yes ∷ [])
        ≡ Some (record { slot = 0; level = 5 }) }
    ensures none_matches { (at : Moment) → reply_after defaults (one_context at) (query (set_level (codes "LOG1") (codes "NONE") 5)) Yes
        ≡ hex (codes "25 00 00 17 45 43 55 31 26 01 44 41 31 00 44 43 31 00 01 00 00 00 02") }
    ensures bad_level { (at : Moment) → reply_after defaults (one_context at) (query (set_level (codes "LOG1") (codes "TEST") 7)) Yes
        ≡ hex (codes "25 00 00 17 45 43 55 31 26 01 44 41 31 00 44 43 31 00 01 00 00 00 02") }
    ensures short { (at : Moment) →
        reply_after defaults (one_context at) (query (hex (codes "01 00 00 00 00 00 00 00 00 00 00 00 05 00 00 00"))) Yes
        ≡ hex (codes "25 00 00 17 45 43 55 31 26 01 44 41 31 00 44 43 31 00 01 00 00 00 02") }
    ensures version { (at : Moment) → reply_after defaults (one_context at) (query (hex (codes "13 00 00 00"))) Yes
        ≡ hex (codes "25 00 00 24 45 43 55 31 26 01 44 41 31 00 44 43 31 00 13 00 00 00 00 09 00 00 00 64 6C 74 5F 72 75 6E 20 31") }
    ensures other { (at : Moment) → reply_after defaults (one_context at) (query (hex (codes "0A 00 00 00"))) Yes
        ≡ hex (codes "25 00 00 17 45 43 55 31 26 01 44 41 31 00 44 43 31 00 0A 00 00 00 01") }
    ensures empty { (at : Moment) → reply_after defaults (one_context at) (query []) Yes
        ≡ hex (codes "25 00 00 17 45 43 55 31 26 01 44 41 31 00 44 43 31 00 00 00 00 00 02") }
{}

/// GetLogInfo of an application that is not there has status 8, and with other options than 6 and 7 status 1.
pub fn refused_info()
    ensures nobody { (at : Moment) →
        reply_after defaults (one_context at) (query (hex (codes "03 00 00 00 06 4E 4F 4E 45 00 00 00 00 00 00 00 00"))) Yes
        ≡ hex (codes "25 00 00 17 45 43 55 31 26 01 44 41 31 00 44 43 31 00 03 00 00 00 08") }
    ensures options { (at : Moment) →
        reply_after defaults (one_context at) (query (hex (codes "03 00 00 00 03 00 00 00 00 00 00 00 00 00 00 00 00"))) Yes
        ≡ hex (codes "25 00 00 17 45 43 55 31 26 01 44 41 31 00 44 43 31 00 03 00 00 00 01") }
    ensures nobody_there { reply_after defaults [] (query (get_log_info 7)) Yes
        ≡ hex (codes "25 00 00 17 45 43 55 31 26 01 44 41 31 00 44 43 31 00 03 00 00 00 08") }
{}

/// StoreConfiguration keeps the own levels of that moment. ResetToFactoryDefault takes them away, and what was stored, and
/// a context with a level of its own is owed a Level event. Where the folder failed nothing changes, and the reply has
/// status 2.
pub fn stores_and_resets()
    ensures stored { (at : Moment) → (registry_of defaults (two_contexts at ++ asks store ∷ [])).stored
        ≡ record { apid = id (codes "LOG1"); ctid = id (codes "FULL"); level = 6 } ∷ [] }
    ensures owed { (at : Moment) →
        owed defaults (two_contexts at ++ asks store ∷ asks reset_all ∷ []) ≡ Some (record { slot = 1; level = 4 }) }
    ensures emptied { (at : Moment) → (registry_of defaults (two_contexts at ++ asks store ∷ asks reset_all ∷ [])).stored ≡ [] }
    ensures failed { (at : Moment) →
        registry_of defaults (two_contexts at ++ Request 1 (query store) Failed ∷ Request 1 (query reset_all) Failed ∷ [])
        ≡ registry_of defaults (two_contexts at) }
    ensures status_done { (at : Moment) → reply_after defaults (two_contexts at) (query store) Yes
        ≡ hex (codes "25 00 00 17 45 43 55 31 26 01 44 41 31 00 44 43 31 00 05 00 00 00 00") }
    ensures status_failed { (at : Moment) → reply_after defaults (two_contexts at) (query store) Failed
        ≡ hex (codes "25 00 00 17 45 43 55 31 26 01 44 41 31 00 44 43 31 00 05 00 00 00 02") }
    ensures status_no_memory { (at : Moment) → reply_after defaults (two_contexts at) (query reset_all) NoMemory
        ≡ hex (codes "25 00 00 17 45 43 55 31 26 01 44 41 31 00 44 43 31 00 06 00 00 00 0A") }
{}

/// A Store between two SetLogLevels: a context that goes and comes back gets the level of the moment of the Store, and not
/// the one that it asks for.
pub fn comes_back_as_stored()
    ensures { (at : Moment) →
        level_at (registry_of defaults (one_context at
        ++ asks_level 3 ∷ Level 0 3 ∷ asks store ∷ asks_level 5 ∷ Level 0 5
        ∷ context_goes at 0 (codes "LOG1") (codes "TEST") ∷ context_comes at 0 (codes "LOG1") (codes "TEST") (Some 1) ∷ [])) 0
        ≡ Some 3 }
{}

/// A context that registers again keeps the level that a client gave it; one that left and came back has the one that it
/// asks for.
pub fn registers_again()
    ensures stays { (at : Moment) →
        level_at (registry_of defaults (one_context at
        ++ asks (set_level [] [] 5) ∷ Level 0 5 ∷ context_comes at 0 (codes "LOG1") (codes "TEST") (Some 1) ∷ [])) 0
        ≡ Some 5 }
    ensures back { (at : Moment) →
        level_at (registry_of defaults (one_context at
        ++ asks (set_level [] [] 5) ∷ Level 0 5 ∷ app_goes at 0 (codes "LOG1") ∷ app_comes at 0 (codes "LOG1")
        ∷ context_comes at 0 (codes "LOG1") (codes "TEST") (Some 1) ∷ [])) 0
        ≡ Some 1 }
{}

/// An application that leaves and comes back on another channel gets the least free number, stands last, and its contexts
/// are gone. The slot that one of them had is used again by another context, which is owed a Level event where its level
/// is another one.
pub fn comes_back_elsewhere()
    ensures order { (at : Moment) →
        keys_of (registry_of defaults (one_context at ++ app_comes at 1 (codes "APP2") ∷ app_goes at 0 (codes "LOG1") ∷ app_comes at 2 (codes "LOG1") ∷ [])).apps
        ≡ id (codes "APP2") ∷ id (codes "LOG1") ∷ [] }
    ensures app { (at : Moment) →
        app_of (registry_of defaults (one_context at ++ app_comes at 1 (codes "APP2") ∷ app_goes at 0 (codes "LOG1") ∷ app_comes at 2 (codes "LOG1") ∷ []))
        2 (id (codes "LOG1"))
        ≡ Some (record { channel = 2; number = 0; pid = 0; text = []; contexts = [] }) }
    ensures not_there { (at : Moment) →
        app_of (registry_of defaults (one_context at ++ app_goes at 0 (codes "LOG1") ∷ app_comes at 2 (codes "LOG1") ∷ [])) 0 (id (codes "LOG1"))
        ≡ None }
    ensures slot_again { (at : Moment) →
        owed defaults (one_context at ++ app_goes at 0 (codes "LOG1") ∷ app_comes at 2 (codes "LOG1")
        ∷ context_comes at 2 (codes "LOG1") (codes "NEXT") (Some 2) ∷ [])
        ≡ Some (record { slot = 0; level = 2 }) }
    ensures same_level { (at : Moment) →
        owed defaults (one_context at ++ context_goes at 0 (codes "LOG1") (codes "TEST") ∷ context_comes at 0 (codes "LOG1") (codes "NEXT") (Some 4) ∷ [])
        ≡ None }
{}

/// Refusals, each before those that come after it in the order of the checks.
pub fn refused_messages()
    ensures zero_first { (at : Moment) →
        applied (slots_of defaults (one_context at)) (registry_of defaults (one_context at)) 1 (RegisterApp (0 ∷ 0 ∷ 0 ∷ 0 ∷ []) 0 [])
        ≡ Err fault.ZeroId }
    ensures taken { (at : Moment) →
        applied (slots_of defaults (one_context at)) (registry_of defaults (one_context at)) 1 (RegisterApp (id (codes "LOG1")) 0 [])
        ≡ Err fault.Taken }
    ensures unknown { (at : Moment) →
        applied (slots_of defaults (one_context at)) (registry_of defaults (one_context at)) 1 (UnregisterContext (id (codes "LOG1")) (id (codes "TEST")) 0)
        ≡ Err fault.UnknownApp }
    ensures unknown_context { (at : Moment) →
        applied (slots_of defaults (one_context at)) (registry_of defaults (one_context at)) 0 (UnregisterContext (id (codes "LOG1")) (id (codes "NONE")) 0)
        ≡ Err fault.UnknownContext }
    ensures only_accepted { (at : Moment) →
        accepted defaults (one_context at ++ app_comes at 1 (codes "LOG1") ∷ app_goes at 1 (codes "LOG1") ∷ []) ≡ accepted defaults (one_context at) }
{}

/// Slots at the last version. A context takes the last one; then a level that would change it is refused, and the level
/// that it has isn't. Once the context is gone, no other one gets its slot.
pub fn worn_slots()
    ensures last { (at : Moment) →
        owed nearly_worn (app_comes at 0 (codes "LOG1") ∷ context_comes at 0 (codes "LOG1") (codes "TEST") (Some 4) ∷ [])
        ≡ Some (record { slot = 0; level = 4 }) }
    ensures version { (at : Moment) → slots_of nearly_worn (one_context at) 0 ≡ record { version = 2 ^ 56 - 1; level = 4 } }
    ensures worn { (at : Moment) → reply_after nearly_worn (one_context at) (query (set_level (codes "LOG1") (codes "TEST") 3)) Yes
        ≡ hex (codes "25 00 00 17 45 43 55 31 26 01 44 41 31 00 44 43 31 00 01 00 00 00 02") }
    ensures same { (at : Moment) → reply_after nearly_worn (one_context at) (query (set_level (codes "LOG1") (codes "TEST") 4)) Yes
        ≡ hex (codes "25 00 00 17 45 43 55 31 26 01 44 41 31 00 44 43 31 00 01 00 00 00 00") }
    ensures unchanged { (at : Moment) →
        registry_of nearly_worn (one_context at ++ asks_level 3 ∷ []) ≡ registry_of nearly_worn (one_context at) }
    ensures other_default { (at : Moment) → reply_after nearly_worn (one_context at) (query (set_default 6)) Yes
        ≡ hex (codes "25 00 00 17 45 43 55 31 26 01 44 41 31 00 44 43 31 00 11 00 00 00 00") }
    ensures reset { (at : Moment) → reply_after (record nearly_worn { level = 5 }) (one_context at) (query reset_all) Yes
        ≡ hex (codes "25 00 00 17 45 43 55 31 26 01 44 41 31 00 44 43 31 00 06 00 00 00 02") }
    ensures no_other { (at : Moment) →
        let gone = one_context at ++ context_goes at 0 (codes "LOG1") (codes "TEST") ∷ [] in
        applied (slots_of nearly_worn gone) (registry_of nearly_worn gone) 0 (RegisterContext (id (codes "LOG1")) (id (codes "TEST")) 0 (Some 4) (negsuc 0) 0 [])
        ≡ Err fault.Worn }
{}

/// A context that two writers claimed has both places: it is told once, and has one level, that of its first claim. A level that is
/// set concerns both slots, and both are free once it is gone.
pub fn claimed_places()
    ensures first { (at : Moment) → level_at (registry_of defaults (two_places at)) 0 ≡ Some 4 }
    ensures further { (at : Moment) → level_at (registry_of defaults (two_places at)) 1 ≡ Some 4 }
    ensures settled { (at : Moment) → owed defaults (two_places at) ≡ None }
    ensures told_once { (at : Moment) →
        reply_after defaults (two_places at) (query (get_log_info 6)) Yes
        ≡ hex (codes "25 00 00 29 45 43 55 31 26 01 44 41 31 00 44 43 31 00 03 00 00 00 06 01 00 4C 4F 47 31 01 00 53 41 4D 45 04 FF 00 00 00 00") }
    ensures both_set { (at : Moment) →
        owed defaults (two_places at ++ asks (set_level (codes "LOG1") (codes "SAME") 2) ∷ Level 0 2 ∷ []) ≡ Some (record { slot = 1; level = 2 }) }
    ensures both_free { (at : Moment) →
        owed defaults (two_places at ++ context_goes at 0 (codes "LOG1") (codes "SAME") ∷ claims at 0 1 (codes "NEXT") (Some 6) ∷ [])
        ≡ Some (record { slot = 1; level = 6 }) }
    ensures beside { (at : Moment) → level_at (registry_of defaults (one_context at ++ claims at 0 1 (codes "CTX2") (Some 5) ∷ [])) 1 ≡ Some 5 }
    ensures least { (at : Moment) →
        level_at (registry_of defaults (two_places at ++ context_comes at 0 (codes "LOG1") (codes "TEST") (Some 3) ∷ [])) 2 ≡ Some 3 }
{}

/// A claim changes nothing where its place is taken or no place at all, where its slot is at the last version, and where no application of this process
/// has its number.
pub fn void_claims()
    ensures taken { (at : Moment) → registry_of defaults (two_places at ++ claims at 0 1 (codes "NEXT") (Some 6) ∷ []) ≡ registry_of defaults (two_places at) }
    ensures beyond { (at : Moment) → registry_of defaults (two_places at ++ claims at 0 64 (codes "NEXT") (Some 6) ∷ []) ≡ registry_of defaults (two_places at) }
    ensures worn { (at : Moment) →
        registry_of nearly_worn (two_places at ++ context_goes at 0 (codes "LOG1") (codes "SAME") ∷ claims at 0 1 (codes "NEXT") (Some 6) ∷ [])
        ≡ registry_of nearly_worn (two_places at ++ context_goes at 0 (codes "LOG1") (codes "SAME") ∷ []) }
    ensures nobody { (at : Moment) → registry_of defaults (two_places at ++ claims at 1 5 (codes "NEXT") (Some 6) ∷ []) ≡ registry_of defaults (two_places at) }
    ensures other_channel { (at : Moment) →
        registry_of defaults (app_comes at 1 (codes "LOG1") ∷ claims at 0 0 (codes "NEXT") (Some 6) ∷ []) ≡ registry_of defaults (app_comes at 1 (codes "LOG1") ∷ []) }
    ensures not_well_formed { (source : FrameSource) (at : Moment) →
        IsWellFormed defaults source (app_comes at 1 (codes "LOG1") ∷ claims at 0 0 (codes "NEXT") (Some 6) ∷ []) → ⊥ }
    ensures well_formed { (source : FrameSource) (at : Moment) → IsWellFormed defaults source (two_places at) }
{}

/// An injection reaches a context of this process that is named by both ids, where injections are let through and the
/// application's queue took it.
pub fn injections()
    ensures done { (at : Moment) → reply_after defaults (one_context at) (injection_for (codes "LOG1") (codes "TEST")) Yes
        ≡ hex (codes "25 00 00 17 45 43 55 31 26 01 44 41 31 00 44 43 31 00 FF 0F 00 00 00") }
    ensures full_queue { (at : Moment) → reply_after defaults (one_context at) (injection_for (codes "LOG1") (codes "TEST")) Failed
        ≡ hex (codes "25 00 00 17 45 43 55 31 26 01 44 41 31 00 44 43 31 00 FF 0F 00 00 02") }
    ensures no_context { (at : Moment) → reply_after defaults (one_context at) (injection_for (codes "LOG1") (codes "NONE")) Yes
        ≡ hex (codes "25 00 00 17 45 43 55 31 26 01 44 41 31 00 44 43 31 00 FF 0F 00 00 02") }
    ensures zero_ids { (at : Moment) → reply_after defaults (one_context at) (injection_for [] []) Yes
        ≡ hex (codes "25 00 00 17 45 43 55 31 26 01 44 41 31 00 44 43 31 00 FF 0F 00 00 02") }
    ensures not_let_through { (at : Moment) → reply_after (record defaults { injection = false }) (one_context at) (injection_for (codes "LOG1") (codes "TEST")) Yes
        ≡ hex (codes "25 00 00 17 45 43 55 31 26 01 44 41 31 00 44 43 31 00 FF 0F 00 00 02") }
    ensures other_channel { (at : Moment) →
        reply_after defaults (app_comes at 1 (codes "LOG1") ∷ context_comes at 1 (codes "LOG1") (codes "TEST") (Some 4) ∷ Level 0 4 ∷ [])
        (injection_for (codes "LOG1") (codes "TEST")) Yes
        ≡ hex (codes "25 00 00 17 45 43 55 31 26 01 44 41 31 00 44 43 31 00 FF 0F 00 00 02") }
{}

/// A journal that is well-formed: Level events come right after the event that owes them, the least slot first. Without
/// one of them, or with one that isn't owed, it is none.
pub fn well_formed_journals()
    ensures good { (source : FrameSource) (at : Moment) →
        IsWellFormed defaults source (two_contexts at ++ asks (set_level [] [] 2) ∷ Level 0 2 ∷ Level 1 2 ∷ Close 1 why.Left ∷ Connect 2 ∷ Close 2 why.Stopped ∷ []) }
    ensures missing { (source : FrameSource) (at : Moment) →
        IsWellFormed defaults source (two_contexts at ++ asks (set_level [] [] 2) ∷ Level 0 2 ∷ Close 1 why.Left ∷ []) → ⊥ }
    ensures order { (source : FrameSource) (at : Moment) →
        IsWellFormed defaults source (two_contexts at ++ asks (set_level [] [] 2) ∷ Level 1 2 ∷ Level 0 2 ∷ []) → ⊥ }
    ensures not_owed { (source : FrameSource) (at : Moment) → IsWellFormed defaults source (two_contexts at ++ Level 0 5 ∷ []) → ⊥ }
    ensures gone { (source : FrameSource) (at : Moment) →
        IsWellFormed defaults source (two_contexts at ++ Close 1 why.Left ∷ asks store ∷ []) → ⊥ }
{}
