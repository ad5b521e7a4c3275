//! Examples on well-formed journals: what a client's answers and its going may be.
#![tactic(auto, unfolding(dl_control::specs::Reading::request_of, dl_control::specs::Reading::injection_of, dl_control::specs::Reading::body_at))]

ghost use Rattle.std.specs.Prelude.{◌≡◌, ℕ, List, [], ◌∷◌, ◌++◌, codes, length};
ghost use Rattle.dl_bytes.specs.declared.moment.Moment.{Moment};
ghost use Rattle.dl_bytes.specs.declared.outcome.Done.TheVariants.{Yes, Failed, NoMemory};
ghost use Rattle.dl_events.specs.declared.event.Event.TheVariants.{Log, Connect, Request, Close};
ghost use Rattle.dl_events.specs.declared.event.Why.TheVariants as why;
ghost use Rattle.dl_model.specs.Frames.{FrameSource};
ghost use Rattle.dl_model.specs.Journal.{IsWellFormed};
ghost use Rattle.dl_model.specs.RegistryExamples.{RepliesHave, defaults, injection_for, small_buffer, query, store, version, logged, two_contexts};

/// A request that needs nobody is done. An injection is done, or its queue is full, and wants no memory; a Store may.
pub fn answers_of_requests()
    ensures version { (source : FrameSource) (at : Moment) → IsWellFormed defaults source (two_contexts at ++ Request 1 (query version) Failed ∷ []) → ⊥ }
    ensures full_queue { (source : FrameSource) (at : Moment) →
        IsWellFormed defaults source (two_contexts at ++ Request 1 (injection_for (codes "LOG1") (codes "TEST")) Failed ∷ []) }
    ensures queue { (source : FrameSource) (at : Moment) →
        IsWellFormed defaults source (two_contexts at ++ Request 1 (injection_for (codes "LOG1") (codes "TEST")) NoMemory ∷ []) → ⊥ }
    ensures no_context { (source : FrameSource) (at : Moment) →
        IsWellFormed defaults source (two_contexts at ++ Request 1 (injection_for (codes "LOG1") (codes "NONE")) Failed ∷ []) → ⊥ }
    ensures folder { (source : FrameSource) (at : Moment) → IsWellFormed defaults source (two_contexts at ++ Request 1 (query store) NoMemory ∷ []) }
{}

/// Slow clients. An outbox has room for 141,072 bytes where the buffer has 10,000, and holds at most the 141,000 of the message
/// before: 72 are left at least, and a message of 100 needs more. Both clients go before that message. Where all replies have 23
/// bytes, no other need is so, and none where no message follows.
pub fn slow_clients()
    ensures two { (source : FrameSource) (at : Moment) (first next : List ℕ) → length first ≡ 141000 → length next ≡ 100 →
        IsWellFormed small_buffer source (Connect 1 ∷ Connect 2 ∷ logged at first ∷ Close 1 (why.Slow 72 100) ∷ Close 2 (why.Slow 99 100) ∷ logged at next ∷ []) }
    ensures reply { (source : FrameSource) (at : Moment) (first : List ℕ) → length first ≡ 141050 → length (source.reply (Connect 1 ∷ logged at first ∷ []) [] Yes) ≡ 23 →
        IsWellFormed small_buffer source (Connect 1 ∷ logged at first ∷ Close 1 (why.Slow 22 23) ∷ []) }
    ensures less_room { (source : FrameSource) (at : Moment) (first next : List ℕ) → length first ≡ 141000 →
        IsWellFormed small_buffer source (Connect 1 ∷ logged at first ∷ Close 1 (why.Slow 71 100) ∷ logged at next ∷ []) → ⊥ }
    ensures room { (source : FrameSource) (at : Moment) (first next : List ℕ) →
        IsWellFormed small_buffer source (Connect 1 ∷ logged at first ∷ Close 1 (why.Slow 100 100) ∷ logged at next ∷ []) → ⊥ }
    ensures other_need { (source : FrameSource) (at : Moment) (first next : List ℕ) → length next ≡ 100 → RepliesHave 23 source →
        IsWellFormed small_buffer source (Connect 1 ∷ logged at first ∷ Close 1 (why.Slow 72 101) ∷ logged at next ∷ []) → ⊥ }
    ensures no_event { (source : FrameSource) (at : Moment) (first : List ℕ) → RepliesHave 23 source →
        IsWellFormed small_buffer source (Connect 1 ∷ logged at first ∷ Close 1 (why.Slow 72 100) ∷ []) → ⊥ }
    ensures long_reply { (source : FrameSource) (at : Moment) (first : List ℕ) →
        IsWellFormed small_buffer source (Connect 1 ∷ logged at first ∷ Close 1 (why.Slow 72 65536) ∷ []) → ⊥ }
{}

/// A stuck client is one of the daemon's stop: others are closed, and ask before that, but nobody comes and nothing is logged. One that
/// left ends nothing.
pub fn stuck_clients()
    ensures others { (source : FrameSource) → IsWellFormed defaults source (Connect 1 ∷ Connect 2 ∷ Close 1 (why.Stuck 5) ∷ Request 2 (query store) Yes ∷ Close 2 why.Stopped ∷ []) }
    ensures nobody { (source : FrameSource) → IsWellFormed defaults source (Connect 1 ∷ Close 1 (why.Stuck 5) ∷ Connect 2 ∷ []) → ⊥ }
    ensures nothing { (source : FrameSource) (at : Moment) → IsWellFormed defaults source (Connect 1 ∷ Close 1 why.Stopped ∷ Log 0 1 1 at ∷ []) → ⊥ }
    ensures left { (source : FrameSource) (at : Moment) → IsWellFormed defaults source (Connect 1 ∷ Close 1 why.Left ∷ Log 0 1 1 at ∷ Connect 2 ∷ []) }
{}
