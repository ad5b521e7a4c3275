//! Laws of claims in whole runs: whose place each is, and what its context's calls meet before and after the daemon takes it.

ghost use Rattle.std.specs.Prelude.{◌≡◌, ℕ, nat_eq, List, [], map, Some};
ghost use Rattle.std.specs.List.{AllByRecursion, IsDistinct};
ghost use Rattle.dl_bytes.specs.Claim.{Claimed};
ghost use Rattle.dl_bytes.specs.declared.outcome.Done.{Done};
ghost use Rattle.dl_script_model.specs.declared.step.Step.{Step};
ghost use Rattle.dl_model.specs.Accounts.{claims};
ghost use Rattle.dl_script_model.specs.Marks.{claims_on, journal, number_of, records_of};
ghost use Rattle.dl_model.specs.Setting.{Setting};
ghost use Rattle.dl_script_model.specs.Steps.{run};
ghost use Rattle.dl_model.specs.WholeAccounts.{ArePlacesApart};
ghost use Rattle.dl_runs.specs.WaitingClaims.{CanRegister, ComesEarly, ContextsComeFirst, IsBehindContexts, IsFilteredFirst, IsRegistered, TakenClaim, events_with, registry_with};

/// No place is claimed twice: the places that writers claim of one application differ, and so do those of its Claim events. They
/// stand behind the places of all contexts that lines declare of it, where these lines come before its claims.
pub fn no_place_is_claimed_twice()
    ensures claimed { (setting : Setting) (answers : List Done) (steps : List Step) (app : ℕ) →
        IsDistinct nat_eq (map (λ (claim : Claimed). claim.place) (claims_on app (run setting answers steps))) }
    ensures taken { (setting : Setting) (answers : List Done) (steps : List Step) → ArePlacesApart (journal (run setting answers steps)) }
    ensures behind { (setting : Setting) (answers : List Done) (steps : List Step) (app : ℕ) (apid : List ℕ) →
        let done = run setting answers steps in
        ContextsComeFirst [] done → number_of apid done ≡ Some app →
        AllByRecursion (IsBehindContexts apid done) (claims app (journal done)) }
{}

/// A call is filtered until the daemon takes the claim of its place: as long as no Claim event of the place is there, and no message
/// registered a context on it, its slot holds level 0 at its first version, which no call passes.
pub fn calls_are_filtered_until_their_claim_is_taken()
    ensures { (setting : Setting) (answers : List Done) (steps : List Step) (writer : ℕ) →
        let done = run setting answers steps in
        AllByRecursion (λ r. ComesEarly setting done r → IsFilteredFirst setting r) (records_of writer done) }
{}

/// A claim is in the registry from its Claim event on, until a later event ends its context's stay: where its application is there, no
/// message registered a context on its place, and its slot is not at the last version.
pub fn claims_are_registered_as_they_are_taken()
    ensures { (setting : Setting) (answers : List Done) (steps : List Step) (taken : TakenClaim) →
        journal (run setting answers steps) ≡ events_with taken → CanRegister setting taken → IsRegistered (registry_with setting taken) taken.claim }
{}
