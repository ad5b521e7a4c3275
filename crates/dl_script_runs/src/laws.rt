//! Laws of whole scripts that can be played.

ghost use Rattle.std.specs.Prelude.{◌≡◌, ◌≢◌, ℕ, List, [], ◌∷◌, Some};
ghost use Rattle.std.specs.List.{AllByRecursion, filter_map};
ghost use Rattle.dl_bytes.specs.Claim.{Claimed};
ghost use Rattle.dl_bytes.specs.Limits.{last_version};
ghost use Rattle.dl_bytes.specs.declared.outcome.Done.{Done};
ghost use Rattle.dl_script.specs.Playable.{IsPlayable};
ghost use Rattle.dl_script_model.specs.declared.step.Step.{Step};
ghost use Rattle.dl_model.specs.Accounts.{claims};
ghost use Rattle.dl_model.specs.Frames.{FrameSource};
ghost use Rattle.dl_model.specs.Journal.{IsSettled, IsWellFormed, registry_of};
ghost use Rattle.dl_script_model.specs.Marks.{Call, Mark, claim_of, journal, number_of, records_of};
ghost use Rattle.dl_model.specs.Setting.{Setting};
ghost use Rattle.dl_script_model.specs.Steps.{after_lines, run};
ghost use Rattle.dl_model.specs.WholeAccounts.{ArePlacesApart};
ghost use Rattle.dl_runs.specs.Causes.{HaveCauses};
ghost use Rattle.dl_laws.specs.PresentClaims.{ClaimsArePresent};
ghost use Rattle.dl_runs.specs.RunRecords.{IsLoadedIn};
ghost use Rattle.dl_runs.specs.WaitingClaims.{IsBehindContexts, IsRegistered, TakenClaim, events_with, registry_with};
ghost use Rattle.dl_script_runs.specs.OwnSlots.{GoesByClaim, GoesByLines, IsFilteredUntilTaken, IsInOwnSlot, LoadsOwnSlot, level_named};

use dl_runs::causes::every_call_of_a_run_has_one_cause;
use dl_runs::claims::{
    calls_are_filtered_until_their_claim_is_taken, claims_are_registered_as_they_are_taken,
    no_place_is_claimed_twice,
};
use dl_runs::runs::runs_are_well_formed;

/// Each claim that the daemon takes is of an application that is there, on channel 0: a script declares it before user messages come, under a
/// name that none has yet, and no other process can unregister it.
pub fn claims_of_a_script_are_present()
    ensures lines { (setting : Setting) (answers : List Done) (steps : List Step) → IsPlayable steps →
        ClaimsArePresent setting (journal (after_lines setting answers steps)) }
    ensures whole { (setting : Setting) (answers : List Done) (steps : List Step) → IsPlayable steps →
        ClaimsArePresent setting (journal (run setting answers steps)) }
{}

/// So the journal of a script is well-formed, after any lines of it and at the end: Level events are just those that are owed, in their
/// order, and each event of a client stands while the client may have it.
pub fn scripts_are_well_formed()
    ensures lines { (setting : Setting) (source : FrameSource) (answers : List Done) (steps : List Step) → IsPlayable steps →
        IsWellFormed setting source (journal (after_lines setting answers steps)) }
    ensures whole { (setting : Setting) (source : FrameSource) (answers : List Done) (steps : List Step) → IsPlayable steps →
        IsWellFormed setting source (journal (run setting answers steps)) }
{
    claims_of_a_script_are_present();
    runs_are_well_formed();
}

/// So in every run of a script each call of every writer has one cause, for every client.
pub fn every_call_of_a_script_has_one_cause()
    ensures lines { (setting : Setting) (answers : List Done) (steps : List Step) (writer client : ℕ) → IsPlayable steps →
        HaveCauses setting (after_lines setting answers steps) writer client }
    ensures whole { (setting : Setting) (answers : List Done) (steps : List Step) (writer client : ℕ) → IsPlayable steps →
        HaveCauses setting (run setting answers steps) writer client }
{
    claims_of_a_script_are_present();
    every_call_of_a_run_has_one_cause();
}

/// The places of an application's contexts differ. The claims that the daemon takes of it have different places, and these stand behind
/// the places of all contexts that lines declare of it: a script declares these before the first claim.
pub fn places_of_a_script_differ()
    ensures taken { (setting : Setting) (answers : List Done) (steps : List Step) → ArePlacesApart (journal (run setting answers steps)) }
    ensures behind { (setting : Setting) (answers : List Done) (steps : List Step) (app : ℕ) (apid : List ℕ) → IsPlayable steps →
        let done = run setting answers steps in
        number_of apid done ≡ Some app → AllByRecursion (IsBehindContexts apid done) (claims app (journal done)) }
{
    no_place_is_claimed_twice();
}

/// A call under the place of a claim is filtered until the daemon takes the claim: as long as no Claim event of the place is there, its slot
/// holds level 0 at its first version, which no call passes.
pub fn calls_of_a_script_are_filtered_until_their_claim_is_taken()
    ensures { (setting : Setting) (answers : List Done) (steps : List Step) (writer : ℕ) → IsPlayable steps →
        let done = run setting answers steps in
        AllByRecursion (λ claim. AllByRecursion (IsFilteredUntilTaken setting done claim) (records_of writer done)) (filter_map claim_of done) }
{
    calls_are_filtered_until_their_claim_is_taken();
}

/// Each claim that the daemon takes is in the registry right after its Claim event: its application has a context of its id with its place,
/// where slots don't begin at the last version.
pub fn claims_of_a_script_are_registered()
    ensures { (setting : Setting) (answers : List Done) (steps : List Step) (taken : TakenClaim) →
        IsPlayable steps → journal (run setting answers steps) ≡ events_with taken → setting.first ≢ last_version →
        IsRegistered (registry_with setting taken) taken.claim }
{
    claims_of_a_script_are_present();
    claims_are_registered_as_they_are_taken();
}

/// A call loads a slot of the context that the registry has under the call's ids at its load: one of its writer's application, which has the
/// call's number. Where the writer claimed no place for the id, the context is one that lines declared. Where it did, the daemon has taken
/// its last claim of the id: until then the call is filtered. Slots don't begin at the last version, at which no context begins.
pub fn calls_of_a_script_load_the_slots_of_their_ids()
    ensures declared { (setting : Setting) (answers : List Done) (steps : List Step) (call : Call) →
        IsPlayable steps → setting.first ≢ last_version → (loaded : IsLoadedIn setting (run setting answers steps) call) →
        GoesByLines call loaded.before → LoadsOwnSlot setting loaded.before call }
    ensures claimed { (setting : Setting) (answers : List Done) (steps : List Step) (call : Call) →
        IsPlayable steps → setting.first ≢ last_version → (loaded : IsLoadedIn setting (run setting answers steps) call) →
        (claim : Claimed) → GoesByClaim call claim loaded.before → LoadsOwnSlot setting loaded.before call }
{
    claims_of_a_script_are_registered();
}

/// So where no Level event is owed at the load of such a call, it held the level that filters for the context of its ids: a level that a
/// client set by these ids reached it.
pub fn calls_hold_the_levels_of_their_ids()
    ensures { (setting : Setting) (done : List Mark) (call : Call) (loaded : IsLoadedIn setting done call) →
        let registry = registry_of setting (journal loaded.before) in
        IsSettled setting (journal loaded.before) → IsInOwnSlot registry call →
        level_named registry call.item.apid call.item.ctid ≡ Some call.held }
{}
