//! The law of causes: why a message isn't in a client's stream.

ghost use Rattle.std.specs.Prelude.{◌≡◌, ◌+◌, ℕ, List, count_by};
ghost use Rattle.std.specs.List.{AllByRecursion};
ghost use Rattle.dl_bytes.specs.declared.outcome.Done.{Done};
ghost use Rattle.dl_events.specs.declared.event.Event.{Event};
ghost use Rattle.dl_events.specs.declared.record.Record.{Record};
ghost use Rattle.dl_script_model.specs.declared.step.Step.{Step};
ghost use Rattle.dl_model.specs.Accounts.{AreTold};
ghost use Rattle.dl_model.specs.Frames.{FrameSource};
ghost use Rattle.dl_model.specs.Journal.{IsWellFormed};
ghost use Rattle.dl_script_model.specs.Marks.{journal, pending};
ghost use Rattle.dl_model.specs.Report.{reported};
ghost use Rattle.dl_model.specs.Setting.{Setting};
ghost use Rattle.dl_script_model.specs.Steps.{after_lines, run};
ghost use Rattle.dl_model.specs.WholeAccounts.{records_by};
ghost use Rattle.dl_runs.specs.Causes.{AreNeighbours, HasOneCause, HaveCauses, HaveMetFullRings, TellsHole, full_ones, is_ring_full};
ghost use Rattle.dl_laws.specs.Fates.{InRing, what_became_of};
ghost use Rattle.dl_laws.specs.Gathered.{Account, AreOfWriter, IsWhole};
ghost use Rattle.dl_laws.specs.PresentClaims.{ClaimsArePresent};

/// A hole has one cause. Each recorded call of a writer was filtered, lost at its full ring, refused by the full buffer while nobody
/// listened, or heard by this client; or it waits in its ring or in the backlog, or others heard it while this client wasn't there. Those
/// whose ring was full are as many as Lost events tell, with those that are pending. In a whole account none is left in a ring.
pub fn a_hole_has_one_cause()
    ensures calls { (setting : Setting) (source : FrameSource) (buffer client : ℕ) (events : List Event) (records : List Record) →
        AreOfWriter setting source events records → AllByRecursion (HasOneCause source buffer client events) records }
    ensures accounts { (setting : Setting) (source : FrameSource) (account : Account) (buffer client writer : ℕ) →
        IsWellFormed setting source account.events → IsWhole account →
        AllByRecursion (HasOneCause source buffer client account.events) (records_by writer account.records) }
    ensures taken { (source : FrameSource) (account : Account) (buffer client writer : ℕ) → IsWhole account →
        AllByRecursion (λ r. what_became_of source buffer client account.events r ≡ InRing → ⊥) (records_by writer account.records) }
    ensures told { (source : FrameSource) (buffer client app pending : ℕ) (events : List Event) (records : List Record) → AreTold app events pending records →
        reported app events + pending ≡ count_by (λ r. is_ring_full (what_became_of source buffer client events r)) records }
{}

/// Message counters tell holes. Of two calls of a writer that a client heard, with none between them heard, the second one's counter says
/// how many calls between passed their level, modulo 256. Each of these met a full ring, or a full buffer of which this client was told.
pub fn counters_tell_holes()
    ensures { (setting : Setting) (source : FrameSource) (buffer client : ℕ) (events : List Event) (one two : Record) (between : List Record) →
        AreNeighbours setting source buffer client events one two between → TellsHole source buffer client events one two between }
{}

/// So it is in every run whose claims are of applications that are there, for every call of every writer and every client, after any
/// lines of a script and at the end. A call whose ring
/// was full met a full one, and those that did are as many as Lost events tell, with those that are pending.
pub fn every_call_of_a_run_has_one_cause()
    ensures lines { (setting : Setting) (answers : List Done) (steps : List Step) (writer client : ℕ) →
        let done = after_lines setting answers steps in ClaimsArePresent setting (journal done) → HaveCauses setting done writer client }
    ensures whole { (setting : Setting) (answers : List Done) (steps : List Step) (writer client : ℕ) →
        let done = run setting answers steps in ClaimsArePresent setting (journal done) → HaveCauses setting done writer client }
    ensures full_so_far { (setting : Setting) (answers : List Done) (steps : List Step) (writer client : ℕ) → HaveMetFullRings setting (after_lines setting answers steps) writer client }
    ensures full { (setting : Setting) (answers : List Done) (steps : List Step) (writer client : ℕ) → HaveMetFullRings setting (run setting answers steps) writer client }
    ensures told_so_far { (setting : Setting) (answers : List Done) (steps : List Step) (app client : ℕ) →
        let done = after_lines setting answers steps in reported app (journal done) + pending app done ≡ full_ones setting done app client }
    ensures told { (setting : Setting) (answers : List Done) (steps : List Step) (app client : ℕ) →
        let done = run setting answers steps in reported app (journal done) ≡ full_ones setting done app client }
{}
