//! Laws of whole runs of steps: what holds after any lines of a script, and of a whole run.

ghost use Rattle.std.specs.Prelude.{◌≡◌, ◌<◌, ◌≤◌, ◌+◌, ℕ, true, List, length, count_by, is_some};
ghost use Rattle.std.specs.List.{AllByRecursion};
ghost use Rattle.dl_bytes.specs.declared.outcome.Done.{Done};
ghost use Rattle.dl_events.specs.declared.record.Answer.TheVariants.{Filtered, Queued, Lost};
ghost use Rattle.dl_script_model.specs.declared.step.Step.{Step};
ghost use Rattle.dl_model.specs.Accounts.{AreCounted, NeverFall, with_answer};
ghost use Rattle.dl_model.specs.Frames.{FrameSource};
ghost use Rattle.dl_model.specs.Journal.{IsOpen, IsSettled, IsWellFormed, is_connect};
ghost use Rattle.dl_script_model.specs.Marks.{claims, journal, records_of, records, pending, calls_of, held_by, capacity_of, is_log_of};
ghost use Rattle.dl_model.specs.Accounts.{claims as claims_noted};
ghost use Rattle.dl_model.specs.Report.{answered, reported, records_of_app, why_of};
ghost use Rattle.dl_model.specs.Setting.{Setting};
ghost use Rattle.dl_script_model.specs.Steps.{after_lines, run};
ghost use Rattle.dl_model.specs.WholeAccounts.{IsAccounted, IsAccountedSoFar};
ghost use Rattle.dl_laws.specs.PresentClaims.{ClaimsArePresent};
ghost use Rattle.dl_runs.specs.RunRecords.{IsSeen, MetFullRing, refusals_of};

/// Whatever lines a script has, its journal is well-formed, after the lines and at the end, where its claims are of applications
/// that are there: Level events are just those that are owed, in their order, and each event of a client stands while the client may
/// have it.
pub fn runs_are_well_formed()
    ensures lines { (setting : Setting) (source : FrameSource) (answers : List Done) (steps : List Step) →
        let events = journal (after_lines setting answers steps) in ClaimsArePresent setting events → IsWellFormed setting source events }
    ensures whole { (setting : Setting) (source : FrameSource) (answers : List Done) (steps : List Step) →
        let events = journal (run setting answers steps) in ClaimsArePresent setting events → IsWellFormed setting source events }
{}

/// A finished run owes nothing: no Level event is owed, nobody is open, and every client that came has its Close.
pub fn a_finished_run_owes_nothing()
    ensures levels { (setting : Setting) (answers : List Done) (steps : List Step) → IsSettled setting (journal (run setting answers steps)) }
    ensures nobody { (setting : Setting) (answers : List Done) (steps : List Step) (client : ℕ) → IsOpen client (journal (run setting answers steps)) → ⊥ }
    ensures closed { (setting : Setting) (answers : List Done) (steps : List Step) (client : ℕ) →
        let events = journal (run setting answers steps) in 1 ≤ client → client ≤ count_by is_connect events → is_some (why_of client events) ≡ true }
{}

/// Every run is accounted. After any lines of a script each writer has its account, but for calls and claims that wait in a ring, and
/// what is told of losses, with those that are pending, are the lost calls. At the end nothing waits and none is pending:
/// every call that was begun has its record, every queued one was admitted, every lost one is told, and every claim that a ring took
/// was noted. No two claims of an application are on the same place.
pub fn runs_are_accounted()
    ensures so_far { (setting : Setting) (answers : List Done) (steps : List Step) →
        let done = after_lines setting answers steps in
        IsAccountedSoFar setting.first (journal done) (λ app. pending app done) (refusals_of done) (claims done) (records done) }
    ensures whole { (setting : Setting) (answers : List Done) (steps : List Step) →
        let done = run setting answers steps in IsAccounted setting.first (journal done) (λ app. 0) (refusals_of done) (claims done) (records done) }
    ensures finished { (setting : Setting) (answers : List Done) (steps : List Step) (writer : ℕ) →
        let done = run setting answers steps in length (records_of writer done) ≡ calls_of writer done }
{}

/// The numbers of a report add up. Of each application the calls are the queued, the filtered and the lost ones; there are as
/// many Log events as queued calls, and the lost ones are those that Lost events tell.
pub fn reports_add_up()
    ensures calls { (setting : Setting) (answers : List Done) (steps : List Step) (app : ℕ) →
        let calls = records_of_app app (records (run setting answers steps)) in
        answered Queued calls + answered Filtered calls + answered Lost calls ≡ length calls }
    ensures admitted { (setting : Setting) (answers : List Done) (steps : List Step) (app : ℕ) →
        let done = run setting answers steps in count_by (is_log_of app) (journal done) ≡ answered Queued (records_of_app app (records done)) }
    ensures told { (setting : Setting) (answers : List Done) (steps : List Step) (app : ℕ) →
        let done = run setting answers steps in reported app (journal done) ≡ answered Lost (records_of_app app (records done)) }
{}

/// No ring ever holds more calls and claims than it can, and a lost call met a full one: before the push that refused it, its ring
/// held as many as it can. So an application with a lost call has at least as many queued ones and claims together as its ring holds.
pub fn lost_calls_met_a_full_ring()
    ensures room { (setting : Setting) (answers : List Done) (steps : List Step) (app : ℕ) →
        let done = after_lines setting answers steps in held_by app done ≤ capacity_of done app }
    ensures full { (setting : Setting) (answers : List Done) (steps : List Step) (writer : ℕ) →
        let done = run setting answers steps in AllByRecursion (MetFullRing done) (with_answer Lost (records_of writer done)) }
    ensures queued { (setting : Setting) (answers : List Done) (steps : List Step) (app : ℕ) →
        let done = run setting answers steps in
        let calls = records_of_app app (records done) in
        0 < answered Lost calls → capacity_of done app ≤ answered Queued calls + length (claims_noted app (journal done)) }
{}

/// The message counter of a call is the number of its writer's earlier calls that passed their level, modulo 256.
pub fn calls_are_counted()
    ensures lines { (setting : Setting) (answers : List Done) (steps : List Step) (writer : ℕ) →
        AreCounted 0 (records_of writer (after_lines setting answers steps)) }
    ensures whole { (setting : Setting) (answers : List Done) (steps : List Step) (writer : ℕ) →
        AreCounted 0 (records_of writer (run setting answers steps)) }
{}

/// A level is seen in time: what a call held is the last level, with its version, that its slot had been given before the
/// call's own load. So for one slot no later call of a writer holds an older version than an earlier one.
pub fn levels_are_seen_in_time()
    ensures lines { (setting : Setting) (answers : List Done) (steps : List Step) (writer : ℕ) →
        let done = after_lines setting answers steps in AllByRecursion (IsSeen setting done) (records_of writer done) }
    ensures whole { (setting : Setting) (answers : List Done) (steps : List Step) (writer : ℕ) →
        let done = run setting answers steps in AllByRecursion (IsSeen setting done) (records_of writer done) }
    ensures no_older { (setting : Setting) (answers : List Done) (steps : List Step) (writer : ℕ) →
        NeverFall (records_of writer (run setting answers steps)) }
{}
