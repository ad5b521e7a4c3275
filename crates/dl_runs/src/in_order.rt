//! Laws on runs of steps: the account of what was logged.

ghost use Rattle.std.specs.Prelude.{◌++◌, ◌≡◌, ◌≤◌, ◌+◌, ℕ, not, List, [], length, take, map, count_by, slice_get};
ghost use Rattle.std.specs.List.{filter_map, range_with_len, AllByRecursion};
ghost use Rattle.dl_bytes.specs.Claim.{Claimed};
ghost use Rattle.dl_bytes.specs.Level.{passes};
ghost use Rattle.dl_bytes.specs.declared.outcome.Done.{Done};
ghost use Rattle.dl_events.specs.declared.record.Record.{Record};
ghost use Rattle.dl_events.specs.declared.record.Answer.TheVariants.{Filtered};
ghost use Rattle.dl_events.specs.declared.event.Event.{Event};
ghost use Rattle.dl_script_model.specs.declared.step.Step.{Step};
ghost use Rattle.dl_model.specs.Along.{last_that};
ghost use Rattle.dl_model.specs.Journal.{owed};
ghost use Rattle.dl_model.specs.Setting.{Setting};
ghost use Rattle.dl_script_model.specs.Marks.{Call, Mark, records_of, opened_call, is_step_of, calls_of, journal, record_of, pending, is_counted_of, taken, pushes, call_in, claim_in, claims_of, announced_by};
ghost use Rattle.dl_script_model.specs.Runs.{AreFounded};
ghost use Rattle.dl_script_model.specs.Steps.{after_lines, run, changes};
ghost use Rattle.dl_model.specs.Accounts.{IsExact, order, takes, claims, name_of};
ghost use Rattle.dl_model.specs.Report.{reported, is_answer};
ghost use Rattle.dl_runs.specs.Takes.{as_took};

/// Each mark of a run rests on those before it: a call holds what its slot held at its load and is filtered or passes by
/// that, a ring takes a call unless it is full, what the daemon takes is the ring's first, and what it tells of losses is
/// what is pending. So all laws below hold of every run, and of every beginning of one.
pub fn runs_are_founded()
    ensures lines { (setting : Setting) (answers : List Done) (steps : List Step) → AreFounded setting [] (after_lines setting answers steps) }
    ensures whole { (setting : Setting) (answers : List Done) (steps : List Step) → AreFounded setting [] (run setting answers steps) }
{}

/// Losses of an application: those that the journal tells and those that are pending are those that were counted.
pub fn losses_are_told()
    ensures { (setting : Setting) (marks : List Mark) → AreFounded setting [] marks → (app : ℕ) →
        reported app (journal marks) + pending app marks ≡ count_by (is_counted_of app) marks }
{}

/// Admission is in the order of the rings: the Log and the Claim events of an application are the first of the calls and the
/// claims that its ring took, each once.
pub fn admitted_in_order()
    ensures all { (setting : Setting) (marks : List Mark) → AreFounded setting [] marks → (app : ℕ) →
        (takes app (journal marks) ≡ map as_took (take (taken app marks) (pushes app marks))) × (taken app marks ≤ length (pushes app marks)) }
    ensures calls { (setting : Setting) (marks : List Mark) → AreFounded setting [] marks → (app : ℕ) →
        order app (journal marks) ≡ map (λ (call : Call). name_of call.item) (filter_map call_in (take (taken app marks) (pushes app marks))) }
    ensures claims { (setting : Setting) (marks : List Mark) → AreFounded setting [] marks → (app : ℕ) →
        claims app (journal marks) ≡ filter_map claim_in (take (taken app marks) (pushes app marks)) }
{}

/// The claims of a writer go into its ring in their order, each once: those that the ring took are the first of those that it made.
pub fn claims_are_announced_in_order()
    ensures { (setting : Setting) (marks : List Mark) → AreFounded setting [] marks → (writer : ℕ) →
        (rest : List Claimed) × (claims_of writer marks ≡ announced_by writer marks ++ rest) }
{}

/// Each call holds the level that its slot held at the version of its own load, and is filtered exactly where its
/// severity is above that level.
pub fn calls_are_exact()
    ensures { (setting : Setting) (marks : List Mark) → AreFounded setting [] marks →
        AllByRecursion (IsExact setting.first (journal marks)) (filter_map record_of marks) }
{}

/// The calls of a writer are numbered from 1, and none is missing: its records, and then the call that is open, if one is,
/// have the numbers up to that of the calls that it began.
pub fn calls_are_numbered()
    ensures { (setting : Setting) (marks : List Mark) → AreFounded setting [] marks → (writer : ℕ) →
        map (λ (r : Record). r.item.call) (records_of writer marks)
        ++ map (λ (call : Call). call.item.call) (opened_call (last_that (is_step_of writer) marks))
        ≡ range_with_len 1 (calls_of writer marks) }
{}

/// The Level events that a run hands out begin with the one that a well-formed journal owes next.
pub fn level_events_in_order()
    ensures { (setting : Setting) (events : List Event) → owed setting events ≡ slice_get (changes setting events) 0 }
{}
