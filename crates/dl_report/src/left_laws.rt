//! Laws on journals from which the backlog is told.

ghost use Rattle.std.specs.Prelude.{◌≤◌, ℕ, List, length};
ghost use Rattle.std.specs.List.{flat_map};
ghost use Rattle.dl_bytes.specs.Claim.{Claimed};
ghost use Rattle.dl_events.specs.declared.event.Event.{Event};
ghost use Rattle.dl_events.specs.declared.record.Record.{Record};
ghost use Rattle.dl_model.specs.Accounts.{AreNumbered};
ghost use Rattle.dl_model.specs.Frames.{FrameSource};
ghost use Rattle.dl_model.specs.Journal.{IsWellFormed};
ghost use Rattle.dl_model.specs.Setting.{Setting};
ghost use Rattle.dl_model.specs.WholeAccounts.{IsAccounted, records_by};
ghost use Rattle.dl_report.specs.Clients.{ComeAndGo};
ghost use Rattle.dl_report.specs.Losses.{told};

/// In a well-formed journal clients come and go in turn.
pub fn clients_come_and_go()
    ensures { (setting : Setting) (source : FrameSource) (events : List Event) → IsWellFormed setting source events → ComeAndGo events }
{}

/// Where records account for a journal, the calls of each writer are numbered from 1 on, and the lost calls that the journal tells
/// have their records.
pub fn records_account_for_a_journal()
    ensures numbered { (first : ℕ) (events : List Event) (pending refusals : ℕ → ℕ) (pushed : List (List Claimed)) (records : List (List Record)) →
        IsAccounted first events pending refusals pushed records → (writer : ℕ) → AreNumbered (records_by writer records) }
    ensures told { (first : ℕ) (events : List Event) (pending refusals : ℕ → ℕ) (pushed : List (List Claimed)) (records : List (List Record)) →
        IsAccounted first events pending refusals pushed records → told events ≤ length (flat_map (λ (rs : List Record). rs) records) }
{}
