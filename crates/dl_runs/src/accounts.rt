//! Laws on journals with their records, where they are accounted: nothing is lost unsaid.

ghost use Rattle.std.specs.Prelude.{◌≡◌, ◌<◌, ◌≤◌, ◌+◌, ℕ, List, ◌∷◌, ◌++◌, length, count_by};
ghost use Rattle.dl_bytes.specs.Level.{severity_number};
ghost use Rattle.dl_bytes.specs.declared.conf.AppSpec.{AppSpec};
ghost use Rattle.dl_bytes.specs.declared.moment.Moment.{Moment};
ghost use Rattle.dl_events.specs.declared.event.Event.{Event};
ghost use Rattle.dl_events.specs.declared.event.Event.TheVariants.{Log};
ghost use Rattle.dl_events.specs.declared.record.Record.{Record};
ghost use Rattle.dl_events.specs.declared.record.Answer.TheVariants.{Filtered, Queued, Lost};
ghost use Rattle.dl_model.specs.Accounts.{IsExact};
ghost use Rattle.dl_model.specs.History.{history};
ghost use Rattle.dl_script_model.specs.Marks.{is_log_of};
ghost use Rattle.dl_model.specs.Report.{answered, reported, records_of_app};
ghost use Rattle.dl_model.specs.Setting.{Setting};
ghost use Rattle.dl_laws.specs.ClientParts.{Stay, events_of};
ghost use Rattle.dl_laws.specs.Gathered.{Account, IsWhole, calls_in};
ghost use Rattle.dl_laws.specs.HeardCalls.{HearsAll, WasThereThroughout, sent_in};
ghost use Rattle.dl_laws.specs.LoggedCalls.{WasLogged};
ghost use Rattle.dl_runs.specs.RunRecords.{is_level_of};

/// Nothing is lost unsaid. The calls of an application were filtered, queued or lost. Each queued one is admitted, once, and
/// the lost ones are those that Lost events tell, with those that are pending.
pub fn nothing_is_lost_unsaid()
    ensures answers { (app : ℕ) (records : List (List Record)) →
        let calls = records_of_app app records in
        answered Queued calls + answered Filtered calls + answered Lost calls ≡ length calls }
    ensures admitted { (account : Account) (app : ℕ) → IsWhole account → count_by (is_log_of app) account.events ≡ answered Queued (calls_in account app) }
    ensures told { (account : Account) (app : ℕ) → IsWhole account →
        reported app account.events + account.pending app ≡ answered Lost (calls_in account app) }
    ensures calls { (account : Account) (app : ℕ) → IsWhole account → length (calls_in account app)
        ≡ count_by (is_log_of app) account.events + answered Filtered (calls_in account app) + (reported app account.events + account.pending app) }
{}

/// What is admitted was logged: each Log event is a call that its writer's record says its ring took, of this application.
pub fn what_is_admitted_was_logged()
    ensures { (account : Account) (app writer call : ℕ) (moment : Moment) (before after : List Event) →
        IsWhole account → account.events ≡ before ++ Log app writer call moment ∷ after → WasLogged account.records app writer call }
{}

/// A client that was there throughout, so that nothing was admitted before it came or after it went, hears each queued call once, of each
/// writer in order; and the overflow records of an application in its stream add up to its lost calls.
pub fn a_client_hears_all()
    ensures { (setting : Setting) (records : List (List Record)) (specs : List AppSpec) (stay : Stay) →
        WasThereThroughout setting records specs stay → HearsAll setting records specs (events_of stay) (sent_in setting records specs stay) }
{}

/// Levels filter just what is above them: the severity of a filtered call is above the level that the call held, that of any
/// other isn't. The history of a slot has one entry more for each of its Level events.
pub fn levels_filter()
    ensures filtered { (first : ℕ) (events : List Event) (r : Record) → IsExact first events r → r.answer ≡ Filtered → r.held < severity_number r.item.severity }
    ensures queued { (first : ℕ) (events : List Event) (r : Record) → IsExact first events r → r.answer ≡ Queued → severity_number r.item.severity ≤ r.held }
    ensures lost { (first : ℕ) (events : List Event) (r : Record) → IsExact first events r → r.answer ≡ Lost → severity_number r.item.severity ≤ r.held }
    ensures entries { (events : List Event) (slot : ℕ) → length (history events slot) ≡ 1 + count_by (is_level_of slot) events }
{}
