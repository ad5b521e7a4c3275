//! A script is played over a folder in memory, and its run explained.

ghost use Rattle.std.specs.Prelude.{◌≡◌, ◌++◌, ℕ, List, Some, None, IfOk, option_map, if◌then◌else◌};
ghost use Rattle.dl_model.specs.Accounts.{AreNumbered};
ghost use Rattle.dl_model.specs.Report.{report};
ghost use Rattle.dl_model.specs.Setting.{Setting};
ghost use Rattle.dl_model.specs.TraceFiles.{StoredFile};
ghost use Rattle.dl_model.specs.WholeAccounts.{records_by, source_of_records};
ghost use Rattle.dl_report.specs.Clients.{ComeAndGo};
ghost use Rattle.dl_script.specs.Playable.{IsPlayable};
ghost use Rattle.dl_fates.specs.Calls.{calls_in};
ghost use Rattle.dl_fates.specs.ClaimLines.{claims_in};
ghost use Rattle.dl_fates.specs.Told.{owners_in};
ghost use Rattle.dl_call_timeline.specs.Timeline.{timeline};
ghost use Rattle.dl_picture.specs.Picture.{picture};
ghost use Rattle.dl_fates.specs.Cases.{cases_of};
ghost use Rattle.dl_why.specs.Program.{drawing_of, text_of};
ghost use Rattle.dl_core.specs.Settings.{setting_of};
ghost use Rattle.dl_fates.specs.Rows.{rows_of_run};
ghost use Rattle.dl_fates.specs.Written.{IsRotating};

use crate::script::Script;
use dl_bytes::{Id, OutOfMemory};
use dl_call_timeline::timeline_of;
use dl_fates::{Rotation, calls_in, claims_in, find_cases, owners_in, push_findings};
use dl_memory::MemoryFolder;
use dl_picture::draw;
use dl_report::left_laws::{clients_come_and_go, records_account_for_a_journal};
use dl_report::{Sources, report};
use dl_runs::runs::runs_are_accounted;
use dl_script_runs::laws::scripts_are_well_formed;
use dl_startup::{Setup, unserved};
use dl_world::{Played, play};
use std::alloc::Global;

/// The most bytes of a stored configuration that a run may write.
const STORED_ROOM: usize = 1_048_576;

/// The text of what was played: the rows of its calls, and its report.
fn text_of_played(
    alloc: Global,
    ecu: Id,
    buffer: u32,
    directory: &[u8],
    rotation: Option<Rotation>,
    script: &Script,
    played: &Played,
) -> Result<Vec<u8>, OutOfMemory>
    requires numbered { (number : ℕ) → AreNumbered (records_by number played.now.records) }
    requires clients { ComeAndGo played.now.events.events }
    ensures { (setting : Setting) (stood : List StoredFile) → setting.ecu ≡ ecu → IsRotating setting stood directory.now rotation
        → let p = played.now in IfOk result (λ text. text.items ≡
        rows_of_run setting stood buffer p.records p.events.events p.specs (claims_in script.now.text.items script.now.steps)
        (calls_in script.now.text.items script.now.steps)
        ++ report p.records p.events.events p.specs p.ends p.backlog None) }
{
    let calls = calls_in(alloc, &script.text, script.steps.all())?;
    let claims = claims_in(alloc, &script.text, script.steps.all())?;
    let events = played.events.events();
    let specs = played.specs.all();
    let sources = Sources {
        records: &played.records,
        specs,
        ecu,
    };
    let mut text = Vec::new(alloc);
    push_findings(
        alloc, &mut text, &sources, events, buffer, directory, rotation, &calls, &claims,
    )?;
    let report = report(
        alloc,
        &played.records,
        events,
        specs,
        &played.ends,
        played.backlog,
        None,
    )?;
    text.extend_from_slice(report.all())?;
    Ok(text)
}

/// The picture of what was played: the rows of its writers.
fn picture_of_played(
    alloc: Global,
    ecu: Id,
    buffer: u32,
    script: &Script,
    played: &Played,
) -> Result<Vec<u8>, OutOfMemory>
    requires numbered { (number : ℕ) → AreNumbered (records_by number played.now.records) }
    requires clients { ComeAndGo played.now.events.events }
    ensures { (setting : Setting) → setting.ecu ≡ ecu
        → let source = source_of_records setting played.now.records played.now.specs in IfOk result (λ text. text.items ≡
        picture (timeline ecu (owners_in script.now.steps) (cases_of source buffer played.now.records played.now.events.events (calls_in script.now.text.items script.now.steps)))) }
{
    let calls = calls_in(alloc, &script.text, script.steps.all())?;
    let writers = owners_in(alloc, script.steps.all())?;
    let events = played.events.events();
    let specs = played.specs.all();
    let sources = Sources {
        records: &played.records,
        specs,
        ecu,
    };
    let cases = find_cases(alloc, &sources, events, buffer, &calls)?;
    let shown = timeline_of(alloc, &ecu, &writers, &cases)?;
    draw(alloc, &shown)
}

/// The picture of what was played, where one is wanted.
fn picture_where_wanted(
    alloc: Global,
    ecu: Id,
    buffer: u32,
    script: &Script,
    played: &Played,
    is_wanted: bool,
) -> Result<Option<Vec<u8>>, OutOfMemory>
    requires numbered { (number : ℕ) → AreNumbered (records_by number played.now.records) }
    requires clients { ComeAndGo played.now.events.events }
    ensures { (setting : Setting) → setting.ecu ≡ ecu
        → let source = source_of_records setting played.now.records played.now.specs in IfOk result (λ shown. option_map (λ text. text.items) shown ≡ (if is_wanted then
        Some (picture (timeline ecu (owners_in script.now.steps) (cases_of source buffer played.now.records played.now.events.events (calls_in script.now.text.items script.now.steps)))) else None)) }
{
    if !is_wanted {
        return Ok(None);
    }
    match picture_of_played(alloc, ecu, buffer, script, played) {
        Ok(text) => Ok(Some(text)),
        Err(none) => Err(none),
    }
}

/// What is written of a script's run.
#[derive(Drop)]
pub struct Explanation {
    /// What is printed.
    pub text: Vec<u8>,
    /// The picture, where one is wanted.
    pub picture: Option<Vec<u8>>,
}

/// The explanation of a script's run: each Store and each Reset goes to a folder in memory, and nothing is stored of the trace. Where a trace is kept,
/// the rotation says into which files its frames would go. More memory than such a folder has, or than there is, is out of memory.
pub fn explain(
    alloc: Global,
    setup: Setup,
    rotation: Option<Rotation>,
    script: &Script,
    is_drawn: bool,
) -> Result<Explanation, OutOfMemory>
    requires { IsPlayable script.now.steps }
    ensures text { (stood : List StoredFile) → IsRotating (setting_of setup.conf setup.stored 0) stood setup.conf.directory rotation
        → IfOk result (λ explained. explained.text.items ≡ text_of setup stood script.now) }
    ensures picture { IfOk result (λ explained. option_map (λ text. text.items) explained.picture ≡ (if is_drawn then Some (drawing_of setup script.now) else None)) }
{
    let Setup { conf, stored } = setup;
    let mut folder = MemoryFolder::make(alloc, 1, STORED_ROOM)?;
    let played = play(alloc, &conf, stored, None, &script.steps, &mut folder)?;
    if unserved(played.events.events()) {
        return Err(OutOfMemory);
    }
    runs_are_accounted();
    scripts_are_well_formed();
    records_account_for_a_journal();
    clients_come_and_go();
    let text = text_of_played(
        alloc,
        conf.ecu,
        conf.buffer,
        conf.directory.all(),
        rotation,
        script,
        &played,
    )?;
    let picture = picture_where_wanted(alloc, conf.ecu, conf.buffer, script, &played, is_drawn)?;
    Ok(Explanation { text, picture })
}
