//! The program: `steps` explains the script of the input, `trace` and `stream` are accounts of what was recorded, `find` says where a message is.

ghost use Rattle.std.specs.Prelude.{◌≡◌, ◌∷◌, [], List, Option, IfOk, map, option_map, string_bytes};
ghost use Rattle.dl_core.specs.Settings.{setting_of};
ghost use Rattle.dl_model.specs.TraceFiles.{StoredFile};
ghost use Rattle.dl_outside.specs.Folder.{Files};
ghost use Rattle.dl_outside.specs.Told.{FolderTold, SinkTold};
ghost use Rattle.dl_script.specs.Playable.{IsPlayable};
ghost use Rattle.dl_startup.specs.Configuration.{SetsUp};
ghost use Rattle.dl_startup.specs.Setup.{IsBegun, conf_name};
ghost use Rattle.dl_startup.specs.Status as startup;
ghost use Rattle.dl_trace_files.specs.Files.{files_asked};
ghost use Rattle.dl_trace_why.specs.Account.{Runs, sides};
ghost use Rattle.dl_why_words.specs.Words.{said};
ghost use Rattle.dl_why.specs.Program.{AnswersFault, Begins, Ends, HasText, LooksAt, Prints, RunsAsked, RunsFile, RunsFind, RunsNot, RunsSteps, RunsText, Says, SaysSteps, Standing, Tells, TellsWhy, Writes, help, told};
ghost use Rattle.dl_fates.specs.Written.{IsRotating};

use crate::drawing::put_where_wanted;
use crate::explanation::explain;
use crate::script::{Script, read_script};
use crate::steps_status::StepsStatus;
use dl_bytes::{Bytes, Conf};
use dl_fates::{Rotation, newest_number};
use dl_find::find;
use dl_find_words::{Question, question_of};
use dl_memory::MemorySource;
use dl_outside::{Folder, FolderFault, Sink, Source, write_text};
use dl_pieces::ReadAt;
use dl_script::ScriptKind;
use dl_startup::{CONF_NAME, Setup, Status, set_up, trace_over};
use dl_trace::{Trace, TraceFault};
use dl_trace_why::{FilesWanted, Wanted, account};
use dl_why_words::{WhyFault, WhyWords, why_words};
use std::alloc::Global;

/// The program's name, with which each line on standard error begins.
const PROGRAM: &[u8] = b"dlt_why";

/// How many bytes of a file's text are read at once.
const PIECE: usize = 65_536;

/// The words that it takes, as the line says it that refuses others.
const USAGE: &[u8] =
    b"dlt_why steps [--picture FILE] [FILE], trace [--picture FILE] [FOLDER|FILE].., stream [--picture FILE] FILE or find APID CTID TIME|COUNTER [FOLDER|FILE]..";

/// What it says of its version.
const VERSION: &[u8] = b"dlt_why 1\n";

/// What it says where the picture of a script can't be written.
const PICTURE_FAULT: &[u8] = b"dlt_why: picture fault\n";

/// What it says of itself.
#[tactic(auto, unfolding(crate::specs::Program::help))]
fn help() -> &'static [u8]
    ensures { result.now ≡ help }
{
    b"Says why messages are missing.

Usage: dlt_why steps [--picture FILE] [FILE]
       dlt_why trace [--picture FILE] [FOLDER|FILE]..
       dlt_why stream [--picture FILE] FILE
       dlt_why find APID CTID TIME|COUNTER [FOLDER|FILE]..

Tasks:
  steps   what became of each log call of a step script; without a name of that of standard input
  trace   what is missing of traces; without a name of those in this folder
  stream  what is missing of a stream as a client recorded it
  find    where the message of an application and a context is that has a time (12.3456) or a counter (7), in a session (SEID:) where one is named

Options:
      --picture <FILE>  draws the calls or the sessions into this file, as SVG
  -h, --help            Print help
  -V, --version         Print version
"
}

/// What a run begins with.
#[derive(Drop)]
pub struct Start {
    /// The configurations.
    pub setup: Setup,
    /// The script.
    pub script: Script,
}

/// What a run begins with: first the configuration is read, then the stored one, then the script.
fn begin<F: Folder, I: Source>(
    alloc: Global,
    input: &mut I,
    folder: &mut F,
) -> Result<Start, Status>
    ensures begins { Begins (I.told input.old) (I.told input.new) (F.told folder.old) (F.told folder.new) result }
    ensures playable { IfOk result (λ start. IsPlayable start.script.steps) }
{
    let setup = match set_up(alloc, folder, CONF_NAME) {
        Ok(setup) => setup,
        Err(status) => return Err(status),
    };
    match read_script(alloc, input) {
        Ok(script) => Ok(Start { setup, script }),
        Err(status) => Err(status),
    }
}

/// How the trace goes on with the files that stand; there is none where no directory is named.
fn rotation_of(conf: &Conf, trace: &Option<Trace>) -> Option<Rotation>
    ensures { (told : Option Files) → IsBegun conf.now told trace.now → Standing conf.now result told }
{
    match trace {
        Some(trace) => Some(Rotation {
            file_size: conf.file_size,
            max_size: conf.max_size,
            newest: newest_number(trace.state().files.all()),
        }),
        None => None,
    }
}

/// Looks at the trace files that stand.
fn look_at_trace<F: Folder>(
    alloc: Global,
    folder: &mut F,
    conf: &Conf,
) -> Result<Option<Rotation>, Status>
    ensures { LooksAt conf.now (F.told folder.old) (F.told folder.new) result }
{
    match trace_over(alloc, folder, conf) {
        Ok(trace) => Ok(rotation_of(conf, &trace)),
        Err(TraceFault::Failed) => Err(Status::FolderFault),
        Err(TraceFault::OutOfMemory) => Err(Status::OutOfMemory),
    }
}

/// Writes a text to the output.
fn print<O: Sink>(out: &mut O, text: &[u8]) -> StepsStatus
    ensures { Prints text.now (O.told out.old) (O.told out.new) result }
{
    match write_text(out, text) {
        Ok(()) => StepsStatus::Plain(Status::Ok),
        Err(_) => StepsStatus::Plain(Status::WriteFault),
    }
}

/// Writes the explanation of a script's run, and draws it where a picture is wanted.
fn write_explanation<F: Folder, O: Sink>(
    alloc: Global,
    start: Start,
    rotation: Option<Rotation>,
    picture: Option<&str>,
    folder: &mut F,
    out: &mut O,
) -> StepsStatus
    requires { IsPlayable start.script.steps }
    ensures { (stood : List StoredFile) → IsRotating (setting_of start.setup.conf start.setup.stored 0) stood start.setup.conf.directory rotation
        → Writes start stood (option_map (λ name. name.now) picture.entry) (F.told folder.old) (F.told folder.new) (O.told out.old) (O.told out.new) result }
{
    let Start { setup, script } = start;
    let Ok(explained) = explain(alloc, setup, rotation, &script, picture.is_some()) else {
        return StepsStatus::Plain(Status::OutOfMemory);
    };
    match put_where_wanted(folder, picture, &explained.picture) {
        Ok(()) => print(out, &explained.text),
        Err(status) => status,
    }
}

/// Explains the script of the input.
fn explain_steps<F: Folder, I: Source, O: Sink>(
    alloc: Global,
    picture: Option<&str>,
    input: &mut I,
    folder: &mut F,
    out: &mut O,
) -> StepsStatus
    ensures { Ends (option_map (λ name. name.now) picture.entry) (told (I.told input.old) (F.told folder.old) (O.told out.old))
        (told (I.told input.new) (F.told folder.new) (O.told out.new)) result }
{
    let start = match begin(alloc, input, folder) {
        Ok(start) => start,
        Err(status) => return StepsStatus::Plain(status),
    };
    match look_at_trace(alloc, folder, &start.setup.conf) {
        Ok(rotation) => write_explanation(alloc, start, rotation, picture, folder, out),
        Err(status) => StepsStatus::Plain(status),
    }
}

/// Says how the explanation of a script ended, in one line.
fn say_steps<E: Sink>(status: StepsStatus, err: &mut E)
    ensures { SaysSteps status (E.told err.old) (E.told err.new) }
{
    match status {
        StepsStatus::Plain(status) => status.say(PROGRAM, USAGE, err),
        StepsStatus::PictureFault => {
            let _ = write_text(err, PICTURE_FAULT);
        }
    }
}

/// Explains the script of a source, and says how that ended.
fn run_steps<F: Folder, I: Source, O: Sink, E: Sink>(
    alloc: Global,
    picture: Option<&str>,
    input: &mut I,
    folder: &mut F,
    out: &mut O,
    err: &mut E,
) -> u8
    ensures { RunsSteps (option_map (λ name. name.now) picture.entry) (told (I.told input.old) (F.told folder.old) (O.told out.old))
        (told (I.told input.new) (F.told folder.new) (O.told out.new)) (E.told err.old) (E.told err.new) result }
{
    let status = explain_steps(alloc, picture, input, folder, out);
    say_steps(status, err);
    status.number()
}

/// The text of the file of this name; or why there is none.
fn text_in<F: Folder>(folder: &mut F, name: &str) -> Result<Bytes, Status>
    ensures { HasText name.now (F.told folder.old) (F.told folder.new) result }
{
    match folder.read(name) {
        Ok(Some(text)) => Ok(text),
        Ok(None) => Err(Status::ScriptRefused {
            line: 0,
            kind: ScriptKind::Missing,
        }),
        Err(FolderFault::Failed) => Err(Status::FolderFault),
        Err(FolderFault::OutOfMemory) => Err(Status::OutOfMemory),
    }
}

/// Explains the script that has this text, and says how that ended.
fn run_text<F: Folder, O: Sink, E: Sink>(
    alloc: Global,
    text: Bytes,
    picture: Option<&str>,
    folder: &mut F,
    out: &mut O,
    err: &mut E,
) -> u8
    ensures { RunsText text (option_map (λ name. name.now) picture.entry) (sides (F.told folder.old) (O.told out.old)) (sides (F.told folder.new) (O.told out.new))
        (E.told err.old) (E.told err.new) result }
{
    let mut input = MemorySource::make(text.into_vec(), PIECE);
    run_steps(alloc, picture, &mut input, folder, out, err)
}

/// Says why there is no script.
fn refuse<E: Sink>(status: Status, err: &mut E) -> u8
    ensures number { result ≡ startup.number status }
    ensures said { Says status (E.told err.old) (E.told err.new) }
{
    status.say(PROGRAM, USAGE, err);
    status.number()
}

/// Explains the script of the file of this name, and says how that ended.
fn run_file<F: Folder, O: Sink, E: Sink>(
    alloc: Global,
    name: &str,
    picture: Option<&str>,
    folder: &mut F,
    out: &mut O,
    err: &mut E,
) -> u8
    ensures { RunsFile name.now (option_map (λ name. name.now) picture.entry) (sides (F.told folder.old) (O.told out.old)) (sides (F.told folder.new) (O.told out.new))
        (E.told err.old) (E.told err.new) result }
{
    match text_in(folder, name) {
        Ok(text) => run_text(alloc, text, picture, folder, out, err),
        Err(status) => refuse(status, err),
    }
}

/// Writes the account of traces, and says how that ended.
fn run_traces<F: ReadAt, O: Sink, E: Sink>(
    alloc: Global,
    names: &[&str],
    picture: Option<&str>,
    folder: &mut F,
    out: &mut O,
    err: &mut E,
) -> u8
    ensures { Runs (λ files. files_asked files (map (λ name. name.now) names.now)) (option_map (λ name. name.now) picture.entry)
        (sides (F.told folder.old) (O.told out.old)) (sides (F.told folder.new) (O.told out.new)) (E.told err.old) (E.told err.new) result }
{
    let files = FilesWanted::Traces(names);
    account(alloc, Wanted { files, picture }, folder, out, err)
}

/// Writes the account of a stream, and says how that ended.
fn run_stream<F: ReadAt, O: Sink, E: Sink>(
    alloc: Global,
    name: &str,
    picture: Option<&str>,
    folder: &mut F,
    out: &mut O,
    err: &mut E,
) -> u8
    ensures { Runs (λ files. name.now ∷ []) (option_map (λ name. name.now) picture.entry)
        (sides (F.told folder.old) (O.told out.old)) (sides (F.told folder.new) (O.told out.new)) (E.told err.old) (E.told err.new) result }
{
    let files = FilesWanted::Stream(name);
    account(alloc, Wanted { files, picture }, folder, out, err)
}

/// Says where the message is that these words ask for, and how that ended.
fn run_find<F: ReadAt, O: Sink, E: Sink>(
    alloc: Global,
    asked: Option<Question>,
    names: &[&str],
    folder: &mut F,
    out: &mut O,
    err: &mut E,
) -> u8
    ensures { RunsFind asked (map (λ name. name.now) names.now) (sides (F.told folder.old) (O.told out.old)) (sides (F.told folder.new) (O.told out.new))
        (E.told err.old) (E.told err.new) result }
{
    match asked {
        Some(question) => find(
            alloc,
            FilesWanted::Traces(names),
            question,
            folder,
            out,
            err,
        ),
        None => answer_fault(WhyFault::Refused, out, err),
    }
}

/// Writes what the program says of itself.
fn write_own<O: Sink>(out: &mut O, text: &[u8]) -> Status
    ensures { Tells text.now (O.told out.old) (O.told out.new) result }
{
    match write_text(out, text) {
        Ok(()) => Status::Ok,
        Err(_) => Status::WriteFault,
    }
}

/// How words end that ask for no account.
fn fault_status<O: Sink>(fault: WhyFault, out: &mut O) -> Status
    ensures { AnswersFault fault (O.told out.old) (O.told out.new) result }
{
    match fault {
        WhyFault::Help => write_own(out, help()),
        WhyFault::Version => write_own(out, VERSION),
        WhyFault::Refused => Status::WordsRefused,
        WhyFault::OutOfMemory => Status::OutOfMemory,
    }
}

/// Answers words that ask for no account, and says how that ended.
fn answer_fault<O: Sink, E: Sink>(fault: WhyFault, out: &mut O, err: &mut E) -> u8
    ensures { RunsNot fault (O.told out.old) (O.told out.new) (E.told err.old) (E.told err.new) result }
{
    let status = fault_status(fault, out);
    status.say(PROGRAM, USAGE, err);
    status.number()
}

/// Does what the words ask for, and says how that ended.
fn run_asked<F: ReadAt, I: Source, O: Sink, E: Sink>(
    alloc: Global,
    asked: WhyWords<'_>,
    input: &mut I,
    folder: &mut F,
    out: &mut O,
    err: &mut E,
) -> u8
    ensures { RunsAsked (said asked.entry) (told (I.told input.old) (F.told folder.old) (O.told out.old))
        (told (I.told input.new) (F.told folder.new) (O.told out.new)) (E.told err.old) (E.told err.new) result }
{
    match asked {
        WhyWords::Steps {
            script: None,
            picture,
        } => run_steps(alloc, picture, input, folder, out, err),
        WhyWords::Steps {
            script: Some(name),
            picture,
        } => run_file(alloc, name, picture, folder, out, err),
        WhyWords::Trace { names, picture } => {
            run_traces(alloc, &names, picture, folder, out, err)
        }
        WhyWords::Stream { name, picture } => { run_stream(alloc, name, picture, folder, out, err) }
        WhyWords::Find {
            apid,
            ctid,
            when,
            names,
        } => {
            let asked = question_of(apid, ctid, when);
            run_find(alloc, asked, &names, folder, out, err)
        }
    }
}

/// Tells why messages aren't there: with the word `steps` what became of each log call of the script of a file or of the input, with `trace` and
/// `stream` what is missing of what was recorded, with `find` where a message is, with `--help` what the program is for. The words are those of the command line, the program's name
/// first. No file of the folder is changed but that of a picture. The answer is the exit status. Each but the good one is said on `err` in
/// one line, and a fault of `err` changes nothing.
pub fn tell_why<F: ReadAt, I: Source, O: Sink, E: Sink>(
    alloc: Global,
    words: &[String],
    input: &mut I,
    folder: &mut F,
    out: &mut O,
    err: &mut E,
) -> u8
    ensures { TellsWhy words.now (I.told input.old) (I.told input.new) (F.told folder.old) (F.told folder.new)
        (O.told out.old) (O.told out.new) (E.told err.old) (E.told err.new) result }
{
    match why_words(alloc, words) {
        Ok(asked) => run_asked(alloc, asked, input, folder, out, err),
        Err(fault) => answer_fault(fault, out, err),
    }
}
