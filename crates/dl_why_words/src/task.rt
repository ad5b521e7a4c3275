//! What the first word asks for.

ghost use Rattle.std.specs.Prelude.{◌≡◌, map, string_bytes};
ghost use Rattle.dl_why_words.specs.Task.{task_named, task_of};

/// What the first word behind the program's name asks for.
#[derive(Clone, Copy, PartialEq, Eq)]
pub enum Task {
    /// `steps`: what became of each log call of a script.
    Steps,
    /// `trace`: what is missing of traces.
    Trace,
    /// `stream`: what is missing of a stream as a client recorded it.
    Stream,
    /// `find`: where a message is.
    Find,
    /// `--help` or `-h`.
    Help,
    /// `--version` or `-V`.
    Version,
    /// Nothing that is known.
    Unknown,
}

/// What a word asks for.
fn task_named(word: &str) -> Task
    ensures { result ≡ task_named word.now }
{
    match word {
        "steps" => Task::Steps,
        "trace" => Task::Trace,
        "stream" => Task::Stream,
        "find" => Task::Find,
        "--help" => Task::Help,
        "-h" => Task::Help,
        "--version" => Task::Version,
        "-V" => Task::Version,
        _ => Task::Unknown,
    }
}

/// What the first word behind the program's name asks for.
pub fn task_of(words: &[String]) -> Task
    ensures { result ≡ task_of (map string_bytes words.now) }
{
    match words {
        [_, word, ..] => task_named(word.as_str()),
        _ => Task::Unknown,
    }
}
