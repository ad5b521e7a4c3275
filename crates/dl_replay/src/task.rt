//! The words of the command line, and the task that they name.

ghost use Rattle.std.specs.Prelude.{◌≡◌, ◌≤◌, map, string_bytes, IfSome};
ghost use Rattle.dl_replay.specs.Task.{IsWithin, generate_by, generate_of, plain_number, steps_by, task_of};

use dl_bytes::CALL_LIMIT;
use dl_text::number;

/// What the words ask for.
#[derive(Clone, Copy, PartialEq, Eq)]
pub enum Task {
    /// `steps`: the script of the input.
    Steps,
    /// `generate`: the script that a number makes.
    Generate {
        /// The number.
        number: u64,
        /// How many log calls it has, at most 1,000,000.
        calls: u32,
    },
}

/// The number of a word: decimal digits, with no zero before others, below 2^64.
fn plain_number(word: &[u8]) -> Option<u64>
    ensures { result ≡ plain_number word.now }
{
    if word.len() > 1 && word[0] == b'0' {
        None
    } else {
        number(word)
    }
}

/// The task to generate a script, by its number and its calls.
fn generate_of(number: &[u8], calls: &[u8]) -> Option<Task>
    ensures named { result ≡ generate_of number.now calls.now }
    ensures within { IfSome result IsWithin }
{
    let number = plain_number(number)?;
    let calls = plain_number(calls)?;
    if calls > u64::from(CALL_LIMIT) {
        return None;
    }
    Some(Task::Generate {
        number,
        calls: calls as u32,
    })
}

/// The task of one word behind the program's name.
fn steps_by(word: &str) -> Option<Task>
    ensures { result ≡ steps_by word.now }
{
    if word == "steps" {
        Some(Task::Steps)
    } else {
        None
    }
}

/// The task of three words behind it.
fn generate_by(word: &str, number: &str, calls: &str) -> Option<Task>
    ensures named { result ≡ generate_by word.now number.now calls.now }
    ensures within { IfSome result IsWithin }
{
    if word == "generate" {
        generate_of(number.as_bytes(), calls.as_bytes())
    } else {
        None
    }
}

/// The task that the words name, the program's name first.
pub fn task_of(words: &[String]) -> Option<Task>
    ensures named { result ≡ task_of (map string_bytes words.now) }
    ensures within { IfSome result IsWithin }
{
    match words {
        [_, word] => steps_by(word.as_str()),
        [_, word, number, calls] => generate_by(word.as_str(), number.as_str(), calls.as_str()),
        _ => None,
    }
}
