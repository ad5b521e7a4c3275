//! Where the frames of log calls are stored, in words.

ghost use Rattle.std.specs.Prelude.{◌≡◌, ◌<◌, ◌++◌, ◌/◌, ◌%◌, ◌+◌, codes, OnOk};
ghost use Rattle.dl_model.specs.TraceFiles.{six_digits};
ghost use Rattle.dl_fates.specs.Rows.{ended_words, file_words, removed_words, stored_words};
ghost use Rattle.dl_fates.specs.Written.{storage_by};

use crate::{StoredCalls, StoredPlace};
use dl_bytes::OutOfMemory;
use dl_events::Record;

/// A digit of a number: how many times it has the power, of ten.
fn digit(number: u64, power: u64) -> u8
    requires { 0 < power }
    ensures { result ≡ 48 + number / power % 10 }
{
    b'0' + (number / power % 10) as u8
}

/// A number in six decimal digits.
fn six_digits(number: u64) -> [u8; 6]
    ensures { result ≡ six_digits number }
{
    [
        digit(number, 100_000),
        digit(number, 10_000),
        digit(number, 1_000),
        digit(number, 100),
        digit(number, 10),
        digit(number, 1),
    ]
}

/// Adds what stands before the number in the names of trace files of a directory.
fn push_front(text: &mut Vec<u8>, directory: &[u8]) -> Result<(), OutOfMemory>
    ensures { OnOk result (text.new.items ≡ text.old.items ++ (directory.now ++ codes "/dlt_offlinetrace.")) }
{
    text.extend_from_slice(directory)?;
    text.extend_from_slice(b"/dlt_offlinetrace.")
}

/// Adds a number in six decimal digits, and what stands behind it.
fn push_number(text: &mut Vec<u8>, number: u64) -> Result<(), OutOfMemory>
    ensures { OnOk result (text.new.items ≡ text.old.items ++ (six_digits number ++ codes ".dlt")) }
{
    let digits = six_digits(number);
    text.extend_from_slice(&digits)?;
    text.extend_from_slice(b".dlt")
}

/// Adds the name of the trace file of this number.
#[tactic(auto, unfolding(crate::specs::Rows::file_words))]
fn push_name(text: &mut Vec<u8>, directory: &[u8], number: u64) -> Result<(), OutOfMemory>
    ensures { OnOk result (text.new.items ≡ text.old.items ++ file_words directory.now number) }
{
    push_front(text, directory)?;
    push_number(text, number)
}

/// What is said of a file that is there no more.
#[tactic(auto, unfolding(crate::specs::Rows::removed_words))]
fn removed_words() -> &'static [u8]
    ensures { result.now ≡ removed_words }
{
    b", which rotation removed"
}

/// What is said of a frame that went into no file.
#[tactic(auto, unfolding(crate::specs::Rows::ended_words))]
fn ended_words() -> &'static [u8]
    ensures { result.now ≡ ended_words }
{
    b"; not stored: the trace had ended"
}

/// Adds where a stored frame is in the end.
fn push_place(text: &mut Vec<u8>, directory: &[u8], place: StoredPlace) -> Result<(), OutOfMemory>
    ensures { OnOk result (text.new.items ≡ text.old.items ++ stored_words directory.now place) }
{
    match place {
        StoredPlace::InFile { number } => {
            text.extend_from_slice(b"; stored in ")?;
            push_name(text, directory, number)
        }
        StoredPlace::Removed { number } => {
            text.extend_from_slice(b"; stored in ")?;
            push_name(text, directory, number)?;
            text.extend_from_slice(removed_words())
        }
        StoredPlace::TraceEnded => text.extend_from_slice(ended_words()),
    }
}

/// Adds where the frame of a call is stored, where a trace is kept and the daemon took the call.
pub fn push_storage(
    text: &mut Vec<u8>,
    directory: &[u8],
    stored: &Option<StoredCalls>,
    call: &Record,
) -> Result<(), OutOfMemory>
    ensures { OnOk result (text.new.items ≡ text.old.items ++ storage_by directory.now stored.now call.now) }
{
    let Some(calls) = stored else {
        return Ok(());
    };
    match calls.place(call) {
        Some(place) => push_place(text, directory, place),
        None => Ok(()),
    }
}
