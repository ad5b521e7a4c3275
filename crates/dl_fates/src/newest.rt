//! The number of the newest trace file.

ghost use Rattle.std.specs.Prelude.{◌≡◌, ◌≤◌, ℕ, List, map, max};
ghost use Rattle.std.specs.List.{AllByRecursion};
ghost use Rattle.dl_model.specs.TraceFiles.{StoredFile, greatest, number_limit, trace_name};
ghost use Rattle.dl_trace.specs.State.{listed};
ghost use Rattle.dl_fates.specs.Numbers.{digit_value};

use dl_bytes::TraceFile;

/// How many bytes of a name the number and what stands behind it have.
const NUMBER_PART: usize = 10;

/// The value of a decimal digit; of another letter none.
fn digit_value(letter: u8) -> u32
    ensures value { result ≡ digit_value letter }
    ensures digit { result ≤ 9 }
{
    match letter {
        b'0'..=b'9' => (letter - b'0') as u32,
        _ => 0,
    }
}

/// The number in the name of a trace file.
fn number_in(name: &[u8]) -> u32
    ensures { (directory : List ℕ) (number : ℕ) → number ≤ number_limit → name.now ≡ trace_name directory number → result ≡ number }
{
    let Some(start) = name.len().checked_sub(NUMBER_PART) else {
        return 0;
    };
    let [a, b, c, d, e, f, ..] = &name[start..] else {
        return 0;
    };
    let high = digit_value(*a) * 100 + digit_value(*b) * 10 + digit_value(*c);
    let low = digit_value(*d) * 100 + digit_value(*e) * 10 + digit_value(*f);
    high * 1000 + low
}

/// The greater of two numbers.
fn greater(a: u32, b: u32) -> u32
    ensures { result ≡ max a b }
{
    if a < b { b } else { a }
}

/// The greatest number of these trace files; 0 where there is none.
pub fn newest_number(files: &[TraceFile]) -> u32
    ensures { (directory : List ℕ) (stood : List StoredFile) → files.now ≡ map (listed directory) stood
        → AllByRecursion (λ (file : StoredFile). file.number ≤ number_limit) stood → result ≡ greatest stood }
{
    let mut newest = 0;
    for file in files {
        newest = greater(newest, number_in(file.name.all()));
    }
    newest
}
