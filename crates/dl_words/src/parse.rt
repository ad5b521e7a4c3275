//! Words by a command.

ghost use Rattle.std.specs.Prelude.{◌≡◌, ◌≤◌, IfOk, IfSome, map, string_bytes, true};
ghost use Rattle.clap.specs.Words.{IsParsedFrom, app_of, first_value, found_of, is_simple_and_free, rows_of};
ghost use Rattle.dl_words.specs.Parse.{IsGivenUpTo, Parses, given_number, number_in, plain_fault, text_in};

use clap::error::ErrorKind;
use clap::{ArgMatches, Command};

/// Why words ask for nothing.
#[derive(Clone, Copy, Debug, PartialEq, Eq)]
pub enum WordsFault {
    /// They aren't of the form.
    Refused,
    /// Memory ran out.
    OutOfMemory,
}

/// Why a command finds nothing in words.
#[derive(Clone, Copy, Debug, PartialEq, Eq)]
pub enum ParseFault {
    /// They ask for help.
    Help,
    /// They ask for the version.
    Version,
    /// They aren't of the form.
    Refused,
    /// Memory ran out.
    OutOfMemory,
}

impl ParseFault {
    /// The same of a program without words for help.
    pub fn plain(self) -> WordsFault
        ensures { result ≡ plain_fault self }
    {
        match self {
            ParseFault::Help | ParseFault::Version | ParseFault::Refused => WordsFault::Refused,
            ParseFault::OutOfMemory => WordsFault::OutOfMemory,
        }
    }
}

/// What a command finds in words, the program's name first.
pub fn parse<'a>(command: Command<'a>, words: &'a [String]) -> Result<ArgMatches<'a>, ParseFault>
    requires simple { is_simple_and_free (app_of command) ≡ true }
    ensures parses { Parses (app_of command.entry) (map string_bytes words.entry.now) result }
    ensures from { IfOk result (IsParsedFrom command.entry) }
{
    match command.try_get_matches_from(words) {
        Ok(matches) => Ok(matches),
        Err(error) => match error.kind() {
            ErrorKind::OutOfMemory => Err(ParseFault::OutOfMemory),
            ErrorKind::DisplayHelp => Err(ParseFault::Help),
            ErrorKind::DisplayVersion => Err(ParseFault::Version),
            _ => Err(ParseFault::Refused),
        },
    }
}

/// The value of an option, or another text where it isn't given.
pub fn text<'a>(matches: &ArgMatches<'a>, id: &str, absent: &'a str) -> &'a str
    ensures { result.now ≡ text_in id.now absent.entry.now (rows_of (found_of matches.now)) }
{
    matches.get_str(id).unwrap_or(absent)
}

/// The number of an option, where it is given.
pub fn given_number(matches: &ArgMatches, id: &str, most: u64) -> Option<u64>
    requires given { IsGivenUpTo most (first_value (found_of matches.now) id.now) }
    ensures number { result ≡ given_number id.now (rows_of (found_of matches.now)) }
    ensures range { IfSome result (λ number. (1 ≤ number) × (number ≤ most)) }
{
    match matches.get_str(id) {
        None => None,
        Some(text) => match text.parse::<u64>() {
            Ok(number) => Some(number),
            Err(_) => unreachable!(),
        },
    }
}

/// The number of an option, or another one where it isn't given.
pub fn number(matches: &ArgMatches, id: &str, absent: u64, most: u64) -> u64
    requires given { IsGivenUpTo most (first_value (found_of matches.now) id.now) }
    requires absent { (1 ≤ absent) × (absent ≤ most) }
    ensures number { result ≡ number_in id.now absent (rows_of (found_of matches.now)) }
    ensures range { (1 ≤ result) × (result ≤ most) }
{
    given_number(matches, id, most).unwrap_or(absent)
}
