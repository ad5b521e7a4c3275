//! The words of the command line.

ghost use Rattle.std.specs.Prelude.{◌≡◌, map, string_bytes};
ghost use Rattle.dl_receive.specs.Words.{asked_port, port_of};

use dl_text::number;

/// The port that a word names.
fn port_of(word: &[u8]) -> Option<u16>
    ensures { result ≡ port_of word.now }
{
    if word.starts_with(b"0") {
        return None;
    }
    u16::try_from(number(word)?).ok()
}

/// The port that the words ask for, the program's name first.
pub fn asked_port(words: &[String]) -> Option<u16>
    ensures { result ≡ asked_port (map string_bytes words.now) }
{
    match words {
        [_, word] => port_of(word.as_bytes()),
        _ => None,
    }
}
