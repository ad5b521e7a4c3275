//! What one call on a stream that doesn't wait came to, as a link answers it.

ghost use Rattle.std.specs.Prelude.{◌≡◌, ◌<◌, [], IfSome, length};
ghost use Rattle.dl_outside.specs.Link.{Receives, Sent};

use crate::answers::is_pause;
use dl_outside::{Gave, Sends};
use dl_real::{read_once, write_once};
use std::io::{Read, Write};

/// Reads what has come into the front of `into`.
pub fn receive<S: Read>(stream: &mut S, into: &mut [u8]) -> Gave
    requires { 0 < length into.old }
    ensures bytes { Receives (S.remaining stream.old) (S.remaining stream.new) result into.new }
    ensures end { result ≡ Gave.End → IfSome (S.remaining stream.old) (λ bytes. bytes ≡ []) }
{
    match read_once(stream, into) {
        Ok(0) => Gave::End,
        Ok(n) => Gave::Bytes(n),
        Err(error) if is_pause(&error) => Gave::NotYet,
        Err(_) => Gave::Failed,
    }
}

/// Writes the front of the piece, as much of it as there is room for. A stream that takes nothing has failed.
pub fn pass_on<W: Write>(stream: &mut W, piece: &[u8]) -> Sends
    requires { 0 < length piece.now }
    ensures { Sent (W.contents stream.old) (W.contents stream.new) result piece.now }
{
    match write_once(stream, piece) {
        Ok(0) => Sends::Failed,
        Ok(n) => Sends::Bytes(n),
        Err(error) if is_pause(&error) => Sends::Busy,
        Err(_) => Sends::Failed,
    }
}
