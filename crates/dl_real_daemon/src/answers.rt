//! What an error of a socket says.

ghost use Rattle.std.specs.Prelude.{◌≡◌, ◌≢◌, ◌↔◌, IfErr, IfOk, IsTrue, None, Ok, Some};
ghost use Rattle.std.specs.IoError.{error_kind};

use std::io;
use std::io::{Error, ErrorKind};

/// Whether a socket has nothing to give, or room for nothing, for now.
pub fn is_pause(error: &Error) -> bool
    ensures { IsTrue result ↔ (error_kind error.now ≡ ErrorKind.WouldBlock) }
{
    error.kind() == ErrorKind::WouldBlock
}

/// What an accept that doesn't wait gave: nobody where no client waits, or where the one that waited has gone. Every other
/// error is a refusal.
pub fn came<T: Drop>(answer: io::Result<T>) -> io::Result<Option<T>>
    ensures client { IfOk answer (λ value. result ≡ Ok (Some value)) }
    ensures none { IfErr answer (λ error. error_kind error ≡ ErrorKind.WouldBlock → result ≡ Ok None) }
    ensures interrupted { IfErr answer (λ error. error_kind error ≡ ErrorKind.Interrupted → result ≡ Ok None) }
    ensures gone { IfErr answer (λ error. error_kind error ≡ ErrorKind.ConnectionAborted → result ≡ Ok None) }
    ensures refused { IfErr answer (λ error. error_kind error ≢ ErrorKind.WouldBlock → error_kind error ≢ ErrorKind.Interrupted
        → error_kind error ≢ ErrorKind.ConnectionAborted → result ≡ Err error) }
{
    match answer {
        Ok(value) => Ok(Some(value)),
        Err(error) => {
            let kind = error.kind();
            if kind == ErrorKind::WouldBlock
                || kind == ErrorKind::Interrupted
                || kind == ErrorKind::ConnectionAborted
            {
                Ok(None)
            } else {
                Err(error)
            }
        }
    }
}
