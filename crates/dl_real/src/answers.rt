//! What an error of the system says.

ghost use Rattle.std.specs.Prelude.{◌≡◌, ◌≢◌, ◌↔◌, Err, IfErr, IfOk, IsTrue, None, Ok, Some};
ghost use Rattle.std.specs.IoError.{error_kind};

use std::io;
use std::io::{Error, ErrorKind};

/// An answer about a name. *Not found* alone says that nothing has it; every other error is a refusal.
pub fn found<T: Drop>(answer: io::Result<T>) -> io::Result<Option<T>>
    ensures there { IfOk answer (λ value. result ≡ Ok (Some value)) }
    ensures missing { IfErr answer (λ error. error_kind error ≡ ErrorKind.NotFound → result ≡ Ok None) }
    ensures refused { IfErr answer (λ error. error_kind error ≢ ErrorKind.NotFound → result ≡ Err error) }
{
    match answer {
        Ok(value) => Ok(Some(value)),
        Err(error) => {
            if error.kind() == ErrorKind::NotFound {
                Ok(None)
            } else {
                Err(error)
            }
        }
    }
}

/// Whether memory ran out.
pub fn is_memory(error: &Error) -> bool
    ensures { IsTrue result ↔ (error_kind error.now ≡ ErrorKind.OutOfMemory) }
{
    error.kind() == ErrorKind::OutOfMemory
}
