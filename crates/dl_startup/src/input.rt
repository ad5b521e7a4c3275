//! A text from its source.

ghost use Rattle.std.specs.Prelude.{◌≡◌, OnOk, IfOk, IfErr};
ghost use Rattle.dl_startup.specs.Input.{FailsToRead, GaveAtMost, IsWhole};

use dl_bytes::INPUT_PIECE;
use dl_outside::{Got, Source};
use dl_text::SIZE_LIMIT;
use std::alloc::Global;

/// Why a text could not be read.
#[derive(Clone, Copy, Debug)]
pub enum ReadError {
    /// It has more than 16,777,216 bytes.
    Long,
    /// The source failed.
    Fault,
    /// Memory ran out.
    OutOfMemory,
}

/// Reads a source to its end. A text of more than 16,777,216 bytes isn't read further than its first byte too many.
pub fn read_text<I: Source>(alloc: Global, input: &mut I) -> Result<Vec<u8>, ReadError>
    ensures whole { IfOk result (λ text. IsWhole (I.told input.old).left (I.told input.new).left text.items) }
    ensures failed { IfErr result (FailsToRead (I.told input.old).left (I.told input.old).faults (I.told input.new).faults) }
    ensures well { OnOk result ((I.told input.new).faults ≡ (I.told input.old).faults) }
    ensures at_most { GaveAtMost (I.told input.old).left (I.told input.new).left }
{
    let mut text = Vec::new(alloc);
    let mut buffer = [0; INPUT_PIECE];
    loop {
        let want = (SIZE_LIMIT + 1 - text.len()).min(INPUT_PIECE);
        let n = match input.read(&mut buffer[..want]) {
            Got::Bytes(n) => n,
            Got::End => return Ok(text),
            Got::Failed => return Err(ReadError::Fault),
        };
        if text.len() + n > SIZE_LIMIT {
            return Err(ReadError::Long);
        }
        if text.extend_from_slice(&buffer[..n]).is_err() {
            return Err(ReadError::OutOfMemory);
        }
    }
}
