//! Whole files: all that a reader has left, and all bytes to a writer.

ghost use Rattle.std.specs.Prelude.{◌≡◌, IfOk, IfSome, OnOk};
ghost use Rattle.std.specs.Io.KnownBytes.{Appends};

use std::alloc::Global;
use std::io;
use std::io::{Read, Write};

/// All that a reader has left.
pub fn read_whole<S: Read>(alloc: Global, reader: &mut S) -> io::Result<Vec<u8>>
    ensures { IfOk result (λ bytes. IfSome (S.remaining reader.old) (λ left. bytes.items ≡ left)) }
{
    let mut bytes = Vec::new(alloc);
    reader.read_to_end(&mut bytes)?;
    Ok(bytes)
}

/// Writes all bytes.
pub fn write_whole<W: Write>(writer: &mut W, bytes: &[u8]) -> io::Result<()>
    ensures { OnOk result (Appends (W.contents writer.old) (W.contents writer.new) bytes.now) }
{
    writer.write_all(bytes)
}
