//! Texts to their sink.

ghost use Rattle.std.specs.Prelude.{OnOk, OnErr};
ghost use Rattle.dl_outside.specs.Written.{WroteAll, WroteFront};
ghost use Rattle.dl_startup.specs.Output.{joined};

use dl_outside::{Sink, WriteError, write_text};

/// Writes texts one behind the other.
pub fn write_pieces<O: Sink>(out: &mut O, pieces: &[&[u8]]) -> Result<(), WriteError>
    ensures ok { OnOk result (WroteAll (O.told out.old) (O.told out.new) (joined pieces.now)) }
    ensures front { OnErr result (WroteFront (O.told out.old) (O.told out.new) (joined pieces.now)) }
{
    for piece in pieces {
        match write_text(out, piece) {
            Ok(()) => {}
            Err(WriteError) => return Err(WriteError),
        }
    }
    Ok(())
}
