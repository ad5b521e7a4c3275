//! A whole text to its sink.

ghost use Rattle.std.specs.Prelude.{OnOk, OnErr};
ghost use Rattle.dl_outside.specs.Written.{WroteAll, WroteFront};

use crate::sink::{Sink, Took};

/// The sink failed.
#[derive(Clone, Copy, Debug)]
pub struct WriteError;

/// Writes a whole text, piece by piece as the sink takes it.
pub fn write_text<O: Sink>(out: &mut O, text: &[u8]) -> Result<(), WriteError>
    ensures ok { OnOk result (WroteAll (O.told out.old) (O.told out.new) text.now) }
    ensures front { OnErr result (WroteFront (O.told out.old) (O.told out.new) text.now) }
{
    let mut done = 0;
    while done < text.len() {
        match out.write(&text[done..]) {
            Took::Bytes(n) => done += n,
            Took::Failed => return Err(WriteError),
        }
    }
    Ok(())
}
