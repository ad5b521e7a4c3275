//! Listening to a source until it ends.

ghost use Rattle.std.specs.Prelude.{ℕ, List};
ghost use Rattle.dl_receive.specs.Listening.{Listened, sides};
ghost use Rattle.dl_receive.specs.Receiving.{Hears, IsAt, IsReady};

use crate::counting::Counting;
use crate::receiver::Receiver;
use crate::status::Status;
use dl_bytes::INPUT_PIECE;
use dl_outside::{Got, Sink, Source, write_text};
use std::alloc::Global;

/// The most bytes that are read of a source, but for the last piece: 2^40.
const LIMIT: u64 = 1_099_511_627_776;

/// Prints the messages that a piece of the stream makes whole, and writes their lines. Answers how the stream ends, if
/// it goes no further.
fn hear<O: Sink>(receiver: &mut Receiver, piece: &[u8], out: &mut O) -> Option<Status>
    requires { IsReady receiver.old }
    ensures { (counting : Counting) (stream : List ℕ) → IsAt counting stream receiver.old → Hears counting stream piece.now (O.told out.old) (O.told out.new) receiver.new result }
{
    let Ok(more) = receiver.take(piece) else {
        return Some(Status::OutOfMemory);
    };
    let Ok(()) = write_text(out, receiver.text()) else {
        return Some(Status::WriteFault);
    };
    receiver.clear();
    if more { None } else { Some(Status::BadMessage) }
}

/// Reads a source to its end, and writes the lines of each message once it has come. The memory that it takes doesn't
/// grow with the stream, but for each message counter.
pub fn listen<S: Source, O: Sink>(
    alloc: Global,
    counting: Counting,
    source: &mut S,
    out: &mut O,
) -> Status
    ensures { Listened counting (sides (S.told source.old) (O.told out.old)) (sides (S.told source.new) (O.told out.new)) result }
{
    let Ok(mut receiver) = Receiver::make(alloc, counting) else {
        return Status::OutOfMemory;
    };
    let mut buffer = [0; INPUT_PIECE];
    let mut total = 0;
    while total < LIMIT {
        let count = match source.read(&mut buffer) {
            Got::Bytes(count) => count,
            Got::End if receiver.is_whole() => return Status::Ok,
            Got::End => return Status::Truncated,
            Got::Failed => return Status::ReadFault,
        };
        total += count as u64;
        if let Some(status) = hear(&mut receiver, &buffer[..count], out) {
            return status;
        }
    }
    Status::Limit
}
