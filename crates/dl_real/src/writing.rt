//! Standard output and standard error, or any writer of std, as a sink.

ghost use Rattle.std.specs.Prelude.{◌≡◌};

use crate::once::write_once;
use dl_outside::{Sink, Took};
use std::io::Write;

/// A sink over a writer. It tells what it holds where the writer does: standard output, a file and a socket don't. A
/// writer that takes nothing of a piece has failed.
#[derive(Drop)]
pub struct Writing<W> {
    inner: W,
    faults: u64,
}

impl<W> Writing<W> {
    /// The sink over this writer, which has not failed yet.
    pub fn over(inner: W) -> Writing<W>
        ensures inner { result.inner ≡ inner }
        ensures faults { result.faults ≡ 0 }
    {
        Writing { inner, faults: 0 }
    }
}

impl<W: Write> Sink for Writing<W> {
    ghost told = { λ s. record { held = W.contents s.inner; faults = s.faults } };

    fn write(&mut self, piece: &[u8]) -> Took {
        match write_once(&mut self.inner, piece) {
            Ok(n) if n > 0 => Took::Bytes(n),
            _ => {
                self.faults = self.faults.saturating_add(1);
                Took::Failed
            }
        }
    }

    fn faults(&self) -> u64 {
        self.faults
    }
}
