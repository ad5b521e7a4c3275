//! Standard input, or any reader of std, as a source.

ghost use Rattle.std.specs.Prelude.{◌≡◌};

use crate::once::read_once;
use dl_outside::{Got, Source};
use std::io::Read;

/// A source over a reader. It tells what is left where the reader does: standard input, a file and a socket don't.
#[derive(Drop)]
pub struct Reading<R> {
    inner: R,
    faults: u64,
}

impl<R> Reading<R> {
    /// The source over this reader, which has not failed yet.
    pub fn over(inner: R) -> Reading<R>
        ensures inner { result.inner ≡ inner }
        ensures faults { result.faults ≡ 0 }
    {
        Reading { inner, faults: 0 }
    }
}

impl<R: Read> Source for Reading<R> {
    ghost told = { λ s. record { left = R.remaining s.inner; faults = s.faults } };

    fn read(&mut self, into: &mut [u8]) -> Got {
        match read_once(&mut self.inner, into) {
            Ok(0) => Got::End,
            Ok(n) => Got::Bytes(n),
            Err(_) => {
                self.faults = self.faults.saturating_add(1);
                Got::Failed
            }
        }
    }

    fn faults(&self) -> u64 {
        self.faults
    }
}
