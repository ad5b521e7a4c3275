//! Whether standard input has ended, asked without waiting.

use crate::known::Known;
use crate::readiness::Readiness;
use dl_real::{has_answer, read_once};
use std::rt::Stdin;

/// The number of the descriptor of standard input.
const STANDARD_INPUT: i32 = 0;

/// Standard input, of which its end alone counts. What comes before it is passed over.
#[derive(Drop)]
pub struct InputEnd {
    inner: Stdin,
    known: Known,
    has_come: bool,
}

impl InputEnd {
    /// Of this standard input, whose end is to end rests that these tidings are of.
    pub fn of(inner: Stdin, tidings: Option<&Readiness>) -> InputEnd {
        InputEnd {
            inner,
            known: Known::of(tidings, STANDARD_INPUT),
            has_come: false,
        }
    }

    /// Whether the end has come. It doesn't wait: at most one piece of the input is passed over at each call. Input that fails has ended. While more may be
    /// there, and behind the end, rests are short.
    pub fn has_come(&mut self) -> bool {
        if !self.has_come && has_answer(STANDARD_INPUT) {
            let mut piece = [0; 4096];
            match read_once(&mut self.inner, &mut piece) {
                Ok(n) if n > 0 => self.known.ask_soon(),
                _ => self.has_come = true,
            }
        }
        if self.has_come {
            self.known.ask_soon();
        }
        self.has_come
    }
}
