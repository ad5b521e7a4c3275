//! Standard output as a sink that never waits.

ghost use Rattle.std.specs.Prelude.{◌≡◌, ◌≤◌, IfSome, None, length};
ghost use Rattle.dl_outside.specs.Outside.{HasRisen};

use dl_outside::{Sink, Took};
use dl_real::{has_room, write_once};
use std::alloc::Global;
use std::io::Write;
use std::rt::Stdout;

/// The number of the descriptor of standard output.
const STANDARD_OUTPUT: i32 = 1;

/// Standard output, for lines that are left out rather than waited for: where it has no room now, or nobody reads it any more, that is a fault, and the
/// line is counted. The next line that finds room has a line before it that says how many were left out. It tells no content.
#[derive(Drop)]
pub struct PromptOutput {
    alloc: Global,
    inner: Stdout,
    left_out: u64,
    // whether the last byte that was taken is not the end of a line, whose rest may follow
    is_within: bool,
    // whether a line was cut, and its rest left out
    is_cut: bool,
    faults: u64,
}

impl PromptOutput {
    /// Standard output, of which nothing was left out yet.
    pub fn over(alloc: Global, inner: Stdout) -> PromptOutput
        ensures { result.faults ≡ 0 }
    {
        PromptOutput {
            alloc,
            inner,
            left_out: 0,
            is_within: false,
            is_cut: false,
            faults: 0,
        }
    }

    /// Writes a piece where there is room for it, and tells how many bytes were taken.
    fn pass_on(&mut self, piece: &[u8]) -> Option<usize>
        ensures faults { self.new.faults ≡ self.old.faults }
        ensures some { IfSome result (λ n. (1 ≤ n) × (n ≤ length piece.now)) }
    {
        if !has_room(STANDARD_OUTPUT) {
            return None;
        }
        match write_once(&mut self.inner, piece) {
            Ok(n) if n > 0 => Some(n),
            _ => None,
        }
    }

    /// Says how many lines were left out, where some were and there is room. Answers whether a line may follow.
    fn say_left_out(&mut self) -> bool
        ensures { self.new.faults ≡ self.old.faults }
    {
        if self.left_out == 0 || self.is_within {
            return true;
        }
        let count = self.left_out;
        let ends = if self.is_cut { "\n" } else { "" };
        let Ok(text) = format!(in self.alloc; "{ends}left out {count}\n") else {
            return false;
        };
        if self.pass_on(text.as_bytes()).is_none() {
            return false;
        }
        self.left_out = 0;
        self.is_cut = false;
        true
    }

    /// Writes a piece, behind what is to be said of lines that were left out.
    fn write_behind(&mut self, piece: &[u8]) -> Option<usize>
        requires { 1 ≤ length piece.now }
        ensures faults { self.new.faults ≡ self.old.faults }
        ensures some { IfSome result (λ n. (1 ≤ n) × (n ≤ length piece.now)) }
    {
        if !self.say_left_out() {
            return None;
        }
        let n = self.pass_on(piece)?;
        self.is_within = piece[n - 1] != b'\n';
        Some(n)
    }

    /// The line finds no room, or what is left of it.
    fn leave_out(&mut self)
        ensures { HasRisen self.old.faults self.new.faults }
    {
        self.left_out = self.left_out.saturating_add(1);
        self.is_cut = self.is_cut || self.is_within;
        self.is_within = false;
        self.faults = self.faults.saturating_add(1);
    }
}

impl Sink for PromptOutput {
    ghost told = { λ s. record { held = None; faults = s.faults } };

    fn write(&mut self, piece: &[u8]) -> Took {
        match self.write_behind(piece) {
            Some(n) => Took::Bytes(n),
            None => {
                self.leave_out();
                Took::Failed
            }
        }
    }

    fn faults(&self) -> u64 {
        self.faults
    }
}
