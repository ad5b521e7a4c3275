//! The receiver: a stream in pieces in, its lines out.

ghost use Rattle.std.specs.Prelude.{◌≡◌, ◌++◌, ℕ, List, [], false, true, IfOk};
ghost use Rattle.dl_receive.specs.Program.{IsTruncated, IsWhole};
ghost use Rattle.dl_receive.specs.Receiving.{IsAfter, IsAt, IsReady, Stands, Took};
ghost use Rattle.dl_receive.specs.Text.{len_limit};

use crate::counting::{Counting, entry_of};
use crate::printer::Printer;
use dl_bytes::OutOfMemory;
use dl_message::{Cut, Cutter};
use std::alloc::Global;

/// The greatest LEN of a message, which has two bytes.
const LEN_LIMIT: u16 = 65535;

/// The bytes of the longest message with a serial header before it.
const LONGEST: usize = 65539;

/// Takes a stream in pieces and prints its messages. It keeps what is no whole message yet, the lines that were not
/// taken, and the last message counter of those that are counted together.
#[derive(Drop)]
pub struct Receiver {
    counting: Counting,
    cutter: Cutter,
    printer: Printer,
}

impl Receiver {
    /// A receiver to which nothing came, and that counts messages so.
    pub fn make(alloc: Global, counting: Counting) -> Result<Receiver, OutOfMemory>
        ensures { IfOk result (λ receiver. IsAt counting [] receiver) }
    {
        Ok(Receiver {
            counting,
            cutter: Cutter::make(alloc, LEN_LIMIT)?,
            printer: Printer::new(alloc),
        })
    }

    /// Prints each whole message that is there. Answers whether what stands behind them may become one.
    fn print_whole(&mut self) -> Result<bool, OutOfMemory>
        requires { self.old.cutter.limit ≡ len_limit }
        ensures after { (counting : Counting) (stream shown : List ℕ) → IsAfter counting stream shown self.old → IfOk result (λ more. IsAfter counting stream shown self.new) }
        ensures stands { IfOk result (λ more. Stands more self.new) }
    {
        loop {
            match self.cutter.next() {
                Cut::Message => self
                    .printer
                    .print(entry_of(self.counting, self.cutter.message()))?,
                Cut::NeedMore => return Ok(true),
                Cut::Bad(_) => return Ok(false),
            }
        }
    }

    /// Takes the next bytes of the stream, and prints each message that they make whole. Answers whether more may come.
    pub fn take(&mut self, piece: &[u8]) -> Result<bool, OutOfMemory>
        requires { IsReady self.old }
        ensures { (counting : Counting) (stream shown : List ℕ) → IsAfter counting stream shown self.old
            → IfOk result (λ more. Took more counting (stream ++ piece.now) shown self.new) }
    {
        let mut rest = piece;
        while !rest.is_empty() {
            let taken = self.cutter.feed(rest);
            rest = &rest[taken..];
            if !self.print_whole()? {
                return Ok(false);
            }
        }
        Ok(true)
    }

    /// The lines that were not taken yet.
    pub fn text(&self) -> &[u8]
        ensures { result.now ≡ self.now.printer.text.items }
    {
        self.printer.text()
    }

    /// Lets the lines go that were taken.
    pub fn clear(&mut self)
        ensures { (counting : Counting) (stream shown : List ℕ) → IsAfter counting stream shown self.old → IsReady self.old → IsAt counting stream self.new }
    {
        self.printer.clear();
    }

    /// Whether the stream ended after a whole message: then there is room for the longest one again.
    pub fn is_whole(&mut self) -> bool
        ensures whole { (counting : Counting) (stream : List ℕ) → IsAt counting stream self.old → result ≡ true → IsWhole stream }
        ensures truncated { (counting : Counting) (stream : List ℕ) → IsAt counting stream self.old → result ≡ false → IsTruncated stream }
    {
        let longest = [0; LONGEST];
        self.cutter.feed(&longest) == LONGEST
    }
}
