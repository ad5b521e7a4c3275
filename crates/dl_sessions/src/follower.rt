//! Files of messages that come in pieces, followed message by message.

ghost use Rattle.std.specs.Prelude.{◌≡◌, ◌++◌, ◌∷◌, [], ℕ, List, IfOk, IfSome, OnOk, None, if◌then◌else◌, true};
ghost use Rattle.dl_sessions.specs.Follows.{AreAfter, EndsBad, Follows, HasClosed, HasCounted, IsAt};
ghost use Rattle.dl_sessions.specs.Stream.{first_place};
ghost use Rattle.dl_sessions.specs.Ledger.{accounts_text};
ghost use Rattle.dl_sessions.specs.Text.{printed};
ghost use Rattle.dl_sessions.specs.declared.session.Told.{Told};

use crate::account::Account;
use crate::ledger::Ledger;
use crate::session::Told;
use crate::stream::{End, behind_first, end_of, first_place, told_first};
use dl_bytes::OutOfMemory;
use std::alloc::Global;

/// From how many bytes on a rest that no message begins with stays one, whatever follows it: those of a storage header, and the front of a message.
const FRONT: usize = 20;

/// What is counted of messages, one after the other. It takes memory for what it counts, and for each message where all are kept.
#[derive(Drop)]
pub struct Counts {
    /// Their account.
    account: Account,
    /// The accounts that programs gave of themselves.
    ledger: Ledger,
    /// Whether what each message tells is kept.
    keeps: bool,
    /// What they told, where it is kept.
    stream: Vec<Told>,
}

/// Keeps what a message tells, where it is to be kept.
fn keep(stream: &mut Vec<Told>, keeps: bool, told: &Told) -> Result<(), OutOfMemory>
    ensures { OnOk result (stream.new.items ≡ stream.old.items ++ (if keeps then told.now ∷ [] else [])) }
{
    if keeps {
        stream.push(*told)?;
    }
    Ok(())
}

impl Counts {
    /// Counts the next message.
    fn add(&mut self, told: &Told) -> Result<(), OutOfMemory>
        ensures { (stream : List Told) → AreAfter stream self.old → OnOk result (AreAfter (stream ++ told.now ∷ []) self.new) }
    {
        self.account.add(told)?;
        self.ledger.add(told)?;
        keep(&mut self.stream, self.keeps, told)?;
        Ok(())
    }

    /// Counts the messages that begin these bytes, one behind the other. Answers what stands behind them.
    fn add_all<'a>(&mut self, bytes: &'a [u8]) -> Result<&'a [u8], OutOfMemory>
        ensures { (before : List Told) → AreAfter before self.old → IfOk result (λ rest. HasCounted before bytes.now rest.now self.new) }
    {
        let mut rest = bytes;
        while let Some(place) = first_place(rest) {
            self.add(&told_first(rest, &place))?;
            rest = behind_first(rest, &place);
        }
        Ok(rest)
    }
}

/// Follows files of messages that come in pieces, one file behind the other. It keeps what is counted of the messages, and of the bytes those that are no
/// whole message yet.
#[derive(Drop)]
pub struct Follower {
    alloc: Global,
    /// What is counted of the messages.
    counts: Counts,
    /// The bytes behind the last message of the present file.
    held: Vec<u8>,
}

impl Follower {
    /// A follower to which nothing came, that keeps what each message tells, or doesn't.
    pub fn new(alloc: Global, keeps: bool) -> Follower
        ensures { IsAt [] result }
    {
        Follower {
            alloc,
            counts: Counts {
                account: Account::new(alloc),
                ledger: Ledger::new(alloc),
                keeps,
                stream: Vec::new(alloc),
            },
            held: Vec::new(alloc),
        }
    }

    /// Takes the next bytes of the present file, and counts each message that they make whole.
    pub fn take(&mut self, piece: &[u8]) -> Result<(), OutOfMemory>
        ensures { (before : List Told) (bytes : List ℕ) → Follows before bytes self.old → OnOk result (Follows before (bytes ++ piece.now) self.new) }
    {
        self.held.extend_from_slice(piece)?;
        let rest = self.counts.add_all(&self.held)?;
        let held = Vec::from_slice(self.alloc, rest)?;
        self.held = held;
        Ok(())
    }

    /// The bytes behind the last message of the present file.
    pub fn rest(&self) -> &[u8]
        ensures { result.now ≡ self.now.held.items }
    {
        &self.held
    }

    /// Whether no message begins with what stands behind the last one, whatever comes.
    pub fn is_bad(&self) -> bool
        ensures { (before : List Told) (bytes : List ℕ) → Follows before bytes self.now → result ≡ true → EndsBad self.now.held.items }
    {
        match end_of(&self.held) {
            End::Bad => self.held.len() >= FRONT,
            End::Whole => false,
            End::Within => false,
        }
    }

    /// Lets the rest of the present file go: another file begins.
    pub fn close(&mut self)
        ensures { (before : List Told) (bytes : List ℕ) → Follows before bytes self.old → HasClosed before bytes self.old.held.items self.new }
    {
        self.held.clear();
    }

    /// What all messages told, where it is kept.
    pub fn stream(&self) -> Option<&[Told]>
        ensures { (stream : List Told) → IsAt stream self.now → IfSome result (λ kept. kept.now ≡ stream) }
    {
        if self.counts.keeps {
            Some(&self.counts.stream)
        } else {
            None
        }
    }

    /// The account of the messages.
    pub fn account(&self) -> &Account
        ensures { result.now ≡ self.now.counts.account }
    {
        &self.counts.account
    }

    /// Adds the account of the messages, and the accounts that programs gave of themselves.
    pub fn print(&self, text: &mut Vec<u8>) -> Result<(), OutOfMemory>
        ensures { (stream : List Told) → IsAt stream self.now → OnOk result (text.new.items ≡ text.old.items ++ (printed stream ++ accounts_text stream)) }
    {
        self.counts.account.print(text)?;
        self.counts.ledger.print(text)?;
        Ok(())
    }
}
