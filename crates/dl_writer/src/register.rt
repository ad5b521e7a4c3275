//! What claims a context for a writer, and how its claims go into the ring.

ghost use Rattle.std.specs.Prelude.{◌≡◌, ◌⊎◌, ◌+◌, ◌*◌, ◌<◌, ◌≤◌, ℕ, List, Err, IfOk, IfErr, IfSome, IfNone, length};
ghost use Rattle.dl_cells.specs.Claims.{given_of};
ghost use Rattle.dl_writer.specs.Claiming.{name_fault, with_none, with_number, Announces, AnnouncesNone, AnnouncesOne, IsTableFull, Joins, Registers, TellsClaims};
ghost use Rattle.dl_writer.specs.declared.fault.RegisterFault.TheVariants as register_fault;

use crate::fault::RegisterFault;
use crate::writer::{Owner, Writer};
use dl_bytes::{CONTEXT_LIMIT, Claim, ClaimText, Ctx, Id, OwnLevel};
use dl_cells::{LevelReader, one_more};
use dl_ring::RingItem;
use std::sync::Wait;

impl Writer {
    /// Claims the next place of its application for a context: one claim step. The claim joins those that wait, and these are
    /// announced. The context's level is 0 until the daemon has taken the claim. It may wait for the steps of the ring, and
    /// takes no memory and no lock. After a refusal for the id or the text nothing changed; `TableFull` comes where no place is
    /// left.
    pub fn register<R: Wait>(
        &mut self,
        rt: &R,
        ctid: Id,
        level: OwnLevel,
        text: &[u8],
    ) -> Result<Ctx, RegisterFault>
        ensures named { IfSome (name_fault ctid text.now) (λ fault. (result ≡ Err fault) × (self.new ≡ self.old)) }
        ensures registered { IfOk result (λ ctx. Registers self.old ctid level text.now ctx self.new) }
        ensures full { IfNone (name_fault ctid text.now) (IfErr result (λ fault. (fault ≡ register_fault.TableFull) × IsTableFull self.old self.new)) }
    {
        let ctx = self.claim_context(rt, ctid, level, text)?;
        self.announce(rt);
        Ok(ctx)
    }

    /// Pushes the claims that wait, in order, until the ring refuses one or none waits. It answers how many wait then: 0, or
    /// its last push met a full ring. A claim that was refused stays the first. It may wait for the steps of the ring.
    pub fn announce<R: Wait>(&mut self, rt: &R) -> u8
        ensures { Announces self.old self.new result }
    {
        while self.announce_next(rt).is_some() {}
        self.waiting()
    }

    /// Pushes the first claim that waits. It is given back where the ring took it. None comes where none waits, or where the
    /// ring was full.
    pub(crate) fn announce_next<R: Wait>(&mut self, rt: &R) -> Option<Claim>
        ensures taken { IfSome result (λ claim. AnnouncesOne self.old claim self.new) }
        ensures none { IfNone result (AnnouncesNone self.old self.new) }
    {
        let claim = self.waiting.first()?;
        if self.push.push(rt, RingItem::Register(claim)).is_err() {
            return None;
        }
        self.claimed += 1;
        Some(self.waiting.take_first())
    }

    /// How many of its claims wait for the ring, at most 64.
    pub fn waiting(&self) -> u8
        ensures value { result ≡ length self.now.waiting }
        ensures range { result ≤ 64 }
    {
        self.waiting.len()
    }

    /// How many contexts its application had when the writer was made, at most 64.
    pub fn base(&self) -> u8
        ensures value { result ≡ self.now.base }
        ensures range { result ≤ 64 }
    {
        self.owner.base
    }

    /// Tells what is always so of its claims.
    pub fn have_claims(&self)
        ensures { TellsClaims self.now }
    {
        let _waiting = &self.waiting;
    }
}

impl Writer {
    // What `register` does before it announces: the claim joins those that wait. Nobody announces before that.
    pub(crate) fn claim_context<R: Wait>(
        &mut self,
        rt: &R,
        ctid: Id,
        level: OwnLevel,
        text: &[u8],
    ) -> Result<Ctx, RegisterFault>
        ensures named { IfSome (name_fault ctid text.now) (λ fault. (result ≡ Err fault) × (self.new ≡ self.old)) }
        ensures joined { IfOk result (λ ctx. Joins self.old ctid level text.now ctx self.new) }
        ensures full { IfNone (name_fault ctid text.now) (IfErr result (λ fault. (fault ≡ register_fault.TableFull) × IsTableFull self.old self.new)) }
    {
        if ctid.is_zero() {
            return Err(RegisterFault::ZeroId);
        }
        let Some(text) = ClaimText::of(text) else {
            return Err(RegisterFault::TooLong);
        };
        self.registers = one_more(rt, self.registers);
        let Owner { app, apid, .. } = self.owner;
        let Some(place) = next_place(&mut self.reader, &self.owner) else {
            self.table_full = one_more(rt, self.table_full);
            return Err(RegisterFault::TableFull);
        };
        let claim = Claim::of(app, self.number, place, ctid, level, text);
        self.waiting.add(claim);
        Ok(Ctx::of(app, place, apid, ctid))
    }
}

// The place of the next claim among its application's 64, by one claim step. None where no number is left, or where the number
// is none of these places.
fn next_place(reader: &mut LevelReader, owner: &Owner) -> Option<u8>
    requires slots { 64 * owner.now.app < reader.old.slots }
    requires base { owner.now.base ≤ 64 }
    ensures place { IfSome result (λ place. (number : ℕ) × (place ≡ owner.now.base + number) × (place < 64) × (reader.new ≡ with_number reader.old owner.now.app number)) }
    ensures none { IfNone result ((reader.new ≡ with_none reader.old owner.now.app)
        ⊎ ((number : ℕ) × (64 ≤ owner.now.base + number) × (reader.new ≡ with_number reader.old owner.now.app number))) }
    ensures few { length (given_of owner.now.app reader.old.given) ≤ 64 → length (given_of owner.now.app reader.new.given) ≤ 64 }
{
    let place = owner.base + reader.claim(owner.app)?;
    if usize::from(place) < CONTEXT_LIMIT {
        Some(place)
    } else {
        None
    }
}
