//! A writer together with the records of its calls, and the claims that the ring took of it.

ghost use Rattle.std.specs.Prelude.{◌≡◌, ◌+◌, ◌^◌, ◌<◌, ◌≤◌, ◌∷◌, ◌++◌, ℕ, [], Err, IfErr, IfOk, IfSome, IfNone, OnErr, OnSome, length, vec_len};
ghost use Rattle.std.specs.Result.{result_err};
ghost use Rattle.dl_ring.specs.InjectionOrder.{Rises, MetEmpty};
ghost use Rattle.dl_ring.specs.Items.{calls_in, claims_in};
ghost use Rattle.dl_writer.specs.Calls.{asked, record_fault, with_empty, with_injection, Keeps};
ghost use Rattle.dl_writer.specs.Claiming.{name_fault, AnnouncesInto, IsTableFull, KeepsAnnounced, KeepsRegistered};
ghost use Rattle.dl_writer.specs.Records.{TellAll};
ghost use Rattle.dl_writer.specs.State.{IsWhole};
ghost use Rattle.dl_writer.specs.declared.fault.RegisterFault.TheVariants as register_fault;

use crate::claim_room::ClaimRoom;
use crate::fault::{BookFault, RegisterFault};
use crate::writer::Writer;
use dl_bytes::{Claim, Ctx, Id, Injection, Level, OutOfMemory, OwnLevel, Payload, Severity};
use dl_events::{Answer, Record};
use dl_ring::Call;
use std::alloc::Global;
use std::marker::Model;
use std::sync::Wait;

/// Logs through its writer, and keeps the record of each call and the claims that the ring took. Made of a writer without
/// calls and claims it is whole: it has a record of every call, and every claim that the ring took, and they tell all that the
/// writer did.
#[derive(Drop)]
pub struct Book {
    writer: Writer,
    // How many calls it keeps.
    kept: usize,
    // As many as it has room for. The first ones tell of the calls that it keeps; in the others lies whatever was there.
    records: Vec<Record>,
    claims: ClaimRoom,
}

impl Model for Book {
    ghost use Rattle.dl_writer.specs.State.{BookState};
    ghost use Rattle.dl_writer.specs.BookInside.{book_state, IsBook};

    ghost Value = { BookState };

    ghost view = { book_state };

    ghost invariant = { IsBook };
}

impl Book {
    /// A book with room for this many records, some 1.5 kB each, and for 64 claims. It takes all memory for them here, and
    /// fills it with blank records, so that no call touches a page for the first time. Without memory the writer comes back.
    pub fn make(alloc: Global, writer: Writer, room: u32) -> Result<Book, Writer>
        ensures book { IfOk result (λ book. book ≡ record { writer = writer; room = room; records = []; claims = [] }) }
        ensures back { IfErr result (λ back. back ≡ writer) }
    {
        let Ok(records) = blank_records(alloc, room as usize) else {
            return Err(writer);
        };
        let Ok(claims) = ClaimRoom::make(alloc) else {
            return Err(writer);
        };
        Ok(Book {
            writer,
            kept: 0,
            records,
            claims,
        })
    }

    /// Logs a message as `Writer::log` does, and keeps the record of the call, which is filled where it lies. No memory.
    pub fn log<R: Wait>(
        &mut self,
        rt: &R,
        ctx: &Ctx,
        severity: Severity,
        at: u32,
        payload: &Payload,
    ) -> Result<Answer, BookFault>
        ensures fault { result_err result ≡ record_fault self.old ctx.now }
        ensures refused { OnErr result (self.new ≡ self.old) }
        ensures kept { IfOk result (λ answer. Keeps self.old ctx.now severity at payload.now answer self.new) }
        ensures whole { IsWhole self.old → IsWhole self.new }
    {
        if self.kept == self.records.len() {
            return Err(BookFault::Full);
        }
        let entry = &mut self.records[self.kept];
        let answer = self.writer.log_into(rt, ctx, severity, at, payload, entry)?;
        self.kept += 1;
        Ok(answer)
    }

    /// Claims a context as `Writer::register` does, and keeps the claims that the ring took. No memory.
    pub fn register<R: Wait>(
        &mut self,
        rt: &R,
        ctid: Id,
        level: OwnLevel,
        text: &[u8],
    ) -> Result<Ctx, RegisterFault>
        ensures named { IfSome (name_fault ctid text.now) (λ fault. (result ≡ Err fault) × (self.new ≡ self.old)) }
        ensures registered { IfOk result (λ ctx. KeepsRegistered self.old ctid level text.now ctx self.new) }
        ensures full { IfNone (name_fault ctid text.now) (IfErr result (λ fault. (fault ≡ register_fault.TableFull)
            × (self.new ≡ record self.old { writer = self.new.writer }) × IsTableFull self.old.writer self.new.writer)) }
        ensures whole { IsWhole self.old → IsWhole self.new }
    {
        let ctx = self.writer.claim_context(rt, ctid, level, text)?;
        self.announce(rt);
        Ok(ctx)
    }

    /// Announces the claims that wait as `Writer::announce` does, and keeps those that the ring took. No memory.
    pub fn announce<R: Wait>(&mut self, rt: &R) -> u8
        ensures announced { KeepsAnnounced self.old self.new result }
        ensures whole { IsWhole self.old → IsWhole self.new }
    {
        announce_into(rt, &mut self.writer, &mut self.claims)
    }

    /// The writer's call of this name.
    pub fn next_injection<R: Wait>(&mut self, rt: &R) -> Option<Injection>
        ensures taken { IfSome result (λ injection. (number : ℕ) × (self.new ≡ record self.old { writer = with_injection self.old.writer number injection })) }
        ensures rises { OnSome result (Rises self.new.writer.injections.taken) }
        ensures none { IfNone result (self.new ≡ record self.old { writer = with_empty self.old.writer }) }
        ensures empty { IfNone result (MetEmpty self.old.writer.injections.taken) }
        ensures asked { asked self.new.writer ≡ asked self.old.writer + 1 }
        ensures rest { self.new ≡ record self.old { writer = record self.old.writer { injections = self.new.writer.injections } } }
    {
        self.writer.next_injection(rt)
    }

    /// The number of its writer, 1 to 32.
    pub fn number(&self) -> u8
        ensures value { result ≡ self.now.writer.push.number }
        ensures range { (1 ≤ result) × (result ≤ 32) }
    {
        self.writer.number()
    }

    /// The number of its writer's application, 0 to 15.
    pub fn app(&self) -> u8
        ensures value { result ≡ self.now.writer.app }
        ensures range { result < 16 }
    {
        self.writer.app()
    }

    /// How many calls the ring took of its writer, those before the book was made too.
    pub fn queued(&self) -> u64
        ensures value { result ≡ length (calls_in self.now.writer.push.pushed) }
        ensures range { result ≤ 2 ^ 40 }
    {
        self.writer.queued()
    }

    /// How many calls and claims the ring took of its writer, those before the book was made too.
    pub fn pushed(&self) -> u64
        ensures value { result ≡ length self.now.writer.push.pushed }
        ensures range { result ≤ 2 ^ 41 }
    {
        self.writer.pushed()
    }

    /// How many claims of its writer wait for the ring, at most 64.
    pub fn waiting(&self) -> u8
        ensures value { result ≡ length self.now.writer.waiting }
        ensures range { result ≤ 64 }
    {
        self.writer.waiting()
    }

    /// How many injections its writer was given, those before the book was made too.
    pub fn injected(&self) -> u64
        ensures { result ≡ length self.now.writer.injections.taken }
    {
        self.writer.injected()
    }

    /// The records of the calls that were made through it, in order.
    pub fn records(&self) -> &[Record]
        ensures value { result.now ≡ self.now.records }
        ensures told { IsWhole self.now → TellAll self.now.writer self.now.records self.now.claims }
    {
        &self.records[..self.kept]
    }

    /// The claims that the ring took of its writer through it, in order.
    pub fn claims(&self) -> &[Claim]
        ensures value { result.now ≡ self.now.claims }
        ensures range { length self.now.claims ≤ 64 }
    {
        self.claims.all()
    }

    /// The writer, the records, and the claims that the ring took.
    pub fn into_parts(self) -> (Writer, Vec<Record>, Vec<Claim>)
        ensures writer { result.0 ≡ self.writer }
        ensures records { result.1.items ≡ self.records }
        ensures claims { result.2.items ≡ self.claims }
        ensures told { IsWhole self → TellAll self.writer self.records self.claims }
    {
        let Book {
            writer,
            kept,
            mut records,
            claims,
        } = self;
        records.truncate(kept);
        (writer, records, claims.into_list())
    }
}

// So many blank records.
fn blank_records(alloc: Global, count: usize) -> Result<Vec<Record>, OutOfMemory>
    ensures { IfOk result (λ records. vec_len records ≡ count) }
{
    let mut records = Vec::with_capacity(alloc, count)?;
    records.resize_with(count, blank_record)?;
    Ok(records)
}

// What lies where a record will be.
fn blank_record() -> Record {
    let call = Call {
        app: 0,
        writer: 0,
        severity: Severity::Fatal,
        mcnt: 0,
        at: 0,
        apid: Id::from_bytes([0; 4]),
        ctid: Id::from_bytes([0; 4]),
        number: 0,
    };
    Record {
        item: call.item(&Payload::new()),
        slot: 0,
        version: 0,
        held: Level::from(Severity::Fatal),
        answer: Answer::Filtered,
    }
}

// Announces the claims of a writer that wait, and keeps those that the ring took behind those that are kept already.
fn announce_into<R: Wait>(rt: &R, writer: &mut Writer, kept: &mut ClaimRoom) -> u8
    requires { length kept.old ≤ length (claims_in writer.old.push.pushed) }
    ensures { AnnouncesInto writer.old kept.old writer.new kept.new result }
{
    while let Some(claim) = writer.announce_next(rt) {
        writer.have_claims();
        kept.add(claim);
    }
    writer.waiting()
}
