//! The calls of one thread.

ghost use Rattle.std.specs.Prelude.{◌≡◌, ◌+◌, ◌*◌, ◌<◌, ◌≤◌, ◌^◌, ◌%◌, ℕ, false, not, [], IfOk, IfSome, IfNone, OnErr, OnOk, OnSome, length};
ghost use Rattle.std.specs.Result.{result_err};
ghost use Rattle.dl_bytes.specs.Context.{slot_of};
ghost use Rattle.dl_bytes.specs.Level.{passes};
ghost use Rattle.dl_model.specs.Report.{is_answer};
ghost use Rattle.dl_ring.specs.Items.{calls_in, item_with};
ghost use Rattle.dl_ring.specs.Order.{MetFull};
ghost use Rattle.dl_ring.specs.State.{unused_push};
ghost use Rattle.dl_ring.specs.InjectionOrder.{Rises, MetEmpty};
ghost use Rattle.dl_ring.specs.InjectionState.{unused_take};
ghost use Rattle.dl_writer.specs.Met.{last_call, record_of};
ghost use Rattle.dl_writer.specs.Calls.{after, answered, asked, call_fault, passed, with_empty, with_injection, LooksUp, Sends, Tells};
ghost use Rattle.dl_writer.specs.State.{new_writer};

use crate::claim_room::ClaimRoom;
use crate::fault::LogFault;
use dl_bytes::{Ctx, Id, Injection, Level, Payload, Severity, WRITER_CALL_LIMIT};
use dl_cells::{LevelReader, LossWriter, Seen, one_more};
use dl_events::{Answer, Record};
use dl_ring::{Call, InjectTake, RingPush};
use std::marker::Model;
use std::sync::Wait;

/// What a writer shares with the daemon: its handles of the objects of its application.
#[derive(Drop)]
pub struct WriterHandles {
    /// The ring into which it pushes, under its own number.
    pub push: RingPush,
    /// The level words of all contexts.
    pub reader: LevelReader,
    /// The loss words of all applications.
    pub losses: LossWriter,
    /// The queue of the application's injections.
    pub injections: InjectTake,
}

/// The application that a writer is of.
#[derive(Clone, Copy)]
pub struct Owner {
    /// Its number, 0 to 15.
    pub app: u8,
    /// Its id.
    pub apid: Id,
    /// How many contexts it has when the writer is made, at most 64: their places are the first ones.
    pub base: u8,
}

// What a call met, and what became of it.
struct Met {
    // the level that its one load found
    seen: Seen,
    answer: Answer,
}

/// Logs for one thread of an application, and claims contexts for it. Its calls take no memory and no lock.
#[derive(Drop)]
pub struct Writer {
    pub(crate) owner: Owner,
    pub(crate) number: u8,
    // how many calls it made
    calls: u64,
    // how many of them passed their level, modulo 256: the message counter of the next one that does
    mcnt: u8,
    // how many of these the ring took
    queued: u64,
    // how many of its claims the ring took
    pub(crate) claimed: u8,
    // how many injections it was given
    injected: u64,
    // the claims that the ring didn't take yet
    pub(crate) waiting: ClaimRoom,
    // how many `register` calls came to a claim step
    pub(crate) registers: u64,
    // how many of these found no place left
    pub(crate) table_full: u64,
    pub(crate) push: RingPush,
    pub(crate) reader: LevelReader,
    losses: LossWriter,
    injections: InjectTake,
}

impl Model for Writer {
    ghost use Rattle.dl_writer.specs.State.{WriterState};
    ghost use Rattle.dl_writer.specs.WriterInside.{writer_state, IsWriter};

    ghost Value = { WriterState };

    ghost view = { writer_state };

    ghost invariant = { IsWriter };
}

impl Writer {
    /// A writer of this application, with this number, 1 to 32. Its handles were not used yet, and the room for claims that
    /// wait is empty.
    pub fn of(owner: Owner, number: u8, handles: WriterHandles, waiting: ClaimRoom) -> Writer
        requires app { owner.app < 16 }
        requires base { owner.base ≤ 64 }
        requires number { (1 ≤ number) × (number ≤ 32) }
        requires push { handles.push ≡ unused_push handles.push.ring handles.push.capacity number false }
        requires reader { 64 * owner.app + 64 ≤ handles.reader.slots }
        requires claims { (handles.reader.given ≡ []) × (handles.reader.refused ≡ []) }
        requires apps { owner.app < handles.losses.apps }
        requires losses { handles.losses.counted ≡ [] }
        requires injections { handles.injections ≡ unused_take handles.injections.queue false }
        requires waiting { waiting ≡ [] }
        ensures { result ≡ new_writer owner handles }
    {
        let WriterHandles {
            push,
            reader,
            losses,
            injections,
        } = handles;
        Writer {
            owner,
            number,
            calls: 0,
            mcnt: 0,
            queued: 0,
            claimed: 0,
            injected: 0,
            waiting,
            registers: 0,
            table_full: 0,
            push,
            reader,
            losses,
            injections,
        }
    }

    /// Logs a message of a context of this writer's application: one load of the context's level, and where that lets
    /// the severity through one push into the ring, or one count where the ring was full. `at` is the timestamp, in
    /// units of 0.1 ms. The record tells what became of it. It may wait for the one step of the ring.
    pub fn log<R: Wait>(
        &mut self,
        rt: &R,
        ctx: &Ctx,
        severity: Severity,
        at: u32,
        payload: &Payload,
    ) -> Result<Record, LogFault>
        ensures fault { result_err result ≡ call_fault self.old ctx.now }
        ensures refused { OnErr result (self.new ≡ self.old) }
        ensures told { IfOk result (λ r. Tells self.old ctx.now severity at payload.now r) }
        ensures made { IfOk result (λ r. self.new ≡ after self.old r) }
    {
        let mcnt = self.mcnt;
        let Met { seen, answer } = self.call(rt, ctx, severity, at, payload)?;
        let mut call = self.last_call(ctx, severity, at);
        call.mcnt = mcnt;
        Ok(Record {
            item: call.item(payload),
            slot: slot_of(ctx),
            version: seen.version,
            held: seen.level,
            answer,
        })
    }

    /// Logs a message as `log` does, and answers only what became of it. What `log` tells by its record is so all the same;
    /// none is made.
    pub fn send<R: Wait>(
        &mut self,
        rt: &R,
        ctx: &Ctx,
        severity: Severity,
        at: u32,
        payload: &Payload,
    ) -> Result<Answer, LogFault>
        ensures fault { result_err result ≡ call_fault self.old ctx.now }
        ensures refused { OnErr result (self.new ≡ self.old) }
        ensures sent { IfOk result (λ answer. Sends self.old ctx.now severity at payload.now answer self.new) }
    {
        let Met { seen: _, answer } = self.call(rt, ctx, severity, at, payload)?;
        Ok(answer)
    }

    /// Whether a message of this severity would pass now, by a load of its own. It is not a call, and it never waits.
    pub fn would_pass(&mut self, ctx: &Ctx, severity: Severity) -> bool
        requires { ctx.now.app ≡ self.old.app }
        ensures { LooksUp self.old ctx.now severity result self.new }
    {
        self.reader.load(slot_of(ctx)).level.passes(severity)
    }

    /// The oldest injection that waits for the application, if one does: one take.
    pub fn next_injection<R: Wait>(&mut self, rt: &R) -> Option<Injection>
        ensures taken { IfSome result (λ injection. (number : ℕ) × (self.new ≡ with_injection self.old number injection)) }
        ensures rises { OnSome result (Rises self.new.injections.taken) }
        ensures none { IfNone result (self.new ≡ with_empty self.old) }
        ensures empty { IfNone result (MetEmpty self.old.injections.taken) }
        ensures asked { asked self.new ≡ asked self.old + 1 }
        ensures rest { self.new ≡ record self.old { injections = self.new.injections } }
    {
        let injection = self.injections.take(rt)?;
        self.injected = one_more(rt, self.injected);
        Some(injection)
    }

    /// The writer's number, 1 to 32: the session id of its messages.
    pub fn number(&self) -> u8
        ensures value { result ≡ self.now.push.number }
        ensures range { (1 ≤ result) × (result ≤ 32) }
    {
        self.number
    }

    /// Its application's number, 0 to 15.
    pub fn app(&self) -> u8
        ensures value { result ≡ self.now.app }
        ensures range { result < 16 }
    {
        self.owner.app
    }

    /// How many of its calls the ring took.
    pub fn queued(&self) -> u64
        ensures value { result ≡ length (calls_in self.now.push.pushed) }
        ensures range { result ≤ 2 ^ 40 }
    {
        self.queued
    }

    /// How many of its calls and claims the ring took.
    pub fn pushed(&self) -> u64
        ensures value { result ≡ length self.now.push.pushed }
        ensures range { result ≤ 2 ^ 41 }
    {
        self.queued + u64::from(self.claimed)
    }

    /// How many injections it was given.
    pub fn injected(&self) -> u64
        ensures { result ≡ length self.now.injections.taken }
    {
        self.injected
    }

    /// Its handles, for the daemon to take back.
    pub fn into_handles(self) -> WriterHandles
        ensures { result ≡ record { push = self.push; reader = self.reader; losses = self.losses; injections = self.injections } }
    {
        let Writer {
            push,
            reader,
            losses,
            injections,
            ..
        } = self;
        WriterHandles {
            push,
            reader,
            losses,
            injections,
        }
    }
}

impl Writer {
    // Logs a message as `log` does, and makes a record of the caller's the one that tells of it. It is filled where it lies;
    // what lies there stays where the call is refused.
    pub(crate) fn log_into<R: Wait>(
        &mut self,
        rt: &R,
        ctx: &Ctx,
        severity: Severity,
        at: u32,
        payload: &Payload,
        entry: &mut Record,
    ) -> Result<Answer, LogFault>
        ensures fault { result_err result ≡ call_fault self.old ctx.now }
        ensures refused { OnErr result ((self.new ≡ self.old) × (entry.new ≡ entry.old)) }
        ensures told { OnOk result (Tells self.old ctx.now severity at payload.now entry.new) }
        ensures made { OnOk result (self.new ≡ after self.old entry.new) }
        ensures answer { IfOk result (λ answer. entry.new.answer ≡ answer) }
    {
        let mcnt = self.mcnt;
        let Met { seen, answer } = self.call(rt, ctx, severity, at, payload)?;
        let mut call = self.last_call(ctx, severity, at);
        call.mcnt = mcnt;
        call.fill(&mut entry.item, payload);
        entry.slot = slot_of(ctx);
        entry.version = seen.version;
        entry.held = seen.level;
        entry.answer = answer;
        Ok(answer)
    }

    // A call without its record.
    fn call<R: Wait>(
        &mut self,
        rt: &R,
        ctx: &Ctx,
        severity: Severity,
        at: u32,
        payload: &Payload,
    ) -> Result<Met, LogFault>
        ensures fault { result_err result ≡ call_fault self.old ctx.now }
        ensures refused { OnErr result (self.new ≡ self.old) }
        ensures told { IfOk result (λ met. Tells self.old ctx.now severity at payload.now (record_of self.old ctx.now severity at payload.now met)) }
        ensures made { IfOk result (λ met. self.new ≡ after self.old (record_of self.old ctx.now severity at payload.now met)) }
    {
        if ctx.app() != self.owner.app {
            return Err(LogFault::Foreign);
        }
        if self.calls == WRITER_CALL_LIMIT {
            return Err(LogFault::Spent);
        }
        let seen = self.reader.load(slot_of(ctx));
        self.calls += 1;
        let answer = self.answer(rt, seen.level, ctx, severity, at, payload);
        Ok(Met { seen, answer })
    }

    // What becomes of the call that was just counted and found this level: where that lets it through, it is pushed once,
    // and counted once where the ring was full.
    fn answer<R: Wait>(
        &mut self,
        rt: &R,
        level: Level,
        ctx: &Ctx,
        severity: Severity,
        at: u32,
        payload: &Payload,
    ) -> Answer
        requires number { passed self.old < self.old.calls }
        ensures filtered { is_answer Answer.Filtered result ≡ not (passes severity level) }
        ensures full { result ≡ Answer.Lost → MetFull self.old.push.capacity self.old.push.number self.old.push.pushed }
        ensures made { self.new ≡ answered self.old result (item_with (last_call self.old ctx.now severity at) payload.now) }
    {
        if !level.passes(severity) {
            return Answer::Filtered;
        }
        let call = self.last_call(ctx, severity, at);
        self.mcnt = self.mcnt.wrapping_add(1);
        if self.push.push_call(rt, &call, payload) {
            self.queued += 1;
            Answer::Queued
        } else {
            self.losses.count(self.owner.app);
            Answer::Lost
        }
    }

    // The call that was just counted, with the message counter of the next that passes.
    fn last_call(&self, ctx: &Ctx, severity: Severity, at: u32) -> Call
        ensures { result ≡ last_call self.now ctx.now severity at }
    {
        Call {
            app: self.owner.app,
            writer: self.number,
            severity,
            mcnt: self.mcnt,
            at,
            apid: ctx.apid(),
            ctid: ctx.ctid(),
            number: self.calls,
        }
    }
}

// The slot of a context, which is one of its application's.
fn slot_of(ctx: &Ctx) -> u16
    ensures value { result ≡ slot_of ctx.now }
    ensures range { result < 64 * ctx.now.app + 64 }
{
    let _place = ctx.place();
    ctx.slot()
}
