//! User messages: applications that come, tell themselves, and go, and messages of external applications.

ghost use Rattle.std.specs.Prelude.{◌≡◌, ◌≢◌, ◌≤◌, ◌<◌, ◌+◌, ◌∷◌, [], ℕ, List, true, false, Ok, Some, None, length, option_copied, option_to_list, IfOk, IfSome, OnOk, OnErr};
ghost use Rattle.std.specs.List.{AllByRecursion};
ghost use Rattle.std.specs.Result.{result_err};
ghost use Rattle.dl_bytes.specs.Limits.{admitted_limit, frame_limit};
ghost use Rattle.dl_bytes.specs.UserMessage.{IsFit};
ghost use Rattle.dl_events.specs.Journal.{one_more};
ghost use Rattle.dl_model.specs.declared.registry.RegistryFault.TheVariants as fault;
ghost use Rattle.dl_model.specs.Backlog.{size_of};
ghost use Rattle.dl_model.specs.Frames.{user_frames};
ghost use Rattle.dl_registry.specs.Kept.{owed_change};
ghost use Rattle.dl_hub.specs.State.{EachHasRoom};
ghost use Rattle.dl_core.specs.Admission.{has_frames, lost_frames, message_frames, more_noted, IsLog};
ghost use Rattle.dl_core.specs.Noting.{AdmitsFrames, NotesMessage, NotesMessages};
ghost use Rattle.dl_core.specs.Registering.{Registers, applied_now};
ghost use Rattle.dl_core.specs.Waiting.{changes_by, waiting};

use crate::admitting::{admit, admit_messages, report};
use crate::daemon::Core;
use circular_buffer::HeapCircularBuffer;
use dl_bytes::{Id, Moment, OutOfMemory, UserMsg};
use dl_events::{Event, Journal};
use dl_outside::Folder;
use dl_registry::RegistryFault;
use dl_trace::{begin_batch, store_batch};

impl Core {
    /// Notes a user message, which is fit, and admits the frames of a log message or of a report of lost ones. Any other message
    /// goes to the registry, which may refuse it; it is noted all the same. Where memory ran out nothing is noted.
    pub fn user<F: Folder, J: Journal>(
        &mut self,
        channel: u16,
        msg: UserMsg,
        moment: Moment,
        folder: &mut F,
        journal: &mut J,
    ) -> Result<Option<RegistryFault>, OutOfMemory>
        requires fit { IsFit msg }
        requires spare { 1 ≤ J.spare journal.old }
        requires settled { owed_change self.old.registry ≡ None }
        requires room { EachHasRoom (size_of (user_frames self.old.ecu msg)) self.old.hub }
        requires few { self.old.hub.admitted + length (user_frames self.old.ecu msg) ≤ admitted_limit }
        ensures refusal { IfOk result (λ refusal. refusal ≡ result_err (applied_now self.old channel msg)) }
        ensures no_memory { result ≢ Ok (Some fault.OutOfMemory) }
        ensures memory { OnErr result (has_frames msg ≡ false) }
        ensures unnoted { OnErr result ((self.new ≡ self.old) × (folder.new ≡ folder.old)) }
        ensures unwritten { OnErr result ((J.events journal.new ≡ J.events journal.old) × (J.noted journal.new ≡ J.noted journal.old)) }
        ensures later { OnErr result (J.spare journal.old ≤ J.spare journal.new) }
        ensures notes { OnOk result
            (NotesMessage moment channel msg self.old self.new (F.told folder.old) (F.told folder.new) (J.events journal.old) (J.events journal.new)) }
        ensures noted { OnOk result (J.noted journal.new ≡ one_more (J.noted journal.old)) }
        ensures spare { OnOk result (has_frames msg ≡ true → J.spare journal.new + 1 ≡ J.spare journal.old) }
        ensures reserved { OnOk result (has_frames msg ≡ false → J.spare journal.old + waiting self.new.registry ≤ J.spare journal.new) }
        ensures registers { OnOk result (Registers channel msg self.old self.new.registry) }
        ensures registry { OnOk result (has_frames msg ≡ true → self.new.registry ≡ self.old.registry) }
        ensures rest { self.new ≡ record self.old { registry = self.new.registry; hub = self.new.hub; trace = self.new.trace } }
    {
        let refusal = self.take_in(channel, &msg, moment, folder, journal)?;
        journal.note(Event::User {
            channel,
            msg,
            moment,
        });
        Ok(refusal)
    }

    /// Notes log messages of one channel and one moment, at most 64, and admits their frames; none is left. They are what as many calls of
    /// `user` would be, but that the trace stores them together.
    pub fn user_batch<F: Folder, J: Journal>(
        &mut self,
        channel: u16,
        msgs: &mut HeapCircularBuffer<UserMsg>,
        moment: Moment,
        folder: &mut F,
        journal: &mut J,
    )
        requires few_messages { length msgs.old.items ≤ 64 }
        requires logs { AllByRecursion IsLog msgs.old.items }
        requires spare { length msgs.old.items ≤ J.spare journal.old }
        requires settled { owed_change self.old.registry ≡ None }
        requires room { EachHasRoom (size_of (message_frames self.old.ecu msgs.old.items)) self.old.hub }
        requires few { self.old.hub.admitted + length msgs.old.items ≤ admitted_limit }
        ensures notes { NotesMessages moment channel msgs.old.items self.old self.new (F.told folder.old) (F.told folder.new)
            (J.events journal.old) (J.events journal.new) }
        ensures noted { J.noted journal.new ≡ more_noted (length msgs.old.items) (J.noted journal.old) }
        ensures spare { J.spare journal.new + length msgs.old.items ≡ J.spare journal.old }
        ensures none { msgs.new ≡ record msgs.old { items = [] } }
        ensures rest { self.new ≡ record self.old { hub = self.new.hub; trace = self.new.trace } }
    {
        begin_batch(&mut self.trace);
        admit_messages(
            &mut self.hub,
            &mut self.trace,
            self.ecu,
            channel,
            moment,
            msgs,
            journal,
        );
        store_batch(&mut self.trace, folder);
    }

    /// Does what a message asks for, before it is noted: its frames are admitted, or it goes to the registry.
    fn take_in<F: Folder, J: Journal>(
        &mut self,
        channel: u16,
        msg: &UserMsg,
        moment: Moment,
        folder: &mut F,
        journal: &mut J,
    ) -> Result<Option<RegistryFault>, OutOfMemory>
        requires fit { IsFit msg.now }
        requires settled { owed_change self.old.registry ≡ None }
        requires room { EachHasRoom (size_of (user_frames self.old.ecu msg.now)) self.old.hub }
        requires few { self.old.hub.admitted + length (user_frames self.old.ecu msg.now) ≤ admitted_limit }
        ensures refusal { IfOk result (λ refusal. refusal ≡ result_err (applied_now self.old channel msg.now)) }
        ensures no_memory { result ≢ Ok (Some fault.OutOfMemory) }
        ensures memory { OnErr result (has_frames msg.now ≡ false) }
        ensures unchanged { OnErr result ((self.new ≡ self.old) × (folder.new ≡ folder.old)) }
        ensures registry { OnOk result (Registers channel msg.now self.old self.new.registry) }
        ensures untouched { has_frames msg.now ≡ true → self.new.registry ≡ self.old.registry }
        ensures admits { AdmitsFrames moment (user_frames self.old.ecu msg.now) self.old self.new (F.told folder.old) (F.told folder.new) }
        ensures unwritten { (J.events journal.new ≡ J.events journal.old) × (J.noted journal.new ≡ J.noted journal.old) }
        ensures spare { has_frames msg.now ≡ true → J.spare journal.new ≡ J.spare journal.old }
        ensures reserved { OnOk result (has_frames msg.now ≡ false → J.spare journal.old + 1 + waiting self.new.registry ≤ J.spare journal.new) }
        ensures later { J.spare journal.old ≤ J.spare journal.new }
        ensures rest { self.new ≡ record self.old { registry = self.new.registry; hub = self.new.hub; trace = self.new.trace } }
    {
        if has_frames_in(msg) {
            self.admit_message(msg, moment, folder);
            Ok(None)
        } else {
            self.register(channel, msg, journal)
        }
    }

    /// How many bytes a user message puts.
    pub fn user_need(&self, msg: &UserMsg) -> u64
        ensures { result ≡ size_of (user_frames self.now.ecu msg.now) }
    {
        match msg {
            UserMsg::Log(message) => message.all().len() as u64,
            UserMsg::Overflow { counter, apid } => self.report_need(*counter, *apid),
            UserMsg::RegisterApp { .. } => 0,
            UserMsg::UnregisterApp { .. } => 0,
            UserMsg::RegisterContext { .. } => 0,
            UserMsg::UnregisterContext { .. } => 0,
            UserMsg::LogLevel { .. } => 0,
            UserMsg::Injection { .. } => 0,
        }
    }

    /// How many bytes these log messages put together.
    pub fn messages_need(&self, msgs: &HeapCircularBuffer<UserMsg>) -> u64
        requires few { length msgs.now.items ≤ 64 }
        requires logs { AllByRecursion IsLog msgs.now.items }
        ensures { result ≡ size_of (message_frames self.now.ecu msgs.now.items) }
    {
        let mut need = 0;
        for place in 0..msgs.len() {
            need += message_len(msgs.get(place));
        }
        need
    }

    /// How many bytes a report of lost messages puts. It is the same for all applications, since each id has four bytes.
    fn report_need(&self, counter: u32, apid: Id) -> u64
        ensures { result ≡ size_of (lost_frames self.now.ecu apid counter) }
    {
        let _apid = apid.bytes();
        self.lost_need(counter as u64)
    }

    /// Admits the frames of a log message, or of a report of lost ones.
    fn admit_message<F: Folder>(&mut self, msg: &UserMsg, moment: Moment, folder: &mut F)
        requires fit { IsFit msg.now }
        requires room { EachHasRoom (size_of (user_frames self.old.ecu msg.now)) self.old.hub }
        requires few { self.old.hub.admitted + length (user_frames self.old.ecu msg.now) ≤ admitted_limit }
        ensures admits { AdmitsFrames moment (user_frames self.old.ecu msg.now) self.old self.new (F.told folder.old) (F.told folder.new) }
        ensures rest { self.new ≡ record self.old { hub = self.new.hub; trace = self.new.trace } }
    {
        match msg {
            UserMsg::Log(message) => self.admit_bytes(message.all(), moment, folder),
            UserMsg::Overflow { counter, apid } => {
                report(
                    &mut self.hub,
                    &mut self.trace,
                    self.ecu,
                    *apid,
                    *counter as u64,
                    moment,
                    folder,
                )
            }
            UserMsg::RegisterApp { .. }
            | UserMsg::UnregisterApp { .. }
            | UserMsg::RegisterContext { .. }
            | UserMsg::UnregisterContext { .. }
            | UserMsg::LogLevel { .. }
            | UserMsg::Injection { .. } => {}
        }
    }

    /// Admits a message as it is, at most 1984 bytes.
    fn admit_bytes<F: Folder>(&mut self, message: &[u8], moment: Moment, folder: &mut F)
        requires some { 4 ≤ length message.now }
        requires size { length message.now ≤ frame_limit }
        requires room { EachHasRoom (length message.now) self.old.hub }
        requires few { self.old.hub.admitted < admitted_limit }
        ensures admits { AdmitsFrames moment (message.now ∷ []) self.old self.new (F.told folder.old) (F.told folder.new) }
        ensures rest { self.new ≡ record self.old { hub = self.new.hub; trace = self.new.trace } }
    {
        admit(
            &mut self.hub,
            &mut self.trace,
            self.ecu,
            moment,
            message,
            folder,
        );
    }

    /// Hands a message to the registry, with room in the journal for its event and the Level events that it may owe.
    fn register<J: Journal>(
        &mut self,
        channel: u16,
        msg: &UserMsg,
        journal: &mut J,
    ) -> Result<Option<RegistryFault>, OutOfMemory>
        requires settled { owed_change self.old.registry ≡ None }
        ensures refusal { IfOk result (λ refusal. refusal ≡ result_err (applied_now self.old channel msg.now)) }
        ensures no_memory { result ≢ Ok (Some fault.OutOfMemory) }
        ensures registry { OnOk result (Registers channel msg.now self.old self.new.registry) }
        ensures unchanged { OnErr result (self.new ≡ self.old) }
        ensures unwritten { (J.events journal.new ≡ J.events journal.old) × (J.noted journal.new ≡ J.noted journal.old) }
        ensures reserved { OnOk result (J.spare journal.old + 1 + waiting self.new.registry ≤ J.spare journal.new) }
        ensures later { J.spare journal.old ≤ J.spare journal.new }
        ensures rest { self.new ≡ record self.old { registry = self.new.registry } }
    {
        self.registry.slots_are_apart();
        let Some(spare) = journal.spare().checked_add(1 + changes_of(msg)) else {
            return Err(OutOfMemory);
        };
        journal.reserve(spare)?;
        match self.registry.apply(channel, msg) {
            Ok(()) => Ok(None),
            Err(RegistryFault::OutOfMemory) => Err(OutOfMemory),
            Err(fault) => Ok(Some(fault)),
        }
    }
}

/// A message that admits frames, and concerns no registry.
fn has_frames_in(msg: &UserMsg) -> bool
    ensures { result ≡ has_frames msg.now }
{
    matches!(msg, UserMsg::Log(_) | UserMsg::Overflow { .. })
}

/// How many Level events a message can owe at most: a context that comes has a slot of its own.
fn changes_of(msg: &UserMsg) -> u64
    ensures { result ≡ changes_by msg.now }
{
    match msg {
        UserMsg::RegisterContext { .. } => 1,
        UserMsg::Log(_)
        | UserMsg::RegisterApp { .. }
        | UserMsg::UnregisterApp { .. }
        | UserMsg::UnregisterContext { .. }
        | UserMsg::LogLevel { .. }
        | UserMsg::Injection { .. }
        | UserMsg::Overflow { .. } => 0,
    }
}

/// How many bytes the frame of a log message has; none where there is no message.
fn message_len(msg: Option<&UserMsg>) -> u64
    requires log { IfSome (option_copied msg) IsLog }
    ensures value { (ecu : List ℕ) → result ≡ size_of (message_frames ecu (option_to_list (option_copied msg.entry))) }
    ensures limit { result ≤ 1984 }
{
    match msg {
        Some(UserMsg::Log(message)) => message.all().len() as u64,
        Some(_) | None => 0,
    }
}
