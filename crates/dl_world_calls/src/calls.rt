//! The log calls and the claims of a script: what each writer, each ring and each count is after the lines so far.

ghost use Rattle.std.specs.Prelude.{◌≡◌, ◌≢◌, ℕ, List, ◌+◌, ◌++◌, ◌<◌, ◌≤◌, [], length, map, take, not, get_or, Some, None, OnOk, IfOk, IfSome, IsSome, IsSomeAnd, option_map};
ghost use Rattle.std.specs.List.{position};
ghost use Rattle.std.specs.Str.{bytes_eq};
ghost use Rattle.dl_bytes.specs.Claim.{Claimed};
ghost use Rattle.dl_bytes.specs.Id.{zero_id};
ghost use Rattle.dl_bytes.specs.declared.moment.Moment.{Moment};
ghost use Rattle.dl_events.specs.declared.event.Event.TheVariants as event;
ghost use Rattle.dl_events.specs.declared.record.Answer.TheVariants as answers;
ghost use Rattle.dl_script_model.specs.Marks.{Mark, HasApp, HasContext, HasWriter, Noted};
ghost use Rattle.dl_script_model.specs.Marks as marks;
ghost use Rattle.dl_script_model.specs.Steps.{just, push, count, finish, claim, announce, announce_all, is_held_back};
ghost use Rattle.dl_world_calls.specs.Stages.{call_of, no_arguments, filled};
ghost use Rattle.dl_world_calls.specs.State.{numbered, app_named, writer_of, owner_of, record_at, claim_at, named, next_held, next_item, next_claim, made_call, context_in, place_named, pusher, counter, announcer, unannounced_of};
ghost use Rattle.dl_world_calls.specs.Follows.{no_app, IsAfter, Does, Loads};

use crate::app::App;
use crate::queue::{Entry, OwnPlace};
use crate::writer::Writer;
use dl_bytes::{AppSpec, Bytes, Claim, Ctx, Id, Item, OutOfMemory, Payload, Sequence};
use dl_events::{Answer, ClaimList, Record, RecordList};
use dl_model::Slot;
use dl_script_model::{AppLine, CallLine, ClaimLine, ContextLine};
use std::alloc::Global;
use std::marker::Model;

/// The applications and the writers of a script, with their log calls and their claims.
#[derive(Drop)]
pub struct Calls {
    alloc: Global,
    apps: Vec<App>,
    writers: Vec<Writer>,
}

impl Model for Calls {
    ghost use Rattle.dl_world_calls.specs.State as state;

    ghost Value = { state.Calls };

    ghost view = { λ c. record { apps = c.apps.items; writers = c.writers.items } };

    ghost invariant = { λ c. state.Fits (record { apps = c.apps.items; writers = c.writers.items }) };
}

impl Calls {
    /// Nothing was declared.
    pub fn new(alloc: Global) -> Calls
        ensures after { IsAfter [] result }
        ensures value { result ≡ record { apps = []; writers = [] } }
    {
        Calls {
            alloc,
            apps: Vec::new(alloc),
            writers: Vec::new(alloc),
        }
    }

    /// The writer of this number, from 1.
    fn writer(&self, number: u8) -> Option<&Writer>
        ensures { option_map (λ r. r.now) result ≡ writer_of self.now number }
    {
        if number == 0 {
            return None;
        }
        self.writers.get(number as usize - 1)
    }

    /// The number of an application, from 0.
    pub fn number_of(&self, apid: Id) -> Option<u8>
        ensures number { result ≡ numbered self.now apid }
        ensures range { IfSome result (λ number. number < length self.now.apps) }
    {
        match number_in(&self.apps, apid) {
            Some(number) => Some(number as u8),
            None => None,
        }
    }

    /// The id of an application.
    pub fn apid(&self, app: u8) -> Id
        requires { app < length self.now.apps }
        ensures { result ≡ (get_or self.now.apps app no_app).spec.apid }
    {
        self.apps[app as usize].apid()
    }

    /// The number of a writer's application.
    pub fn owner(&self, writer: u8) -> Option<u8>
        ensures { result ≡ option_map (λ w. w.app) (writer_of self.now writer) }
    {
        match self.writer(writer) {
            Some(writer) => Some(writer.app()),
            None => None,
        }
    }

    /// How many calls and claims an application's ring holds.
    pub fn held(&self, app: u8) -> usize
        requires { app < length self.now.apps }
        ensures { (done : List Mark) → IsAfter done self.now → result ≡ marks.held_by app done }
    {
        self.apps[app as usize].held()
    }

    /// The application of the writer, where its call is to be pushed.
    fn pusher(&self, writer: u8) -> Option<u8>
        ensures { result ≡ pusher self.now writer }
    {
        let writer = self.writer(writer)?;
        if writer.is_to_push() {
            Some(writer.app())
        } else {
            None
        }
    }

    /// The application of the writer, where its call is to be counted.
    fn counter(&self, writer: u8) -> Option<u8>
        ensures { result ≡ counter self.now writer }
    {
        let writer = self.writer(writer)?;
        if writer.is_to_count() {
            Some(writer.app())
        } else {
            None
        }
    }

    /// The ring takes the writer's call that is to be pushed, unless it is full.
    #[inline(always)]
    pub fn push(&mut self, writer: u8) -> Result<(), OutOfMemory>
        ensures { OnOk result (Does (push writer) self.old self.new) }
    {
        match self.pusher(writer) {
            Some(app) => self.push_into(writer, app),
            None => Ok(()),
        }
    }

    /// The ring of the writer's application takes its call, or refuses it.
    fn push_into(&mut self, writer: u8, app: u8) -> Result<(), OutOfMemory>
        requires { pusher self.old writer ≡ Some app }
        ensures { OnOk result (Does (push writer) self.old self.new) }
    {
        let number = writer as usize - 1;
        let app = app as usize;
        if self.apps[app].is_full() {
            self.writers[number].refuse();
            return Ok(());
        }
        let place = self.writers[number].recorded();
        self.apps[app].queue(Entry::Call(OwnPlace { writer, place }))?;
        self.writers[number].queue();
        Ok(())
    }

    /// The writer's call that the ring refused is counted as lost.
    #[inline(always)]
    pub fn count(&mut self, writer: u8) -> Result<(), OutOfMemory>
        ensures { OnOk result (Does (count writer) self.old self.new) }
    {
        match self.counter(writer) {
            Some(app) => self.count_for(writer, app),
            None => Ok(()),
        }
    }

    /// The writer's call is counted for its application.
    fn count_for(&mut self, writer: u8, app: u8) -> Result<(), OutOfMemory>
        requires { counter self.old writer ≡ Some app }
        ensures { OnOk result (Does (count writer) self.old self.new) }
    {
        let number = writer as usize - 1;
        let place = self.writers[number].recorded();
        self.apps[app as usize].lose(Entry::Call(OwnPlace { writer, place }))?;
        self.writers[number].count();
        Ok(())
    }

    /// Declares an application.
    pub fn add_app(&mut self, app: &AppLine) -> Result<(), OutOfMemory>
        requires { length self.old.apps < 16 }
        ensures does { OnOk result (Does (just (HasApp app.now)) self.old self.new) }
        ensures apps { OnOk result (length self.new.apps ≡ length self.old.apps + 1) }
        ensures writers { self.new.writers ≡ self.old.writers }
    {
        let text = Vec::from_slice(self.alloc, app.text.all())?;
        let spec = AppSpec {
            apid: app.apid,
            capacity: app.capacity,
            text: Bytes::over(text),
        };
        self.apps.push(App::new(self.alloc, spec))?;
        Ok(())
    }

    /// Declares a context of an application that was declared.
    pub fn add_context(&mut self, context: &ContextLine) -> Result<(), OutOfMemory>
        requires { IsSomeAnd (app_named self.old context.now.apid) (λ app. length app.contexts + app.claimed < 64) }
        ensures { OnOk result (Does (just (HasContext context.now)) self.old self.new) }
    {
        match self.number_of(context.apid) {
            Some(number) => self.apps[number as usize].add_context(context.ctid),
            None => Ok(()),
        }
    }

    /// Declares a writer of an application that was declared.
    pub fn add_writer(&mut self, apid: Id) -> Result<(), OutOfMemory>
        requires known { IsSome (numbered self.old apid) }
        requires few { length self.old.writers < 32 }
        ensures { OnOk result (Does (just (HasWriter apid)) self.old self.new) }
    {
        if let Some(app) = self.number_of(apid) {
            self.writers.push(Writer::new(self.alloc, app, apid))?;
        }
        Ok(())
    }

    /// What an open call of the writer still needs: its push, and its count where the ring refuses it.
    #[inline(always)]
    pub fn finish(&mut self, writer: u8) -> Result<(), OutOfMemory>
        ensures { OnOk result (Does (finish writer) self.old self.new) }
    {
        self.push(writer)?;
        self.count(writer)
    }

    /// A writer claims the next place of its application for a context. The claim waits.
    pub fn claim(&mut self, asked: &ClaimLine) -> Result<(), OutOfMemory>
        requires room { IsSomeAnd (owner_of self.old asked.now.writer) (λ app. length app.contexts + app.claimed < 64) }
        requires named { asked.now.ctid ≢ zero_id }
        ensures { OnOk result (Does (claim asked.now) self.old self.new) }
    {
        let number = asked.writer as usize - 1;
        let app = self.writers[number].app();
        let place = self.apps[app as usize].next_place();
        let text = asked.text.copy();
        let claim = Claim::of(app, asked.writer, place, asked.ctid, asked.level, text);
        self.writers[number].add_claim(claim)?;
        self.apps[app as usize].claim_place();
        Ok(())
    }

    /// The application of the writer, where one of its claims waits.
    fn announcer(&self, writer: u8) -> Option<u8>
        ensures { result ≡ announcer self.now writer }
    {
        let writer = self.writer(writer)?;
        if writer.has_waiting_claim() {
            Some(writer.app())
        } else {
            None
        }
    }

    /// The ring takes the writer's first claim that waits, unless it is full. False where it was full.
    pub fn announce(&mut self, writer: u8) -> Result<bool, OutOfMemory>
        ensures does { OnOk result (Does (announce writer) self.old self.new) }
        ensures refused { IfOk result (λ went. (done : List Mark) → IsAfter done self.old → is_held_back (announce writer done) ≡ not went) }
    {
        match self.announcer(writer) {
            Some(app) => self.announce_to(writer, app),
            None => Ok(true),
        }
    }

    /// The ring of the writer's application takes its claim, or refuses it.
    fn announce_to(&mut self, writer: u8, app: u8) -> Result<bool, OutOfMemory>
        requires { announcer self.old writer ≡ Some app }
        ensures does { OnOk result (Does (announce writer) self.old self.new) }
        ensures refused { IfOk result (λ went. (done : List Mark) → IsAfter done self.old → is_held_back (announce writer done) ≡ not went) }
    {
        let number = writer as usize - 1;
        let app = app as usize;
        if self.apps[app].is_full() {
            return Ok(false);
        }
        let place = self.writers[number].announced();
        self.apps[app].queue(Entry::Claim(OwnPlace { writer, place }))?;
        self.writers[number].announce();
        Ok(true)
    }

    /// How many claims of a writer wait.
    fn unannounced(&self, writer: u8) -> usize
        ensures { result ≡ unannounced_of self.now writer }
    {
        match self.writer(writer) {
            Some(writer) => writer.unannounced(),
            None => 0,
        }
    }

    /// The ring takes the writer's claims that wait, one after the other, until it is full.
    pub fn announce_all(&mut self, writer: u8) -> Result<(), OutOfMemory>
        ensures { OnOk result (Does (announce_all writer) self.old self.new) }
    {
        let waiting = self.unannounced(writer);
        for _claim in 0..waiting {
            let went = self.announce(writer)?;
            if !went {
                return Ok(());
            }
        }
        Ok(())
    }

    /// The context that a call names.
    pub fn context_of(&self, call: &CallLine) -> Option<Ctx>
        ensures { result ≡ named self.now call.now }
    {
        let writer = self.writer(call.writer)?;
        context_in(&self.apps[writer.app() as usize], writer, call.ctid)
    }

    /// A writer that has no open call begins one: its load gives what its context's slot holds.
    pub fn load(&mut self, call: &CallLine, context: Ctx, seen: Slot) -> Result<(), OutOfMemory>
        requires { named self.old call.now ≡ Some context }
        ensures { OnOk result (Loads call.now context seen self.old self.new) }
    {
        let writer = &mut self.writers[call.writer as usize - 1];
        let number = writer.recorded() as u64 + 1;
        let mcnt = writer.mcnt();
        let record = loaded_call(call, context, seen, number, mcnt);
        writer.begin(record, &call.payload)
    }

    /// The call that the daemon takes next out of an application's ring, where a call is next.
    pub fn next_call(&self, app: u8) -> Option<&Item>
        requires { app < length self.now.apps }
        ensures { option_map (λ r. r.now) result ≡ next_item self.now app }
    {
        match self.apps[app as usize].first() {
            Some(Entry::Call(at)) => self.item(at),
            Some(Entry::Claim(_)) | None => None,
        }
    }

    /// The claim that the daemon takes next out of an application's ring, where a claim is next.
    pub fn next_claim(&self, app: u8) -> Option<&Claim>
        requires { app < length self.now.apps }
        ensures { option_map (λ c. c.now) result ≡ next_claim self.now app }
    {
        match self.apps[app as usize].first() {
            Some(Entry::Claim(at)) => self.claim_at(at),
            Some(Entry::Call(_)) | None => None,
        }
    }

    /// The call whose record is at a place.
    fn item(&self, at: OwnPlace) -> Option<&Item>
        ensures { option_map (λ r. r.now) result ≡ option_map (λ r. r.item) (record_at self.now.writers at) }
    {
        let record = self.writer(at.writer)?.record(at.place)?;
        Some(&record.item)
    }

    /// The claim at a place.
    fn claim_at(&self, at: OwnPlace) -> Option<&Claim>
        ensures { option_map (λ c. c.now) result ≡ claim_at self.now.writers at }
    {
        self.writer(at.writer)?.claim(at.place)
    }

    /// The daemon takes the next call or claim out of an application's ring, and notes it.
    pub fn take(&mut self, app: u8)
        requires { IsSome (next_held self.old app) }
        ensures call { (writer call : ℕ) (moment : Moment) → Does (just (Noted (event.Log app writer call moment))) self.old self.new }
        ensures claim { (claim : Claimed) (moment : Moment) → claim.app ≡ app → Does (just (Noted (event.Claim claim moment))) self.old self.new }
    {
        self.apps[app as usize].take_first();
    }

    /// How many lost calls of an application the daemon was not told of.
    pub fn pending(&self, app: u8) -> u64
        requires { app < length self.now.apps }
        ensures { (done : List Mark) → IsAfter done self.now → result ≡ marks.pending app done }
    {
        self.apps[app as usize].pending()
    }

    /// The daemon is told of an application's lost calls, and notes them.
    pub fn tell_losses(&mut self, app: u8)
        requires { app < length self.old.apps }
        ensures { (count : ℕ) (moment : Moment) → Does (just (Noted (event.Lost app count moment))) self.old self.new }
    {
        self.apps[app as usize].tell_losses();
    }

    /// How many applications were declared.
    pub fn apps(&self) -> u8
        ensures { result ≡ length self.now.apps }
    {
        self.apps.len() as u8
    }

    /// How many writers were declared.
    pub fn writers(&self) -> u8
        ensures value { result ≡ length self.now.writers }
        ensures range { result ≤ 32 }
    {
        self.writers.len() as u8
    }

    /// The records of each writer, its claims that its ring took, and the applications as they were declared.
    pub fn into_parts(self) -> Result<(RecordList, ClaimList, Sequence<AppSpec>), OutOfMemory>
        ensures records { IfOk result (λ parts. parts.0 ≡ map (λ writer. writer.records) self.writers) }
        ensures claims { IfOk result (λ parts. parts.1 ≡ map (λ writer. take writer.announced writer.claims) self.writers) }
        ensures specs { IfOk result (λ parts. parts.2 ≡ map (λ app. app.spec) self.apps) }
    {
        let Calls {
            alloc,
            apps,
            writers,
        } = self;
        let (records, claims) = parts_of(writers);
        Ok((records, claims, Sequence::over(specs_of(alloc, apps)?)))
    }
}

/// The context of a writer's application that has this id.
fn context_in(app: &App, writer: &Writer, ctid: Id) -> Option<Ctx>
    requires { writer.now.app < 16 }
    ensures { result ≡ context_in app.now writer.now ctid }
{
    match place_named(app, writer, ctid) {
        Some(place) => Some(Ctx::of(writer.app(), place, writer.apid(), ctid)),
        None => None,
    }
}

/// The place that an id names in a call of a writer: that of its last claim of the id, or else that of the context that was declared.
fn place_named(app: &App, writer: &Writer, ctid: Id) -> Option<u8>
    ensures place { result ≡ place_named app.now writer.now ctid }
    ensures range { IfSome result (λ place. place < 64) }
{
    match writer.claimed_place(ctid) {
        Some(place) => Some(place),
        None => app.place_of(ctid),
    }
}

/// The number of the first application that has this id.
fn number_in(apps: &[App], apid: Id) -> Option<usize>
    ensures value { result ≡ position (λ app. bytes_eq app.spec.apid apid) apps.now }
    ensures within { IfSome result (λ number. number < length apps.now) }
{
    apps.iter().position(|app| app.is_named(apid))
}

/// The record of the call that a load makes of a line: its writer's call of this number and with this message counter. It has
/// no argument yet, and its answer stands only where its level filters it.
fn loaded_call(call: &CallLine, context: Ctx, seen: Slot, number: u64, mcnt: u8) -> Record
    ensures call { call_of (filled result call.now.payload) ≡ made_call call.now context seen number mcnt }
    ensures answer { result.answer ≡ answers.Filtered }
    ensures empty { result.item.payload ≡ no_arguments }
{
    Record {
        item: Item {
            app: context.app(),
            writer: call.writer,
            call: number,
            apid: context.apid(),
            ctid: call.ctid,
            severity: call.severity,
            at: call.at,
            mcnt,
            payload: Payload::new(),
        },
        slot: context.slot(),
        version: seen.version,
        held: seen.level,
        answer: Answer::Filtered,
    }
}

/// The records of writers, in their order, and the claims that rings took of them.
fn parts_of(writers: Vec<Writer>) -> (RecordList, ClaimList)
    requires { length writers.items ≤ 32 }
    ensures records { result.0 ≡ map (λ writer. writer.records) writers.items }
    ensures claims { result.1 ≡ map (λ writer. take writer.announced writer.claims) writers.items }
{
    let mut records = RecordList::none();
    let mut claims = ClaimList::none();
    for writer in writers {
        let (recorded, announced) = writer.into_parts();
        records.add(recorded);
        claims.add(announced);
    }
    (records, claims)
}

/// Applications as they were declared.
fn specs_of(alloc: Global, apps: Vec<App>) -> Result<Vec<AppSpec>, OutOfMemory>
    ensures { IfOk result (λ specs. specs.items ≡ map (λ app. app.spec) apps.items) }
{
    let mut specs = Vec::with_capacity(alloc, apps.len())?;
    for app in apps {
        specs.push(app.into_spec())?;
    }
    Ok(specs)
}
