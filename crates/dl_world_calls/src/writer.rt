//! One writer: the call that it has begun, the records of its calls before, and its claims.

ghost use Rattle.std.specs.Prelude.{◌≡◌, ◌<◌, ◌≤◌, ◌^◌, ◌+◌, ◌-◌, ◌++◌, ◌∷◌, [], None, length, take, is_some, option_map, slice_get, OnOk, IfSome, IsSomeAnd};
ghost use Rattle.dl_script_model.specs.Marks.{recorded};
ghost use Rattle.dl_world_calls.specs.State.{new_writer, begun, answered, turned_away, claimed_place};
ghost use Rattle.dl_world_calls.specs.Stages.{call_of, no_arguments, filled};
ghost use Rattle.dl_events.specs.declared.record.Answer.TheVariants as answers;

use dl_bytes::{Claim, Id, OutOfMemory, Payload};
use dl_events::{Answer, Record};
use dl_script_model::CallArguments;
use std::alloc::Global;
use std::marker::Model;

/// What a writer's last call still needs.
#[derive(Clone, Copy, PartialEq, Eq)]
pub enum Stage {
    /// Nothing: no call is open.
    Idle,
    /// Its push.
    ToPush,
    /// Its count, since the ring refused it.
    ToCount,
}

/// A writer of an application. Its open call lies behind the records of the calls before, as a record whose answer does not
/// stand yet.
#[derive(Drop)]
pub struct Writer {
    app: u8,
    apid: Id,
    passed: u8,
    stage: Stage,
    records: Vec<Record>,
    claims: Vec<Claim>,
    announced: usize,
}

impl Model for Writer {
    ghost use Rattle.dl_world_calls.specs.State as state;
    ghost use Rattle.std.specs.Prelude.{◌≤◌, length};
    ghost use Rattle.dl_world_calls.specs.Stages.{open_in, answered_in, push_of, count_of};

    ghost Value = { state.Writer };

    ghost view = { λ w. record {
      app = w.app;
      apid = w.apid;
      passed = w.passed;
      to_push = push_of w.stage w.records.items;
      to_count = count_of w.stage w.records.items;
      records = answered_in w.stage w.records.items;
      claims = w.claims.items;
      announced = w.announced;
    } };

    ghost invariant = { λ w. (open_in w.stage ≤ length w.records.items) × (w.announced ≤ length w.claims.items) };
}

impl Writer {
    /// A writer of the application of this number and id, without calls.
    pub fn new(alloc: Global, app: u8, apid: Id) -> Writer
        ensures { result ≡ new_writer app apid }
    {
        Writer {
            app,
            apid,
            passed: 0,
            stage: Stage::Idle,
            records: Vec::new(alloc),
            claims: Vec::new(alloc),
            announced: 0,
        }
    }

    /// Its application's number.
    pub fn app(&self) -> u8
        ensures { result ≡ self.now.app }
    {
        self.app
    }

    /// Its application's id.
    pub fn apid(&self) -> Id
        ensures { result ≡ self.now.apid }
    {
        self.apid
    }

    /// The message counter of its next call.
    pub fn mcnt(&self) -> u8
        ensures { result ≡ self.now.passed }
    {
        self.passed
    }

    /// How many of its calls are recorded.
    pub fn recorded(&self) -> usize
        ensures value { result ≡ length self.now.records }
        ensures limit { result < 2 ^ 63 }
    {
        match self.stage {
            Stage::Idle => self.records.len(),
            _ => self.records.len() - 1,
        }
    }

    /// The record at a place, from 0.
    pub fn record(&self, place: usize) -> Option<&Record>
        ensures { option_map (λ r. r.now) result ≡ slice_get self.now.records place }
    {
        self.records[..self.recorded()].get(place)
    }

    /// All its records, and the claims that its ring took.
    pub fn into_parts(self) -> (Vec<Record>, Vec<Claim>)
        ensures records { result.0.items ≡ self.records }
        ensures claims { result.1.items ≡ take self.announced self.claims }
    {
        let recorded = self.recorded();
        let Writer {
            mut records,
            mut claims,
            announced,
            ..
        } = self;
        records.truncate(recorded);
        claims.truncate(announced);
        (records, claims)
    }

    /// How many of its claims its ring took.
    pub fn announced(&self) -> usize
        ensures value { result ≡ self.now.announced }
        ensures limit { self.now.announced ≤ length self.now.claims }
    {
        self.announced
    }

    /// How many of them wait.
    pub fn unannounced(&self) -> usize
        ensures { result ≡ length self.now.claims - self.now.announced }
    {
        self.claims.len() - self.announced
    }

    /// Whether one waits.
    pub fn has_waiting_claim(&self) -> bool
        ensures { result ≡ is_some (slice_get self.now.claims self.now.announced) }
    {
        self.claims.get(self.announced).is_some()
    }

    /// The claim at a place, from 0.
    pub fn claim(&self, place: usize) -> Option<&Claim>
        ensures { option_map (λ c. c.now) result ≡ slice_get self.now.claims place }
    {
        self.claims.get(place)
    }

    /// The place of its last claim of this id.
    pub fn claimed_place(&self, ctid: Id) -> Option<u8>
        ensures place { result ≡ claimed_place self.now.claims ctid }
        ensures range { IfSome result (λ place. place < 64) }
    {
        let claim = self.claims.iter().rev().find(|claim| claim.ctid() == ctid)?;
        Some(claim.place())
    }

    /// It makes a claim, which waits.
    pub fn add_claim(&mut self, claim: Claim) -> Result<(), OutOfMemory>
        ensures made { OnOk result (self.new ≡ record self.old { claims = self.old.claims ++ claim ∷ [] }) }
        ensures app { self.new.app ≡ self.old.app }
    {
        self.claims.push(claim)?;
        Ok(())
    }

    /// The ring took its first claim that waits.
    pub fn announce(&mut self)
        requires { self.old.announced < length self.old.claims }
        ensures { self.new ≡ record self.old { announced = self.old.announced + 1 } }
    {
        self.announced += 1;
    }

    /// Whether its call is to be pushed.
    pub fn is_to_push(&self) -> bool
        ensures { result ≡ is_some self.now.to_push }
    {
        matches!(self.stage, Stage::ToPush)
    }

    /// Whether its call is to be counted.
    pub fn is_to_count(&self) -> bool
        ensures { result ≡ is_some self.now.to_count }
    {
        matches!(self.stage, Stage::ToCount)
    }

    /// Begins the call of this record with these arguments, where no other is open: its level lets it through, or filters it.
    pub fn begin(&mut self, call: Record, arguments: &CallArguments) -> Result<(), OutOfMemory>
        requires answer { call.answer ≡ answers.Filtered }
        requires empty { call.item.payload ≡ no_arguments }
        ensures made { OnOk result (self.old.to_push ≡ None → self.old.to_count ≡ None → self.new ≡ begun self.old (call_of (filled call arguments.now))) }
        ensures app { self.new.app ≡ self.old.app }
    {
        let passes = call.held.passes(call.item.severity);
        push_filled(&mut self.records, call, arguments)?;
        if passes {
            self.passed = self.passed.wrapping_add(1);
            self.stage = Stage::ToPush;
        }
        Ok(())
    }

    /// The ring took its call.
    pub fn queue(&mut self)
        ensures made { self.new ≡ answered self.old answers.Queued self.old.to_push }
        ensures app { self.new.app ≡ self.old.app }
    {
        if self.is_to_push() {
            answer_last(&mut self.records, Answer::Queued);
            self.stage = Stage::Idle;
        }
    }

    /// The ring refused its call.
    pub fn refuse(&mut self)
        ensures { self.new ≡ turned_away self.old self.old.to_push }
    {
        if self.is_to_push() {
            self.stage = Stage::ToCount;
        }
    }

    /// Its call is counted as lost.
    pub fn count(&mut self)
        ensures made { self.new ≡ answered self.old answers.Lost self.old.to_count }
        ensures app { self.new.app ≡ self.old.app }
    {
        if self.is_to_count() {
            answer_last(&mut self.records, Answer::Lost);
            self.stage = Stage::Idle;
        }
    }
}

/// Adds a record with these arguments. They are filled in where it lies in the list: a payload that is made apart is moved
/// there as a whole, with all that it has room for.
fn push_filled(
    records: &mut Vec<Record>,
    call: Record,
    arguments: &CallArguments,
) -> Result<(), OutOfMemory>
    requires { call.item.payload ≡ no_arguments }
    ensures added { OnOk result (records.new.items ≡ records.old.items ++ filled call arguments.now ∷ []) }
    ensures none_less { length records.old.items ≤ length records.new.items }
{
    let place = records.len();
    records.push(call)?;
    let last = &mut records[place];
    fill(&mut last.item.payload, arguments);
    Ok(())
}

/// Fills an empty payload with arguments.
fn fill(payload: &mut Payload, arguments: &CallArguments)
    requires { payload.old ≡ no_arguments }
    ensures { payload.new ≡ arguments.now }
{
    payload.extend_from_slice(arguments.bytes());
    for _argument in 0..arguments.args() {
        payload.count_argument();
    }
}

/// The answer of the last record stands.
fn answer_last(records: &mut Vec<Record>, answer: Answer)
    requires { 1 ≤ length records.old.items }
    ensures { IsSomeAnd (slice_get records.old.items (length records.old.items - 1)) (λ last. records.new.items ≡ take (length records.old.items - 1) records.old.items ++ recorded (call_of last) answer ∷ []) }
{
    let last = records.len() - 1;
    records[last].answer = answer;
}
