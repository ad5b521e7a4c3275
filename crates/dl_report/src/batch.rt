//! The frames that an event admits, by how many they are and how many bytes each has.

ghost use Rattle.std.specs.Prelude.{◌≡◌, ◌+◌, ◌^◌, ◌≤◌, ◌<◌, ℕ, List, length, option_map};
ghost use Rattle.dl_bytes.specs.Id.{zero_id};
ghost use Rattle.dl_message.specs.Frames.{log_message};
ghost use Rattle.dl_model.specs.Accounts.{AreNumbered};
ghost use Rattle.dl_model.specs.Frames.{frames_of, user_frames};
ghost use Rattle.dl_model.specs.Overflow.{overflow_frames};
ghost use Rattle.dl_model.specs.Setting.{Setting};
ghost use Rattle.dl_model.specs.WholeAccounts.{apid_in, frame_of_record, record_named, records_by, source_of_records};
ghost use Rattle.dl_report.specs.Batches.{IsBatch};
ghost use Rattle.dl_report.specs.Losses.{told_in};

use dl_bytes::{AppSpec, COUNTER_LIMIT, Id, Item, UserMsg};
use dl_events::{Event, Record, RecordList};

/// How many bytes the frame of a log call has beside its three ids and its payload.
const LOG_FIELDS: usize = 14;

/// How many bytes an overflow record has beside the ids of the control unit and of the application.
const OVERFLOW_FIELDS: usize = 20;

/// So many frames, each of the same size.
#[derive(Clone, Copy, PartialEq, Eq)]
pub struct Batch {
    /// How many frames there are.
    pub frames: u64,
    /// How many bytes each of them has.
    pub size: u64,
}

/// No frame.
const NONE: Batch = Batch { frames: 0, size: 0 };

/// What the frames of events are made of: the records of all writers, the applications by their numbers, and the control unit.
#[derive(Drop)]
pub struct Sources<'r, 's> {
    /// The records of log calls.
    pub records: &'r RecordList,
    /// The applications.
    pub specs: &'s [AppSpec],
    /// The id of the control unit.
    pub ecu: Id,
}

/// The record of a writer's call, by its number from 1.
pub fn record_of(records: &RecordList, writer: u8, call: u64) -> Option<&Record>
    requires { (number : ℕ) → AreNumbered (records_by number records.now) }
    ensures { option_map (λ r. r.now) result ≡ record_named records.now writer call }
{
    if writer == 0 || writer > records.writers() {
        return None;
    }
    let place = call.checked_sub(1)?;
    records.of(writer).get(place as usize)
}

/// How many bytes the frame of a log call has.
fn log_len(ecu: Id, item: &Item) -> u64
    ensures { result ≡ length (log_message ecu item.now) }
{
    let ids = ecu.bytes().len() + item.apid.bytes().len() + item.ctid.bytes().len();
    (LOG_FIELDS + ids + item.payload.bytes().len()) as u64
}

/// How many bytes the frame of a writer's call has; none where the call has no record.
fn frame_len(sources: &Sources<'_, '_>, writer: u8, call: u64) -> u64
    requires { (number : ℕ) → AreNumbered (records_by number sources.now.records.now) }
    ensures { result ≡ length (frame_of_record sources.now.ecu sources.now.records.now writer call) }
{
    match record_of(sources.records, writer, call) {
        Some(record) => log_len(sources.ecu, &record.item),
        None => 0,
    }
}

/// How many bytes the id of an application has; none where nobody declared it.
fn apid_len(specs: &[AppSpec], app: u8) -> usize
    ensures value { result ≡ length (apid_in specs.now app) }
    ensures limit { result ≤ 4 }
{
    match specs.get(app as usize) {
        Some(spec) => spec.apid.bytes().len(),
        None => 0,
    }
}

/// The records that report so many lost messages of an application whose id has so many bytes.
pub fn reports(ecu: Id, apid_len: usize, count: u64) -> Batch
    requires { apid_len ≤ 4 }
    ensures batch { (apid : List ℕ) → length apid ≡ apid_len → IsBatch result (overflow_frames ecu apid zero_id count) }
    ensures few { result.frames ≤ count }
    ensures one { count < 2 ^ 32 → result.frames ≤ 1 }
{
    Batch {
        frames: count.div_ceil(COUNTER_LIMIT),
        size: (OVERFLOW_FIELDS + ecu.bytes().len() + apid_len) as u64,
    }
}

/// The frames that a user message admits.
fn of_message(ecu: Id, msg: &UserMsg) -> Batch
    ensures batch { IsBatch result (user_frames ecu msg.now) }
    ensures one { result.frames ≤ 1 }
{
    match msg {
        UserMsg::Log(message) => Batch {
            frames: 1,
            size: message.all().len() as u64,
        },
        UserMsg::Overflow { counter, apid } => reports(ecu, apid.bytes().len(), *counter as u64),
        UserMsg::RegisterApp { .. }
        | UserMsg::UnregisterApp { .. }
        | UserMsg::RegisterContext { .. }
        | UserMsg::UnregisterContext { .. }
        | UserMsg::LogLevel { .. }
        | UserMsg::Injection { .. } => NONE,
    }
}

/// The frames that an event admits.
pub fn admitted_by(sources: &Sources<'_, '_>, event: &Event) -> Batch
    requires { (number : ℕ) → AreNumbered (records_by number sources.now.records.now) }
    ensures few { result.frames ≤ 1 + told_in event.now }
    ensures batch { (setting : Setting) → setting.ecu ≡ sources.now.ecu → IsBatch result (frames_of (source_of_records setting sources.now.records.now sources.now.specs.now) event.now) }
{
    match event {
        Event::Log { writer, call, .. } => Batch {
            frames: 1,
            size: frame_len(sources, *writer, *call),
        },
        Event::Lost { app, count, .. } => {
            reports(sources.ecu, apid_len(sources.specs, *app), *count)
        }
        Event::User { msg, .. } => of_message(sources.ecu, msg),
        Event::Claim { .. }
        | Event::Level { .. }
        | Event::Connect { .. }
        | Event::Request { .. }
        | Event::Close { .. } => NONE,
    }
}
