//! Frames as they are admitted: each goes to the clients or into the backlog, and into the trace.

ghost use Rattle.std.specs.Prelude.{◌≡◌, ◌≤◌, ◌<◌, ◌+◌, ◌++◌, ◌^◌, ◌-◌, ◌∷◌, [], ℕ, List, length, map};
ghost use Rattle.std.specs.List.{AllByRecursion};
ghost use Rattle.dl_message.specs.Frames.{log_message};
ghost use Rattle.dl_model.specs.Backlog.{size_of};
ghost use Rattle.dl_model.specs.Frames.{stored, user_frames};
ghost use Rattle.dl_model.specs.Traffic.{Admitted};
ghost use Rattle.dl_bytes.specs.Limits.{admitted_limit, frame_limit};
ghost use Rattle.dl_hub.specs.State.{EachHasRoom, IsSameHub, is_open, replies_of};
ghost use Rattle.dl_hub.specs.Follows.{Adds};
ghost use Rattle.dl_core.specs.Admission.{log_event, lost_frames, message_frames, more_noted, user_event, Admits, AddsEach, IsLog};
ghost use Rattle.dl_core.specs.Noting.{TakesIn};
ghost use Rattle.dl_trace.specs.Written.{StoresIn, ChangesTraceAlone};
ghost use Rattle.dl_trace.specs.Writer.{HasBatch, trace_in};

use circular_buffer::HeapCircularBuffer;
use dl_bytes::{COUNTER_LIMIT, Frame, Id, Item, Moment, UserMsg};
use dl_events::{Event, Journal};
use dl_hub::Hub;
use dl_message::{overflow_frame, write_log_frame};
use dl_outside::Folder;
use dl_trace::{TraceWriter, add_to_batch, store};

/// The id that names nothing.
const NO_ID: [u8; 4] = [0; 4];

/// How many bytes the frame of a log call has beside its three ids and its payload.
const LOG_FIELDS: usize = 14;

/// How many bytes an overflow record has beside the id of the control unit.
const OVERFLOW_FIELDS: usize = 24;

/// How many bytes the frame of a log call has.
pub fn log_len(ecu: Id, item: &Item) -> u64
    ensures value { result ≡ length (log_message ecu item.now) }
    ensures limit { result ≤ 1416 }
{
    let ids = ecu.bytes().len() + item.apid.bytes().len() + item.ctid.bytes().len();
    (LOG_FIELDS + ids + item.payload.bytes().len()) as u64
}

/// How many bytes the records have that report so many lost calls, whatever the application.
pub fn lost_len(ecu: Id, count: u64) -> u64
    ensures { (apid : List ℕ) → length apid ≡ 4 → result ≡ size_of (lost_frames ecu apid count) }
{
    let record = OVERFLOW_FIELDS + ecu.bytes().len();
    count.div_ceil(COUNTER_LIMIT) * record as u64
}

/// The event of a log call.
pub fn logged(item: &Item, moment: Moment) -> Event
    ensures { result ≡ log_event moment item.now }
{
    Event::Log {
        app: item.app,
        writer: item.writer,
        call: item.call,
        moment,
    }
}

/// Admits a frame.
pub fn admit<F: Folder>(
    hub: &mut Hub,
    writer: &mut Option<TraceWriter>,
    ecu: Id,
    moment: Moment,
    frame: &[u8],
    folder: &mut F,
)
    requires some { 4 ≤ length frame.now }
    requires size { length frame.now ≤ frame_limit }
    requires room { EachHasRoom (length frame.now) hub.old }
    requires few { hub.old.admitted < admitted_limit }
    ensures adds { Adds (Admitted frame.now) hub.old hub.new }
    ensures rooms { (more : ℕ) → EachHasRoom (length frame.now + more) hub.old → EachHasRoom more hub.new }
    ensures same { IsSameHub hub.old hub.new }
    ensures open { map is_open hub.new.clients ≡ map is_open hub.old.clients }
    ensures replies { replies_of hub.new ≡ replies_of hub.old }
    ensures admitted { hub.new.admitted ≡ hub.old.admitted + 1 }
    ensures stored { StoresIn (stored ecu moment frame.now ∷ []) (trace_in writer.old) (trace_in writer.new) (F.told folder.old) (F.told folder.new) }
    ensures others { ChangesTraceAlone (trace_in writer.old) (F.told folder.old) (F.told folder.new) }
{
    hub.admit(frame);
    store(writer, ecu, moment, frame, folder);
}

/// Admits the records that report so many lost messages of an application, one after the other.
pub fn report<F: Folder>(
    hub: &mut Hub,
    writer: &mut Option<TraceWriter>,
    ecu: Id,
    apid: Id,
    count: u64,
    moment: Moment,
    folder: &mut F,
)
    requires room { EachHasRoom (size_of (lost_frames ecu apid count)) hub.old }
    requires few { hub.old.admitted + length (lost_frames ecu apid count) ≤ admitted_limit }
    ensures { TakesIn ecu moment (lost_frames ecu apid count) hub.old hub.new (trace_in writer.old) (trace_in writer.new) (F.told folder.old) (F.told folder.new) }
{
    let mut left = count;
    while left > 0 {
        let counter = left.min(COUNTER_LIMIT);
        let frame = overflow_frame(ecu, apid, Id::from_bytes(NO_ID), counter as u32);
        admit(hub, writer, ecu, moment, frame.bytes(), folder);
        left -= counter;
    }
}

/// Admits and notes log calls, and gathers their frames for the trace. Each is written into `frame` in turn.
pub fn admit_each<J: Journal>(
    hub: &mut Hub,
    writer: &mut Option<TraceWriter>,
    ecu: Id,
    moment: Moment,
    items: &[Item],
    frame: &mut Frame,
    journal: &mut J,
)
    requires few_items { length items.now ≤ 64 }
    requires spare { length items.now ≤ J.spare journal.old }
    requires room { EachHasRoom (size_of (map (log_message ecu) items.now)) hub.old }
    requires few { hub.old.admitted + length items.now ≤ admitted_limit }
    requires empty { HasBatch [] writer.old }
    ensures adds { Admits (map (log_message ecu) items.now) hub.old hub.new }
    ensures same { IsSameHub hub.old hub.new }
    ensures open { map is_open hub.new.clients ≡ map is_open hub.old.clients }
    ensures replies { replies_of hub.new ≡ replies_of hub.old }
    ensures admitted { hub.new.admitted ≡ hub.old.admitted + length items.now }
    ensures trace { trace_in writer.new ≡ trace_in writer.old }
    ensures batch { HasBatch (map (λ item. stored ecu moment (log_message ecu item)) items.now) writer.new }
    ensures events { AddsEach (J.events journal.old) (J.events journal.new) (map (log_event moment) items.now) }
    ensures noted { J.noted journal.new ≡ more_noted (length items.now) (J.noted journal.old) }
    ensures spare { J.spare journal.new + length items.now ≡ J.spare journal.old }
{
    for item in items {
        write_log_frame(frame, ecu, item);
        let bytes = frame.bytes();
        hub.admit(bytes);
        add_to_batch(writer, ecu, moment, bytes);
        journal.note(logged(item, moment));
    }
}

/// The frame of a log message of a program.
fn frame_of(msg: &UserMsg) -> &[u8]
    requires log { IsLog msg.now }
    ensures frame { (ecu : List ℕ) → user_frames ecu msg.now ≡ result.now ∷ [] }
    ensures some { 4 ≤ length result.now }
    ensures size { length result.now ≤ frame_limit }
{
    match msg {
        UserMsg::Log(message) => message.all(),
        UserMsg::RegisterApp { .. }
        | UserMsg::UnregisterApp { .. }
        | UserMsg::RegisterContext { .. }
        | UserMsg::UnregisterContext { .. }
        | UserMsg::LogLevel { .. }
        | UserMsg::Injection { .. }
        | UserMsg::Overflow { .. } => unreachable!(),
    }
}

/// Admits and notes log messages of a channel, and gathers their frames for the trace. None is left.
pub fn admit_messages<J: Journal>(
    hub: &mut Hub,
    writer: &mut Option<TraceWriter>,
    ecu: Id,
    channel: u16,
    moment: Moment,
    msgs: &mut HeapCircularBuffer<UserMsg>,
    journal: &mut J,
)
    requires few_messages { length msgs.old.items ≤ 64 }
    requires logs { AllByRecursion IsLog msgs.old.items }
    requires spare { length msgs.old.items ≤ J.spare journal.old }
    requires room { EachHasRoom (size_of (message_frames ecu msgs.old.items)) hub.old }
    requires few { hub.old.admitted + length msgs.old.items ≤ admitted_limit }
    requires empty { HasBatch [] writer.old }
    ensures adds { Admits (message_frames ecu msgs.old.items) hub.old hub.new }
    ensures same { IsSameHub hub.old hub.new }
    ensures open { map is_open hub.new.clients ≡ map is_open hub.old.clients }
    ensures replies { replies_of hub.new ≡ replies_of hub.old }
    ensures admitted { hub.new.admitted ≡ hub.old.admitted + length msgs.old.items }
    ensures trace { trace_in writer.new ≡ trace_in writer.old }
    ensures batch { HasBatch (map (stored ecu moment) (message_frames ecu msgs.old.items)) writer.new }
    ensures events { AddsEach (J.events journal.old) (J.events journal.new) (map (user_event moment channel) msgs.old.items) }
    ensures noted { J.noted journal.new ≡ more_noted (length msgs.old.items) (J.noted journal.old) }
    ensures spare { J.spare journal.new + length msgs.old.items ≡ J.spare journal.old }
    ensures none { msgs.new ≡ record msgs.old { items = [] } }
{
    while let Some(msg) = msgs.pop_front() {
        let frame = frame_of(&msg);
        hub.admit(frame);
        add_to_batch(writer, ecu, moment, frame);
        journal.note(Event::User {
            channel,
            msg,
            moment,
        });
    }
}
