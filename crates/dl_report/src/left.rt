//! The backlog that is left after a journal.

ghost use Rattle.std.specs.Prelude.{◌≡◌, ◌<◌, ◌^◌, ◌++◌, ◌∷◌, [], ℕ, List};
ghost use Rattle.dl_events.specs.declared.event.Event.{Event};
ghost use Rattle.dl_model.specs.Accounts.{AreNumbered};
ghost use Rattle.dl_model.specs.Backlog.{left};
ghost use Rattle.dl_model.specs.ClientStream.{traffic};
ghost use Rattle.dl_model.specs.Setting.{Setting};
ghost use Rattle.dl_model.specs.WholeAccounts.{records_by, source_of_records};
ghost use Rattle.dl_report.specs.Clients.{ComeAndGo, MayComeOrGo};
ghost use Rattle.dl_report.specs.Losses.{told};
ghost use Rattle.dl_report.specs.Following.{IsAfter, MayNote};

use crate::batch::{Sources, admitted_by};
use crate::waiting::Waiting;
use dl_bytes::{AppSpec, Backlog, Id};
use dl_events::{Event, RecordList};

/// Notes what an event is for the backlog.
pub fn note(waiting: &mut Waiting, sources: &Sources<'_, '_>, event: &Event)
    requires numbered { (number : ℕ) → AreNumbered (records_by number sources.now.records.now) }
    requires may { MayNote event.now waiting.old }
    ensures limit { waiting.new.limit ≡ waiting.old.limit }
    ensures after { (events : List Event) → MayComeOrGo events event.now → IsAfter sources.now events waiting.old → IsAfter sources.now (events ++ event.now ∷ []) waiting.new }
{
    match event {
        Event::Connect { .. } => waiting.come(),
        Event::Close { .. } => waiting.go(),
        Event::Log { .. }
        | Event::Lost { .. }
        | Event::User { .. }
        | Event::Claim { .. }
        | Event::Level { .. }
        | Event::Request { .. } => waiting.admit(admitted_by(sources, event)),
    }
}

/// What waits for the next client at the end of these events, where the buffer keeps so many bytes: nothing where a client
/// is open. The records give the frames of the log calls, the applications those of their losses.
///
/// It goes through the events once, and takes no memory.
pub fn left_of(
    records: &RecordList,
    events: &[Event],
    specs: &[AppSpec],
    ecu: Id,
    buffer: u32,
) -> Backlog
    requires numbered { (writer : ℕ) → AreNumbered (records_by writer records.now) }
    requires clients { ComeAndGo events.now }
    requires losses { told events.now < 2 ^ 63 }
    ensures { (setting : Setting) → setting.ecu ≡ ecu → result ≡ left buffer (traffic (source_of_records setting records.now specs.now) events.now) }
{
    let sources = Sources {
        records,
        specs,
        ecu,
    };
    let mut waiting = Waiting::new(buffer);
    for event in events {
        note(&mut waiting, &sources, event);
    }
    waiting.backlog
}
