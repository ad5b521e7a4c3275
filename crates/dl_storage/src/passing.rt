//! Which log calls pass a filter.

ghost use Rattle.std.specs.Prelude.{◌≡◌, ℕ, List, option_map};
ghost use Rattle.dl_model.specs.Frames.{stored};
ghost use Rattle.dl_message.specs.Frames.{log_message};
ghost use Rattle.dl_storage.specs.Passing.{frame_for, is_meant, passes_filter, passing};

use crate::Filter;
use crate::calls::Calls;
use dl_bytes::{Id, Item, Moment};
use dl_events::{Event, Record};

/// A log call that passes, and when it came.
#[derive(Clone, Copy)]
pub struct PassingCall<'r> {
    /// The call.
    pub item: &'r Item,
    /// When it was admitted.
    pub moment: Moment,
}

/// Whether an id is the one that is wanted; where none is, each is.
fn is_meant(wanted: Option<Id>, id: Id) -> bool
    ensures { result ≡ is_meant wanted id }
{
    match wanted {
        None => true,
        Some(wanted) => id == wanted,
    }
}

/// Whether a log call passes a filter.
fn passes(filter: &Filter, item: &Item) -> bool
    ensures { result ≡ passes_filter filter.now item.now }
{
    is_meant(filter.apid, item.apid)
        && is_meant(filter.ctid, item.ctid)
        && item.severity.number() <= filter.severity.number()
}

/// The call of a record, where it passes.
fn passing<'r>(filter: &Filter, call: &'r Record, moment: Moment) -> Option<PassingCall<'r>>
    ensures { (ecu : List ℕ) → option_map (λ c. stored ecu c.moment (log_message ecu c.item.now)) result ≡ passing ecu filter.now moment call.now }
{
    if passes(filter, &call.item) {
        Some(PassingCall {
            item: &call.item,
            moment,
        })
    } else {
        None
    }
}

/// The log call of an event, where it passes a filter.
pub fn passing_call<'r>(
    filter: &Filter,
    calls: &Calls<'r>,
    event: &Event,
) -> Option<PassingCall<'r>>
    ensures { (ecu : List ℕ) → option_map (λ c. stored ecu c.moment (log_message ecu c.item.now)) result ≡ frame_for ecu filter.now calls.now.records.now event.now }
{
    match event {
        Event::Log {
            writer,
            call,
            moment,
            ..
        } => passing(filter, calls.record_of(*writer, *call)?, *moment),
        Event::Lost { .. }
        | Event::User { .. }
        | Event::Claim { .. }
        | Event::Level { .. }
        | Event::Connect { .. }
        | Event::Request { .. }
        | Event::Close { .. } => None,
    }
}
