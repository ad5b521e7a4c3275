//! Log calls that were taken from their rings.

ghost use Rattle.std.specs.Prelude.{◌≡◌, ◌≤◌, ◌<◌, ◌+◌, ◌∷◌, [], None, count_by, length};
ghost use Rattle.dl_bytes.specs.Limits.{admitted_limit};
ghost use Rattle.dl_registry.specs.Kept.{owed_change};
ghost use Rattle.dl_hub.specs.State.{is_open};
ghost use Rattle.dl_admission.specs.Admission.{Logs, Uses};
ghost use Rattle.dl_admission.specs.Part.{part};

use crate::slow::close_slow;
use dl_bytes::{Item, Moment};
use dl_core::Core;
use dl_events::Journal;
use dl_outside::Folder;

/// Notes log calls of one moment, at most 64, and admits their frames; before each of them, clients that are too slow for its frame are
/// closed. Where every client has room for all of them, the trace stores them together.
pub fn log_items<F: Folder, J: Journal>(
    core: &mut Core,
    journal: &mut J,
    items: &[Item],
    moment: Moment,
    folder: &mut F,
)
    requires few_items { length items.now ≤ 64 }
    requires settled { owed_change core.old.registry ≡ None }
    requires spare { count_by is_open core.old.hub.clients + length items.now ≤ J.spare journal.old }
    requires few { core.old.hub.admitted + length items.now ≤ admitted_limit }
    ensures logs { Logs moment items.now (part core.old (J.events journal.old) (F.told folder.old)) (part core.new (J.events journal.new) (F.told folder.new)) }
    ensures uses { Uses (length items.now) core.old.hub core.new.hub (J.noted journal.old) (J.noted journal.new) (J.spare journal.old) (J.spare journal.new) }
{
    if core.hub().each_has_room(core.batch_need(items)) {
        core.log_batch(items, moment, folder, journal);
    } else {
        log_each(core, journal, items, moment, folder);
    }
}

/// The same, one by one.
fn log_each<F: Folder, J: Journal>(
    core: &mut Core,
    journal: &mut J,
    items: &[Item],
    moment: Moment,
    folder: &mut F,
)
    requires settled { owed_change core.old.registry ≡ None }
    requires spare { count_by is_open core.old.hub.clients + length items.now ≤ J.spare journal.old }
    requires few { core.old.hub.admitted + length items.now ≤ admitted_limit }
    ensures logs { Logs moment items.now (part core.old (J.events journal.old) (F.told folder.old)) (part core.new (J.events journal.new) (F.told folder.new)) }
    ensures uses { Uses (length items.now) core.old.hub core.new.hub (J.noted journal.old) (J.noted journal.new) (J.spare journal.old) (J.spare journal.new) }
{
    for item in items {
        log_one(core, journal, item, moment, folder);
    }
}

/// The same of one.
fn log_one<F: Folder, J: Journal>(
    core: &mut Core,
    journal: &mut J,
    item: &Item,
    moment: Moment,
    folder: &mut F,
)
    requires settled { owed_change core.old.registry ≡ None }
    requires spare { count_by is_open core.old.hub.clients + 1 ≤ J.spare journal.old }
    requires few { core.old.hub.admitted < admitted_limit }
    ensures logs { Logs moment (item.now ∷ []) (part core.old (J.events journal.old) (F.told folder.old)) (part core.new (J.events journal.new) (F.told folder.new)) }
    ensures uses { Uses 1 core.old.hub core.new.hub (J.noted journal.old) (J.noted journal.new) (J.spare journal.old) (J.spare journal.new) }
{
    let need = core.log_need(item);
    close_slow(core, journal, need);
    core.log(item, moment, folder, journal);
}
