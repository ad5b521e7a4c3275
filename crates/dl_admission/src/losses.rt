//! Lost calls, which an application's full ring refused.

ghost use Rattle.std.specs.Prelude.{◌≡◌, ◌≤◌, ◌<◌, ◌+◌, None, count_by, length};
ghost use Rattle.dl_bytes.specs.Limits.{admitted_limit};
ghost use Rattle.dl_registry.specs.Kept.{owed_change};
ghost use Rattle.dl_hub.specs.State.{is_open};
ghost use Rattle.dl_core.specs.Admission.{lost_frames};
ghost use Rattle.dl_admission.specs.Admission.{Tells, Uses, loss_entries};
ghost use Rattle.dl_admission.specs.Part.{part};

use crate::slow::close_slow;
use dl_bytes::{Id, Moment};
use dl_core::Core;
use dl_events::Journal;
use dl_outside::Folder;

/// Notes so many lost calls of an application, and admits the records that report them, behind the Closes of the clients that are too
/// slow for these. Of no lost calls it notes nothing.
pub fn tell<F: Folder, J: Journal>(
    core: &mut Core,
    journal: &mut J,
    app: u8,
    apid: Id,
    count: u64,
    moment: Moment,
    folder: &mut F,
)
    requires settled { owed_change core.old.registry ≡ None }
    requires spare { 0 < count → count_by is_open core.old.hub.clients + 1 ≤ J.spare journal.old }
    requires few { core.old.hub.admitted + length (lost_frames core.old.ecu apid count) ≤ admitted_limit }
    ensures tells { Tells moment app apid count (part core.old (J.events journal.old) (F.told folder.old)) (part core.new (J.events journal.new) (F.told folder.new)) }
    ensures uses { Uses (length (loss_entries core.old.ecu moment app apid count)) core.old.hub core.new.hub (J.noted journal.old) (J.noted journal.new) (J.spare journal.old) (J.spare journal.new) }
{
    if count == 0 {
        return;
    }
    // each record has the id's four bytes
    let _apid = apid.bytes();
    let need = core.lost_need(count);
    close_slow(core, journal, need);
    core.lost(app, apid, count, moment, folder, journal);
}
