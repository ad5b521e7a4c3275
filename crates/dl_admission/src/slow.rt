//! Clients that are too slow for what comes: they are closed before it.

ghost use Rattle.std.specs.Prelude.{◌≡◌, ◌≤◌, ◌+◌, IsSome, None, count_by, length};
ghost use Rattle.dl_outside.specs.Told.{FolderTold};
ghost use Rattle.dl_registry.specs.Kept.{owed_change};
ghost use Rattle.dl_hub.specs.State.{EachHasRoom, is_open, outbox_of};
ghost use Rattle.dl_core.specs.Admission.{more_noted};
ghost use Rattle.dl_admission.specs.Part.{part};
ghost use Rattle.dl_admission.specs.Slow.{ClosesIfSlow, ClosesSlow, slow_at, slow_clients};

use dl_core::Core;
use dl_events::{Journal, Why};

/// Closes each open client whose outbox has no room for this many bytes, in the order of their numbers. It looks at the open clients
/// alone, however many came.
pub fn close_slow<J: Journal>(core: &mut Core, journal: &mut J, need: u64)
    requires settled { owed_change core.old.registry ≡ None }
    requires spare { count_by is_open core.old.hub.clients ≤ J.spare journal.old }
    ensures closes { (folder : FolderTold) → ClosesSlow need (part core.old (J.events journal.old) folder) (part core.new (J.events journal.new) folder) }
    ensures room { EachHasRoom need core.new.hub }
    ensures open { count_by is_open core.new.hub.clients + length (slow_clients need core.old.hub) ≡ count_by is_open core.old.hub.clients }
    ensures noted { J.noted journal.new ≡ more_noted (length (slow_clients need core.old.hub)) (J.noted journal.old) }
    ensures spare { J.spare journal.new + length (slow_clients need core.old.hub) ≡ J.spare journal.old }
{
    let mut after = 0;
    while let Some(client) = core.hub().next_open(after) {
        close_if_slow(core, journal, client, need);
        after = client;
    }
}

/// Closes a client that is open, where its outbox has no room for this many bytes.
fn close_if_slow<J: Journal>(core: &mut Core, journal: &mut J, client: u32, need: u64)
    requires open { IsSome (outbox_of core.old.hub client) }
    requires settled { owed_change core.old.registry ≡ None }
    requires spare { 1 ≤ J.spare journal.old }
    ensures closes { (folder : FolderTold) → ClosesIfSlow client need (part core.old (J.events journal.old) folder) (part core.new (J.events journal.new) folder) }
    ensures noted { J.noted journal.new ≡ more_noted (length (slow_at need core.old.hub client)) (J.noted journal.old) }
    ensures spare { J.spare journal.new + length (slow_at need core.old.hub client) ≡ J.spare journal.old }
{
    let room = core.hub().room(client);
    if room < need {
        core.close(client, Why::Slow { room, need }, journal);
    }
}
