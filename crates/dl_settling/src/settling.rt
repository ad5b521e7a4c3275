//! The stop.

ghost use Rattle.std.specs.Prelude.{◌≡◌, ◌≤◌, ◌<◌, ℕ, All, length};
ghost use Rattle.dl_writer.specs.State.{IsWhole};
ghost use Rattle.dl_account.specs.Settled.{IsSettled, TellsClaimed, TellsLosses, TellsQueued};
ghost use Rattle.dl_bytes.specs.Limits.{client_limit};
ghost use Rattle.dl_rounds.specs.Ready.{AreHeard, AreLinked};
ghost use Rattle.dl_taking.specs.Draining.{MayNote, all_claims_left, all_to_note, closing_told};
ghost use Rattle.dl_settling.specs.Settling.{Settles};
ghost use Rattle.dl_settling.specs.State.{stopping_of};

use crate::ends::trace_told;
use crate::parts::Parts;
use dl_account::Account;
use dl_bytes::Ends;
use dl_outside::{Clock, Folder, Link, LinkList};
use dl_rounds::{close_all, shut_gone};
use dl_taking::{Budget, drain_all};
use std::alloc::Global;
use std::sync::Wait;

/// Takes and tells all that is left, closes each open client, and makes the account. The links come back, by the clients' numbers, all of
/// them shut.
pub fn settle<R: Wait, L: Link, C: Clock, F: Folder>(
    rt: &R,
    alloc: Global,
    parts: Parts<L>,
    clock: &C,
    folder: &mut F,
) -> (Account, LinkList<L>)
    requires apps { length parts.closing.apps ≤ 16 }
    requires clients { parts.core.hub.limit ≤ client_limit }
    requires enough { all_to_note parts.closing ≤ parts.events }
    requires claims { all_claims_left parts.closing ≤ parts.claims }
    requires may { MayNote parts.events parts.claims (length parts.closing.apps) parts.core.hub parts.journal.spare }
    requires linked { AreLinked parts.links parts.core parts.journal.spare }
    requires heard { AreHeard parts.seats parts.core (closing_told parts.closing) }
    ensures settles { Settles L.told parts.dropped (stopping_of parts) result.0 result.1 (F.told folder.old) (F.told folder.new) }
    ensures settled { IsSettled result.0 }
    ensures losses { All IsWhole result.0.books → (app : ℕ) → app < length result.0.apps → TellsLosses result.0 app }
    ensures queued { All IsWhole result.0.books → All (TellsQueued result.0) result.0.books }
    ensures claimed { All IsWhole result.0.books → All (TellsClaimed result.0) result.0.books }
{
    let Parts {
        mut core,
        mut closing,
        mut journal,
        mut links,
        mut seats,
        mut batch,
        ends,
        events,
        claims,
        dropped,
    } = parts;
    drain_all(
        rt,
        &mut core,
        &mut closing,
        &mut journal,
        &mut batch,
        Budget { events, claims },
        clock,
        folder,
    );
    close_all(
        rt,
        alloc,
        &mut core,
        &mut closing,
        &mut journal,
        &mut links,
        &mut seats,
        folder,
    );
    shut_gone(core.hub(), &mut links);
    let ends = Ends {
        links: ends.fill(core.hub(), links.len()),
        dropped,
        trace: trace_told(alloc, core),
    };
    let account = closing.finish(journal, ends);
    // of an account it is known what its records and its claims tell
    account.records();
    account.claims();
    (account, links)
}
