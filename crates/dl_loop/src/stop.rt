//! The daemon's stop.

ghost use Rattle.std.specs.Prelude.{◌≡◌, true, ◌≤◌, ◌<◌, ◌^◌, All, IfErr, IfOk, OnErr, length};
ghost use Rattle.dl_writer.specs.State.{IsWhole};
ghost use Rattle.dl_account.specs.Making.{AreMadeWith, IsMissing};
ghost use Rattle.dl_settling.specs.Room.{together};
ghost use Rattle.dl_loop.specs.Stops.{Stops};

use crate::daemon::Daemon;
use crate::limits::PLACE_LIMIT;
use crate::stop_laws::what_a_stop_leaves;
use dl_account::{Account, BookList, Closing};
use dl_outside::{Clock, Folder, Link, LinkList, Net};
use dl_settling::{Parts, settle};
use std::sync::Wait;

/// A number of this type is in its range. It does nothing: its clause is what the stop learns.
fn in_range(calls: u32)
    ensures { calls < 2 ^ 32 }
{}

impl<L: Link> Daemon<L> {
    /// Once the writers have ended: takes and notes all that they left, closes each client that is open, and makes the account. The links of the
    /// clients come back by their numbers, all of them shut. Where a writer's book is missing, the books come back, and nothing was done.
    pub fn stop<R: Wait, N: Net<L = L>, C: Clock, F: Folder>(
        self,
        rt: &R,
        books: BookList,
        net: &mut N,
        clock: &C,
        folder: &mut F,
    ) -> Result<(Account, LinkList<L>), BookList>
    where
        L: Drop,
        requires greeted { self.greeted ≡ true }
        requires made { AreMadeWith self.desk books }
        requires whole { All IsWhole books }
        requires few { together books ≤ self.calls }
        ensures stops { IfOk result (λ left. Stops L.told self books left.0 left.1 (F.told folder.old) (F.told folder.new)) }
        ensures missing { OnErr result (IsMissing books (length self.desk.owners)) }
        ensures back { IfErr result (λ back. back ≡ books) }
        ensures untouched { OnErr result (folder.new ≡ folder.old) }
        ensures net { net.new ≡ net.old }
    {
        let Daemon {
            core,
            desk,
            journal,
            links,
            seats,
            batch,
            ends,
            calls,
            noted,
            claimed,
            dropped,
            alloc,
            ..
        } = self;
        let closing = match Closing::make(desk, books) {
            Ok(closing) => closing,
            Err((_desk, books)) => return Err(books),
        };
        closing.gathered();
        in_range(calls);
        what_a_stop_leaves::<L>();
        let parts = Parts {
            core,
            closing,
            journal,
            links,
            seats,
            batch,
            ends,
            events: calls - noted,
            claims: PLACE_LIMIT - claimed,
            dropped,
        };
        Ok(settle(rt, alloc, parts, clock, folder))
    }
}
