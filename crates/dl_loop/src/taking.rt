//! What a round takes of the programs that log: the turns of the applications.

ghost use Rattle.std.specs.Prelude.{◌≡◌, ◌+◌, ◌<◌, ◌≤◌, ◌==◌, ℕ, Bool, true, false, length, if◌then◌else◌};
ghost use Rattle.dl_outside.specs.Told.{NetTold};
ghost use Rattle.dl_taking.specs.Takes.{found_none, gave};
ghost use Rattle.dl_loop.specs.Later.{GoesRound};
ghost use Rattle.dl_loop.specs.Scene.{scene};
ghost use Rattle.dl_loop.specs.Limits.{claim_limit, take_limit};
ghost use Rattle.dl_loop.specs.Takes.{TakesAll, TakesCalls, TakesLossesIfMay, TakesSomeOf, has_taken, is_over, most_of};

use crate::daemon::Daemon;
use crate::laws::a_daemon_goes_on_taking;
use crate::limits::{CLAIM_LIMIT, TAKE_LIMIT};
use dl_outside::{Clock, Folder, Link};
use dl_taking::{Got, report_losses, take_some};
use std::sync::Wait;

/// How many takes gave.
fn gave(got: &Got) -> usize
    requires few { gave got.now ≤ take_limit }
    ensures { result ≡ gave got.now }
{
    got.calls + usize::from(got.claimed)
}

/// Of at most so many takes the last one found the ring empty.
fn found_none(most: usize, got: &Got) -> bool
    requires few { gave got.now ≤ take_limit }
    ensures { result ≡ found_none most got.now }
{
    gave(got) < most && !got.claimed
}

impl<L: Link> Daemon<L> {
    // Each application has its turn. Answers whether anything was taken.
    pub(crate) fn take_all<R: Wait, C: Clock, F: Folder>(
        &mut self,
        rt: &R,
        clock: &C,
        folder: &mut F,
    ) -> bool
        requires greeted { self.old.greeted ≡ true }
        ensures takes { TakesAll (scene self.old (F.told folder.old)) (scene self.new (F.told folder.new)) }
        ensures moved { result ≡ has_taken self.old self.new }
        ensures goes { (net : NetTold L) → GoesRound net net (scene self.old (F.told folder.old)) (scene self.new (F.told folder.new)) }
    {
        let apps = self.desk.apps().len() as u8;
        let mut moved = false;
        for app in 0..apps {
            let calls = self.take_calls(rt, app, clock, folder);
            self.is_daemon();
            let losses = self.take_losses(app, clock, folder);
            moved |= calls != 0;
            moved |= losses != 0;
        }
        moved
    }

    // The calls and claims of an application are taken, until as many takes gave as may or one found its ring empty, or no more may come. Answers how
    // many gave.
    fn take_calls<R: Wait, C: Clock, F: Folder>(
        &mut self,
        rt: &R,
        app: u8,
        clock: &C,
        folder: &mut F,
    ) -> usize
        requires app { app < length self.old.desk.apps }
        requires greeted { self.old.greeted ≡ true }
        ensures takes { TakesCalls app (scene self.old (F.told folder.old)) (scene self.new (F.told folder.new)) }
        ensures count { self.new.noted + self.new.claimed ≡ self.old.noted + self.old.claimed + result }
        ensures goes { (net : NetTold L) → GoesRound net net (scene self.old (F.told folder.old)) (scene self.new (F.told folder.new)) }
    {
        let mut done = 0;
        let mut empty = false;
        while !self.is_over(done, empty) {
            self.is_daemon();
            let most = self.most(done);
            let got = self.take_some_of(rt, app, most, clock, folder);
            done += gave(&got);
            empty = found_none(most, &got);
        }
        done
    }

    // Whether the takes of an application in this round are over, where so many gave and the last one found its ring empty or not.
    fn is_over(&self, done: usize, empty: bool) -> bool
        ensures { result ≡ is_over done empty self.now }
    {
        empty || done == TAKE_LIMIT || self.noted == self.calls || self.claimed == CLAIM_LIMIT
    }

    // How many takes may give now, where so many of this round gave.
    fn most(&self, done: usize) -> usize
        requires few { done ≤ take_limit }
        ensures { result ≡ most_of done self.now }
    {
        (TAKE_LIMIT - done).min((self.calls - self.noted) as usize)
    }

    // Calls of an application are taken and admitted, and then a claim of it, where one comes: so many takes give at most.
    fn take_some_of<R: Wait, C: Clock, F: Folder>(
        &mut self,
        rt: &R,
        app: u8,
        most: usize,
        clock: &C,
        folder: &mut F,
    ) -> Got
        requires app { app < length self.old.desk.apps }
        requires greeted { self.old.greeted ≡ true }
        requires few { most ≤ take_limit }
        requires calls { self.old.noted + most ≤ self.old.calls }
        requires claims { self.old.claimed < claim_limit }
        ensures { TakesSomeOf app most result (scene self.old (F.told folder.old)) (scene self.new (F.told folder.new)) }
    {
        a_daemon_goes_on_taking::<L>();
        let got = take_some(
            rt,
            &mut self.core,
            &mut self.desk,
            &mut self.journal,
            &mut self.batch,
            app,
            most,
            clock,
            folder,
        );
        self.noted += got.calls as u32;
        self.claimed += u32::from(got.claimed);
        got
    }

    // The losses of an application are taken and told, where a Lost event may still come. Answers how many they were.
    fn take_losses<C: Clock, F: Folder>(&mut self, app: u8, clock: &C, folder: &mut F) -> u64
        requires app { app < length self.old.desk.apps }
        requires greeted { self.old.greeted ≡ true }
        ensures takes { TakesLossesIfMay app (scene self.old (F.told folder.old)) (scene self.new (F.told folder.new)) }
        ensures count { self.new.noted + self.new.claimed ≡ self.old.noted + self.old.claimed + (if result == 0 then 0 else 1) }
    {
        a_daemon_goes_on_taking::<L>();
        if self.noted == self.calls {
            return 0;
        }
        let count = report_losses(
            &mut self.core,
            &mut self.desk,
            &mut self.journal,
            app,
            clock,
            folder,
        );
        if count != 0 {
            self.noted += 1;
        }
        count
    }
}
