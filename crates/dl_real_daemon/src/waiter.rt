//! A rest that ends when something comes.

use crate::readiness::{Readiness, Rest};
use mio::{Events, Poll};
use std::alloc::Global;
use std::io;
use std::net::Net;
use std::time::Duration;

/// Of how many descriptors a take tells at most; of the others the next one does.
const NEWS: usize = 64;

/// Takes the news of a set of sockets, at once or in a rest.
#[derive(Drop)]
pub struct Waiter {
    poll: Poll,
    events: Events,
    tidings: Readiness,
}

impl Waiter {
    /// Over a set of the system's of its own.
    pub fn make<R: Net>(rt: &R, alloc: Global) -> io::Result<Waiter> {
        let poll = Poll::new(rt)?;
        let registry = poll.registry().try_clone()?;
        Ok(Waiter {
            poll,
            events: Events::with_capacity(alloc, NEWS)?,
            tidings: Readiness::over(alloc, registry)?,
        })
    }

    /// What it has told, for another one that looks at it.
    pub fn tidings(&self) -> Option<Readiness> {
        self.tidings.share()
    }

    /// Takes the news, and where there is none waits for some, for so many milliseconds at most. Answers false where the system refuses that: then none was
    /// taken.
    fn take(&mut self, most: u64) -> bool {
        if self
            .poll
            .poll(&mut self.events, Some(Duration::from_millis(most)))
            .is_err()
        {
            return false;
        }
        let take = self.tidings.begin_take();
        for event in &self.events {
            self.tidings.tell(event.token(), take);
        }
        if most > 0 && self.events.is_empty() {
            self.tidings.tell_nothing(take);
        }
        true
    }

    /// A round begins. Where no rest was before it, the news is taken now.
    pub fn begin_round(&mut self, has_rested: bool) {
        self.tidings.begin_round();
        if !has_rested {
            let _ = self.take(0);
        }
    }

    /// Rests until something comes, for so many milliseconds at most. Answers false where the system refuses that.
    ///
    /// It waits only where nothing moved in the round before it. In a round each connection that is open is asked for what came, and where bytes wait for it,
    /// is sent them; each listener is asked for who came. So each of them has said, since the system last told of it, that it has nothing and takes
    /// nothing; what changes behind that ends the wait, also where it changed before the wait began.
    pub fn rest(&mut self, short: u64, long: u64) -> bool {
        let most = match self.tidings.begin_rest() {
            Rest::None => 0,
            Rest::Short => short,
            Rest::Long => long,
        };
        self.take(most)
    }
}
