//! What is known of a socket without asking it.

ghost use Rattle.std.specs.Prelude.{◌≡◌, ◌≢◌, ◌<◌, ◌≤◌, true, false, None, IfSome, IsSomeAnd};

use crate::readiness::Readiness;
use std::os::fd::RawFd;

/// What is known of one way of a socket, by the takes of news.
#[derive(Clone, Copy, Debug)]
pub struct Way {
    // the take behind which a call found nothing, where the last one did
    empty: Option<u64>,
    // the take behind which it was looked at last
    looked: u64,
}

impl Way {
    /// Nothing is known.
    pub fn unknown() -> Way
        ensures { result.empty ≡ None }
    {
        Way {
            empty: None,
            looked: 0,
        }
    }

    /// Whether a call would find nothing: the last one did, news was taken since this was looked at last, and behind that call there was none. Where
    /// nobody takes news, nothing is known.
    fn is_empty(&mut self, takes: u64, news: u64) -> bool
        ensures unknown { self.old.empty ≡ None → result ≡ false }
        ensures untaken { self.old.looked ≡ takes → result ≡ false }
        ensures news { IfSome self.old.empty (λ empty. empty < news → result ≡ false) }
        ensures empty { self.old.looked ≢ takes → IsSomeAnd self.old.empty (λ empty. news ≤ empty) → result ≡ true }
        ensures kept { self.new.empty ≡ self.old.empty }
        ensures looked { self.new.looked ≡ takes }
    {
        let is_taken = self.looked != takes;
        self.looked = takes;
        match self.empty {
            Some(empty) => is_taken && news <= empty,
            None => false,
        }
    }
}

/// What is known of a socket.
#[derive(Drop)]
pub struct Known {
    // none where the system tells nothing of it
    tidings: Option<Readiness>,
    fd: RawFd,
    input: Way,
    output: Way,
}

impl Known {
    /// Of a socket of which the system is to tell; where it doesn't, nothing is ever known.
    pub fn of(tidings: Option<&Readiness>, fd: RawFd) -> Known {
        Known {
            tidings: tidings.and_then(|tidings| tidings.watch(fd)),
            fd,
            input: Way::unknown(),
            output: Way::unknown(),
        }
    }

    /// Of none.
    pub fn nothing() -> Known {
        Known::of(None, 0)
    }

    /// Whether a read or an accept would find nothing.
    pub fn has_no_input(&mut self) -> bool {
        match &self.tidings {
            Some(tidings) => self.input.is_empty(tidings.takes(), tidings.news(self.fd)),
            None => false,
        }
    }

    /// Whether a write would find no room. That is asked again behind each rest in vain: memory may have been wanting for the room, of which the system does
    /// not tell.
    pub fn has_no_room(&mut self) -> bool {
        match &self.tidings {
            Some(tidings) => {
                let news = tidings.news(self.fd).max(tidings.vain());
                self.output.is_empty(tidings.takes(), news)
            }
            None => false,
        }
    }

    /// A read or an accept found something, or nothing.
    pub fn note_input(&mut self, found: bool) {
        if let Some(tidings) = &self.tidings {
            self.input.empty = empty_at(tidings, found);
        }
    }

    /// A write found room, or none.
    pub fn note_room(&mut self, found: bool) {
        if let Some(tidings) = &self.tidings {
            self.output.empty = empty_at(tidings, found);
        }
    }

    /// It is to be asked again soon, though the system may not tell of it.
    pub fn ask_soon(&self) {
        if let Some(tidings) = &self.tidings {
            tidings.ask_soon();
        }
    }
}

/// The take behind which nothing was found, where nothing was. What was found is noted as something that moved.
fn empty_at(tidings: &Readiness, found: bool) -> Option<u64> {
    if found {
        tidings.move_on();
        None
    } else {
        Some(tidings.takes())
    }
}
