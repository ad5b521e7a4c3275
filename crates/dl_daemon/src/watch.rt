//! Who looks on while a daemon runs, and says when it ends.

ghost use Rattle.std.specs.Prelude.{◌≡◌, None, false};
ghost use Rattle.dl_daemon.specs.Watching.{answered, told_of};
ghost use Rattle.dl_daemon.specs.declared.watch.Watched.{Watched};

use crate::figures::Passed;
use dl_bytes::Moment;
use dl_events::Unkept;
use dl_outside::Link;
use dl_server::Server;

/// What a watch was told and asked, and what it answered.
#[derive(Clone, Copy)]
pub struct Watched {
    /// After how many seconds a status line is asked for, where it is, once that was told.
    pub every: Option<Option<u32>>,
    /// How many rounds it let begin, at most 2^64 - 1.
    pub rounds: u64,
    /// Whether it let a round not begin.
    pub ended: bool,
}

impl Watched {
    /// Before it was told anything.
    pub fn nothing() -> Watched
        ensures { result ≡ record { every = None; rounds = 0; ended = false } }
    {
        Watched {
            every: None,
            rounds: 0,
            ended: false,
        }
    }

    /// It was told after how many seconds a status line is asked for, where it is.
    pub fn tell(&mut self, every: Option<u32>)
        ensures { self.new ≡ told_of every self.old }
    {
        self.every = Some(every);
    }

    /// It was asked whether a round is to begin, and answered so.
    pub fn answer(&mut self, goes_on: bool)
        ensures { self.new ≡ answered goes_on self.old }
    {
        if goes_on {
            self.rounds = self.rounds.saturating_add(1);
        } else {
            self.ended = true;
        }
    }
}

/// Who looks on while a daemon runs. It changes nothing of it but when it ends: a round begins where it says so, and none after it said no.
pub trait Watch {
    /// What it was told and asked, and what it answered.
    ghost watched: { Self → Watched };

    /// The words were read: after how many seconds a status line is asked for, where it is.
    fn begin(&mut self, every: Option<u32>)
        ensures { watched self.new ≡ told_of every (watched self.old) };

    /// A round is about to begin. Answers whether it is to: where it says no, the daemon closes.
    fn goes_on<L: Link>(
        &mut self,
        server: &Server<Unkept, L>,
        passed: Passed,
        moment: Moment,
    ) -> bool
        ensures { watched self.new ≡ answered result (watched self.old) };
}
