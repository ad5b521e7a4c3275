//! The watch of the program: it says a status line each so many seconds, with what was counted in the sessions before, and never ends the daemon.

ghost use Rattle.std.specs.Prelude.{◌≡◌, ◌⊎◌, false, true, if◌then◌else◌};
ghost use Rattle.dl_outside.specs.Written.{Wrote, WroteNothing};
ghost use Rattle.dl_daemon.specs.Figures.{figures_of};
ghost use Rattle.dl_daemon.specs.Line.{is_due, status_line};
ghost use Rattle.dl_daemon.specs.Sums.{behind};
ghost use Rattle.dl_daemon.specs.Watching.{answered, told_of};

use crate::counting::figures_of;
use crate::figures::{Figures, Passed};
use crate::line::status_line;
use crate::watch::{Watch, Watched};
use dl_bytes::Moment;
use dl_events::Unkept;
use dl_outside::{Link, Sink, write_text};
use dl_server::Server;
use std::alloc::Global;

/// Says a status line each so many seconds, where that is asked for.
#[derive(Drop)]
pub struct Teller<O> {
    alloc: Global,
    /// Where the lines go.
    pub out: O,
    /// After how many seconds the next line is due, where lines are asked for.
    pub every: Option<u32>,
    /// What it was told and asked, and what it answered.
    pub watched: Watched,
    /// What was counted in the sessions before this one.
    pub before: Figures,
    /// When the last line was said, in seconds since the beginning of 1970; at first when the teller was made.
    pub last: u32,
}

impl<O: Sink> Teller<O> {
    /// One that says nothing yet; its first line is due so many seconds behind this moment.
    pub fn make(alloc: Global, out: O, begins: Moment) -> Teller<O> {
        Teller {
            alloc,
            out,
            every: None,
            watched: Watched::nothing(),
            before: Figures::nothing(),
            last: begins.secs,
        }
    }

    /// Whether a line is due.
    fn is_due(&self, now: u32) -> bool
        ensures { result ≡ is_due self.now.every self.now.last now }
    {
        match self.every {
            Some(every) => now.wrapping_sub(self.last) >= every,
            None => false,
        }
    }

    /// Says the line of these figures. Where there is no memory for it, nothing is said; where the output fails, its front.
    fn say(&mut self, figures: &Figures)
        ensures said { WroteNothing (O.told self.old.out) (O.told self.new.out) ⊎ Wrote (O.told self.old.out) (O.told self.new.out) (status_line figures.now) }
        ensures rest { self.new ≡ record self.old { out = self.new.out } }
    {
        match status_line(self.alloc, figures) {
            Ok(text) => {
                let _ = write_text(&mut self.out, text.all());
            }
            Err(_) => {}
        }
    }
}

impl<O: Sink> Watch for Teller<O> {
    ghost watched = { λ t. t.watched };

    fn begin(&mut self, every: Option<u32>)
        ensures every { self.new.every ≡ every }
        ensures watched { self.new.watched ≡ told_of every self.old.watched }
        ensures out { self.new.out ≡ self.old.out }
    {
        self.every = every;
        self.watched.tell(every);
    }

    fn goes_on<L: Link>(
        &mut self,
        server: &Server<Unkept, L>,
        passed: Passed,
        moment: Moment,
    ) -> bool
        ensures goes_on { result ≡ true }
        ensures watched { self.new.watched ≡ answered true self.old.watched }
        ensures last { self.new.last ≡ (if is_due self.old.every self.old.last moment.secs then moment.secs else self.old.last) }
        ensures every { self.new.every ≡ self.old.every }
        ensures before { self.new.before ≡ self.old.before }
        ensures silent { is_due self.old.every self.old.last moment.secs ≡ false → WroteNothing (O.told self.old.out) (O.told self.new.out) }
        // Where there is no memory for the line, nothing is said.
        ensures said { WroteNothing (O.told self.old.out) (O.told self.new.out)
            ⊎ Wrote (O.told self.old.out) (O.told self.new.out) (status_line (behind self.old.before (figures_of server.now passed))) }
    {
        self.watched.answer(true);
        if self.is_due(moment.secs) {
            self.last = moment.secs;
            let before = self.before;
            let now = figures_of(server, passed);
            self.say(&now.behind(&before));
        }
        true
    }
}
