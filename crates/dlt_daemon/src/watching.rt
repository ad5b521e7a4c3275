//! Who looks on while the daemon runs: it says a line at the begin, a status line each so many seconds, syncs the trace, and ends the daemon when
//! standard input ends.

ghost use Rattle.std.specs.Prelude.{◌≡◌};

use crate::asked::Asked;
use crate::ending::Ending;
use crate::idle::IdleCounts;
use crate::news::News;
use crate::own::Own;
use crate::session::Sessions;
use crate::status_output::{StatusFile, StatusOutput};
use dl_bytes::Moment;
use dl_daemon::{Figures, Passed, Server, Teller, Watch, Watched};
use dl_events::Unkept;
use dl_outside::{Link, Sink};
use dl_real::Taken;
use dl_real_daemon::{InputEnd, PromptOutput, Readiness, TraceSync};
use std::fs::Files;
use std::io::Eprint;
use std::net::{Net, TcpListener, TcpStream};

/// What the program looks after at the begin of each round.
#[derive(Drop)]
pub struct Watching<R, O> {
    pub rt: R,
    pub teller: Teller<O>,
    /// What it was told and asked, and what it answered.
    pub watched: Watched,
    /// What is said once the ports are open.
    pub begins: Option<String>,
    /// Standard input, where its end ends the daemon.
    pub input: Option<InputEnd>,
    /// The time behind that end.
    pub ending: Option<Ending>,
    /// What syncs the trace, where that is asked for.
    pub sync: Option<TraceSync>,
    /// How often a trace file was taken away.
    pub taken: Taken,
    /// How many connections made room for others.
    pub idle: IdleCounts,
    /// What was said of the trace, and of clients and programs.
    pub news: News,
    /// What the daemon logs as a program of its own, where it does.
    pub own: Option<Own>,
    /// Which session runs, and whether it ends.
    pub sessions: Sessions,
}

impl Watching<HostRuntime, StatusOutput<HostRuntime, PromptOutput>> {
    /// Looks on as it is asked for, from this moment on: status lines go to standard output. The end of standard input ends rests that these tidings are of.
    pub fn over(
        rt: HostRuntime,
        asked: &Asked,
        begins: Option<String>,
        own: Option<Own>,
        taken: Taken,
        idle: IdleCounts,
        tidings: Option<&Readiness>,
        moment: Moment,
    ) -> Watching<HostRuntime, StatusOutput<HostRuntime, PromptOutput>> {
        let file = match &asked.status_file {
            Some(name) => StatusFile::named(rt.alloc(), name.as_str()),
            None => None,
        };
        let out = StatusOutput::over(rt, PromptOutput::over(rt.alloc(), rt.stdout()), file);
        let input = if asked.until_eof {
            Some(InputEnd::of(rt.stdin(), tidings))
        } else {
            None
        };
        let sync = match asked.sync {
            Some(every) => Some(TraceSync::each(rt.alloc(), every)),
            None => None,
        };
        Watching {
            rt,
            teller: Teller::make(rt.alloc(), out, moment),
            watched: Watched::nothing(),
            begins,
            input,
            ending: None,
            sync,
            taken,
            idle,
            news: News::none(asked.is_verbose),
            own,
            sessions: Sessions::first(),
        }
    }
}

impl<R: Eprint + AllocGlobal, O> Watching<R, O> {
    /// Begins the next session, where the last one, which counted this, ended for its numbers. Answers whether one begins.
    pub fn begins_session(&mut self, last: &Figures) -> bool {
        let Some(session) = self.sessions.next() else {
            return false;
        };
        let counted = last.behind(&self.teller.before);
        self.news.begin_session(&self.rt, &session, last, &counted);
        if let Some(own) = &mut self.own {
            own.begin_session(session, &counted);
        }
        self.teller.before = counted;
        true
    }
}

impl<R, O> Watching<R, O> {
    /// Whether standard input has ended, and programs were heard since.
    fn is_over(&mut self, now: u32, frames: u64) -> bool
        ensures { self.new.watched ≡ self.old.watched }
    {
        let Some(input) = &mut self.input else {
            return false;
        };
        if !input.has_come() {
            return false;
        }
        match &mut self.ending {
            Some(ending) => ending.has_heard(now, frames),
            None => {
                self.ending = Some(Ending::at(now, frames));
                false
            }
        }
    }
}

impl<R, O: Sink> Watch for Watching<R, O>
where
    R: Files + Eprint + AllocGlobal + Net<Stream = TcpStream, Listener = TcpListener>,
{
    ghost watched = { λ w. w.watched };

    fn begin(&mut self, every: Option<u32>) {
        self.watched.tell(every);
        self.teller.begin(every);
    }

    fn goes_on<L: Link>(
        &mut self,
        server: &Server<Unkept, L>,
        passed: Passed,
        moment: Moment,
    ) -> bool {
        if let Some(line) = self.begins.take() {
            let _ = self.rt.eprintln(line);
        }
        if let Some(sync) = &mut self.sync {
            if let Some(state) = server.core.trace_state() {
                sync.turn(&self.rt, state.files.all(), moment.secs);
            }
        }
        let passed = Passed {
            taken: self.taken.count(),
            ..passed
        };
        let idle = self.idle.now();
        self.news.tell(&self.rt, server, &passed, idle, moment);
        if let Some(own) = &mut self.own {
            own.turn(&self.rt, server, &passed, idle, moment);
        }
        let goes_on = self.teller.goes_on(server, passed, moment)
            && !self.is_over(moment.ticks, server.core.hub().admitted())
            && !self.sessions.is_over(server, self.own.as_ref());
        self.watched.answer(goes_on);
        goes_on
    }
}
