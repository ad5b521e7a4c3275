//! The daemon as a program of its own: it connects to its own port, registers the application DA1, and logs what it does.

mod clients;
mod heard;
mod levels;
mod listing;
mod message;
mod programs;
mod sender;
mod topic;
mod trace;

use crate::idle::Idle;
use crate::own::clients::Clients;
use crate::own::heard::Heard;
use crate::own::levels::Levels;
use crate::own::message::{Message, Who};
use crate::own::programs::Programs;
use crate::own::sender::OwnSender;
use crate::own::trace::Trace;
use crate::session::NewSession;
use dl_bytes::{Id, Level, Moment, OutOfMemory};
use dl_daemon::{Figures, Passed, Server};
use dl_events::Unkept;
use dl_outside::{Gave, Link};
use dl_real_daemon::OwnLink;
use std::alloc::{AllocError, Global};
use std::net::{IpAddr, Net, TcpListener, TcpStream};

/// For how long nothing is looked at behind a look while messages come, in units of 0.1 ms.
const PAUSE: u32 = 50;

/// What the daemon logs with.
#[derive(Clone, Copy)]
pub struct OwnSetting {
    /// The level that its contexts ask for.
    pub level: Level,
    /// The id of the control unit.
    pub ecu: Id,
    /// The address on which the daemon listens.
    pub address: IpAddr,
    /// Its port for external applications.
    pub port: u16,
}

/// The daemon as a program of its own.
#[derive(Drop)]
pub struct Own {
    alloc: Global,
    setting: OwnSetting,
    // none before the first round, and where it was lost
    link: Option<OwnLink>,
    has_begun: bool,
    says: OwnSender,
    heard: Heard,
    clients: Clients,
    programs: Programs,
    levels: Levels,
    trace: Trace,
    // a session that has begun, and is not said yet; and what those before it counted
    session: Option<NewSession>,
    counted: Figures,
    // how many had made room for others when it looked last
    idle: Idle,
    // how many messages were admitted when it was asked last, and when it looked last
    admitted: u64,
    looked: u32,
}

impl Own {
    /// One that is to begin.
    pub fn make(alloc: Global, setting: OwnSetting, pid: u32) -> Result<Own, AllocError> {
        Ok(Own {
            alloc,
            setting,
            link: None,
            has_begun: false,
            says: OwnSender::make(alloc, setting.ecu, pid)?,
            heard: Heard::nothing(),
            clients: Clients::none(alloc, 0),
            programs: Programs::none(alloc, 0),
            levels: Levels::none(alloc),
            trace: Trace::none(),
            session: None,
            counted: Figures::nothing(),
            idle: Idle {
                clients: 0,
                programs: 0,
            },
            admitted: 0,
            looked: 0,
        })
    }

    /// Connects, and registers its contexts.
    fn begin<R: Net<Stream = TcpStream, Listener = TcpListener>, L: Link>(
        &mut self,
        rt: &R,
        server: &Server<Unkept, L>,
        ticks: u32,
    ) {
        self.has_begun = true;
        self.link = OwnLink::dial(rt, self.setting.address, self.setting.port);
        self.says.register(self.setting.level, ticks);
        match self.session.take() {
            Some(session) => self.say_session(session, ticks),
            None => self.trace.note(server.core.trace_state()),
        }
    }

    /// Says that a session has begun, and who went with the one before it.
    fn say_session(&mut self, session: NewSession, ticks: u32) {
        let says = &mut self.says;
        self.clients.say_session_ended(says, ticks);
        self.programs.say_session_ended(says, ticks);
        says.say(&Message::Session(session.number, session.lost), ticks);
        let (clients, programs) = (self.counted.clients, self.counted.channels);
        self.clients = Clients::none(self.alloc, clients);
        self.programs = Programs::none(self.alloc, programs);
    }

    /// Whether all that it said has gone to the daemon.
    pub fn is_done(&self) -> bool {
        self.link.is_none() || self.says.is_empty()
    }

    /// How many messages it has logged.
    pub fn said(&self) -> u64 {
        self.says.queued
    }

    /// How many channels it has.
    pub fn channels(&self) -> u64 {
        if self.link.is_some() { 1 } else { 0 }
    }

    /// A session begins behind those that counted this: it connects anew, and its contexts are registered anew.
    pub fn begin_session(&mut self, session: NewSession, counted: &Figures) {
        self.link = None;
        self.has_begun = false;
        self.says.clear();
        self.heard = Heard::nothing();
        self.levels.begin_session();
        self.trace.begin_session();
        self.session = Some(session);
        self.counted = *counted;
        self.admitted = 0;
    }

    /// Takes in the levels that it was told.
    fn hear(&mut self, ticks: u32) {
        let Some(link) = &mut self.link else {
            return;
        };
        let mut piece = [0; 256];
        let gave = link.recv(&mut piece);
        match gave {
            Gave::Bytes(count) => {
                for byte in piece.get(..count).unwrap_or(&[]) {
                    if let Some(told) = self.heard.take(*byte) {
                        self.says.obey(told.place, told.level, ticks);
                    }
                }
            }
            Gave::NotYet => {}
            Gave::End | Gave::Failed => self.link = None,
        }
    }

    /// Says how many made room for others since it looked last.
    fn say_idle(&mut self, now: Idle, ticks: u32) {
        let clients = now.clients.saturating_sub(self.idle.clients);
        if clients > 0 {
            self.says.say(&Message::Idle(Who::Client, clients), ticks);
        }
        let programs = now.programs.saturating_sub(self.idle.programs);
        if programs > 0 {
            self.says.say(&Message::Idle(Who::Program, programs), ticks);
        }
        self.idle = now;
    }

    /// Says what has changed since it looked last.
    fn look<L: Link>(&mut self, server: &Server<Unkept, L>, ticks: u32) -> Result<(), OutOfMemory> {
        self.programs.look(server, &mut self.says, ticks)?;
        self.clients.look(server, &mut self.says, ticks)?;
        self.levels.look(
            server.core.registry(),
            server.journal.noted(),
            &self.clients.asked,
            &mut self.says,
            ticks,
        )?;
        self.levels
            .say_all(server.core.hub().admitted(), &mut self.says, ticks);
        Ok(())
    }

    /// Whether messages come, and it has looked a moment ago.
    fn waits(&mut self, admitted: u64, ticks: u32) -> bool {
        let is_busy = admitted != self.admitted;
        self.admitted = admitted;
        is_busy && ticks.wrapping_sub(self.looked) < PAUSE
    }

    /// Says what a round did, and sends what waits. Where memory runs out for a look, the next one says it.
    pub fn turn<R: Net<Stream = TcpStream, Listener = TcpListener>, L: Link>(
        &mut self,
        rt: &R,
        server: &Server<Unkept, L>,
        passed: &Passed,
        idle: Idle,
        now: Moment,
    ) {
        if !self.has_begun {
            self.begin(rt, server, now.ticks);
        }
        if self.link.is_none() {
            return;
        }
        // A trace that ends may be begun anew in the next round.
        let state = server.core.trace_state();
        if self.trace.look(state, passed, &mut self.says, now.ticks) {
            self.levels.owe();
        }
        if !self.waits(server.core.hub().admitted(), now.ticks) {
            self.looked = now.ticks;
            self.hear(now.ticks);
            let _ = self.look(server, now.ticks);
            self.say_idle(idle, now.ticks);
        }
        if let Some(link) = &mut self.link {
            if !self.says.send(link) {
                self.link = None;
            }
        }
    }
}
