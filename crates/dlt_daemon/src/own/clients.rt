//! Which clients came and went, how, and which of them asked something, since they were looked at last.

use crate::causes::{Cause, Count, closed};
use crate::own::message::{Message, Who};
use crate::own::sender::OwnSender;
use dl_daemon::Server;
use dl_events::{Closes, Unkept};
use dl_hub::Hub;
use dl_outside::Link;
use std::alloc::{AllocError, Global};

/// How many clients are looked at for those that are open.
const MOST_OPEN: u32 = 64;

/// A client that is open.
#[derive(Clone, Copy)]
struct Seat {
    number: u32,
    // how many replies were put into its stream
    replies: u32,
}

/// The clients, as they were looked at last.
#[derive(Drop)]
pub struct Clients {
    alloc: Global,
    // how many came in the sessions before this one
    before: u64,
    came: u32,
    open: Vec<Seat>,
    closes: Option<Closes>,
    untaken: u64,
    /// Those that asked something, in the order of their numbers.
    pub asked: Vec<u64>,
}

/// The clients that are open.
fn open_now(alloc: Global, hub: &Hub) -> Result<Vec<Seat>, AllocError> {
    let mut open = Vec::new(alloc);
    let mut after = 0;
    for _seat in 0..MOST_OPEN {
        let Some(number) = hub.next_open(after) else {
            break;
        };
        open.push(Seat {
            number,
            replies: hub.replies(number),
        })?;
        after = number;
    }
    Ok(open)
}

/// The seat of a client, where it is open.
fn seat_of(open: &[Seat], number: u32) -> Option<Seat> {
    let found = open.iter().find(|seat| seat.number == number)?;
    Some(*found)
}

/// The cause for which clients have disconnected, where all have for the same.
fn only_cause(counts: &[Count]) -> Option<Cause> {
    let mut only = None;
    for count in counts {
        if count.now > count.before {
            if only.is_some() {
                return None;
            }
            only = Some(count.cause);
        }
    }
    only
}

impl Clients {
    /// None came yet in this session; so many came in those before it.
    pub fn none(alloc: Global, before: u64) -> Clients {
        Clients {
            alloc,
            before,
            came: 0,
            open: Vec::new(alloc),
            closes: None,
            untaken: 0,
            asked: Vec::new(alloc),
        }
    }

    /// The number of a client over all sessions.
    fn number(&self, number: u32) -> u64 {
        self.before.saturating_add(number as u64)
    }

    /// Those that were open go with the session.
    pub fn say_session_ended(&self, says: &mut OwnSender, ticks: u32) {
        for seat in &self.open {
            let number = self.number(seat.number);
            let cause = Some(Cause::SessionEnded);
            says.say(&Message::Disconnected(Who::Client, number, cause), ticks);
        }
    }

    /// Those that were open and are not, and those that came and are not open, each with the cause.
    fn say_gone(
        &self,
        open: &[Seat],
        came: u32,
        cause: Option<Cause>,
        says: &mut OwnSender,
        ticks: u32,
    ) -> bool {
        let mut any = false;
        for seat in &self.open {
            if seat_of(open, seat.number).is_none() {
                let number = self.number(seat.number);
                says.say(&Message::Disconnected(Who::Client, number, cause), ticks);
                any = true;
            }
        }
        for place in self.came..came {
            let number = place.saturating_add(1);
            if seat_of(open, number).is_none() {
                let number = self.number(number);
                says.say(&Message::Disconnected(Who::Client, number, cause), ticks);
                any = true;
            }
        }
        any
    }

    /// How many have disconnected for each cause.
    fn say_causes(counts: &[Count], says: &mut OwnSender, ticks: u32) {
        for count in counts {
            if count.now > count.before {
                let more = count.now.saturating_sub(count.before);
                says.say(&Message::Causes(more, count.cause), ticks);
            }
        }
    }

    /// How many bytes those that are gone had not taken.
    fn say_untaken(&mut self, hub: &Hub, says: &mut OwnSender, ticks: u32) {
        let untaken = hub.untaken();
        let more = untaken.saturating_sub(self.untaken);
        if more > 0 {
            says.say(&Message::Untaken(more), ticks);
        }
        self.untaken = untaken;
    }

    /// Notes which clients asked something: those whose count of replies rose; where none did, those that are gone.
    fn note_asked(&mut self, open: &[Seat]) -> Result<(), AllocError> {
        self.asked.clear();
        for seat in open {
            let before = match seat_of(&self.open, seat.number) {
                Some(seat) => seat.replies,
                None => 0,
            };
            if seat.replies > before {
                let number = self.before.saturating_add(seat.number as u64);
                self.asked.push(number)?;
            }
        }
        if self.asked.is_empty() {
            for seat in &self.open {
                if seat_of(open, seat.number).is_none() {
                    let number = self.before.saturating_add(seat.number as u64);
                    self.asked.push(number)?;
                }
            }
        }
        Ok(())
    }

    /// Says which clients came and went, and notes who asked something.
    pub fn look<L: Link>(
        &mut self,
        server: &Server<Unkept, L>,
        says: &mut OwnSender,
        ticks: u32,
    ) -> Result<(), AllocError> {
        let hub = server.core.hub();
        let open = open_now(self.alloc, hub)?;
        let came = server.clients.len();
        for place in self.came..came {
            let number = self.number(place.saturating_add(1));
            says.say(&Message::Connected(Who::Client, number), ticks);
        }
        let closes = server.journal.closes();
        let counts = closed(self.closes.unwrap_or(closes), closes);
        let cause = only_cause(&counts);
        if self.say_gone(&open, came, cause, says, ticks) {
            if cause.is_none() {
                Clients::say_causes(&counts, says, ticks);
            }
            self.say_untaken(hub, says, ticks);
        }
        self.note_asked(&open)?;
        self.came = came;
        self.closes = Some(closes);
        self.open = open;
        Ok(())
    }
}
