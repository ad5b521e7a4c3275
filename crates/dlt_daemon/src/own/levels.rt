//! Which contexts are there, with which levels, and what has changed of them since they were looked at last.

use crate::own::listing::contexts;
use crate::own::message::Message;
use crate::own::sender::OwnSender;
use dl_bytes::{Id, OutOfMemory};
use dl_own_log::{Standing, changed, gone};
use dl_registry::Registry;
use std::alloc::Global;

/// The contexts, as they were looked at last.
#[derive(Drop)]
pub struct Levels {
    alloc: Global,
    all: Vec<Standing>,
    // how many events there were then
    noted: Option<u64>,
    // whether a trace file has begun for which they are not said yet
    is_owed: bool,
    // how many messages of others there were when they were said for one last, where they were
    others: Option<u64>,
}

/// Whether an application has a context among these.
fn has_application(all: &[Standing], apid: Id) -> bool {
    all.iter().any(|standing| standing.apid == apid)
}

/// Whether a context is among these.
fn has_context(all: &[Standing], one: &Standing) -> bool {
    all.iter()
        .any(|other| other.apid == one.apid && other.ctid == one.ctid)
}

/// The applications of some contexts that have none among others, in their order.
fn applications(
    alloc: Global,
    contexts: &[Standing],
    others: &[Standing],
) -> Result<Vec<Id>, OutOfMemory> {
    let mut found: Vec<Id> = Vec::new(alloc);
    for standing in contexts {
        let apid = standing.apid;
        if !found.iter().any(|other| *other == apid) && !has_application(others, apid) {
            found.push(apid)?;
        }
    }
    Ok(found)
}

impl Levels {
    /// No context is there yet.
    pub fn none(alloc: Global) -> Levels {
        Levels {
            alloc,
            all: Vec::new(alloc),
            noted: None,
            is_owed: false,
            others: None,
        }
    }

    /// A trace file has begun: it is owed the levels.
    pub fn owe(&mut self) {
        self.is_owed = true;
    }

    /// A session has begun: the contexts are to be looked at anew.
    pub fn begin_session(&mut self) {
        self.noted = None;
        self.others = None;
    }

    /// Says what has changed between two listings. A level that changed was requested by one of these clients, where there are some.
    fn say_changes(
        &self,
        now: &[Standing],
        asked: &[u64],
        says: &mut OwnSender,
        ticks: u32,
    ) -> Result<(), OutOfMemory> {
        let before = self.all.as_slice();
        let came = changed(self.alloc, before, now)?;
        let went = gone(self.alloc, before, now)?;
        for apid in applications(self.alloc, &came, before)? {
            says.say(&Message::Application(apid, true), ticks);
        }
        for standing in came {
            if has_context(before, &standing) && !asked.is_empty() {
                says.say(&Message::Asked(standing, asked), ticks);
            } else {
                says.say(&Message::Context(standing, true), ticks);
                says.say(&Message::Registered(standing), ticks);
            }
        }
        for standing in &went {
            says.say(&Message::Context(*standing, false), ticks);
            says.say(&Message::Unregistered(*standing), ticks);
        }
        for apid in applications(self.alloc, &went, now)? {
            says.say(&Message::Application(apid, false), ticks);
        }
        Ok(())
    }

    /// Says what has changed, where events were noted since the last look.
    pub fn look(
        &mut self,
        registry: &Registry,
        noted: u64,
        asked: &[u64],
        says: &mut OwnSender,
        ticks: u32,
    ) -> Result<(), OutOfMemory> {
        if self.noted == Some(noted) {
            return Ok(());
        }
        let now = contexts(self.alloc, registry)?;
        if now.as_slice() != self.all.as_slice() {
            self.say_changes(&now, asked, says, ticks)?;
            self.all = now;
        }
        self.noted = Some(noted);
        Ok(())
    }

    /// Whether a trace file is to have the levels now: others logged at least as many messages since the last one as that had levels, so that levels alone
    /// never fill a file that has to have them again.
    fn is_due(&self, others: u64) -> bool {
        let more = match self.others {
            Some(before) => others.saturating_sub(before) >= self.all.len() as u64,
            None => true,
        };
        self.is_owed && more
    }

    /// Says the levels of all contexts, where a trace file that has begun is to have them.
    pub fn say_all(&mut self, admitted: u64, says: &mut OwnSender, ticks: u32) {
        let others = admitted.saturating_sub(says.queued);
        if !self.is_due(others) {
            return;
        }
        for standing in &self.all {
            says.say(&Message::Stands(*standing), ticks);
        }
        self.is_owed = false;
        self.others = Some(others);
    }
}
