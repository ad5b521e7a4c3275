//! One client along a journal: whether it is open, how many frames its stream has, and what waits while nobody is.

ghost use Rattle.std.specs.Prelude.{◌≡◌, ◌+◌, ◌-◌, ◌<◌, ◌^◌, ◌++◌, ◌∷◌, ◌==◌, ◌&&◌, [], ℕ, List, OnOk, length, nat_le, if◌then◌else◌};
ghost use Rattle.dl_events.specs.declared.event.Event.{Event};
ghost use Rattle.dl_model.specs.Accounts.{AreNumbered};
ghost use Rattle.dl_model.specs.Along.{along_from};
ghost use Rattle.dl_model.specs.ClientStream.{put, traffic, traffic_of};
ghost use Rattle.dl_model.specs.Journal.{comes_or_goes, is_connect};
ghost use Rattle.dl_model.specs.Overflow.{counters};
ghost use Rattle.dl_model.specs.Setting.{Setting};
ghost use Rattle.dl_model.specs.WholeAccounts.{records_by, source_of_records};
ghost use Rattle.dl_laws.specs.Fates.{kept};
ghost use Rattle.dl_report.specs.Clients.{MayComeOrGo};
ghost use Rattle.dl_report.specs.Following.{MayNote};
ghost use Rattle.dl_report.specs.Keeping.{counted};
ghost use Rattle.dl_report.specs.declared.batch.Sources.{Sources};
ghost use Rattle.dl_fates.specs.Followed.{IsFollowing, fate_by};
ghost use Rattle.dl_fates.specs.Found.{said};

use crate::fate::Fate;
use dl_bytes::{Backlog, COUNTER_LIMIT, OutOfMemory};
use dl_events::Event;
use dl_report::{Sources, Waiting, admitted_by, note};

/// A client after the events so far.
#[derive(Clone, Copy, PartialEq, Eq)]
pub struct Follower {
    /// The client's number.
    pub client: u32,
    /// Whether it is open.
    pub listens: bool,
    /// How many frames its stream has.
    pub frames: u64,
    /// What waits while nobody is open.
    pub waiting: Waiting,
}

/// How many frames a client is handed that finds this backlog: those that were kept, and the report of those that were refused.
fn due(backlog: Backlog) -> u64
    requires { counted backlog < 2 ^ 64 }
    ensures { result ≡ backlog.frames + length (counters backlog.refused) }
{
    backlog.frames + backlog.refused.div_ceil(COUNTER_LIMIT)
}

impl Follower {
    /// A client before the first event.
    pub fn new(client: u32, buffer: u32) -> Follower
        ensures following { (sources : Sources) → IsFollowing sources [] result }
        ensures client { result.client ≡ client }
        ensures limit { result.waiting.limit ≡ buffer }
    {
        Follower {
            client,
            listens: false,
            frames: 0,
            waiting: Waiting::new(buffer),
        }
    }

    /// So many, where this client is meant.
    fn own(&self, client: u32, frames: u64) -> u64
        ensures { result ≡ (if client == self.now.client then frames else 0) }
    {
        if client == self.client { frames } else { 0 }
    }

    /// So many, where the client is open.
    fn while_open(&self, frames: u64) -> u64
        ensures { result ≡ (if self.now.listens then frames else 0) }
    {
        if self.listens { frames } else { 0 }
    }

    /// How many frames an event puts into the client's stream.
    fn put_by(&self, sources: &Sources<'_, '_>, event: &Event) -> u64
        requires numbered { (number : ℕ) → AreNumbered (records_by number sources.now.records.now) }
        requires few { counted self.now.waiting.backlog < 2 ^ 64 }
        ensures { (setting : Setting) (events : List Event) → setting.ecu ≡ sources.now.ecu → IsFollowing sources.now events self.now
            → result ≡ length (along_from (put setting.ecu self.now.waiting.limit self.now.client)
            (traffic (source_of_records setting sources.now.records.now sources.now.specs.now) events)
            (traffic_of (source_of_records setting sources.now.records.now sources.now.specs.now) events event.now)) }
    {
        match event {
            Event::Connect { client } => self.own(*client, due(self.waiting.backlog)),
            Event::Request { client, .. } => self.own(*client, self.while_open(1)),
            Event::Close { .. } => 0,
            Event::Log { .. }
            | Event::Lost { .. }
            | Event::User { .. }
            | Event::Claim { .. }
            | Event::Level { .. } => self.while_open(admitted_by(sources, event).frames),
        }
    }

    /// Whether the client is open behind an event.
    fn open_behind(&self, event: &Event) -> bool
        ensures { result ≡ (if comes_or_goes self.now.client event.now then is_connect event.now else self.now.listens) }
    {
        match event {
            Event::Connect { client } if *client == self.client => true,
            Event::Close { client, .. } if *client == self.client => false,
            _ => self.listens,
        }
    }

    /// Notes an event. More frames than 64 bits count are refused as out of memory.
    pub fn note(&mut self, sources: &Sources<'_, '_>, event: &Event) -> Result<(), OutOfMemory>
        requires numbered { (number : ℕ) → AreNumbered (records_by number sources.now.records.now) }
        requires few { counted self.old.waiting.backlog < 2 ^ 64 }
        requires may { MayNote event.now self.old.waiting }
        ensures client { OnOk result (self.new.client ≡ self.old.client) }
        ensures limit { OnOk result (self.new.waiting.limit ≡ self.old.waiting.limit) }
        ensures after { OnOk result ((events : List Event) → MayComeOrGo events event.now → IsFollowing sources.now events self.old → IsFollowing sources.now (events ++ event.now ∷ []) self.new) }
    {
        let more = self.put_by(sources, event);
        let Some(frames) = self.frames.checked_add(more) else {
            return Err(OutOfMemory);
        };
        self.frames = frames;
        self.listens = self.open_behind(event);
        note(&mut self.waiting, sources, event);
        Ok(())
    }

    /// Whether the buffer has room for a frame of so many bytes.
    fn has_room(&self, size: u64) -> bool
        ensures { result ≡ ((self.now.waiting.backlog.refused == 0) && nat_le size (self.now.waiting.limit - self.now.waiting.backlog.bytes)) }
    {
        let backlog = self.waiting.backlog;
        backlog.refused == 0 && size <= (self.waiting.limit as u64).saturating_sub(backlog.bytes)
    }

    /// What becomes of a frame that the buffer keeps.
    fn kept(&self, next: Option<u32>) -> Fate
        ensures { said result ≡ kept self.now.client self.now.waiting.backlog.frames next }
    {
        let place = self.waiting.backlog.frames;
        match next {
            None => Fate::InBacklog { place },
            Some(next) => {
                if next == self.client {
                    Fate::InStream { place }
                } else {
                    Fate::ForOthers
                }
            }
        }
    }

    /// What becomes of a frame of so many bytes that is admitted now, where this client comes next.
    pub fn fate(&self, size: u64, next: Option<u32>) -> Fate
        ensures { said result ≡ fate_by self.now size next }
    {
        if self.listens {
            Fate::InStream { place: self.frames }
        } else if self.waiting.clients != 0 {
            Fate::ForOthers
        } else if self.has_room(size) {
            self.kept(next)
        } else {
            Fate::BufferFull { next }
        }
    }
}
