//! One thing that the daemon did.

use dl_bytes::{Bytes, Claim, Done, Level, Moment, UserMsg};

/// Why a client's connection ended.
#[derive(Clone, Copy, PartialEq, Eq)]
pub enum Why {
    /// The client left.
    Left,
    /// Its link failed.
    Broken,
    /// The next frames needed more room than its outbox had.
    Slow {
        /// How many more bytes its outbox could take.
        room: u64,
        /// How many bytes were to be put.
        need: u64,
    },
    /// A message that it sent has a bad header.
    Malformed,
    /// It sent more than 1000 requests.
    TooMany,
    /// There was no memory for its request.
    NoMemory,
    /// At the daemon's stop its link took nothing more.
    Stuck {
        /// How many bytes its outbox still held.
        left: u64,
    },
    /// The daemon stopped, with nothing left to send.
    Stopped,
}

/// One thing that the daemon did, in the order of the journal.
#[derive(Drop)]
pub enum Event {
    /// It took a log call from an application's ring, and admitted its frame.
    Log {
        /// The application's number, 0 to 15.
        app: u8,
        /// The writer's number, 1 to 32.
        writer: u8,
        /// The call's number among those of its writer, from 1.
        call: u64,
        /// When.
        moment: Moment,
    },
    /// It took the count of calls that an application's full ring refused, and admitted overflow records.
    Lost {
        /// The application's number, 0 to 15.
        app: u8,
        /// How many, at least one.
        count: u64,
        /// When.
        moment: Moment,
    },
    /// A user message came, accepted or not.
    User {
        /// The channel on which it came: 0 is this process.
        channel: u16,
        /// The message.
        msg: UserMsg,
        /// When.
        moment: Moment,
    },
    /// It took a writer's claim from an application's ring: a context came, or got a further place.
    Claim {
        /// The claim.
        claim: Claim,
        /// When.
        moment: Moment,
    },
    /// It published the level of a context.
    Level {
        /// 64 times the application's number and the context's place.
        slot: u16,
        /// The level that filters there from now on.
        level: Level,
    },
    /// A client connected.
    Connect {
        /// The client's number, from 1.
        client: u32,
    },
    /// It served a client's request, and put the reply.
    Request {
        /// The client's number.
        client: u32,
        /// The whole message of the request, from its standard header on.
        frame: Bytes,
        /// What the folder, or the application's queue, answered.
        done: Done,
    },
    /// A client's connection ended.
    Close {
        /// The client's number.
        client: u32,
        /// Why.
        why: Why,
    },
}
