//! A stream of messages that comes in any pieces, cut into its messages.

ghost use Rattle.std.specs.Prelude.{◌≡◌, ◌≤◌, ◌<◌, ◌+◌, ◌-◌, ◌++◌, [], length, take, min, None, Some, IfOk, IfSome};
ghost use Rattle.std.specs.Result.{result_err};
ghost use Rattle.dl_message.specs.Cut.{without_serial, message_fault, IsShort, IsWholeMessage};

use dl_bytes::{Buffer, OutOfMemory};
use dl_headers::{HeaderFault, read_front};
use std::alloc::Global;
use std::marker::Model;

/// Four bytes that may stand before a message, as on a serial line.
const SERIAL_HEADER: [u8; 4] = [0x44, 0x4c, 0x53, 0x01];

/// What a cutter found in the bytes that it was fed.
#[derive(Clone, Copy, PartialEq, Eq)]
pub enum Cut {
    /// The next message, which `Cutter::message` lends.
    Message,
    /// What is left is no whole message yet.
    NeedMore,
    /// No message begins with what is left. This stays so for good.
    Bad(HeaderFault),
}

/// Cuts a stream into its messages, in whatever pieces it comes. It has room for one message of the greatest length and
/// takes memory in `make` alone. Each byte is copied once and moved at most once more.
#[derive(Drop)]
pub struct Cutter {
    buffer: Buffer,
    limit: u16,
    /// How many of the buffer's first bytes are the message last given.
    message_len: usize,
    /// Whether a bad header was met.
    closed: bool,
}

impl Model for Cutter {
    ghost use Rattle.std.specs.Prelude.{take, drop, if◌then◌else◌};
    ghost use Rattle.dl_message.specs.Cutting.{Cutting, IsKept};

    ghost Value = { Cutting };

    ghost view = { λ c. record {
      limit = c.limit;
      unread = drop c.message_len c.buffer.bytes;
      message = take c.message_len c.buffer.bytes;
      room = if c.closed then 0 else c.buffer.room;
    } };

    ghost invariant = { λ c. IsKept c.limit c.message_len c.buffer c.closed };
}

impl Cutter {
    ghost use Rattle.dl_message.specs.Cutting.{unfed, Feeds, Cuts};

    /// A cutter of messages whose LEN is at most the limit.
    pub fn make(alloc: Global, limit: u16) -> Result<Cutter, OutOfMemory>
        requires { 30 ≤ limit }
        ensures { IfOk result (λ cutter. cutter ≡ unfed limit) }
    {
        Ok(Cutter {
            buffer: Buffer::make(alloc, limit as usize + SERIAL_HEADER.len())?,
            limit,
            message_len: 0,
            closed: false,
        })
    }

    /// Takes as many of the first bytes of the piece as there is room for, and answers how many.
    pub fn feed(&mut self, piece: &[u8]) -> usize
        ensures { Feeds self.old piece.now result self.new }
    {
        self.buffer.consume(self.message_len);
        self.message_len = 0;
        if self.closed {
            return 0;
        }
        self.buffer.feed(piece)
    }

    /// Finds what begins the bytes that were fed and not given: a message, which may have a serial header before it, less
    /// than a message, or a bad header. Feed more only after `NeedMore`: until then there may be no room.
    pub fn next(&mut self) -> Cut
        ensures answer { Cuts self.old result self.new }
        ensures whole { result ≡ Cut.Message → IsWholeMessage self.new.limit self.new.message }
    {
        self.buffer.consume(self.message_len);
        self.message_len = 0;
        let held = self.buffer.bytes();
        let front = without_serial(held);
        match whole_len(front, self.limit) {
            Ok(Some(len)) => {
                let serial_len = held.len() - front.len();
                self.buffer.consume(serial_len);
                self.message_len = len;
                Cut::Message
            }
            Ok(None) => {
                self.buffer.compact();
                Cut::NeedMore
            }
            Err(fault) => {
                self.closed = true;
                Cut::Bad(fault)
            }
        }
    }

    /// Forgets all that was fed, a bad header too: it is as `make` left it, and takes no memory.
    pub fn clear(&mut self)
        ensures { self.new ≡ unfed self.old.limit }
    {
        let held = self.buffer.bytes().len();
        self.buffer.consume(held);
        self.buffer.compact();
        self.message_len = 0;
        self.closed = false;
    }

    /// The message last given, without a serial header. The next `feed` or `next` lets it go: then it is empty, or the
    /// next message.
    pub fn message(&self) -> &[u8]
        ensures { result.now ≡ self.now.message }
    {
        &self.buffer.bytes()[..self.message_len]
    }
}

/// What stands behind a serial header, where there is one.
fn without_serial(bytes: &[u8]) -> &[u8]
    ensures { result.now ≡ without_serial bytes.now }
{
    bytes.strip_prefix(&SERIAL_HEADER).unwrap_or(bytes)
}

/// How long the whole message is with which the bytes begin; None where they are less than a message.
fn whole_len(bytes: &[u8], limit: u16) -> Result<Option<usize>, HeaderFault>
    ensures fault { result_err result ≡ message_fault limit bytes.now }
    ensures short { result ≡ Ok None → IsShort bytes.now }
    ensures within { IfOk result (λ found. IfSome found (λ len. len ≤ length bytes.now)) }
    ensures whole { IfOk result (λ found. IfSome found (λ len. IsWholeMessage limit (take len bytes.now))) }
{
    if bytes.len() < 4 {
        return Ok(None);
    }
    let front = read_front(bytes)?;
    if front.len > limit {
        return Err(HeaderFault::Length(front.len));
    }
    let len = front.len as usize;
    Ok(if bytes.len() < len { None } else { Some(len) })
}
