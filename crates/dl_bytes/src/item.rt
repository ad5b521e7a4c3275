//! What travels between a program that logs and the daemon.

ghost use Rattle.std.specs.Prelude.{◌≡◌};

use crate::id::Id;
use crate::level::Severity;
use crate::payload::Payload;

/// One log call as it lies in a ring.
#[derive(Drop)]
pub struct Item {
    /// The application's number, 0 to 15.
    pub app: u8,
    /// The writer's number, 1 to 32: the session id of the message.
    pub writer: u8,
    /// How grave it is.
    pub severity: Severity,
    /// The writer's message counter: how many of its calls passed their level before, modulo 256.
    pub mcnt: u8,
    /// The timestamp, in units of 0.1 ms.
    pub at: u32,
    /// The application's id.
    pub apid: Id,
    /// The context's id.
    pub ctid: Id,
    /// The call's number among those of its writer, from 1, filtered and lost ones included.
    pub call: u64,
    /// The arguments, at most 1390 bytes and 255 arguments.
    pub payload: Payload,
}

impl Item {
    /// The same call once more: its bytes are copied, with no memory taken.
    pub fn copy(&self) -> Item
        ensures { result ≡ self.now }
    {
        Item {
            app: self.app,
            writer: self.writer,
            severity: self.severity,
            mcnt: self.mcnt,
            at: self.at,
            apid: self.apid,
            ctid: self.ctid,
            call: self.call,
            payload: self.payload.copy(),
        }
    }
}

/// A message that the daemon hands to a running application.
#[derive(Drop)]
pub struct Injection {
    /// The place of the context that it is for, 0 to 63.
    pub place: u8,
    /// The service id, from 0xFFF on.
    pub service: u32,
    /// The bytes of the service, at most 1390.
    pub body: Payload,
}

impl Injection {
    /// The same data once more: its bytes are copied, with no memory taken.
    pub fn copy(&self) -> Injection
        ensures { result ≡ self.now }
    {
        Injection {
            place: self.place,
            service: self.service,
            body: self.body.copy(),
        }
    }
}
