//! A context of an application, what its messages say of their sender, and one log call.

use dl_bytes::OwnLevel;

/// A context, with its level and its counts since its last account.
#[repr(C)]
#[derive(Clone, Copy)]
pub struct Context {
    /// APID: the id of the application.
    pub apid: [u8; 4],
    /// CTID: the id of the context.
    pub ctid: [u8; 4],
    /// The log level, 0 (off) to 6 (verbose): calls of a severity above it are filtered.
    pub level: u8,
    /// MCNT of the context's next message, which counts calls that were not filtered, modulo 256.
    pub mcnt: u8,
    /// How many calls the level filtered.
    pub filtered: u64,
    /// How many calls had their message queued.
    pub queued: u64,
    /// How many calls found no room in the queue.
    pub lost: u64,
}

/// What each message says of the program that sends it.
#[repr(C)]
#[derive(Clone, Copy)]
pub struct Sender {
    /// ECU: the control unit.
    pub ecu: [u8; 4],
    /// SEID: the session, the process id of the program.
    pub session: u32,
}

/// What a log call says beside its payload.
#[repr(C)]
#[derive(Clone, Copy)]
pub struct Call {
    /// The severity, 1 (fatal) to 6 (verbose): MTIN of the extended header.
    pub severity: u8,
    /// Whether the payload has verbose arguments, or else a message id and plain values: VERB of the extended header.
    pub verbose: bool,
    /// NOAR: how many arguments the payload has.
    pub args: u8,
    /// TMSP: when it was made, in units of 0.1 ms.
    pub ticks: u32,
}

/// A context as it is registered.
#[derive(Clone, Copy)]
pub struct Opening<'a> {
    /// APID: the id of the application.
    pub apid: [u8; 4],
    /// CTID: the id of the context.
    pub ctid: [u8; 4],
    /// The level until the daemon tells one, 0 to 6.
    pub level: u8,
    /// The level of its own that it asks for, or none to follow the daemon's default level.
    pub own: OwnLevel,
    /// The process id of the program.
    pub pid: u32,
    /// The description, at most 255 bytes.
    pub text: &'a [u8],
}
