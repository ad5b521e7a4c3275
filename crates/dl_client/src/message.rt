//! A log message as a user message, written straight into the queue.

ghost use Rattle.std.specs.Prelude.{◌≡◌, ◌≤◌, ◌<◌, ◌+◌, ◌^◌, ◌++◌, length};
ghost use Rattle.dl_headers.specs.Header.{standard_header, extended_header};
ghost use Rattle.dl_client.specs.Area.{held};
ghost use Rattle.dl_client.specs.Message.{standard_of, extended_of, message, user_log};

use crate::area::{Area, append};
use crate::context::{Call, Sender};

/// The marker of a user message, DUH and 1, and kind 1: a log message.
const LOG: [u8; 8] = [0x44, 0x55, 0x48, 0x01, 1, 0, 0, 0];

/// HTYP: version 1, with ECU, SEID, TMSP and an extended header.
const HTYP: u8 = 0x3d;

/// Which context a message is of, and its MCNT.
#[derive(Clone, Copy)]
pub struct Source {
    /// APID: the id of the application.
    pub apid: [u8; 4],
    /// CTID: the id of the context.
    pub ctid: [u8; 4],
    /// MCNT: the message counter.
    pub mcnt: u8,
}

/// How many bytes the user message of a log message has: 34 beside the payload.
#[tactic(auto, using(crate::proofs::Lengths::message_len))]
pub fn message_len(sender: &Sender, source: &Source, call: &Call, payload: &[u8]) -> usize
    requires { length payload.now ≤ 1390 }
    ensures len { result ≡ length (user_log (message sender.now source.now call.now payload.now)) }
    ensures value { result ≡ 34 + length payload.now }
{
    22 + sender.ecu.len() + source.apid.len() + source.ctid.len() + payload.len()
}

/// Adds a log message of at most 1390 bytes of payload as a user message, which has 34 bytes more.
pub fn push_message(queue: &mut Area, sender: &Sender, source: &Source, call: &Call, payload: &[u8])
    requires severity { call.now.severity ≤ 6 }
    requires payload { length payload.now ≤ 1390 }
    requires room { length (held queue.old) + length (user_log (message sender.now source.now call.now payload.now)) ≤ length queue.old.bytes.now }
    ensures held { held queue.new ≡ held queue.old ++ user_log (message sender.now source.now call.now payload.now) }
    ensures size { length queue.new.bytes.now ≡ length queue.old.bytes.now }
{
    let len = message_len(sender, source, call, payload);
    append(queue, &LOG);
    push_standard(queue, sender, source.mcnt, call.ticks, (len - 8) as u16);
    push_extended(queue, source, call);
    append(queue, payload);
}

/// Adds the standard header, 16 bytes.
fn push_standard(queue: &mut Area, sender: &Sender, mcnt: u8, ticks: u32, len: u16)
    requires { length (held queue.old) + 16 ≤ length queue.old.bytes.now }
    ensures held { held queue.new ≡ held queue.old ++ standard_header (standard_of sender.now mcnt ticks len) }
    ensures more { length (held queue.new) ≡ length (held queue.old) + 16 }
    ensures size { length queue.new.bytes.now ≡ length queue.old.bytes.now }
{
    append(queue, &[HTYP, mcnt]);
    append(queue, &len.to_be_bytes());
    append(queue, &sender.ecu);
    append(queue, &sender.session.to_be_bytes());
    append(queue, &ticks.to_be_bytes());
}

/// Adds the extended header, 10 bytes.
fn push_extended(queue: &mut Area, source: &Source, call: &Call)
    requires severity { call.now.severity ≤ 6 }
    requires room { length (held queue.old) + 10 ≤ length queue.old.bytes.now }
    ensures held { held queue.new ≡ held queue.old ++ extended_header (extended_of source.now call.now) }
    ensures more { length (held queue.new) ≡ length (held queue.old) + 10 }
    ensures size { length queue.new.bytes.now ≡ length queue.old.bytes.now }
{
    append(queue, &[16 * call.severity + call.verbose as u8, call.args]);
    append(queue, &source.apid);
    append(queue, &source.ctid);
}
