//! The state of a program that logs, in memory that was handed in.

ghost use Rattle.std.specs.Prelude.{◌≡◌, false};
ghost use Rattle.dl_client.specs.Program.{NoneLost};

use crate::area::Area;
use crate::context::{Context, Sender};

/// A program's contexts by their places, and the bytes that wait for the link to the daemon.
#[repr(C)]
#[derive(Drop)]
pub struct Client<'a> {
    /// The contexts. A context's place is its position in user messages.
    pub contexts: &'a mut [Context],
    /// The user messages that wait, one behind the other.
    pub queue: Area<'a>,
    /// What each message says of the program.
    pub sender: Sender,
    /// MCNT of the next account.
    pub accounts: u8,
    /// Whether a loss may be untold.
    pub untold: bool,
    ghost told: { untold ≡ false → NoneLost contexts.now },
}
