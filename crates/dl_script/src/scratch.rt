//! What is kept from line to line, so that memory is taken and blanked once.

use dl_bytes::Payload;
use std::alloc::Global;

/// The fields of a line, and the arguments of a log call. One serves all lines of a script.
#[derive(Drop)]
pub struct Scratch<'a> {
    /// The fields of the line that was cut last.
    pub fields: Vec<&'a str>,
    /// The arguments of the log call that was read last.
    pub payload: Payload,
}

impl<'a> Scratch<'a> {
    /// No field and no argument.
    pub fn new(alloc: Global) -> Scratch<'a> {
        Scratch {
            fields: Vec::new(alloc),
            payload: Payload::new(),
        }
    }
}
