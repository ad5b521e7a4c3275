//! A client in its turn.

use dl_message::Cutter;

/// A client that is listened to.
#[derive(Drop)]
pub struct Client<'a> {
    /// Its number.
    pub number: u32,
    /// What cuts the bytes that it sent. It holds those that are no whole message yet.
    pub cutter: &'a mut Cutter,
    /// How many of its requests were served.
    pub served: &'a mut u32,
}
