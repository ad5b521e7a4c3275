//! The requests in what a client sends.

ghost use Rattle.std.specs.Prelude.{◌≡◌, ◌++◌};
ghost use Rattle.dl_bytes.specs.Limits.{message_limit};
ghost use Rattle.dl_message.specs.Cut.{IsWholeMessage};
ghost use Rattle.dl_message.specs.Requests.{asks};
ghost use Rattle.dl_turns.specs.Sent.{Finds};

use dl_message::{Cut, Cutter, read_message};

/// What comes next in the bytes of a client.
#[derive(Clone, Copy, PartialEq, Eq)]
pub enum Next {
    /// A request, which `Cutter::message` lends. So many bytes of the piece were fed.
    Request(usize),
    /// No request is whole; all bytes of the piece were fed.
    NoMore,
    /// No message begins with what is left.
    Bad,
}

/// Finds the next request in what a cutter holds and in a piece that comes behind it. Other messages are passed over.
pub fn next_request(cutter: &mut Cutter, piece: &[u8]) -> Next
    requires { cutter.old.limit ≡ message_limit }
    ensures limit { cutter.new.limit ≡ message_limit }
    ensures finds { Finds (cutter.old.unread ++ piece.now) piece.now result cutter.new }
{
    let mut taken = 0;
    loop {
        match cutter.next() {
            Cut::Message if is_request(cutter.message()) => return Next::Request(taken),
            Cut::Message => {}
            Cut::NeedMore if taken == piece.len() => return Next::NoMore,
            Cut::NeedMore => taken += cutter.feed(&piece[taken..]),
            Cut::Bad(_) => return Next::Bad,
        }
    }
}

/// Whether a whole message asks for something.
fn is_request(message: &[u8]) -> bool
    requires { IsWholeMessage message_limit message.now }
    ensures { result ≡ asks message.now }
{
    match read_message(message) {
        Ok(parts) => parts.is_request(),
        Err(_) => false,
    }
}
