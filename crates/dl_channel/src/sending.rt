//! What waits for a program goes through its link.

ghost use Rattle.std.specs.Prelude.{◌≡◌, ◌≤◌, length, take, drop};
ghost use Rattle.dl_channel.specs.Pumping.{HasSent};

use crate::outcome::ChannelEnd;
use circular_buffer::HeapCircularBuffer;
use dl_outside::{Link, Sends};

/// Sends what waits, until nothing is left or the link takes nothing more. The answer is why the channel ends, where it does.
pub fn send_all<L: Link>(outbox: &mut HeapCircularBuffer<u8>, link: &mut L) -> Option<ChannelEnd>
    ensures sent { HasSent result outbox.old.items outbox.new.items (L.told link.old) (L.told link.new) }
    ensures capacity { outbox.new.capacity ≡ outbox.old.capacity }
{
    loop {
        let piece = front(outbox);
        if piece.is_empty() {
            return None;
        }
        match link.send(piece) {
            Sends::Bytes(count) => consume(outbox, count),
            Sends::Busy => return None,
            Sends::Failed => return Some(ChannelEnd::Broken),
        }
    }
}

/// Bytes from the front, as many as stand together; none only where there are none.
fn front(outbox: &HeapCircularBuffer<u8>) -> &[u8]
    ensures front { result.now ≡ take (length result.now) outbox.now.items }
    ensures within { length result.now ≤ length outbox.now.items }
    ensures some { length result.now ≡ 0 → length outbox.now.items ≡ 0 }
{
    let (first, second) = outbox.as_slices();
    if first.is_empty() { second } else { first }
}

/// Takes this many bytes from the front.
fn consume(outbox: &mut HeapCircularBuffer<u8>, count: usize)
    requires { count ≤ length outbox.old.items }
    ensures items { outbox.new.items ≡ drop count outbox.old.items }
    ensures capacity { outbox.new.capacity ≡ outbox.old.capacity }
{
    let left = outbox.len() - count;
    outbox.truncate_front(left);
}
