//! Rings: an item comes back exactly where the ring is full, and none comes exactly where it is empty. Calls and claims
//! come out as they went in, in whatever box.

ghost use Rattle.std.specs.Prelude.{◌≡◌, ◌≤◌, ◌<◌, IfSome};
ghost use Rattle.dl_ring.specs.Order.{writer_of};

use dl_bytes::{Claim, ClaimText, Id, Item, OwnLevel, Payload, Severity};
use dl_ring::{Call, RingItem, RingPush, RingTake, Taken, make_ring};
use std::alloc::Global;
use std::sync::Wait;

/// More items than any ring holds.
const MANY: u64 = 5000;

/// The argument of a call that carries one.
const TEXT: &[u8] = b"one argument";

/// What a writer logs at this call.
fn call_item(writer: u8, call: u64) -> Item
    ensures { result.writer ≡ writer }
{
    Item {
        app: 0,
        writer,
        call,
        apid: Id::from_bytes(*b"LOG1"),
        ctid: Id::from_bytes(*b"TEST"),
        severity: Severity::Info,
        at: 1,
        mcnt: 0,
        payload: Payload::new(),
    }
}

/// The same, for a ring.
fn item(writer: u8, call: u64) -> RingItem
    ensures { writer_of result ≡ writer }
{
    RingItem::Log(call_item(writer, call))
}

/// The claim of a writer on this place, for a context that follows the default level.
fn claim(writer: u8, place: u8) -> Option<Claim>
    requires { place < 64 }
    ensures { IfSome result (λ claim. claim.writer ≡ writer) }
{
    let ctid = Id::from_bytes([b'C', b'T', b'X', place]);
    let level = OwnLevel::of(-1)?;
    let text = ClaimText::of(b"claimed while it runs")?;
    Some(Claim::of(0, writer, place, ctid, level, text))
}

/// Pushes this call of a writer, and tells whether it came back.
fn comes_back<R: Wait>(rt: &R, push: &mut RingPush, writer: u8, call: u64) -> bool
    requires { push.old.number ≡ writer }
    ensures { (push.new.number ≡ writer) × (push.new.ring ≡ push.old.ring) }
{
    push.push(rt, item(writer, call)).is_err()
}

/// Pushes the calls of a writer from `first` on until one comes back, and answers which one that was.
fn fill<R: Wait>(rt: &R, push: &mut RingPush, writer: u8, first: u64) -> u64
    requires number { push.old.number ≡ writer }
    requires room { first < 10000 }
    ensures number { push.new.number ≡ writer }
    ensures ring { push.new.ring ≡ push.old.ring }
    ensures first { first ≤ result }
{
    for call in first..first + MANY {
        if comes_back(rt, push, writer, call) {
            return call;
        }
    }
    first + MANY
}

/// Pushes a claim of the writer 1 on this place, and answers the place that came back, if one did.
fn refused_place<R: Wait>(rt: &R, push: &mut RingPush, place: u8) -> Option<u8>
    requires number { push.old.number ≡ 1 }
    requires place { place < 64 }
    ensures { (push.new.number ≡ 1) × (push.new.ring ≡ push.old.ring) }
{
    let claim = claim(1, place)?;
    match push.push(rt, RingItem::Register(claim)) {
        Err(RingItem::Register(back)) => Some(back.place()),
        _ => None,
    }
}

/// The place that the next take claims, if it gives a claim. The caller's item is where a call would come.
fn claimed_place<R: Wait>(rt: &R, take: &mut RingTake, kept: &mut Item) -> Option<u8>
    ensures { take.new.ring ≡ take.old.ring }
{
    match take.take_into(rt, kept) {
        Taken::Claim(claim) => Some(claim.place()),
        _ => None,
    }
}

/// Pushes this call of the writer 1, which carries an argument, and tells whether the ring had room.
fn push_call<R: Wait>(rt: &R, push: &mut RingPush, call: u64) -> bool
    requires { push.old.number ≡ 1 }
    ensures { push.new.number ≡ 1 }
{
    push.push_call(rt, &Call::of(&call_item(1, call)), &Payload::of(TEXT, 1))
}

/// The call that the next take copies into the caller's item, if it gives one with its argument.
fn copied_call<R: Wait>(rt: &R, take: &mut RingTake, kept: &mut Item) -> Option<u64> {
    match take.take_into(rt, kept) {
        Taken::Call if kept.payload.bytes() == TEXT && kept.payload.args() == 1 => Some(kept.call),
        _ => None,
    }
}

/// Whether the next takes give the calls of a writer from `first` up to `end`, in order.
fn gives<R: Wait>(rt: &R, take: &mut RingTake, writer: u8, first: u64, end: u64) -> bool
    ensures { take.new.ring ≡ take.old.ring }
{
    for call in first..end {
        let Some(RingItem::Log(item)) = take.take(rt) else {
            return false;
        };
        if item.writer != writer || item.call != call {
            return false;
        }
    }
    true
}

/// Pushes so many calls of the writers 1 and 2 in turn, and tells whether the ring took them all.
fn fill_in_turn<R: Wait>(rt: &R, one: &mut RingPush, two: &mut RingPush, calls: u64) -> bool
    requires numbers { (one.old.number ≡ 1) × (two.old.number ≡ 2) }
    ensures one { (one.new.number ≡ 1) × (one.new.ring ≡ one.old.ring) }
    ensures two { (two.new.number ≡ 2) × (two.new.ring ≡ two.old.ring) }
{
    for call in 0..calls {
        if comes_back(rt, one, 1, call) || comes_back(rt, two, 2, call) {
            return false;
        }
    }
    true
}

/// Whether the next takes give so many calls of the writers 1 and 2 in turn.
fn gives_in_turn<R: Wait>(rt: &R, take: &mut RingTake, calls: u64) -> bool
    requires { calls < 10000 }
    ensures { take.new.ring ≡ take.old.ring }
{
    for call in 0..calls {
        if !gives(rt, take, 1, call, call + 1) || !gives(rt, take, 2, call, call + 1) {
            return false;
        }
    }
    true
}

/// Of a ring of this size: whether it takes just so many calls, gives the first half of them, and then takes as many again as it gave.
fn is_exact<R: Wait>(rt: &R, push: &mut RingPush, take: &mut RingTake, size: u64) -> [bool; 5]
    requires number { push.old.number ≡ 0 }
    requires size { size ≤ 4096 }
{
    let half = size.div_ceil(2);
    [
        fill(rt, push, 0, 0) == size,
        gives(rt, take, 0, 0, half),
        fill(rt, push, 0, size) == size + half,
        gives(rt, take, 0, half, size + half),
        take.take(rt).is_none(),
    ]
}

/// The same of a ring that was just made.
fn is_exact_at<R: Wait>(rt: &R, alloc: Global, capacity: u16) -> [bool; 5]
    requires { (1 ≤ capacity) × (capacity ≤ 4096) }
{
    match make_ring(alloc, capacity) {
        Ok((mut push, mut take)) => is_exact(rt, &mut push, &mut take, u64::from(capacity)),
        Err(_) => [false; 5],
    }
}

#[test]
fn ring_exact_at_each_capacity(rt: HostRuntime) {
    assert!(rt; is_exact_at(&rt, rt.alloc(), 1) == [true; 5]);
    assert!(rt; is_exact_at(&rt, rt.alloc(), 2) == [true; 5]);
    assert!(rt; is_exact_at(&rt, rt.alloc(), 3) == [true; 5]);
    assert!(rt; is_exact_at(&rt, rt.alloc(), 16) == [true; 5]);
    assert!(rt; is_exact_at(&rt, rt.alloc(), 4096) == [true; 5]);
}

/// Whether a ring of sixteen takes eight calls of each of two writers, refuses the ninth, and gives the eight in turn and nothing more.
fn is_exact_in_turn<R: Wait>(
    rt: &R,
    one: &mut RingPush,
    two: &mut RingPush,
    take: &mut RingTake,
) -> [bool; 5]
    requires numbers { (one.old.number ≡ 1) × (two.old.number ≡ 2) }
    ensures one { one.new.ring ≡ one.old.ring }
    ensures two { two.new.ring ≡ two.old.ring }
    ensures take { take.new.ring ≡ take.old.ring }
{
    [
        fill_in_turn(rt, one, two, 8),
        comes_back(rt, one, 1, 9),
        comes_back(rt, two, 2, 9),
        gives_in_turn(rt, take, 8),
        take.take(rt).is_none(),
    ]
}

/// The same of a ring that was just made, and how many pushes of each pass were refused.
fn two_writers<R: Wait>(rt: &R, alloc: Global) -> Option<([bool; 5], [u64; 3])> {
    match make_ring(alloc, 16) {
        Ok((mut first, mut take)) => {
            let mut one = first.split(1);
            let mut two = first.split(2);
            let are_so = is_exact_in_turn(rt, &mut one, &mut two, &mut take);
            let refused = [take.join(one), take.join(two), take.join(first)];
            take.look();
            Some((are_so, refused))
        }
        Err(_) => None,
    }
}

#[test]
fn ring_exact_of_two_writers(rt: HostRuntime) {
    assert!(rt; two_writers(&rt, rt.alloc()) == Some(([true; 5], [1, 1, 0])));
}

/// Whether a ring of two takes two claims, refuses the third, and gives the two and nothing more; the caller's item stays.
fn is_exact_of_claims<R: Wait>(
    rt: &R,
    push: &mut RingPush,
    take: &mut RingTake,
    kept: &mut Item,
) -> [bool; 7]
    requires { push.old.number ≡ 1 }
    ensures push { push.new.ring ≡ push.old.ring }
    ensures take { take.new.ring ≡ take.old.ring }
{
    [
        refused_place(rt, push, 5).is_none(),
        refused_place(rt, push, 63).is_none(),
        refused_place(rt, push, 8) == Some(8),
        claimed_place(rt, take, kept) == Some(5),
        claimed_place(rt, take, kept) == Some(63),
        matches!(take.take_into(rt, kept), Taken::Nothing),
        kept.call == 7,
    ]
}

/// The same of a ring that was just made, and how many pushes were refused.
fn claims_of_one<R: Wait>(rt: &R, alloc: Global) -> Option<([bool; 7], u64)> {
    match make_ring(alloc, 2) {
        Ok((mut first, mut take)) => {
            let mut push = first.split(1);
            let are_so = is_exact_of_claims(rt, &mut push, &mut take, &mut call_item(2, 7));
            Some((are_so, take.join(push)))
        }
        Err(_) => None,
    }
}

#[test]
fn ring_exact_of_claims(rt: HostRuntime) {
    assert!(rt; claims_of_one(&rt, rt.alloc()) == Some(([true; 7], 1)));
}

/// Whether a ring of one holds a claim and then a call, each in turn.
fn holds_both<R: Wait>(
    rt: &R,
    push: &mut RingPush,
    take: &mut RingTake,
    kept: &mut Item,
    turn: u8,
) -> bool
    requires number { push.old.number ≡ 1 }
    requires place { turn < 64 }
    ensures { push.new.number ≡ 1 }
{
    let call = u64::from(turn);
    refused_place(rt, push, turn).is_none()
        && claimed_place(rt, take, kept) == Some(turn)
        && push_call(rt, push, call)
        && !push_call(rt, push, call)
        && copied_call(rt, take, kept) == Some(call)
}

/// The same 64 times.
fn holds_both_in_turn<R: Wait>(rt: &R, push: &mut RingPush, take: &mut RingTake) -> bool
    requires { push.old.number ≡ 1 }
{
    let mut kept = call_item(2, 7);
    for turn in 0..64u8 {
        if !holds_both(rt, push, take, &mut kept, turn) {
            return false;
        }
    }
    true
}

/// The same of a ring that was just made.
fn boxes_hold_both<R: Wait>(rt: &R, alloc: Global) -> bool {
    match make_ring(alloc, 1) {
        Ok((mut first, mut take)) => holds_both_in_turn(rt, &mut first.split(1), &mut take),
        Err(_) => false,
    }
}

#[test]
fn ring_boxes_hold_claims_and_calls_in_turn(rt: HostRuntime) {
    assert!(rt; boxes_hold_both(&rt, rt.alloc()));
}
