//! The arguments of a call, as they stand in its payload.

ghost use Rattle.std.specs.Prelude.{◌≡◌, ◌<◌, ◌≤◌, ◌+◌, ◌++◌, length, map, true, false};
ghost use Rattle.dl_args.specs.Argument.{argument, joined};
ghost use Rattle.dl_client.specs.Area.{held};

use crate::area::{Area, append, room};

/// Adds an argument, its type info and its fields one after the other, where there is room.
pub fn add_argument(payload: &mut Area, info: u32, fields: &[&[u8]]) -> bool
    ensures added { result ≡ true → held payload.new ≡ held payload.old ++ argument info (map (λ f. f.now) fields.now) }
    ensures full { result ≡ false → (length payload.old.bytes.now < length (held payload.old) + length (argument info (map (λ f. f.now) fields.now))) × (held payload.new ≡ held payload.old) }
    ensures size { length payload.new.bytes.now ≡ length payload.old.bytes.now }
{
    let left = room(payload);
    if left < 4 || !fields_fit(fields, left - 4) {
        return false;
    }
    push_argument(payload, info, fields);
    true
}

/// The same where it is known that there is room.
#[tactic(auto, using(dl_args::proofs::Joined::joined_drop, dl_args::proofs::Joined::length_joined, std::proofs::lemmas::List::append_assoc))]
pub fn push_argument(payload: &mut Area, info: u32, fields: &[&[u8]])
    requires { length (held payload.old) + length (argument info (map (λ f. f.now) fields.now)) ≤ length payload.old.bytes.now }
    ensures held { held payload.new ≡ held payload.old ++ argument info (map (λ f. f.now) fields.now) }
    ensures size { length payload.new.bytes.now ≡ length payload.old.bytes.now }
{
    append(payload, &info.to_le_bytes());
    for field in fields {
        append(payload, field);
    }
}

/// Whether there is room for the fields.
#[tactic(auto, using(dl_args::proofs::Joined::joined_drop, dl_args::proofs::Joined::length_joined))]
fn fields_fit(fields: &[&[u8]], room: usize) -> bool
    ensures fit { result ≡ true → length (joined fields.now) ≤ room }
    ensures more { result ≡ false → room < length (joined fields.now) }
{
    let mut left = room;
    for field in fields {
        if left < field.len() {
            return false;
        }
        left -= field.len();
    }
    true
}
