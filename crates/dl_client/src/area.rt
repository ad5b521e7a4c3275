//! Bytes in memory that was handed in, of which the first ones hold something.

ghost use Rattle.std.specs.Prelude.{◌≡◌, ◌≤◌, ◌+◌, ◌-◌, ◌++◌, length, take, drop};
ghost use Rattle.dl_client.specs.Area.{held};

mod bytes;

pub use bytes::Area;

/// How many bytes more there is room for.
pub fn room(area: &Area) -> usize
    ensures { length (held area.now) + result ≡ length area.now.bytes.now }
{
    area.bytes.len() - area.used
}

/// The bytes that hold something.
pub fn filled<'a>(area: &'a Area) -> &'a [u8]
    ensures { result.now ≡ held area.now }
{
    &area.bytes[..area.used]
}

/// Adds these bytes behind those that are there.
pub fn append(area: &mut Area, piece: &[u8])
    requires { length (held area.old) + length piece.now ≤ length area.old.bytes.now }
    ensures held { held area.new ≡ held area.old ++ piece.now }
    ensures size { length area.new.bytes.now ≡ length area.old.bytes.now }
{
    let start = area.used;
    let end = start + piece.len();
    area.bytes[start..end].copy_from_slice(piece);
    area.used = end;
}

/// Removes the first bytes.
pub fn drop_front(area: &mut Area, count: usize)
    requires { count ≤ length (held area.old) }
    ensures held { held area.new ≡ drop count (held area.old) }
    ensures size { length area.new.bytes.now ≡ length area.old.bytes.now }
{
    let end = area.used;
    let bytes = &mut *area.bytes;
    shift(bytes, count, end);
    area.used = end - count;
}

/// Moves the bytes from `start` up to `end` to the front.
fn shift(bytes: &mut [u8], start: usize, end: usize)
    requires start { start ≤ end }
    requires end { end ≤ length bytes.old }
    ensures { take (end - start) bytes.new ≡ drop start (take end bytes.old) }
{
    bytes.copy_within(start..end, 0);
}
