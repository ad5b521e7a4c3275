//! The frames of a stream, which stand one behind the other: each tells its length.

ghost use Rattle.std.specs.Prelude.{◌≡◌, ◌≤◌, ◌<◌, ◌++◌, List, ℕ, length, OnOk};
ghost use Rattle.std.specs.List.{concat, AllByRecursion};
ghost use Rattle.dl_bytes.specs.Htyp.{len_of};
ghost use Rattle.dl_laws.specs.Frames.{TellsLen};

use byteorder::{BigEndian, ByteOrder};
use dl_bytes::{Bytes, OutOfMemory};
use std::alloc::Global;

/// The fewest bytes of a frame: its standard header without any optional field.
const LEAST_LEN: usize = 4;

/// Adds the frames that these bytes are. Those of one frame are not copied.
pub fn add_frames(alloc: Global, bytes: Vec<u8>, frames: &mut Vec<Bytes>) -> Result<(), OutOfMemory>
    ensures { OnOk result ((parts : List (List ℕ)) → AllByRecursion TellsLen parts → bytes.items ≡ concat parts
        → frames.new.items ≡ frames.old.items ++ parts) }
{
    if bytes.len() >= LEAST_LEN && first_len(&bytes) == bytes.len() {
        frames.push(Bytes::over(bytes))?;
        return Ok(());
    }
    add_copies(alloc, &bytes, frames)
}

/// Adds a copy of each frame that these bytes are.
fn add_copies(alloc: Global, bytes: &[u8], frames: &mut Vec<Bytes>) -> Result<(), OutOfMemory>
    ensures { OnOk result ((parts : List (List ℕ)) → AllByRecursion TellsLen parts → bytes.now ≡ concat parts
        → frames.new.items ≡ frames.old.items ++ parts) }
{
    let mut rest = bytes;
    while !rest.is_empty() {
        let (frame, behind) = rest.split_at(first_len(rest));
        frames.push(Bytes::over(Vec::from_slice(alloc, frame)?))?;
        rest = behind;
    }
    Ok(())
}

/// The length of the first frame: its field LEN. Where that can't be, all bytes.
fn first_len(bytes: &[u8]) -> usize
    requires { 0 < length bytes.now }
    ensures within { result ≤ length bytes.now }
    ensures some { 0 < result }
    ensures value { 4 ≤ length bytes.now → 4 ≤ len_of bytes.now → len_of bytes.now ≤ length bytes.now → result ≡ len_of bytes.now }
{
    if bytes.len() < LEAST_LEN {
        return bytes.len();
    }
    let len = BigEndian::read_u16(&bytes[2..]) as usize;
    if len < LEAST_LEN || bytes.len() < len {
        return bytes.len();
    }
    len
}
