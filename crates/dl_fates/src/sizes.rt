//! The sizes of the files that stored frames make.

ghost use Rattle.std.specs.Prelude.{◌≡◌, ◌<◌, ◌≤◌, ◌+◌, ◌-◌, OnOk, IfSome, IfNone, get_or, length};
ghost use Rattle.dl_fates.specs.Sizes.{going, with_frame, with_frames};

use dl_bytes::OutOfMemory;

/// How many bytes the newest file has with so many more, where they fit.
fn fitting(sizes: &[u64], limit: u32, bytes: u64) -> Option<u64>
    ensures fits { IfSome result (λ sum. (0 < length sizes.now) × (sum ≡ get_or sizes.now (length sizes.now - 1) 0 + bytes) × (sum ≤ limit)) }
    ensures above { IfNone result (0 < length sizes.now → limit < get_or sizes.now (length sizes.now - 1) 0 + bytes) }
{
    let newest = sizes.len().checked_sub(1)?;
    let sum = sizes[newest].checked_add(bytes)?;
    if sum <= limit as u64 { Some(sum) } else { None }
}

/// Puts a frame of so many bytes into the newest file where it fits, else into a new one.
fn put_frame(sizes: &mut Vec<u64>, limit: u32, bytes: u64) -> Result<(), OutOfMemory>
    ensures { OnOk result (sizes.new.items ≡ with_frame limit bytes sizes.old.items) }
{
    match fitting(sizes, limit, bytes) {
        Some(sum) => {
            let newest = sizes.len() - 1;
            sizes[newest] = sum;
        }
        None => sizes.push(bytes)?,
    }
    Ok(())
}

/// Puts so many frames, each of the same size, one after the other.
pub fn put_frames(
    sizes: &mut Vec<u64>,
    limit: u32,
    bytes: u64,
    frames: u64,
) -> Result<(), OutOfMemory>
    ensures { OnOk result (sizes.new.items ≡ with_frames limit bytes frames sizes.old.items) }
{
    for _ in 0..frames {
        put_frame(sizes, limit, bytes)?;
    }
    Ok(())
}

/// How many of the oldest files go, so that the others have together at most `limit` bytes.
pub fn going(sizes: &[u64], limit: u64) -> usize
    ensures { result ≡ going limit sizes.now }
{
    let mut first = sizes.len();
    let mut room = limit;
    while first > 0 && sizes[first - 1] <= room {
        first -= 1;
        room -= sizes[first];
    }
    first
}
