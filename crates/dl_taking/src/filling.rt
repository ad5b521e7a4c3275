//! A batch filled from a ring.

ghost use Rattle.std.specs.Prelude.{◌≡◌, ◌<◌, ◌≤◌, ◌&&◌, nat_lt, is_none, length};
ghost use Rattle.std.specs.Option.{IsNone};
ghost use Rattle.dl_taking.specs.Filling.{Fills};
ghost use Rattle.dl_taking.specs.Took.{empties_now};

use crate::batch::Batch;
use crate::call_source::CallSource;
use dl_bytes::Claim;
use dl_desk::Taken;
use std::sync::Wait;

/// Takes the oldest of an application's ring, so many at most: calls, which make the batch, up to the first claim, which is the answer. Without
/// one they are fewer only where it found the ring empty.
pub fn fill<R: Wait, D: CallSource>(
    rt: &R,
    desk: &mut D,
    batch: &mut Batch,
    app: u8,
    most: usize,
) -> Option<Claim>
    requires app { app < length (D.specs desk.old) }
    requires most { most ≤ 64 }
    ensures fills { Fills app most result (D.took desk.old) (D.took desk.new) batch.new }
    ensures empties { D.empties desk.new ≡ empties_now app (is_none result && nat_lt (length batch.new) most) (D.empties desk.old) }
    ensures given { IsNone result → length batch.new < most → D.has_given desk.new app }
    ensures told { D.told desk.new ≡ D.told desk.old }
    ensures rest { D.same_but_taken desk.old desk.new }
{
    batch.clear();
    while batch.len() < most {
        match batch.take(rt, desk, app) {
            Taken::Call => {}
            Taken::Claim(claim) => return Some(claim),
            Taken::Nothing => return None,
        }
    }
    None
}
