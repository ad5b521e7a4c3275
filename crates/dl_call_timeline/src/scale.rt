//! Where calls stand from left to right: at their times; or at their lines, where all have one time.

ghost use Rattle.std.specs.Prelude.{◌≡◌, ◌<◌};
ghost use Rattle.dl_call_timeline.specs.Scale.{axis_by, column_of, place_of, scale_of};

use crate::call::Call;
use dl_picture::Axis;

/// Where calls stand from left to right.
#[derive(Clone, Copy, PartialEq, Eq)]
pub struct Scale {
    /// Whether they stand at their times, or else at their lines.
    pub timed: bool,
    /// The stretch of their places.
    pub axis: Axis,
}

/// Where a call stands.
fn place_of(call: &Call, timed: bool) -> u64
    ensures { result ≡ place_of timed call.now }
{
    if timed { call.ticks as u64 } else { call.line }
}

/// The stretch of the places of calls.
fn axis_by(calls: &[Call], timed: bool) -> Axis
    ensures { result ≡ axis_by timed calls.now }
{
    let mut first = u64::MAX;
    let mut last = 0;
    for call in calls {
        let place = place_of(call, timed);
        first = first.min(place);
        last = last.max(place);
    }
    Axis {
        first: first.min(last),
        last,
    }
}

impl Scale {
    /// The scale of calls.
    pub fn of(calls: &[Call]) -> Scale
        ensures { result ≡ scale_of calls.now }
    {
        let times = axis_by(calls, true);
        if times.first < times.last {
            return Scale {
                timed: true,
                axis: times,
            };
        }
        Scale {
            timed: false,
            axis: axis_by(calls, false),
        }
    }

    /// The column of a call.
    pub fn column(&self, call: &Call) -> u64
        ensures { result ≡ column_of self.now call.now }
    {
        self.axis.column(place_of(call, self.timed))
    }
}
