//! The picture of a script's log calls.

ghost use Rattle.std.specs.Prelude.{◌≡◌, IfOk};
ghost use Rattle.dl_picture.specs.Picture.{chart_of};
ghost use Rattle.dl_call_timeline.specs.Timeline.{timeline};

use crate::call::Call;
use crate::marks::tally_of;
use crate::names::{column_names, title};
use crate::rows::rows_of;
use crate::scale::Scale;
use dl_bytes::{Id, OutOfMemory};
use dl_picture::Picture;
use std::alloc::Global;

/// The picture of a script's log calls: a row for each writer, in the order of their numbers from 1, each by its application.
pub fn timeline_of(
    alloc: Global,
    ecu: &Id,
    writers: &[Id],
    calls: &[Call],
) -> Result<Picture, OutOfMemory>
    ensures { IfOk result (λ shown. chart_of shown ≡ timeline ecu.now writers.now calls.now) }
{
    let scale = Scale::of(calls);
    let tally = tally_of(alloc, &scale, calls)?;
    let mut text = Vec::new(alloc);
    text.extend_from_slice(title(&scale))?;
    Ok(Picture {
        title: text,
        columns: column_names(alloc, &scale)?,
        rows: rows_of(alloc, ecu, &tally, calls, writers)?,
        filters: true,
    })
}
