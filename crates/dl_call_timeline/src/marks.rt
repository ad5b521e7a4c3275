//! What calls count, in the columns of their writers.

ghost use Rattle.std.specs.Prelude.{◌≡◌, ◌++◌, List, IfOk, OnOk};
ghost use Rattle.std.specs.Option.{option_map_or};
ghost use Rattle.dl_picture.specs.Tally.{Keeps};
ghost use Rattle.dl_picture.specs.declared.tally.Mark.{Mark};
ghost use Rattle.dl_call_timeline.specs.Marks.{call_marks, marks_of, own_mark, record_mark, record_marks};
ghost use Rattle.dl_call_timeline.specs.Records.{KeepsColumns};
ghost use Rattle.dl_call_timeline.specs.declared.call.Call.{Call};

use crate::call::{Call, RecordName};
use crate::records::Columns;
use crate::scale::Scale;
use dl_bytes::OutOfMemory;
use dl_picture::{Bin, Cell, Mark, Tally, no_bin};
use std::alloc::Global;

/// What a call counts itself.
fn own_mark(scale: &Scale, call: &Call) -> Mark
    ensures { result ≡ own_mark scale.now call.now }
{
    Mark {
        cell: Cell {
            row: call.writer as u64,
            column: scale.column(call),
        },
        bin: call.counted(),
    }
}

/// What a record counts that tells of a call of this writer.
fn record_mark(columns: &Columns, writer: u8, name: RecordName) -> Mark
    ensures { (scale : Scale) (calls : List Call) → KeepsColumns scale calls columns.now.records → result ≡ record_mark scale calls writer name }
{
    Mark {
        cell: Cell {
            row: writer as u64,
            column: columns.column(name),
        },
        bin: Bin {
            lost: 1,
            first_line: name.line,
            last_line: name.line,
            ..no_bin()
        },
    }
}

/// Counts the record that tells of a call, where one does.
fn add_record(tally: &mut Tally, columns: &Columns, call: &Call) -> Result<(), OutOfMemory>
    ensures { (scale : Scale) (calls : List Call) (marks : List Mark) → KeepsColumns scale calls columns.now.records → Keeps tally.old marks
        → OnOk result (Keeps tally.new (marks ++ record_marks scale calls call.now)) }
{
    let Some(name) = call.teller() else {
        return Ok(());
    };
    tally.add(&record_mark(columns, call.writer, name))
}

/// Counts a call.
fn add_call(
    tally: &mut Tally,
    scale: &Scale,
    columns: &Columns,
    call: &Call,
) -> Result<(), OutOfMemory>
    ensures { (calls : List Call) (marks : List Mark) → KeepsColumns scale.now calls columns.now.records → Keeps tally.old marks
        → OnOk result (Keeps tally.new (marks ++ call_marks scale.now calls call.now)) }
{
    tally.add(&own_mark(scale, call))?;
    add_record(tally, columns, call)
}

/// What calls count.
pub fn tally_of(alloc: Global, scale: &Scale, calls: &[Call]) -> Result<Tally, OutOfMemory>
    ensures { IfOk result (λ tally. Keeps tally (marks_of scale.now calls.now)) }
{
    let columns = Columns::of(alloc, scale, calls)?;
    let mut tally = Tally::new(alloc);
    for call in calls {
        add_call(&mut tally, scale, &columns, call)?;
    }
    Ok(tally)
}
