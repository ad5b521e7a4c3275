//! The timeline of a stream: for each session, what each column of time has.

ghost use Rattle.std.specs.Prelude.{◌≡◌, ◌++◌, ◌∷◌, [], ℕ, List, IfOk, OnOk, map, unwrap_or};
ghost use Rattle.std.specs.HashMap as hash;
ghost use Rattle.std.specs.List.{flat_map, range_with_len};
ghost use Rattle.dl_picture.specs.Picture.{chart_of};
ghost use Rattle.dl_picture.specs.Row.{shown};
ghost use Rattle.dl_picture.specs.Tally.{no_bin};
ghost use Rattle.dl_sessions.specs.Account.{IsAfter, holes, sessions, totals_of};
ghost use Rattle.dl_sessions.specs.Gaps.{entries};
ghost use Rattle.dl_sessions.specs.declared.session.Told.{Told};
ghost use Rattle.dl_timeline.specs.Timeline.{IsTimeline, KeepsMarks, KeepsReports, axis_of, bin_of, column_behind, column_name, hole_mark, message_mark, name_text, note_text, report_of, reported, reports_from, reports_of, row_of, same_report, same_spot, timeline};
ghost use Rattle.dl_timeline.specs.declared.timeline.Report.{Report};
ghost use Rattle.dl_timeline.specs.declared.timeline.SpotMark.{SpotMark};

use dl_bytes::{Id, OutOfMemory};
use dl_picture::{Axis, Bin, COLUMNS, Picture, Row, joined, no_bin};
use dl_sessions::{
    Account, Hole, Session, Source, Told, Totals, missing_here, push_lacking, push_number,
    push_time,
};
use dl_text::push_id;
use std::alloc::Global;
use std::collections::HashMap;

/// The daemon's own APID, `DA1`: its buffer's losses are reported in its name.
const DAEMON: [u8; 4] = *b"DA1\0";

/// A column of a session.
#[derive(Clone, Copy, PartialEq, Eq, Hash)]
pub struct Spot {
    /// The session.
    pub session: Session,
    /// The column.
    pub column: u64,
}

/// What is to be counted in a column of a session.
#[derive(Clone, Copy, PartialEq, Eq)]
pub struct SpotMark {
    /// Where.
    pub spot: Spot,
    /// How much.
    pub bin: Bin,
}

/// A column of an application that reports lost messages.
#[derive(Clone, Copy, PartialEq, Eq, Hash)]
pub struct ReportSpot {
    /// The application.
    pub source: Source,
    /// The column.
    pub column: u64,
}

/// A report of lost messages.
#[derive(Clone, Copy, PartialEq, Eq)]
pub struct Report {
    /// Where it counts.
    pub spot: ReportSpot,
    /// How many it tells.
    pub bin: Bin,
}

/// The counts of all columns. It takes memory for each in which something is counted.
#[derive(Drop)]
pub struct Timeline {
    /// The time of the stream.
    axis: Axis,
    /// Messages and holes.
    spots: HashMap<Spot, Bin>,
    /// Reports of lost messages.
    reports: HashMap<ReportSpot, Bin>,
}

/// The time of a stream.
fn axis_of(stream: &[Told]) -> Axis
    ensures { result ≡ axis_of stream.now }
{
    let mut axis = Axis {
        first: u32::MAX as u64,
        last: 0,
    };
    for told in stream {
        if let Told::Log(entry) = told {
            axis.first = axis.first.min(entry.ticks as u64);
            axis.last = axis.last.max(entry.ticks as u64);
        }
    }
    axis
}

/// What is counted of a column of a session so far.
fn spot_so_far(spots: &HashMap<Spot, Bin>, spot: &Spot) -> Bin
    ensures { result ≡ unwrap_or (hash.get same_spot spots.now spot.now) no_bin }
{
    match spots.get(spot) {
        Some(bin) => *bin,
        None => no_bin(),
    }
}

/// What is counted of a column of an application so far.
fn report_so_far(reports: &HashMap<ReportSpot, Bin>, spot: &ReportSpot) -> Bin
    ensures { result ≡ unwrap_or (hash.get same_report reports.now spot.now) no_bin }
{
    match reports.get(spot) {
        Some(bin) => *bin,
        None => no_bin(),
    }
}

/// Counts a mark.
fn add_mark(spots: &mut HashMap<Spot, Bin>, mark: SpotMark) -> Result<(), OutOfMemory>
    ensures { (marks : List SpotMark) → KeepsMarks spots.old marks → OnOk result (KeepsMarks spots.new (marks ++ mark ∷ [])) }
{
    let bin = joined(&spot_so_far(spots, &mark.spot), &mark.bin);
    spots.insert(mark.spot, bin)?;
    Ok(())
}

/// Counts a report.
fn add_report(reports: &mut HashMap<ReportSpot, Bin>, report: Report) -> Result<(), OutOfMemory>
    ensures { (so_far : List Report) → KeepsReports reports.old so_far → OnOk result (KeepsReports reports.new (so_far ++ report ∷ [])) }
{
    let bin = joined(&report_so_far(reports, &report.spot), &report.bin);
    reports.insert(report.spot, bin)?;
    Ok(())
}

/// Counts a log message at its own time.
fn add_message(spots: &mut HashMap<Spot, Bin>, axis: Axis, told: &Told) -> Result<(), OutOfMemory>
    ensures { (marks : List SpotMark) → KeepsMarks spots.old marks → OnOk result (KeepsMarks spots.new (marks ++ message_mark axis told.now)) }
{
    let Told::Log(entry) = told else {
        return Ok(());
    };
    let spot = Spot {
        session: entry.session,
        column: axis.column(entry.ticks as u64),
    };
    let bin = Bin {
        messages: 1,
        ..no_bin()
    };
    add_mark(spots, SpotMark { spot, bin })
}

/// Counts the messages of a stream.
fn add_messages(
    spots: &mut HashMap<Spot, Bin>,
    axis: Axis,
    stream: &[Told],
) -> Result<(), OutOfMemory>
    requires { KeepsMarks spots.old [] }
    ensures { OnOk result (KeepsMarks spots.new (flat_map (message_mark axis) stream.now)) }
{
    for told in stream {
        add_message(spots, axis, told)?;
    }
    Ok(())
}

/// The mark of a hole, by the counting that its session follows.
fn hole_mark(axis: Axis, account: &Account, hole: &Hole) -> SpotMark
    ensures { (stream : List Told) → IsAfter stream account.now → result ≡ hole_mark axis (λ session. totals_of session (entries stream)) hole.now }
{
    let totals = account.totals(&hole.entry.session);
    SpotMark {
        spot: Spot {
            session: hole.entry.session,
            column: axis.column(hole.entry.ticks as u64),
        },
        bin: Bin {
            missing: missing_here(&totals, hole) as u64,
            ..no_bin()
        },
    }
}

/// Counts the holes of a stream, each at the time of the message behind it.
fn add_holes(
    spots: &mut HashMap<Spot, Bin>,
    axis: Axis,
    account: &Account,
) -> Result<(), OutOfMemory>
    ensures { (stream : List Told) (marks : List SpotMark) → IsAfter stream account.now → KeepsMarks spots.old marks
        → OnOk result (KeepsMarks spots.new (marks ++ map (hole_mark axis (λ session. totals_of session (entries stream))) (holes stream))) }
{
    let holes = account.holes();
    for hole in holes {
        add_mark(spots, hole_mark(axis, account, hole))?;
    }
    Ok(())
}

/// Counts a report of lost messages in this column.
fn note_report(
    reports: &mut HashMap<ReportSpot, Bin>,
    column: u64,
    told: &Told,
) -> Result<(), OutOfMemory>
    ensures { (so_far : List Report) → KeepsReports reports.old so_far → OnOk result (KeepsReports reports.new (so_far ++ report_of column told.now)) }
{
    let Told::Lost(lost) = told else {
        return Ok(());
    };
    let spot = ReportSpot {
        source: lost.source,
        column,
    };
    let bin = Bin {
        lost: lost.count as u64,
        ..no_bin()
    };
    add_report(reports, Report { spot, bin })
}

/// The column in which a report counts behind a message.
fn column_behind(axis: Axis, column: u64, told: &Told) -> u64
    ensures { result ≡ column_behind axis column told.now }
{
    match told {
        Told::Log(entry) => axis.column(entry.ticks as u64),
        Told::Lost(_) => column,
        Told::Unstored(_) => column,
        Told::Other => column,
    }
}

/// Counts the reports of a stream, each at the time of the log message before it.
fn add_reports(
    reports: &mut HashMap<ReportSpot, Bin>,
    axis: Axis,
    stream: &[Told],
) -> Result<(), OutOfMemory>
    requires { KeepsReports reports.old [] }
    ensures { OnOk result (KeepsReports reports.new (reports_from axis 0 stream.now)) }
{
    let mut column = 0;
    for told in stream {
        note_report(reports, column, told)?;
        column = column_behind(axis, column, told);
    }
    Ok(())
}

impl Timeline {
    /// The timeline of a stream and its account.
    fn of(alloc: Global, stream: &[Told], account: &Account) -> Result<Timeline, OutOfMemory>
        ensures { IsAfter stream.now account.now → IfOk result (IsTimeline stream.now) }
    {
        let axis = axis_of(stream);
        let mut spots = HashMap::new(alloc);
        let mut reports = HashMap::new(alloc);
        add_messages(&mut spots, axis, stream)?;
        add_holes(&mut spots, axis, account)?;
        add_reports(&mut reports, axis, stream)?;
        Ok(Timeline {
            axis,
            spots,
            reports,
        })
    }

    /// What a column of an application has of reports.
    fn reported(&self, apid: Id, column: u64) -> Bin
        ensures { (stream : List Told) → IsTimeline stream self.now → result ≡ reported (record { source = record { apid = apid }; column = column }) (reports_of stream) }
    {
        let source = Source { apid };
        report_so_far(&self.reports, &ReportSpot { source, column })
    }

    /// What a column of a session shows.
    fn bin(&self, session: &Session, column: u64) -> Bin
        ensures { (stream : List Told) → IsTimeline stream self.now → result ≡ bin_of stream session.now column }
    {
        let spot = Spot {
            session: *session,
            column,
        };
        let ring = self.reported(session.apid, column);
        let buffer = self.reported(Id::from_bytes(DAEMON), column);
        joined(&spot_so_far(&self.spots, &spot), &joined(&ring, &buffer))
    }

    /// What the columns of a session show.
    fn bins(&self, alloc: Global, session: &Session) -> Result<Vec<Bin>, OutOfMemory>
        ensures { (stream : List Told) → IsTimeline stream self.now → IfOk result (λ bins. bins.items ≡ map (bin_of stream session.now) (range_with_len 0 120)) }
    {
        let mut bins = Vec::new(alloc);
        for column in 0..COLUMNS {
            bins.push(self.bin(session, column))?;
        }
        Ok(bins)
    }

    /// The row of a session.
    fn row(&self, alloc: Global, account: &Account, session: &Session) -> Result<Row, OutOfMemory>
        ensures { (stream : List Told) → IsAfter stream account.now → IsTimeline stream self.now → IfOk result (λ row. shown row ≡ row_of stream session.now) }
    {
        let mut name = Vec::new(alloc);
        push_name(&mut name, session)?;
        let mut note = Vec::new(alloc);
        push_note(&mut note, &account.totals(session))?;
        Ok(Row {
            name,
            note,
            bins: self.bins(alloc, session)?,
        })
    }

    /// The rows of the sessions.
    fn rows(&self, alloc: Global, account: &Account) -> Result<Vec<Row>, OutOfMemory>
        ensures { (stream : List Told) → IsAfter stream account.now → IsTimeline stream self.now
            → IfOk result (λ rows. map shown rows.items ≡ map (row_of stream) (sessions (entries stream))) }
    {
        let mut rows = Vec::new(alloc);
        let sessions = account.sessions();
        for session in sessions {
            let row = self.row(alloc, account, session)?;
            rows.push(row)?;
        }
        Ok(rows)
    }
}

/// Adds the name of a session.
fn push_name(text: &mut Vec<u8>, session: &Session) -> Result<(), OutOfMemory>
    ensures { OnOk result (text.new.items ≡ text.old.items ++ name_text session.now) }
{
    push_id(text, &session.ecu)?;
    text.extend_from_slice(b" ")?;
    push_id(text, &session.apid)?;
    push_number(text, b" ", session.seid)
}

/// Adds how many messages a session has, and how many are missing.
fn push_note(text: &mut Vec<u8>, totals: &Totals) -> Result<(), OutOfMemory>
    ensures { OnOk result (text.new.items ≡ text.old.items ++ note_text totals.now) }
{
    push_number(text, b"", totals.messages)?;
    text.extend_from_slice(b" messages, ")?;
    push_lacking(text, totals)
}

/// The time with which a column begins, as text.
fn column_name(alloc: Global, axis: Axis, column: u8) -> Result<Vec<u8>, OutOfMemory>
    ensures { IfOk result (λ name. name.items ≡ column_name axis column) }
{
    let mut name = Vec::new(alloc);
    push_time(&mut name, axis.start(column))?;
    Ok(name)
}

/// The times with which the columns begin.
fn column_names(alloc: Global, axis: Axis) -> Result<Vec<Vec<u8>>, OutOfMemory>
    ensures { IfOk result (λ names. map (λ name. name.items) names.items ≡ map (column_name axis) (range_with_len 0 120)) }
{
    let mut names = Vec::new(alloc);
    for column in 0..120 {
        let name = column_name(alloc, axis, column)?;
        names.push(name)?;
    }
    Ok(names)
}

/// The picture of a stream: a row for each session, in the order of their first messages.
pub fn timeline_of(
    alloc: Global,
    stream: &[Told],
    account: &Account,
) -> Result<Picture, OutOfMemory>
    ensures { IsAfter stream.now account.now → IfOk result (λ shown. chart_of shown ≡ timeline stream.now) }
{
    let timeline = Timeline::of(alloc, stream, account)?;
    let mut title = Vec::new(alloc);
    title.extend_from_slice(b"Messages by time, in seconds")?;
    Ok(Picture {
        title,
        columns: column_names(alloc, timeline.axis)?,
        rows: timeline.rows(alloc, account)?,
        filters: false,
    })
}
