//! The messages that pass a test, one after the other: what is missing between them where the question points, and what reports tell there.

ghost use Rattle.std.specs.Prelude.{◌≡◌, if◌then◌else◌};
ghost use Rattle.dl_find.specs.Finds.{back, change, covers, hole_by, is_open, met_again};
ghost use Rattle.dl_find.specs.Steps.{ended, no_track, one_if, reported, retold, track_by, with_entry};

use crate::reports::{no_reports, with_report, with_unstored};
use dl_find_words::{Hole, Point, Question, Reports, Seen, Spot, Track};
use dl_sessions::{Entry, Lost, gap, latest_of};

/// No message yet.
pub fn no_track() -> Track
    ensures { result ≡ no_track }
{
    Track {
        messages: 0,
        first: None,
        last: None,
        changes: 0,
        backs: 0,
        returns: 0,
        holes: 0,
        hole: None,
        since: no_reports(),
        behind: no_reports(),
    }
}

/// Whether counters were passed over between two messages where the question points.
fn covers(point: &Point, last: &Entry, entry: &Entry, missing: u8) -> bool
    ensures { result ≡ covers point.now last.now entry.now missing }
{
    match point {
        Point::Time(ticks) => last.ticks <= *ticks && *ticks <= entry.ticks && missing != 0,
        Point::Counter(mcnt) => mcnt.wrapping_sub(last.mcnt).wrapping_sub(1) < missing,
    }
}

/// The hole before a message, where the question points there.
fn hole_by(track: &Track, point: &Point, seen: &Seen) -> Option<Hole>
    ensures { result ≡ hole_by point.now track.now.last seen.now track.now.messages track.now.since }
{
    let last = track.last?;
    let missing = gap(Some(latest_of(&last.entry)), &seen.entry);
    if !covers(point, &last.entry, &seen.entry, missing) {
        return None;
    }
    Some(Hole {
        before: last,
        behind: *seen,
        missing,
        number: track.messages.saturating_add(1),
        told: track.since,
    })
}

/// 1 where the session changes.
fn change(last: Option<Seen>, entry: &Entry) -> u64
    ensures { result ≡ change last entry.now }
{
    match last {
        Some(last) if last.entry.session != entry.session => 1,
        Some(_) => 0,
        None => 0,
    }
}

/// 1 where the time steps back.
fn back(last: Option<Seen>, entry: &Entry) -> u64
    ensures { result ≡ back last entry.now }
{
    match last {
        Some(last) if entry.ticks < last.entry.ticks => 1,
        Some(_) => 0,
        None => 0,
    }
}

/// 1 where the counter is met again or steps back with another context: at least 127 of 256 counters would be passed over.
fn met_again(last: Option<Seen>, entry: &Entry) -> u64
    ensures { result ≡ met_again last entry.now }
{
    match last {
        Some(last)
            if last.entry.ctid != entry.ctid && gap(Some(latest_of(&last.entry)), entry) >= 127 => {
            1
        }
        Some(_) => 0,
        None => 0,
    }
}

/// 1 where something is so.
pub fn one_if(is_so: bool) -> u64
    ensures { result ≡ one_if is_so }
{
    if is_so { 1 } else { 0 }
}

/// With one message more.
fn with_entry(track: &Track, point: &Point, seen: &Seen) -> Track
    ensures { result ≡ with_entry point.now track.now seen.now }
{
    let hole = hole_by(track, point, seen);
    Track {
        messages: track.messages.saturating_add(1),
        first: track.first.or(Some(*seen)),
        last: Some(*seen),
        changes: track
            .changes
            .saturating_add(change(track.last, &seen.entry)),
        backs: track.backs.saturating_add(back(track.last, &seen.entry)),
        returns: track
            .returns
            .saturating_add(met_again(track.last, &seen.entry)),
        holes: track.holes.saturating_add(one_if(hole.is_some())),
        hole: track.hole.or(hole),
        since: no_reports(),
        behind: track.behind,
    }
}

/// Whether the last message is that behind the hole.
fn is_open(track: &Track) -> bool
    ensures { result ≡ is_open track.now.hole track.now.messages }
{
    match track.hole {
        Some(hole) => hole.number == track.messages,
        None => false,
    }
}

/// With this told since the last message, and behind the hole where that is there.
fn retold(track: &Track, since: Reports, behind: Reports) -> Track
    ensures { result ≡ retold track.now since behind }
{
    Track {
        since,
        behind: if is_open(track) { behind } else { track.behind },
        ..*track
    }
}

/// With one report more, which stands there.
pub fn reported(track: &Track, question: &Question, spot: Spot, lost: &Lost) -> Track
    ensures { result ≡ reported question.now track.now spot lost.now }
{
    let since = with_report(&track.since, question, spot, lost);
    let behind = with_report(&track.behind, question, spot, lost);
    retold(track, since, behind)
}

/// With one record more, which stands there and tells of so many messages that were not stored.
pub fn ended(track: &Track, spot: Spot, count: u32) -> Track
    ensures { result ≡ ended track.now spot count }
{
    let since = with_unstored(&track.since, spot, count);
    let behind = with_unstored(&track.behind, spot, count);
    retold(track, since, behind)
}

/// With one message more, where it passes.
pub fn track_by(passes: bool, track: &Track, point: &Point, seen: &Seen) -> Track
    ensures { result ≡ track_by passes point.now track.now seen.now }
{
    if passes {
        with_entry(track, point, seen)
    } else {
        *track
    }
}
