//! What records tell of messages that are not here.

ghost use Rattle.std.specs.Prelude.{◌≡◌};
ghost use Rattle.dl_find.specs.Finds.{part, tells_of};
ghost use Rattle.dl_find.specs.Steps.{no_reports, with_report, with_unstored};
ghost use Rattle.dl_sessions.specs.declared.session.Told.TheVariants as told;

use dl_bytes::Id;
use dl_find_words::{Question, Reports, Spot};
use dl_sessions::Lost;

/// The daemon's own APID, `DA1`: its buffer's losses are reported in its name.
const DAEMON: [u8; 4] = *b"DA1\0";

/// What no report tells.
pub fn no_reports() -> Reports
    ensures { result ≡ no_reports }
{
    Reports {
        ring: 0,
        buffer: 0,
        unstored: 0,
        last: None,
    }
}

/// Whether a report is of this application.
fn tells_of(apid: Id, lost: &Lost) -> bool
    ensures { result ≡ tells_of apid (told.Lost lost.now) }
{
    lost.source.apid == apid
}

/// How many messages a report tells as lost, where it counts.
fn part(counts: bool, lost: &Lost) -> u64
    ensures { result ≡ part counts lost.now }
{
    if counts { lost.count as u64 } else { 0 }
}

/// What records tell with one report more, which stands there.
pub fn with_report(reports: &Reports, question: &Question, spot: Spot, lost: &Lost) -> Reports
    ensures { result ≡ with_report question.now reports.now spot lost.now }
{
    let of_ring = tells_of(question.apid, lost);
    let of_buffer = tells_of(Id::from_bytes(DAEMON), lost);
    Reports {
        ring: reports.ring.saturating_add(part(of_ring, lost)),
        buffer: reports.buffer.saturating_add(part(of_buffer, lost)),
        unstored: reports.unstored,
        last: if of_ring || of_buffer {
            Some(spot)
        } else {
            reports.last
        },
    }
}

/// What records tell with one more, which stands there and tells of so many messages that were not stored.
pub fn with_unstored(reports: &Reports, spot: Spot, count: u32) -> Reports
    ensures { result ≡ with_unstored reports.now spot count }
{
    Reports {
        ring: reports.ring,
        buffer: reports.buffer,
        unstored: reports.unstored.saturating_add(count as u64),
        last: Some(spot),
    }
}
