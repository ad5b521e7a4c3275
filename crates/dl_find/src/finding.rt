//! What is found, message after message.

ghost use Rattle.std.specs.Prelude.{◌≡◌, [], OnOk, None, length};
ghost use Rattle.dl_bytes.specs.Htyp.{len_of};
ghost use Rattle.std.specs.Option.{option_or};
ghost use Rattle.dl_find.specs.Finds.{finding_of, latest_in, met, session_goes};
ghost use Rattle.dl_find.specs.Steps.{goes_by, hit_if, noted, with_ended, with_lost, with_seen};
ghost use Rattle.dl_headers.specs.Reading.{front_fault};

use crate::books::{books_with, no_books};
use crate::track::{ended, no_track, one_if, reported, track_by};
use dl_bytes::{OutOfMemory, Sequence};
use dl_find_words::{Finding, Hit, Question, Seen, Spot, is_asked, is_named, is_of_context};
use dl_sessions::{Entry, Latest, Lost, Told, goes_on, latest_of, of_session};
use std::alloc::Global;

/// What is kept of a message, where there is one.
fn latest_in(seen: Option<Seen>) -> Option<Latest>
    ensures { result ≡ latest_in seen }
{
    match seen {
        Some(seen) => Some(latest_of(&seen.entry)),
        None => None,
    }
}

/// Keeps a message that is asked for, where it is the first one.
fn keep(
    alloc: Global,
    hit: &mut Option<Hit>,
    named: bool,
    seen: &Seen,
    message: &[u8],
) -> Result<(), OutOfMemory>
    ensures { OnOk result (hit.new ≡ option_or hit.old (hit_if named seen.now message.now)) }
{
    if !named || hit.is_some() {
        return Ok(());
    }
    let bytes = Sequence::over(Vec::from_slice(alloc, message)?);
    *hit = Some(Hit { seen: *seen, bytes });
    Ok(())
}

/// What is found where no message came.
pub fn no_finding() -> Finding
    ensures { (q : Question) → result ≡ finding_of q [] }
{
    Finding {
        hits: 0,
        hit: None,
        start: None,
        session: no_track(),
        context: no_track(),
        of_session: 0,
        books: no_books(),
    }
}

/// 1 where a message of the context goes on by its session alone.
fn by_session(finding: &Finding, question: &Question, entry: &Entry) -> u64
    ensures { result ≡ goes_by session_goes question.now finding.now entry.now }
{
    if !is_of_context(question, entry) {
        return 0;
    }
    let in_context = goes_on(latest_in(finding.context.last), entry);
    of_session(latest_in(finding.session.last), in_context, entry)
}

/// Notes a message of a session.
fn add_seen(
    finding: &mut Finding,
    alloc: Global,
    question: &Question,
    seen: &Seen,
    message: &[u8],
) -> Result<(), OutOfMemory>
    ensures { OnOk result (finding.new ≡ with_seen question.now finding.old seen.now message.now) }
{
    let entry = &seen.entry;
    let named = is_named(question, entry);
    keep(alloc, &mut finding.hit, named, seen, message)?;
    finding.hits = finding.hits.saturating_add(one_if(named));
    finding.start = finding.start.or(Some(*seen));
    let goes = by_session(finding, question, entry);
    finding.of_session = finding.of_session.saturating_add(goes);
    let point = &question.point;
    finding.books = books_with(question, finding.context.hole, &finding.books, seen);
    finding.session = track_by(is_asked(question, entry), &finding.session, point, seen);
    finding.context = track_by(
        is_of_context(question, entry),
        &finding.context,
        point,
        seen,
    );
    Ok(())
}

/// Notes a report of lost messages.
fn add_report(finding: &mut Finding, question: &Question, spot: Spot, lost: &Lost)
    ensures { finding.new ≡ with_lost question.now finding.old spot lost.now }
{
    finding.session = reported(&finding.session, question, spot, lost);
    finding.context = reported(&finding.context, question, spot, lost);
}

/// Notes a record of messages that were not stored.
fn add_unstored(finding: &mut Finding, spot: Spot, count: u32)
    ensures { finding.new ≡ with_ended finding.old spot count }
{
    finding.session = ended(&finding.session, spot, count);
    finding.context = ended(&finding.context, spot, count);
}

/// Notes the next message.
pub fn note(
    finding: &mut Finding,
    alloc: Global,
    question: &Question,
    spot: Spot,
    told: &Told,
    message: &[u8],
) -> Result<(), OutOfMemory>
    requires front { front_fault message.now ≡ None }
    requires len { length message.now ≡ len_of message.now }
    ensures { OnOk result (finding.new ≡ noted question.now finding.old (met spot told.now message.now)) }
{
    match told {
        Told::Log(entry) => {
            let seen = Seen {
                spot,
                entry: *entry,
            };
            add_seen(finding, alloc, question, &seen, message)
        }
        Told::Lost(lost) => {
            add_report(finding, question, spot, lost);
            Ok(())
        }
        Told::Unstored(count) => {
            add_unstored(finding, spot, *count);
            Ok(())
        }
        Told::Other => Ok(()),
    }
}
