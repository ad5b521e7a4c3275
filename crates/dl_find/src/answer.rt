//! What is said of a message that is asked for.

ghost use Rattle.std.specs.Prelude.{◌≡◌, ◌++◌, ◌==◌, OnOk};
ghost use Rattle.dl_find.specs.Answer.{agrees, are_own, before_verdict, begins_later, believes, beside_accounts, beside_book, beside_next, book_verdict, can_be, contexts_count, counted_verdict, doubted_by, early_verdict, file_number, finding_text, first_decided, gone_in, gone_of, gone_verdict, has_passed, holes_verdict, inside, is_above, is_before_all, is_enough, is_lost, is_of_ring, is_one_hole, is_refused, is_unstored, kind_verdict, may_be_before, may_tell, name_end, none_filtered, open_verdict, order_verdict, queued_verdict, reports_of, session_counts, shows_session, span_verdict, track_verdict, verdict_of, was_before};

use dl_bytes::OutOfMemory;
use dl_find_words::{
    Book, Finding, Gone, Hole, Point, Question, Reports, Seen, Track, Verdict, decides, fits,
    push_hits, push_verdict,
};
use dl_outside::Name;
use dl_sessions::{Calls, Since, behind};
use dl_text::{number, parted_at};

/// The bytes of a trace file's name: `dlt_offlinetrace.`, six digits and `.dlt`.
const NAME: usize = 27;

/// What records tell of a hole.
fn reports_of(hole: &Hole, behind: &Reports) -> Reports
    ensures { result ≡ reports_of hole.now behind.now }
{
    Reports {
        ring: hole.told.ring.saturating_add(behind.ring),
        buffer: hole.told.buffer.saturating_add(behind.buffer),
        unstored: hole.told.unstored.saturating_add(behind.unstored),
        last: behind.last.or(hole.told.last),
    }
}

/// Whether records tell of as many as are missing: modulo 256; or those between the two messages of more, where they may tell of others.
fn is_enough(own: bool, between: u64, told: u64, missing: u8) -> bool
    ensures { result ≡ is_enough own between told missing }
{
    fits(told, missing) || (!own && missing as u64 <= between)
}

/// Whether the ring alone tells of messages, and of enough.
fn is_lost(gone: &Gone) -> bool
    ensures { result ≡ is_lost gone.now }
{
    let Gone { hole, told, .. } = gone;
    is_enough(gone.is_own, hole.told.ring, told.ring, hole.missing)
        && told.buffer == 0
        && told.unstored == 0
}

/// Whether the buffer alone does.
fn is_refused(gone: &Gone) -> bool
    ensures { result ≡ is_refused gone.now }
{
    let Gone { hole, told, .. } = gone;
    is_enough(false, hole.told.buffer, told.buffer, hole.missing)
        && told.ring == 0
        && told.unstored == 0
}

/// Whether the trace alone does.
fn is_unstored(gone: &Gone) -> bool
    ensures { result ≡ is_unstored gone.now }
{
    let Gone { hole, told, .. } = gone;
    is_enough(false, hole.told.unstored, told.unstored, hole.missing)
        && told.ring == 0
        && told.buffer == 0
}

/// What is said of messages that are missing, by what records tell of them.
fn gone_verdict(gone: Gone) -> Verdict
    ensures { result ≡ gone_verdict gone }
{
    if is_lost(&gone) {
        Verdict::Lost { gone }
    } else if is_refused(&gone) {
        Verdict::Refused { gone }
    } else if is_unstored(&gone) {
        Verdict::Unstored { gone }
    } else {
        Verdict::Untold { gone }
    }
}

/// What is said where counters were passed over.
fn holes_verdict(own: bool, passed: bool, track: &Track, hole: Hole) -> Verdict
    ensures { result ≡ holes_verdict own passed track.now hole }
{
    if track.holes == 1 {
        gone_verdict(Gone {
            hole,
            told: reports_of(&hole, &track.behind),
            is_own: own,
            has_passed: passed,
        })
    } else {
        Verdict::Holes {
            count: track.holes,
            hole,
        }
    }
}

/// The end of a name that a trace file's has.
fn name_end(name: &[u8]) -> &[u8]
    ensures { result.now ≡ name_end name.now }
{
    behind(name, name.len().saturating_sub(NAME))
}

/// The number of a trace file, by its name.
fn file_number(name: &[u8]) -> Option<u64>
    ensures { result ≡ file_number name.now }
{
    let end = name_end(name);
    let (digits, ending) = parted_at(behind(end, 17), b'.')?;
    if end.starts_with(b"dlt_offlinetrace.") && ending == b"dlt".as_slice() {
        number(digits)
    } else {
        None
    }
}

/// Whether a trace file is not the first of its trace.
fn is_above(number: Option<u64>) -> bool
    ensures { result ≡ is_above number }
{
    match number {
        Some(number) => 1 < number,
        None => false,
    }
}

/// Whether the first file here is not the first of its trace.
fn begins_later(names: &[Name]) -> bool
    ensures { result ≡ begins_later names.now }
{
    match names.get(0) {
        Some(name) => is_above(file_number(name.as_str().as_bytes())),
        None => false,
    }
}

/// Whether a message that is asked for may be before the first one here, by its counter.
fn may_be_before(names: &[Name], point: &Point, first: &Seen) -> bool
    ensures { result ≡ may_be_before names.now point.now first.now }
{
    match point {
        Point::Time(_) => false,
        Point::Counter(_) => begins_later(names) || first.entry.mcnt != 0,
    }
}

/// Whether one of its counter was before it.
fn was_before(point: &Point, first: &Seen) -> bool
    ensures { result ≡ was_before point.now first.now }
{
    match point {
        Point::Time(_) => false,
        Point::Counter(mcnt) => *mcnt < first.entry.mcnt,
    }
}

/// What is said of a counter that may be before the first message here.
fn early_verdict(point: &Point, track: &Track, first: Seen) -> Verdict
    ensures { result ≡ early_verdict point.now track.now first }
{
    match track.hole {
        Some(hole) => Verdict::Early {
            first,
            count: track.holes,
            hole,
        },
        None => {
            if was_before(point, &first) {
                Verdict::Before { first }
            } else {
                Verdict::Whole
            }
        }
    }
}

/// What is said of the messages that are counted with that which is asked for.
fn track_verdict(names: &[Name], point: &Point, own: bool, passed: bool, track: &Track) -> Verdict
    ensures { result ≡ track_verdict names.now point.now own passed track.now }
{
    let Some(first) = track.first else {
        return Verdict::NoContext;
    };
    if may_be_before(names, point, &first) {
        return early_verdict(point, track, first);
    }
    match track.hole {
        Some(hole) => holes_verdict(own, passed, track, hole),
        None => Verdict::Whole,
    }
}

/// Whether each context counts its own messages.
fn contexts_count(finding: &Finding) -> bool
    ensures { result ≡ contexts_count finding.now }
{
    finding.books.own.messages != 0
        || finding.session.returns.saturating_sub(finding.of_session) > 1
}

/// Whether messages of the context go on in their session alone.
fn shows_session(finding: &Finding) -> bool
    ensures { result ≡ shows_session finding.now }
{
    finding.of_session.saturating_sub(finding.session.returns) > 1
}

/// Whether else the session counts its messages.
fn session_counts(finding: &Finding) -> bool
    ensures { result ≡ session_counts finding.now }
{
    shows_session(finding) || finding.session.messages == finding.context.messages
}

/// What is said where nothing tells who counts.
fn open_verdict(finding: &Finding) -> Verdict
    ensures { result ≡ open_verdict finding.now }
{
    let session = finding.session.hole;
    let context = finding.context.hole;
    if session.is_some() || context.is_some() {
        Verdict::Counting { session, context }
    } else if finding.context.messages == 0 {
        Verdict::NoContext
    } else {
        Verdict::Whole
    }
}

/// Whether records of the application tell of no other messages.
fn are_own(question: &Question, finding: &Finding) -> bool
    ensures { result ≡ are_own question.now finding.now }
{
    shows_session(finding) && !question.seid.is_some()
}

/// What is said by counters and records.
fn counted_verdict(names: &[Name], question: &Question, passed: bool, finding: &Finding) -> Verdict
    ensures { result ≡ counted_verdict names.now question.now passed finding.now }
{
    let point = &question.point;
    if contexts_count(finding) {
        track_verdict(names, point, false, passed, &finding.context)
    } else if session_counts(finding) {
        let own = are_own(question, finding);
        track_verdict(names, point, own, passed, &finding.session)
    } else {
        open_verdict(finding)
    }
}

/// Whether an account can be, beside what is here.
fn can_be(calls: &Calls, since: &Since) -> bool
    ensures { result ≡ can_be calls.now since.now }
{
    since.messages <= calls.queued
        && since.messages as u128 + since.missing as u128
            <= calls.queued as u128 + calls.lost as u128
}

/// Whether none of an account's calls that the question may mean was filtered.
fn none_filtered(point: &Point, calls: &Calls) -> bool
    ensures { result ≡ none_filtered point.now calls.now }
{
    match point {
        Point::Time(_) => calls.filtered == 0,
        Point::Counter(_) => true,
    }
}

/// What is said by an account of which each queued message is here.
fn kind_verdict(book: &Book, hole: Option<Hole>, none_filtered: bool, none_lost: bool) -> Verdict
    ensures { result ≡ kind_verdict book.now hole none_filtered none_lost }
{
    match (none_filtered, none_lost) {
        (true, true) => Verdict::Unlogged { book: *book },
        (false, true) => Verdict::Filtered { book: *book },
        (true, false) => Verdict::Dropped { book: *book },
        (false, false) => Verdict::Mixed { book: *book, hole },
    }
}

/// What is said by an account that can be.
fn queued_verdict(point: &Point, book: &Book, hole: Option<Hole>, calls: &Calls) -> Verdict
    ensures { result ≡ queued_verdict point.now book.now hole calls.now }
{
    if calls.queued == book.since.messages {
        kind_verdict(book, hole, none_filtered(point, calls), calls.lost == 0)
    } else {
        Verdict::Mixed { book: *book, hole }
    }
}

/// What is said by an account.
fn book_verdict(point: &Point, book: &Book, hole: Option<Hole>) -> Verdict
    ensures { result ≡ book_verdict point.now book.now hole }
{
    let calls = book.behind.entry.calls;
    if book.lacking != 0 {
        Verdict::Gapped { book: *book }
    } else if can_be(&calls, &book.since) {
        queued_verdict(point, book, hole, &calls)
    } else {
        Verdict::Refuted { book: *book }
    }
}

/// Whether an account can be, and none is missing before it.
fn believes(book: &Book) -> bool
    ensures { result ≡ believes book.now }
{
    book.lacking == 0 && can_be(&book.behind.entry.calls, &book.since)
}

/// Whether the message passed its level, as far as it was logged.
fn has_passed(point: &Point, book: Option<Book>) -> bool
    ensures { result ≡ has_passed point.now book }
{
    match point {
        Point::Time(_) => match book {
            Some(book) => believes(&book) && book.behind.entry.calls.filtered == 0,
            None => false,
        },
        Point::Counter(_) => true,
    }
}

/// Whether the ring lost it.
fn is_of_ring(verdict: &Verdict) -> bool
    ensures { result ≡ is_of_ring verdict.now }
{
    match verdict {
        Verdict::Lost { .. } => true,
        _ => false,
    }
}

/// Whether records may decide beside an account.
fn agrees(point: &Point, calls: &Calls, verdict: &Verdict) -> bool
    ensures { result ≡ agrees point.now calls.now verdict.now }
{
    none_filtered(point, calls) && (calls.lost == 0 || is_of_ring(verdict))
}

/// The first of these that decides; else the first. The second one may where the two agree.
fn first_decided(own: Verdict, other: Verdict, agreed: bool) -> Verdict
    ensures { result ≡ first_decided own other agreed }
{
    if decides(&own) {
        own
    } else if agreed && decides(&other) {
        other
    } else {
        own
    }
}

/// What is said beside an account.
fn beside_book(point: &Point, book: &Book, hole: Option<Hole>, told: Verdict) -> Verdict
    ensures { result ≡ beside_book point.now book.now hole told }
{
    let agreed = agrees(point, &book.behind.entry.calls, &told);
    first_decided(book_verdict(point, book, hole), told, agreed)
}

/// What records tell as missing.
fn gone_in(verdict: &Verdict) -> Option<Gone>
    ensures { result ≡ gone_in verdict.now }
{
    match verdict {
        Verdict::Lost { gone } => Some(*gone),
        Verdict::Refused { gone } => Some(*gone),
        Verdict::Unstored { gone } => Some(*gone),
        _ => None,
    }
}

/// What is said where the next account tells of calls that were filtered, or doesn't.
fn doubted_by(told: Verdict, gone: Gone, account: Seen) -> Verdict
    ensures { result ≡ doubted_by told gone account }
{
    if account.entry.calls.filtered == 0 {
        told
    } else {
        Verdict::Doubted { gone, account }
    }
}

/// What is said beside the next account, where there is one.
fn beside_next(next: Option<Seen>, told: Verdict) -> Verdict
    ensures { result ≡ beside_next next told }
{
    let Some(gone) = gone_in(&told) else {
        return told;
    };
    match next {
        Some(account) => doubted_by(told, gone, account),
        None => told,
    }
}

/// Whether it is of one hole alone.
fn is_one_hole(verdict: &Verdict) -> bool
    ensures { result ≡ is_one_hole verdict.now }
{
    match verdict {
        Verdict::Untold { .. } => true,
        _ => gone_in(verdict).is_some(),
    }
}

/// Whether accounts may decide: by a counter where it points to one hole alone.
fn may_tell(point: &Point, verdict: &Verdict) -> bool
    ensures { result ≡ may_tell point.now verdict.now }
{
    match point {
        Point::Time(_) => true,
        Point::Counter(_) => is_one_hole(verdict),
    }
}

/// What is said beside the accounts of its context.
fn beside_accounts(question: &Question, finding: &Finding, told: Verdict) -> Verdict
    ensures { result ≡ beside_accounts question.now finding.now told }
{
    if !may_tell(&question.point, &told) {
        return told;
    }
    match finding.books.book {
        Some(book) => beside_book(&question.point, &book, finding.context.hole, told),
        None => beside_next(finding.books.next, told),
    }
}

/// What is said of a message between those that are here.
fn inside(names: &[Name], question: &Question, finding: &Finding) -> Verdict
    ensures { result ≡ inside names.now question.now finding.now }
{
    let passed = has_passed(&question.point, finding.books.book);
    let told = counted_verdict(names, question, passed, finding);
    beside_accounts(question, finding, told)
}

/// Whether a moment is before all messages, the first of which is this.
fn is_before_all(ticks: u32, start: Option<Seen>) -> bool
    ensures { result ≡ is_before_all ticks start }
{
    match start {
        Some(start) => ticks < start.entry.ticks,
        None => false,
    }
}

/// What is said of a moment before the first message of the session.
fn before_verdict(names: &[Name], ticks: u32, start: Option<Seen>, first: Seen) -> Verdict
    ensures { result ≡ before_verdict names.now ticks start first }
{
    if is_before_all(ticks, start) && begins_later(names) {
        Verdict::Rotated { first }
    } else {
        Verdict::Before { first }
    }
}

/// The first and the last message of an application.
#[derive(Clone, Copy)]
struct Span {
    first: Seen,
    last: Seen,
}

/// What is said of a message by where it stands beside the messages of its session.
fn span_verdict(names: &[Name], question: &Question, finding: &Finding, span: Span) -> Verdict
    ensures { result ≡ span_verdict names.now question.now finding.now question.now.point span.first span.last }
{
    let Span { first, last } = span;
    match &question.point {
        Point::Time(ticks) if *ticks < first.entry.ticks => {
            before_verdict(names, *ticks, finding.start, first)
        }
        Point::Time(ticks) if last.entry.ticks < *ticks => Verdict::Behind { last },
        Point::Time(_) => inside(names, question, finding),
        Point::Counter(_) => inside(names, question, finding),
    }
}

/// What is said of a message where messages of its application are here.
fn order_verdict(names: &[Name], question: &Question, finding: &Finding, span: Span) -> Verdict
    ensures { result ≡ order_verdict names.now question.now finding.now span.first span.last }
{
    if finding.session.changes != 0 {
        return Verdict::Sessions;
    }
    if finding.session.backs != 0 {
        return Verdict::Backs {
            count: finding.session.backs,
        };
    }
    span_verdict(names, question, finding, span)
}

/// What is said of a message that isn't here.
fn verdict_of(names: &[Name], question: &Question, finding: &Finding) -> Verdict
    ensures { result ≡ verdict_of names.now question.now finding.now }
{
    let (Some(first), Some(last)) = (finding.session.first, finding.session.last) else {
        return Verdict::Nobody;
    };
    order_verdict(names, question, finding, Span { first, last })
}

/// Adds the answer to a question.
pub fn push_answer(
    text: &mut Vec<u8>,
    names: &[Name],
    question: &Question,
    finding: &Finding,
) -> Result<(), OutOfMemory>
    ensures { OnOk result (text.new.items ≡ text.old.items ++ finding_text names.now question.now finding.now) }
{
    match &finding.hit {
        Some(hit) => push_hits(text, names, finding.hits, hit),
        None => {
            let verdict = verdict_of(names, question, finding);
            push_verdict(text, names, question, &verdict)
        }
    }
}
