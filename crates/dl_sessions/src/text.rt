//! The text of an account.

ghost use Rattle.std.specs.Prelude.{◌≡◌, ◌++◌, List, OnOk};
ghost use Rattle.std.specs.Fmt.{decimal};
ghost use Rattle.std.specs.Option.{option_map_or};
ghost use Rattle.dl_sessions.specs.Text.{all_passed, among_words, application_text, between_words, both_words, buffer_words, cause_words, application_name, compared_words, count_words, counting_words, counts_by_context, detail_words, digit, doubt_words, except_words, fewer_words, first_counter, front_text, head_text, hole_text, hole_words, is_daemon, is_none_here, is_open, is_unknown, lack_text, lack_words, losses_text, missing, missing_here, missing_words, more_words, open_here, open_passed, open_words, other_counting, other_passed, other_words, outside_words, part_words, passed_here, rest_words, session_text, span_text, time_text, times_text, told_alone, told_words, totals_text, whose_words};

use crate::session::{Hole, Latest, Losses, Session, Source, Tally, Totals};
use dl_bytes::{Id, OutOfMemory};
use dl_text::push_id;
use itoa::{Buffer, Integer};

/// The daemon's own APID, `DA1`: its buffer's losses are reported in its name.
const DAEMON: [u8; 4] = *b"DA1\0";

/// Adds a label, and behind it a number in decimal digits.
pub fn push_number<I: Integer>(
    text: &mut Vec<u8>,
    label: &[u8],
    number: I,
) -> Result<(), OutOfMemory>
    ensures { OnOk result (text.new.items ≡ text.old.items ++ (label.now ++ I.text number)) }
{
    let mut buffer = Buffer::new();
    text.extend_from_slice(label)?;
    text.extend_from_slice(buffer.format(number).as_bytes())
}

/// Adds a label, a number in decimal digits, and words.
pub fn push_counted(
    text: &mut Vec<u8>,
    label: &[u8],
    number: u64,
    words: &[u8],
) -> Result<(), OutOfMemory>
    ensures { OnOk result (text.new.items ≡ text.old.items ++ (label.now ++ decimal number ++ words.now)) }
{
    push_number(text, label, number)?;
    text.extend_from_slice(words)
}

/// The last decimal digit of a number.
fn digit(number: u128) -> u8
    ensures { result ≡ digit number }
{
    b'0' + (number % 10) as u8
}

/// Adds a time in seconds. It is given in units of 0.1 ms.
pub fn push_time(text: &mut Vec<u8>, ticks: u128) -> Result<(), OutOfMemory>
    ensures { OnOk result (text.new.items ≡ text.old.items ++ time_text ticks) }
{
    push_number(text, b"", ticks / 10000)?;
    let digits = [
        b'.',
        digit(ticks / 1000),
        digit(ticks / 100),
        digit(ticks / 10),
        digit(ticks),
    ];
    text.extend_from_slice(&digits)
}

/// Adds a session.
pub fn push_session(text: &mut Vec<u8>, session: &Session) -> Result<(), OutOfMemory>
    ensures { OnOk result (text.new.items ≡ text.old.items ++ session_text session.now) }
{
    text.extend_from_slice(b" ")?;
    push_id(text, &session.ecu)?;
    text.extend_from_slice(b" ")?;
    push_id(text, &session.apid)?;
    push_number(text, b" ", session.seid)
}

/// Whether each context counts its own messages.
fn counts_by_context(totals: &Totals) -> bool
    ensures { result ≡ counts_by_context totals.now }
{
    totals.of_session < totals.of_context
}

/// Whether nobody knows who counts, and it makes a difference.
fn is_unknown(totals: &Totals) -> bool
    ensures { result ≡ is_unknown totals.now }
{
    totals.of_session == totals.of_context && totals.by_session != totals.by_context
}

/// How many counters of a session were passed over, by the counting that it follows.
fn all_passed(totals: &Totals) -> u64
    ensures { result ≡ all_passed totals.now }
{
    if counts_by_context(totals) {
        totals.by_context
    } else {
        totals.by_session
    }
}

/// How many were passed over by the other counting.
fn other_passed(totals: &Totals) -> u64
    ensures { result ≡ other_passed totals.now }
{
    if counts_by_context(totals) {
        totals.by_session
    } else {
        totals.by_context
    }
}

/// How many of a session were passed over where it may have begun anew.
fn open_passed(totals: &Totals) -> u64
    ensures { result ≡ open_passed totals.now }
{
    if counts_by_context(totals) {
        totals.open_context
    } else {
        totals.open_session
    }
}

/// How many messages of a session are missing, beside those that were passed over where it may have begun anew.
pub fn missing(totals: &Totals) -> u64
    ensures { result ≡ missing totals.now }
{
    all_passed(totals).saturating_sub(open_passed(totals))
}

/// Whether it is not known how many messages of a session are missing.
pub fn is_open(totals: &Totals) -> bool
    ensures { result ≡ is_open totals.now }
{
    is_unknown(totals) || open_passed(totals) != 0
}

/// How many counters were passed over at a hole, by the counting that its session follows.
fn passed_here(totals: &Totals, hole: &Hole) -> u8
    ensures { result ≡ passed_here totals.now hole.now }
{
    if counts_by_context(totals) {
        hole.by_context
    } else {
        hole.by_session
    }
}

/// The same where it may have begun anew; else 0.
fn open_here(totals: &Totals, hole: &Hole) -> u8
    ensures { result ≡ open_here totals.now hole.now }
{
    if counts_by_context(totals) {
        hole.open_context
    } else {
        hole.open_session
    }
}

/// How many messages are missing at a hole; 0 where that is not known.
pub fn missing_here(totals: &Totals, hole: &Hole) -> u8
    ensures { result ≡ missing_here totals.now hole.now }
{
    if is_unknown(totals) || open_here(totals, hole) != 0 {
        0
    } else {
        passed_here(totals, hole)
    }
}

/// What records tell of one hole alone: they tell of all sessions and contexts of an application.
pub fn told_alone(totals: &Totals, tally: &Tally, told: u64) -> u64
    ensures { result ≡ told_alone totals.now tally.now told }
{
    if tally.sessions == 1 && !counts_by_context(totals) {
        told
    } else {
        0
    }
}

/// Adds how many messages are missing at a hole, where so many were told of it.
fn push_count(text: &mut Vec<u8>, count: u8, told: u64) -> Result<(), OutOfMemory>
    ensures { OnOk result (text.new.items ≡ text.old.items ++ count_words count told) }
{
    if told % 256 == count as u64 {
        push_number(text, b"", told)?;
        return text.extend_from_slice(b", as told");
    }
    push_number(text, b"", count)?;
    push_number(text, b", or ", count)?;
    text.extend_from_slice(b" and a multiple of 256")
}

/// Adds how many are missing at a hole, where it did not begin anew.
fn push_open(text: &mut Vec<u8>, count: u64) -> Result<(), OutOfMemory>
    ensures { OnOk result (text.new.items ≡ text.old.items ++ open_words count) }
{
    push_counted(text, b"", count, b", or ")?;
    push_counted(
        text,
        b"",
        count,
        b" and a multiple of 256, unless it began anew",
    )
}

/// Adds how many were passed over at a hole by each of the countings.
fn push_both(text: &mut Vec<u8>, hole: &Hole) -> Result<(), OutOfMemory>
    ensures { OnOk result (text.new.items ≡ text.old.items ++ both_words hole.now) }
{
    push_number(text, b"", hole.by_session)?;
    push_number(text, b" passed over by session, ", hole.by_context)?;
    text.extend_from_slice(b" by context")
}

/// Adds what is said of a hole of which so many were told.
fn push_hole_words(
    text: &mut Vec<u8>,
    hole: &Hole,
    totals: &Totals,
    told: u64,
) -> Result<(), OutOfMemory>
    ensures { OnOk result (text.new.items ≡ text.old.items ++ hole_words hole.now totals.now told) }
{
    if is_unknown(totals) {
        return push_both(text, hole);
    }
    let unsure = open_here(totals, hole);
    if unsure == 0 {
        push_count(text, passed_here(totals, hole), told)
    } else {
        push_open(text, unsure as u64)
    }
}

/// Whether nothing was passed over at a hole by the counting that its session follows.
fn is_none_here(totals: &Totals, hole: &Hole) -> bool
    ensures { result ≡ is_none_here totals.now hole.now }
{
    passed_here(totals, hole) == 0 && !is_unknown(totals)
}

/// Adds the front of the line of a hole: where it is, when, and of which session.
#[tactic(auto, unfolding(crate::specs::Text::front_text))]
fn push_front(text: &mut Vec<u8>, hole: &Hole) -> Result<(), OutOfMemory>
    ensures { OnOk result (text.new.items ≡ text.old.items ++ front_text hole.now) }
{
    push_number(text, b"hole ", hole.place)?;
    text.extend_from_slice(b" ")?;
    push_time(text, hole.entry.ticks as u128)?;
    push_session(text, &hole.entry.session)?;
    text.extend_from_slice(b" ")
}

/// Adds the line of a hole of which so many were told, by what is counted of its session; none where nothing was passed over.
pub fn push_hole(
    text: &mut Vec<u8>,
    totals: &Totals,
    hole: &Hole,
    told: u64,
) -> Result<(), OutOfMemory>
    ensures { OnOk result (text.new.items ≡ text.old.items ++ hole_text hole.now totals.now told) }
{
    if is_none_here(totals, hole) {
        return Ok(());
    }
    push_front(text, hole)?;
    push_hole_words(text, hole, totals, told)?;
    text.extend_from_slice(b"\n")
}

/// Adds how many are missing between the first message and the last.
fn push_missing(text: &mut Vec<u8>, count: u64) -> Result<(), OutOfMemory>
    ensures { OnOk result (text.new.items ≡ text.old.items ++ missing_words count) }
{
    if count == 0 {
        return text.extend_from_slice(b"none missing between, or a multiple of 256");
    }
    push_number(text, b"", count)?;
    push_number(text, b" missing between, or ", count)?;
    text.extend_from_slice(b" and a multiple of 256")
}

/// Adds that so many were passed over where it may have begun anew.
fn push_doubt(text: &mut Vec<u8>, count: u64) -> Result<(), OutOfMemory>
    ensures { OnOk result (text.new.items ≡ text.old.items ++ doubt_words count) }
{
    text.extend_from_slice(b", except where it may have begun anew: ")?;
    push_open(text, count)
}

/// Adds how many were passed over where it may have begun anew, if any.
fn push_except(text: &mut Vec<u8>, count: u64) -> Result<(), OutOfMemory>
    ensures { OnOk result (text.new.items ≡ text.old.items ++ except_words count) }
{
    if count == 0 {
        return Ok(());
    }
    push_doubt(text, count)
}

/// Adds what is missing of a session; where nobody knows who counts, what each counting passes over.
pub fn push_lacking(text: &mut Vec<u8>, totals: &Totals) -> Result<(), OutOfMemory>
    ensures { OnOk result (text.new.items ≡ text.old.items ++ lack_words totals.now) }
{
    if is_unknown(totals) {
        push_number(text, b"", totals.by_session)?;
        push_number(text, b" passed over by session, ", totals.by_context)?;
        return text.extend_from_slice(b" by context");
    }
    push_missing(text, missing(totals))?;
    push_except(text, open_passed(totals))
}

/// By what a session's messages are counted.
fn counting_words(totals: &Totals) -> &'static [u8]
    ensures { result.now ≡ counting_words totals.now }
{
    if is_unknown(totals) {
        b" by session or by context, which is not known: "
    } else if counts_by_context(totals) {
        b" by context: "
    } else {
        b" by session: "
    }
}

/// By what the other counting counts.
fn other_counting(totals: &Totals) -> &'static [u8]
    ensures { result.now ≡ other_counting totals.now }
{
    if counts_by_context(totals) {
        b" by session"
    } else {
        b" by context"
    }
}

/// Adds what was passed over by the other counting, where that differs.
fn push_other(text: &mut Vec<u8>, totals: &Totals) -> Result<(), OutOfMemory>
    ensures { OnOk result (text.new.items ≡ text.old.items ++ other_words totals.now) }
{
    if is_unknown(totals) || totals.by_session == totals.by_context {
        return Ok(());
    }
    push_number(text, b", ", other_passed(totals))?;
    text.extend_from_slice(other_counting(totals))
}

/// The counter of a session's first message.
fn first_counter(totals: &Totals) -> u8
    ensures { result ≡ first_counter totals.now }
{
    match totals.first {
        Some(first) => first.mcnt,
        None => 0,
    }
}

/// The timestamp of a message; 0 where there is none.
fn ticks_of(message: Option<Latest>) -> u32
    ensures { result ≡ option_map_or (λ m. m.ticks) message 0 }
{
    match message {
        Some(message) => message.ticks,
        None => 0,
    }
}

/// Adds what is said of the time before a session's first message, which has this counter, and behind its last.
fn push_outside(text: &mut Vec<u8>, first: u8) -> Result<(), OutOfMemory>
    ensures { OnOk result (text.new.items ≡ text.old.items ++ outside_words first) }
{
    push_counted(
        text,
        b"; before: not recorded here, the first counter is ",
        first as u64,
        b"; behind: not known\n",
    )
}

/// Adds the times of a session's first and last messages.
fn push_times(text: &mut Vec<u8>, totals: &Totals) -> Result<(), OutOfMemory>
    ensures { OnOk result (text.new.items ≡ text.old.items ++ times_text totals.now) }
{
    text.extend_from_slice(b" ")?;
    push_time(text, ticks_of(totals.first) as u128)?;
    text.extend_from_slice(b" ")?;
    push_time(text, ticks_of(totals.last) as u128)
}

/// Adds the front of the line of a session: how many messages it has, when, and by what they are counted.
#[tactic(auto, unfolding(crate::specs::Text::head_text))]
fn push_head(text: &mut Vec<u8>, session: &Session, totals: &Totals) -> Result<(), OutOfMemory>
    ensures { OnOk result (text.new.items ≡ text.old.items ++ head_text session.now totals.now) }
{
    text.extend_from_slice(b"session")?;
    push_session(text, session)?;
    push_number(text, b" ", totals.messages)?;
    push_times(text, totals)?;
    text.extend_from_slice(counting_words(totals))
}

/// Adds what is missing of a session between its first message and its last, and what is said of the time before and behind.
#[tactic(auto, unfolding(crate::specs::Text::span_text))]
fn push_span(text: &mut Vec<u8>, totals: &Totals) -> Result<(), OutOfMemory>
    ensures { OnOk result (text.new.items ≡ text.old.items ++ span_text totals.now) }
{
    push_lacking(text, totals)?;
    push_other(text, totals)?;
    push_outside(text, first_counter(totals))
}

/// Adds the line of a session, by what is counted of it.
pub fn push_totals(
    text: &mut Vec<u8>,
    session: &Session,
    totals: &Totals,
) -> Result<(), OutOfMemory>
    ensures { OnOk result (text.new.items ≡ text.old.items ++ totals_text session.now totals.now) }
{
    push_head(text, session, totals)?;
    push_span(text, totals)
}

/// Whether an application is the daemon itself.
fn is_daemon(source: &Source) -> bool
    ensures { result ≡ is_daemon source.now }
{
    source.apid == Id::from_bytes(DAEMON)
}

/// Adds what the sessions of an application lack, of which so many are open.
#[tactic(auto, unfolding(crate::specs::Text::between_words))]
fn push_between(
    text: &mut Vec<u8>,
    messages: u64,
    count: u64,
    unsure: u64,
) -> Result<(), OutOfMemory>
    ensures { OnOk result (text.new.items ≡ text.old.items ++ between_words messages count unsure) }
{
    if messages == 0 {
        text.extend_from_slice(b"no message here")
    } else if unsure == 0 {
        push_missing(text, count)
    } else {
        text.extend_from_slice(b"what is missing is open, as its sessions tell")
    }
}

/// Adds in how many sessions of an application messages may be lost, where there are several.
#[tactic(auto, unfolding(crate::specs::Text::among_words))]
fn push_among(text: &mut Vec<u8>, sessions: u64) -> Result<(), OutOfMemory>
    ensures { OnOk result (text.new.items ≡ text.old.items ++ among_words sessions) }
{
    if sessions < 2 {
        return Ok(());
    }
    push_counted(text, b" of its ", sessions, b" sessions together")
}

/// Adds of what it was told that messages were lost.
fn push_cause(text: &mut Vec<u8>, source: &Source) -> Result<(), OutOfMemory>
    ensures { OnOk result (text.new.items ≡ text.old.items ++ cause_words source.now) }
{
    if is_daemon(source) {
        return text.extend_from_slice(b": the buffer was full");
    }
    text.extend_from_slice(b": the ring of ")?;
    push_id(text, &source.apid)?;
    text.extend_from_slice(b" was full")
}

/// Adds whose messages were told as lost, and of what.
#[tactic(auto, unfolding(crate::specs::Text::whose_words))]
fn push_whose(text: &mut Vec<u8>, source: &Source, sessions: u64) -> Result<(), OutOfMemory>
    ensures { OnOk result (text.new.items ≡ text.old.items ++ whose_words source.now sessions) }
{
    push_among(text, sessions)?;
    push_cause(text, source)
}

/// Adds how many messages of an application were told as lost, and of what.
fn push_told(
    text: &mut Vec<u8>,
    source: &Source,
    sessions: u64,
    told: u64,
) -> Result<(), OutOfMemory>
    ensures { OnOk result (text.new.items ≡ text.old.items ++ told_words source.now sessions told) }
{
    if told == 0 {
        return text.extend_from_slice(b"; none told");
    }
    push_counted(text, b"; ", told, b" told")?;
    push_whose(text, source, sessions)
}

/// Adds by how many what was told is fewer than what is missing.
fn push_fewer(text: &mut Vec<u8>, count: u64) -> Result<(), OutOfMemory>
    ensures { OnOk result (text.new.items ≡ text.old.items ++ fewer_words count) }
{
    push_number(text, b", ", count)?;
    push_number(text, b", or ", count)?;
    text.extend_from_slice(b" and a multiple of 256, fewer than are missing")
}

/// Adds by how many what was told is more than what is missing; by a multiple of 256 is what counters can't show.
fn push_more(text: &mut Vec<u8>, count: u64) -> Result<(), OutOfMemory>
    ensures { OnOk result (text.new.items ≡ text.old.items ++ more_words count) }
{
    if count % 256 == 0 {
        return text.extend_from_slice(b", which agrees with the counters");
    }
    push_counted(text, b", ", count, b" more than the counters show")
}

/// Adds how the numbers of what is missing and of what was told go together.
fn push_rest(text: &mut Vec<u8>, count: u64, told: u64) -> Result<(), OutOfMemory>
    ensures { OnOk result (text.new.items ≡ text.old.items ++ rest_words count told) }
{
    if told < count {
        push_fewer(text, count - told)
    } else {
        push_more(text, told - count)
    }
}

/// Adds a part of what was told, where there is one.
fn push_part(text: &mut Vec<u8>, count: u64, words: &[u8]) -> Result<(), OutOfMemory>
    ensures { OnOk result (text.new.items ≡ text.old.items ++ part_words count words.now) }
{
    if count == 0 {
        return Ok(());
    }
    push_number(text, b", ", count)?;
    text.extend_from_slice(words)
}

/// Adds how the numbers of what is missing and of what was told go together, where no session is open.
#[tactic(auto, unfolding(crate::specs::Text::compared_words))]
fn push_compared(text: &mut Vec<u8>, count: u64, unsure: u64, told: u64) -> Result<(), OutOfMemory>
    ensures { OnOk result (text.new.items ≡ text.old.items ++ compared_words count unsure told) }
{
    if unsure == 0 {
        push_rest(text, count, told)
    } else {
        Ok(())
    }
}

/// Adds what is said of the reports of an application that has messages here.
fn push_detail(
    text: &mut Vec<u8>,
    count: u64,
    unsure: u64,
    losses: &Losses,
) -> Result<(), OutOfMemory>
    ensures { OnOk result (text.new.items ≡ text.old.items ++ detail_words count unsure losses.now) }
{
    if losses.messages == 0 || losses.told == 0 {
        return Ok(());
    }
    push_compared(text, count, unsure, losses.told)?;
    push_part(text, losses.before, b" of them before its first message")?;
    push_part(text, losses.behind, b" of them behind its last")
}

/// Adds what was told of the buffer, of another application than the daemon's own.
fn push_buffer(text: &mut Vec<u8>, source: &Source, count: u64) -> Result<(), OutOfMemory>
    ensures { OnOk result (text.new.items ≡ text.old.items ++ buffer_words source.now count) }
{
    if is_daemon(source) || count == 0 {
        return Ok(());
    }
    push_number(text, b"; ", count)?;
    text.extend_from_slice(b" told of all applications: the buffer was full")
}

/// Adds an application.
fn push_name(text: &mut Vec<u8>, source: &Source) -> Result<(), OutOfMemory>
    ensures { OnOk result (text.new.items ≡ text.old.items ++ application_name source.now) }
{
    text.extend_from_slice(b"application ")?;
    push_id(text, &source.apid)
}

/// Adds an application and what its sessions lack.
#[tactic(auto, unfolding(crate::specs::Text::lack_text))]
fn push_lack(
    text: &mut Vec<u8>,
    source: &Source,
    messages: u64,
    count: u64,
    unsure: u64,
) -> Result<(), OutOfMemory>
    ensures { OnOk result (text.new.items ≡ text.old.items ++ lack_text source.now messages count unsure) }
{
    push_name(text, source)?;
    text.extend_from_slice(b": ")?;
    push_between(text, messages, count, unsure)
}

/// Adds what was told of an application's lost messages.
#[tactic(auto, unfolding(crate::specs::Text::losses_text))]
fn push_losses(
    text: &mut Vec<u8>,
    source: &Source,
    count: u64,
    unsure: u64,
    losses: &Losses,
) -> Result<(), OutOfMemory>
    ensures { OnOk result (text.new.items ≡ text.old.items ++ losses_text source.now count unsure losses.now) }
{
    push_told(text, source, losses.sessions, losses.told)?;
    push_detail(text, count, unsure, losses)?;
    push_buffer(text, source, losses.buffer)?;
    text.extend_from_slice(b"\n")
}

/// Adds the line of an application, of whose messages so many are missing in its sessions, of which so many are open, and of which this was told.
pub fn push_application(
    text: &mut Vec<u8>,
    source: &Source,
    count: u64,
    unsure: u64,
    losses: &Losses,
) -> Result<(), OutOfMemory>
    ensures { OnOk result (text.new.items ≡ text.old.items ++ application_text source.now count unsure losses.now) }
{
    push_lack(text, source, losses.messages, count, unsure)?;
    push_losses(text, source, count, unsure, losses)
}
