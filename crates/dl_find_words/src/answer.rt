//! The answer to a question, in one line.

ghost use Rattle.std.specs.Prelude.{◌≡◌, ◌++◌, OnOk};
ghost use Rattle.dl_find_words.specs.Answer.{accounts_text, accounts_words, all_part_text, all_words, anew_words, backs_text, backs_words, before_text, before_words, behind_text, behind_words, between_text, book_text, buffer_told_words, buffer_words, by_text, calls_words, context_words, count_text, counting_text, counts_text, doubt_words, doubted_text, dropped_text, each_words, early_text, early_words, ended_words, entry_line, entry_text, filtered_part_text, filtered_text, filtered_words, first_name, first_text, first_words, fits, gapped_text, gapped_words, here_text, hit_text, hits_text, hole_text, holes_text, holes_words, kinds_text, level_text, level_words, lost_text, missing_text, missing_words, mixed_text, multiple_text, multiple_words, no_context_text, none_text, none_words, of_text, own_part_text, own_text, own_words, part_text, passed_text, place_text, program_words, queue_words, queued_text, queued_words, record_text, record_words, refused_text, refuted_text, refuted_words, ring_told_words, ring_words, rotated_text, rotated_words, said_text, seen_text, session_words, sessions_text, sessions_words, several_holes_text, several_text, several_words, spot_text, stored_words, told_text, unlogged_text, unstored_text, untold_text, verdict_text, whole_text, whole_words, word_text};

use crate::arguments::push_message;
use crate::found::{Book, Gone, Hole, Reports};
use crate::question::Question;
use crate::seen::{Hit, Seen, Spot};
use crate::verdict::{Verdict, Word, word_of};
use dl_bytes::OutOfMemory;
use dl_outside::Name;
use dl_sessions::{Calls, Entry, push_number, push_session, push_time};
use dl_text::push_id;

/// Words of an answer.
#[tactic(auto, unfolding(crate::specs::Answer::several_words))]
fn several_words() -> &'static [u8]
    ensures { result.now ≡ several_words }
{
    b" messages have it, the first of them is at "
}

/// Words of an answer.
#[tactic(auto, unfolding(crate::specs::Answer::record_words))]
fn record_words() -> &'static [u8]
    ensures { result.now ≡ record_words }
{
    b"; told by the record at "
}

/// Words of an answer.
#[tactic(auto, unfolding(crate::specs::Answer::ring_words))]
fn ring_words() -> &'static [u8]
    ensures { result.now ≡ ring_words }
{
    b" by the full ring of "
}

/// Words of an answer.
#[tactic(auto, unfolding(crate::specs::Answer::buffer_words))]
fn buffer_words() -> &'static [u8]
    ensures { result.now ≡ buffer_words }
{
    b" by the full buffer"
}

/// Words of an answer.
#[tactic(auto, unfolding(crate::specs::Answer::missing_words))]
fn missing_words() -> &'static [u8]
    ensures { result.now ≡ missing_words }
{
    b" missing, or "
}

/// Words of an answer.
#[tactic(auto, unfolding(crate::specs::Answer::multiple_words))]
fn multiple_words() -> &'static [u8]
    ensures { result.now ≡ multiple_words }
{
    b" and a multiple of 256"
}

/// Words of an answer.
#[tactic(auto, unfolding(crate::specs::Answer::anew_words))]
fn anew_words() -> &'static [u8]
    ensures { result.now ≡ anew_words }
{
    b"none missing, if it began anew with counter 0; else "
}

/// Words of an answer.
#[tactic(auto, unfolding(crate::specs::Answer::level_words))]
fn level_words() -> &'static [u8]
    ensures { result.now ≡ level_words }
{
    b", if its level passed it,"
}

/// Words of an answer.
#[tactic(auto, unfolding(crate::specs::Answer::filtered_words))]
fn filtered_words() -> &'static [u8]
    ensures { result.now ≡ filtered_words }
{
    b" filtered by level "
}

/// Words of an answer.
#[tactic(auto, unfolding(crate::specs::Answer::doubt_words))]
fn doubt_words() -> &'static [u8]
    ensures { result.now ≡ doubt_words }
{
    b"; or it is one of "
}

/// Words of an answer.
#[tactic(auto, unfolding(crate::specs::Answer::early_words))]
fn early_words() -> &'static [u8]
    ensures { result.now ≡ early_words }
{
    b"it may be before the first message here, "
}

/// Words of an answer.
#[tactic(auto, unfolding(crate::specs::Answer::each_words))]
fn each_words() -> &'static [u8]
    ensures { result.now ≡ each_words }
{
    b", or missing in each of "
}

/// Words of an answer.
#[tactic(auto, unfolding(crate::specs::Answer::session_words))]
fn session_words() -> &'static [u8]
    ensures { result.now ≡ session_words }
{
    b"if its session counts its messages, "
}

/// Words of an answer.
#[tactic(auto, unfolding(crate::specs::Answer::context_words))]
fn context_words() -> &'static [u8]
    ensures { result.now ≡ context_words }
{
    b"; if each context counts its own, "
}

/// Words of an answer.
#[tactic(auto, unfolding(crate::specs::Answer::none_words))]
fn none_words() -> &'static [u8]
    ensures { result.now ≡ none_words }
{
    b"none is missing there, or a multiple of 256"
}

/// Words of an answer.
#[tactic(auto, unfolding(crate::specs::Answer::whole_words))]
fn whole_words() -> &'static [u8]
    ensures { result.now ≡ whole_words }
{
    b"no counter is missing there, or a multiple of 256; it may be filtered by its level, not logged, or outside of what is recorded here of "
}

/// Words of an answer.
#[tactic(auto, unfolding(crate::specs::Answer::holes_words))]
fn holes_words() -> &'static [u8]
    ensures { result.now ≡ holes_words }
{
    b"it may be missing in each of "
}

/// Words of an answer.
#[tactic(auto, unfolding(crate::specs::Answer::before_words))]
fn before_words() -> &'static [u8]
    ensures { result.now ≡ before_words }
{
    b"not recorded here, the first message is "
}

/// Words of an answer.
#[tactic(auto, unfolding(crate::specs::Answer::behind_words))]
fn behind_words() -> &'static [u8]
    ensures { result.now ≡ behind_words }
{
    b"not recorded here, the last message is "
}

/// Words of an answer.
#[tactic(auto, unfolding(crate::specs::Answer::first_words))]
fn first_words() -> &'static [u8]
    ensures { result.now ≡ first_words }
{
    b"the first file here is "
}

/// Words of an answer.
#[tactic(auto, unfolding(crate::specs::Answer::rotated_words))]
fn rotated_words() -> &'static [u8]
    ensures { result.now ≡ rotated_words }
{
    b", and no file before that is here; the first message is "
}

/// Words of an answer.
#[tactic(auto, unfolding(crate::specs::Answer::ended_words))]
fn ended_words() -> &'static [u8]
    ensures { result.now ≡ ended_words }
{
    b" while the trace had ended"
}

/// Words of an answer.
#[tactic(auto, unfolding(crate::specs::Answer::all_words))]
fn all_words() -> &'static [u8]
    ensures { result.now ≡ all_words }
{
    b" of all applications"
}

/// Words of an answer.
#[tactic(auto, unfolding(crate::specs::Answer::sessions_words))]
fn sessions_words() -> &'static [u8]
    ensures { result.now ≡ sessions_words }
{
    b" has several sessions here: ask with the session's number before it\n"
}

/// Words of an answer.
#[tactic(auto, unfolding(crate::specs::Answer::backs_words))]
fn backs_words() -> &'static [u8]
    ensures { result.now ≡ backs_words }
{
    b"the times of its messages step back, so often: "
}

/// Words of an answer.
#[tactic(auto, unfolding(crate::specs::Answer::ring_told_words))]
fn ring_told_words() -> &'static [u8]
    ensures { result.now ≡ ring_told_words }
{
    b" told by the ring, "
}

/// Words of an answer.
#[tactic(auto, unfolding(crate::specs::Answer::buffer_told_words))]
fn buffer_told_words() -> &'static [u8]
    ensures { result.now ≡ buffer_told_words }
{
    b" told by the buffer, "
}

/// Words of an answer.
#[tactic(auto, unfolding(crate::specs::Answer::stored_words))]
fn stored_words() -> &'static [u8]
    ensures { result.now ≡ stored_words }
{
    b" not stored"
}

/// Words of an answer.
#[tactic(auto, unfolding(crate::specs::Answer::accounts_words))]
fn accounts_words() -> &'static [u8]
    ensures { result.now ≡ accounts_words }
{
    b" between its accounts at "
}

/// Words of an answer.
#[tactic(auto, unfolding(crate::specs::Answer::own_words))]
fn own_words() -> &'static [u8]
    ensures { result.now ≡ own_words }
{
    b", by its own account at "
}

/// Words of an answer.
#[tactic(auto, unfolding(crate::specs::Answer::calls_words))]
fn calls_words() -> &'static [u8]
    ensures { result.now ≡ calls_words }
{
    b" of its context, each of them here, were logged"
}

/// Words of an answer.
#[tactic(auto, unfolding(crate::specs::Answer::gapped_words))]
fn gapped_words() -> &'static [u8]
    ensures { result.now ≡ gapped_words }
{
    b"an account is missing before that at "
}

/// Words of an answer.
#[tactic(auto, unfolding(crate::specs::Answer::refuted_words))]
fn refuted_words() -> &'static [u8]
    ensures { result.now ≡ refuted_words }
{
    b"its account can't be, with "
}

/// Words of an answer.
#[tactic(auto, unfolding(crate::specs::Answer::queue_words))]
fn queue_words() -> &'static [u8]
    ensures { result.now ≡ queue_words }
{
    b" by the full queue of "
}

/// Words of an answer.
#[tactic(auto, unfolding(crate::specs::Answer::queued_words))]
fn queued_words() -> &'static [u8]
    ensures { result.now ≡ queued_words }
{
    b" queued and "
}

/// Words of an answer.
#[tactic(auto, unfolding(crate::specs::Answer::program_words))]
fn program_words() -> &'static [u8]
    ensures { result.now ≡ program_words }
{
    b" missing behind the program"
}

/// Adds a file and an offset in it.
#[tactic(auto, unfolding(crate::specs::Answer::spot_text))]
fn push_spot(text: &mut Vec<u8>, names: &[Name], spot: &Spot) -> Result<(), OutOfMemory>
    ensures { OnOk result (text.new.items ≡ text.old.items ++ spot_text names.now spot.now) }
{
    if let Some(name) = names.get(spot.file as usize) {
        text.extend_from_slice(name.as_str().as_bytes())?;
    }
    push_number(text, b" ", spot.offset)
}

/// Adds a message by its counter and its time.
#[tactic(auto, unfolding(crate::specs::Answer::entry_text))]
fn push_entry(text: &mut Vec<u8>, entry: &Entry) -> Result<(), OutOfMemory>
    ensures { OnOk result (text.new.items ≡ text.old.items ++ entry_text entry.now) }
{
    push_number(text, b"counter ", entry.mcnt)?;
    text.extend_from_slice(b" at ")?;
    push_time(text, entry.ticks as u128)
}

/// Adds the messages between which some are missing.
#[tactic(auto, unfolding(crate::specs::Answer::between_text))]
fn push_between(text: &mut Vec<u8>, hole: &Hole) -> Result<(), OutOfMemory>
    ensures { OnOk result (text.new.items ≡ text.old.items ++ between_text hole.now) }
{
    text.extend_from_slice(b" between ")?;
    push_entry(text, &hole.before.entry)?;
    text.extend_from_slice(b" and ")?;
    push_entry(text, &hole.behind.entry)
}

/// Adds what a message tells of itself.
#[tactic(auto, unfolding(crate::specs::Answer::entry_line))]
fn push_entry_line(text: &mut Vec<u8>, entry: &Entry) -> Result<(), OutOfMemory>
    ensures { OnOk result (text.new.items ≡ text.old.items ++ entry_line entry.now) }
{
    text.extend_from_slice(b" ")?;
    push_time(text, entry.ticks as u128)?;
    push_session(text, &entry.session)?;
    text.extend_from_slice(b" ")?;
    push_id(text, &entry.ctid)?;
    push_number(text, b" ", entry.mcnt)
}

/// Adds the word that an answer begins with.
fn push_word(text: &mut Vec<u8>, word: Word) -> Result<(), OutOfMemory>
    ensures { OnOk result (text.new.items ≡ text.old.items ++ word_text word) }
{
    match word {
        Word::Here => text.extend_from_slice(b"here "),
        Word::Filtered => text.extend_from_slice(b"filtered: "),
        Word::Lost => text.extend_from_slice(b"lost: "),
        Word::Refused => text.extend_from_slice(b"refused: "),
        Word::Unstored => text.extend_from_slice(b"unstored: "),
        Word::Rotated => text.extend_from_slice(b"rotated: "),
        Word::Before => text.extend_from_slice(b"before: "),
        Word::Behind => text.extend_from_slice(b"behind: "),
        Word::Unlogged => text.extend_from_slice(b"unlogged: "),
        Word::Unknown => text.extend_from_slice(b"unknown: "),
    }
}

/// Adds the line of a message that is here.
fn push_hit(text: &mut Vec<u8>, names: &[Name], hit: &Hit) -> Result<(), OutOfMemory>
    ensures { OnOk result (text.new.items ≡ text.old.items ++ hit_text names.now hit.now) }
{
    push_word(text, Word::Here)?;
    push_spot(text, names, &hit.seen.spot)?;
    push_entry_line(text, &hit.seen.entry)?;
    push_message(text, hit.bytes.all())?;
    text.extend_from_slice(b"\n")
}

/// Adds the line of several messages that are here.
fn push_several(
    text: &mut Vec<u8>,
    names: &[Name],
    count: u64,
    hit: &Hit,
) -> Result<(), OutOfMemory>
    ensures { OnOk result (text.new.items ≡ text.old.items ++ several_text names.now count hit.now) }
{
    push_word(text, Word::Unknown)?;
    push_number(text, b"", count)?;
    text.extend_from_slice(several_words())?;
    push_spot(text, names, &hit.seen.spot)?;
    text.extend_from_slice(b"\n")
}

/// Adds the line of what is here: of so many messages that are what is asked for, this is the first.
pub fn push_hits(
    text: &mut Vec<u8>,
    names: &[Name],
    count: u64,
    hit: &Hit,
) -> Result<(), OutOfMemory>
    ensures { OnOk result (text.new.items ≡ text.old.items ++ hits_text names.now count hit.now) }
{
    if count == 1 {
        push_hit(text, names, hit)
    } else {
        push_several(text, names, count, hit)
    }
}

/// Whether so many are as many as are missing.
pub fn fits(told: u64, missing: u8) -> bool
    ensures { result ≡ fits told missing }
{
    told % 256 == missing as u64
}

/// Adds how many are missing, or that and a multiple of 256.
fn push_multiple(text: &mut Vec<u8>, missing: u8) -> Result<(), OutOfMemory>
    ensures { OnOk result (text.new.items ≡ text.old.items ++ multiple_text missing) }
{
    push_number(text, b"", missing)?;
    text.extend_from_slice(multiple_words())
}

/// Adds how many are missing, as far as counters tell.
fn push_missing(text: &mut Vec<u8>, missing: u8) -> Result<(), OutOfMemory>
    ensures { OnOk result (text.new.items ≡ text.old.items ++ missing_text missing) }
{
    push_number(text, b"", missing)?;
    text.extend_from_slice(missing_words())?;
    push_multiple(text, missing)
}

/// Adds how many are missing in a hole.
fn push_count(text: &mut Vec<u8>, hole: &Hole) -> Result<(), OutOfMemory>
    ensures { OnOk result (text.new.items ≡ text.old.items ++ count_text hole.now) }
{
    if hole.behind.entry.mcnt != 0 {
        return push_missing(text, hole.missing);
    }
    push_number(text, anew_words(), hole.missing)?;
    text.extend_from_slice(b", or ")?;
    push_multiple(text, hole.missing)
}

/// Adds that so many are some of those that records tell of.
fn push_of(text: &mut Vec<u8>, missing: u8, told: u64) -> Result<(), OutOfMemory>
    ensures { OnOk result (text.new.items ≡ text.old.items ++ of_text missing told) }
{
    push_number(text, b"", missing)?;
    if told < missing as u64 + 256 {
        return text.extend_from_slice(b" of ");
    }
    text.extend_from_slice(b", or ")?;
    push_multiple(text, missing)?;
    text.extend_from_slice(b", of ")
}

/// Adds how many of those that records tell of.
fn push_part(text: &mut Vec<u8>, missing: u8, told: u64) -> Result<(), OutOfMemory>
    ensures { OnOk result (text.new.items ≡ text.old.items ++ part_text missing told) }
{
    if told != missing as u64 {
        push_of(text, missing, told)?;
    }
    push_number(text, b"", told)
}

/// Adds the same, where records may tell of no others.
fn push_own_part(text: &mut Vec<u8>, own: bool, missing: u8, told: u64) -> Result<(), OutOfMemory>
    ensures { OnOk result (text.new.items ≡ text.old.items ++ own_part_text own missing told) }
{
    if own {
        push_number(text, b"", told)
    } else {
        push_part(text, missing, told)
    }
}

/// Adds the same of records that tell of all applications.
fn push_all_part(text: &mut Vec<u8>, missing: u8, told: u64) -> Result<(), OutOfMemory>
    ensures { OnOk result (text.new.items ≡ text.old.items ++ all_part_text missing told) }
{
    if told == missing as u64 {
        return push_number(text, b"", told);
    }
    push_of(text, missing, told)?;
    push_number(text, b"", told)?;
    text.extend_from_slice(all_words())
}

/// Adds that it is missing if its level passed it, where that isn't known.
fn push_passed(text: &mut Vec<u8>, passed: bool) -> Result<(), OutOfMemory>
    ensures { OnOk result (text.new.items ≡ text.old.items ++ passed_text passed) }
{
    if passed {
        Ok(())
    } else {
        text.extend_from_slice(level_words())
    }
}

/// Adds which record says so.
fn push_record(text: &mut Vec<u8>, names: &[Name], last: Option<Spot>) -> Result<(), OutOfMemory>
    ensures { OnOk result (text.new.items ≡ text.old.items ++ record_text names.now last) }
{
    let Some(spot) = last else {
        return text.extend_from_slice(b"\n");
    };
    text.extend_from_slice(record_words())?;
    push_spot(text, names, &spot)?;
    text.extend_from_slice(b"\n")
}

/// Adds where messages are missing, and which record says so.
fn push_place(text: &mut Vec<u8>, names: &[Name], gone: &Gone) -> Result<(), OutOfMemory>
    ensures { OnOk result (text.new.items ≡ text.old.items ++ place_text names.now gone.now) }
{
    push_passed(text, gone.has_passed)?;
    push_between(text, &gone.hole)?;
    push_record(text, names, gone.told.last)
}

/// Adds the words of messages that the ring lost.
fn push_lost(
    text: &mut Vec<u8>,
    names: &[Name],
    question: &Question,
    gone: &Gone,
) -> Result<(), OutOfMemory>
    ensures { OnOk result (text.new.items ≡ text.old.items ++ lost_text names.now question.now gone.now) }
{
    push_own_part(text, gone.is_own, gone.hole.missing, gone.told.ring)?;
    text.extend_from_slice(ring_words())?;
    push_id(text, &question.apid)?;
    push_place(text, names, gone)
}

/// Adds the words of messages that the buffer refused.
fn push_refused(text: &mut Vec<u8>, names: &[Name], gone: &Gone) -> Result<(), OutOfMemory>
    ensures { OnOk result (text.new.items ≡ text.old.items ++ refused_text names.now gone.now) }
{
    push_all_part(text, gone.hole.missing, gone.told.buffer)?;
    text.extend_from_slice(buffer_words())?;
    push_place(text, names, gone)
}

/// Adds the words of messages that were not stored.
fn push_unstored(text: &mut Vec<u8>, names: &[Name], gone: &Gone) -> Result<(), OutOfMemory>
    ensures { OnOk result (text.new.items ≡ text.old.items ++ unstored_text names.now gone.now) }
{
    push_all_part(text, gone.hole.missing, gone.told.unstored)?;
    text.extend_from_slice(ended_words())?;
    push_place(text, names, gone)
}

/// Adds how many were told.
fn push_told(text: &mut Vec<u8>, told: &Reports) -> Result<(), OutOfMemory>
    ensures { OnOk result (text.new.items ≡ text.old.items ++ told_text told.now) }
{
    push_number(text, b", ", told.ring)?;
    push_number(text, ring_told_words(), told.buffer)?;
    push_number(text, buffer_told_words(), told.unstored)?;
    text.extend_from_slice(stored_words())
}

/// Adds how many are missing, how many were told, and where.
fn push_counts(text: &mut Vec<u8>, gone: &Gone) -> Result<(), OutOfMemory>
    ensures { OnOk result (text.new.items ≡ text.old.items ++ counts_text gone.now) }
{
    push_count(text, &gone.hole)?;
    push_told(text, &gone.told)?;
    push_between(text, &gone.hole)
}

/// Adds the words of a hole that the records leave open.
fn push_untold(text: &mut Vec<u8>, names: &[Name], gone: &Gone) -> Result<(), OutOfMemory>
    ensures { OnOk result (text.new.items ≡ text.old.items ++ untold_text names.now gone.now) }
{
    push_counts(text, gone)?;
    push_record(text, names, gone.told.last)
}

/// Adds the words where no counter was passed over.
fn push_whole(text: &mut Vec<u8>, question: &Question) -> Result<(), OutOfMemory>
    ensures { OnOk result (text.new.items ≡ text.old.items ++ whole_text question.now) }
{
    text.extend_from_slice(whole_words())?;
    push_id(text, &question.apid)?;
    text.extend_from_slice(b"\n")
}

/// Adds how many holes there are, and the first.
fn push_several_holes(text: &mut Vec<u8>, count: u64, hole: &Hole) -> Result<(), OutOfMemory>
    ensures { OnOk result (text.new.items ≡ text.old.items ++ several_holes_text count hole.now) }
{
    push_number(text, b"", count)?;
    text.extend_from_slice(b" holes, the first is")?;
    push_between(text, hole)?;
    text.extend_from_slice(b"\n")
}

/// Adds the words of several holes.
fn push_holes(text: &mut Vec<u8>, count: u64, hole: &Hole) -> Result<(), OutOfMemory>
    ensures { OnOk result (text.new.items ≡ text.old.items ++ holes_text count hole.now) }
{
    text.extend_from_slice(holes_words())?;
    push_several_holes(text, count, hole)
}

/// Adds the words of a counter that may be before the first message, or in holes.
fn push_early(text: &mut Vec<u8>, first: &Seen, count: u64, hole: &Hole) -> Result<(), OutOfMemory>
    ensures { OnOk result (text.new.items ≡ text.old.items ++ early_text first.now count hole.now) }
{
    text.extend_from_slice(early_words())?;
    push_entry(text, &first.entry)?;
    text.extend_from_slice(each_words())?;
    push_several_holes(text, count, hole)
}

/// Adds what is missing by one of the countings.
fn push_by(text: &mut Vec<u8>, hole: Option<Hole>) -> Result<(), OutOfMemory>
    ensures { OnOk result (text.new.items ≡ text.old.items ++ by_text hole) }
{
    let Some(hole) = hole else {
        return text.extend_from_slice(none_words());
    };
    push_count(text, &hole)?;
    push_between(text, &hole)
}

/// Adds the words where nothing tells who counts.
fn push_counting(
    text: &mut Vec<u8>,
    session: Option<Hole>,
    context: Option<Hole>,
) -> Result<(), OutOfMemory>
    ensures { OnOk result (text.new.items ≡ text.old.items ++ counting_text session context) }
{
    text.extend_from_slice(session_words())?;
    push_by(text, session)?;
    text.extend_from_slice(context_words())?;
    push_by(text, context)?;
    text.extend_from_slice(b"\n")
}

/// Adds a message by its counter, its time and its place.
fn push_seen(text: &mut Vec<u8>, names: &[Name], seen: &Seen) -> Result<(), OutOfMemory>
    ensures { OnOk result (text.new.items ≡ text.old.items ++ seen_text names.now seen.now) }
{
    push_entry(text, &seen.entry)?;
    text.extend_from_slice(b", at ")?;
    push_spot(text, names, &seen.spot)?;
    text.extend_from_slice(b"\n")
}

/// Adds the words of what is before all messages.
fn push_before(text: &mut Vec<u8>, names: &[Name], first: &Seen) -> Result<(), OutOfMemory>
    ensures { OnOk result (text.new.items ≡ text.old.items ++ before_text names.now first.now) }
{
    text.extend_from_slice(before_words())?;
    push_seen(text, names, first)
}

/// Adds the words of what is behind all messages.
fn push_behind(text: &mut Vec<u8>, names: &[Name], last: &Seen) -> Result<(), OutOfMemory>
    ensures { OnOk result (text.new.items ≡ text.old.items ++ behind_text names.now last.now) }
{
    text.extend_from_slice(behind_words())?;
    push_seen(text, names, last)
}

/// Adds the name of the first file.
#[tactic(auto, unfolding(crate::specs::Answer::first_name))]
fn push_first_name(text: &mut Vec<u8>, names: &[Name]) -> Result<(), OutOfMemory>
    ensures { OnOk result (text.new.items ≡ text.old.items ++ first_name names.now) }
{
    match names.get(0) {
        Some(name) => text.extend_from_slice(name.as_str().as_bytes()),
        None => Ok(()),
    }
}

/// Adds which file is the first here.
#[tactic(auto, unfolding(crate::specs::Answer::first_text))]
fn push_first(text: &mut Vec<u8>, names: &[Name]) -> Result<(), OutOfMemory>
    ensures { OnOk result (text.new.items ≡ text.old.items ++ first_text names.now) }
{
    text.extend_from_slice(first_words())?;
    push_first_name(text, names)?;
    text.extend_from_slice(rotated_words())
}

/// Adds the words of what is before all messages, and before the first file.
fn push_rotated(text: &mut Vec<u8>, names: &[Name], first: &Seen) -> Result<(), OutOfMemory>
    ensures { OnOk result (text.new.items ≡ text.old.items ++ rotated_text names.now first.now) }
{
    push_first(text, names)?;
    push_seen(text, names, first)
}

/// Adds between which accounts.
#[tactic(auto, unfolding(crate::specs::Answer::accounts_text))]
fn push_accounts(text: &mut Vec<u8>, book: &Book) -> Result<(), OutOfMemory>
    ensures { OnOk result (text.new.items ≡ text.old.items ++ accounts_text book.now) }
{
    text.extend_from_slice(accounts_words())?;
    push_time(text, book.before.entry.ticks as u128)?;
    text.extend_from_slice(b" and ")?;
    push_time(text, book.behind.entry.ticks as u128)
}

/// Adds where an account stands.
#[tactic(auto, unfolding(crate::specs::Answer::own_text))]
fn push_own(text: &mut Vec<u8>, names: &[Name], spot: &Spot) -> Result<(), OutOfMemory>
    ensures { OnOk result (text.new.items ≡ text.old.items ++ own_text names.now spot.now) }
{
    text.extend_from_slice(own_words())?;
    push_spot(text, names, spot)
}

/// Adds between which accounts, and the second one of them.
fn push_book(text: &mut Vec<u8>, names: &[Name], book: &Book) -> Result<(), OutOfMemory>
    ensures { OnOk result (text.new.items ≡ text.old.items ++ book_text names.now book.now) }
{
    push_accounts(text, book)?;
    push_own(text, names, &book.behind.spot)
}

/// Adds an account's filtered calls, with their level.
fn push_level(text: &mut Vec<u8>, calls: &Calls) -> Result<(), OutOfMemory>
    ensures { OnOk result (text.new.items ≡ text.old.items ++ level_text calls.now) }
{
    push_number(text, b"", calls.filtered)?;
    push_number(text, b" by level ", calls.level)
}

/// Adds the words of calls that were filtered.
fn push_filtered(text: &mut Vec<u8>, names: &[Name], book: &Book) -> Result<(), OutOfMemory>
    ensures { OnOk result (text.new.items ≡ text.old.items ++ filtered_text names.now book.now) }
{
    push_level(text, &book.behind.entry.calls)?;
    push_book(text, names, book)?;
    text.extend_from_slice(b"; it is one of them, or nobody logged it\n")
}

/// Adds an account's filtered calls, as some of others.
fn push_filtered_part(text: &mut Vec<u8>, calls: &Calls) -> Result<(), OutOfMemory>
    ensures { OnOk result (text.new.items ≡ text.old.items ++ filtered_part_text calls.now) }
{
    push_number(text, b"", calls.filtered)?;
    push_number(text, filtered_words(), calls.level)
}

/// Adds the words of messages that are missing, where calls were filtered too.
fn push_doubted(
    text: &mut Vec<u8>,
    names: &[Name],
    gone: &Gone,
    account: &Seen,
) -> Result<(), OutOfMemory>
    ensures { OnOk result (text.new.items ≡ text.old.items ++ doubted_text names.now gone.now account.now) }
{
    push_counts(text, gone)?;
    text.extend_from_slice(doubt_words())?;
    push_filtered_part(text, &account.entry.calls)?;
    push_own(text, names, &account.spot)?;
    text.extend_from_slice(b"\n")
}

/// Adds the words of calls that the program's queue lost.
fn push_dropped(
    text: &mut Vec<u8>,
    names: &[Name],
    question: &Question,
    book: &Book,
) -> Result<(), OutOfMemory>
    ensures { OnOk result (text.new.items ≡ text.old.items ++ dropped_text names.now question.now book.now) }
{
    push_number(text, b"", book.behind.entry.calls.lost)?;
    text.extend_from_slice(queue_words())?;
    push_id(text, &question.apid)?;
    push_book(text, names, book)?;
    text.extend_from_slice(b"\n")
}

/// Adds the words where each call is here.
fn push_unlogged(text: &mut Vec<u8>, names: &[Name], book: &Book) -> Result<(), OutOfMemory>
    ensures { OnOk result (text.new.items ≡ text.old.items ++ unlogged_text names.now book.now) }
{
    push_number(text, b"", book.behind.entry.calls.queued)?;
    text.extend_from_slice(calls_words())?;
    push_book(text, names, book)?;
    text.extend_from_slice(b"\n")
}

/// Adds the words where an account is missing.
fn push_gapped(text: &mut Vec<u8>, names: &[Name], book: &Book) -> Result<(), OutOfMemory>
    ensures { OnOk result (text.new.items ≡ text.old.items ++ gapped_text names.now book.now) }
{
    text.extend_from_slice(gapped_words())?;
    push_spot(text, names, &book.behind.spot)?;
    text.extend_from_slice(b"\n")
}

/// Adds how many calls an account has that passed their level.
fn push_queued(text: &mut Vec<u8>, book: &Book) -> Result<(), OutOfMemory>
    ensures { OnOk result (text.new.items ≡ text.old.items ++ queued_text book.now) }
{
    push_number(text, b"", book.behind.entry.calls.queued)?;
    push_number(text, queued_words(), book.behind.entry.calls.lost)?;
    text.extend_from_slice(b" lost, ")
}

/// Adds what is here of an account's messages.
fn push_here(text: &mut Vec<u8>, book: &Book) -> Result<(), OutOfMemory>
    ensures { OnOk result (text.new.items ≡ text.old.items ++ here_text book.now) }
{
    push_number(text, b"", book.since.messages)?;
    push_number(text, b" here and ", book.since.missing)?;
    text.extend_from_slice(b" missing")
}

/// Adds the words of an account that can't be.
fn push_refuted(text: &mut Vec<u8>, names: &[Name], book: &Book) -> Result<(), OutOfMemory>
    ensures { OnOk result (text.new.items ≡ text.old.items ++ refuted_text names.now book.now) }
{
    text.extend_from_slice(refuted_words())?;
    push_queued(text, book)?;
    push_here(text, book)?;
    push_book(text, names, book)?;
    text.extend_from_slice(b"\n")
}

/// Adds how many calls there were of each kind.
fn push_kinds(text: &mut Vec<u8>, book: &Book) -> Result<(), OutOfMemory>
    ensures { OnOk result (text.new.items ≡ text.old.items ++ kinds_text book.now) }
{
    let calls = &book.behind.entry.calls;
    push_filtered_part(text, calls)?;
    push_number(text, b", ", calls.lost)?;
    let missing = calls.queued.saturating_sub(book.since.messages);
    push_number(text, b" lost, ", missing)?;
    text.extend_from_slice(program_words())
}

/// Adds the hole where the question points, and ends the line.
fn push_hole(text: &mut Vec<u8>, hole: Option<Hole>) -> Result<(), OutOfMemory>
    ensures { OnOk result (text.new.items ≡ text.old.items ++ hole_text hole) }
{
    let Some(hole) = hole else {
        return text.extend_from_slice(b"\n");
    };
    text.extend_from_slice(b"; ")?;
    push_count(text, &hole)?;
    push_between(text, &hole)?;
    text.extend_from_slice(b"\n")
}

/// Adds the words of calls of several kinds.
fn push_mixed(
    text: &mut Vec<u8>,
    names: &[Name],
    book: &Book,
    hole: Option<Hole>,
) -> Result<(), OutOfMemory>
    ensures { OnOk result (text.new.items ≡ text.old.items ++ mixed_text names.now book.now hole) }
{
    push_kinds(text, book)?;
    push_book(text, names, book)?;
    push_hole(text, hole)
}

/// Adds the words where no message of the context is here.
fn push_no_context(text: &mut Vec<u8>) -> Result<(), OutOfMemory>
    ensures { OnOk result (text.new.items ≡ text.old.items ++ no_context_text) }
{
    text.extend_from_slice(b"no message of its context is here, which may count its own messages\n")
}

/// Adds the words where no message of the application is here.
fn push_none(text: &mut Vec<u8>, question: &Question) -> Result<(), OutOfMemory>
    ensures { OnOk result (text.new.items ≡ text.old.items ++ none_text question.now) }
{
    text.extend_from_slice(b"no message of ")?;
    push_id(text, &question.apid)?;
    text.extend_from_slice(b" is here\n")
}

/// Adds the words where several sessions are here.
fn push_sessions(text: &mut Vec<u8>, question: &Question) -> Result<(), OutOfMemory>
    ensures { OnOk result (text.new.items ≡ text.old.items ++ sessions_text question.now) }
{
    push_id(text, &question.apid)?;
    text.extend_from_slice(sessions_words())
}

/// Adds the words where times step back.
fn push_backs(text: &mut Vec<u8>, count: u64) -> Result<(), OutOfMemory>
    ensures { OnOk result (text.new.items ≡ text.old.items ++ backs_text count) }
{
    push_number(text, backs_words(), count)?;
    text.extend_from_slice(b"\n")
}

/// Adds what stands behind the word.
fn push_said(
    text: &mut Vec<u8>,
    names: &[Name],
    question: &Question,
    verdict: &Verdict,
) -> Result<(), OutOfMemory>
    ensures { OnOk result (text.new.items ≡ text.old.items ++ said_text names.now question.now verdict.now) }
{
    match verdict {
        Verdict::Filtered { book } => push_filtered(text, names, book),
        Verdict::Dropped { book } => push_dropped(text, names, question, book),
        Verdict::Unlogged { book } => push_unlogged(text, names, book),
        Verdict::Lost { gone } => push_lost(text, names, question, gone),
        Verdict::Refused { gone } => push_refused(text, names, gone),
        Verdict::Unstored { gone } => push_unstored(text, names, gone),
        Verdict::Doubted { gone, account } => push_doubted(text, names, gone, account),
        Verdict::Rotated { first } => push_rotated(text, names, first),
        Verdict::Before { first } => push_before(text, names, first),
        Verdict::Behind { last } => push_behind(text, names, last),
        Verdict::Untold { gone } => push_untold(text, names, gone),
        Verdict::Holes { count, hole } => push_holes(text, *count, hole),
        Verdict::Early { first, count, hole } => push_early(text, first, *count, hole),
        Verdict::Counting { session, context } => push_counting(text, *session, *context),
        Verdict::Whole => push_whole(text, question),
        Verdict::NoContext => push_no_context(text),
        Verdict::Nobody => push_none(text, question),
        Verdict::Sessions => push_sessions(text, question),
        Verdict::Backs { count } => push_backs(text, *count),
        Verdict::Gapped { book } => push_gapped(text, names, book),
        Verdict::Refuted { book } => push_refuted(text, names, book),
        Verdict::Mixed { book, hole } => push_mixed(text, names, book, *hole),
    }
}

/// Adds the line of a message that isn't here, of which this is said.
pub fn push_verdict(
    text: &mut Vec<u8>,
    names: &[Name],
    question: &Question,
    verdict: &Verdict,
) -> Result<(), OutOfMemory>
    ensures { OnOk result (text.new.items ≡ text.old.items ++ verdict_text names.now question.now verdict.now) }
{
    push_word(text, word_of(verdict))?;
    push_said(text, names, question, verdict)
}
