//! A row of a picture: the name of what it shows, and its columns.

ghost use Rattle.std.specs.Prelude.{◌≡◌, ◌≤◌, ◌<◌, ◌+◌, ◌^◌, ◌++◌, OnOk, map};
ghost use Rattle.dl_picture.specs.Row.{bar, bin_text, bin_title, bins_from, block, blocks, cell, count_words, greatest_of, is_blank, line_words, name_of, row_head, row_text, shown};

use crate::chart::{Bin, Row};
use crate::element::{Label, Rect, push_escaped, push_label, push_number, push_rect};
use dl_bytes::OutOfMemory;

/// The colour of messages that are there.
pub const MESSAGE_COLOUR: &[u8] = b"#4477aa";

/// The colour of messages that are missing.
pub const MISSING_COLOUR: &[u8] = b"#cc3311";

/// The colour of messages that a record tells as lost.
pub const LOST_COLOUR: &[u8] = b"#ee9911";

/// The colour of calls that a level filtered.
pub const FILTERED_COLOUR: &[u8] = b"#aa3388";

/// Where a column of a row is.
#[derive(Clone, Copy)]
struct Place {
    /// The top of its row.
    top: u128,
    /// Its number, from 0.
    column: usize,
}

/// The part of a column that begins so far below its row's top.
#[tactic(auto, unfolding(crate::specs::Row::cell))]
fn cell(place: Place, below: u8, height: u8) -> Rect
    requires { place.top < 2 ^ 100 }
    ensures { result ≡ cell place.top place.column below height }
{
    Rect {
        x: 200 + 8 * place.column as u128,
        y: place.top + below as u128,
        width: 8,
        height: height as u128,
    }
}

/// The bar of so many messages, where the highest of the row has so many.
#[tactic(auto, unfolding(crate::specs::Row::bar))]
fn bar(place: Place, greatest: u64, count: u64) -> Rect
    requires top { place.top < 2 ^ 100 }
    requires some { 1 ≤ greatest }
    ensures { result ≡ bar place.top greatest place.column count }
{
    let height = 1 + count as u128 * 27 / greatest as u128;
    Rect {
        x: 200 + 8 * place.column as u128,
        y: (place.top + 30).saturating_sub(height),
        width: 8,
        height,
    }
}

/// Whether a column has nothing.
fn is_blank(bin: &Bin) -> bool
    ensures { result ≡ is_blank bin.now }
{
    bin.messages == 0 && bin.missing == 0 && bin.lost == 0 && bin.filtered == 0
}

/// Adds a count, where it is not 0.
#[tactic(auto, unfolding(crate::specs::Row::count_words))]
fn push_count(text: &mut Vec<u8>, words: &[u8], count: u64) -> Result<(), OutOfMemory>
    ensures { OnOk result (text.new.items ≡ text.old.items ++ count_words words.now count) }
{
    if count == 0 {
        return Ok(());
    }
    push_number(text, words, count)
}

/// Adds the lines of a script that count, where they are told.
#[tactic(auto, unfolding(crate::specs::Row::line_words))]
fn push_lines(text: &mut Vec<u8>, first: u64, last: u64) -> Result<(), OutOfMemory>
    ensures { OnOk result (text.new.items ≡ text.old.items ++ line_words first last) }
{
    if first == 0 {
        return Ok(());
    }
    if first == last {
        return push_number(text, b", line ", first);
    }
    push_number(text, b", lines ", first)?;
    push_number(text, b" to ", last)
}

/// Adds what is said of a column on hover.
#[tactic(auto, unfolding(crate::specs::Row::bin_title))]
fn push_title(text: &mut Vec<u8>, name: &[u8], bin: &Bin) -> Result<(), OutOfMemory>
    ensures { OnOk result (text.new.items ≡ text.old.items ++ bin_title name.now bin.now) }
{
    push_escaped(text, name)?;
    push_lines(text, bin.first_line, bin.last_line)?;
    push_count(text, b", messages ", bin.messages)?;
    push_count(text, b", missing ", bin.missing)?;
    push_count(text, b", told as lost ", bin.lost)?;
    push_count(text, b", filtered ", bin.filtered)?;
    Ok(())
}

/// Adds a rectangle, where the count is not 0.
#[tactic(auto, unfolding(crate::specs::Row::block))]
fn push_block(text: &mut Vec<u8>, count: u64, area: Rect, colour: &[u8]) -> Result<(), OutOfMemory>
    ensures { OnOk result (text.new.items ≡ text.old.items ++ block count area colour.now) }
{
    if count == 0 {
        return Ok(());
    }
    push_rect(text, area, colour)
}

/// Adds the rectangles of a column.
#[tactic(auto, unfolding(crate::specs::Row::blocks))]
fn push_blocks(
    text: &mut Vec<u8>,
    place: Place,
    greatest: u64,
    bin: &Bin,
) -> Result<(), OutOfMemory>
    requires top { place.top < 2 ^ 100 }
    requires some { 1 ≤ greatest }
    ensures { OnOk result (text.new.items ≡ text.old.items ++ blocks place.top greatest place.column bin.now) }
{
    push_block(text, bin.missing, cell(place, 2, 36), MISSING_COLOUR)?;
    push_block(
        text,
        bin.messages,
        bar(place, greatest, bin.messages),
        MESSAGE_COLOUR,
    )?;
    push_block(text, bin.lost, cell(place, 39, 6), LOST_COLOUR)?;
    push_block(text, bin.filtered, cell(place, 46, 6), FILTERED_COLOUR)
}

/// Adds a column, where it has something.
#[tactic(auto, unfolding(crate::specs::Row::bin_text))]
fn push_bin(
    text: &mut Vec<u8>,
    place: Place,
    greatest: u64,
    name: &[u8],
    bin: &Bin,
) -> Result<(), OutOfMemory>
    requires top { place.top < 2 ^ 100 }
    requires some { 1 ≤ greatest }
    ensures { OnOk result (text.new.items ≡ text.old.items ++ bin_text place.top greatest name.now place.column bin.now) }
{
    if is_blank(bin) {
        return Ok(());
    }
    text.extend_from_slice(b"<g><title>")?;
    push_title(text, name, bin)?;
    text.extend_from_slice(b"</title>\n")?;
    push_blocks(text, place, greatest, bin)?;
    text.extend_from_slice(b"</g>\n")
}

/// The most messages of a column; 1 where there are none.
fn greatest_of(bins: &[Bin]) -> u64
    ensures greatest { result ≡ greatest_of bins.now }
    ensures some { 1 ≤ result }
{
    let mut greatest = 1;
    for bin in bins {
        greatest = greatest.max(bin.messages);
    }
    greatest
}

/// The name of a column; none where it has none.
#[tactic(auto, unfolding(crate::specs::Row::name_of))]
fn name_of(names: &[Vec<u8>], column: usize) -> &[u8]
    ensures { result.now ≡ name_of (map (λ name. name.items) names.now) column }
{
    match names.get(column) {
        Some(name) => name.as_slice(),
        None => &[],
    }
}

/// Adds the columns of a row.
fn push_bins(
    text: &mut Vec<u8>,
    top: u128,
    names: &[Vec<u8>],
    bins: &[Bin],
) -> Result<(), OutOfMemory>
    requires { top < 2 ^ 100 }
    ensures { OnOk result (text.new.items ≡ text.old.items
        ++ bins_from top (greatest_of bins.now) (map (λ name. name.items) names.now) 0 bins.now) }
{
    let greatest = greatest_of(bins);
    for column in 0..bins.len() {
        push_bin(
            text,
            Place { top, column },
            greatest,
            name_of(names, column),
            &bins[column],
        )?;
    }
    Ok(())
}

/// Adds the name of a row, what is said of it, its background and its line.
#[tactic(auto, unfolding(crate::specs::Row::row_head))]
fn push_head(text: &mut Vec<u8>, top: u128, row: &Row) -> Result<(), OutOfMemory>
    requires { top < 2 ^ 100 }
    ensures { OnOk result (text.new.items ≡ text.old.items ++ row_head top (shown row.now)) }
{
    let name = Label { x: 8, y: top + 20 };
    let note = Label { x: 8, y: top + 38 };
    let ground = Rect {
        x: 200,
        y: top,
        width: 960,
        height: 54,
    };
    let line = Rect {
        x: 200,
        y: top + 30,
        width: 960,
        height: 1,
    };
    push_label(text, name, b" font-weight='bold'", &row.name)?;
    push_label(text, note, b" fill='#666666'", &row.note)?;
    push_rect(text, ground, b"#f2f2f2")?;
    push_rect(text, line, b"#bbbbbb")?;
    Ok(())
}

/// Adds a row: its number, from 0, tells where it stands.
#[tactic(auto, unfolding(crate::specs::Row::row_text))]
pub fn push_row(
    text: &mut Vec<u8>,
    names: &[Vec<u8>],
    number: usize,
    row: &Row,
) -> Result<(), OutOfMemory>
    ensures { OnOk result (text.new.items ≡ text.old.items ++ row_text (map (λ name. name.items) names.now) number (shown row.now)) }
{
    let top = 84 + 56 * number as u128;
    push_head(text, top, row)?;
    push_bins(text, top, names, &row.bins)
}
