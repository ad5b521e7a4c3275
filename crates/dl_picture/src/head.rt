//! A picture: its head with what the colours mean, its columns and its rows.

ghost use Rattle.std.specs.Prelude.{◌≡◌, ◌<◌, ◌^◌, ◌++◌, IfOk, OnOk, map};
ghost use Rattle.dl_picture.specs.Row.{shown};
ghost use Rattle.dl_picture.specs.Picture.{chart_of, filter_key, font_words, front, head, height_of, key, keys, mark, mark_at, marks_from, open_words, picture, rows_from, view_words};

use crate::chart::{Picture, Row};
use crate::element::{Label, Rect, push_label, push_number, push_rect};
use crate::row::{FILTERED_COLOUR, LOST_COLOUR, MESSAGE_COLOUR, MISSING_COLOUR, push_row};
use dl_bytes::OutOfMemory;
use std::alloc::Global;

/// Adds what one colour means.
#[tactic(auto, unfolding(crate::specs::Picture::key))]
fn push_key(text: &mut Vec<u8>, x: u128, colour: &[u8], words: &[u8]) -> Result<(), OutOfMemory>
    requires { x < 2 ^ 100 }
    ensures { OnOk result (text.new.items ≡ text.old.items ++ key x colour.now words.now) }
{
    let patch = Rect {
        x,
        y: 34,
        width: 12,
        height: 12,
    };
    push_rect(text, patch, colour)?;
    push_label(text, Label { x: x + 18, y: 44 }, b"", words)
}

/// Adds what the colour of filtered calls means, where a level can have filtered something.
#[tactic(auto, unfolding(crate::specs::Picture::filter_key))]
fn push_filter_key(text: &mut Vec<u8>, filters: bool) -> Result<(), OutOfMemory>
    ensures { OnOk result (text.new.items ≡ text.old.items ++ filter_key filters) }
{
    if !filters {
        return Ok(());
    }
    push_key(text, 520, FILTERED_COLOUR, b"filtered by a level")
}

/// Adds what the colours mean.
#[tactic(auto, unfolding(crate::specs::Picture::keys))]
fn push_keys(text: &mut Vec<u8>, filters: bool) -> Result<(), OutOfMemory>
    ensures { OnOk result (text.new.items ≡ text.old.items ++ keys filters) }
{
    push_key(text, 200, MESSAGE_COLOUR, b"messages")?;
    push_key(text, 300, MISSING_COLOUR, b"missing")?;
    push_key(text, 400, LOST_COLOUR, b"told as lost")?;
    push_filter_key(text, filters)?;
    Ok(())
}

/// What a picture begins with: that it is one, and how wide.
#[tactic(auto, unfolding(crate::specs::Picture::open_words))]
fn open_words() -> &'static [u8]
    ensures { result.now ≡ open_words }
{
    b"<svg xmlns='http://www.w3.org/2000/svg' width='1180' height='"
}

/// What stands before its height for the second time.
#[tactic(auto, unfolding(crate::specs::Picture::view_words))]
fn view_words() -> &'static [u8]
    ensures { result.now ≡ view_words }
{
    b"' viewBox='0 0 1180 "
}

/// How its letters look.
#[tactic(auto, unfolding(crate::specs::Picture::font_words))]
fn font_words() -> &'static [u8]
    ensures { result.now ≡ font_words }
{
    b"' font-family='sans-serif' font-size='12' fill='#222222'>\n"
}

/// Adds the front of the text.
#[tactic(auto, unfolding(crate::specs::Picture::front))]
fn push_front(text: &mut Vec<u8>, height: u128) -> Result<(), OutOfMemory>
    ensures { OnOk result (text.new.items ≡ text.old.items ++ front height) }
{
    push_number(text, open_words(), height)?;
    push_number(text, view_words(), height)?;
    text.extend_from_slice(font_words())
}

/// Adds the head of a picture.
#[tactic(auto, unfolding(crate::specs::Picture::head))]
fn push_head(
    text: &mut Vec<u8>,
    height: u128,
    filters: bool,
    title: &[u8],
) -> Result<(), OutOfMemory>
    ensures { OnOk result (text.new.items ≡ text.old.items ++ head height filters title.now) }
{
    let ground = Rect {
        x: 0,
        y: 0,
        width: 1180,
        height,
    };
    push_front(text, height)?;
    push_rect(text, ground, b"#ffffff")?;
    push_label(
        text,
        Label { x: 8, y: 20 },
        b" font-size='14' font-weight='bold'",
        title,
    )?;
    push_keys(text, filters)?;
    Ok(())
}

/// Adds the name of a column, and a line through all rows.
#[tactic(auto, unfolding(crate::specs::Picture::mark))]
fn push_mark(
    text: &mut Vec<u8>,
    height: u128,
    column: usize,
    name: &[u8],
) -> Result<(), OutOfMemory>
    ensures { OnOk result (text.new.items ≡ text.old.items ++ mark height column name.now) }
{
    let x = 200 + 8 * column as u128;
    let line = Rect {
        x,
        y: 76,
        width: 1,
        height: height.saturating_sub(92),
    };
    push_label(text, Label { x, y: 72 }, b" fill='#666666'", name)?;
    push_rect(text, line, b"#cccccc")
}

/// Adds the name of a column, where it is to be named.
#[tactic(auto, unfolding(crate::specs::Picture::mark_at))]
fn push_mark_at(
    text: &mut Vec<u8>,
    height: u128,
    column: usize,
    name: &[u8],
) -> Result<(), OutOfMemory>
    ensures { OnOk result (text.new.items ≡ text.old.items ++ mark_at height column name.now) }
{
    if column % 20 == 0 {
        push_mark(text, height, column, name)?;
    }
    Ok(())
}

/// Adds the names of the columns.
fn push_marks(text: &mut Vec<u8>, height: u128, names: &[Vec<u8>]) -> Result<(), OutOfMemory>
    ensures { OnOk result (text.new.items ≡ text.old.items ++ marks_from height 0 (map (λ name. name.items) names.now)) }
{
    for column in 0..names.len() {
        push_mark_at(text, height, column, &names[column])?;
    }
    Ok(())
}

/// Adds the rows.
fn push_rows(text: &mut Vec<u8>, names: &[Vec<u8>], rows: &[Row]) -> Result<(), OutOfMemory>
    ensures { OnOk result (text.new.items ≡ text.old.items ++ rows_from (map (λ name. name.items) names.now) 0 (map shown rows.now)) }
{
    for number in 0..rows.len() {
        push_row(text, names, number, &rows[number])?;
    }
    Ok(())
}

/// The text of a picture, in SVG: a text that a browser shows, with what each column counts on hover. It has some hundred letters for
/// each column of a row in which something is counted, whatever the counts are.
#[tactic(auto, unfolding(crate::specs::Picture::picture))]
pub fn draw(alloc: Global, value: &Picture) -> Result<Vec<u8>, OutOfMemory>
    ensures { IfOk result (λ text. text.items ≡ picture (chart_of value.now)) }
{
    let height = 24 + (84 + 56 * value.rows.len() as u128);
    let mut text = Vec::new(alloc);
    push_head(&mut text, height, value.filters, &value.title)?;
    push_rows(&mut text, &value.columns, &value.rows)?;
    push_marks(&mut text, height, &value.columns)?;
    text.extend_from_slice(b"</svg>\n")?;
    Ok(text)
}
