//! The lines of a text and the columns of its words.

use crate::page::{Page, Piece};
use action_script::words::cuts::{cut_line, is_blank};
use caa_base::written::entry::OutOfMemory;
use caa_base::written::limits::MOST_LINE_BYTES;

/// How many bytes are shown of a line that is too long, and how many carets stand under a word at most.
const MOST_SHOWN: usize = 60;

/// What stands in a text after so many lines.
fn after_lines(text: &[u8], count: u32) -> &[u8] {
    let mut rest = text;
    for _ in 0..count {
        if rest.is_empty() {
            break;
        }
        rest = cut_line(rest).1;
    }
    rest
}

/// What stands in a text before the line of this number, counted from 1.
pub fn before_line(text: &[u8], number: u32) -> &[u8] {
    let rest = after_lines(text, number.saturating_sub(1));
    let count = text.len().saturating_sub(rest.len());
    text.get(..count).unwrap_or(text)
}

/// The line of this number, counted from 1; empty where there is none.
pub fn line_at(text: &[u8], number: u32) -> &[u8] {
    let rest = after_lines(text, number.saturating_sub(1));
    if rest.is_empty() {
        return rest;
    }
    cut_line(rest).0
}

/// A line without the carriage returns and blanks at its end.
fn without_end(line: &[u8]) -> &[u8] {
    let mut count = 0;
    for (index, byte) in line.iter().enumerate() {
        if !is_blank(*byte) {
            count = index.saturating_add(1);
        }
    }
    line.get(..count).unwrap_or(line)
}

/// How many bytes stand before the word of this index, counted from 0; past the last word, all of the line.
pub fn column_of(line: &[u8], word: usize) -> usize {
    let mut is_inside = false;
    let mut words = 0usize;
    for (index, byte) in line.iter().enumerate() {
        let is_ink = !is_blank(*byte);
        if is_ink && !is_inside {
            if words == word {
                return index;
            }
            words = words.saturating_add(1);
        }
        is_inside = is_ink;
    }
    let shown = without_end(line).len();
    if shown == 0 {
        return 0;
    }
    shown.saturating_add(1)
}

/// How many characters the word has that stands here. A byte that goes on with a character isn't counted.
pub fn width_at(line: &[u8], column: usize) -> usize {
    let rest = line.get(column..).unwrap_or(&[]);
    let mut width = 0usize;
    for byte in rest {
        if is_blank(*byte) {
            break;
        }
        if *byte < 128 || *byte > 191 {
            width = width.saturating_add(1);
        }
    }
    width
}

/// Adds a line of the text with its number.
pub fn show_line(page: &mut Page, text: &[u8], number: u32) -> Result<(), OutOfMemory> {
    let line = without_end(line_at(text, number));
    page.say(&[
        Piece::Text("    "),
        Piece::Number(u64::from(number)),
        Piece::Text(" | "),
    ])?;
    if line.len() > MOST_LINE_BYTES {
        page.show(line.get(..MOST_SHOWN).unwrap_or(line))?;
        return page.say(&[Piece::Text(" ..\n")]);
    }
    page.show(line)?;
    page.say(&[Piece::Text("\n")])
}

/// How many digits a number has.
fn digits_of(number: u32) -> usize {
    let mut count = 1usize;
    let mut rest = number / 10;
    for _ in 0..10 {
        if rest > 0 {
            count = count.saturating_add(1);
            rest /= 10;
        }
    }
    count
}

/// Adds carets under so many bytes of a line that was shown, after the column. Tabs stay tabs, so that the carets stand right.
pub fn show_carets(
    page: &mut Page,
    line: &[u8],
    number: u32,
    column: usize,
    width: usize,
) -> Result<(), OutOfMemory> {
    page.fill(b' ', digits_of(number).saturating_add(4))?;
    page.say(&[Piece::Text(" | ")])?;
    for index in 0..column {
        let is_tab = line.get(index).copied() == Some(b'\t');
        page.fill(if is_tab { b'\t' } else { b' ' }, 1)?;
    }
    page.fill(b'^', width.max(1).min(MOST_SHOWN))?;
    page.say(&[Piece::Text("\n")])
}
