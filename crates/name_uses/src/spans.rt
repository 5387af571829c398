//! Where the words of a text stand.

use action_script::words::cuts::is_blank;
use std::alloc::{AllocError, Global};

/// A piece of a text: so many bytes stand before it, and so many before its end.
#[derive(Clone, Copy, Debug, PartialEq, Eq)]
pub struct Span {
    pub start: usize,
    pub end: usize,
}

/// How many bytes of a line stand before its first blank, or how many it has.
fn end_of_word(line: &[u8]) -> usize {
    for (index, byte) in line.iter().enumerate() {
        if is_blank(*byte) {
            return index;
        }
    }
    line.len()
}

/// Where a word of a line stands, before which so many stand; none where the line has fewer.
pub fn word_in(line: &[u8], word: usize) -> Option<Span> {
    let mut is_inside = false;
    let mut left = word;
    for (index, byte) in line.iter().enumerate() {
        if is_blank(*byte) {
            is_inside = false;
        } else if !is_inside {
            if left == 0 {
                let rest = line.get(index..).unwrap_or(&[]);
                return Some(Span {
                    start: index,
                    end: index.saturating_add(end_of_word(rest)),
                });
            }
            left -= 1;
            is_inside = true;
        }
    }
    None
}

/// The lines of a text, by their numbers.
#[derive(Drop)]
pub struct TextLines<'a> {
    text: &'a [u8],
    /// How many bytes stand before each line, and before the end of the text.
    starts: Vec<usize>,
}

impl<'a> TextLines<'a> {
    /// The lines of this text.
    pub fn of(alloc: Global, text: &'a [u8]) -> Result<TextLines<'a>, AllocError> {
        let mut starts = Vec::new(alloc);
        starts.push(0)?;
        for (index, byte) in text.iter().enumerate() {
            if *byte == b'\n' {
                starts.push(index.saturating_add(1))?;
            }
        }
        Ok(TextLines { text, starts })
    }

    /// How many bytes stand before the line of this number, counted from 1; those of the whole text where there is none.
    pub fn start(&self, number: u32) -> usize {
        let index = (number as usize).saturating_sub(1);
        self.starts.get(index).copied().unwrap_or(self.text.len())
    }

    /// The line of this number, without its line feed.
    pub fn line(&self, number: u32) -> &'a [u8] {
        let start = self.start(number);
        let end = self.start(number.saturating_add(1));
        let line = self.text.get(start..end).unwrap_or(&[]);
        match line.split_last() {
            Some((b'\n', before)) => before,
            _ => line,
        }
    }

    /// The number of the line in which a place stands that has so many bytes before it.
    pub fn number_at(&self, offset: usize) -> u32 {
        let mut number = 0u32;
        for start in self.starts.iter() {
            if *start > offset {
                break;
            }
            number = number.saturating_add(1);
        }
        number
    }

    /// How many lines there are; a text that ends with a line feed has an empty one behind it.
    pub fn count(&self) -> u32 {
        let mut count = 0u32;
        for _ in self.starts.iter() {
            count = count.saturating_add(1);
        }
        count
    }

    /// Where a word of the line of this number stands, before which so many stand in the line.
    pub fn word(&self, number: u32, word: usize) -> Option<Span> {
        let start = self.start(number);
        let span = word_in(self.line(number), word)?;
        Some(Span {
            start: start.saturating_add(span.start),
            end: start.saturating_add(span.end),
        })
    }

    /// The line in which a place stands that has so many bytes before it, and which of its words the place touches; none where it
    /// touches none.
    pub fn word_at(&self, offset: usize) -> Option<(u32, usize)> {
        let number = self.number_at(offset);
        let column = offset.saturating_sub(self.start(number));
        let word = touched(self.line(number), column)?;
        Some((number, word))
    }
}

/// Which word of a line a place touches that has so many bytes before it.
fn touched(line: &[u8], column: usize) -> Option<usize> {
    let mut is_inside = false;
    let mut words = 0usize;
    for (index, byte) in line.iter().enumerate() {
        if is_blank(*byte) {
            if is_inside && index == column {
                return words.checked_sub(1);
            }
            is_inside = false;
        } else if !is_inside {
            is_inside = true;
            words = words.saturating_add(1);
        }
        if is_inside && index == column {
            return words.checked_sub(1);
        }
    }
    if is_inside && column >= line.len() {
        words.checked_sub(1)
    } else {
        None
    }
}
