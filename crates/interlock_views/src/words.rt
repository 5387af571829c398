//! The words of a line of rules.

use action_script::words::cuts::is_blank;
use caa_base::written::entry::OutOfMemory;
use std::alloc::Global;

/// A word or a comma of a line, with how many bytes of the line stand before it.
#[derive(Clone, Copy)]
pub struct Word<'a> {
    pub text: &'a [u8],
    pub column: usize,
}

impl<'a> Word<'a> {
    /// Whether it is this word.
    pub fn is(&self, text: &str) -> bool {
        self.text == text.as_bytes()
    }

    /// Whether it is a comma.
    pub fn is_comma(&self) -> bool {
        self.is(",")
    }
}

/// Adds the word from one byte of a line up to another, if one has begun.
fn push_word<'a>(
    words: &mut Vec<Word<'a>>,
    line: &'a [u8],
    start: Option<usize>,
    end: usize,
) -> Result<(), OutOfMemory> {
    if let Some(column) = start {
        words.push(Word {
            text: line.get(column..end).unwrap_or(&[]),
            column,
        })?;
    }
    Ok(())
}

/// Adds the byte of this index, if it is a comma, which is a word by itself.
fn push_comma<'a>(
    words: &mut Vec<Word<'a>>,
    line: &'a [u8],
    index: usize,
    byte: u8,
) -> Result<(), OutOfMemory> {
    let start = if byte == b',' { Some(index) } else { None };
    push_word(words, line, start, index.saturating_add(1))
}

/// The words of a line, up to its comment. Blanks and commas part words, and a comment begins with a word whose first byte is `#`.
pub fn words_of<'a>(alloc: Global, line: &'a [u8]) -> Result<Vec<Word<'a>>, OutOfMemory> {
    let mut words = Vec::new(alloc);
    let mut start = None;
    for (index, byte) in line.iter().enumerate() {
        if is_blank(*byte) || *byte == b',' {
            push_word(&mut words, line, start, index)?;
            push_comma(&mut words, line, index, *byte)?;
            start = None;
        } else if start.is_none() {
            if *byte == b'#' {
                return Ok(words);
            }
            start = Some(index);
        }
    }
    push_word(&mut words, line, start, line.len())?;
    Ok(words)
}
