//! Sentences, which are put together from words, names and numbers.

use caa_base::written::entry::OutOfMemory;
use caa_base::written::name::{Name, name_at};
use std::alloc::Global;
use std::io::Write;

/// A piece of a sentence.
#[derive(Clone, Copy)]
pub enum Piece<'a> {
    /// Words of the sentence.
    Text(&'static str),
    /// A word of the script, as it stands there.
    Word(&'a [u8]),
    /// The name of this number; a number that is no name's stands for `universal`.
    Named(u32),
    /// The names of these numbers with a space between each two; `nothing` where there are none.
    List(&'a [u32]),
    Number(u64),
}

/// A text that is written piece by piece, about a script with these names.
#[derive(Drop)]
pub struct Page<'a> {
    names: &'a [Name],
    text: Vec<u8>,
}

impl<'a> Page<'a> {
    /// Nothing yet.
    pub fn new(alloc: Global, names: &'a [Name]) -> Page<'a> {
        Page {
            names,
            text: Vec::new(alloc),
        }
    }

    /// What was written.
    pub fn into_text(self) -> Vec<u8> {
        self.text
    }

    /// Adds these bytes, but a question mark for each byte that could steer a terminal.
    pub fn show(&mut self, bytes: &[u8]) -> Result<(), OutOfMemory> {
        for byte in bytes {
            let shown = if (*byte < 32 && *byte != b'\t') || *byte == 127 {
                b'?'
            } else {
                *byte
            };
            self.text.push(shown)?;
        }
        Ok(())
    }

    /// Adds a name.
    pub fn name(&mut self, number: u32) -> Result<(), OutOfMemory> {
        let name = name_at(self.names, number);
        if name.is_empty() {
            self.text.extend_from_slice(b"universal")?;
        } else {
            self.text.extend_from_slice(name)?;
        }
        Ok(())
    }

    /// Adds names.
    pub fn list(&mut self, numbers: &[u32]) -> Result<(), OutOfMemory> {
        if numbers.is_empty() {
            self.text.extend_from_slice(b"nothing")?;
        }
        for (index, number) in numbers.iter().enumerate() {
            if index > 0 {
                self.text.push(b' ')?;
            }
            self.name(*number)?;
        }
        Ok(())
    }

    /// Adds a number.
    pub fn number(&mut self, number: u64) -> Result<(), OutOfMemory> {
        match write!(self.text, "{number}") {
            Ok(()) => Ok(()),
            Err(_) => Err(OutOfMemory),
        }
    }

    /// Adds a byte so many times.
    pub fn fill(&mut self, byte: u8, count: usize) -> Result<(), OutOfMemory> {
        for _ in 0..count {
            self.text.push(byte)?;
        }
        Ok(())
    }

    fn piece(&mut self, piece: Piece) -> Result<(), OutOfMemory> {
        match piece {
            Piece::Text(words) => {
                self.text.extend_from_slice(words.as_bytes())?;
                Ok(())
            }
            Piece::Word(word) => self.show(word),
            Piece::Named(number) => self.name(number),
            Piece::List(numbers) => self.list(numbers),
            Piece::Number(number) => self.number(number),
        }
    }

    /// Adds these pieces.
    pub fn say(&mut self, pieces: &[Piece]) -> Result<(), OutOfMemory> {
        for piece in pieces {
            self.piece(*piece)?;
        }
        Ok(())
    }

    /// Adds a line of its own with these pieces, below the line of the script that it is about.
    pub fn note(&mut self, pieces: &[Piece]) -> Result<(), OutOfMemory> {
        self.text.extend_from_slice(b"  = ")?;
        self.say(pieces)?;
        self.text.push(b'\n')?;
        Ok(())
    }

    /// Adds a line of its own with these words.
    pub fn tell(&mut self, words: &'static str) -> Result<(), OutOfMemory> {
        self.note(&[Piece::Text(words)])
    }
}
