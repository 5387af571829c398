//! What is told of a script, sentence by sentence.

use crate::rule::Rule;
use action_script::forms::script::Script;
use caa_base::written::entry::OutOfMemory;
use caa_base::written::line::push_value;
use script_views::page::{Page, Piece};
use std::alloc::Global;

/// A sentence about a line of a script, and the rule that it comes from.
#[derive(Drop)]
pub struct Told {
    pub rule: Rule,
    /// Which line of the text it is about, counted from 1.
    pub line: u32,
    pub text: Vec<u8>,
}

/// What is told of a script.
#[derive(Drop)]
pub struct Tells<'a> {
    pub alloc: Global,
    pub script: &'a Script,
    told: Vec<Told>,
}

impl<'a> Tells<'a> {
    /// Nothing yet.
    pub fn of(alloc: Global, script: &'a Script) -> Tells<'a> {
        Tells {
            alloc,
            script,
            told: Vec::new(alloc),
        }
    }

    /// All that was told.
    pub fn into_told(self) -> Vec<Told> {
        self.told
    }

    /// A sentence of these pieces.
    pub fn sentence(&self, pieces: &[Piece]) -> Result<Vec<u8>, OutOfMemory> {
        let mut page = Page::new(self.alloc, self.script.names());
        page.say(pieces)?;
        Ok(page.into_text())
    }

    /// Tells a sentence of these pieces about a line.
    pub fn say(&mut self, rule: Rule, line: u32, pieces: &[Piece]) -> Result<(), OutOfMemory> {
        let text = self.sentence(pieces)?;
        self.told.push(Told { rule, line, text })?;
        Ok(())
    }
}

/// A value in digits, after a space.
pub fn digits_of(alloc: Global, value: i64) -> Result<Vec<u8>, OutOfMemory> {
    let mut text = Vec::new(alloc);
    push_value(&mut text, value)?;
    Ok(text)
}
