//! What is told of each rule.

use crate::found::{Broken, Found, JudgedRule, Whereabouts};
use crate::words::{Word, words_of};
use caa_base::written::entry::{Drill, Object, OutOfMemory};
use caa_base::written::line::push_value;
use interlock_rules::monitor::FirstBreak;
use journal_text::texts::text_writer::object_name;
use place_plan::plans::plan::Plan;
use script_views::page::{Page, Piece};
use script_views::source::line_at;
use std::alloc::Global;

/// A file of rules, what it is called, and the plan that its rules are about.
#[derive(Clone, Copy)]
pub struct Telling<'a> {
    pub alloc: Global,
    pub plan: &'a Plan,
    /// What the script is called.
    pub script: &'a [u8],
    /// What the file of rules is called.
    pub file: &'a [u8],
    pub text: &'a [u8],
}

/// Says the words of a rule, as they are written best.
fn say_words(page: &mut Page, words: &[Word]) -> Result<(), OutOfMemory> {
    for (index, word) in words.iter().enumerate() {
        if index > 0 && !word.is_comma() {
            page.say(&[Piece::Text(" ")])?;
        }
        page.show(word.text)?;
    }
    Ok(())
}

/// Says the numbers at which an object may be.
fn say_numbers(page: &mut Page, alloc: Global, numbers: &[i64]) -> Result<(), OutOfMemory> {
    let mut text = Vec::new(alloc);
    for (index, number) in numbers.iter().enumerate() {
        if index > 0 {
            text.extend_from_slice(b" or")?;
        }
        push_value(&mut text, *number)?;
    }
    page.show(&text)
}

impl<'a> Telling<'a> {
    /// Says the names of objects, each behind a space.
    fn say_objects(&self, page: &mut Page, objects: &[Object]) -> Result<(), OutOfMemory> {
        for object in objects {
            page.say(&[
                Piece::Text(" "),
                Piece::Word(object_name(self.plan, *object)),
            ])?;
        }
        Ok(())
    }

    /// Says what becomes of the rule in the line of this number, in a line that ends with the rule.
    fn say_head(&self, page: &mut Page, number: u32, what: &[Piece]) -> Result<(), OutOfMemory> {
        page.say(&[
            Piece::Word(self.file),
            Piece::Text(":"),
            Piece::Number(u64::from(number)),
            Piece::Text(": "),
        ])?;
        page.say(what)?;
        page.say(&[Piece::Text(": ")])?;
        let words = words_of(self.alloc, line_at(self.text, number))?;
        say_words(page, &words)?;
        page.say(&[Piece::Text("\n")])
    }

    /// Says where an object may be.
    fn say_whereabouts(
        &self,
        page: &mut Page,
        whereabouts: &Whereabouts,
    ) -> Result<(), OutOfMemory> {
        page.say(&[
            Piece::Word(object_name(self.plan, whereabouts.object)),
            Piece::Text(" may be"),
        ])?;
        say_numbers(page, self.alloc, &whereabouts.numbers)
    }

    /// Says where the objects of a broken rule may be.
    fn say_all_whereabouts(&self, page: &mut Page, broken: &Broken) -> Result<(), OutOfMemory> {
        for (index, whereabouts) in broken.whereabouts.iter().enumerate() {
            page.say(&[Piece::Text(if index > 0 { ", " } else { "  " })])?;
            self.say_whereabouts(page, whereabouts)?;
        }
        if !broken.whereabouts.is_empty() {
            page.say(&[Piece::Text("\n")])?;
        }
        Ok(())
    }

    /// Says the puts that are refused, as `playing` takes them.
    fn say_refused(&self, page: &mut Page, refused: &[Drill]) -> Result<(), OutOfMemory> {
        for drill in refused {
            page.say(&[
                Piece::Text(" "),
                Piece::Word(object_name(self.plan, drill.object)),
                Piece::Text(" "),
                Piece::Number(u64::from(drill.nth)),
            ])?;
        }
        Ok(())
    }

    /// Says what the device takes in the journals of a hunt, if that is taken for granted of it.
    pub fn say_taken(&self, page: &mut Page, taken: &[Object]) -> Result<(), OutOfMemory> {
        if taken.is_empty() {
            return Ok(());
        }
        page.say(&[Piece::Text("in journals where the device takes each put of")])?;
        self.say_objects(page, taken)?;
        page.say(&[Piece::Text("\n")])
    }

    /// Says the line of the entry that breaks a rule, behind what its journal is called.
    fn say_line(&self, page: &mut Page, broken: &Broken) -> Result<(), OutOfMemory> {
        page.say(&[Piece::Text(": ")])?;
        page.show(broken.line.trim_ascii_end())?;
        page.say(&[Piece::Text("\n")])
    }

    /// Says what breaks a rule in a journal of a hunt.
    fn say_found_by(&self, page: &mut Page, found: &Found) -> Result<(), OutOfMemory> {
        let FirstBreak::ByEntry(number) = found.broken.by else {
            return page.say(&[Piece::Text("  the first values break it\n")]);
        };
        page.say(&[
            Piece::Text("  entry "),
            Piece::Number(number),
            Piece::Text(" of `caa_show playing "),
            Piece::Word(self.script),
            Piece::Text(" "),
            Piece::Number(u64::from(found.schedule)),
            Piece::Text(" bare"),
        ])?;
        self.say_refused(page, &found.refused)?;
        page.say(&[Piece::Text("`")])?;
        self.say_line(page, &found.broken)
    }

    /// Says of a rule that a journal of a hunt breaks it.
    pub fn say_found(&self, page: &mut Page, found: &Found) -> Result<(), OutOfMemory> {
        self.say_head(page, found.line.number, &[Piece::Text("broken")])?;
        self.say_found_by(page, found)?;
        self.say_all_whereabouts(page, &found.broken)
    }

    /// Says of a rule that so many journals keep it.
    pub fn say_not_seen(
        &self,
        page: &mut Page,
        number: u32,
        plays: u32,
    ) -> Result<(), OutOfMemory> {
        self.say_head(
            page,
            number,
            &[
                Piece::Text("not seen in "),
                Piece::Number(u64::from(plays)),
                Piece::Text(" plays"),
            ],
        )
    }

    /// Says of a rule that the journal behind the script breaks it.
    fn say_broken_there(
        &self,
        page: &mut Page,
        number: u32,
        broken: &Broken,
    ) -> Result<(), OutOfMemory> {
        self.say_head(page, number, &[Piece::Text("broken by this journal")])?;
        match broken.by {
            FirstBreak::ByEntry(entry) => {
                page.say(&[Piece::Text("  entry "), Piece::Number(entry)])?;
                self.say_line(page, broken)?;
            }
            FirstBreak::FirstValues | FirstBreak::Nowhere => page.say(&[Piece::Text(
                "  the first values break it\n",
            )])?,
        }
        self.say_all_whereabouts(page, broken)
    }

    /// Says whether the journal behind the script keeps a rule.
    pub fn say_judged(&self, page: &mut Page, rule: &JudgedRule) -> Result<(), OutOfMemory> {
        let number = rule.line.number;
        match &rule.broken {
            Some(broken) => self.say_broken_there(page, number, broken),
            None => self.say_head(page, number, &[Piece::Text("kept by this journal")]),
        }
    }
}
