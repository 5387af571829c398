//! What plays with a fault set back: what a failed play had left, and what moved first.

use crate::fault_page::FaultTelling;
use caa_base::written::entry::OutOfMemory;
use fault_trials::backs::Crossing;
use rehearsals::paths::number_of;
use script_views::page::{Page, Piece};

/// How many pairs of objects are told of an action.
const MOST_CROSSINGS: usize = 3;

/// How many of these are of the action of this number.
fn count_of(crossings: &[Crossing], action: u32) -> usize {
    let mut count = 0usize;
    for crossing in crossings {
        if crossing.action == action {
            count = count.saturating_add(1);
        }
    }
    count
}

impl<'a> FaultTelling<'a> {
    /// Says what a play after a failed one sets back to, if any did.
    fn say_leavings(&self, page: &mut Page) -> Result<(), OutOfMemory> {
        let leavings = &self.trial.findings.counts.backs.leavings;
        if leavings.is_empty() {
            return Ok(());
        }
        page.say(&[Piece::Text("a play after a failed one sets back to what that one left: ")])?;
        self.say_standings(page, leavings, ", ", " ")?;
        page.say(&[Piece::Text("\n")])
    }

    /// Says the first pairs of objects of an action of which one moved first and was set back first.
    fn say_crossings(&self, page: &mut Page, action: u32) -> Result<(), OutOfMemory> {
        let mut told = 0usize;
        for crossing in &self.trial.findings.counts.backs.crossings {
            if crossing.action == action && told < MOST_CROSSINGS {
                page.say(&[Piece::Text(if told > 0 { ", " } else { ": " })])?;
                self.parts.say_object(page, crossing.first)?;
                page.say(&[Piece::Text(" before ")])?;
                self.parts.say_object(page, crossing.second)?;
                told = told.saturating_add(1);
            }
        }
        Ok(())
    }

    /// Says of an action what it sets back first although it moved first, if there is such an object.
    fn say_crossings_of(&self, page: &mut Page, action: u32) -> Result<(), OutOfMemory> {
        let count = count_of(&self.trial.findings.counts.backs.crossings, action);
        if count == 0 {
            return Ok(());
        }
        self.parts.say_action(page, action)?;
        page.say(&[Piece::Text(" sets back first what moved first")])?;
        self.say_crossings(page, action)?;
        if count > MOST_CROSSINGS {
            let more = count - MOST_CROSSINGS;
            page.say(&[
                Piece::Text(" and "),
                Piece::Number(more as u64),
                Piece::Text(" more pairs"),
            ])?;
        }
        page.say(&[Piece::Text("\n")])
    }

    /// Says what plays set back: a line of what failed plays left, and one of each action that sets back first what moved first.
    pub fn say_backs(&self, page: &mut Page) -> Result<(), OutOfMemory> {
        self.say_leavings(page)?;
        for index in 0..self.outlooks.len() {
            self.say_crossings_of(page, number_of(index))?;
        }
        Ok(())
    }
}
