//! A rehearsal, told path by path: what was seen, what wasn't, and what never comes.

use crate::plan_names::{PlanNames, say_value, say_way};
use caa_base::written::entry::{Exception, Object, OutOfMemory, Outcome, Place};
use caa_base::written::name::Name;
use rehearsals::facts::Fact;
use rehearsals::paths::number_of;
use rehearsals::rehearsing::Rehearsal;
use rehearsals::tally::{Row, Tally};
use script_outcomes::outlooks::Outlook;
use script_outcomes::ways::Way;
use script_views::page::{Page, Piece};
use std::alloc::Global;

/// How wide what is resolved, or how a place ends, stands at least.
const NAME_WIDTH: usize = 19;

/// How wide a count stands at least.
const COUNT_WIDTH: usize = 5;

/// How many digits a number has.
fn digits_of(number: u64) -> usize {
    let mut count = 1usize;
    let mut rest = number / 10;
    for _ in 0..20 {
        if rest > 0 {
            count = count.saturating_add(1);
            rest /= 10;
        }
    }
    count
}

/// Says how many journals showed a fact, and which was the first.
fn say_seen(page: &mut Page, row: &Row, total: u32) -> Result<(), OutOfMemory> {
    let count = u64::from(row.count);
    page.fill(b' ', COUNT_WIDTH.saturating_sub(digits_of(count)))?;
    page.say(&[
        Piece::Number(count),
        Piece::Text(" of "),
        Piece::Number(u64::from(total)),
        Piece::Text(", first in "),
        Piece::Number(u64::from(row.first)),
        Piece::Text("\n"),
    ])
}

/// A rehearsal, with the names of its script, and what is told of each of its actions, in their order.
#[derive(Clone, Copy)]
pub struct Telling<'a> {
    /// The names of the script.
    pub names: &'a [Name],
    pub parts: PlanNames<'a>,
    pub rehearsal: &'a Rehearsal,
    pub outlooks: &'a [Outlook],
}

/// A row as it is put in order: the kind, the count turned round so that the commonest comes first, and where it stands.
type Ranked = (u32, u32, u32);

/// Which block of rows a fact of a path belongs to.
fn block_of(fact: &Fact, path: Place) -> Option<u32> {
    match fact {
        Fact::Resolved(place, _) if *place == path => Some(0),
        Fact::Ended(place, _) if *place == path => Some(1),
        _ => None,
    }
}

/// The rows of a path, in the order in which they are told.
fn ranked_rows(alloc: Global, rows: &[Row], path: Place) -> Result<Vec<Ranked>, OutOfMemory> {
    let mut ranked = Vec::new(alloc);
    for (index, row) in rows.iter().enumerate() {
        if let Some(block) = block_of(&row.fact, path) {
            ranked.push((block, u32::MAX - row.count, number_of(index)))?;
        }
    }
    ranked.sort()?;
    Ok(ranked)
}

/// The rows of an object, the commonest value first.
fn ranked_values(alloc: Global, rows: &[Row], object: Object) -> Result<Vec<Ranked>, OutOfMemory> {
    let mut ranked = Vec::new(alloc);
    for (index, row) in rows.iter().enumerate() {
        if matches!(&row.fact, Fact::Last(other, _) if *other == object) {
            ranked.push((0, u32::MAX - row.count, number_of(index)))?;
        }
    }
    ranked.sort()?;
    Ok(ranked)
}

impl<'a> Telling<'a> {
    fn tally(&self) -> &'a Tally {
        &self.rehearsal.tally
    }

    fn total(&self) -> u32 {
        self.tally().noted()
    }

    /// The number of the last schedule that showed something new.
    fn last_news(&self) -> u32 {
        let mut last = 0;
        for row in self.tally().rows() {
            last = last.max(row.first);
        }
        last
    }

    /// The head of the page.
    fn say_head(&self, page: &mut Page, file: &[u8]) -> Result<(), OutOfMemory> {
        page.say(&[
            Piece::Word(file),
            Piece::Text(": "),
            Piece::Number(u64::from(self.total())),
            Piece::Text(" schedules, journals of at most "),
            Piece::Number(self.rehearsal.longest),
            Piece::Text(" entries; schedule "),
            Piece::Number(u64::from(self.last_news())),
            Piece::Text(" was the last that showed something new\n"),
        ])
    }

    /// What a row says, without its counts.
    fn text_of(&self, alloc: Global, action: u32, fact: &Fact) -> Result<Vec<u8>, OutOfMemory> {
        let mut page = Page::new(alloc, self.names);
        match fact {
            Fact::Resolved(_, exception) => {
                page.show(self.parts.internal_name(action, *exception))?
            }
            Fact::Ended(_, outcome) => self.parts.say_outcome(&mut page, action, *outcome)?,
            _ => {}
        }
        Ok(page.into_text())
    }

    /// Says a row of a path.
    fn say_row(
        &self,
        alloc: Global,
        page: &mut Page,
        action: u32,
        row: &Row,
    ) -> Result<(), OutOfMemory> {
        let word = match row.fact {
            Fact::Resolved(_, _) => "  resolved ",
            _ => "  ended    ",
        };
        let text = self.text_of(alloc, action, &row.fact)?;
        page.say(&[Piece::Text(word)])?;
        page.show(&text)?;
        page.fill(b' ', NAME_WIDTH.saturating_sub(text.len()).max(1))?;
        say_seen(page, row, self.total())
    }

    /// Says how often a place of a path started, where that isn't always; tells whether one ever did.
    fn say_started(&self, page: &mut Page, path: Place) -> Result<bool, OutOfMemory> {
        let Some(row) = self.tally().row(&Fact::Started(path)) else {
            page.say(&[Piece::Text("      not started\n")])?;
            return Ok(false);
        };
        if row.count < self.total() {
            page.say(&[Piece::Text("  started")])?;
            page.fill(b' ', NAME_WIDTH.saturating_add(2))?;
            say_seen(page, row, self.total())?;
        }
        Ok(true)
    }

    /// Says what was seen of a path.
    fn say_path(&self, alloc: Global, page: &mut Page, path: Place) -> Result<(), OutOfMemory> {
        let action = self.parts.action_of(path);
        self.parts.say_path(page, path)?;
        page.say(&[Piece::Text(" (")])?;
        self.parts.say_action(page, action)?;
        page.say(&[
            Piece::Text(", line "),
            Piece::Number(u64::from(self.parts.first_line(action))),
            Piece::Text(")\n"),
        ])?;
        if !self.say_started(page, path)? {
            return Ok(());
        }
        for (_, _, index) in &ranked_rows(alloc, self.tally().rows(), path)? {
            if let Some(row) = self.tally().rows().get(*index as usize) {
                self.say_row(alloc, page, action, row)?;
            }
        }
        Ok(())
    }

    /// Says with what values an object ended.
    fn say_object(
        &self,
        alloc: Global,
        page: &mut Page,
        object: Object,
    ) -> Result<(), OutOfMemory> {
        page.say(&[Piece::Text("object ")])?;
        self.parts.say_object(page, object)?;
        for (place, (_, _, index)) in ranked_values(alloc, self.tally().rows(), object)?
            .iter()
            .enumerate()
        {
            let Some(row) = self.tally().rows().get(*index as usize) else {
                continue;
            };
            page.say(&[Piece::Text(if place == 0 { ": " } else { ", " })])?;
            if let Fact::Last(_, value) = row.fact {
                say_value(page, value)?;
            }
            page.say(&[
                Piece::Text(" ("),
                Piece::Number(u64::from(row.count)),
                Piece::Text(", first in "),
                Piece::Number(u64::from(row.first)),
                Piece::Text(")"),
            ])?;
        }
        page.say(&[Piece::Text("\n")])
    }

    /// Says the roles that have a handler for an exception.
    fn say_handlers(
        &self,
        page: &mut Page,
        action: u32,
        exception: Exception,
    ) -> Result<(), OutOfMemory> {
        let mut is_first = true;
        for role in 0..self.parts.roles(action) {
            if self.parts.handles(action, role, exception) {
                page.say(&[Piece::Text(if is_first { " (handlers of " } else { ", " })])?;
                self.parts.say_role(page, action, role)?;
                is_first = false;
            }
        }
        if !is_first {
            page.say(&[Piece::Text(")")])?;
        }
        Ok(())
    }

    /// Says an exception that no place of a path resolved.
    fn say_missing(
        &self,
        page: &mut Page,
        path: Place,
        exception: Exception,
    ) -> Result<(), OutOfMemory> {
        let action = self.parts.action_of(path);
        page.say(&[Piece::Text("  ")])?;
        self.parts.say_path(page, path)?;
        page.say(&[
            Piece::Text(" resolved "),
            Piece::Word(self.parts.internal_name(action, exception)),
        ])?;
        self.say_handlers(page, action, exception)?;
        page.say(&[Piece::Text("\n")])
    }

    /// Says what no place of a path resolved, though it may come; tells whether there was anything.
    fn say_unresolved(
        &self,
        page: &mut Page,
        path: Place,
        outlook: &Outlook,
    ) -> Result<bool, OutOfMemory> {
        let mut has_any = false;
        for (index, row) in outlook.rows.iter().enumerate() {
            let exception = number_of(index);
            let resolved = Fact::Resolved(path, exception);
            if row.can_come && self.tally().row(&resolved).is_none() {
                self.say_missing(page, path, exception)?;
                has_any = true;
            }
        }
        Ok(has_any)
    }

    /// Whether a place of a path ended so.
    fn has_ended(&self, path: Place, way: Way) -> bool {
        let action = self.parts.action_of(path);
        self.tally().rows().iter().any(|row| match row.fact {
            Fact::Ended(place, outcome) => {
                place == path && self.parts.is_way(self.names, action, outcome, way)
            }
            _ => false,
        })
    }

    /// Says how no place of a path ended, though it may.
    fn say_unended(
        &self,
        page: &mut Page,
        path: Place,
        outlook: &Outlook,
    ) -> Result<bool, OutOfMemory> {
        let mut has_any = false;
        for way in outlook.ways.iter() {
            if !self.has_ended(path, *way) {
                page.say(&[Piece::Text("  ")])?;
                self.parts.say_path(page, path)?;
                page.say(&[Piece::Text(" ended ")])?;
                say_way(page, *way)?;
                page.say(&[Piece::Text("\n")])?;
                has_any = true;
            }
        }
        Ok(has_any)
    }

    /// Says that no place of a path started.
    fn say_unstarted(&self, page: &mut Page, path: Place) -> Result<(), OutOfMemory> {
        page.say(&[Piece::Text("  ")])?;
        self.parts.say_path(page, path)?;
        page.say(&[Piece::Text(" started\n")])
    }

    /// What is told of the action of a path.
    fn outlook_of(&self, path: Place) -> Option<&'a Outlook> {
        self.outlooks.get(self.parts.action_of(path) as usize)
    }

    /// Says what no place of a path showed, though it may come; tells whether there was anything.
    fn say_unseen(&self, page: &mut Page, path: Place) -> Result<bool, OutOfMemory> {
        if self.tally().row(&Fact::Started(path)).is_none() {
            self.say_unstarted(page, path)?;
            return Ok(true);
        }
        let Some(outlook) = self.outlook_of(path) else {
            return Ok(false);
        };
        let has_unresolved = self.say_unresolved(page, path, outlook)?;
        let has_unended = self.say_unended(page, path, outlook)?;
        Ok(has_unresolved || has_unended)
    }

    /// Says what has handlers that no place of a path begins, since it is never resolved; tells whether there was anything.
    fn say_never(&self, page: &mut Page, path: Place) -> Result<bool, OutOfMemory> {
        let Some(outlook) = self.outlook_of(path) else {
            return Ok(false);
        };
        let mut has_any = false;
        for (index, row) in outlook.rows.iter().enumerate() {
            let exception = number_of(index);
            if !row.can_come && self.parts.is_handled(self.parts.action_of(path), exception) {
                self.say_missing(page, path, exception)?;
                has_any = true;
            }
        }
        Ok(has_any)
    }

    /// Whether a place stands for its path.
    fn is_path(&self, place: Place) -> bool {
        self.rehearsal.paths.as_slice().get(place as usize).copied() == Some(place)
    }

    /// Says what no place showed, path by path: what may come, or what never does.
    fn say_all_unseen(&self, page: &mut Page, may_come: bool) -> Result<(), OutOfMemory> {
        let mut has_any = false;
        for place in 0..self.parts.plan.places() {
            if self.is_path(place) {
                let has_more = if may_come {
                    self.say_unseen(page, place)?
                } else {
                    self.say_never(page, place)?
                };
                has_any = has_more || has_any;
            }
        }
        if !has_any {
            page.say(&[Piece::Text("  nothing\n")])?;
        }
        Ok(())
    }

    /// The page.
    pub fn page(&self, alloc: Global, file: &[u8]) -> Result<Vec<u8>, OutOfMemory> {
        let mut page = Page::new(alloc, self.names);
        self.say_head(&mut page, file)?;
        for place in 0..self.parts.plan.places() {
            if self.is_path(place) {
                self.say_path(alloc, &mut page, place)?;
            }
        }
        for object in 0..self.parts.plan.objects() {
            self.say_object(alloc, &mut page, object)?;
        }
        page.say(&[
            Piece::Text("not seen in "),
            Piece::Number(u64::from(self.total())),
            Piece::Text(" schedules (it may still come):\n"),
        ])?;
        self.say_all_unseen(&mut page, true)?;
        page.say(&[Piece::Text("never, whatever the order and the device:\n")])?;
        self.say_all_unseen(&mut page, false)?;
        Ok(page.into_text())
    }

    /// Says what kind of fact it is, and where.
    fn say_csv_fact(&self, page: &mut Page, fact: &Fact) -> Result<(), OutOfMemory> {
        match fact {
            Fact::Started(path) => {
                page.say(&[Piece::Text("start,")])?;
                self.parts.say_path(page, *path)?;
                page.say(&[Piece::Text(",")])
            }
            Fact::Resolved(path, exception) => {
                page.say(&[Piece::Text("resolve,")])?;
                self.parts.say_path(page, *path)?;
                page.say(&[Piece::Text(",")])?;
                page.show(
                    self.parts
                        .internal_name(self.parts.action_of(*path), *exception),
                )
            }
            Fact::Handled(path, role, exception) => {
                let action = self.parts.action_of(*path);
                page.say(&[Piece::Text("handle,")])?;
                self.parts.say_path(page, *path)?;
                page.say(&[Piece::Text(",")])?;
                self.parts.say_role(page, action, *role)?;
                page.say(&[Piece::Text(" ")])?;
                page.show(self.parts.internal_name(action, *exception))
            }
            Fact::Ended(path, outcome) => {
                page.say(&[Piece::Text("end,")])?;
                self.parts.say_path(page, *path)?;
                page.say(&[Piece::Text(",")])?;
                self.parts
                    .say_outcome(page, self.parts.action_of(*path), *outcome)
            }
            Fact::Last(object, value) => {
                page.say(&[Piece::Text("object,")])?;
                self.parts.say_object(page, *object)?;
                page.say(&[Piece::Text(",")])?;
                say_value(page, *value)
            }
        }
    }

    /// The same as lines of a table: a fact a line, in the order in which they were first shown.
    pub fn csv(&self, alloc: Global) -> Result<Vec<u8>, OutOfMemory> {
        let mut page = Page::new(alloc, self.names);
        page.say(&[Piece::Text("kind,where,what,seen,of,first\n")])?;
        for row in self.tally().rows() {
            self.say_csv_fact(&mut page, &row.fact)?;
            page.say(&[
                Piece::Text(","),
                Piece::Number(u64::from(row.count)),
                Piece::Text(","),
                Piece::Number(u64::from(self.total())),
                Piece::Text(","),
                Piece::Number(u64::from(row.first)),
                Piece::Text("\n"),
            ])?;
        }
        Ok(page.into_text())
    }
}
