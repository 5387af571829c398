//! The table of failure modes and their effects.

use crate::rows::{FaultRow, Seen};
use crate::spots::{line_of, say_item};
use crate::tables::Table;
use caa_base::written::entry::{Drill, Exception, Object, OutOfMemory, Outcome};
use caa_base::written::name::Name;
use fault_trials::effects::{Effect, Raised, Resolution, Standing};
use fault_trials::modes::{Class, Example, Mode, Spot, Tried, rank_of};
use fault_trials::puts::action_number;
use fault_trials::trials::{Began, Trial};
use place_plan::plans::plan::Plan;
use rehearsal_views::plan_names::{PlanNames, say_value};
use rehearsals::paths::number_of;
use script_outcomes::outlooks::{Outlook, Row};
use script_views::page::{Page, Piece};
use std::alloc::Global;

/// The word for a class.
pub fn class_word(class: Class) -> &'static str {
    match class {
        Class::Same => "same",
        Class::Told => "told",
        Class::Undone => "undone",
        Class::Left => "left",
        Class::Failed => "failed",
    }
}

/// The word for a mode.
fn mode_word(mode: Mode) -> &'static str {
    match mode {
        Mode::Once => "once",
        Mode::Stuck => "stuck",
        Mode::AndRestore => "and restore",
        Mode::Dead => "dead",
        Mode::Pair => "pair",
    }
}

/// The tries of a script, with its names and what its text tells of each action, in their order.
#[derive(Clone, Copy)]
pub struct FaultTelling<'a> {
    /// The names of the script.
    pub names: &'a [Name],
    pub parts: PlanNames<'a>,
    pub trial: &'a Trial,
    pub rows: &'a [FaultRow<'a>],
    pub outlooks: &'a [Outlook],
}

/// A row as it is put in order: steps before what is set back, then by the line or the action, and where it stands.
type Ranked = (u32, u32, u32, u32);

/// The action of a spot.
fn action_of(spot: Spot) -> u32 {
    match spot {
        Spot::Step { action, .. } => action,
        Spot::Back { action, object: _ } => action,
    }
}

/// The ways that effects of a mode go, each by its first, with how often it came.
#[derive(Clone, Copy)]
struct Way {
    first: u32,
    times: u32,
}

/// The ways of the effects of one put alone, the commonest first.
fn ways_of(alloc: Global, row: &FaultRow) -> Result<Vec<Way>, OutOfMemory> {
    let mut ways: Vec<Way> = Vec::new(alloc);
    for (index, seen) in row.seen.iter().enumerate() {
        if seen.mode != Mode::Once {
            continue;
        }
        match way_at(&ways, row, seen.effect) {
            Some(place) => {
                if let Some(way) = ways.get_mut(place) {
                    way.times = way.times.saturating_add(seen.times);
                }
            }
            None => ways.push(Way {
                first: number_of(index),
                times: seen.times,
            })?,
        }
    }
    sorted_ways(alloc, &ways)
}

/// Where the way of an effect stands among these.
fn way_at(ways: &[Way], row: &FaultRow, effect: &Effect) -> Option<usize> {
    for (place, way) in ways.iter().enumerate() {
        if let Some(first) = row.seen.as_slice().get(way.first as usize) {
            if first.effect.goes_as(effect) {
                return Some(place);
            }
        }
    }
    None
}

/// These ways, the commonest first.
fn sorted_ways(alloc: Global, ways: &[Way]) -> Result<Vec<Way>, OutOfMemory> {
    let mut keys = Vec::new(alloc);
    for (index, way) in ways.iter().enumerate() {
        keys.push((u32::MAX - way.times, number_of(index)))?;
    }
    keys.sort()?;
    let mut sorted = Vec::new(alloc);
    for (_, index) in &keys {
        if let Some(way) = ways.get(*index as usize) {
            sorted.push(*way)?;
        }
    }
    Ok(sorted)
}

/// How a play ends, and how often.
#[derive(Clone, Copy)]
pub struct Ending {
    /// The number of the action of the first play that ended so.
    play_action: u32,
    outcome: Option<Outcome>,
    times: u32,
}

/// Whether plays end as this one. A signal is one of the action of its play.
fn ends_as(ending: &Ending, effect: &Effect) -> bool {
    let is_signal = matches!(effect.play, Some(Outcome::Signal(_)));
    ending.outcome == effect.play && (!is_signal || ending.play_action == effect.play_action)
}

/// Counts the ending of the play of an effect.
pub fn note_ending(
    endings: &mut Vec<Ending>,
    effect: &Effect,
    times: u32,
) -> Result<(), OutOfMemory> {
    for ending in endings.iter_mut() {
        if ends_as(ending, effect) {
            ending.times = ending.times.saturating_add(times);
            return Ok(());
        }
    }
    endings.push(Ending {
        play_action: effect.play_action,
        outcome: effect.play,
        times,
    })?;
    Ok(())
}

/// How bad an ending of a play is.
fn ending_rank(outcome: Option<Outcome>) -> u32 {
    match outcome {
        Some(Outcome::Commit) => 4,
        Some(Outcome::Signal(_)) => 3,
        Some(Outcome::Undone) => 2,
        Some(Outcome::Aborted) => 1,
        Some(Outcome::Failed) | None => 0,
    }
}

/// These endings, the worst first.
fn sorted_endings(alloc: Global, endings: &[Ending]) -> Result<Vec<Ending>, OutOfMemory> {
    let mut keys = Vec::new(alloc);
    for (index, ending) in endings.iter().enumerate() {
        keys.push((ending_rank(ending.outcome), number_of(index)))?;
    }
    keys.sort()?;
    let mut sorted = Vec::new(alloc);
    for (_, index) in &keys {
        if let Some(ending) = endings.get(*index as usize) {
            sorted.push(*ending)?;
        }
    }
    Ok(sorted)
}

/// The worst class of a way.
fn worst_of(row: &FaultRow, first: &Effect) -> Class {
    let mut worst = Class::Same;
    for seen in &row.seen {
        if seen.mode == Mode::Once
            && seen.effect.goes_as(first)
            && rank_of(seen.effect.class) > rank_of(worst)
        {
            worst = seen.effect.class;
        }
    }
    worst
}

/// Adds a standing, where it isn't there.
fn push_new(standings: &mut Vec<Standing>, standing: Standing) -> Result<(), OutOfMemory> {
    if !standings.iter().any(|other| *other == standing) {
        standings.push(standing)?;
    }
    Ok(())
}

/// What stands away by the effects of a mode, of one way where it is given.
fn away_in(
    alloc: Global,
    row: &FaultRow,
    mode: Mode,
    way: Option<&Effect>,
) -> Result<Vec<Standing>, OutOfMemory> {
    let mut away = Vec::new(alloc);
    for seen in &row.seen {
        let counts = match way {
            Some(first) => seen.effect.goes_as(first),
            None => true,
        };
        if seen.mode == mode && counts {
            for standing in &seen.effect.away {
                push_new(&mut away, *standing)?;
            }
        }
    }
    Ok(away)
}

/// Whether a class is one that a script should not come to: a play failed, or an object was left that has to be off.
fn is_bad(class: Class, has_off: bool) -> bool {
    match class {
        Class::Failed => true,
        Class::Left => has_off,
        Class::Same | Class::Told | Class::Undone => false,
    }
}

/// Whether some play is of the action of this number.
fn is_play(plan: &Plan, action: u32) -> bool {
    plan.play_places()
        .iter()
        .any(|place| action_number(plan, *place) == action)
}

/// Whether a script can do something about a refused put: not about a restore of the objects of a play, which nothing stands round.
fn can_be_answered(plan: &Plan, spot: Spot) -> bool {
    match spot {
        Spot::Back { action, object: _ } => !is_play(plan, action),
        Spot::Step {
            action: _,
            role: _,
            handler: _,
            step: _,
        } => true,
    }
}

/// Whether some put, refused alone, comes to a class that counts against the script.
pub fn has_bad_row(plan: &Plan, trial: &Trial) -> bool {
    let has_off = trial.bench.measure.has_off();
    trial.findings.lines.iter().any(|line| {
        line.mode == Mode::Once && is_bad(line.class, has_off) && can_be_answered(plan, line.spot)
    })
}

impl<'a> FaultTelling<'a> {
    fn new_page(&self, alloc: Global) -> Page<'a> {
        Page::new(alloc, self.names)
    }

    /// The rows in the order of their lines.
    fn sorted_rows(&self, alloc: Global) -> Result<Vec<u32>, OutOfMemory> {
        let mut keys: Vec<Ranked> = Vec::new(alloc);
        for (index, row) in self.rows.iter().enumerate() {
            let key = match row.spot {
                Spot::Step { .. } => (0, line_of(&self.parts, row.spot), 0, number_of(index)),
                Spot::Back { action, object } => (1, action, object, number_of(index)),
            };
            keys.push(key)?;
        }
        keys.sort()?;
        let mut sorted = Vec::new(alloc);
        for (_, _, _, index) in &keys {
            sorted.push(*index)?;
        }
        Ok(sorted)
    }

    /// Says what is refused, with the action that it is of.
    pub fn say_title(&self, page: &mut Page, spot: Spot) -> Result<(), OutOfMemory> {
        self.parts.say_action(page, action_of(spot))?;
        page.say(&[Piece::Text(": ")])?;
        say_item(&self.parts, page, spot)
    }

    fn say_raised(&self, page: &mut Page, spot: Spot, raised: Raised) -> Result<(), OutOfMemory> {
        match raised {
            Raised::Nothing => page.say(&[Piece::Text("-")]),
            Raised::Undo => page.say(&[Piece::Text("(undo)")]),
            Raised::Fault(exception) => {
                page.show(self.parts.internal_name(action_of(spot), exception))
            }
        }
    }

    fn say_resolved(&self, page: &mut Page, resolved: &[Resolution]) -> Result<(), OutOfMemory> {
        if resolved.is_empty() {
            page.say(&[Piece::Text("-")])?;
        }
        for (index, resolution) in resolved.iter().enumerate() {
            if index > 0 {
                page.say(&[Piece::Text(" > ")])?;
            }
            page.show(
                self.parts
                    .internal_name(resolution.action, resolution.exception),
            )?;
        }
        Ok(())
    }

    fn say_ending(
        &self,
        page: &mut Page,
        play_action: u32,
        outcome: Option<Outcome>,
    ) -> Result<(), OutOfMemory> {
        match outcome {
            Some(outcome) => self.parts.say_outcome(page, play_action, outcome),
            None => page.say(&[Piece::Text("none")]),
        }
    }

    /// Says how plays ended: once where all ended so, and else with how often.
    fn say_endings(
        &self,
        alloc: Global,
        page: &mut Page,
        row: &FaultRow,
        mode: Mode,
        way: Option<&Effect>,
    ) -> Result<(), OutOfMemory> {
        let mut endings = Vec::new(alloc);
        for seen in &row.seen {
            let counts = match way {
                Some(first) => seen.effect.goes_as(first),
                None => true,
            };
            if seen.mode == mode && counts {
                note_ending(&mut endings, seen.effect, seen.times)?;
            }
        }
        let has_counts = endings.len() > 1;
        self.say_counted(alloc, page, &endings, has_counts)
    }

    /// Says these endings, the worst first.
    pub fn say_counted(
        &self,
        alloc: Global,
        page: &mut Page,
        endings: &[Ending],
        has_counts: bool,
    ) -> Result<(), OutOfMemory> {
        if endings.is_empty() {
            return page.say(&[Piece::Text("-")]);
        }
        for (index, ending) in sorted_endings(alloc, endings)?.iter().enumerate() {
            if index > 0 {
                page.say(&[Piece::Text(", ")])?;
            }
            if has_counts {
                page.say(&[Piece::Number(u64::from(ending.times)), Piece::Text("x ")])?;
            }
            self.say_ending(page, ending.play_action, ending.outcome)?;
        }
        Ok(())
    }

    pub fn say_standings(
        &self,
        page: &mut Page,
        standings: &[Standing],
        between: &'static str,
        is: &'static str,
    ) -> Result<(), OutOfMemory> {
        for (index, standing) in standings.iter().enumerate() {
            if index > 0 {
                page.say(&[Piece::Text(between)])?;
            }
            self.parts.say_object(page, standing.object)?;
            page.say(&[Piece::Text(is)])?;
            say_value(page, standing.value)?;
        }
        Ok(())
    }

    /// The cells of one way of a row.
    fn cells(
        &self,
        alloc: Global,
        row: &FaultRow,
        way: &Way,
        is_first: bool,
    ) -> Result<Vec<Vec<u8>>, OutOfMemory> {
        let mut cells = Vec::new(alloc);
        let Some(seen) = row.seen.as_slice().get(way.first as usize) else {
            return Ok(cells);
        };
        let effect = seen.effect;
        let mut page = self.new_page(alloc);
        let line = line_of(&self.parts, row.spot);
        if is_first && line > 0 {
            page.number(u64::from(line))?;
        }
        cells.push(page.into_text())?;
        let mut page = self.new_page(alloc);
        if is_first {
            self.say_title(&mut page, row.spot)?;
        }
        cells.push(page.into_text())?;
        let mut page = self.new_page(alloc);
        page.say(&[
            Piece::Number(u64::from(way.times)),
            Piece::Text("/"),
            Piece::Number(u64::from(row.tried)),
        ])?;
        cells.push(page.into_text())?;
        let mut page = self.new_page(alloc);
        self.say_raised(&mut page, row.spot, effect.raised)?;
        cells.push(page.into_text())?;
        let mut page = self.new_page(alloc);
        self.say_resolved(&mut page, &effect.resolved)?;
        cells.push(page.into_text())?;
        self.push_outcomes(alloc, row, effect, is_first, &mut cells)?;
        Ok(cells)
    }

    /// Adds the cells that say how plays end, and what stands away.
    fn push_outcomes(
        &self,
        alloc: Global,
        row: &FaultRow,
        effect: &Effect,
        is_first: bool,
        cells: &mut Vec<Vec<u8>>,
    ) -> Result<(), OutOfMemory> {
        let mut page = self.new_page(alloc);
        self.say_endings(alloc, &mut page, row, Mode::Once, Some(effect))?;
        cells.push(page.into_text())?;
        let mut page = self.new_page(alloc);
        page.say(&[Piece::Text(class_word(worst_of(row, effect)))])?;
        cells.push(page.into_text())?;
        for mode in [Mode::Stuck, Mode::AndRestore] {
            let mut page = self.new_page(alloc);
            if is_first {
                self.say_endings(alloc, &mut page, row, mode, None)?;
            }
            cells.push(page.into_text())?;
        }
        let away = away_in(alloc, row, Mode::Once, Some(effect))?;
        let mut page = self.new_page(alloc);
        self.say_standings(&mut page, &away, " ", "=")?;
        cells.push(page.into_text())?;
        Ok(())
    }

    /// The head of the table.
    fn heads(&self, alloc: Global) -> Result<Vec<Vec<u8>>, OutOfMemory> {
        let mut cells = Vec::new(alloc);
        for head in [
            "line",
            "refused",
            "seen",
            "raised",
            "resolved, outwards",
            "play ends",
            "class",
            "where stuck",
            "and a restore",
            "away at its end",
        ] {
            cells.push(Vec::from_slice(alloc, head.as_bytes())?)?;
        }
        Ok(cells)
    }

    /// The table.
    fn say_table(&self, alloc: Global, page: &mut Page) -> Result<(), OutOfMemory> {
        let mut table = Table::new(alloc);
        table.push(self.heads(alloc)?)?;
        for index in &self.sorted_rows(alloc)? {
            let Some(row) = self.rows.get(*index as usize) else {
                continue;
            };
            for (place, way) in ways_of(alloc, row)?.iter().enumerate() {
                table.push(self.cells(alloc, row, way, place == 0)?)?;
            }
        }
        table.show(alloc, page)
    }

    /// Says where a spot stands: its line, or what is set back.
    pub fn say_where(&self, page: &mut Page, spot: Spot) -> Result<(), OutOfMemory> {
        let line = line_of(&self.parts, spot);
        if line > 0 {
            page.number(u64::from(line))
        } else {
            self.say_title(page, spot)
        }
    }

    /// All that stands away in a mode, in the order in which rows show it.
    fn all_away(
        &self,
        alloc: Global,
        sorted: &[u32],
        mode: Mode,
    ) -> Result<Vec<Standing>, OutOfMemory> {
        let mut all = Vec::new(alloc);
        for index in sorted {
            if let Some(row) = self.rows.get(*index as usize) {
                for standing in &away_in(alloc, row, mode, None)? {
                    push_new(&mut all, *standing)?;
                }
            }
        }
        Ok(all)
    }

    /// Says of an object that stands away at the puts of which lines it does.
    fn say_away_lines(
        &self,
        alloc: Global,
        page: &mut Page,
        sorted: &[u32],
        mode: Mode,
        standing: Standing,
    ) -> Result<(), OutOfMemory> {
        page.say(&[Piece::Text("  ")])?;
        self.say_standings(page, &[standing], "", " ")?;
        let mut has_any = false;
        for index in sorted {
            let Some(row) = self.rows.get(*index as usize) else {
                continue;
            };
            if away_in(alloc, row, mode, None)?
                .iter()
                .any(|other| *other == standing)
            {
                page.say(&[Piece::Text(if has_any { ", " } else { ": " })])?;
                self.say_where(page, row.spot)?;
                has_any = true;
            }
        }
        page.say(&[Piece::Text("\n")])
    }

    /// Says by object what stands away in a mode.
    fn say_away(&self, alloc: Global, page: &mut Page, mode: Mode) -> Result<(), OutOfMemory> {
        let sorted = self.sorted_rows(alloc)?;
        let all = self.all_away(alloc, &sorted, mode)?;
        if all.is_empty() {
            page.say(&[Piece::Text("  nothing\n")])?;
        }
        for standing in &all {
            self.say_away_lines(alloc, page, &sorted, mode, *standing)?;
        }
        Ok(())
    }

    /// Whether places of an action were resolved to an exception.
    fn was_resolved(&self, action: u32, exception: Exception) -> bool {
        self.trial.findings.counts.resolved.iter().any(|began| began.action == action
            && began.exception == exception)
    }

    /// Whether a play unfolds to places of an action.
    fn is_played(&self, action: u32) -> bool {
        (0..self.parts.plan.places()).any(|place| self.parts.action_of(place) == action)
    }

    /// Whether the handlers of an action for an exception are to be told: no playing began them, and they can be, or can't.
    fn is_idle(&self, action: u32, exception: Exception, row: &Row, may_come: bool) -> bool {
        row.can_come == may_come
            && !self.was_resolved(action, exception)
            && self.parts.is_handled(action, exception)
    }

    /// Says the exceptions of an action whose handlers no playing began, of those that can be or of those that can't.
    fn say_idle_of(
        &self,
        page: &mut Page,
        action: u32,
        outlook: &Outlook,
        may_come: bool,
        has_any: bool,
    ) -> Result<bool, OutOfMemory> {
        let mut has_any = has_any;
        for (index, row) in outlook.rows.iter().enumerate() {
            let exception = number_of(index);
            if self.is_idle(action, exception, row, may_come) {
                page.say(&[Piece::Text(if has_any { ", " } else { " " })])?;
                self.parts.say_action(page, action)?;
                page.say(&[
                    Piece::Text(": "),
                    Piece::Word(self.parts.internal_name(action, exception)),
                ])?;
                has_any = true;
            }
        }
        Ok(has_any)
    }

    /// Says the handlers that no playing began.
    fn say_idle(&self, page: &mut Page, may_come: bool) -> Result<(), OutOfMemory> {
        let mut has_any = false;
        for (index, outlook) in self.outlooks.iter().enumerate() {
            let action = number_of(index);
            if self.is_played(action) {
                has_any = self.say_idle_of(page, action, outlook, may_come, has_any)?;
            }
        }
        if !has_any {
            page.say(&[Piece::Text(" none")])?;
        }
        page.say(&[Piece::Text("\n")])
    }

    /// Says how a try is had again.
    pub fn say_example(&self, page: &mut Page, example: Example) -> Result<(), OutOfMemory> {
        page.say(&[
            Piece::Text(" (schedule "),
            Piece::Number(u64::from(example.schedule)),
            Piece::Text(": "),
        ])?;
        self.say_tried(page, example.refused)?;
        page.say(&[Piece::Text(")\n")])
    }

    fn say_drill(&self, page: &mut Page, drill: Drill) -> Result<(), OutOfMemory> {
        self.parts.say_object(page, drill.object)?;
        page.say(&[Piece::Text(" "), Piece::Number(u64::from(drill.nth))])
    }

    /// Says what a try refuses, as `playing` takes it.
    fn say_tried(&self, page: &mut Page, tried: Tried) -> Result<(), OutOfMemory> {
        match tried {
            Tried::One(drill) => self.say_drill(page, drill),
            Tried::Two(drill, other) => {
                self.say_drill(page, drill)?;
                page.say(&[Piece::Text(" ")])?;
                self.say_drill(page, other)
            }
            Tried::From(drill) => {
                self.say_drill(page, drill)?;
                page.say(&[Piece::Text(" on")])
            }
            Tried::All(from) => page.say(&[Piece::Text("from "), Piece::Number(from)]),
        }
    }

    /// The page.
    pub fn page(&self, alloc: Global, file: &[u8]) -> Result<Vec<u8>, OutOfMemory> {
        let mut page = self.new_page(alloc);
        page.say(&[
            Piece::Word(file),
            Piece::Text(": "),
            Piece::Number(self.rows.len() as u64),
            Piece::Text(" rows, "),
            Piece::Number(self.trial.findings.counts.puts),
            Piece::Text(" puts refused in turn, "),
            Piece::Number(self.trial.findings.counts.playings),
            Piece::Text(" playings with "),
            Piece::Number(self.trial.findings.counts.entries),
            Piece::Text(" entries\n"),
        ])?;
        self.say_table(alloc, &mut page)?;
        page.say(&[Piece::Text(
            "left away from its first value at the end of a play, where no play without a fault leaves it so, by one refused put:\n",
        )])?;
        self.say_away(alloc, &mut page, Mode::Once)?;
        page.say(&[Piece::Text("stands away when the line dies at the put of line:\n")])?;
        self.say_away(alloc, &mut page, Mode::Dead)?;
        self.say_backs(&mut page)?;
        if self.trial.bench.has_pairs {
            self.say_pairs(alloc, &mut page)?;
        }
        page.say(&[Piece::Text("handlers not begun in these playings (they may still be):")])?;
        self.say_idle(&mut page, true)?;
        page.say(&[Piece::Text("handlers never begun, by the text:")])?;
        self.say_idle(&mut page, false)?;
        Ok(page.into_text())
    }

    /// Says one effect as a line of a table.
    fn say_csv_row(&self, page: &mut Page, row: &FaultRow, seen: &Seen) -> Result<(), OutOfMemory> {
        let spot = seen.second.unwrap_or(row.spot);
        let effect = seen.effect;
        let line = line_of(&self.parts, row.spot);
        if line > 0 {
            page.number(u64::from(line))?;
        }
        page.say(&[Piece::Text(",")])?;
        say_item(&self.parts, page, row.spot)?;
        page.say(&[Piece::Text(",")])?;
        self.parts.say_action(page, action_of(row.spot))?;
        page.say(&[Piece::Text(",")])?;
        if let Spot::Step { action, role, .. } = row.spot {
            self.parts.say_role(page, action, role)?;
        }
        page.say(&[
            Piece::Text(","),
            Piece::Text(mode_word(seen.mode)),
            Piece::Text(","),
            Piece::Number(u64::from(row.tried)),
            Piece::Text(","),
            Piece::Number(u64::from(seen.times)),
            Piece::Text(","),
        ])?;
        self.say_raised(page, spot, effect.raised)?;
        page.say(&[Piece::Text(",")])?;
        self.say_resolved(page, &effect.resolved)?;
        page.say(&[Piece::Text(",")])?;
        self.say_ending(page, action_of(spot), effect.place)?;
        page.say(&[Piece::Text(",")])?;
        self.say_ending(page, effect.play_action, effect.play)?;
        page.say(&[Piece::Text(",")])?;
        self.say_standings(page, &effect.away, " ", "=")?;
        page.say(&[Piece::Text(",")])?;
        self.say_standings(page, &effect.short, " ", "=")?;
        page.say(&[
            Piece::Text(","),
            Piece::Text(class_word(effect.class)),
            Piece::Text(","),
            Piece::Number(u64::from(seen.example.schedule)),
            Piece::Text(","),
        ])?;
        self.say_tried(page, seen.example.refused)?;
        page.say(&[Piece::Text("\n")])
    }

    /// The same as lines of a table: a line for each row, mode and effect.
    pub fn csv(&self, alloc: Global) -> Result<Vec<u8>, OutOfMemory> {
        let mut page = self.new_page(alloc);
        page.say(&[Piece::Text(
            "line,item,action,role,mode,tried,seen,raised,resolved,place,play,away,short,class,schedule,drills\n",
        )])?;
        for index in &self.sorted_rows(alloc)? {
            if let Some(row) = self.rows.get(*index as usize) {
                for seen in &row.seen {
                    self.say_csv_row(&mut page, row, seen)?;
                }
            }
        }
        Ok(page.into_text())
    }
}
