//! Where a journal breaks a rule, with the line of the entry that does, and where the objects of the rule may be then.

ghost use Rattle.std.specs.Prelude.{◌≡◌, true, slice_get, IfOk};
ghost use Rattle.place_plan.specs.RulesOfJournals.WellFormed.{AllWellFormed};
ghost use Rattle.interlock_rules.specs.Interlocks.{IsFirstBreak};
ghost use Rattle.interlock_views.specs.Broken.{line_of, breaking_line, is_somewhere, IsBroken, IsJudged, AreJudgedBy};

use crate::reading::RuleLine;
use caa_base::written::entry::{Drill, Entry, Object, OutOfMemory};
use interlock_rules::monitor::{FirstBreak, first_break};
use interlock_rules::places::where_may_be;
use interlock_rules::rules::{Rule, When};
use journal_text::texts::text_writer::push_entry;
use place_plan::plans::plan::Plan;
use std::alloc::Global;

/// An object, and all numbers at which it may be.
#[derive(Drop)]
pub struct Whereabouts {
    pub object: Object,
    pub numbers: Vec<i64>,
}

/// Where a journal breaks a rule first.
#[derive(Drop)]
pub struct Broken {
    pub by: FirstBreak,
    /// The line of the entry that breaks it, with its line feed; empty where the first values do.
    pub line: Vec<u8>,
    /// Where the objects of the rule may be then: before the entry that asks, or after the one that brings them there.
    pub whereabouts: Vec<Whereabouts>,
}

/// A rule that a journal of a hunt breaks, and how that journal is had again.
#[derive(Drop)]
pub struct Found {
    pub line: RuleLine,
    pub broken: Broken,
    /// The number of the order in which it was played.
    pub schedule: u32,
    /// The puts that the device refused.
    pub refused: Vec<Drill>,
}

/// A rule, and where a journal breaks it, if it does.
#[derive(Drop)]
pub struct JudgedRule {
    pub line: RuleLine,
    pub broken: Option<Broken>,
}

/// The line of the entry of this index, if there is one.
fn line_at(
    alloc: Global,
    plan: &Plan,
    entries: &[Entry],
    index: usize,
) -> Result<Vec<u8>, OutOfMemory>
    requires { AllWellFormed plan.now entries.now }
    ensures { IfOk result (λ line. line.items ≡ line_of plan.now (slice_get entries.now index)) }
{
    let mut line = Vec::new(alloc);
    if index < entries.len() {
        push_entry(&mut line, plan, &entries[index])?;
    }
    Ok(line)
}

/// The line of the entry that breaks a rule.
fn breaking_line(
    alloc: Global,
    plan: &Plan,
    entries: &[Entry],
    by: FirstBreak,
) -> Result<Vec<u8>, OutOfMemory>
    requires { AllWellFormed plan.now entries.now }
    ensures { IfOk result (λ line. line.items ≡ breaking_line plan.now entries.now by) }
{
    match by {
        FirstBreak::Nowhere | FirstBreak::FirstValues => Ok(Vec::new(alloc)),
        FirstBreak::ByEntry(number) => {
            line_at(alloc, plan, entries, number.saturating_sub(1) as usize)
        }
    }
}

/// The entries after which it is told where the objects of a rule may be.
fn entries_before<'a>(rule: &Rule, entries: &'a [Entry], by: FirstBreak) -> &'a [Entry] {
    let count = match by {
        FirstBreak::ByEntry(number) => number,
        FirstBreak::Nowhere | FirstBreak::FirstValues => 0,
    };
    let count = match &rule.when {
        When::Always => count,
        When::Asked(_) | When::Moved(_) => count.saturating_sub(1),
    };
    entries.get(..count as usize).unwrap_or(entries)
}

/// Adds an object, with all numbers at which it may be after these entries, unless it is among those that were added.
fn add_whereabouts(
    alloc: Global,
    plan: &Plan,
    entries: &[Entry],
    object: Object,
    whereabouts: &mut Vec<Whereabouts>,
) -> Result<(), OutOfMemory> {
    if whereabouts.iter().any(|other| other.object == object) {
        return Ok(());
    }
    let numbers = where_may_be(alloc, plan, entries, object)?;
    whereabouts.push(Whereabouts { object, numbers })?;
    Ok(())
}

/// Where the objects of a rule may be after these entries: first the one that is moved, if one is.
fn whereabouts_of(
    alloc: Global,
    plan: &Plan,
    rule: &Rule,
    entries: &[Entry],
) -> Result<Vec<Whereabouts>, OutOfMemory> {
    let mut whereabouts = Vec::new(alloc);
    if let When::Moved(part) = &rule.when {
        add_whereabouts(alloc, plan, entries, part.object, &mut whereabouts)?;
    }
    for part in rule.parts.iter() {
        add_whereabouts(alloc, plan, entries, part.object, &mut whereabouts)?;
    }
    Ok(whereabouts)
}

/// What is told of a rule that these entries break here first.
fn broken_by(
    alloc: Global,
    plan: &Plan,
    rule: &Rule,
    entries: &[Entry],
    by: FirstBreak,
) -> Result<Broken, OutOfMemory>
    requires entries { AllWellFormed plan.now entries.now }
    requires some { is_somewhere by ≡ true }
    requires first { IsFirstBreak rule.now plan.now entries.now by }
    ensures { IfOk result (IsBroken rule.now plan.now entries.now) }
{
    let line = breaking_line(alloc, plan, entries, by)?;
    let before = entries_before(rule, entries, by);
    let whereabouts = whereabouts_of(alloc, plan, rule, before)?;
    Ok(Broken {
        by,
        line,
        whereabouts,
    })
}

/// Where these entries, the oldest first, break a rule first, if they do. They need not be a legal journal.
pub fn judge(
    alloc: Global,
    plan: &Plan,
    rule: &Rule,
    entries: &[Entry],
) -> Result<Option<Broken>, OutOfMemory>
    requires { AllWellFormed plan.now entries.now }
    ensures { IfOk result (IsJudged rule.now plan.now entries.now) }
{
    let by = first_break(alloc, plan, rule, entries)?;
    match by {
        FirstBreak::Nowhere => Ok(None),
        FirstBreak::FirstValues | FirstBreak::ByEntry(_) => {
            let broken = broken_by(alloc, plan, rule, entries, by)?;
            Ok(Some(broken))
        }
    }
}

/// Where these entries break each of these rules first, in their order.
pub fn judge_rules(
    alloc: Global,
    plan: &Plan,
    rules: Vec<RuleLine>,
    entries: &[Entry],
) -> Result<Vec<JudgedRule>, OutOfMemory>
    requires { AllWellFormed plan.now entries.now }
    ensures { IfOk result (λ judged. AreJudgedBy plan.now entries.now rules.items judged.items) }
{
    let mut judged = Vec::new(alloc);
    for line in rules {
        let broken = judge(alloc, plan, &line.rule, entries)?;
        judged.push(JudgedRule { line, broken })?;
    }
    Ok(judged)
}
