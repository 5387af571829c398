//! What a journal shows of each path and each object, once however often it comes.

ghost use Rattle.std.specs.Prelude.{◌≡◌, ◌++◌, [], IfOk, OnOk, filter_map, slice_set};
ghost use Rattle.std.specs.List.{cons_option};
ghost use Rattle.place_plan.specs.Plans.Places.{initials_of};
ghost use Rattle.rehearsals.specs.declared.facts.Fact.TheVariants as fact;
ghost use Rattle.rehearsals.specs.Facts.{fact_of, facts_of, takes_put, values_with, values_after, value_in};

use crate::paths::path_of;
use caa_base::written::entry::{Entry, Exception, Kind, Object, OutOfMemory, Outcome, Place};
use caa_base::written::journal::Journal;
use place_plan::plans::plan::Plan;
use std::alloc::Global;

/// Something that a journal shows. A path is given by the place that stands for it.
#[derive(Clone, Copy, Debug, PartialEq, Eq)]
pub enum Fact {
    /// A place of this path started.
    Started(Place),
    /// What was raised in a place of this path was resolved to this exception.
    Resolved(Place, Exception),
    /// The role of this number began its handler for this exception in a place of this path.
    Handled(Place, u32, Exception),
    /// A place of this path ended with this outcome.
    Ended(Place, Outcome),
    /// An object has this value at the end.
    Last(Object, i64),
}

/// What an entry shows, if it shows anything.
pub fn fact_of(plan: &Plan, paths: &[Place], entry: &Entry) -> Option<Fact>
    ensures { result ≡ fact_of plan.now paths.now entry.now }
{
    let path = path_of(paths, entry.place);
    match entry.kind {
        Kind::Start => Some(Fact::Started(path)),
        Kind::Resolve => Some(Fact::Resolved(path, entry.arg)),
        Kind::Handle => {
            let role = plan.role_of(entry.place, entry.by).unwrap_or(0);
            Some(Fact::Handled(path, role, entry.arg))
        }
        Kind::End => Some(Fact::Ended(path, Outcome::of_mark(entry.mark, entry.arg))),
        _ => None,
    }
}

/// Whether an entry is a put that the device took.
pub fn takes_put(entry: &Entry) -> bool
    ensures { result ≡ takes_put entry.now }
{
    match entry.kind {
        Kind::Write => true,
        Kind::Restore => entry.mark == 0,
        _ => false,
    }
}

/// Whether an entry is a put, taken or refused.
pub fn tries_put(entry: &Entry) -> bool {
    matches!(entry.kind, Kind::Write | Kind::PutFault | Kind::Restore)
}

/// Writes a value where there is such an index.
fn set_at(values: &mut Vec<i64>, index: usize, value: i64)
    ensures { values.new.items ≡ slice_set values.old.items index value }
{
    if index < values.len() {
        values[index] = value;
    }
}

/// The values of the device with what an entry puts.
pub fn note_put(values: &mut Vec<i64>, entry: &Entry)
    ensures { values.new.items ≡ values_with values.old.items entry.now }
{
    if takes_put(entry) {
        set_at(values, entry.arg as usize, entry.value);
    }
}

/// The value of each object after these entries.
pub fn values_after(alloc: Global, plan: &Plan, entries: &[Entry]) -> Result<Vec<i64>, OutOfMemory>
    ensures { IfOk result (λ values. values.items ≡ values_after (initials_of plan.now) entries.now) }
{
    let mut values = plan.initials(alloc)?;
    for entry in entries {
        note_put(&mut values, entry);
    }
    Ok(values)
}

/// Adds a fact, if there is one.
fn add_fact(facts: &mut Vec<Fact>, fact: Option<Fact>) -> Result<(), OutOfMemory>
    ensures { OnOk result (facts.new.items ≡ facts.old.items ++ cons_option fact []) }
{
    if let Some(fact) = fact {
        facts.push(fact)?;
    }
    Ok(())
}

/// What the entries of a journal show, in their order.
fn entry_facts(
    alloc: Global,
    plan: &Plan,
    paths: &[Place],
    entries: &[Entry],
) -> Result<Vec<Fact>, OutOfMemory>
    ensures { IfOk result (λ facts. facts.items ≡ filter_map (fact_of plan.now paths.now) entries.now) }
{
    let mut facts = Vec::new(alloc);
    for entry in entries {
        let fact = fact_of(plan, paths, entry);
        add_fact(&mut facts, fact)?;
    }
    Ok(facts)
}

/// The value of an object; 0 where there is none.
pub fn value_in(values: &[i64], object: Object) -> i64
    ensures { result ≡ value_in values.now object }
{
    match values.get(object as usize) {
        Some(value) => *value,
        None => 0,
    }
}

/// The value of an object at the end, as a fact.
fn last_fact(values: &[i64], object: Object) -> Fact
    ensures { result ≡ fact.Last object (value_in values.now object) }
{
    let value = value_in(values, object);
    Fact::Last(object, value)
}

/// What a journal shows: what its entries show, in their order, and then the last values.
pub fn facts_of(
    alloc: Global,
    plan: &Plan,
    paths: &[Place],
    journal: &Journal,
) -> Result<Vec<Fact>, OutOfMemory>
    ensures { IfOk result (λ facts. facts.items ≡ facts_of plan.now paths.now journal.now.entries) }
{
    let entries = journal.as_slice();
    let mut facts = entry_facts(alloc, plan, paths, entries)?;
    let values = values_after(alloc, plan, entries)?;
    for object in 0..plan.objects() {
        facts.push(last_fact(&values, object))?;
    }
    Ok(facts)
}
