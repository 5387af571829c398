//! Where a journal breaks a rule first.

ghost use Rattle.std.specs.Prelude.{◌≡◌, ◌↔◌, not, reverse, IfOk, IsTrue};
ghost use Rattle.std.specs.List.{list_any, list_all};
ghost use Rattle.interlock_rules.specs.Interlocks.{is_fault_on, Takes, IsInterlocked, IsFirstBreak};

use crate::rules::{Rule, is_fault_on};
use crate::watch::Watch;
use caa_base::written::entry::{Entry, Object, OutOfMemory};
use place_plan::plans::plan::Plan;
use std::alloc::Global;

/// Where a journal breaks a rule first.
#[derive(Clone, Copy, Debug, PartialEq, Eq)]
pub enum FirstBreak {
    /// Nowhere.
    Nowhere,
    /// At the beginning: the first values of the objects break it.
    FirstValues,
    /// By the entry of this number, counted from 1.
    ByEntry(u64),
}

/// Where these entries, the oldest first, break a rule first. They need not be a legal journal.
///
/// An object that isn't one of the plan has 0 as its first value. The time is in line with the entries, for each part of the rule.
pub fn first_break(
    alloc: Global,
    plan: &Plan,
    rule: &Rule,
    entries: &[Entry],
) -> Result<FirstBreak, OutOfMemory>
    ensures { IfOk result (λ found. IsFirstBreak rule.now plan.now entries.now found) }
{
    let mut watch = Watch::open(alloc, plan, rule)?;
    if watch.is_broken_at_first(rule) {
        return Ok(FirstBreak::FirstValues);
    }
    for (index, entry) in entries.iter().enumerate() {
        if watch.take_in(rule, entry) {
            return Ok(FirstBreak::ByEntry(index as u64 + 1));
        }
    }
    Ok(FirstBreak::Nowhere)
}

/// Whether the device refused a put or a restore of the object.
fn was_refused(object: Object, entries: &[Entry]) -> bool
    ensures { result ≡ list_any (is_fault_on object) entries.now }
{
    entries.iter().any(|entry| is_fault_on(object, entry))
}

/// Whether the device refused no put or restore of any of these objects.
fn are_taken(taken: &[Object], entries: &[Entry]) -> bool
    ensures { result ≡ list_all (λ o. not (list_any (is_fault_on o) entries.now)) taken.now }
{
    taken.iter().all(|object| !was_refused(*object, entries))
}

/// Whether the device took each put and each restore of these objects.
pub fn takes(taken: &[Object], entries: &[Entry]) -> bool
    ensures { IsTrue result ↔ Takes taken.now (reverse entries.now) }
{
    are_taken(taken, entries)
}

/// Whether nothing in these entries breaks a rule, or the device refused a put or a restore of one of these objects.
pub fn is_interlocked(
    alloc: Global,
    plan: &Plan,
    rule: &Rule,
    taken: &[Object],
    entries: &[Entry],
) -> Result<bool, OutOfMemory>
    ensures { IfOk result (λ so. IsTrue so ↔ IsInterlocked rule.now taken.now plan.now (reverse entries.now)) }
{
    match first_break(alloc, plan, rule, entries)? {
        FirstBreak::Nowhere => Ok(true),
        FirstBreak::FirstValues | FirstBreak::ByEntry(_) => Ok(!takes(taken, entries)),
    }
}
