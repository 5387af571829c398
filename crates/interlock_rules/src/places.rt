//! Where an object may be.

ghost use Rattle.std.specs.Prelude.{◌≡◌, ◌||◌, ℤ, reverse, IfOk, OnOk};
ghost use Rattle.std.specs.List.{list_any};
ghost use Rattle.place_plan.specs.Plans.Places.{initial_of};
ghost use Rattle.place_plan.specs.RulesOfJournals.Roles.{int_same};
ghost use Rattle.interlock_rules.specs.Interlocks.{may_be};

use crate::rules::{is_fault_on, is_put_on};
use caa_base::written::entry::{Entry, Object, OutOfMemory};
use place_plan::plans::plan::Plan;
use std::alloc::Global;

/// The first value of an object; 0 where the plan has no such object.
pub fn first_value(plan: &Plan, object: Object) -> i64
    ensures { result ≡ initial_of plan.now object }
{
    if object < plan.objects() {
        plan.initial(object)
    } else {
        0
    }
}

/// Whether a number is among these.
fn is_among(number: i64, numbers: &[i64]) -> bool
    ensures { result ≡ list_any (int_same number) numbers.now }
{
    numbers.iter().any(|other| number == *other)
}

/// Adds a number, unless it is there already.
fn add_number(numbers: &mut Vec<i64>, number: i64) -> Result<(), OutOfMemory>
    ensures { OnOk result ((x : ℤ) → list_any (int_same x) numbers.new.items ≡ int_same x number || list_any (int_same x) numbers.old.items) }
{
    if !is_among(number, numbers) {
        numbers.push(number)?;
    }
    Ok(())
}

/// Adds the number that an entry puts, unless it is there already.
fn add_value(numbers: &mut Vec<i64>, entry: &Entry) -> Result<(), OutOfMemory>
    ensures { OnOk result
        ((x : ℤ) → list_any (int_same x) numbers.new.items ≡ int_same x entry.now.value || list_any (int_same x) numbers.old.items) }
{
    add_number(numbers, entry.value)
}

/// All numbers at which an object may be after these entries, each once. Where it was put last stands last.
pub fn where_may_be(
    alloc: Global,
    plan: &Plan,
    entries: &[Entry],
    object: Object,
) -> Result<Vec<i64>, OutOfMemory>
    ensures { IfOk result (λ numbers. (x : ℤ) → list_any (int_same x) numbers.items ≡ may_be plan.now (reverse entries.now) object x) }
{
    let mut numbers = Vec::new(alloc);
    for index in (0..entries.len()).rev() {
        let entry = &entries[index];
        if is_put_on(object, entry) {
            add_value(&mut numbers, entry)?;
            return Ok(numbers);
        }
        if is_fault_on(object, entry) {
            add_value(&mut numbers, entry)?;
        }
    }
    add_number(&mut numbers, first_value(plan, object))?;
    Ok(numbers)
}
