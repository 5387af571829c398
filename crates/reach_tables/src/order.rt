//! Which sources of an action exclude each other, by the uses of which it is told that they follow one another.

ghost use Rattle.std.specs.Prelude.{◌≡◌, ◌==◌, ◌&&◌, ◌||◌};
ghost use Rattle.std.specs.List.{list_any};
ghost use Rattle.reach_laws.specs.ReachedSteps.{is_enter};
ghost use Rattle.reach_laws.specs.CanCome.{step_in, is_right_behind};
ghost use Rattle.reach_tables.specs.declared.table.RaisedBy.TheVariants as by;
ghost use Rattle.reach_tables.specs.ReachTable.{source_of, lists_pair, enters_some, enters_behind, enters_before, steps_of, leads_to, leads_from, leads_through, is_before, is_same, excludes, are_together, leads_on, tells_order};

use crate::steps::{body_leads_on, enters, reached};
use crate::table::{RaisedBy, UseOrder};
use place_plan::drafts::draft_rows::{ActionRow, Step};

/// Whether a use has to be over before another begins, by the list.
pub fn lists_pair(order: &[UseOrder], first: usize, second: usize) -> bool
    ensures { result ≡ lists_pair order.now first second }
{
    order
        .iter()
        .any(|pair| pair.first == first && pair.second == second)
}

/// Whether a step enters this use, or one that has to be over before this one begins.
fn enters_up_to(order: &[UseOrder], nest: usize, step: &Step) -> bool
    ensures { result ≡ enters_some (λ l. (l == nest) || lists_pair order.now l nest) step.now }
{
    match step {
        Step::Enter(number) => {
            *number as usize == nest || lists_pair(order, *number as usize, nest)
        }
        Step::Read(_)
        | Step::Put(_, _)
        | Step::Add(_, _)
        | Step::Work(_)
        | Step::Check { .. }
        | Step::Raise(_) => false,
    }
}

/// Whether a step enters this use, or one that begins only once this one is over.
fn enters_from(order: &[UseOrder], nest: usize, step: &Step) -> bool
    ensures { result ≡ enters_some (λ l. (l == nest) || lists_pair order.now nest l) step.now }
{
    match step {
        Step::Enter(number) => {
            *number as usize == nest || lists_pair(order, nest, *number as usize)
        }
        Step::Read(_)
        | Step::Put(_, _)
        | Step::Add(_, _)
        | Step::Work(_)
        | Step::Check { .. }
        | Step::Raise(_) => false,
    }
}

/// Whether some of these steps enters this use, or one that has to be over before this one begins.
fn some_up_to(order: &[UseOrder], nest: usize, steps: &[Step]) -> bool
    ensures { result ≡ list_any (enters_some (λ l. (l == nest) || lists_pair order.now l nest)) steps.now }
{
    steps.iter().any(|step| enters_up_to(order, nest, step))
}

/// Whether some of these steps enters this use, or one that begins only once this one is over.
fn some_from(order: &[UseOrder], nest: usize, steps: &[Step]) -> bool
    ensures { result ≡ list_any (enters_some (λ l. (l == nest) || lists_pair order.now nest l)) steps.now }
{
    steps.iter().any(|step| enters_from(order, nest, step))
}

/// Whether some step behind the one of this number enters this use, or one that has to be over before this one begins.
fn enters_behind(order: &[UseOrder], nest: usize, index: usize, steps: &[Step]) -> bool
    ensures { result ≡ enters_behind (λ l. (l == nest) || lists_pair order.now l nest) index steps.now }
{
    if index >= steps.len() {
        return false;
    }
    some_up_to(order, nest, &steps[index + 1..])
}

/// Whether some step before the one of this number enters this use, or one that begins only once this one is over.
fn enters_before(order: &[UseOrder], nest: usize, index: usize, steps: &[Step]) -> bool
    ensures { result ≡ enters_before (λ l. (l == nest) || lists_pair order.now nest l) index steps.now }
{
    if index < steps.len() {
        some_from(order, nest, &steps[..index])
    } else {
        some_from(order, nest, steps)
    }
}

/// The steps of a role, by its number, that somebody comes to.
fn steps_of(action: &ActionRow, role: usize) -> &[Step]
    ensures { result.now ≡ steps_of action.now role }
{
    match action.roles.as_slice().get(role) {
        Some(row) => reached(row.body.steps.as_slice()),
        None => &[],
    }
}

/// Whether a step of a role has to be over before a use begins.
fn leads_to(action: &ActionRow, order: &[UseOrder], role: usize, index: usize, nest: usize) -> bool
    ensures { result ≡ leads_to action.now order.now role index nest }
{
    enters_behind(order, nest, index, steps_of(action, role))
}

/// Whether a use has to be over before a step of a role begins.
fn leads_from(
    action: &ActionRow,
    order: &[UseOrder],
    nest: usize,
    role: usize,
    index: usize,
) -> bool
    ensures { result ≡ leads_from action.now order.now nest role index }
{
    enters_before(order, nest, index, steps_of(action, role))
}

/// Whether a step of a role has to be over before some use begins, and that one before a step of another role.
fn leads_through(
    action: &ActionRow,
    order: &[UseOrder],
    role: usize,
    index: usize,
    other: usize,
    later: usize,
) -> bool
    ensures { result ≡ leads_through action.now order.now role index other later }
{
    for nest in 0..action.nests.len() {
        if leads_to(action, order, role, index, nest)
            && leads_from(action, order, nest, other, later)
        {
            return true;
        }
    }
    false
}

/// Whether a step of a role has to be over before a source begins, by the list.
fn is_step_before(
    action: &ActionRow,
    order: &[UseOrder],
    role: usize,
    index: usize,
    second: RaisedBy,
) -> bool
    ensures { result ≡ is_before action.now order.now (by.Step role index) second }
{
    match second {
        RaisedBy::Step(other, later) => {
            (role == other && index < later)
                || leads_through(action, order, role, index, other, later)
        }
        RaisedBy::Use(nest) => leads_to(action, order, role, index, nest),
        RaisedBy::GivenUp(nest) => leads_to(action, order, role, index, nest),
    }
}

/// Whether a use has to be over before a source begins, by the list.
fn is_use_before(action: &ActionRow, order: &[UseOrder], nest: usize, second: RaisedBy) -> bool
    ensures kept { result ≡ is_before action.now order.now (by.Use nest) second }
    ensures given_up { result ≡ is_before action.now order.now (by.GivenUp nest) second }
{
    match second {
        RaisedBy::Step(role, index) => leads_from(action, order, nest, role, index),
        RaisedBy::Use(later) => lists_pair(order, nest, later),
        RaisedBy::GivenUp(later) => lists_pair(order, nest, later),
    }
}

/// Whether a source has to be over before another begins, by the list.
fn is_before(action: &ActionRow, order: &[UseOrder], first: RaisedBy, second: RaisedBy) -> bool
    ensures { result ≡ is_before action.now order.now first second }
{
    match first {
        RaisedBy::Step(role, index) => is_step_before(action, order, role, index, second),
        RaisedBy::Use(nest) => is_use_before(action, order, nest, second),
        RaisedBy::GivenUp(nest) => is_use_before(action, order, nest, second),
    }
}

/// Whether both are one source, which wasn't given up; or one use, given up and not.
fn is_same(first: RaisedBy, second: RaisedBy) -> bool
    ensures { result ≡ is_same first second }
{
    match (first, second) {
        (RaisedBy::Step(role, index), RaisedBy::Step(other, later)) => {
            role == other && index == later
        }
        (RaisedBy::Use(nest), RaisedBy::Use(other)) => nest == other,
        (RaisedBy::Use(nest), RaisedBy::GivenUp(other)) => nest == other,
        _ => false,
    }
}

/// Whether the step of this number of a role, where somebody comes to it, enters a use.
fn enters_at(action: &ActionRow, nest: usize, role: usize, index: usize) -> bool
    ensures { result ≡ is_enter nest (step_in action.now role index) }
{
    match steps_of(action, role).get(index) {
        Some(step) => enters(nest, step),
        None => false,
    }
}

/// Whether the second source is the step right behind the one that enters a use which was given up, the first.
fn is_right_behind(action: &ActionRow, first: RaisedBy, second: RaisedBy) -> bool
    ensures { result ≡ is_right_behind action.now (source_of first) (source_of second) }
{
    match (first, second) {
        (RaisedBy::GivenUp(nest), RaisedBy::Step(role, index)) => {
            index > 0 && enters_at(action, nest, role, index - 1)
        }
        _ => false,
    }
}

/// Whether a source raises nothing else in a place where another raises something.
fn excludes(action: &ActionRow, order: &[UseOrder], first: RaisedBy, second: RaisedBy) -> bool
    ensures { result ≡ excludes action.now order.now first second }
{
    is_same(first, second)
        || (is_before(action, order, first, second) && !is_right_behind(action, first, second))
}

/// Whether two sources can both raise in one place.
pub fn are_together(
    action: &ActionRow,
    order: &[UseOrder],
    first: RaisedBy,
    second: RaisedBy,
) -> bool
    ensures { result ≡ are_together action.now order.now first second }
{
    !excludes(action, order, first, second) && !excludes(action, order, second, first)
}

/// Whether some role comes to the step that enters the first use before it comes to the one that enters the second.
pub fn leads_on(action: &ActionRow, first: usize, second: usize) -> bool
    ensures { result ≡ leads_on action.now first second }
{
    action
        .roles
        .iter()
        .any(|role| body_leads_on(first, second, role))
}

/// Whether a pair is right, where those listed behind it are.
fn tells_pair(action: &ActionRow, rest: &[UseOrder], pair: &UseOrder) -> bool
    ensures { result ≡ (leads_on action.now pair.now.first pair.now.through
        && ((pair.now.through == pair.now.second) || lists_pair rest.now pair.now.through pair.now.second)) }
{
    leads_on(action, pair.first, pair.through)
        && (pair.through == pair.second || lists_pair(rest, pair.through, pair.second))
}

/// Whether each pair of a list is right.
pub fn tells_order(action: &ActionRow, order: &[UseOrder]) -> bool
    ensures { result ≡ tells_order action.now order.now }
{
    for (index, pair) in order.iter().enumerate() {
        if !tells_pair(action, &order[index + 1..], pair) {
            return false;
        }
    }
    true
}
