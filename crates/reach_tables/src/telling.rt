//! Whether a table leaves nothing out.

ghost use Rattle.std.specs.Prelude.{◌≡◌, ◌&&◌, [], slice_index_or};
ghost use Rattle.std.specs.List.{list_all};
ghost use Rattle.caa_base.specs.Written.Lists.{member, is_empty};
ghost use Rattle.place_plan.specs.Plans.Places.{no_role};
ghost use Rattle.reach_laws.specs.ReachedSteps.{body_enters};
ghost use Rattle.reach_laws.specs.CanCome.{action_of, is_given_up};
ghost use Rattle.reach_tables.specs.ReachTable.{row_of, source_of, all_told, is_beside, has_beside, tells_abort, tells_ends, tells_aborts, tells_failure, all_enter, tells_alternates, tells_use, tells_uses};

use crate::order::are_together;
use crate::steps::{body_enters, is_member};
use crate::table::{RaisedBy, ReachRow, Told, UseOrder};
use caa_base::written::entry::Exception;
use caa_base::written::rows::Rows;
use place_plan::drafts::draft_rows::{AbortRow, ActionRow, NestRow, RoleRow};
use place_plan::plans::plan::Plan;

/// Whether a list has no members.
pub fn is_none(list: &[u32]) -> bool
    ensures { result ≡ is_empty list.now }
{
    list.is_empty()
}

/// What a use makes of an exception that its action tells.
pub fn mapped(nest: &NestRow, exception: Exception) -> Exception
    ensures { result ≡ slice_index_or nest.now.maps exception 0 }
{
    match nest.maps.as_slice().get(exception as usize) {
        Some(upper) => *upper,
        None => 0,
    }
}

/// Whether a use was given up.
fn is_given_up(by: RaisedBy) -> bool
    ensures { result ≡ is_given_up (source_of by) }
{
    match by {
        RaisedBy::GivenUp(_) => true,
        RaisedBy::Step(_, _) | RaisedBy::Use(_) => false,
    }
}

/// Whether a source can raise by itself something beside a use.
fn is_beside(action: &ActionRow, order: &[UseOrder], nest: usize, told: &Told) -> bool
    ensures { result ≡ is_beside action.now order.now nest told.now }
{
    !is_given_up(told.by) && are_together(action, order, told.by, RaisedBy::Use(nest))
}

/// Whether something can be raised beside what this use carries out; `told` is all that can raise something.
pub fn has_beside(action: &ActionRow, row: &ReachRow, told: &[Told], nest: usize) -> bool
    requires { told.now ≡ all_told action.now row.now }
    ensures { result ≡ has_beside action.now row.now nest }
{
    let order = row.order.as_slice();
    told.iter().any(|one| is_beside(action, order, nest, one))
}

/// Whether what a role names where its place is given up is told, as the use maps it.
fn tells_abort(nest: &NestRow, given_up: &[Exception], row: &AbortRow) -> bool
    ensures { result ≡ tells_abort nest.now given_up.now row.now }
{
    match row {
        AbortRow::Never => true,
        AbortRow::Always(exception) => is_member(mapped(nest, *exception), given_up),
        AbortRow::Where { exception, .. } => is_member(mapped(nest, *exception), given_up),
    }
}

/// Whether what a use makes of these signals of its alternate is told.
fn tells_signals(nest: &NestRow, raised: &[Exception], signals: &[Exception]) -> bool
    ensures { result ≡ list_all (λ x. member (slice_index_or nest.now.maps x 0) raised.now) signals.now }
{
    signals
        .iter()
        .all(|told| is_member(mapped(nest, *told), raised))
}

/// Whether what a use makes of each way in which its alternate can end is told.
fn tells_ends(nest: &NestRow, raised: &[Exception], is_last: bool, row: &ReachRow) -> bool
    ensures { result ≡ tells_ends nest.now raised.now is_last row.now }
{
    let signals = tells_signals(nest, raised, row.signals.as_slice());
    let undo = is_member(nest.undo, raised);
    let failure = is_member(nest.failure, raised);
    signals && ((!(row.undone && is_last) || undo) && (!row.failed || failure))
}

/// Whether what the roles name where the alternate is given up is told.
fn tells_aborts(nest: &NestRow, given_up: &[Exception], action: &ActionRow) -> bool
    ensures { result ≡ tells_aborts nest.now given_up.now action.now }
{
    action
        .roles
        .iter()
        .all(|role| tells_abort(nest, given_up, &role.abort))
}

/// Whether it is told that the undo of an alternate can fail where it is given up, if there can be one.
fn tells_failure(nest: &NestRow, raised: &[Exception], action: &ActionRow) -> bool
    ensures { result ≡ tells_failure nest.now raised.now action.now }
{
    is_none(action.objects.as_slice()) || is_member(nest.failure, raised)
}

/// Whether a role, by its number, comes to the step that enters a use.
fn role_enters(nest: usize, roles: &[RoleRow], role: u32) -> bool
    ensures { result ≡ body_enters nest (slice_index_or roles.now role no_role) }
{
    match roles.get(role as usize) {
        Some(row) => body_enters(nest, row),
        None => false,
    }
}

/// Whether each role of a use comes to the step that enters it.
pub fn all_enter(action: &ActionRow, number: usize, nest: &NestRow) -> bool
    ensures { result ≡ all_enter action.now number nest.now }
{
    let roles = action.roles.as_slice();
    nest.roles
        .iter()
        .all(|role| role_enters(number, roles, *role))
}

/// What a use carries out, by its number; nothing past the end.
fn carried_by(uses: &[Rows<Exception>], nest: usize) -> &[Exception]
    ensures { result.now ≡ slice_index_or uses.now nest [] }
{
    match uses.get(nest) {
        Some(carried) => carried.as_slice(),
        None => &[],
    }
}

/// Whether what a use makes of each way in which the action of this number can end is told.
fn tells_ends_of(
    table: &[ReachRow],
    action: u32,
    nest: &NestRow,
    raised: &[Exception],
    is_last: bool,
) -> bool
    ensures { result ≡ tells_ends nest.now raised.now is_last (row_of table.now action) }
{
    match table.get(action as usize) {
        Some(row) => tells_ends(nest, raised, is_last, row),
        None => true,
    }
}

/// Whether the table says that a place of the action of this number can end undone.
pub fn is_undone(table: &[ReachRow], action: u32) -> bool
    ensures { result ≡ (row_of table.now action).undone }
{
    match table.get(action as usize) {
        Some(row) => row.undone,
        None => false,
    }
}

/// Whether what a use carries out where the action of this number is given up is told.
fn tells_given_up(
    plan: &Plan,
    action: u32,
    nest: &NestRow,
    raised: &[Exception],
    given_up: &[Exception],
) -> bool
    ensures { result ≡ (tells_aborts nest.now given_up.now (action_of plan.now action)
        && tells_failure nest.now raised.now (action_of plan.now action)) }
{
    match plan.action_rows().get(action as usize) {
        Some(row) => tells_aborts(nest, given_up, row) && tells_failure(nest, raised, row),
        None => true,
    }
}

/// Whether all of this is told of these alternates of a use, as far as they can be tried; `beside` says that something can be raised
/// beside the use.
fn tells_alternates(
    plan: &Plan,
    table: &[ReachRow],
    nest: &NestRow,
    row: &ReachRow,
    number: usize,
    beside: bool,
    alternates: &[u32],
) -> bool
    ensures { result ≡ tells_alternates plan.now table.now nest.now row.now number beside alternates.now }
{
    let raised = carried_by(row.by_uses.as_slice(), number);
    let given_up = carried_by(row.given_up.as_slice(), number);
    for (index, action) in alternates.iter().enumerate() {
        let is_last = is_none(&alternates[index + 1..]);
        let ends = tells_ends_of(table, *action, nest, raised, is_last);
        let aborts = tells_given_up(plan, *action, nest, raised, given_up);
        if !(ends && (!beside || aborts)) {
            return false;
        }
        if !is_undone(table, *action) {
            return true;
        }
    }
    true
}

/// Whether all of this is told of a use, where all its roles come to it; `told` is all that can raise something.
fn tells_use(
    plan: &Plan,
    table: &[ReachRow],
    action: &ActionRow,
    row: &ReachRow,
    told: &[Told],
    number: usize,
    nest: &NestRow,
) -> bool
    requires { told.now ≡ all_told action.now row.now }
    ensures { result ≡ tells_use plan.now table.now action.now row.now number nest.now }
{
    if !all_enter(action, number, nest) {
        return true;
    }
    let beside = has_beside(action, row, told, number);
    tells_alternates(
        plan,
        table,
        nest,
        row,
        number,
        beside,
        nest.actions.as_slice(),
    )
}

/// Whether all of this is told of all uses of an action; `told` is all that can raise something in its places.
pub fn tells_uses(
    plan: &Plan,
    table: &[ReachRow],
    action: &ActionRow,
    row: &ReachRow,
    told: &[Told],
) -> bool
    requires { told.now ≡ all_told action.now row.now }
    ensures { result ≡ tells_uses plan.now table.now action.now row.now 0 action.now.nests }
{
    let nests = action.nests.as_slice();
    for (number, nest) in nests.iter().enumerate() {
        if !tells_use(plan, table, action, row, told, number, nest) {
            return false;
        }
    }
    true
}
