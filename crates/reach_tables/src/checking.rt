//! Whether a table leaves nothing out of what can come in the places of a plan.

ghost use Rattle.std.specs.Prelude.{◌≡◌, not, ◌||◌, IsTrue, IfOk, IfSome};
ghost use Rattle.caa_base.specs.Written.Lists.{is_empty};
ghost use Rattle.place_plan.specs.Plans.Places.{graph_at};
ghost use Rattle.reach_tables.specs.ReachTable.{TellsAll, LeavesNothingOut};

use crate::endings::{groups_of, tells_all_resolved, tells_calm};
use crate::order::tells_order;
use crate::sources::all_told;
use crate::table::ReachRow;
use crate::telling::{is_none, tells_uses};
use caa_base::written::entry::OutOfMemory;
use exception_graph::Graph;
use place_plan::drafts::draft_rows::ActionRow;
use place_plan::plans::plan::Plan;
use std::alloc::Global;

/// The graph of this number.
pub fn graph_of(plan: &Plan, number: u32) -> Option<&Graph>
    ensures { IfSome result (λ graph. graph.now ≡ graph_at plan.now number) }
{
    match plan.graph_rows().get(number as usize) {
        Some(row) => Some(&row.graph),
        None => None,
    }
}

/// Whether it is told that an undo can fail, where there can be one.
fn tells_failures(action: &ActionRow, row: &ReachRow) -> bool
    ensures { result ≡ (not row.now.undone || (is_empty action.now.objects || row.now.failed)) }
{
    !row.undone || (is_none(action.objects.as_slice()) || row.failed)
}

/// Whether all is told of an action.
fn tells_all(
    alloc: Global,
    plan: &Plan,
    table: &[ReachRow],
    action: &ActionRow,
    row: &ReachRow,
) -> Result<bool, OutOfMemory>
    ensures { IfOk result (λ told. IsTrue told → TellsAll plan.now table.now action.now row.now) }
{
    let (Some(internal), Some(interface)) = (
        graph_of(plan, action.internal),
        graph_of(plan, action.interface),
    ) else {
        return Ok(false);
    };
    let told = all_told(alloc, action, row)?;
    let groups = groups_of(alloc, action, row, &told)?;
    let order = tells_order(action, row.order.as_slice());
    let uses = tells_uses(plan, table, action, row, &told);
    let failures = tells_failures(action, row);
    let calm = tells_calm(alloc, interface, action, row)?;
    let resolved = tells_all_resolved(alloc, internal, interface, action, row, &groups)?;
    Ok(order && uses && calm && resolved && failures)
}

/// Whether a table leaves nothing out of what can come in the places of a plan: then what it doesn't tell never comes.
pub fn leaves_nothing_out(
    alloc: Global,
    plan: &Plan,
    table: &[ReachRow],
) -> Result<bool, OutOfMemory>
    ensures { IfOk result (λ told. IsTrue told → LeavesNothingOut plan.now table.now) }
{
    let actions = plan.action_rows();
    if actions.len() != table.len() {
        return Ok(false);
    }
    for (index, action) in actions.iter().enumerate() {
        if !tells_all(alloc, plan, table, action, &table[index])? {
            return Ok(false);
        }
    }
    Ok(true)
}
