//! Which actions of a plan can end undone.

ghost use Rattle.std.specs.Prelude.{◌≡◌, map, IfOk};
ghost use Rattle.script_outcomes.specs.Untried.{ListUntried};

use caa_base::written::entry::OutOfMemory;
use place_plan::plans::plan::Plan;
use reach_laws::ends_not_otherwise;
use reach_tables::checking::leaves_nothing_out;
use reach_tables::search::search;
use reach_tables::table::ReachRow;
use std::alloc::Global;

/// Whether each of these rows says that a place can end undone.
fn undone_in(alloc: Global, table: &[ReachRow]) -> Result<Vec<bool>, OutOfMemory>
    ensures { IfOk result (λ undone. undone.items ≡ map (λ row. row.undone) table.now) }
{
    let mut undone = Vec::new(alloc);
    for row in table {
        undone.push(row.undone)?;
    }
    Ok(undone)
}

/// Whether a place of each action of a plan can end undone. Where it can't, nobody ever comes to an alternate behind it.
///
/// A table that is searched for and then checked tells it. Were one found that leaves something out, nothing would be told; this isn't
/// ruled out by a clause.
pub fn undone_by_plan(alloc: Global, plan: &Plan) -> Result<Vec<bool>, OutOfMemory>
    ensures { IfOk result (λ undone. ListUntried plan.now undone.items) }
{
    let table = search(alloc, plan)?;
    if !leaves_nothing_out(alloc, plan, &table)? {
        return Ok(Vec::new(alloc));
    }
    ends_not_otherwise(plan);
    plan.is_closed();
    let undone = undone_in(alloc, &table)?;
    Ok(undone)
}
