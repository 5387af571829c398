//! What is never resolved in the places of a plan.

ghost use Rattle.std.specs.Prelude.{◌≡◌, ◌<◌, ℕ, List, [], length, slice_index_or, IsFalse, IsTrue, IfOk, IfSome};
ghost use Rattle.std.specs.List.{All};
ghost use Rattle.place_plan.specs.Plans.Places.{graph_at};
ghost use Rattle.reach_laws.specs.CanCome.{action_of};
ghost use Rattle.reach_tables.specs.ReachTable.{groups_of, can_resolve, row_of};
ghost use Rattle.reach_tables.specs.Never.{ListNever};
ghost use Rattle.reach_tables.specs.inner.NoneComes.{NoneComes};

use crate::checking::{graph_of, leaves_nothing_out};
use crate::endings::{all_below, can_resolve, groups_of};
use crate::search::search;
use crate::sources::all_told;
use crate::table::ReachRow;
use caa_base::written::entry::{Exception, OutOfMemory};
use caa_base::written::rows::Rows;
use exception_graph::Graph;
use place_plan::drafts::draft_rows::ActionRow;
use place_plan::plans::plan::Plan;
use reach_laws::resolves_no_other;
use std::alloc::Global;
use std::marker::Model;

/// For each action of a plan, the exceptions that no place of it ever resolves. Seen as these lists.
#[derive(Drop)]
pub struct Nevers {
    lists: Rows<Rows<Exception>>,
}

impl Model for Nevers {
    ghost use Rattle.std.specs.Prelude.{List, ℕ};

    ghost Value = { List (List ℕ) };

    ghost view = { λ n. n.lists };
}

impl Nevers {
    /// Those of the action of this number, ascending, by their numbers in its internal graph.
    pub fn of_action(&self, action: u32) -> &[Exception]
        ensures { result.now ≡ slice_index_or self.now action [] }
    {
        match self.lists.as_slice().get(action as usize) {
            Some(list) => list.as_slice(),
            None => &[],
        }
    }
}

/// Whether it is sure that an exception can't be resolved where these groups can be raised.
fn is_never(
    alloc: Global,
    graph: &Graph,
    groups: &[Rows<Exception>],
    exception: Exception,
) -> Result<bool, OutOfMemory>
    requires exception { exception < graph.now.count }
    requires groups { All (λ (group : List ℕ). All (λ x. x < graph.now.count) group) groups.now }
    ensures { IfOk result (λ never. IsTrue never → IsFalse (can_resolve graph.now groups.now exception)) }
{
    let can = can_resolve(alloc, graph, groups, exception)?;
    Ok(!can)
}

/// The exceptions of a graph that can't be resolved where these groups can be raised.
fn never_among(
    alloc: Global,
    graph: &Graph,
    groups: &[Rows<Exception>],
) -> Result<Vec<Exception>, OutOfMemory>
    ensures { IfOk result (λ never. All (λ x. IsFalse (can_resolve graph.now groups.now x)) never.items) }
{
    let mut never = Vec::new(alloc);
    if !all_below(groups, graph.count()) {
        return Ok(never);
    }
    for exception in 0..graph.count() {
        if is_never(alloc, graph, groups, exception)? {
            never.push(exception)?;
        }
    }
    Ok(never)
}

/// The action of this number.
fn action_row(plan: &Plan, number: usize) -> Option<&ActionRow>
    ensures { IfSome result (λ action. action.now ≡ action_of plan.now number) }
{
    plan.action_rows().get(number)
}

/// The exceptions that can't be resolved in the places of an action, by what is told of it.
fn never_of(
    alloc: Global,
    plan: &Plan,
    action: &ActionRow,
    row: &ReachRow,
) -> Result<Rows<Exception>, OutOfMemory>
    ensures { IfOk result (λ never. All (λ x.
        IsFalse (can_resolve (graph_at plan.now action.now.internal) (groups_of action.now row.now) x)) never) }
{
    let Some(graph) = graph_of(plan, action.internal) else {
        return Ok(Rows::from_vec(Vec::new(alloc)));
    };
    let told = all_told(alloc, action, row)?;
    let groups = groups_of(alloc, action, row, &told)?;
    let never = never_among(alloc, graph, &groups)?;
    Ok(Rows::from_vec(never))
}

/// The same of the action of this number.
fn never_in(
    alloc: Global,
    plan: &Plan,
    number: usize,
    row: &ReachRow,
) -> Result<Rows<Exception>, OutOfMemory>
    ensures { IfOk result (λ never. NoneComes plan.now row.now number never) }
{
    match action_row(plan, number) {
        Some(action) => never_of(alloc, plan, action, row),
        None => Ok(Rows::from_vec(Vec::new(alloc))),
    }
}

/// The same of each action that a table tells of.
fn never_by(
    alloc: Global,
    plan: &Plan,
    table: &[ReachRow],
) -> Result<Vec<Rows<Exception>>, OutOfMemory>
    ensures { IfOk result (λ lists. (a : ℕ) → a < length lists.items →
        NoneComes plan.now (row_of table.now a) a (slice_index_or lists.items a [])) }
{
    let mut lists = Vec::new(alloc);
    for (action, row) in table.iter().enumerate() {
        lists.push(never_in(alloc, plan, action, row)?)?;
    }
    Ok(lists)
}

/// For each action of a plan, the exceptions that no place of it ever resolves, whatever the order and the device.
///
/// They are told by a table that is searched for and then checked. Were one found that leaves something out, nothing would be told;
/// this isn't ruled out by a clause.
pub fn never_resolved(alloc: Global, plan: &Plan) -> Result<Nevers, OutOfMemory>
    ensures { IfOk result (λ nevers. ListNever plan.now nevers) }
{
    let table = search(alloc, plan)?;
    if !leaves_nothing_out(alloc, plan, &table)? {
        return Ok(Nevers {
            lists: Rows::from_vec(Vec::new(alloc)),
        });
    }
    resolves_no_other(plan);
    let lists = never_by(alloc, plan, &table)?;
    Ok(Nevers {
        lists: Rows::from_vec(lists),
    })
}
