//! The end of a block: whether the graph or the action is refused, and what is declared with it.
//!
//! An `end` line is checked while it is taken: the graph's order, or the action's row, is made of what was open, and is refused or
//! declared. So no order and no row is made twice, and the tests of all other lines only read.
//!
//! At the end of each action its depth, its places and its bound are counted from those of the actions before it, and each play
//! adds its action's. So a `play` line costs no more than its own words, where `unfolded` would go over all actions again.

ghost use Rattle.std.specs.Prelude.{◌≡◌, ◌≢◌, ◌≤◌, [], length, map, OnOk, IfOk, IfErr};
ghost use Rattle.caa_base.specs.Written.Limits.{most_roles};
ghost use Rattle.script_checker.specs.DeclaredSoFar.{nest_rows};
ghost use Rattle.script_checker.specs.InAction.{row_of, with_action};
ghost use Rattle.script_checker.specs.After.{ended, with_said};
ghost use Rattle.script_checker.specs.Compiled.{exception_name, IsRowOf, AreRowsOf, IsLeast, HasNone};
ghost use Rattle.script_checker.specs.inner.Ends.{IsGraphRefusal, IsFaultless, IsActionRefusal, IsUnrefused};
ghost use Rattle.script_checker.specs.declared.check_error.CheckCause.TheVariants as cause;
ghost use Rattle.script_checker.specs.declared.declared.Block.TheVariants as block;
ghost use Rattle.action_script.specs.declared.forms.form.Form.TheVariants as form;

use crate::check_error::CheckCause;
use crate::declared::{Block, Declared, SoFar};
use crate::lookups::name_row;
use crate::open_action::{OpenAction, OpenNest};
use crate::open_graph::OpenGraph;
use caa_base::written::entry::OutOfMemory;
use caa_base::written::name::Name;
use caa_base::written::rows::Rows;
use place_plan::drafts::draft_rows::{ActionRow, GraphRow, NestRow};
use place_plan::drafts::uses::roles_enter;
use place_plan::plans::action_size;
use std::alloc::{AllocError, Global};
use std::mem::replace;

// ---- graphs

/// The name of an exception; a number that is no name's stands for `universal`.
fn exception_row(alloc: Global, names: &[Name], number: u32) -> Result<Name, OutOfMemory>
    ensures { IfOk result (λ name. name ≡ exception_name names.now number) }
{
    match names.get(number as usize) {
        Some(name) => Name::from_bytes(alloc, name.bytes()),
        None => Name::from_bytes(alloc, b"universal"),
    }
}

/// The names of exceptions.
fn exception_rows(
    alloc: Global,
    names: &[Name],
    exceptions: &[u32],
) -> Result<Vec<Name>, OutOfMemory>
    ensures { IfOk result (λ rows. rows.items ≡ map (exception_name names.now) exceptions.now) }
{
    let mut rows = Vec::new(alloc);
    for exception in exceptions {
        rows.push(exception_row(alloc, names, *exception)?)?;
    }
    Ok(rows)
}

/// The row of a graph, or why the graph is refused.
fn graph_row(alloc: Global, names: &[Name], graph: &OpenGraph) -> Result<GraphRow, CheckCause>
    ensures row { IfOk result (IsRowOf names.now graph.now) }
    ensures faultless { OnOk result (IsFaultless (length graph.now.exceptions) graph.now.pairs) }
    ensures refused { IfErr result (IsGraphRefusal (length graph.now.exceptions) graph.now.pairs) }
{
    let order = graph.order(alloc)?;
    let rows = exception_rows(alloc, names, graph.exceptions().items())?;
    Ok(GraphRow {
        graph: order,
        names: Rows::from_vec(rows),
    })
}

/// Ends a graph.
fn end_graph(
    alloc: Global,
    declared: &mut Declared,
    rows: &mut Vec<GraphRow>,
    names: &[Name],
    graph: OpenGraph,
) -> Result<(), CheckCause>
    requires { AreRowsOf names.now declared.old.graphs rows.old.items }
    ensures faultless { OnOk result (IsFaultless (length graph.exceptions) graph.pairs) }
    ensures ended { OnOk result (declared.new ≡ ended names.now declared.old (block.Graph graph)) }
    ensures rows { OnOk result (AreRowsOf names.now declared.new.graphs rows.new.items) }
    ensures refused { IfErr result (IsGraphRefusal (length graph.exceptions) graph.pairs) }
{
    let row = graph_row(alloc, names, &graph)?;
    declared.graphs.push(graph.end())?;
    rows.push(row)?;
    Ok(())
}

// ---- actions

/// The rows of nested uses.
fn nest_rows(alloc: Global, nests: Vec<OpenNest>) -> Result<Vec<NestRow>, AllocError>
    ensures { IfOk result (λ rows. rows.items ≡ nest_rows nests.items) }
{
    nests.into_iter().map(|nest| nest.row).collect(alloc)
}

/// The row of an action that has this name.
fn named_row(alloc: Global, name: Name, action: OpenAction) -> Result<ActionRow, AllocError>
    ensures row { IfOk result (λ row. row ≡ record (row_of [] action) { name = name }) }
    ensures few { IfOk result (λ row. length row.roles ≤ most_roles) }
{
    let internal = action.internal.unwrap_or(0);
    let interface = action.interface.unwrap_or(0);
    let fault = action.fault.unwrap_or(0);
    let (objects, roles, nests) = action.into_parts();
    let nests = nest_rows(alloc, nests)?;
    Ok(ActionRow {
        name,
        internal,
        interface,
        fault,
        objects,
        roles: roles.into_rows(),
        nests: Rows::from_vec(nests),
    })
}

/// The row of an action.
fn row_of(alloc: Global, names: &[Name], action: OpenAction) -> Result<ActionRow, OutOfMemory>
    ensures row { IfOk result (λ row. row ≡ row_of names.now action) }
    ensures few { IfOk result (λ row. length row.roles ≤ most_roles) }
{
    let name = name_row(alloc, names, action.name)?;
    Ok(named_row(alloc, name, action)?)
}

/// Adds an action that has ended, with its sizes.
fn add_action(declared: &mut Declared, row: ActionRow) -> Result<(), AllocError>
    ensures { OnOk result (declared.new ≡ with_action declared.old row) }
{
    let nests = row.nests.as_slice();
    let depth = action_size::depth_with(nests, declared.depths.as_slice());
    let places = action_size::places_with(nests, declared.places.as_slice());
    let bound = action_size::bound_with(&row, declared.bounds.as_slice());
    declared.depths.push(depth)?;
    declared.places.push(places)?;
    declared.bounds.push(bound)?;
    declared.actions.push(row)?;
    Ok(())
}

/// Ends an action.
fn end_action(
    alloc: Global,
    declared: &mut Declared,
    names: &[Name],
    action: OpenAction,
) -> Result<(), CheckCause>
    ensures accepted { OnOk result (IsUnrefused action) }
    ensures ended { OnOk result (declared.new ≡ ended names.now declared.old (block.Action action)) }
    ensures refused { IfErr result (IsActionRefusal action) }
{
    if action.roles.is_empty() {
        return Err(CheckCause::RoleUnfilled);
    }
    let row = row_of(alloc, names, action)?;
    if !roles_enter(row.nests.as_slice(), row.roles.as_slice()) {
        return Err(CheckCause::NestOrder);
    }
    add_action(declared, row)?;
    Ok(())
}

// ---- both

/// Takes an `end` line, where the block that it ends has no fault.
pub(crate) fn end(
    alloc: Global,
    so_far: &mut SoFar,
    rows: &mut Vec<GraphRow>,
    names: &[Name],
) -> Result<(), CheckCause>
    requires { AreRowsOf names.now so_far.old.declared.graphs rows.old.items }
    ensures accepted { OnOk result (HasNone so_far.old form.End) }
    ensures taken { OnOk result (so_far.new ≡ with_said names.now so_far.old form.End) }
    ensures rows { OnOk result (AreRowsOf names.now so_far.new.declared.graphs rows.new.items) }
    ensures refused { IfErr result (λ c. c ≢ cause.OutOfMemory → IsLeast so_far.old form.End c) }
{
    let declared = &mut so_far.declared;
    match replace(&mut so_far.block, Block::Top) {
        Block::Top => Ok(()),
        Block::Graph(graph) => end_graph(alloc, declared, rows, names, graph),
        Block::Action(action) => end_action(alloc, declared, names, action),
    }
}
