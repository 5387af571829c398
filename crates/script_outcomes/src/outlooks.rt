//! What the text of a script and its plan tell of each of its actions.

ghost use Rattle.std.specs.Prelude.{◌≡◌, [], true, length, slice_index_or, IsTrue, IfOk};
ghost use Rattle.std.specs.List.{list_any};
ghost use Rattle.caa_base.specs.Written.Lists.{member};
ghost use Rattle.script_outcomes.specs.Endings.{can_be_undone, ends_undone, is_undone};
ghost use Rattle.script_outcomes.specs.Nevers.{TellsNever};
ghost use Rattle.script_outcomes.specs.Untried.{TellsUntried};
ghost use Rattle.script_outcomes.specs.inner.RuledOut.{RulesOutOnly};

use crate::covering::Exceptions;
use crate::programs::{Program, body_of, handler_of};
use crate::sources::{Ground, Source, named_in, set_back_by, sources_of};
use crate::undone::undone_by_plan;
use crate::ways::{Way, add_way, way_of};
use action_script::forms::form::Form;
use action_script::forms::script::{Line, Script};
use caa_base::written::entry::{Exception, OutOfMemory};
use place_plan::plans::plan::Plan;
use reach_tables::never::{Nevers, never_resolved};
use script_views::looking::{action_block, internal_of, roles_of};
use std::alloc::Global;

/// What is told of an exception of the internal graph of an action.
#[derive(Drop)]
pub struct Row {
    /// The number of its name.
    pub exception: u32,
    /// The lines of the steps and of the nested uses that can raise it, ascending.
    pub lines: Vec<u32>,
    /// Whether it can be resolved, as far as is known. Where it can't, it never is, whatever the order and the device.
    pub can_come: bool,
    /// How a place ends in which it is resolved, where each handler goes through to its end.
    pub way: Way,
}

/// What is told of an action. Exceptions and all else go by the numbers of their names.
#[derive(Drop)]
pub struct Outlook {
    pub action: u32,
    /// The objects, in the order in which they are set back.
    pub set_back: Vec<u32>,
    /// What its roles name where it is given up.
    pub named: Vec<u32>,
    /// A row for each exception of the internal graph, `universal` first.
    pub rows: Vec<Row>,
    /// All ways in which a place of it can end where nothing outside gives it up.
    pub ways: Vec<Way>,
}

impl Outlook {
    /// Whether a place of it can end undone.
    fn ends_undone(&self) -> bool
        ensures { result ≡ ends_undone self.now }
    {
        self.ways.iter().any(|way| way.is_undone())
    }
}

/// Whether a place of the action of this name can end undone, unless it is known that it can't: then no alternate is tried behind it.
pub fn can_be_undone(known: &[Outlook], action: u32) -> bool
    ensures { result ≡ can_be_undone known.now action }
{
    known.iter().all(|outlook| outlook.action != action || outlook.ends_undone())
}

/// The interface graph that an action names.
pub fn interface_of(block: &[Line]) -> Option<u32> {
    for line in block {
        if let Form::Interface(graph) = &line.form {
            return Some(*graph);
        }
    }
    None
}

/// The handlers of all roles for an exception, in the order of the roles.
pub fn handlers_of(
    alloc: Global,
    block: &[Line],
    exception: u32,
) -> Result<Vec<Option<Program>>, OutOfMemory> {
    let mut programs = Vec::new(alloc);
    for role in roles_of(block) {
        programs.push(handler_of(block, *role, exception))?;
    }
    Ok(programs)
}

/// The bodies of all roles.
fn bodies_of(alloc: Global, block: &[Line]) -> Result<Vec<Option<Program>>, OutOfMemory> {
    let mut programs = Vec::new(alloc);
    for role in roles_of(block) {
        programs.push(Some(body_of(block, *role)))?;
    }
    Ok(programs)
}

/// The lines of those that raise an exception.
fn lines_in(alloc: Global, sources: &[Source], exception: u32) -> Result<Vec<u32>, OutOfMemory> {
    let mut lines = Vec::new(alloc);
    for source in sources {
        if source.exception == exception && !lines.as_slice().contains(&source.line) {
            lines.push(source.line)?;
        }
    }
    lines.sort()?;
    Ok(lines)
}

/// Whether the exception of this number is among these.
fn is_among(exceptions: &[Exception], number: usize) -> bool
    ensures { result ≡ member number exceptions.now }
{
    exceptions
        .iter()
        .any(|exception| *exception as usize == number)
}

/// An action with its graphs and what can raise an exception in it.
#[derive(Drop)]
struct Inside<'a> {
    block: &'a [Line],
    internal: Exceptions,
    interface: Exceptions,
    sources: Vec<Source>,
    universal: u32,
}

impl<'a> Inside<'a> {
    /// Looks into the action that has these lines; of those above it this is known.
    fn of(
        alloc: Global,
        script: &Script,
        block: &'a [Line],
        known: &[Outlook],
    ) -> Result<Inside<'a>, OutOfMemory> {
        let universal = script.universal();
        let sources = sources_of(
            alloc,
            &Ground {
                block,
                known,
                universal,
            },
        )?;
        Ok(Inside {
            block,
            internal: Exceptions::of(alloc, script, internal_of(block))?,
            interface: Exceptions::of(alloc, script, interface_of(block))?,
            sources,
            universal,
        })
    }

    /// How a place ends whose roles go through these programs to the end.
    fn way_of(
        &self,
        alloc: Global,
        programs: &[Option<Program>],
        is_handler: bool,
    ) -> Result<Way, OutOfMemory> {
        way_of(alloc, &self.interface, programs, is_handler, self.universal)
    }

    /// What is told of an exception that can come or can't.
    fn row(&self, alloc: Global, exception: u32, can_come: bool) -> Result<Row, OutOfMemory>
        ensures { IfOk result (λ row. row.can_come ≡ can_come) }
    {
        let programs = handlers_of(alloc, self.block, exception)?;
        Ok(Row {
            exception,
            lines: lines_in(alloc, &self.sources, exception)?,
            can_come,
            way: self.way_of(alloc, &programs, true)?,
        })
    }

    /// What is told of all exceptions of the internal graph, of which these are never resolved.
    #[tactic(auto, using(crate::proofs::RuledOut::rows_more))]
    fn rows(&self, alloc: Global, nevers: &[Exception]) -> Result<Vec<Row>, OutOfMemory>
        ensures { IfOk result (λ rows. RulesOutOnly nevers.now rows.items) }
    {
        let mut rows = Vec::new(alloc);
        for (number, exception) in self.internal.names().iter().enumerate() {
            rows.push(self.row(alloc, *exception, !is_among(nevers, number))?)?;
        }
        Ok(rows)
    }

    /// Adds how a place ends in which nothing is raised, unless a body surely raises.
    fn add_calm(&self, alloc: Global, ways: &mut Vec<Way>) -> Result<(), OutOfMemory> {
        let bodies = bodies_of(alloc, self.block)?;
        if bodies.iter().flatten().any(|body| body.raises()) {
            return Ok(());
        }
        add_kept(ways, self.way_of(alloc, &bodies, false)?)
    }

    /// The ways in which a place can end that keeps what was put, with these rows.
    fn kept_ways(&self, alloc: Global, rows: &[Row]) -> Result<Vec<Way>, OutOfMemory> {
        let mut ways = Vec::new(alloc);
        self.add_calm(alloc, &mut ways)?;
        for row in rows {
            if row.can_come {
                add_kept(&mut ways, row.way)?;
            }
        }
        Ok(ways)
    }

    /// All ways in which a place can end, with these rows and these objects; whether it can end undone is known.
    fn ways(
        &self,
        alloc: Global,
        rows: &[Row],
        set_back: &[u32],
        undone: bool,
    ) -> Result<Vec<Way>, OutOfMemory>
        ensures { IfOk result (λ ways. IsTrue undone → IsTrue (list_any is_undone ways.items)) }
    {
        let mut ways = self.kept_ways(alloc, rows)?;
        if undone {
            ways.push(Way::Undone)?;
        }
        if undone && !set_back.is_empty() {
            ways.push(Way::Failed)?;
        }
        Ok(ways)
    }
}

/// Adds a way to end that keeps what was put, unless it is there.
fn add_kept(ways: &mut Vec<Way>, way: Way) -> Result<(), OutOfMemory> {
    if way.is_undone() {
        return Ok(());
    }
    add_way(ways, way)
}

/// What is told of an action, in which these are never resolved and which can end undone or can't; of those above it this is known.
fn looked_at(
    alloc: Global,
    script: &Script,
    action: u32,
    nevers: &[Exception],
    undone: bool,
    known: &[Outlook],
) -> Result<Outlook, OutOfMemory>
    ensures only { IfOk result (λ outlook. RulesOutOnly nevers.now outlook.rows.items) }
    ensures undone { IfOk result (λ outlook. IsTrue undone → IsTrue (ends_undone outlook)) }
{
    let block = action_block(script.lines(), action);
    let inside = Inside::of(alloc, script, block, known)?;
    let rows = inside.rows(alloc, nevers)?;
    let set_back = set_back_by(alloc, script.lines(), block)?;
    let ways = inside.ways(alloc, &rows, &set_back, undone)?;
    Ok(Outlook {
        action,
        set_back,
        named: named_in(alloc, block)?,
        rows,
        ways,
    })
}

/// Whether the action of this number can end undone, by a list; past its end nothing rules that out.
fn is_undone_in(undone: &[bool], number: usize) -> bool
    ensures { result ≡ slice_index_or undone.now number true }
{
    match undone.get(number) {
        Some(can) => *can,
        None => true,
    }
}

/// What is told of the action behind those of which this is known.
fn next_outlook(
    alloc: Global,
    script: &Script,
    action: u32,
    nevers: &Nevers,
    undone: &[bool],
    known: &[Outlook],
) -> Result<Outlook, OutOfMemory>
    ensures only { IfOk result (λ outlook.
        RulesOutOnly (slice_index_or nevers.now (length known.now) []) outlook.rows.items) }
    ensures undone { IfOk result (λ outlook.
        IsTrue (slice_index_or undone.now (length known.now) true) → IsTrue (ends_undone outlook)) }
{
    let can = is_undone_in(undone, known.len());
    match u32::try_from(known.len()) {
        Ok(number) => looked_at(alloc, script, action, nevers.of_action(number), can, known),
        Err(_) => looked_at(alloc, script, action, &[], can, known),
    }
}

/// The names of the actions of a script, in their order.
fn actions_in(alloc: Global, lines: &[Line]) -> Result<Vec<u32>, OutOfMemory> {
    let mut actions = Vec::new(alloc);
    for line in lines {
        if let Form::Action(name) = &line.form {
            actions.push(*name)?;
        }
    }
    Ok(actions)
}

/// What the text of a script that isn't refused tells of each of its actions, in their order. What it tells to be never resolved, and
/// which actions can't end undone, comes from the plan of the script.
pub fn outlooks(alloc: Global, script: &Script, plan: &Plan) -> Result<Vec<Outlook>, OutOfMemory>
    ensures never { IfOk result (λ outlooks. TellsNever plan.now outlooks.items) }
    ensures untried { IfOk result (λ outlooks. TellsUntried plan.now outlooks.items) }
{
    let nevers = never_resolved(alloc, plan)?;
    let undone = undone_by_plan(alloc, plan)?;
    let actions = actions_in(alloc, script.lines())?;
    let mut known = Vec::new(alloc);
    for action in &actions {
        let next = next_outlook(alloc, script, *action, &nevers, &undone, &known)?;
        known.push(next)?;
    }
    Ok(known)
}
