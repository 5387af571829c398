//! A search for a table of what can come, from below: what an action nests is declared before it. Nothing is promised of it, since
//! whatever it finds is checked.

ghost use Rattle.std.specs.Prelude.{◌≡◌};
ghost use Rattle.reach_tables.specs.ReachTable.{all_told};

use crate::checking::graph_of;
use crate::endings::{
    all_below, all_signals, answers, are_below, ask_for_undo, bodies_end, body_verdicts, can_fail,
    can_resolve, groups_of,
};
use crate::order::{leads_on, lists_pair};
use crate::sources::all_told;
use crate::steps::is_member;
use crate::table::{ReachRow, Told, UseOrder};
use crate::telling::{all_enter, has_beside, is_none, is_undone, mapped};
use caa_base::written::entry::{Exception, OutOfMemory, Verdict};
use caa_base::written::rows::Rows;
use exception_graph::Graph;
use place_plan::drafts::draft_rows::{AbortRow, ActionRow, NestRow, RoleRow};
use place_plan::plans::plan::Plan;
use std::alloc::Global;

/// Adds an exception, unless it is there.
fn add(exceptions: &mut Vec<Exception>, exception: Exception) -> Result<(), OutOfMemory> {
    if !is_member(exception, exceptions) {
        exceptions.push(exception)?;
    }
    Ok(())
}

/// Adds the pairs of which a role leads from the first use to one that has to be over before the second begins.
fn add_leading(
    pairs: &mut Vec<UseOrder>,
    action: &ActionRow,
    through: usize,
    second: usize,
) -> Result<(), OutOfMemory> {
    for first in 0..action.nests.len() {
        if !lists_pair(pairs, first, second) && leads_on(action, first, through) {
            pairs.push(UseOrder {
                first,
                through,
                second,
            })?;
        }
    }
    Ok(())
}

/// Which uses have to be over before a use begins, the nearest first.
fn before(alloc: Global, action: &ActionRow, second: usize) -> Result<Vec<UseOrder>, OutOfMemory> {
    let mut pairs = Vec::new(alloc);
    add_leading(&mut pairs, action, second, second)?;
    for index in 0..action.nests.len() {
        match pairs.get(index) {
            Some(pair) => {
                let through = pair.first;
                add_leading(&mut pairs, action, through, second)?;
            }
            None => return Ok(pairs),
        }
    }
    Ok(pairs)
}

/// Which uses of an action have to be over before which begin. A pair stands before the one that it rests on.
fn order(alloc: Global, action: &ActionRow) -> Result<Rows<UseOrder>, OutOfMemory> {
    let mut order = Vec::new(alloc);
    for second in 0..action.nests.len() {
        order.extend_from_slice(&before(alloc, action, second)?)?;
    }
    order.reverse();
    Ok(Rows::from_vec(order))
}

/// Adds what a use makes of the ways in which its alternate ends.
fn add_ends(
    raised: &mut Vec<Exception>,
    nest: &NestRow,
    is_last: bool,
    row: &ReachRow,
) -> Result<(), OutOfMemory> {
    for signal in row.signals.as_slice() {
        add(raised, mapped(nest, *signal))?;
    }
    if row.undone && is_last {
        add(raised, nest.undo)?;
    }
    if row.failed {
        add(raised, nest.failure)?;
    }
    Ok(())
}

/// The alternates of a use that can be tried: those up to the first that can't end undone.
fn tried<'a>(table: &[ReachRow], nest: &'a NestRow) -> &'a [u32] {
    let alternates = nest.actions.as_slice();
    for (index, action) in alternates.iter().enumerate() {
        if !is_undone(table, *action) {
            return &alternates[..index + 1];
        }
    }
    alternates
}

/// Adds what a use carries out where nothing round it gives it up.
fn add_carried(
    raised: &mut Vec<Exception>,
    table: &[ReachRow],
    nest: &NestRow,
) -> Result<(), OutOfMemory> {
    let count = nest.actions.len();
    for (index, action) in tried(table, nest).iter().enumerate() {
        if let Some(row) = table.get(*action as usize) {
            add_ends(raised, nest, index + 1 == count, row)?;
        }
    }
    Ok(())
}

/// Adds what these roles name where their place is given up, as the use maps it.
fn add_aborts(
    raised: &mut Vec<Exception>,
    nest: &NestRow,
    roles: &[RoleRow],
) -> Result<(), OutOfMemory> {
    for role in roles {
        match &role.abort {
            AbortRow::Never => {}
            AbortRow::Always(exception) => add(raised, mapped(nest, *exception))?,
            AbortRow::Where { exception, .. } => add(raised, mapped(nest, *exception))?,
        }
    }
    Ok(())
}

/// Adds that the undo of an alternate can fail where the use is given up.
fn add_failures(
    raised: &mut Vec<Exception>,
    plan: &Plan,
    table: &[ReachRow],
    nest: &NestRow,
) -> Result<(), OutOfMemory> {
    for number in tried(table, nest) {
        if let Some(action) = plan.action_rows().get(*number as usize) {
            if !is_none(action.objects.as_slice()) {
                add(raised, nest.failure)?;
            }
        }
    }
    Ok(())
}

/// Adds what the roles of a use name where one of its alternates is given up.
fn add_named(
    raised: &mut Vec<Exception>,
    plan: &Plan,
    table: &[ReachRow],
    nest: &NestRow,
) -> Result<(), OutOfMemory> {
    for number in tried(table, nest) {
        if let Some(action) = plan.action_rows().get(*number as usize) {
            add_aborts(raised, nest, action.roles.as_slice())?;
        }
    }
    Ok(())
}

/// What the uses of an action carry out, by their numbers.
#[derive(Drop)]
struct Carried {
    by_uses: Vec<Rows<Exception>>,
    given_up: Vec<Rows<Exception>>,
}

impl Carried {
    /// Adds what the next use carries out, which all its roles come to; `beside` says that something can be raised beside it.
    fn add_entered(
        &mut self,
        alloc: Global,
        plan: &Plan,
        table: &[ReachRow],
        nest: &NestRow,
        beside: bool,
    ) -> Result<(), OutOfMemory> {
        let mut raised = Vec::new(alloc);
        let mut named = Vec::new(alloc);
        add_carried(&mut raised, table, nest)?;
        if beside {
            add_failures(&mut raised, plan, table, nest)?;
            add_named(&mut named, plan, table, nest)?;
        }
        self.by_uses.push(Rows::from_vec(raised))?;
        self.given_up.push(Rows::from_vec(named))?;
        Ok(())
    }

    /// Adds that nothing is carried out of the next use.
    fn add_none(&mut self, alloc: Global) -> Result<(), OutOfMemory> {
        self.by_uses.push(Rows::from_vec(Vec::new(alloc)))?;
        self.given_up.push(Rows::from_vec(Vec::new(alloc)))?;
        Ok(())
    }
}

/// What the uses of an action carry out, where these are all that can raise something, as far as it is known.
fn carried_beside(
    alloc: Global,
    plan: &Plan,
    table: &[ReachRow],
    action: &ActionRow,
    row: &ReachRow,
    told: &[Told],
) -> Result<Carried, OutOfMemory>
    requires { told.now ≡ all_told action.now row.now }
{
    let mut carried = Carried {
        by_uses: Vec::new(alloc),
        given_up: Vec::new(alloc),
    };
    for (number, nest) in action.nests.as_slice().iter().enumerate() {
        if all_enter(action, number, nest) {
            let beside = has_beside(action, row, told, number);
            carried.add_entered(alloc, plan, table, nest, beside)?;
        } else {
            carried.add_none(alloc)?;
        }
    }
    Ok(carried)
}

/// Adds what the uses of an action carry out, by what the row tells so far, and gives how much that was.
fn add_round(
    row: &mut ReachRow,
    alloc: Global,
    plan: &Plan,
    table: &[ReachRow],
    action: &ActionRow,
) -> Result<usize, OutOfMemory> {
    let told = all_told(alloc, action, row)?;
    let carried = carried_beside(alloc, plan, table, action, row, &told)?;
    row.by_uses = Rows::from_vec(carried.by_uses);
    row.given_up = Rows::from_vec(carried.given_up);
    Ok(told.len())
}

/// Adds what the uses of an action carry out, until nothing more comes of it: where one can fail, another can be given up.
fn add_uses(
    row: &mut ReachRow,
    alloc: Global,
    plan: &Plan,
    table: &[ReachRow],
    action: &ActionRow,
) -> Result<(), OutOfMemory> {
    let mut count = add_round(row, alloc, plan, table, action)?;
    for _ in 0..=action.nests.len() {
        let more = add_round(row, alloc, plan, table, action)?;
        if more == count {
            return Ok(());
        }
        count = more;
    }
    Ok(())
}

/// How the places of an action can end.
#[derive(Drop)]
struct Ends {
    commits: bool,
    signals: Vec<Exception>,
    undone: bool,
}

impl Ends {
    /// Adds the end by these verdicts.
    fn add(
        &mut self,
        alloc: Global,
        interface: &Graph,
        verdicts: &[Verdict],
    ) -> Result<(), OutOfMemory> {
        if ask_for_undo(verdicts) {
            self.undone = true;
            return Ok(());
        }
        let signals = all_signals(alloc, verdicts)?;
        if signals.is_empty() {
            self.commits = true;
        } else if are_below(&signals, interface.count()) {
            add(&mut self.signals, interface.least(&signals))?;
        }
        Ok(())
    }

    /// Adds the ends of a place in which an exception is resolved.
    fn add_resolved(
        &mut self,
        alloc: Global,
        interface: &Graph,
        action: &ActionRow,
        exception: Exception,
    ) -> Result<(), OutOfMemory> {
        let verdicts = answers(alloc, action, exception)?;
        self.add(alloc, interface, &verdicts)?;
        if can_fail(action, exception) {
            self.undone = true;
        }
        Ok(())
    }

    /// Adds the ends of all places in which some of these groups are raised.
    fn add_hot(
        &mut self,
        alloc: Global,
        internal: &Graph,
        interface: &Graph,
        action: &ActionRow,
        groups: &[Rows<Exception>],
    ) -> Result<(), OutOfMemory> {
        if !all_below(groups, internal.count()) {
            return Ok(());
        }
        for exception in 0..internal.count() {
            if can_resolve(alloc, internal, groups, exception)? {
                self.add_resolved(alloc, interface, action, exception)?;
            }
        }
        Ok(())
    }
}

/// How the places of an action can end in which some of these groups are raised, or nothing.
fn ends_of(
    alloc: Global,
    plan: &Plan,
    action: &ActionRow,
    groups: &[Rows<Exception>],
) -> Result<Ends, OutOfMemory> {
    let mut ends = Ends {
        commits: false,
        signals: Vec::new(alloc),
        undone: false,
    };
    let Some(interface) = graph_of(plan, action.interface) else {
        return Ok(ends);
    };
    if bodies_end(action) {
        ends.add(alloc, interface, &body_verdicts(alloc, action)?)?;
    }
    if let Some(internal) = graph_of(plan, action.internal) {
        ends.add_hot(alloc, internal, interface, action, groups)?;
    }
    Ok(ends)
}

/// What can come in the places of an action, where the table tells it of all that is declared before.
fn row_for(
    alloc: Global,
    plan: &Plan,
    table: &[ReachRow],
    action: &ActionRow,
) -> Result<ReachRow, OutOfMemory> {
    let mut row = ReachRow {
        order: order(alloc, action)?,
        by_uses: Rows::from_vec(Vec::new(alloc)),
        given_up: Rows::from_vec(Vec::new(alloc)),
        commits: false,
        signals: Rows::from_vec(Vec::new(alloc)),
        undone: false,
        failed: false,
    };
    add_uses(&mut row, alloc, plan, table, action)?;
    let told = all_told(alloc, action, &row)?;
    let groups = groups_of(alloc, action, &row, &told)?;
    let ends = ends_of(alloc, plan, action, &groups)?;
    row.commits = ends.commits;
    row.signals = Rows::from_vec(ends.signals);
    row.undone = ends.undone;
    row.failed = ends.undone && !is_none(action.objects.as_slice());
    Ok(row)
}

/// A table of what can come in the places of each action.
pub fn search(alloc: Global, plan: &Plan) -> Result<Vec<ReachRow>, OutOfMemory> {
    let mut table = Vec::new(alloc);
    for action in plan.action_rows() {
        let row = row_for(alloc, plan, &table, action)?;
        table.push(row)?;
    }
    Ok(table)
}
