//! What is resolved in the places of an action and how they end, and whether a table tells it.

ghost use Rattle.std.specs.Prelude.{◌≡◌, ℕ, ◌<◌, not, ◌&&◌, ◌||◌, List, length, IsTrue, IfOk, map, Some};
ghost use Rattle.std.specs.List.{All, filter, list_all, list_any, range_with_len};
ghost use Rattle.cover_table.specs.Cover.{covers};
ghost use Rattle.place_plan.specs.RulesOfJournals.Roles.{is_undo};
ghost use Rattle.journal_laws.specs.Due.{is_least};
ghost use Rattle.reach_laws.specs.ReachedSteps.{is_endless, answer_to, can_fail_at, ask_for_undo, all_signals};
ghost use Rattle.reach_laws.specs.CanCome.{bodies_end, body_verdicts, answers};
ghost use Rattle.reach_tables.specs.ReachTable.{all_told, group_of, groups_of, resolves, can_resolve, tells_signals, tells_verdicts, tells_resolved};

use crate::order::are_together;
use crate::steps::{answer_to, can_fail_at, is_endless, is_member};
use crate::table::{ReachRow, Told, UseOrder};
use caa_base::written::entry::{Exception, OutOfMemory, Verdict};
use caa_base::written::rows::Rows;
use exception_graph::Graph;
use place_plan::drafts::draft_rows::{ActionRow, RoleRow};
use std::alloc::Global;

/// Whether all these exceptions are below a number.
pub fn are_below(exceptions: &[Exception], count: u32) -> bool
    ensures { IsTrue result → All (λ x. x < count) exceptions.now }
{
    for exception in exceptions {
        if *exception >= count {
            return false;
        }
    }
    true
}

/// Whether all exceptions of these groups are below a number.
pub fn all_below(groups: &[Rows<Exception>], count: u32) -> bool
    ensures { IsTrue result → All (λ (group : List ℕ). All (λ x. x < count) group) groups.now }
{
    for group in groups {
        if !are_below(group.as_slice(), count) {
            return false;
        }
    }
    true
}

/// Those of these exceptions that another covers.
fn covered(
    alloc: Global,
    graph: &Graph,
    raised: &[Exception],
    exception: Exception,
) -> Result<Vec<Exception>, OutOfMemory>
    requires exception { exception < graph.now.count }
    requires raised { All (λ x. x < graph.now.count) raised.now }
    ensures { IfOk result (λ those. those.items ≡ filter (covers graph.now exception) raised.now) }
{
    let mut those = Vec::new(alloc);
    for one in raised {
        if graph.covers(exception, *one) {
            those.push(*one)?;
        }
    }
    Ok(those)
}

/// Whether an exception is the least that covers all of these.
fn is_least(graph: &Graph, set: &[Exception], exception: Exception) -> bool
    requires some { 0 < length set.now }
    requires in_range { All (λ x. x < graph.now.count) set.now }
    requires exception { exception < graph.now.count }
    ensures { result ≡ is_least graph.now set.now exception }
{
    graph.is_sound();
    graph.least(set) == exception
}

/// Whether an exception covers the first of a group, and is the least cover of those that it covers.
fn resolves(
    alloc: Global,
    graph: &Graph,
    group: &[Exception],
    exception: Exception,
) -> Result<bool, OutOfMemory>
    requires exception { exception < graph.now.count }
    requires group { All (λ x. x < graph.now.count) group.now }
    ensures { IfOk result (λ can. can ≡ resolves graph.now exception group.now) }
{
    let Some(first) = group.first() else {
        return Ok(false);
    };
    if !graph.covers(exception, *first) {
        return Ok(false);
    }
    let those = covered(alloc, graph, group, exception)?;
    Ok(is_least(graph, &those, exception))
}

/// Whether an exception can be resolved, where each of these groups can be raised in one place.
pub fn can_resolve(
    alloc: Global,
    graph: &Graph,
    groups: &[Rows<Exception>],
    exception: Exception,
) -> Result<bool, OutOfMemory>
    requires exception { exception < graph.now.count }
    requires groups { All (λ (group : List ℕ). All (λ x. x < graph.now.count) group) groups.now }
    ensures { IfOk result (λ can. can ≡ can_resolve graph.now groups.now exception) }
{
    for group in groups {
        if resolves(alloc, graph, group.as_slice(), exception)? {
            return Ok(true);
        }
    }
    Ok(false)
}

/// What one source raises, and all that can be raised in the same place.
fn group_of(
    alloc: Global,
    action: &ActionRow,
    order: &[UseOrder],
    told: &[Told],
    source: &Told,
) -> Result<Vec<Exception>, OutOfMemory>
    ensures { IfOk result (λ group. group.items ≡ group_of action.now order.now told.now source.now) }
{
    let mut group = Vec::new(alloc);
    group.push(source.exception)?;
    for other in told {
        if are_together(action, order, source.by, other.by) {
            group.push(other.exception)?;
        }
    }
    Ok(group)
}

/// The same of each source; `told` is all that can raise something in the places of the action.
pub fn groups_of(
    alloc: Global,
    action: &ActionRow,
    row: &ReachRow,
    told: &[Told],
) -> Result<Vec<Rows<Exception>>, OutOfMemory>
    requires { told.now ≡ all_told action.now row.now }
    ensures { IfOk result (λ groups. groups.items ≡ groups_of action.now row.now) }
{
    let order = row.order.as_slice();
    let mut groups = Vec::new(alloc);
    for source in told {
        let group = group_of(alloc, action, order, told, source)?;
        groups.push(Rows::from_vec(group))?;
    }
    Ok(groups)
}

/// Whether a verdict is undo.
fn is_undo(verdict: &Verdict) -> bool
    ensures { result ≡ is_undo (Some verdict.now) }
{
    match verdict {
        Verdict::Undo => true,
        Verdict::Done | Verdict::Signal(_) => false,
    }
}

/// Whether some verdict is undo.
pub fn ask_for_undo(verdicts: &[Verdict]) -> bool
    ensures { result ≡ ask_for_undo verdicts.now }
{
    verdicts.iter().any(|verdict| is_undo(verdict))
}

/// All that these verdicts signal.
pub fn all_signals(alloc: Global, verdicts: &[Verdict]) -> Result<Vec<Exception>, OutOfMemory>
    ensures { IfOk result (λ signals. signals.items ≡ all_signals verdicts.now) }
{
    let mut signals = Vec::new(alloc);
    for verdict in verdicts {
        if let Verdict::Signal(exception) = verdict {
            signals.push(*exception)?;
        }
    }
    Ok(signals)
}

/// What the roles say once an exception is resolved, unless a handler is broken off.
pub fn answers(
    alloc: Global,
    action: &ActionRow,
    exception: Exception,
) -> Result<Vec<Verdict>, OutOfMemory>
    ensures { IfOk result (λ verdicts. verdicts.items ≡ answers action.now exception) }
{
    let mut verdicts = Vec::new(alloc);
    for role in action.roles.as_slice() {
        verdicts.push(answer_to(exception, role))?;
    }
    Ok(verdicts)
}

/// What the roles say at the end of their bodies.
pub fn body_verdicts(alloc: Global, action: &ActionRow) -> Result<Vec<Verdict>, OutOfMemory>
    ensures { IfOk result (λ verdicts. verdicts.items ≡ body_verdicts action.now) }
{
    let mut verdicts = Vec::new(alloc);
    for role in action.roles.as_slice() {
        verdicts.push(role.body.verdict)?;
    }
    Ok(verdicts)
}

/// Whether a role comes to the end of its body where nothing is raised.
fn body_ends(role: &RoleRow) -> bool
    ensures { result ≡ not (is_endless role.now.body) }
{
    !is_endless(&role.body)
}

/// Whether each body has an end that its role comes to where nothing is raised.
pub fn bodies_end(action: &ActionRow) -> bool
    ensures { result ≡ bodies_end action.now }
{
    action.roles.iter().all(|role| body_ends(role))
}

/// Whether some handler for an exception can be broken off.
pub fn can_fail(action: &ActionRow, exception: Exception) -> bool
    ensures { result ≡ list_any (can_fail_at exception) action.now.roles }
{
    action.roles.iter().any(|role| can_fail_at(exception, role))
}

/// Whether an end by what is signalled is told.
fn tells_signals(graph: &Graph, row: &ReachRow, signals: &[Exception]) -> bool
    ensures { IsTrue result → IsTrue (tells_signals graph.now row.now signals.now) }
{
    if signals.is_empty() {
        return row.commits;
    }
    if !are_below(signals, graph.count()) {
        return false;
    }
    graph.is_sound();
    is_member(graph.least(signals), row.signals.as_slice())
}

/// Whether the end by these verdicts is told.
fn tells_verdicts(
    alloc: Global,
    graph: &Graph,
    row: &ReachRow,
    verdicts: &[Verdict],
) -> Result<bool, OutOfMemory>
    ensures { IfOk result (λ told. IsTrue told → IsTrue (tells_verdicts graph.now row.now verdicts.now)) }
{
    if ask_for_undo(verdicts) {
        return Ok(row.undone);
    }
    let signals = all_signals(alloc, verdicts)?;
    Ok(tells_signals(graph, row, &signals))
}

/// Whether the end of a place in which nothing is raised is told.
pub fn tells_calm(
    alloc: Global,
    interface: &Graph,
    action: &ActionRow,
    row: &ReachRow,
) -> Result<bool, OutOfMemory>
    ensures { IfOk result (λ told. IsTrue told →
        IsTrue (not (bodies_end action.now) || tells_verdicts interface.now row.now (body_verdicts action.now))) }
{
    if !bodies_end(action) {
        return Ok(true);
    }
    let verdicts = body_verdicts(alloc, action)?;
    tells_verdicts(alloc, interface, row, &verdicts)
}

/// Whether the ends of a place in which an exception is resolved are told.
fn tells_answers(
    alloc: Global,
    interface: &Graph,
    action: &ActionRow,
    row: &ReachRow,
    exception: Exception,
) -> Result<bool, OutOfMemory>
    ensures { IfOk result (λ told. IsTrue told →
        IsTrue (tells_verdicts interface.now row.now (answers action.now exception)
        && (not (list_any (can_fail_at exception) action.now.roles) || row.now.undone))) }
{
    let verdicts = answers(alloc, action, exception)?;
    let is_told = tells_verdicts(alloc, interface, row, &verdicts)?;
    Ok(is_told && (!can_fail(action, exception) || row.undone))
}

/// Whether how a place ends in which an exception is resolved is told, where it can be, since these groups can be raised.
fn tells_resolved(
    alloc: Global,
    internal: &Graph,
    interface: &Graph,
    action: &ActionRow,
    row: &ReachRow,
    groups: &[Rows<Exception>],
    exception: Exception,
) -> Result<bool, OutOfMemory>
    requires exception { exception < internal.now.count }
    requires groups { All (λ (group : List ℕ). All (λ x. x < internal.now.count) group) groups.now }
    ensures { IfOk result (λ told. IsTrue told →
        IsTrue (tells_resolved internal.now interface.now action.now row.now groups.now exception)) }
{
    if can_resolve(alloc, internal, groups, exception)? {
        tells_answers(alloc, interface, action, row, exception)
    } else {
        Ok(true)
    }
}

/// Whether this is told of each exception.
pub fn tells_all_resolved(
    alloc: Global,
    internal: &Graph,
    interface: &Graph,
    action: &ActionRow,
    row: &ReachRow,
    groups: &[Rows<Exception>],
) -> Result<bool, OutOfMemory>
    ensures { IfOk result (λ told. IsTrue told →
        IsTrue (list_all (tells_resolved internal.now interface.now action.now row.now groups.now)
        (range_with_len 0 internal.now.count))) }
{
    if !all_below(groups, internal.count()) {
        return Ok(false);
    }
    for exception in 0..internal.count() {
        if !tells_resolved(alloc, internal, interface, action, row, groups, exception)? {
            return Ok(false);
        }
    }
    Ok(true)
}
