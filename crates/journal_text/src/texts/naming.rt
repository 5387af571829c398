ghost use Rattle.std.specs.Prelude.{◌≡◌, ◌<◌, ◌↔◌, length, IsTrue};
ghost use Rattle.std.specs.List.{list_all, range_with_len};
ghost use Rattle.place_plan.specs.Plans.OwnNames.{HasOwnNames};
ghost use Rattle.place_plan.specs.Plans.Places.{graph_at, exception_name};
ghost use Rattle.journal_text.specs.Texts.Text.{participant_name, object_name};
ghost use Rattle.journal_text.specs.Texts.Naming.{is_own_name, are_names, is_named_graph, is_own_watch, is_well_named};

use crate::looks::seen_line::{watch_in, watched_name};
use crate::texts::name_tokens::{exception_in, object_in, participant_in};
use caa_base::written::entry::{Exception, Object, Participant};
use caa_base::written::name::is_name;
use place_plan::plans::plan::Plan;

/// Whether the names of a plan tell its parts apart: participants, objects and the exceptions of each graph have names
/// that the grammar allows, different ones within each kind, and each object has one watch at most. Plans of scripts are so.
pub fn is_well_named(plan: &Plan) -> bool
    ensures test { result ≡ is_well_named plan.now }
    ensures own { IsTrue result ↔ HasOwnNames plan.now }
{
    plan.is_closed();
    tells_apart(plan)
}

/// The same, name by name.
fn tells_apart(plan: &Plan) -> bool
    ensures { result ≡ is_well_named plan.now }
{
    has_named_participants(plan)
        && has_named_objects(plan)
        && has_named_graphs(plan)
        && has_own_watches(plan)
}

/// Whether the participants have names that differ.
fn has_named_participants(plan: &Plan) -> bool
    ensures { result ≡ are_names (participant_name plan.now) (length plan.now.participants) }
{
    for by in 0..plan.participants() {
        if !is_own_participant(plan, by) {
            return false;
        }
    }
    true
}

/// Whether the name of a participant is a name, and none before it is the same.
fn is_own_participant(plan: &Plan, by: Participant) -> bool
    requires { by < length plan.now.participants }
    ensures { result ≡ is_own_name (participant_name plan.now) (length plan.now.participants) by }
{
    let name = plan.participant_name(by);
    is_name(name) && participant_in(plan, name) == by
}

/// Whether the objects have names that differ.
fn has_named_objects(plan: &Plan) -> bool
    ensures { result ≡ are_names (object_name plan.now) (length plan.now.objects) }
{
    for object in 0..plan.objects() {
        if !is_own_object(plan, object) {
            return false;
        }
    }
    true
}

/// Whether the name of an object is a name, and none before it is the same.
fn is_own_object(plan: &Plan, object: Object) -> bool
    requires { object < length plan.now.objects }
    ensures { result ≡ is_own_name (object_name plan.now) (length plan.now.objects) object }
{
    let name = plan.object_name(object);
    is_name(name) && object_in(plan, name) == object
}

/// Whether the exceptions of each graph have names that differ.
fn has_named_graphs(plan: &Plan) -> bool
    ensures { result ≡ list_all (is_named_graph plan.now) (range_with_len 0 (length plan.now.graphs)) }
{
    for graph in 0..plan.graphs() {
        if !is_named_graph(plan, graph) {
            return false;
        }
    }
    true
}

/// Whether the exceptions of a graph have names that differ.
fn is_named_graph(plan: &Plan, graph: u32) -> bool
    ensures { result ≡ is_named_graph plan.now graph }
{
    for exception in 0..plan.exceptions_of(graph) {
        if !is_own_exception(plan, graph, exception) {
            return false;
        }
    }
    true
}

/// Whether the name of an exception is a name, and none before it is the same.
fn is_own_exception(plan: &Plan, graph: u32, exception: Exception) -> bool
    ensures { result ≡ is_own_name (exception_name plan.now graph) (graph_at plan.now graph).count exception }
{
    let name = plan.exception_name(graph, exception);
    is_name(name) && exception_in(plan, graph, name) == exception
}

/// Whether the watches are of objects of the plan that differ.
fn has_own_watches(plan: &Plan) -> bool
    ensures { result ≡ list_all (is_own_watch plan.now) (range_with_len 0 (length plan.now.watches)) }
{
    for watch in 0..plan.watches() {
        if !is_own_watch(plan, watch) {
            return false;
        }
    }
    true
}

/// Whether a watch is of an object of the plan, and none before it is of the same.
fn is_own_watch(plan: &Plan, watch: u32) -> bool
    requires { watch < length plan.now.watches }
    ensures { result ≡ is_own_watch plan.now watch }
{
    plan.watch(watch) < plan.objects() && watch_in(plan, watched_name(plan, watch)) == watch
}
