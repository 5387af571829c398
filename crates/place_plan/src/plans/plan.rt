ghost use Rattle.std.specs.Prelude.{◌≡◌, ◌<◌, ℕ, [], length, slice_index_or, Option, Some, None, IfOk, IfSome, unwrap_or, option_copied};
ghost use Rattle.caa_base.specs.Written.Lists.{index_of, last_or, next_after};
ghost use Rattle.place_plan.specs.Plans.Places.{place_at, around, action_at, role_at, role_row, role_of, roles_of, objects_of, uses, parent, alternates_of, child, next_alternate, nest_of, map_signal, top_of, is_within, fault_of, graph_at, internal_of, interface_of, exception_name, handler_in, initial_of, initials_of, no_object, no_action, no_role, no_nest};
ghost use Rattle.place_plan.specs.Plans.Bound.{bound};
ghost use Rattle.place_plan.specs.Plans.Unfolding.{plan_of};
ghost use Rattle.place_plan.specs.Drafts.DraftRules.{broken_rule};
ghost use Rattle.place_plan.specs.Plans.Closed.{AreSound, IsClosed};

use crate::drafts::close::broken_rule;
use crate::drafts::draft::Draft;
use crate::drafts::draft_rows::{
    AbortRow, ActionRow, GraphRow, HandlerRow, NestRow, ObjectRow, Program, RoleRow,
};
use crate::plans::places::Places;
use crate::plans::unfolded::unfolded;
use crate::plans::unfolding::unfold_plays;
use crate::rules::member::is_member;
use caa_base::written::entry::{Drill, Exception, Object, OutOfMemory, Participant, Place};
use caa_base::written::name::{Name, name_at};
use caa_base::written::rows::Rows;
use exception_graph::Graph;
use std::alloc::Global;
use std::marker::Model;
use thiserror::Error;

/// The actions, and the places into which their plays unfold.
///
/// A plan is made by `Plan::close` and `Plan::of_sound` alone: it is the unfolding of a draft that breaks no rule.
#[derive(Drop)]
pub struct Plan {
    participants: Rows<Name>,
    objects: Rows<ObjectRow>,
    graphs: Rows<GraphRow>,
    actions: Rows<ActionRow>,
    places: Places,
    plays: Rows<Place>,
    drills: Rows<Drill>,
    watches: Rows<Object>,
    bound: u64,
}

impl Model for Plan {
    ghost use Rattle.place_plan.specs.Plans.PlanValue.{Plan as PlanValue};
    ghost use Rattle.place_plan.specs.inner.PlanView.{plan_view, IsKept};

    ghost Value = { PlanValue };

    ghost view = { plan_view };

    ghost invariant = { IsKept };
}

/// Why a draft is no plan.
#[derive(Clone, Copy, Debug, PartialEq, Eq, Error)]
pub enum PlanError {
    /// The draft breaks this rule, and none of a smaller number.
    #[error("the draft breaks rule {rule}")]
    BadPart { rule: u32 },
    /// No memory was found.
    #[error("out of memory")]
    OutOfMemory,
}

/// The graphs of all rows are sound, as the type of a graph keeps it. A statement alone: the call does nothing else.
fn are_sound(rows: &[GraphRow])
    ensures { AreSound rows.now }
{
    for row in rows {
        row.graph.is_sound();
    }
}

/// Where a number stands first in a list, or the list's length.
fn index_of(number: u32, list: &[u32]) -> usize
    ensures { result ≡ index_of number list.now }
{
    for (index, item) in list.iter().enumerate() {
        if *item == number {
            return index;
        }
    }
    list.len()
}

/// The last number of a list, or this one where it is empty.
fn last_or(number: u32, list: &[u32]) -> u32
    ensures { result ≡ last_or number list.now }
{
    let mut last = number;
    for item in list {
        last = *item;
    }
    last
}

/// The number after the first one that is this, if there is one.
fn next_after(number: u32, list: &[u32]) -> Option<u32>
    ensures { result ≡ next_after number list.now }
{
    let mut found = false;
    for item in list {
        if found {
            return Some(*item);
        }
        found = *item == number;
    }
    None
}

/// The exception at an index, or 0 past the end.
fn exception_at(exceptions: &[Exception], index: u32) -> Exception
    ensures { result ≡ slice_index_or exceptions.now index 0 }
{
    match exceptions.get(index as usize) {
        Some(exception) => *exception,
        None => 0,
    }
}

/// The program of the handler for an exception.
fn handler_in(handlers: &[HandlerRow], exception: Exception) -> Option<&Program>
    ensures { option_copied result ≡ handler_in exception handlers.now }
{
    for handler in handlers {
        if handler.exception == exception {
            return Some(&handler.program);
        }
    }
    None
}

impl Plan {
    /// The plan into which a draft unfolds.
    ///
    /// `BadPart` names the least rule that the draft breaks. The rules, by number:
    ///
    /// 1. No list has more rows than its limit. No action is without roles, and no nested use without actions.
    /// 2. The first graph is the plain one, of a single exception. Every exception of a graph is named.
    /// 3. Each number names something that is there. An action lists its objects from the least number up.
    /// 4. What an action nests was declared before it.
    /// 5. Every role of what is nested or played is filled by somebody, and nobody fills two.
    /// 6. A body goes once through each use in which its role takes part, in the order of the uses; a handler through none.
    /// 7. An action owns all objects that its steps, and the actions nested in it, touch.
    /// 8. Actions are nested at most 8 deep.
    /// 9. A role handles an exception in one way, and whatever a nested use may tell is mapped.
    /// 10. It unfolds into no more than 65,536 places, and its bound is no more than 1,000,000.
    /// 11. All actions of a use tell the same exceptions outside.
    ///
    /// The places are counted before memory is taken for them, and so it is only asked for where the draft breaks no rule.
    pub fn close(alloc: Global, draft: Draft) -> Result<Plan, PlanError>
        ensures ok { IfOk result (λ plan. plan ≡ plan_of draft) }
        ensures whole { IfOk result (λ plan. broken_rule draft ≡ None) }
        ensures bad { (rule : ℕ) → result ≡ Err (PlanError.BadPart rule) → broken_rule draft ≡ Some rule }
        ensures memory { result ≡ Err PlanError.OutOfMemory → broken_rule draft ≡ None }
    {
        match broken_rule(&draft) {
            Some(rule) => Err(PlanError::BadPart { rule }),
            None => match Plan::of_sound(alloc, draft) {
                Ok(plan) => Ok(plan),
                Err(OutOfMemory) => Err(PlanError::OutOfMemory),
            },
        }
    }

    /// The plan into which a draft unfolds that is known to break no rule: `broken_rule` tells whether it does.
    pub fn of_sound(alloc: Global, draft: Draft) -> Result<Plan, OutOfMemory>
        requires { broken_rule draft ≡ None }
        ensures { IfOk result (λ plan. plan ≡ plan_of draft) }
    {
        let size = unfolded(&draft);
        are_sound(draft.graphs.as_slice());
        let Draft {
            participants,
            objects,
            graphs,
            actions,
            plays,
            drills,
            watches,
        } = draft;
        let (places, tops) = unfold_plays(alloc, actions.as_slice(), plays.as_slice())?;
        Ok(Plan {
            participants,
            objects,
            graphs,
            actions,
            places,
            plays: Rows::from_vec(tops),
            drills,
            watches,
            bound: size.bound,
        })
    }

    /// The plan is the unfolding of a draft that breaks no rule, and its graphs are sound. A statement alone: the call does
    /// nothing.
    pub fn is_closed(&self)
        ensures { IsClosed self.now }
    {
        let _ = &self.places;
    }

    /// How many entries a journal of the plan has at most.
    pub fn bound(&self) -> u64
        ensures { result ≡ bound self.now }
    {
        self.bound
    }

    /// How many participants there are.
    pub fn participants(&self) -> u32
        ensures { result ≡ length self.now.participants }
    {
        self.participants.len() as u32
    }

    /// How many objects there are.
    pub fn objects(&self) -> u32
        ensures { result ≡ length self.now.objects }
    {
        self.objects.len() as u32
    }

    /// How many graphs of exceptions there are.
    pub fn graphs(&self) -> u32
        ensures { result ≡ length self.now.graphs }
    {
        self.graphs.len() as u32
    }

    /// How many places there are.
    pub fn places(&self) -> u32
        ensures { result ≡ length self.now.places }
    {
        self.places.len() as u32
    }

    /// How many plays there are.
    pub fn plays(&self) -> u32
        ensures { result ≡ length self.now.plays }
    {
        self.plays.len() as u32
    }

    /// How many watches there are.
    pub fn watches(&self) -> u32
        ensures { result ≡ length self.now.watches }
    {
        self.watches.len() as u32
    }

    /// How many drills there are.
    pub fn drills(&self) -> u32
        ensures { result ≡ length self.now.drills }
    {
        self.drills.len() as u32
    }

    /// The name of a participant.
    pub fn participant_name(&self, by: Participant) -> &[u8]
        requires { by < length self.now.participants }
        ensures { result.now ≡ slice_index_or self.now.participants by [] }
    {
        self.participants.as_slice()[by as usize].bytes()
    }

    /// The name of an object.
    pub fn object_name(&self, object: Object) -> &[u8]
        requires { object < length self.now.objects }
        ensures { result.now ≡ (slice_index_or self.now.objects object no_object).name }
    {
        self.objects.as_slice()[object as usize].name.bytes()
    }

    /// The value of an object before the first entry.
    pub fn initial(&self, object: Object) -> i64
        requires { object < length self.now.objects }
        ensures { result ≡ initial_of self.now object }
    {
        self.objects.as_slice()[object as usize].initial
    }

    /// The value of each object before the first entry.
    pub fn initials(&self, alloc: Global) -> Result<Vec<i64>, OutOfMemory>
        ensures { IfOk result (λ values. values.items ≡ initials_of self.now) }
    {
        let mut values = Vec::new(alloc);
        for object in 0..self.objects() {
            values.push(self.initial(object))?;
        }
        Ok(values)
    }

    /// A put that the device is to refuse.
    pub fn drill(&self, index: u32) -> Drill
        requires { index < length self.now.drills }
        ensures { result ≡ slice_index_or self.now.drills index result }
    {
        self.drills.as_slice()[index as usize]
    }

    /// An object that is watched.
    pub fn watch(&self, index: u32) -> Object
        requires { index < length self.now.watches }
        ensures { result ≡ slice_index_or self.now.watches index 0 }
    {
        self.watches.as_slice()[index as usize]
    }

    /// The place of a play.
    pub fn play(&self, index: u32) -> Place
        requires { index < length self.now.plays }
        ensures { result ≡ slice_index_or self.now.plays index 0 }
    {
        self.plays.as_slice()[index as usize]
    }

    /// The places of all plays, in order.
    pub fn play_places(&self) -> &[Place]
        ensures { result.now ≡ self.now.plays }
    {
        self.plays.as_slice()
    }

    /// The rows of all actions, as they were drafted.
    pub fn action_rows(&self) -> &[ActionRow]
        ensures { result.now ≡ self.now.actions }
    {
        self.actions.as_slice()
    }

    /// The rows of all graphs, as they were drafted.
    pub fn graph_rows(&self) -> &[GraphRow]
        ensures { result.now ≡ self.now.graphs }
    {
        self.graphs.as_slice()
    }

    /// The places round this one, the innermost first; a play has none.
    pub fn around(&self, place: Place) -> &[Place]
        ensures { result.now ≡ around self.now place }
    {
        self.places.around(place)
    }

    /// The place right round this one; none for a play.
    pub fn parent(&self, place: Place) -> Option<Place>
        ensures { result ≡ parent self.now place }
    {
        self.places.around(place).first().copied()
    }

    /// Whether a place is the outer one, or inside it.
    pub(crate) fn is_within(&self, place: Place, outer: Place) -> bool
        ensures { result ≡ is_within self.now place outer }
    {
        place == outer || is_member(outer, self.places.around(place))
    }

    /// The play that a place is part of.
    pub fn top_of(&self, place: Place) -> Place
        ensures { result ≡ top_of self.now place }
    {
        last_or(place, self.places.around(place))
    }

    /// The number of the action that a place is an instance of.
    pub fn action_of(&self, place: Place) -> u32
        requires { place < length self.now.places }
        ensures { result ≡ (place_at self.now place).action }
    {
        match self.places.action(place) {
            Some(action) => action,
            None => unreachable!(),
        }
    }

    /// The action that a place is an instance of, if there is such a place.
    fn action_at(&self, place: Place) -> Option<&ActionRow>
        ensures { unwrap_or (option_copied result) no_action ≡ action_at self.now place }
    {
        let action = self.places.action(place)?;
        self.actions.as_slice().get(action as usize)
    }

    /// The name of the action that a place is an instance of.
    pub fn action_name(&self, place: Place) -> &[u8]
        ensures { result.now ≡ (action_at self.now place).name }
    {
        match self.action_at(place) {
            Some(action) => action.name.bytes(),
            None => &[],
        }
    }

    /// The participants that play the roles of a place, in the order of the roles.
    pub fn roles_of(&self, place: Place) -> &[Participant]
        ensures { result.now ≡ roles_of self.now place }
    {
        self.places.roles(place)
    }

    /// The number of the role that a participant plays in a place, if it has one there.
    pub fn role_of(&self, place: Place, by: Participant) -> Option<u32>
        ensures role { result ≡ role_of self.now place by }
        ensures known { IfSome result (λ role. role < length (action_at self.now place).roles) }
        ensures idle { result ≡ None → role_row self.now place by ≡ no_role }
    {
        let _ = &self.places;
        let roles = self.roles_of(place);
        if is_member(by, roles) {
            Some(index_of(by, roles) as u32)
        } else {
            None
        }
    }

    /// The objects that a place uses, in ascending order.
    pub fn objects_of(&self, place: Place) -> &[Object]
        ensures { result.now ≡ objects_of self.now place }
    {
        match self.action_at(place) {
            Some(action) => action.objects.as_slice(),
            None => &[],
        }
    }

    /// Whether a place uses an object.
    pub fn uses(&self, place: Place, object: Object) -> bool
        ensures { result ≡ uses self.now place object }
    {
        is_member(object, self.objects_of(place))
    }

    /// The role of this number in a place.
    fn role_at(&self, place: Place, role: u32) -> &RoleRow
        requires { role < length (action_at self.now place).roles }
        ensures { result.now ≡ role_at self.now place role }
    {
        match self.action_at(place) {
            Some(action) => &action.roles.as_slice()[role as usize],
            None => unreachable!(),
        }
    }

    /// The body of a role.
    pub fn body(&self, place: Place, role: u32) -> &Program
        requires { role < length (action_at self.now place).roles }
        ensures { result.now ≡ (role_at self.now place role).body }
    {
        &self.role_at(place, role).body
    }

    /// The handler of a role for an exception, if it has one.
    pub fn handler(&self, place: Place, role: u32, exception: Exception) -> Option<&Program>
        requires { role < length (action_at self.now place).roles }
        ensures { option_copied result ≡ handler_in exception (role_at self.now place role).handlers }
    {
        handler_in(self.role_at(place, role).handlers.as_slice(), exception)
    }

    /// The exception that a role names when its place is aborted.
    pub fn abort_row(&self, place: Place, role: u32) -> &AbortRow
        requires { role < length (action_at self.now place).roles }
        ensures { result.now ≡ (role_at self.now place role).abort }
    {
        &self.role_at(place, role).abort
    }

    /// What a refused put raises in a place.
    pub fn fault(&self, place: Place) -> Exception
        ensures { result ≡ fault_of self.now place }
    {
        match self.action_at(place) {
            Some(action) => action.fault,
            None => 0,
        }
    }

    /// The places of a nested use of the action of a place, one for each of its actions: the first is tried first.
    pub fn alternates_of(&self, place: Place, nest: u32) -> &[Place]
        ensures { result.now ≡ alternates_of self.now place nest }
    {
        match self.places.uses(place).get(nest as usize) {
            Some(places) => places.as_slice(),
            None => &[],
        }
    }

    /// How many actions a nested use of the action of a place has.
    pub fn alternates(&self, place: Place, nest: u32) -> u32
        ensures { result ≡ length (alternates_of self.now place nest) }
    {
        self.is_closed();
        self.alternates_of(place, nest).len() as u32
    }

    /// The place of this action of a nested use, counted from 0.
    pub fn child(&self, place: Place, nest: u32, alternate: u32) -> Place
        requires { alternate < length (alternates_of self.now place nest) }
        ensures { child self.now place nest alternate ≡ Some result }
    {
        self.alternates_of(place, nest)[alternate as usize]
    }

    /// The alternate that is tried after this place: a play has none, nor has the last of its use.
    pub fn next_alternate(&self, place: Place) -> Option<Place>
        ensures { result ≡ next_alternate self.now place }
    {
        let enclosing = self.parent(place)?;
        next_after(
            place,
            self.alternates_of(enclosing, self.places.nest(place)),
        )
    }

    /// The use of the enclosing action that a place is, if it is nested.
    fn nest_of(&self, place: Place) -> Option<&NestRow>
        ensures { unwrap_or (option_copied result) no_nest ≡ nest_of self.now place }
    {
        let enclosing = self.parent(place)?;
        let action = self.action_at(enclosing)?;
        action
            .nests
            .as_slice()
            .get(self.places.nest(place) as usize)
    }

    /// What an exception that a nested place tells outside is in the place round it; 0 for a play.
    pub fn map_signal(&self, place: Place, exception: Exception) -> Exception
        ensures { result ≡ map_signal self.now place exception }
    {
        match self.nest_of(place) {
            Some(nest) => exception_at(nest.maps.as_slice(), exception),
            None => 0,
        }
    }

    /// What the undo of a nested place is in the place round it; 0 for a play.
    pub fn map_undo(&self, place: Place) -> Exception
        ensures { result ≡ (nest_of self.now place).undo }
    {
        match self.nest_of(place) {
            Some(nest) => nest.undo,
            None => 0,
        }
    }

    /// What the failure of a nested place is in the place round it; 0 for a play.
    pub fn map_failure(&self, place: Place) -> Exception
        ensures { result ≡ (nest_of self.now place).failure }
    {
        match self.nest_of(place) {
            Some(nest) => nest.failure,
            None => 0,
        }
    }

    /// The number of the graph of the exceptions that are raised in a place.
    pub fn internal_number(&self, place: Place) -> u32
        ensures { result ≡ (action_at self.now place).internal }
    {
        match self.action_at(place) {
            Some(action) => action.internal,
            None => 0,
        }
    }

    /// The number of the graph of the exceptions that a place tells outside.
    pub fn interface_number(&self, place: Place) -> u32
        ensures { result ≡ (action_at self.now place).interface }
    {
        match self.action_at(place) {
            Some(action) => action.interface,
            None => 0,
        }
    }

    /// The graph of the exceptions that are raised in a place.
    pub fn internal(&self, place: Place) -> &Graph
        ensures { result.now ≡ internal_of self.now place }
    {
        &self.graphs.as_slice()[self.internal_number(place) as usize].graph
    }

    /// The graph of the exceptions that a place tells outside.
    pub fn interface(&self, place: Place) -> &Graph
        ensures { result.now ≡ interface_of self.now place }
    {
        &self.graphs.as_slice()[self.interface_number(place) as usize].graph
    }

    /// How many exceptions a graph has; none where there is no such graph.
    pub fn exceptions_of(&self, graph: u32) -> u32
        ensures { result ≡ (graph_at self.now graph).count }
    {
        match self.graphs.as_slice().get(graph as usize) {
            Some(row) => row.graph.count(),
            None => 0,
        }
    }

    /// The name of an exception of a graph; empty where there is none.
    pub fn exception_name(&self, graph: u32, exception: Exception) -> &[u8]
        ensures { result.now ≡ exception_name self.now graph exception }
    {
        match self.graphs.as_slice().get(graph as usize) {
            Some(row) => name_at(row.names.as_slice(), exception),
            None => &[],
        }
    }
}
