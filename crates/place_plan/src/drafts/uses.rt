ghost use Rattle.std.specs.Prelude.{◌≡◌, ◌≤◌, true, [], ◌∷◌, map, length, slice_index_or, MatchOption};
ghost use Rattle.std.specs.List.{list_all};
ghost use Rattle.caa_base.specs.Written.Limits.{most_roles};
ghost use Rattle.place_plan.specs.Plans.Places.{no_action};
ghost use Rattle.caa_base.specs.Written.Lists.{is_empty, member};
ghost use Rattle.place_plan.specs.Drafts.DraftRules.{all_below, nests_below, order_rule, fills, nest_fills, fill_rule, action_fits, entered_by, filled_by, same_numbers, roles_enter, enter_rule, holds_step, holds_role, holds_nest, holds_action, object_rule, handlers_differ, face_of, maps_all, handler_rule, has_one_face, face_rule};

use crate::drafts::differing::all_differ;
use crate::drafts::draft::Draft;
use crate::drafts::draft_rows::{ActionRow, HandlerRow, NestRow, Program, RoleRow, Step};
use crate::drafts::object_list::ObjectList;
use crate::drafts::ranges::{all_below, exceptions_of};
use crate::rules::member::is_member;
use caa_base::written::entry::Exception;

// ---- the order of actions

/// Whether the nested uses of an action name actions of smaller numbers than this alone.
fn nests_below(number: usize, action: &ActionRow) -> bool
    ensures { result ≡ list_all (λ nest. all_below number nest.actions) action.now.nests }
{
    action
        .nests
        .iter()
        .all(|nest| all_below(number, nest.actions.as_slice()))
}

/// Whether what an action nests was declared before it.
pub(crate) fn keeps_order(draft: &Draft) -> bool
    ensures { result ≡ order_rule draft.now }
{
    for (number, action) in draft.actions.as_slice().iter().enumerate() {
        if !nests_below(number, action) {
            return false;
        }
    }
    true
}

// ---- roles and who plays them

fn fills(draft: &Draft, action: u32, who: &[u32]) -> bool
    ensures { result ≡ fills draft.now action who.now }
{
    let roles = match draft.actions.as_slice().get(action as usize) {
        Some(row) => row.roles.len(),
        None => 0,
    };
    who.len() == roles && all_differ(who)
}

/// Whether the roles that a nested use names fill each of its actions.
fn nest_fills(draft: &Draft, nest: &NestRow) -> bool
    ensures { result ≡ nest_fills draft.now nest.now }
{
    let who = nest.roles.as_slice();
    nest.actions.iter().all(|action| fills(draft, *action, who))
}

fn nests_fill(draft: &Draft, action: &ActionRow) -> bool
    ensures { result ≡ list_all (nest_fills draft.now) action.now.nests }
{
    action.nests.iter().all(|nest| nest_fills(draft, nest))
}

fn all_nests_fill(draft: &Draft) -> bool
    ensures { result ≡ list_all (λ action. list_all (nest_fills draft.now) action.nests) draft.now.actions }
{
    draft.actions.iter().all(|action| nests_fill(draft, action))
}

fn plays_fill(draft: &Draft) -> bool
    ensures { result ≡ list_all (λ play. fills draft.now play.action play.who) draft.now.plays }
{
    draft
        .plays
        .iter()
        .all(|play| fills(draft, play.action, play.who.as_slice()))
}

/// Whether each nested use and each play has one for each role, and nobody twice.
pub(crate) fn keeps_fillings(draft: &Draft) -> bool
    ensures { result ≡ fill_rule draft.now }
{
    all_nests_fill(draft) && plays_fill(draft)
}

// ---- enter steps

/// The use that the first enter step of these names, and the steps after it.
fn next_enter(steps: &[Step]) -> Option<(u32, &[Step])>
    ensures { MatchOption result (entered_by steps.now ≡ []) (λ found. entered_by steps.now ≡ found.0 ∷ entered_by found.1.now) }
{
    for (index, step) in steps.iter().enumerate() {
        if let Step::Enter(number) = step {
            return Some((*number, &steps[index + 1..]));
        }
    }
    None
}

/// Whether these steps enter what the role of this number fills, in their order, and nothing else.
fn enters_its_uses(steps: &[Step], role: u32, nests: &[NestRow]) -> bool
    ensures { result ≡ same_numbers (entered_by steps.now) (filled_by role 0 nests.now) }
{
    let mut rest = steps;
    for (number, nest) in nests.iter().enumerate() {
        if is_member(role, nest.roles.as_slice()) {
            match next_enter(rest) {
                Some((entered, after)) if entered as usize == number => rest = after,
                _ => return false,
            }
        }
    }
    next_enter(rest).is_none()
}

/// Whether a handler enters no use.
fn enters_nothing(handler: &HandlerRow) -> bool
    ensures { result ≡ is_empty (entered_by handler.now.program.steps) }
{
    next_enter(handler.program.steps.as_slice()).is_none()
}

fn handlers_enter_nothing(role: &RoleRow) -> bool
    ensures { result ≡ list_all (λ h. is_empty (entered_by h.program.steps)) role.now.handlers }
{
    role.handlers.iter().all(|handler| enters_nothing(handler))
}

/// Whether each body goes once through all uses in which its role takes part, in their order, and handlers go through none.
pub fn roles_enter(nests: &[NestRow], roles: &[RoleRow]) -> bool
    requires { length roles.now ≤ most_roles }
    ensures { result ≡ roles_enter nests.now 0 roles.now }
{
    for (number, role) in roles.iter().enumerate() {
        let steps = role.body.steps.as_slice();
        if !enters_its_uses(steps, number as u32, nests) || !handlers_enter_nothing(role) {
            return false;
        }
    }
    true
}

/// Whether each body enters just the uses that its role fills, in order, and each handler none.
pub(crate) fn keeps_enters(draft: &Draft) -> bool
    requires { list_all action_fits draft.now.actions ≡ true }
    ensures { result ≡ enter_rule draft.now }
{
    for action in draft.actions.as_slice() {
        if !roles_enter(action.nests.as_slice(), action.roles.as_slice()) {
            return false;
        }
    }
    true
}

// ---- objects

fn holds_step(objects: &ObjectList, step: &Step) -> bool
    ensures { result ≡ holds_step objects.now step.now }
{
    match step {
        Step::Read(object) | Step::Put(object, _) | Step::Add(object, _) => {
            objects.contains(*object)
        }
        _ => true,
    }
}

fn holds_program(objects: &ObjectList, program: &Program) -> bool
    ensures { result ≡ list_all (holds_step objects.now) program.now.steps }
{
    program.steps.iter().all(|step| holds_step(objects, step))
}

fn holds_handlers(objects: &ObjectList, role: &RoleRow) -> bool
    ensures { result ≡ list_all (λ h. list_all (holds_step objects.now) h.program.steps) role.now.handlers }
{
    role.handlers
        .iter()
        .all(|handler| holds_program(objects, &handler.program))
}

fn holds_role(objects: &ObjectList, role: &RoleRow) -> bool
    ensures { result ≡ holds_role objects.now role.now }
{
    holds_program(objects, &role.body) && holds_handlers(objects, role)
}

fn holds_roles(action: &ActionRow) -> bool
    ensures { result ≡ list_all (holds_role action.now.objects) action.now.roles }
{
    action
        .roles
        .iter()
        .all(|role| holds_role(&action.objects, role))
}

/// Whether these objects are among the action's.
fn holds_objects(draft: &Draft, objects: &ObjectList, action: u32) -> bool
    ensures { result ≡ list_all (λ o. member o objects.now) (slice_index_or draft.now.actions action no_action).objects }
{
    match draft.actions.as_slice().get(action as usize) {
        Some(row) => objects.has_all(&row.objects),
        None => true,
    }
}

fn holds_nest(draft: &Draft, objects: &ObjectList, nest: &NestRow) -> bool
    ensures { result ≡ holds_nest draft.now objects.now nest.now }
{
    nest.actions
        .iter()
        .all(|action| holds_objects(draft, objects, *action))
}

fn holds_nests(draft: &Draft, action: &ActionRow) -> bool
    ensures { result ≡ list_all (holds_nest draft.now action.now.objects) action.now.nests }
{
    action
        .nests
        .iter()
        .all(|nest| holds_nest(draft, &action.objects, nest))
}

fn holds_action(draft: &Draft, action: &ActionRow) -> bool
    ensures { result ≡ holds_action draft.now action.now }
{
    holds_roles(action) && holds_nests(draft, action)
}

/// Whether each action owns all objects that its steps, and the actions nested in it, touch.
pub(crate) fn keeps_objects(draft: &Draft) -> bool
    ensures { result ≡ object_rule draft.now }
{
    draft
        .actions
        .iter()
        .all(|action| holds_action(draft, action))
}

// ---- handlers, and what uses tell outside

/// Whether no two of these handlers are for one exception.
fn handlers_differ(role: &RoleRow) -> bool
    ensures { result ≡ handlers_differ role.now }
{
    let handlers = role.handlers.as_slice();
    for (index, handler) in handlers.iter().enumerate() {
        if has_handler(handler.exception, &handlers[index + 1..]) {
            return false;
        }
    }
    true
}

/// Whether one of these handlers is for the exception.
fn has_handler(exception: Exception, handlers: &[HandlerRow]) -> bool
    ensures { result ≡ member exception (map (λ h. h.exception) handlers.now) }
{
    for handler in handlers {
        if handler.exception == exception {
            return true;
        }
    }
    false
}

fn all_handlers_differ(action: &ActionRow) -> bool
    ensures { result ≡ list_all handlers_differ action.now.roles }
{
    action.roles.iter().all(|role| handlers_differ(role))
}

/// The number of the interface graph of an action; 0 where there is no such action.
fn interface_of(draft: &Draft, action: u32) -> u32
    ensures { result ≡ (slice_index_or draft.now.actions action no_action).interface }
{
    match draft.actions.as_slice().get(action as usize) {
        Some(row) => row.interface,
        None => 0,
    }
}

/// The interface graph of the first action of a use.
fn face_of(draft: &Draft, nest: &NestRow) -> u32
    ensures { result ≡ face_of draft.now nest.now }
{
    match nest.actions.as_slice().first() {
        Some(action) => interface_of(draft, *action),
        None => interface_of(draft, 0),
    }
}

/// Whether a use maps as many exceptions as its actions can tell outside.
fn maps_all(draft: &Draft, nest: &NestRow) -> bool
    ensures { result ≡ maps_all draft.now nest.now }
{
    nest.maps.len() == exceptions_of(draft, face_of(draft, nest)) as usize
}

fn nests_map_all(draft: &Draft, action: &ActionRow) -> bool
    ensures { result ≡ list_all (maps_all draft.now) action.now.nests }
{
    action.nests.iter().all(|nest| maps_all(draft, nest))
}

/// Whether the handlers of each role differ, and each use maps all exceptions of its actions.
pub(crate) fn keeps_handlers(draft: &Draft) -> bool
    ensures { result ≡ handler_rule draft.now }
{
    draft.actions.iter().all(|action| all_handlers_differ(action) && nests_map_all(draft, action))
}

/// Whether all actions of a use have one interface graph.
fn has_one_face(draft: &Draft, nest: &NestRow) -> bool
    ensures { result ≡ has_one_face draft.now nest.now }
{
    let face = face_of(draft, nest);
    nest.actions
        .iter()
        .all(|action| interface_of(draft, *action) == face)
}

fn nests_have_one_face(draft: &Draft, action: &ActionRow) -> bool
    ensures { result ≡ list_all (has_one_face draft.now) action.now.nests }
{
    action.nests.iter().all(|nest| has_one_face(draft, nest))
}

/// Whether the actions of each use tell the same exceptions outside.
pub(crate) fn keeps_faces(draft: &Draft) -> bool
    ensures { result ≡ face_rule draft.now }
{
    draft
        .actions
        .iter()
        .all(|action| nests_have_one_face(draft, action))
}
