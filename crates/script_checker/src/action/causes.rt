//! Whether a line in an action has a cause to be refused.

ghost use Rattle.std.specs.Prelude.{◌≡◌, nat_le, false, length, not, is_some, IfOk, Some, None};
ghost use Rattle.std.specs.List.{list_any, list_all};
ghost use Rattle.caa_base.specs.Written.Limits.{most_steps};
ghost use Rattle.caa_base.specs.Written.Lists.{member, index_of};
ghost use Rattle.place_plan.specs.Plans.Weights.{at};
ghost use Rattle.script_checker.specs.DeclaredSoFar.{inner, nest_of, role_of};
ghost use Rattle.script_checker.specs.InAction.{is_mapped, is_said, handles, twice_in_action, unfilled_in_action, filled_twice_in_action, holds, holds_all, not_held_in_action, is_deepest, too_deep_in_action, steps_of, step_of, past_limit_in_action, other_face_in_action};
ghost use Rattle.script_checker.specs.declared.declared.Block.TheVariants as block;
ghost use Rattle.script_checker.specs.inner.Chosen.{size_cause, part_cause, later_cause, is_end};

use super::named::{face_of, inner_number, nest_of, role_of};
use super::program::step_of;
use crate::check_error::CheckCause;
use crate::declared::Declared;
use crate::lookups::{action_of, all_differ, exception_in, is_filled_by};
use crate::open_action::{Carried, OpenAction, OpenNest};
use action_script::forms::form::Form;
use caa_base::written::limits::{MOST_ALTERNATES, MOST_DEPTH, MOST_NESTS, MOST_ROLES, MOST_STEPS};
use place_plan::drafts::draft_rows::{AbortRow, HandlerRow};
use place_plan::plans::tables::number_at;
use std::alloc::{AllocError, Global};

// ---- what was said already

/// Whether an outcome of a nested use was mapped.
#[tactic(auto, using(crate::proofs::NumberTables::among_is_member))]
fn is_mapped_in(nest: &OpenNest, what: Carried) -> bool
    ensures { result ≡ is_mapped nest.now what }
{
    match what {
        Carried::Exception(lower) => nest.mapped.contains(lower),
        Carried::Undo => nest.has_undo,
        Carried::Failure => nest.has_failure,
    }
}

/// The same for a nested use by its name.
fn is_mapped(action: &OpenAction, nest: u32, what: Carried) -> bool
    ensures { result ≡ is_mapped (nest_of action.now nest) what }
{
    match nest_of(action, nest) {
        Some(nest) => is_mapped_in(nest, what),
        None => false,
    }
}

/// Whether an abort row was said.
fn is_said(abort: &AbortRow) -> bool
    ensures { result ≡ is_said abort.now }
{
    match abort {
        AbortRow::Never => false,
        _ => true,
    }
}

/// Whether it was said what a role names where its action is aborted.
fn has_abort(action: &OpenAction, role: u32) -> bool
    ensures { result ≡ is_said (role_of action.now role).abort }
{
    match role_of(action, role) {
        Some(row) => is_said(&row.abort),
        None => false,
    }
}

/// Whether one of some handlers is for an exception.
fn handles(handlers: &[HandlerRow], exception: u32) -> bool
    ensures { result ≡ list_any (handles exception) handlers.now }
{
    handlers
        .iter()
        .any(|handler| handler.exception == exception)
}

/// Whether a role handles an exception.
fn has_handler(declared: &Declared, action: &OpenAction, role: u32, exception: u32) -> bool
    ensures { result ≡ list_any (handles (index_of exception (inner declared.now action.now))) (role_of action.now role).handlers }
{
    match role_of(action, role) {
        Some(row) => handles(
            row.handlers.as_slice(),
            inner_number(declared, action, exception),
        ),
        None => false,
    }
}

/// Whether the line says again what was said.
fn is_twice(
    alloc: Global,
    declared: &Declared,
    action: &OpenAction,
    form: &Form,
) -> Result<bool, AllocError>
    ensures { IfOk result (λ yes. yes ≡ twice_in_action declared.now action.now form.now) }
{
    let twice = match form {
        Form::Internal(_) => action.internal.is_some(),
        Form::Interface(_) => action.interface.is_some(),
        Form::Fault(_) => action.fault.is_some(),
        Form::Uses(objects) => !action.uses.is_empty() || !all_differ(alloc, objects.as_slice())?,
        Form::Roles(roles) => !action.roles.is_empty() || !all_differ(alloc, roles.as_slice())?,
        Form::Nest(nest, _, _) => action.nest_names.contains(*nest),
        Form::Map(nest, lower, _) => {
            let lower = exception_in(declared, face_of(declared, action, *nest), *lower);
            is_mapped(action, *nest, Carried::Exception(lower))
        }
        Form::MapUndo(nest, _) => is_mapped(action, *nest, Carried::Undo),
        Form::MapFailure(nest, _) => is_mapped(action, *nest, Carried::Failure),
        Form::Abort(role, _) | Form::AbortTest(role, _, _, _) => has_abort(action, *role),
        Form::Body(role) => action.bodies.as_slice().contains(&action.roles.find(*role)),
        Form::Handler(role, exception) => has_handler(declared, action, *role, *exception),
        _ => false,
    };
    Ok(twice)
}

// ---- roles and objects

/// How many roles fill those of a nested use.
fn count_fillings(action: &OpenAction, nest: u32) -> usize
    ensures { result ≡ length (nest_of action.now nest).row.roles }
{
    match nest_of(action, nest) {
        Some(nest) => nest.row.roles.len(),
        None => 0,
    }
}

/// Whether the line fills another number of roles than the action has.
fn is_unfilled(declared: &Declared, action: &OpenAction, form: &Form) -> bool
    requires { is_end form.now ≡ false }
    ensures { result ≡ unfilled_in_action declared.now action.now form.now }
{
    match form {
        Form::Nest(_, nested, roles) => !is_filled_by(declared, *nested, roles.len()),
        Form::Alternate(nest, nested) => {
            !is_filled_by(declared, *nested, count_fillings(action, *nest))
        }
        _ => false,
    }
}

/// Whether the line fills two roles by one.
fn fills_twice(alloc: Global, form: &Form) -> Result<bool, AllocError>
    ensures { IfOk result (λ yes. yes ≡ filled_twice_in_action form.now) }
{
    let Form::Nest(_, _, roles) = form else {
        return Ok(false);
    };
    Ok(!all_differ(alloc, roles.as_slice())?)
}

/// Whether the action uses an object, as far as its objects were said.
fn holds(declared: &Declared, action: &OpenAction, object: u32) -> bool
    ensures { result ≡ holds declared.now action.now object }
{
    action.uses.contains(declared.objects.find(object))
}

/// Whether the action uses all objects of another one.
fn holds_all(declared: &Declared, action: &OpenAction, other: u32) -> bool
    ensures { result ≡ holds_all declared.now action.now other }
{
    match action_of(declared, other) {
        Some(row) => action.uses.has_all(&row.objects),
        None => true,
    }
}

/// Whether the line touches an object that the action doesn't use.
fn is_not_held(declared: &Declared, action: &OpenAction, form: &Form) -> bool
    ensures { result ≡ not_held_in_action declared.now action.now form.now }
{
    match form {
        Form::Nest(_, nested, _) | Form::Alternate(_, nested) => {
            !holds_all(declared, action, *nested)
        }
        Form::ReadStep(object) | Form::PutStep(object, _) | Form::AddStep(object, _) => {
            !holds(declared, action, *object)
        }
        _ => false,
    }
}

// ---- depths, limits and faces

/// Whether an action is as deep as an action may be.
fn is_deepest(declared: &Declared, action: u32) -> bool
    ensures { result ≡ is_deepest declared.now action }
{
    let number = declared.action_names.find(action);
    number_at(declared.depths.as_slice(), number) >= MOST_DEPTH as u64
}

/// Whether the line nests an action that is as deep as an action may be.
fn is_too_deep(declared: &Declared, form: &Form) -> bool
    ensures { result ≡ too_deep_in_action declared.now form.now }
{
    matches!(
        form,
        Form::Nest(_, nested, _) | Form::Alternate(_, nested) if is_deepest(declared, *nested)
    )
}

/// How many actions a nested use has.
fn count_alternates(action: &OpenAction, nest: u32) -> usize
    ensures { result ≡ length (nest_of action.now nest).row.actions }
{
    match nest_of(action, nest) {
        Some(nest) => nest.row.actions.len(),
        None => 0,
    }
}

/// Whether the body or handler has as many steps as it may have.
fn is_full(action: &OpenAction) -> bool
    ensures { result ≡ nat_le most_steps (length (steps_of action.now.program)) }
{
    match &action.program {
        Some(program) => program.steps.as_slice().len() >= MOST_STEPS,
        None => false,
    }
}

/// Whether the line passes a limit.
fn is_past_limit(declared: &Declared, action: &OpenAction, form: &Form) -> bool
    ensures { result ≡ past_limit_in_action declared.now action.now form.now }
{
    match form {
        Form::Roles(roles) => roles.len() > MOST_ROLES,
        Form::Nest(_, _, _) => action.nests.as_slice().len() >= MOST_NESTS,
        Form::Alternate(nest, _) => count_alternates(action, *nest) >= MOST_ALTERNATES,
        _ => step_of(declared, action, form).is_some() && is_full(action),
    }
}

/// Whether the line adds an action to a nested use whose first action tells other exceptions outside.
fn has_other_face(declared: &Declared, action: &OpenAction, form: &Form) -> bool
    ensures { result ≡ other_face_in_action declared.now action.now form.now }
{
    let Form::Alternate(nest, nested) = form else {
        return false;
    };
    let graph = match action_of(declared, *nested) {
        Some(row) => row.interface,
        None => 0,
    };
    graph != face_of(declared, action, *nest)
}

// ---- the first cause

/// The first cause of a line among depths, limits and faces.
fn size_cause(declared: &Declared, action: &OpenAction, form: &Form) -> Option<CheckCause>
    ensures { result ≡ size_cause declared.now (block.Action action.now) form.now }
{
    if is_too_deep(declared, form) {
        Some(CheckCause::TooDeep)
    } else if is_past_limit(declared, action, form) {
        Some(CheckCause::Limit)
    } else if has_other_face(declared, action, form) {
        Some(CheckCause::AlternateFace)
    } else {
        None
    }
}

/// The first cause of a line among roles and objects, and those.
fn part_cause(
    alloc: Global,
    declared: &Declared,
    action: &OpenAction,
    form: &Form,
) -> Result<Option<CheckCause>, AllocError>
    requires { is_end form.now ≡ false }
    ensures { IfOk result (λ cause. cause ≡ part_cause declared.now (block.Action action.now) form.now) }
{
    if is_unfilled(declared, action, form) {
        Ok(Some(CheckCause::RoleUnfilled))
    } else if fills_twice(alloc, form)? {
        Ok(Some(CheckCause::RoleTwice))
    } else if is_not_held(declared, action, form) {
        Ok(Some(CheckCause::ObjectNotHeld))
    } else {
        Ok(size_cause(declared, action, form))
    }
}

/// The first cause of a line that doesn't end the action, where its names are declared.
pub(crate) fn later_cause(
    alloc: Global,
    declared: &Declared,
    action: &OpenAction,
    form: &Form,
) -> Result<Option<CheckCause>, AllocError>
    requires { is_end form.now ≡ false }
    ensures { IfOk result (λ cause. cause ≡ later_cause declared.now (block.Action action.now) form.now) }
{
    if is_twice(alloc, declared, action, form)? {
        Ok(Some(CheckCause::Twice))
    } else {
        part_cause(alloc, declared, action, form)
    }
}
