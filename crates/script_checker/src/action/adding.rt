//! What a line adds to the action that it stands in.

ghost use Rattle.std.specs.Prelude.{◌≡◌, true, false, OnOk};
ghost use Rattle.script_checker.specs.InAction.{twice_in_action, past_limit_in_action, action_with};
ghost use Rattle.script_checker.specs.inner.Chosen.{is_of_whole, is_of_parts};

use super::named::{face_of, inner_number, outer_number};
use super::nests::{add_alternate, add_mapping, add_nest};
use super::program::{add_step, close, step_of};
use super::roles::{add_abort, set_roles, set_uses};
use crate::declared::Declared;
use crate::lookups::exception_in;
use crate::open_action::{Carried, OpenAction, OpenProgram};
use action_script::forms::form::Form;
use caa_base::written::entry::{OutOfMemory, Verdict};
use caa_base::written::name::Name;
use place_plan::drafts::draft_rows::AbortRow;
use std::alloc::{AllocError, Global};

/// Whether a line is of an action as a whole.
fn is_of_whole(form: &Form) -> bool
    ensures { result ≡ is_of_whole form.now }
{
    matches!(
        form,
        Form::Internal(_) | Form::Interface(_) | Form::Fault(_) | Form::Uses(_) | Form::Roles(_)
    )
}

/// Adds what a line says of an action as a whole.
fn add_to_whole(
    alloc: Global,
    declared: &Declared,
    names: &[Name],
    action: &mut OpenAction,
    form: &Form,
) -> Result<(), OutOfMemory>
    requires some { is_of_whole form.now ≡ true }
    requires once { twice_in_action declared.now action.old form.now ≡ false }
    requires few { past_limit_in_action declared.now action.old form.now ≡ false }
    ensures { OnOk result (action.new ≡ action_with names.now declared.now action.old form.now) }
{
    match form {
        Form::Internal(graph) => {
            action.internal = Some(declared.graph_names.find(*graph) + 1);
        }
        Form::Interface(graph) => {
            action.interface = Some(declared.graph_names.find(*graph) + 1);
        }
        Form::Fault(exception) => {
            action.fault = Some(inner_number(declared, action, *exception));
        }
        Form::Uses(objects) => set_uses(alloc, declared, action, objects.as_slice())?,
        Form::Roles(roles) => set_roles(alloc, names, action, roles.as_slice())?,
        _ => {}
    }
    Ok(())
}

/// Whether a line is of a nested use or of one role.
fn is_of_parts(form: &Form) -> bool
    ensures { result ≡ is_of_parts form.now }
{
    matches!(
        form,
        Form::Nest(_, _, _)
            | Form::Map(_, _, _)
            | Form::MapUndo(_, _)
            | Form::MapFailure(_, _)
            | Form::Alternate(_, _)
            | Form::Abort(_, _)
            | Form::AbortTest(_, _, _, _)
    )
}

/// Adds what a line says of a nested use or of one role.
fn add_to_parts(
    alloc: Global,
    declared: &Declared,
    names: &[Name],
    action: &mut OpenAction,
    form: &Form,
) -> Result<(), OutOfMemory>
    requires some { is_of_parts form.now ≡ true }
    requires once { twice_in_action declared.now action.old form.now ≡ false }
    ensures { OnOk result (action.new ≡ action_with names.now declared.now action.old form.now) }
{
    match form {
        Form::Nest(nest, nested, roles) => add_nest(
            alloc,
            declared,
            names,
            action,
            *nest,
            *nested,
            roles.as_slice(),
        ),
        Form::Map(nest, lower, upper) => {
            let lower = exception_in(declared, face_of(declared, action, *nest), *lower);
            let what = Carried::Exception(lower);
            add_mapping(alloc, declared, action, *nest, what, *upper)
        }
        Form::MapUndo(nest, exception) => {
            add_mapping(alloc, declared, action, *nest, Carried::Undo, *exception)
        }
        Form::MapFailure(nest, exception) => {
            add_mapping(alloc, declared, action, *nest, Carried::Failure, *exception)
        }
        Form::Alternate(nest, nested) => {
            add_alternate(alloc, action, *nest, declared.action_names.find(*nested))
        }
        Form::Abort(role, exception) => {
            let exception = outer_number(declared, action, *exception);
            add_abort(action, *role, AbortRow::Always(exception));
            Ok(())
        }
        Form::AbortTest(role, test, value, exception) => {
            let abort = AbortRow::Where {
                test: *test,
                value: *value,
                exception: outer_number(declared, action, *exception),
            };
            add_abort(action, *role, abort);
            Ok(())
        }
        _ => Ok(()),
    }
}

/// Adds what a line says of bodies and handlers.
fn add_to_programs(
    alloc: Global,
    declared: &Declared,
    names: &[Name],
    action: &mut OpenAction,
    form: &Form,
) -> Result<(), AllocError>
    requires other { is_of_whole form.now ≡ false }
    requires another { is_of_parts form.now ≡ false }
    ensures { OnOk result (action.new ≡ action_with names.now declared.now action.old form.now) }
{
    let _ = names;
    match form {
        Form::Body(role) => {
            let role = action.roles.find(*role);
            action.bodies.push(role)?;
            action.program = Some(OpenProgram::begun(alloc, role, None));
            Ok(())
        }
        Form::Handler(role, exception) => {
            let role = action.roles.find(*role);
            let exception = inner_number(declared, action, *exception);
            action.program = Some(OpenProgram::begun(alloc, role, Some(exception)));
            Ok(())
        }
        Form::DoneLine => close(alloc, action, Verdict::Done),
        Form::SignalLine(exception) => {
            let exception = outer_number(declared, action, *exception);
            close(alloc, action, Verdict::Signal(exception))
        }
        Form::UndoLine => close(alloc, action, Verdict::Undo),
        _ => {
            let step = step_of(declared, action, form);
            add_step(action, step)
        }
    }
}

/// Adds what a line says that isn't refused and doesn't end the action.
pub(crate) fn add(
    alloc: Global,
    declared: &Declared,
    names: &[Name],
    action: &mut OpenAction,
    form: &Form,
) -> Result<(), OutOfMemory>
    requires once { twice_in_action declared.now action.old form.now ≡ false }
    requires few { past_limit_in_action declared.now action.old form.now ≡ false }
    ensures { OnOk result (action.new ≡ action_with names.now declared.now action.old form.now) }
{
    if is_of_whole(form) {
        add_to_whole(alloc, declared, names, action, form)
    } else if is_of_parts(form) {
        add_to_parts(alloc, declared, names, action, form)
    } else {
        Ok(add_to_programs(alloc, declared, names, action, form)?)
    }
}
