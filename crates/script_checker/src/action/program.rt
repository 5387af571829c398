//! What a line of a body or a handler adds.

ghost use Rattle.std.specs.Prelude.{◌≡◌, ◌++◌, ◌∷◌, [], Some, None, OnOk};
ghost use Rattle.script_checker.specs.InAction.{step_of, with_step, goes_on, closed, closed_if};
ghost use Rattle.script_checker.specs.After.{settled_block};

use super::named::inner_number;
use crate::declared::{Block, Declared};
use crate::open_action::{OpenAction, OpenProgram};
use action_script::forms::form::Form;
use caa_base::written::entry::Verdict;
use caa_base::written::rows::Rows;
use place_plan::drafts::draft_rows::{Program, Step};
use std::alloc::{AllocError, Global};
use std::mem::replace;

/// Whether a line is a step or a verdict line.
pub(crate) fn goes_on(form: &Form) -> bool
    ensures { result ≡ goes_on form.now }
{
    matches!(
        form,
        Form::ReadStep(_)
            | Form::PutStep(_, _)
            | Form::AddStep(_, _)
            | Form::WorkStep(_)
            | Form::CheckStep(_, _, _)
            | Form::RaiseStep(_)
            | Form::EnterStep(_)
            | Form::DoneLine
            | Form::SignalLine(_)
            | Form::UndoLine
    )
}

/// The step that a line says.
pub(super) fn step_of(declared: &Declared, action: &OpenAction, form: &Form) -> Option<Step>
    ensures { result ≡ step_of declared.now action.now form.now }
{
    match form {
        Form::ReadStep(object) => Some(Step::Read(declared.objects.find(*object))),
        Form::PutStep(object, value) => Some(Step::Put(declared.objects.find(*object), *value)),
        Form::AddStep(object, value) => Some(Step::Add(declared.objects.find(*object), *value)),
        Form::WorkStep(rounds) => Some(Step::Work(*rounds)),
        Form::CheckStep(test, value, exception) => Some(Step::Check {
            test: *test,
            value: *value,
            exception: inner_number(declared, action, *exception),
        }),
        Form::RaiseStep(exception) => {
            Some(Step::Raise(inner_number(declared, action, *exception)))
        }
        Form::EnterStep(nest) => Some(Step::Enter(action.nest_names.find(*nest))),
        Form::Participant(_)
        | Form::Object(_, _)
        | Form::Drill(_, _)
        | Form::Watch(_)
        | Form::Graph(_)
        | Form::Action(_)
        | Form::Play(_, _)
        | Form::Exception(_)
        | Form::Cover(_, _)
        | Form::End
        | Form::Internal(_)
        | Form::Interface(_)
        | Form::Fault(_)
        | Form::Uses(_)
        | Form::Roles(_)
        | Form::Nest(_, _, _)
        | Form::Map(_, _, _)
        | Form::MapUndo(_, _)
        | Form::MapFailure(_, _)
        | Form::Alternate(_, _)
        | Form::Abort(_, _)
        | Form::AbortTest(_, _, _, _)
        | Form::Body(_)
        | Form::Handler(_, _)
        | Form::DoneLine
        | Form::SignalLine(_)
        | Form::UndoLine => None,
    }
}

/// Adds a step to the body or handler that is being declared.
fn push_step(program: &mut OpenProgram, step: Step) -> Result<(), AllocError>
    ensures { OnOk result (program.new ≡ record program.old { steps = program.old.steps ++ step ∷ [] }) }
{
    program.steps.push(step)?;
    Ok(())
}

/// Adds the step that a line says, if it says one.
pub(super) fn add_step(action: &mut OpenAction, step: Option<Step>) -> Result<(), AllocError>
    ensures { OnOk result (action.new ≡ record action.old { program = with_step action.old.program step }) }
{
    match (&mut action.program, step) {
        (Some(program), Some(step)) => push_step(program, step),
        _ => Ok(()),
    }
}

/// Ends the body or handler that is being declared, if any, with this verdict.
pub(super) fn close(
    alloc: Global,
    action: &mut OpenAction,
    verdict: Verdict,
) -> Result<(), AllocError>
    ensures { OnOk result (action.new ≡ closed action.old verdict) }
{
    match replace(&mut action.program, None) {
        Some(program) => action.role_rows.set_program(
            alloc,
            program.role,
            program.exception,
            Program {
                steps: Rows::from_vec(program.steps.into_vec()),
                verdict,
            },
        ),
        None => Ok(()),
    }
}

/// Ends a body or a handler without a verdict line, where the line is neither a step nor a verdict line.
pub(crate) fn settle(alloc: Global, block: &mut Block, form: &Form) -> Result<(), AllocError>
    ensures { OnOk result (block.new ≡ settled_block (goes_on form.now) block.old) }
{
    if goes_on(form) {
        return Ok(());
    }
    match block {
        Block::Action(action) => close(alloc, action, Verdict::Done),
        _ => Ok(()),
    }
}
