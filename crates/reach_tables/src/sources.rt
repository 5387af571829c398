//! What the sources of an action can raise, by what is told of it.

ghost use Rattle.std.specs.Prelude.{◌≡◌, ◌++◌, IfOk};
ghost use Rattle.reach_tables.specs.ReachTable.{told_step, told_steps, told_roles, told_of, told_uses, told_given_up, all_told};

use crate::steps::reached;
use crate::table::{RaisedBy, ReachRow, Told};
use caa_base::written::entry::{Exception, OutOfMemory};
use caa_base::written::rows::Rows;
use place_plan::drafts::draft_rows::{ActionRow, RoleRow, Step};
use std::alloc::Global;

/// Adds what the step of this number of a role raises; `fault` is what a refused put raises.
fn add_step(
    told: &mut Vec<Told>,
    fault: Exception,
    role: usize,
    index: usize,
    step: &Step,
) -> Result<(), OutOfMemory>
    ensures { IfOk result (λ done. told.new.items ≡ told.old.items ++ told_step fault role index step.now) }
{
    let by = RaisedBy::Step(role, index);
    match step {
        Step::Put(_, _) | Step::Add(_, _) => {
            let exception = fault;
            told.push(Told { by, exception })?;
            Ok(())
        }
        Step::Check { exception, .. } => {
            let exception = *exception;
            told.push(Told { by, exception })?;
            Ok(())
        }
        Step::Raise(exception) => {
            let exception = *exception;
            told.push(Told { by, exception })?;
            Ok(())
        }
        Step::Read(_) | Step::Work(_) | Step::Enter(_) => Ok(()),
    }
}

/// Adds what these steps of a role raise.
fn add_steps(
    told: &mut Vec<Told>,
    fault: Exception,
    role: usize,
    steps: &[Step],
) -> Result<(), OutOfMemory>
    ensures { IfOk result (λ done. told.new.items ≡ told.old.items ++ told_steps fault role 0 steps.now) }
{
    for (index, step) in steps.iter().enumerate() {
        add_step(told, fault, role, index, step)?;
    }
    Ok(())
}

/// Adds what these roles raise, as far as somebody comes to their steps.
fn add_roles(told: &mut Vec<Told>, fault: Exception, roles: &[RoleRow]) -> Result<(), OutOfMemory>
    ensures { IfOk result (λ done. told.new.items ≡ told.old.items ++ told_roles fault 0 roles.now) }
{
    for (number, role) in roles.iter().enumerate() {
        add_steps(told, fault, number, reached(role.body.steps.as_slice()))?;
    }
    Ok(())
}

/// Adds what one source raises.
fn add_of(told: &mut Vec<Told>, by: RaisedBy, exceptions: &[Exception]) -> Result<(), OutOfMemory>
    ensures { IfOk result (λ done. told.new.items ≡ told.old.items ++ told_of by exceptions.now) }
{
    for exception in exceptions {
        told.push(Told {
            by,
            exception: *exception,
        })?;
    }
    Ok(())
}

/// Adds what the uses carry out, of which all roles carry the same.
fn add_uses(told: &mut Vec<Told>, uses: &[Rows<Exception>]) -> Result<(), OutOfMemory>
    ensures { IfOk result (λ done. told.new.items ≡ told.old.items ++ told_uses 0 uses.now) }
{
    for (number, carried) in uses.iter().enumerate() {
        add_of(told, RaisedBy::Use(number), carried.as_slice())?;
    }
    Ok(())
}

/// Adds what the roles of the uses carry out where they are given up.
fn add_given_up(told: &mut Vec<Told>, uses: &[Rows<Exception>]) -> Result<(), OutOfMemory>
    ensures { IfOk result (λ done. told.new.items ≡ told.old.items ++ told_given_up 0 uses.now) }
{
    for (number, carried) in uses.iter().enumerate() {
        add_of(told, RaisedBy::GivenUp(number), carried.as_slice())?;
    }
    Ok(())
}

/// All that can raise something in the places of an action.
pub fn all_told(alloc: Global, action: &ActionRow, row: &ReachRow) -> Result<Vec<Told>, OutOfMemory>
    ensures { IfOk result (λ told. told.items ≡ all_told action.now row.now) }
{
    let mut told = Vec::new(alloc);
    add_roles(&mut told, action.fault, action.roles.as_slice())?;
    add_uses(&mut told, row.by_uses.as_slice())?;
    add_given_up(&mut told, row.given_up.as_slice())?;
    Ok(told)
}
