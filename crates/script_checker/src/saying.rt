//! A line that ends no block: whether it is refused, and what it adds to the block that is open.

ghost use Rattle.std.specs.Prelude.{◌≡◌, ◌≢◌, false, OnOk, IfOk, IfErr};
ghost use Rattle.script_checker.specs.After.{said_at_top, with_said};
ghost use Rattle.script_checker.specs.AtTop.{twice_at_top};
ghost use Rattle.script_checker.specs.Causes.{is_unknown, is_twice, is_past_limit};
ghost use Rattle.script_checker.specs.Compiled.{IsLeast, HasNone};
ghost use Rattle.script_checker.specs.inner.Chosen.{later_cause, first_cause, is_end};
ghost use Rattle.script_checker.specs.declared.check_error.CheckCause.TheVariants as cause;

use crate::action::{adding, causes};
use crate::check_error::CheckCause;
use crate::declared::{Block, SoFar};
use crate::{graph, top};
use action_script::forms::form::Form;
use action_script::forms::uses::are_declared;
use caa_base::written::entry::OutOfMemory;
use caa_base::written::name::Name;
use std::alloc::{AllocError, Global};

/// The first cause of a line whose names are declared.
fn later_cause(alloc: Global, so_far: &SoFar, form: &Form) -> Result<Option<CheckCause>, AllocError>
    requires { is_end form.now ≡ false }
    ensures { IfOk result (λ cause. cause ≡ later_cause so_far.now.declared so_far.now.block form.now) }
{
    let declared = &so_far.declared;
    match &so_far.block {
        Block::Top => top::later_cause(alloc, declared, form),
        Block::Graph(open) => Ok(graph::later_cause(open, form)),
        Block::Action(open) => causes::later_cause(alloc, declared, open, form),
    }
}

/// The first cause of a line.
fn first_cause(alloc: Global, so_far: &SoFar, form: &Form) -> Result<Option<CheckCause>, AllocError>
    requires { is_end form.now ≡ false }
    ensures { IfOk result (λ cause. cause ≡ first_cause so_far.now.declared so_far.now.block form.now) }
{
    if !are_declared(so_far, form) {
        return Ok(Some(CheckCause::Unknown));
    }
    later_cause(alloc, so_far, form)
}

/// Adds what a line at the top says that isn't refused, and begins the block that it begins.
fn add_at_top(
    alloc: Global,
    so_far: &mut SoFar,
    names: &[Name],
    form: &Form,
) -> Result<(), OutOfMemory>
    requires { twice_at_top so_far.old.declared form.now ≡ false }
    ensures { OnOk result (so_far.new ≡ said_at_top names.now so_far.old.declared form.now) }
{
    let block = top::block_begun(alloc, &so_far.declared, form)?;
    top::declare(alloc, &mut so_far.declared, names, form)?;
    so_far.block = block;
    Ok(())
}

/// Adds what a line says that isn't refused.
fn add(alloc: Global, so_far: &mut SoFar, names: &[Name], form: &Form) -> Result<(), OutOfMemory>
    requires same { is_end form.now ≡ false }
    requires known { is_unknown so_far.old.declared so_far.old.block form.now ≡ false }
    requires once { is_twice so_far.old.declared so_far.old.block form.now ≡ false }
    requires few { is_past_limit so_far.old.declared so_far.old.block form.now ≡ false }
    ensures { OnOk result (so_far.new ≡ with_said names.now so_far.old form.now) }
{
    match &mut so_far.block {
        Block::Top => add_at_top(alloc, so_far, names, form),
        Block::Graph(open) => Ok(graph::add(&so_far.declared, open, form)?),
        Block::Action(open) => adding::add(alloc, &so_far.declared, names, open, form),
    }
}

/// Takes a line that ends no block, where it has no cause to be refused.
pub(crate) fn say(
    alloc: Global,
    so_far: &mut SoFar,
    names: &[Name],
    form: &Form,
) -> Result<(), CheckCause>
    requires { is_end form.now ≡ false }
    ensures accepted { OnOk result (HasNone so_far.old form.now) }
    ensures taken { OnOk result (so_far.new ≡ with_said names.now so_far.old form.now) }
    ensures refused { IfErr result (λ c. c ≢ cause.OutOfMemory → IsLeast so_far.old form.now c) }
{
    let found = first_cause(alloc, so_far, form)?;
    if let Some(cause) = found {
        return Err(cause);
    }
    add(alloc, so_far, names, form)?;
    Ok(())
}
