//! What a line of a nested use adds.

ghost use Rattle.std.specs.Prelude.{◌≡◌, ◌++◌, ◌∷◌, [], false, slice_index_or, slice_set, OnOk, IfOk};
ghost use Rattle.caa_base.specs.Written.Lists.{index_of};
ghost use Rattle.script_checker.specs.DeclaredSoFar.{begun_nest, inner, nest_of};
ghost use Rattle.script_checker.specs.InAction.{is_mapped, nest_said, with_nest, carried, alternated, twice_in_action, action_with};

use super::named::inner_number;
use crate::declared::Declared;
use crate::lookups::{action_of, count_exceptions, name_row, places_of};
use crate::open_action::{Carried, OpenAction, OpenNest};
use action_script::forms::form::Form;
use caa_base::written::entry::OutOfMemory;
use caa_base::written::name::Name;
use caa_base::written::rows::Rows;
use place_plan::drafts::draft_rows::NestRow;
use std::alloc::{AllocError, Global};
use std::mem::replace;

/// A list with one more number.
fn with_number(numbers: Rows<u32>, number: u32) -> Result<Rows<u32>, AllocError>
    ensures { IfOk result (λ all. all ≡ numbers ++ number ∷ []) }
{
    let mut numbers = numbers.into_vec();
    numbers.push(number)?;
    Ok(Rows::from_vec(numbers))
}

/// A list with another number at an index, where it has that index.
fn with_number_at(numbers: Rows<u32>, index: u32, number: u32) -> Rows<u32>
    ensures { result ≡ slice_set numbers index number }
{
    let mut numbers = numbers.into_vec();
    if (index as usize) < numbers.len() {
        numbers[index as usize] = number;
    }
    Rows::from_vec(numbers)
}

/// Carries this out of a nested use as an exception.
#[tactic(auto, using(crate::proofs::NumberTables::among_is_member))]
fn carry(
    alloc: Global,
    nest: &mut OpenNest,
    what: Carried,
    exception: u32,
) -> Result<(), AllocError>
    requires { is_mapped nest.old what ≡ false }
    ensures { OnOk result (nest.new ≡ carried nest.old what exception) }
{
    match what {
        Carried::Exception(lower) => {
            nest.mapped.push(lower)?;
            let maps = replace(&mut nest.row.maps, Rows::from_vec(Vec::new(alloc)));
            nest.row.maps = with_number_at(maps, lower, exception);
        }
        Carried::Undo => {
            nest.row.undo = exception;
            nest.has_undo = true;
        }
        Carried::Failure => {
            nest.row.failure = exception;
            nest.has_failure = true;
        }
    }
    Ok(())
}

/// Carries this out of a nested use as an exception of the action, which has this name.
#[tactic(auto, using(std::proofs::lemmas::List::set_past))]
pub(super) fn add_mapping(
    alloc: Global,
    declared: &Declared,
    action: &mut OpenAction,
    nest: u32,
    what: Carried,
    exception: u32,
) -> Result<(), OutOfMemory>
    requires { is_mapped (nest_of action.old nest) what ≡ false }
    ensures { OnOk result (
        action.new
        ≡ with_nest action.old nest (carried (nest_of action.old nest) what (index_of exception (inner declared.now action.old)))) }
{
    let exception = inner_number(declared, action, exception);
    let number = action.nest_names.find(nest) as usize;
    if let Some(nest) = action.nests.get_mut(number) {
        carry(alloc, nest, what, exception)?;
    }
    Ok(())
}

/// Adds an action to those of a nested use.
fn alternate(alloc: Global, nest: &mut OpenNest, action: u32) -> Result<(), AllocError>
    ensures { OnOk result (nest.new ≡ alternated nest.old action) }
{
    let actions = replace(&mut nest.row.actions, Rows::from_vec(Vec::new(alloc)));
    nest.row.actions = with_number(actions, action)?;
    Ok(())
}

/// Adds an action to those of the nested use of this name.
#[tactic(auto, using(std::proofs::lemmas::List::set_past))]
pub(super) fn add_alternate(
    alloc: Global,
    action: &mut OpenAction,
    nest: u32,
    nested: u32,
) -> Result<(), OutOfMemory>
    ensures { OnOk result (action.new ≡ with_nest action.old nest (alternated (nest_of action.old nest) nested)) }
{
    let number = action.nest_names.find(nest) as usize;
    if let Some(nest) = action.nests.get_mut(number) {
        alternate(alloc, nest, nested)?;
    }
    Ok(())
}

/// The row of the nested use that a line says.
fn nest_said(
    alloc: Global,
    declared: &Declared,
    names: &[Name],
    action: &OpenAction,
    nest: u32,
    nested: u32,
    roles: &[u32],
) -> Result<NestRow, OutOfMemory>
    ensures { IfOk result (λ row. row ≡ nest_said names.now declared.now action.now nest nested roles.now) }
{
    let interface = match action_of(declared, nested) {
        Some(row) => row.interface,
        None => 0,
    };
    let exceptions = count_exceptions(declared, interface);
    let number = declared.action_names.find(nested);
    Ok(NestRow {
        name: name_row(alloc, names, nest)?,
        actions: Rows::from_vec(vec![in alloc; number]?),
        roles: Rows::from_vec(places_of(alloc, &action.roles, roles)?),
        maps: Rows::from_vec(vec![in alloc; 0; exceptions as usize]?),
        undo: 0,
        failure: 0,
    })
}

/// Adds a nested use.
pub(super) fn add_nest(
    alloc: Global,
    declared: &Declared,
    names: &[Name],
    action: &mut OpenAction,
    nest: u32,
    nested: u32,
    roles: &[u32],
) -> Result<(), OutOfMemory>
    requires { twice_in_action declared.now action.old (Form.Nest nest nested roles.now) ≡ false }
    ensures { OnOk result (action.new ≡ action_with names.now declared.now action.old (Form.Nest nest nested roles.now)) }
{
    let row = nest_said(alloc, declared, names, action, nest, nested, roles)?;
    action.nest_names.push(nest)?;
    action.nests.push(OpenNest::begun(alloc, row))?;
    Ok(())
}
