//! What the names of a line mean where it stands.

ghost use Rattle.std.specs.Prelude.{◌≡◌, ◌≤◌, length, map, slice_index_or, IfOk, IfSome, IfNone};
ghost use Rattle.caa_base.specs.Written.Lists.{index_of};
ghost use Rattle.caa_base.specs.Written.Names.{name_at};
ghost use Rattle.place_plan.specs.Drafts.DraftRules.{all_differ};
ghost use Rattle.place_plan.specs.Plans.Places.{no_action};
ghost use Rattle.script_checker.specs.Numbers.{is_among, most_names, chosen_from};
ghost use Rattle.script_checker.specs.DeclaredSoFar.{exceptions_at, action_of};
ghost use Rattle.script_checker.specs.AtTop.{is_action, is_filled_by};

use crate::declared::Declared;
use crate::number_list::NumberList;
use caa_base::written::entry::OutOfMemory;
use caa_base::written::name::{Name, name_at};
use place_plan::drafts::differing;
use place_plan::drafts::draft_rows::ActionRow;
use std::alloc::{AllocError, Global};

/// So many numbers are told apart without a table, which takes less time.
const FEW_NUMBERS: usize = 16;

/// The name of this number, as a name of its own.
pub(crate) fn name_row(alloc: Global, names: &[Name], number: u32) -> Result<Name, OutOfMemory>
    ensures { IfOk result (λ name. name ≡ name_at names.now number) }
{
    Name::from_bytes(alloc, name_at(names, number))
}

/// Whether no number stands twice in a list. A long one is gone over once, with a table of those that were met.
#[tactic(auto, using(crate::proofs::NumberTables::next_again, crate::proofs::NumberTables::next_differs, crate::proofs::NumberTables::all_gone_over))]
pub(crate) fn all_differ(alloc: Global, list: &[u32]) -> Result<bool, AllocError>
    ensures { IfOk result (λ yes. yes ≡ all_differ list.now) }
{
    if list.len() <= FEW_NUMBERS {
        return Ok(differing::all_differ(list));
    }
    let mut met = NumberList::new(alloc);
    for number in list {
        if met.contains(*number) {
            return Ok(false);
        }
        met.push(*number)?;
    }
    Ok(true)
}

/// The numbers of some names among those.
pub(crate) fn places_of(
    alloc: Global,
    names: &NumberList,
    some: &[u32],
) -> Result<Vec<u32>, AllocError>
    ensures { IfOk result (λ places. places.items ≡ map (λ n. index_of n names.now) some.now) }
{
    some.iter().map(|name| names.find(*name)).collect(alloc)
}

/// The numbers of those names that are among some, in the order of the names.
pub(crate) fn chosen_from(
    alloc: Global,
    some: &NumberList,
    names: &[u32],
) -> Result<Vec<u32>, AllocError>
    requires { length names.now ≤ most_names }
    ensures { IfOk result (λ chosen. chosen.items ≡ chosen_from 0 some.now names.now) }
{
    let mut chosen = Vec::new(alloc);
    for (place, name) in names.iter().enumerate() {
        if some.contains(*name) {
            chosen.push(place as u32)?;
        }
    }
    Ok(chosen)
}

// ---- exceptions

/// Where an exception stands in a graph.
pub(crate) fn exception_in(declared: &Declared, graph: u32, name: u32) -> u32
    ensures { result ≡ index_of name (exceptions_at declared.now.graphs graph) }
{
    match declared.graphs.as_slice().get(graph as usize) {
        Some(graph) => graph.exceptions.find(name),
        None => 0,
    }
}

/// Whether a graph has an exception of this name.
pub(crate) fn has_exception(declared: &Declared, graph: u32, name: u32) -> bool
    ensures { result ≡ is_among (exceptions_at declared.now.graphs graph) name }
{
    match declared.graphs.as_slice().get(graph as usize) {
        Some(graph) => graph.exceptions.contains(name),
        None => false,
    }
}

/// How many exceptions a graph has.
pub(crate) fn count_exceptions(declared: &Declared, graph: u32) -> u32
    ensures { result ≡ length (exceptions_at declared.now.graphs graph) }
{
    match declared.graphs.as_slice().get(graph as usize) {
        Some(graph) => graph.exceptions.len(),
        None => 0,
    }
}

// ---- actions

/// Whether an action of this name has ended.
pub(crate) fn is_action(declared: &Declared, action: u32) -> bool
    ensures { result ≡ is_action declared.now action }
{
    (declared.action_names.find(action) as usize) < declared.actions.as_slice().len()
}

/// An action of this name.
pub fn action_of(declared: &Declared, name: u32) -> Option<&ActionRow>
    ensures found { IfSome result (λ row. row.now ≡ action_of declared.now name) }
    ensures missing { IfNone result (action_of declared.now name ≡ no_action) }
{
    let number = declared.action_names.find(name) as usize;
    declared.actions.as_slice().get(number)
}

/// Whether so many fill the roles of this action.
pub(crate) fn is_filled_by(declared: &Declared, action: u32, count: usize) -> bool
    ensures { result ≡ is_filled_by declared.now action count }
{
    match action_of(declared, action) {
        Some(row) => row.roles.len() == count,
        None => count == 0,
    }
}
