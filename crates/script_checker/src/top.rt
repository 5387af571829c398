//! What a line at the top, outside graphs and actions, is refused for, and what it declares.

ghost use Rattle.std.specs.Prelude.{◌≡◌, false, Some, None, OnOk, IfOk};
ghost use Rattle.std.specs.List.{list_any};
ghost use Rattle.caa_base.specs.Written.Lists.{index_of};
ghost use Rattle.script_checker.specs.AtTop.{twice_at_top, unfilled_at_top, filled_twice_at_top, places_with, past_limit_at_top, bound_with, past_bound_at_top, declared_with, block_begun};
ghost use Rattle.script_checker.specs.declared.declared.Block.TheVariants as block;
ghost use Rattle.script_checker.specs.inner.Chosen.{later_cause};

use crate::check_error::CheckCause;
use crate::declared::{Block, Declared};
use crate::lookups::{all_differ, is_filled_by, name_row, places_of};
use crate::open_action::OpenAction;
use crate::open_graph::OpenGraph;
use action_script::forms::form::Form;
use caa_base::written::entry::{Drill, OutOfMemory};
use caa_base::written::limits::{
    MOST_ACTIONS, MOST_DRILLS, MOST_ENTRIES, MOST_GRAPHS, MOST_OBJECTS, MOST_PARTICIPANTS,
    MOST_PLACES, MOST_WATCHES,
};
use caa_base::written::name::Name;
use caa_base::written::rows::Rows;
use place_plan::drafts::draft_rows::{ObjectRow, PlayRow};
use place_plan::plans::tables::{counted_sum, number_at};
use std::alloc::{AllocError, Global};

// ---- causes

/// Whether the line declares what was declared.
fn is_twice(declared: &Declared, form: &Form) -> bool
    ensures { result ≡ twice_at_top declared.now form.now }
{
    match form {
        Form::Participant(name) => declared.participants.contains(*name),
        Form::Object(name, _) => declared.objects.contains(*name),
        Form::Drill(object, nth) => declared
            .drills
            .contains(declared.objects.find(*object), *nth),
        Form::Watch(object) => declared
            .watches
            .as_slice()
            .contains(&declared.objects.find(*object)),
        Form::Graph(name) => declared.graph_names.contains(*name),
        Form::Action(name) => declared.action_names.contains(*name),
        _ => false,
    }
}

/// Whether the line fills another number of roles than the action has.
fn is_unfilled(declared: &Declared, form: &Form) -> bool
    ensures { result ≡ unfilled_at_top declared.now form.now }
{
    matches!(form, Form::Play(action, who) if !is_filled_by(declared, *action, who.len()))
}

/// Whether the line fills two roles by one participant.
fn fills_twice(alloc: Global, form: &Form) -> Result<bool, AllocError>
    ensures { IfOk result (λ yes. yes ≡ filled_twice_at_top form.now) }
{
    let Form::Play(_, who) = form else {
        return Ok(false);
    };
    Ok(!all_differ(alloc, who.as_slice())?)
}

/// The places of all plays with one more of an action.
fn places_with(declared: &Declared, action: u32) -> u64
    ensures { result ≡ places_with declared.now action }
{
    let more = number_at(
        declared.places.as_slice(),
        declared.action_names.find(action),
    );
    counted_sum(declared.all_places, more)
}

/// How many entries a journal of all plays and one more of an action may have.
fn bound_with(declared: &Declared, action: u32) -> u64
    ensures { result ≡ bound_with declared.now action }
{
    let more = number_at(
        declared.bounds.as_slice(),
        declared.action_names.find(action),
    );
    counted_sum(declared.whole_bound, more)
}

/// Whether the line passes a limit.
fn is_past_limit(declared: &Declared, form: &Form) -> bool
    ensures { result ≡ past_limit_at_top declared.now form.now }
{
    match form {
        Form::Participant(_) => declared.participants.len() as usize >= MOST_PARTICIPANTS,
        Form::Object(_, _) => declared.objects.len() as usize >= MOST_OBJECTS,
        Form::Drill(_, _) => declared.drills.len() >= MOST_DRILLS,
        Form::Watch(_) => declared.watches.as_slice().len() >= MOST_WATCHES,
        Form::Graph(_) => declared.graph_names.len() as usize >= MOST_GRAPHS,
        Form::Action(_) => declared.action_names.len() as usize >= MOST_ACTIONS,
        Form::Play(action, _) => places_with(declared, *action) > MOST_PLACES as u64,
        _ => false,
    }
}

/// Whether with the play a journal could have too many entries.
fn is_past_bound(declared: &Declared, form: &Form) -> bool
    ensures { result ≡ past_bound_at_top declared.now form.now }
{
    matches!(form, Form::Play(action, _) if bound_with(declared, *action) > MOST_ENTRIES)
}

/// The first cause of a line whose names are declared.
pub(crate) fn later_cause(
    alloc: Global,
    declared: &Declared,
    form: &Form,
) -> Result<Option<CheckCause>, AllocError>
    ensures { IfOk result (λ cause. cause ≡ later_cause declared.now block.Top form.now) }
{
    if is_twice(declared, form) {
        Ok(Some(CheckCause::Twice))
    } else if is_unfilled(declared, form) {
        Ok(Some(CheckCause::RoleUnfilled))
    } else if fills_twice(alloc, form)? {
        Ok(Some(CheckCause::RoleTwice))
    } else if is_past_limit(declared, form) {
        Ok(Some(CheckCause::Limit))
    } else if is_past_bound(declared, form) {
        Ok(Some(CheckCause::JournalBound))
    } else {
        Ok(None)
    }
}

// ---- what the line declares

fn add_participant(
    alloc: Global,
    declared: &mut Declared,
    names: &[Name],
    name: u32,
) -> Result<(), OutOfMemory>
    requires { twice_at_top declared.old (Form.Participant name) ≡ false }
    ensures { OnOk result (declared.new ≡ declared_with names.now declared.old (Form.Participant name)) }
{
    let row = name_row(alloc, names, name)?;
    declared.participants.push(name)?;
    declared.participant_rows.push(row)?;
    Ok(())
}

fn add_object(
    alloc: Global,
    declared: &mut Declared,
    names: &[Name],
    name: u32,
    initial: i64,
) -> Result<(), OutOfMemory>
    requires { twice_at_top declared.old (Form.Object name initial) ≡ false }
    ensures { OnOk result (declared.new ≡ declared_with names.now declared.old (Form.Object name initial)) }
{
    let row = name_row(alloc, names, name)?;
    declared.objects.push(name)?;
    declared.object_rows.push(ObjectRow { name: row, initial })?;
    Ok(())
}

fn add_play(
    alloc: Global,
    declared: &mut Declared,
    names: &[Name],
    action: u32,
    who: &[u32],
) -> Result<(), AllocError>
    ensures { OnOk result (declared.new ≡ declared_with names.now declared.old (Form.Play action who.now)) }
{
    let _ = names;
    let all_places = places_with(declared, action);
    let whole_bound = bound_with(declared, action);
    let row = PlayRow {
        action: declared.action_names.find(action),
        who: Rows::from_vec(places_of(alloc, &declared.participants, who)?),
    };
    declared.plays.push(row)?;
    declared.all_places = all_places;
    declared.whole_bound = whole_bound;
    Ok(())
}

/// Declares what a line says that isn't refused.
pub(crate) fn declare(
    alloc: Global,
    declared: &mut Declared,
    names: &[Name],
    form: &Form,
) -> Result<(), OutOfMemory>
    requires { twice_at_top declared.old form.now ≡ false }
    ensures { OnOk result (declared.new ≡ declared_with names.now declared.old form.now) }
{
    match form {
        Form::Participant(name) => add_participant(alloc, declared, names, *name)?,
        Form::Object(name, initial) => add_object(alloc, declared, names, *name, *initial)?,
        Form::Drill(object, nth) => {
            let object = declared.objects.find(*object);
            declared.drills.push(Drill { object, nth: *nth })?;
        }
        Form::Watch(object) => declared.watches.push(declared.objects.find(*object))?,
        Form::Graph(name) => declared.graph_names.push(*name)?,
        Form::Action(name) => declared.action_names.push(*name)?,
        Form::Play(action, who) => add_play(alloc, declared, names, *action, who.as_slice())?,
        Form::Exception(_)
        | Form::Cover(_, _)
        | Form::End
        | Form::Internal(_)
        | Form::Interface(_)
        | Form::Fault(_)
        | Form::Uses(_)
        | Form::Roles(_)
        | Form::Nest(_, _, _)
        | Form::Map(_, _, _)
        | Form::MapUndo(_, _)
        | Form::MapFailure(_, _)
        | Form::Alternate(_, _)
        | Form::Abort(_, _)
        | Form::AbortTest(_, _, _, _)
        | Form::Body(_)
        | Form::Handler(_, _)
        | Form::ReadStep(_)
        | Form::PutStep(_, _)
        | Form::AddStep(_, _)
        | Form::WorkStep(_)
        | Form::CheckStep(_, _, _)
        | Form::RaiseStep(_)
        | Form::EnterStep(_)
        | Form::DoneLine
        | Form::SignalLine(_)
        | Form::UndoLine => {}
    }
    Ok(())
}

/// Where the line after this one stands.
pub(crate) fn block_begun(
    alloc: Global,
    declared: &Declared,
    form: &Form,
) -> Result<Block, AllocError>
    ensures { IfOk result (λ block. block ≡ block_begun declared.now form.now) }
{
    if let Form::Graph(_) = form {
        Ok(Block::Graph(OpenGraph::begun(alloc, declared.universal)?))
    } else if let Form::Action(name) = form {
        Ok(Block::Action(OpenAction::begun(alloc, *name)))
    } else {
        Ok(Block::Top)
    }
}
