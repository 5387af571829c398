//! What can raise an exception in the places of an action.

use crate::outlooks::{Outlook, can_be_undone};
use crate::programs::body_of;
use crate::ways::Way;
use action_script::forms::form::Form;
use action_script::forms::script::Line;
use caa_base::written::entry::OutOfMemory;
use script_views::looking::{objects_of, roles_of};
use std::alloc::Global;

/// An exception that can be raised, and what raises it: a step, or a nested use that its roles leave.
#[derive(Clone, Copy, PartialEq, Eq)]
pub struct Source {
    pub exception: u32,
    /// The line of the step or of the nested use.
    pub line: u32,
    /// The nested use, where it is one.
    pub nest: Option<u32>,
}

/// A nested use: its line, its name, and the actions that are tried in it, one after the other.
#[derive(Drop)]
pub struct Use {
    pub line: u32,
    pub nest: u32,
    pub actions: Vec<u32>,
}

/// What the uses of an action are looked up in: its lines, what is known of the actions above, and the number of `universal`.
#[derive(Clone, Copy)]
pub struct Ground<'a> {
    pub block: &'a [Line],
    pub known: &'a [Outlook],
    pub universal: u32,
}

/// What is known of an action.
pub fn outlook_of(known: &[Outlook], action: u32) -> Option<&Outlook> {
    known.iter().find(|outlook| outlook.action == action)
}

/// Adds a source, unless it is there.
fn add(sources: &mut Vec<Source>, source: Source) -> Result<(), OutOfMemory> {
    if !sources.as_slice().contains(&source) {
        sources.push(source)?;
    }
    Ok(())
}

/// What a refused put raises.
pub fn fault_of(block: &[Line], universal: u32) -> u32 {
    for line in block {
        if let Form::Fault(exception) = &line.form {
            return *exception;
        }
    }
    universal
}

/// The exception that a step can raise.
fn raised_by(line: &Line, fault: u32) -> Option<u32> {
    match &line.form {
        Form::RaiseStep(exception) | Form::CheckStep(_, _, exception) => Some(*exception),
        Form::PutStep(_, _) | Form::AddStep(_, _) => Some(fault),
        _ => None,
    }
}

/// Adds what the steps of the body of a role can raise.
fn add_steps(sources: &mut Vec<Source>, ground: &Ground, role: u32) -> Result<(), OutOfMemory> {
    let fault = fault_of(ground.block, ground.universal);
    for line in body_of(ground.block, role).reached() {
        if let Some(exception) = raised_by(line, fault) {
            sources.push(Source {
                exception,
                line: line.number,
                nest: None,
            })?;
        }
    }
    Ok(())
}

/// What a nested use carries out where its last action is undone.
fn undo_of(ground: &Ground, nest: u32) -> u32 {
    for line in ground.block {
        if let Form::MapUndo(name, exception) = &line.form {
            if *name == nest {
                return *exception;
            }
        }
    }
    ground.universal
}

/// What a nested use carries out where an undo in it fails.
fn failure_of(ground: &Ground, nest: u32) -> u32 {
    for line in ground.block {
        if let Form::MapFailure(name, exception) = &line.form {
            if *name == nest {
                return *exception;
            }
        }
    }
    ground.universal
}

/// What a nested use carries out where its action tells this exception.
fn map_of(ground: &Ground, nest: u32, told: u32) -> u32 {
    for line in ground.block {
        if let Form::Map(name, lower, upper) = &line.form {
            if *name == nest && *lower == told {
                return *upper;
            }
        }
    }
    ground.universal
}

/// The action and the alternates of a nested use.
fn actions_of(
    alloc: Global,
    block: &[Line],
    nest: u32,
    first: u32,
) -> Result<Vec<u32>, OutOfMemory> {
    let mut actions = Vec::new(alloc);
    actions.push(first)?;
    for line in block {
        if let Form::Alternate(name, action) = &line.form {
            if *name == nest {
                actions.push(*action)?;
            }
        }
    }
    Ok(actions)
}

/// The nested uses that each of their roles comes to.
pub fn uses_of(alloc: Global, block: &[Line]) -> Result<Vec<Use>, OutOfMemory> {
    let mut uses = Vec::new(alloc);
    for line in block {
        if let Form::Nest(nest, action, roles) = &line.form {
            if roles
                .as_slice()
                .iter()
                .all(|role| body_of(block, *role).enters(*nest))
            {
                uses.push(Use {
                    line: line.number,
                    nest: *nest,
                    actions: actions_of(alloc, block, *nest, *action)?,
                })?;
            }
        }
    }
    Ok(uses)
}

/// How many actions of a use can be tried: each further one where the one before it can be undone.
pub fn tried_in(known: &[Outlook], actions: &[u32]) -> usize {
    for (index, action) in actions.iter().enumerate() {
        if !can_be_undone(known, *action) {
            return index.saturating_add(1);
        }
    }
    actions.len()
}

/// What a use carries out where an action of it ends so; none where nothing is carried out.
pub fn carried(ground: &Ground, nest: u32, way: Way, is_last: bool) -> Option<u32> {
    match way {
        Way::Commit => None,
        Way::Signal(told) => Some(map_of(ground, nest, told)),
        Way::Undone if is_last => Some(undo_of(ground, nest)),
        Way::Undone => None,
        Way::Failed => Some(failure_of(ground, nest)),
    }
}

/// Adds what a use can carry out that nothing outside gives up.
fn add_use(sources: &mut Vec<Source>, ground: &Ground, used: &Use) -> Result<(), OutOfMemory> {
    let count = tried_in(ground.known, &used.actions);
    for (index, action) in used.actions.iter().enumerate() {
        if let Some(outlook) = outlook_of(ground.known, *action) {
            let is_last = index.saturating_add(1) == used.actions.len();
            if index < count {
                add_ways(sources, ground, used, outlook, is_last)?;
            }
        }
    }
    Ok(())
}

/// Adds what a use can carry out by the ways in which one of its actions can end.
fn add_ways(
    sources: &mut Vec<Source>,
    ground: &Ground,
    used: &Use,
    outlook: &Outlook,
    is_last: bool,
) -> Result<(), OutOfMemory> {
    for way in outlook.ways.iter() {
        if let Some(exception) = carried(ground, used.nest, *way, is_last) {
            add(
                sources,
                Source {
                    exception,
                    line: used.line,
                    nest: Some(used.nest),
                },
            )?;
        }
    }
    Ok(())
}

/// Adds what a use can carry out that is given up, since something else was raised: what its roles name, or that an undo failed.
fn add_given_up(sources: &mut Vec<Source>, ground: &Ground, used: &Use) -> Result<(), OutOfMemory> {
    let count = tried_in(ground.known, &used.actions);
    for (index, action) in used.actions.iter().enumerate() {
        if let Some(outlook) = outlook_of(ground.known, *action) {
            if index < count {
                add_named(sources, ground, used, outlook)?;
            }
        }
    }
    Ok(())
}

/// Adds what the roles of an action name where it is given up, and that its undo can fail.
fn add_named(
    sources: &mut Vec<Source>,
    ground: &Ground,
    used: &Use,
    outlook: &Outlook,
) -> Result<(), OutOfMemory> {
    for told in outlook.named.iter() {
        add(
            sources,
            Source {
                exception: map_of(ground, used.nest, *told),
                line: used.line,
                nest: Some(used.nest),
            },
        )?;
    }
    if !outlook.set_back.is_empty() {
        add(
            sources,
            Source {
                exception: failure_of(ground, used.nest),
                line: used.line,
                nest: Some(used.nest),
            },
        )?;
    }
    Ok(())
}

/// Whether something can be raised beside what this use carries out.
fn has_other(sources: &[Source], nest: u32) -> bool {
    sources.iter().any(|source| source.nest != Some(nest))
}

/// What can raise an exception in the places of an action.
pub fn sources_of(alloc: Global, ground: &Ground) -> Result<Vec<Source>, OutOfMemory> {
    let mut sources = Vec::new(alloc);
    for role in roles_of(ground.block) {
        add_steps(&mut sources, ground, *role)?;
    }
    let uses = uses_of(alloc, ground.block)?;
    for used in uses.iter() {
        add_use(&mut sources, ground, used)?;
    }
    for used in uses.iter() {
        if has_other(&sources, used.nest) {
            add_given_up(&mut sources, ground, used)?;
        }
    }
    Ok(sources)
}

/// What the roles of an action name where it is given up.
pub fn named_in(alloc: Global, block: &[Line]) -> Result<Vec<u32>, OutOfMemory> {
    let mut named = Vec::new(alloc);
    for line in block {
        if let Form::Abort(_, exception) | Form::AbortTest(_, _, _, exception) = &line.form {
            named.push(*exception)?;
        }
    }
    Ok(named)
}

/// The objects of an action in the order in which they are set back: that of the lines that declare them.
pub fn set_back_by(alloc: Global, lines: &[Line], block: &[Line]) -> Result<Vec<u32>, OutOfMemory> {
    let mut objects = Vec::new(alloc);
    for line in lines {
        if let Form::Object(name, _) = &line.form {
            if objects_of(block).contains(name) {
                objects.push(*name)?;
            }
        }
    }
    Ok(objects)
}
