//! The actions of a script, each with its lines and its nested uses.

use action_script::forms::form::Form;
use action_script::forms::script::{Line, Script};
use caa_base::written::entry::OutOfMemory;
use caa_base::written::limits::MOST_ACTIONS;
use script_outcomes::outlooks::{Outlook, interface_of};
use script_outcomes::programs::body_of;
use script_outcomes::sources::{Use, fault_of, tried_in, uses_of};
use script_views::looking::{action_block, internal_of, roles_of};
use std::alloc::Global;

/// An action: what the text tells of it, its lines, and the nested uses that each of their roles comes to.
#[derive(Drop)]
pub struct Part<'a> {
    pub outlook: &'a Outlook,
    pub block: &'a [Line],
    pub uses: Vec<Use>,
    /// What a refused put raises.
    pub fault: u32,
    pub internal: Option<u32>,
    pub interface: Option<u32>,
}

/// The actions of a script, in their order.
pub fn parts_of<'a>(
    alloc: Global,
    script: &'a Script,
    outlooks: &'a [Outlook],
) -> Result<Vec<Part<'a>>, OutOfMemory> {
    let mut parts = Vec::new(alloc);
    for outlook in outlooks {
        let block = action_block(script.lines(), outlook.action);
        parts.push(Part {
            outlook,
            block,
            uses: uses_of(alloc, block)?,
            fault: fault_of(block, script.universal()),
            internal: internal_of(block),
            interface: interface_of(block),
        })?;
    }
    Ok(parts)
}

/// The action of this name.
pub fn part_of<'a, 'b>(parts: &'a [Part<'b>], action: u32) -> Option<&'a Part<'b>> {
    parts.iter().find(|part| part.outlook.action == action)
}

/// Adds a name, unless it is there.
pub fn add_name(names: &mut Vec<u32>, name: u32) -> Result<(), OutOfMemory> {
    if !names.as_slice().contains(&name) {
        names.push(name)?;
    }
    Ok(())
}

/// Whether two lists have a name in common.
pub fn meet(names: &[u32], others: &[u32]) -> bool {
    names.iter().any(|name| others.contains(name))
}

/// Adds the objects that these steps put.
pub fn add_put(things: &mut Vec<u32>, steps: &[Line]) -> Result<(), OutOfMemory> {
    for line in steps {
        if let Form::PutStep(object, _) | Form::AddStep(object, _) = &line.form {
            add_name(things, *object)?;
        }
    }
    Ok(())
}

impl<'a> Part<'a> {
    /// The objects that its bodies put.
    pub fn puts(&self, alloc: Global) -> Result<Vec<u32>, OutOfMemory> {
        let mut things = Vec::new(alloc);
        for role in roles_of(self.block) {
            add_put(&mut things, body_of(self.block, *role).reached())?;
        }
        Ok(things)
    }

    /// Adds the actions that are tried in its nested uses.
    fn add_tried(&self, outlooks: &[Outlook], actions: &mut Vec<u32>) -> Result<(), OutOfMemory> {
        for used in self.uses.iter() {
            let count = tried_in(outlooks, &used.actions);
            for action in used.actions.get(..count).unwrap_or(&[]) {
                add_name(actions, *action)?;
            }
        }
        Ok(())
    }
}

/// An action, and those that a place of it can reach.
pub fn reached_from(
    alloc: Global,
    outlooks: &[Outlook],
    parts: &[Part],
    action: u32,
) -> Result<Vec<u32>, OutOfMemory> {
    let mut actions = Vec::new(alloc);
    actions.push(action)?;
    for index in 0..MOST_ACTIONS {
        let Some(next) = actions.get(index).copied() else {
            break;
        };
        if let Some(part) = part_of(parts, next) {
            part.add_tried(outlooks, &mut actions)?;
        }
    }
    Ok(actions)
}
