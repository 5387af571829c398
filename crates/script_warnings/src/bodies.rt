//! What is told of the bodies of an action.

use crate::objects::Things;
use crate::rule::Rule;
use crate::subject::{Part, add_put};
use crate::tells::{Tells, digits_of};
use action_script::forms::form::Form;
use action_script::forms::script::Line;
use caa_base::written::entry::OutOfMemory;
use script_outcomes::outlooks::handlers_of;
use script_outcomes::programs::{Program, Said, body_of, handler_of};
use script_views::looking::{first_line, roles_of};
use script_views::page::Piece;
use std::alloc::Global;

/// Tells which steps stand behind a `raise`.
pub fn tell_behind_raise(tells: &mut Tells, part: &Part) -> Result<(), OutOfMemory> {
    for role in roles_of(part.block) {
        let body = body_of(part.block, *role);
        let reached = body.reached();
        let behind = body.steps.len().saturating_sub(reached.len());
        if let Some(last) = reached.last() {
            if behind > 0 {
                tells.say(
                    Rule::BehindRaise,
                    last.number,
                    &[
                        Piece::Named(part.outlook.action),
                        Piece::Text(": the role "),
                        Piece::Named(*role),
                        Piece::Text(" never gets past this raise; steps behind it: "),
                        Piece::Number(behind as u64),
                    ],
                )?;
            }
        }
    }
    Ok(())
}

/// Whether a role has a handler with a step.
fn has_handler_step(block: &[Line], role: u32) -> bool {
    for line in block {
        if let Form::Handler(who, exception) = &line.form {
            if *who == role {
                if let Some(handler) = handler_of(block, role, *exception) {
                    if !handler.steps.is_empty() {
                        return true;
                    }
                }
            }
        }
    }
    false
}

/// Tells which roles do nothing.
pub fn tell_idle_roles(tells: &mut Tells, part: &Part) -> Result<(), OutOfMemory> {
    for role in roles_of(part.block) {
        if body_of(part.block, *role).steps.is_empty() && !has_handler_step(part.block, *role) {
            tells.say(
                Rule::IdleRole,
                first_line(part.block),
                &[
                    Piece::Named(part.outlook.action),
                    Piece::Text(": the role "),
                    Piece::Named(*role),
                    Piece::Text(" does nothing; its participant waits here"),
                ],
            )?;
        }
    }
    Ok(())
}

/// The line that names what a refused put raises.
fn fault_line(block: &[Line]) -> Option<u32> {
    for line in block {
        if matches!(&line.form, Form::Fault(_)) {
            return Some(line.number);
        }
    }
    None
}

/// Tells that a refused put of any of several objects raises the same.
pub fn tell_one_fault(tells: &mut Tells, part: &Part) -> Result<(), OutOfMemory> {
    let things = part.puts(tells.alloc)?;
    if let Some(line) = fault_line(part.block) {
        if things.len() > 1 {
            tells.say(
                Rule::OneFaultForMany,
                line,
                &[
                    Piece::Named(part.outlook.action),
                    Piece::Text(": "),
                    Piece::Named(part.fault),
                    Piece::Text(" is a refused put of any of "),
                    Piece::List(&things),
                ],
            )?;
        }
    }
    Ok(())
}

// ---- objects that stay away

/// An object that was put away from its first value, and the value that it was put to.
#[derive(Clone, Copy)]
struct Away {
    object: u32,
    value: i64,
}

/// The value that an object was last put to, where it is away.
fn value_away(away: &[Away], object: u32) -> Option<i64> {
    let mut value = None;
    for one in away {
        if one.object == object {
            value = Some(one.value);
        }
    }
    value
}

/// The objects that are put by these handlers; none where a role has no handler, or one that asks for an undo.
fn put_by_keepers(
    alloc: Global,
    handlers: &[Option<Program>],
) -> Result<Option<Vec<u32>>, OutOfMemory> {
    let mut things = Vec::new(alloc);
    for handler in handlers {
        match handler {
            Some(handler) if handler.said != Said::Undo && !handler.raises() => {
                add_put(&mut things, handler.steps)?
            }
            _ => return Ok(None),
        }
    }
    Ok(Some(things))
}

/// Tells that an object stays away where this put of it is refused.
fn say_left_on(
    tells: &mut Tells,
    part: &Part,
    line: u32,
    object: u32,
    value: i64,
) -> Result<(), OutOfMemory> {
    let digits = digits_of(tells.alloc, value)?;
    tells.say(
        Rule::LeftOn,
        line,
        &[
            Piece::Named(part.outlook.action),
            Piece::Text(": where this put is refused, "),
            Piece::Named(object),
            Piece::Text(" stays at"),
            Piece::Word(&digits),
            Piece::Text(": the handlers for "),
            Piece::Named(part.fault),
            Piece::Text(" don't put it, and nothing is set back"),
        ],
    )
}

/// Tells which objects a role puts away and back stay away where the way back is refused, of those that no handler puts.
fn tell_left_by(
    tells: &mut Tells,
    part: &Part,
    things: &Things,
    role: u32,
    handled: &[u32],
) -> Result<(), OutOfMemory> {
    let mut away: Vec<Away> = Vec::new(tells.alloc);
    let mut told: Vec<u32> = Vec::new(tells.alloc);
    for line in body_of(part.block, role).reached() {
        if let Form::PutStep(object, value) = &line.form {
            if !things.is_first(*object, *value) {
                away.push(Away {
                    object: *object,
                    value: *value,
                })?;
            } else if let Some(value) = value_away(&away, *object) {
                if !handled.contains(object) && !told.as_slice().contains(object) {
                    told.push(*object)?;
                    say_left_on(tells, part, line.number, *object, value)?;
                }
            }
        }
    }
    Ok(())
}

/// Tells which objects stay away where the put that brings them back is refused, since all roles handle that and none of them puts it.
pub fn tell_left_on(tells: &mut Tells, part: &Part, things: &Things) -> Result<(), OutOfMemory> {
    let handlers = handlers_of(tells.alloc, part.block, part.fault)?;
    if let Some(handled) = put_by_keepers(tells.alloc, &handlers)? {
        for role in roles_of(part.block) {
            tell_left_by(tells, part, things, *role, &handled)?;
        }
    }
    Ok(())
}
