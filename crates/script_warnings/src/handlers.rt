//! What is told of the handlers of an action.

ghost use Rattle.std.specs.Prelude.{◌≡◌, true};
ghost use Rattle.std.specs.List.{list_any};
ghost use Rattle.script_warnings.specs.Never.{can_come_in, handles, is_never_begun};

use crate::rule::Rule;
use crate::subject::Part;
use crate::tells::Tells;
use action_script::forms::form::Form;
use action_script::forms::script::Line;
use caa_base::written::entry::OutOfMemory;
use script_outcomes::outlooks::{Row, handlers_of};
use script_outcomes::programs::{Program, Said, handler_of};
use script_views::looking::{first_line, roles_of};
use script_views::page::Piece;
use std::alloc::Global;

/// The roles that have a handler for an exception, in their order.
fn roles_handling(alloc: Global, block: &[Line], exception: u32) -> Result<Vec<u32>, OutOfMemory> {
    let mut roles = Vec::new(alloc);
    for role in roles_of(block) {
        if handler_of(block, *role, exception).is_some() {
            roles.push(*role)?;
        }
    }
    Ok(roles)
}

/// Whether a handler for an exception begins on a line.
fn handles(line: &Line, exception: u32) -> bool
    ensures { result ≡ handles exception line.now.form }
{
    matches!(&line.form, Form::Handler(_, what) if *what == exception)
}

/// Whether some role has a handler for an exception.
fn has_handler(block: &[Line], exception: u32) -> bool
    ensures { result ≡ list_any (λ l. handles exception l.form) block.now }
{
    block.iter().any(|line| handles(line, exception))
}

/// The first line at which a handler for an exception begins, or that of the action.
fn first_handler(block: &[Line], exception: u32) -> u32 {
    match block.iter().find(|line| handles(line, exception)) {
        Some(line) => line.number,
        None => first_line(block),
    }
}

/// Whether an action has handlers for an exception that can't be resolved.
fn is_never_begun(block: &[Line], row: &Row) -> bool
    ensures { result ≡ is_never_begun block.now row.now }
{
    !row.can_come && has_handler(block, row.exception)
}

/// Tells that there are handlers for an exception that can't be resolved.
fn say_never_begun(tells: &mut Tells, part: &Part, row: &Row) -> Result<(), OutOfMemory>
    requires { is_never_begun part.now.block.now row.now ≡ true }
{
    let roles = roles_handling(tells.alloc, part.block, row.exception)?;
    tells.say(
        Rule::NeverBegun,
        first_handler(part.block, row.exception),
        &[
            Piece::Named(part.outlook.action),
            Piece::Text(": the handlers of "),
            Piece::List(&roles),
            Piece::Text(" for "),
            Piece::Named(row.exception),
            Piece::Text(
                " are never begun: nothing raises it, and nothing that can be raised together has it as its least cover",
            ),
        ],
    )
}

/// Tells of which exceptions that can't be resolved there are handlers.
pub fn tell_never_begun(tells: &mut Tells, part: &Part) -> Result<(), OutOfMemory> {
    for row in part.outlook.rows.iter() {
        if is_never_begun(part.block, row) {
            say_never_begun(tells, part, row)?;
        }
    }
    Ok(())
}

/// Whether an exception can be resolved by these rows.
pub fn can_come_in(rows: &[Row], exception: u32) -> bool
    ensures { result ≡ can_come_in rows.now exception }
{
    rows.iter()
        .any(|row| row.exception == exception && row.can_come)
}

/// Tells that all is set back by a handler that says undo.
fn say_undo(
    tells: &mut Tells,
    part: &Part,
    line: u32,
    role: u32,
    exception: u32,
) -> Result<(), OutOfMemory> {
    tells.say(
        Rule::HandledAndUndone,
        line,
        &[
            Piece::Named(part.outlook.action),
            Piece::Text(": every role handles "),
            Piece::Named(exception),
            Piece::Text(", and "),
            Piece::Named(role),
            Piece::Text(" says undo: all is set back, also what the handlers put"),
        ],
    )
}

/// Tells that all is set back by a handler that raises.
fn say_raise(
    tells: &mut Tells,
    part: &Part,
    line: u32,
    role: u32,
    exception: u32,
) -> Result<(), OutOfMemory> {
    tells.say(
        Rule::HandledAndUndone,
        line,
        &[
            Piece::Named(part.outlook.action),
            Piece::Text(": every role handles "),
            Piece::Named(exception),
            Piece::Text(", and a raise in a handler raises nothing: it turns the verdict of "),
            Piece::Named(role),
            Piece::Text(" into undo"),
        ],
    )
}

/// The line at which the handler of a role for an exception says undo, or that of the action.
fn undo_line(block: &[Line], role: u32, exception: u32) -> u32 {
    let mut is_inside = false;
    for line in block {
        if let Form::Handler(who, what) = &line.form {
            is_inside = *who == role && *what == exception;
        }
        if is_inside && matches!(&line.form, Form::UndoLine) {
            return line.number;
        }
    }
    first_line(block)
}

/// Tells that a handler for an exception that each role handles has all set back, if it raises or says undo.
fn tell_undone_by(
    tells: &mut Tells,
    part: &Part,
    role: u32,
    exception: u32,
    handler: &Program,
) -> Result<(), OutOfMemory> {
    match handler.reached().last() {
        Some(last) if handler.raises() => say_raise(tells, part, last.number, role, exception),
        _ if handler.said == Said::Undo => {
            let line = undo_line(part.block, role, exception);
            say_undo(tells, part, line, role, exception)
        }
        _ => Ok(()),
    }
}

/// Tells which handlers of a row have all set back, where the exception can come and each role has a handler for it.
fn tell_row_undone(tells: &mut Tells, part: &Part, row: &Row) -> Result<(), OutOfMemory> {
    let handlers = handlers_of(tells.alloc, part.block, row.exception)?;
    if !row.can_come || handlers.iter().any(|handler| handler.is_none()) {
        return Ok(());
    }
    for (role, handler) in roles_of(part.block).iter().zip(handlers.iter()) {
        if let Some(handler) = handler {
            tell_undone_by(tells, part, *role, row.exception, handler)?;
        }
    }
    Ok(())
}

/// Tells of which exceptions each role has a handler, and all is set back all the same.
pub fn tell_handled_and_undone(tells: &mut Tells, part: &Part) -> Result<(), OutOfMemory> {
    for row in part.outlook.rows.iter() {
        tell_row_undone(tells, part, row)?;
    }
    Ok(())
}
