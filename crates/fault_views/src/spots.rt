//! The lines of puts, and what they put.

use caa_base::written::entry::{Exception, OutOfMemory};
use fault_trials::modes::Spot;
use place_plan::drafts::draft_rows::{Program, RoleRow, Step};
use rehearsal_views::plan_names::{PlanNames, say_value};
use script_views::page::{Page, Piece};

/// The body of a role, or its handler for this exception.
fn program_of(role: &RoleRow, handler: Option<Exception>) -> Option<&Program> {
    let Some(exception) = handler else {
        return Some(&role.body);
    };
    for row in role.handlers.as_slice() {
        if row.exception == exception {
            return Some(&row.program);
        }
    }
    None
}

/// The line that a spot stands in; 0 for an object that is set back.
pub fn line_of(names: &PlanNames, spot: Spot) -> u32 {
    let Spot::Step {
        action,
        role,
        handler,
        step,
    } = spot
    else {
        return 0;
    };
    match names.lines.program(action, role, handler) {
        Some(program) => program.steps.as_slice().get(step).copied().unwrap_or(0),
        None => 0,
    }
}

/// The step that stands at a spot.
fn step_of(
    names: &PlanNames,
    action: u32,
    role: u32,
    handler: Option<Exception>,
    step: usize,
) -> Option<Step> {
    let row = names.role(action, role)?;
    program_of(row, handler)?
        .steps
        .as_slice()
        .get(step)
        .copied()
}

/// Says what a spot is, as its line does.
pub fn say_item(names: &PlanNames, page: &mut Page, spot: Spot) -> Result<(), OutOfMemory> {
    match spot {
        Spot::Back { action: _, object } => {
            page.say(&[Piece::Text("set back ")])?;
            names.say_object(page, object)
        }
        Spot::Step {
            action,
            role,
            handler,
            step,
        } => say_step(names, page, step_of(names, action, role, handler, step)),
    }
}

/// Says a step that puts.
fn say_step(names: &PlanNames, page: &mut Page, step: Option<Step>) -> Result<(), OutOfMemory> {
    let (word, object, value) = match step {
        Some(Step::Put(object, value)) => ("put ", object, value),
        Some(Step::Add(object, value)) => ("add ", object, value),
        _ => return page.say(&[Piece::Text("put")]),
    };
    page.say(&[Piece::Text(word)])?;
    names.say_object(page, object)?;
    page.say(&[Piece::Text(" ")])?;
    say_value(page, value)
}
