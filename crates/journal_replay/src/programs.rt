//! The program of a role: its body, or its handler for what is handled.

ghost use Rattle.std.specs.Prelude.{◌≡◌, option_copied, slice_get};
ghost use Rattle.place_plan.specs.RulesOfJournals.Roles.{or_idle, program_in};

use caa_base::written::entry::{Exception, Participant, Place};
use place_plan::drafts::draft_rows::{Program, Step};
use place_plan::plans::plan::Plan;

/// The body of a participant in a place, or its handler for the exception that it handles, if it has one.
#[inline(always)]
pub fn program_in(
    plan: &Plan,
    place: Place,
    by: Participant,
    handled: Option<Exception>,
) -> Option<&Program>
    ensures { or_idle (option_copied result) ≡ program_in plan.now place by handled }
{
    let role = plan.role_of(place, by)?;
    match handled {
        Some(exception) => plan.handler(place, role, exception),
        None => Some(plan.body(place, role)),
    }
}

/// The step at a position of the program that a participant goes through in a place.
#[inline(always)]
pub fn step_at(
    plan: &Plan,
    place: Place,
    by: Participant,
    handled: Option<Exception>,
    position: usize,
) -> Option<Step>
    ensures { result ≡ slice_get (program_in plan.now place by handled).steps position }
{
    let program = program_in(plan, place, by, handled)?;
    program.steps.as_slice().get(position).copied()
}
