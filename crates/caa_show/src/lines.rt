//! At which line of the script a participant stands.

ghost use Rattle.std.specs.Prelude.{◌≡◌, ◌<◌, length, Some};
ghost use Rattle.caa_show.specs.LinesOfSpots.{line_by, line_for, line_of};

use caa_base::written::entry::Participant;
use journal_page::stances::Lines as LinesOfScript;
use journal_states::spots::{Phase, Spot};
use place_plan::plans::plan::Plan;
use script_checker::lines::{Lines, ProgramLines};

/// The line of a role that has come so far in what it goes through.
fn line_by(phase: Phase, program: &ProgramLines, made: usize) -> Option<u32>
    ensures { result ≡ line_by phase program.now made }
{
    match phase {
        Phase::Arrived => Some(program.first),
        Phase::Body | Phase::Handler => Some(program.after(made)),
        Phase::Undoing | Phase::Ended => None,
    }
}

/// The line of a role that stands at this spot.
fn line_for(lines: &Lines, plan: &Plan, role: u32, spot: &Spot) -> Option<u32>
    requires { spot.now.place < length plan.now.places }
    ensures { result ≡ line_for lines.now plan.now spot.now (Some role) }
{
    let action = plan.action_of(spot.place);
    match lines.program(action, role, spot.handled) {
        Some(program) => line_by(spot.phase, program, spot.step),
        None => None,
    }
}

/// The line of the script at which a participant stands: that of its next step, and behind the last one that where its body or handler
/// ends; before the start of its place the line at which its body begins. There is none where the place is undone or has ended.
pub fn line_of(lines: &Lines, plan: &Plan, by: Participant, spot: &Spot) -> Option<u32>
    ensures { result ≡ line_of lines.now plan.now by spot.now }
{
    if spot.place >= plan.places() {
        return None;
    }
    match plan.role_of(spot.place, by) {
        Some(role) => line_for(lines, plan, role, spot),
        None => None,
    }
}

/// The lines of a script, as a page asks for them.
#[derive(Clone, Copy)]
pub struct PageLines<'a> {
    pub lines: &'a Lines,
}

impl<'a> LinesOfScript for PageLines<'a> {
    ghost use Rattle.std.specs.Prelude.{unwrap_or};
    ghost use Rattle.caa_show.specs.LinesOfSpots.{line_of};

    ghost line_at = { λ page plan t spot. unwrap_or (line_of page.lines.now plan t spot) 0 };

    fn line_of(&self, plan: &Plan, by: Participant, spot: &Spot) -> u32 {
        line_of(self.lines, plan, by, spot).unwrap_or(0)
    }
}
