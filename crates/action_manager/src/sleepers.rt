ghost use Rattle.std.specs.Prelude.{◌≡◌, ◌==◌, ℕ, true, false, reverse};
ghost use Rattle.cover_table.specs.Cover.{has_bit};
ghost use Rattle.caa_base.specs.Written.Lists.{member};
ghost use Rattle.journal_laws.specs.Laws.{wakes};

use caa_base::written::entry::{Entry, Kind, Participant};
use core_words::crew::{Crew, nobody};
use place_plan::rules::machine::Machine;

/// A crew without this participant.
fn without(crew: Crew, by: Participant) -> Crew
    ensures { (t : ℕ) → has_bit result t ≡ true → (has_bit crew t ≡ true) × ((by == t) ≡ false) }
{
    if by < Crew::BITS {
        crew & !(1 << by)
    } else {
        crew
    }
}

/// Those of a crew who aren't among these.
fn without_all(crew: Crew, roles: &[Participant]) -> Crew
    ensures { (t : ℕ) → has_bit result t ≡ true → (has_bit crew t ≡ true) × (member t roles.now ≡ false) }
{
    let mut left = crew;
    for by in roles {
        left = without(left, *by);
    }
    left
}

/// Those of a sleeping crew whom the last entry of a machine doesn't wake.
pub fn unwoken<M: Machine>(machine: &M, entry: &Entry, crew: Crew) -> Crew
    ensures { (t : ℕ) → has_bit result t ≡ true
        → (has_bit crew t ≡ true) × (wakes (M.plan_of machine.now) (reverse (M.journal_of machine.now)) entry.now t ≡ false) }
{
    let plan = machine.plan();
    match entry.kind {
        Kind::Arrive | Kind::Inform | Kind::Verdict | Kind::Abort => {
            if machine.gathers(entry) {
                without_all(crew, plan.roles_of(entry.place))
            } else {
                crew
            }
        }
        Kind::PutFault | Kind::Raise => without_all(crew, plan.roles_of(entry.place)),
        Kind::Withdraw | Kind::Leave => match plan.parent(entry.place) {
            Some(outer) => without_all(crew, plan.roles_of(outer)),
            None => crew,
        },
        Kind::End => match plan.parent(entry.place) {
            Some(outer) => without_all(crew, plan.roles_of(outer)),
            None => nobody(),
        },
        Kind::Start
        | Kind::Read
        | Kind::Work
        | Kind::Write
        | Kind::Check
        | Kind::Resolve
        | Kind::Handle
        | Kind::Undo
        | Kind::Restore => crew,
    }
}
