//! What one entry says.

ghost use Rattle.std.specs.Prelude.{◌≡◌};
ghost use Rattle.place_plan.specs.RulesOfJournals.Roles.{verdict_at};
ghost use Rattle.place_plan.specs.RulesOfJournals.Whereabouts.{outcome_at};
ghost use Rattle.place_plan.specs.RulesOfJournals.Journals.{ends_play};

use crate::plans::plan::Plan;
use caa_base::written::entry::{Entry, Kind, Outcome, Verdict};

/// Whether an entry is the End of a play.
pub fn ends_play(plan: &Plan, entry: &Entry) -> bool
    ensures { result ≡ ends_play plan.now entry.now }
{
    entry.kind == Kind::End && plan.parent(entry.place).is_none()
}

/// The verdict that an entry says.
pub fn verdict_at(entry: &Entry) -> Verdict
    ensures { result ≡ verdict_at entry.now }
{
    Verdict::of_mark(entry.mark, entry.arg)
}

/// The outcome that an End says.
pub fn outcome_at(entry: &Entry) -> Outcome
    ensures { result ≡ outcome_at entry.now }
{
    Outcome::of_mark(entry.mark, entry.arg)
}
