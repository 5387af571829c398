//! The law of interlocks: where roles stand in the places of a plan, told from the entries of a journal. Each law is a statement alone,
//! as the laws of journals: the call does nothing.
#![tactic(auto)]

ghost use Rattle.journal_laws.specs.Laws.{Holds};
ghost use Rattle.interlock_laws.specs.SpotLaws.{SpotIsPosition, UsesAreOver, AlternatesAreLeft, SpotsFit};

use place_plan::plans::plan::Plan;

/// Where a role stands in a place is what the rules say of it: before the place is resolved, by the steps that it has made, and after
/// that by those of its handler. And what a role has raised is what its spot says: nothing, or one exception.
pub fn spot_is_position(plan: &Plan)
    ensures { Holds SpotIsPosition plan.now }
{
    plan.is_closed();
}

/// A role of a place that isn't resolved has a nested use behind it just where some place of that use has ended, and isn't left in
/// silence for a further alternate.
pub fn uses_are_over(plan: &Plan)
    ensures { Holds UsesAreOver plan.now }
{
    plan.is_closed();
}

/// Who is at a step that enters a nested use is at the alternate behind all those that were left in silence.
pub fn alternates_are_left(plan: &Plan)
    ensures { Holds AlternatesAreLeft plan.now }
{
    plan.is_closed();
}

/// Any two roles of a place that isn't resolved fit: a use that both enter is behind both, or behind neither, and they are at one
/// alternate of it; and what the one has raised when it came out of it, the other has, unless the use was given up.
pub fn spots_fit(plan: &Plan)
    ensures { Holds SpotsFit plan.now }
{
    plan.is_closed();
}
