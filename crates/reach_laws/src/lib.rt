//! What can come in the places of a plan, whatever the order of the entries and the answers of the device. Each law is a statement
//! alone, as the laws of journals: the call does nothing.
#![tactic(auto)]

ghost use Rattle.journal_laws.specs.Laws.{Holds};
ghost use Rattle.reach_laws.specs.Reach.{RaisesNoOther, ResolvesNoOther, EndsNotOtherwise, TriesNoOther};

use place_plan::plans::plan::Plan;

/// Nothing is raised in a place of a legal journal but what can be raised in its action by the plan.
pub fn raises_no_other(plan: &Plan)
    ensures { Holds RaisesNoOther plan.now }
{
    plan.is_closed();
}

/// No place of a legal journal is resolved to an exception but one that can be resolved in its action: the least cover of what some
/// sources raise, of which none excludes another. What has to be over before something else begins has raised nothing there.
pub fn resolves_no_other(plan: &Plan)
    ensures { Holds ResolvesNoOther plan.now }
{
    plan.is_closed();
}

/// No place of a legal journal ends otherwise than its action can end.
pub fn ends_not_otherwise(plan: &Plan)
    ensures { Holds EndsNotOtherwise plan.now }
{
    plan.is_closed();
}

/// No place of a nested use is entered but as its action can be tried: nobody comes to a further alternate where the one before
/// it can't end undone, and a place starts only where each of its roles comes to the step that enters it.
pub fn tries_no_other(plan: &Plan)
    ensures { Holds TriesNoOther plan.now }
{
    plan.is_closed();
}
