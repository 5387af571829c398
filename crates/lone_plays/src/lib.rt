//! That plays which share nothing with the others don't see them. Each is a statement alone, as the laws of journals: the call does
//! nothing.
#![tactic(auto)]

ghost use Rattle.journal_laws.specs.Laws.{Holds};
ghost use Rattle.lone_plays.specs.Lone.{LonePlays, LoneJournals};

use place_plan::plans::plan::Plan;

/// Plays that share no participant and no object with the others don't see them: what stands of them in a legal journal is a legal
/// journal of the plan in which they alone are played, and complete where the whole one is.
pub fn plays_stand_alone(plan: &Plan)
    ensures { Holds LonePlays plan.now }
{
    plan.is_closed();
}

/// Nor do they hinder one another: a journal is legal where what stands of these plays in it is legal alone, and what stands of the
/// others is too, in whatever order both stand there.
pub fn lone_journals_join(plan: &Plan)
    ensures { LoneJournals plan.now }
{
    plan.is_closed();
}
