//! The laws of all legal journals of a plan. Each is a statement alone: the call does nothing.
#![tactic(auto)]

ghost use Rattle.journal_laws.specs.Laws.{Holds, AtMostOne, GoesOn, SleepsOn, IsBounded, InsideIsInnermost, HolderIsInnermost, DeviceLaw, CommitLaw, KeepsLaws};
ghost use Rattle.journal_laws.specs.Due.{DueIsRight};
ghost use Rattle.place_plan.specs.RulesOfJournals.WellFormed.{AllWellFormed};

use place_plan::plans::plan::Plan;

/// The entry that is computed for a participant is the one that may follow.
pub fn due_is_right(plan: &Plan)
    ensures { Holds DueIsRight plan.now }
{
    plan.is_closed();
}

/// No participant has a choice: at most one entry may be its next. Where it asks the device, that is one of two, and
/// the device picks.
pub fn at_most_one(plan: &Plan)
    ensures { Holds AtMostOne plan.now }
{
    plan.is_closed();
}

/// Progress law: as long as not all participants are over, the rules let some participant make an entry.
pub fn goes_on(plan: &Plan)
    ensures { Holds GoesOn plan.now }
{
    plan.is_closed();
}

/// Who has no entry still has none after an entry of another participant, unless that entry may wake it.
pub fn sleeps_on(plan: &Plan)
    ensures { Holds SleepsOn plan.now }
{
    plan.is_closed();
}

/// Length law: a legal journal has at most as many entries as the bound says.
pub fn is_bounded(plan: &Plan)
    ensures { Holds IsBounded plan.now }
{
    plan.is_closed();
}

/// Each entry of a legal journal is well formed.
pub fn is_well_formed(plan: &Plan)
    ensures { Holds AllWellFormed plan.now }
{
    plan.is_closed();
}

/// Where a participant is by its arrivals and leaves is the innermost of the places in which it stays.
pub fn inside_is_innermost(plan: &Plan)
    ensures { Holds InsideIsInnermost plan.now }
{
    plan.is_closed();
}

/// What holds an object by the starts and ends is a live place that uses it, and each other such place is round that one.
pub fn holder_is_innermost(plan: &Plan)
    ensures { Holds HolderIsInnermost plan.now }
{
    plan.is_closed();
}

/// Device law: what was put last in an object, by a write or a restore that the device took, is its value by the journal; where
/// nothing was, that is its first value.
pub fn last_put_is_value(plan: &Plan)
    ensures { Holds DeviceLaw plan.now }
{
    plan.is_closed();
}

/// Commit law: the end of a play commits the values that its objects have then, and no others; what is committed stays.
pub fn ends_commit(plan: &Plan)
    ensures { Holds CommitLaw plan.now }
{
    plan.is_closed();
}

/// The stop, still, resolution, exit, outcome, effect, reaction, inner-first and isolation laws.
pub fn keeps_laws(plan: &Plan)
    ensures { Holds KeepsLaws plan.now }
{
    plan.is_closed();
}
