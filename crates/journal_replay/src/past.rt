//! A past as one value: a plan, the entries so far, and the records of them, with what is known of the three.

ghost use Rattle.std.specs.Prelude.{List, reverse};
ghost use Rattle.caa_base.specs.declared.written.entry.Entry.{Entry as EntryValue};
ghost use Rattle.place_plan.specs.Plans.PlanValue.{Plan as PlanValue};
ghost use Rattle.place_plan.specs.RulesOfJournals.Journals.{LegalPast};
ghost use Rattle.place_plan.proofs.OnJournals.LegalProp.{LegalPast-prop};

use caa_base::written::entry::Entry;
use place_plan::plans::plan::Plan;

/// What stands for a past.
pub trait StandsFor {
    /// The records are those of this past, the newest entry first.
    ghost stand_for: { Self → PlanValue → List EntryValue → Type 0 };

    /// There is one way to be so.
    ghost one_way: { (r : Self) (plan : PlanValue) (past : List EntryValue) → IsProp (stand_for r plan past) };
}

/// What came before: the entries so far, the oldest first, which are legal for the plan, and the records of them.
#[derive(Drop)]
pub struct Past<'a, R: StandsFor> {
    pub plan: &'a Plan,
    pub records: &'a R,
    pub journal: &'a [Entry],
    ghost stands: { R.stand_for records.now plan.now (reverse journal.now) } by { R.one_way records.now plan.now (reverse journal.now) },
    ghost legal: { LegalPast plan.now (reverse journal.now) } by { LegalPast-prop plan.now (reverse journal.now) },
}
