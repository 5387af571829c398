ghost use Rattle.std.specs.Prelude.{◌≡◌, List, ◌∷◌, [], ◌++◌};
ghost use Rattle.caa_base.specs.declared.written.entry.Entry.{Entry as JournalEntry};
ghost use Rattle.place_plan.specs.Plans.PlanValue.{Plan as PlanValue};
ghost use Rattle.place_plan.specs.RulesOfJournals.WellFormed.{IsWellFormed};

use caa_base::written::entry::Entry;
use place_plan::plans::plan::Plan;

/// Who is told of each entry as it is made.
pub trait Log {
    /// What the log tells of a journal of this plan.
    ghost tells: { Self → PlanValue → List JournalEntry → Type 0 };

    /// Tells of one more entry.
    fn add(&mut self, plan: &Plan, entry: &Entry)
        requires formed { IsWellFormed plan.now entry.now }
        ensures grown { (journal : List JournalEntry)
            → tells self.old plan.now journal → tells self.new plan.now (journal ++ entry.now ∷ []) };
}
