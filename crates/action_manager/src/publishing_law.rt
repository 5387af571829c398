ghost use Rattle.std.specs.Prelude.{◌≡◌, ℕ, List};
ghost use mathlib.Core.List.{IsPrefix};
ghost use Rattle.caa_base.specs.declared.written.entry.Entry.{Entry as JournalEntry};
ghost use Rattle.place_plan.specs.Plans.Places.{initials_of};
ghost use Rattle.place_plan.specs.RulesOfJournals.Journals.{LegalPast};
ghost use Rattle.journal_laws.specs.Laws.{Holds};
ghost use Rattle.shared_views.specs.Committing.{IsReading};
ghost use Rattle.shared_views.specs.declared.observed.Reading.{Reading as ReadingValue};
ghost use Rattle.action_manager.specs.Publishing.{Publishes, publications_of};
ghost use Rattle.action_manager.specs.PublishingLaw.{PublishingLaw, IsCommitted};

use journal_laws::ends_commit;
use place_plan::plans::plan::Plan;
use shared_views::{CommittedWriter, Observer};

/// A law: by the first so many publications of a legal journal each object has the value that as many plays committed. The call
/// does nothing.
pub fn publishes_committed(plan: &Plan)
    ensures { Holds PublishingLaw plan.now }
{
    ends_commit(plan);
}

/// A law, for the writer that comes with a machine whose manager was closed: what an observer of its list knows begins what the
/// plays of the machine's journal publish. So whatever it has read is committed in that journal. Nothing changes.
pub fn readings_are_committed(plan: &Plan, writer: &mut CommittedWriter, observer: &Observer)
    requires ours { observer.now.known.book ≡ writer.old.publications.book }
    ensures same { writer.new ≡ writer.old }
    ensures begins { (past : List JournalEntry) → Publishes plan.now past writer.old
        → IsPrefix observer.now.known.list (publications_of plan.now past) }
    ensures committed { (past : List JournalEntry) (o : ℕ) (r : ReadingValue) → Publishes plan.now past writer.old
        → LegalPast plan.now past → IsReading (initials_of plan.now) observer.now.known o r → IsCommitted plan.now past o r }
{
    ends_commit(plan);
    writer.knows_no_more(observer);
}
