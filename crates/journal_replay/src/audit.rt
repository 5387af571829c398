ghost use Rattle.std.specs.Prelude.{◌≡◌, ◌↔◌, [], IsTrue};
ghost use Rattle.place_plan.specs.RulesOfJournals.Rules.{MayFollow};
ghost use Rattle.place_plan.specs.RulesOfJournals.Journals.{AllOver};
ghost use Rattle.journal_replay.specs.PastParts.{plan_of, entries_of};
ghost use Rattle.journal_replay.specs.Audited.{Audited};

use crate::look_back::LookBack;
use crate::moves::{Move, refused};
use crate::past::Past;
use crate::questions::is_over;
use crate::records::Records;
use crate::rule::move_of;
use caa_base::written::entry::Entry;
use caa_base::written::journal::Journal;
use journal_laws::is_well_formed;
use place_plan::plans::plan::Plan;
use thiserror::Error;

/// A journal isn't legal and complete.
#[derive(Clone, Copy, Debug, PartialEq, Eq, Error)]
#[error("the journal isn't legal and complete from entry {index} on")]
pub struct Illegal {
    /// The entry, counted from 0, that may not come where it stands, though all before it may; or, where every entry may come and
    /// somebody isn't over, the number of all.
    pub index: u64,
}

/// Whether the entries say the same.
fn is_same(entry: &Entry, other: &Entry) -> bool
    ensures { IsTrue result ↔ (entry.now ≡ other.now) }
{
    *entry == *other
}

/// Whether an entry may follow a legal journal. It takes no memory.
pub fn may_follow<R: Records>(past: &Past<'_, R>, entry: &Entry) -> bool
    ensures { IsTrue result ↔ MayFollow (plan_of past.now) (entries_of past.now) entry.now }
{
    is_well_formed(past.plan);
    if entry.by >= past.plan.participants() {
        return false;
    }
    match move_of(past, entry.by) {
        Move::Make(due) => is_same(entry, &due),
        Move::Put(well) => is_same(entry, &well) || is_same(entry, &refused(well)),
        Move::Mix(work) => is_same(entry, &work.entry(entry.by)),
        Move::Wait(_) | Move::Over => false,
    }
}

/// Whether every participant is through with all its plays.
pub(crate) fn all_are_over<R: Records>(past: &Past<'_, R>) -> bool
    ensures { IsTrue result ↔ AllOver (plan_of past.now) (entries_of past.now) }
{
    for by in 0..past.plan.participants() {
        if !is_over(past, by) {
            return false;
        }
    }
    true
}

/// Whether a journal is legal for a plan, and complete, by records that were just opened. It takes no memory.
///
/// What it answers is what `audit` does.
pub fn audit_with<R: Records>(
    plan: &Plan,
    records: &mut R,
    journal: &Journal,
) -> Result<(), Illegal>
    requires { R.stand_for records.old plan.now [] }
    ensures { Audited plan.now journal.now.entries result }
{
    let entries = journal.as_slice();
    for (index, entry) in entries.iter().enumerate() {
        let past = Past {
            plan,
            records: &*records,
            journal: &entries[..index],
        };
        if !may_follow(&past, entry) {
            return Err(Illegal {
                index: index as u64,
            });
        }
        records.note(plan, &entries[..index], entry);
    }
    let past = Past {
        plan,
        records: &*records,
        journal: entries,
    };
    if all_are_over(&past) {
        Ok(())
    } else {
        Err(Illegal {
            index: entries.len() as u64,
        })
    }
}

/// Whether a journal is legal for a plan, and complete. It takes no memory.
///
/// The entries may say anything, also of places and participants that the plan doesn't have. `Illegal` counts how many entries
/// may stand: those before the first that the rules refuse there, or all, where none is refused and somebody isn't over yet.
pub fn audit(plan: &Plan, journal: &Journal) -> Result<(), Illegal>
    ensures { Audited plan.now journal.now.entries result }
{
    audit_with(plan, &mut LookBack, journal)
}
