//! How a place ended by a journal, and the values of the device then.

ghost use Rattle.std.specs.Prelude.{◌≡◌, ◌≤◌, length, IfOk, slice_get};
ghost use Rattle.caa_base.specs.declared.written.entry.Kind.TheVariants as kind;
ghost use Rattle.place_plan.specs.RulesOfJournals.Entries.{is_in};
ghost use Rattle.fault_trials.specs.Classes.{end_of, outcome_by, outcome_in, values_at_end};

use caa_base::written::entry::{Entry, Kind, OutOfMemory, Outcome, Place};
use place_plan::plans::plan::Plan;
use rehearsals::facts::values_after;
use std::alloc::Global;

/// Whether an entry is the end of a place.
fn is_end(entry: &Entry, place: Place) -> bool
    ensures { result ≡ is_in kind.End place entry.now }
{
    match entry.kind {
        Kind::End => entry.place == place,
        _ => false,
    }
}

/// The number of the entry that is the end of a place, or of all entries where it has none.
pub fn end_of(entries: &[Entry], place: Place) -> usize
    ensures value { result ≡ end_of place entries.now }
    ensures within { result ≤ length entries.now }
{
    for (index, entry) in entries.iter().enumerate() {
        if is_end(entry, place) {
            return index;
        }
    }
    entries.len()
}

/// The end of a place, if it has one.
pub fn ending_of(entries: &[Entry], place: Place) -> Option<Entry>
    ensures { result ≡ slice_get entries.now (end_of place entries.now) }
{
    entries.get(end_of(entries, place)).copied()
}

/// What an end says.
fn outcome_by(ending: Option<Entry>) -> Option<Outcome>
    ensures { result ≡ outcome_by ending }
{
    match ending {
        Some(entry) => Some(Outcome::of_mark(entry.mark, entry.arg)),
        None => None,
    }
}

/// How a place ended by a journal, if it did.
pub fn outcome_of(entries: &[Entry], place: Place) -> Option<Outcome>
    ensures { result ≡ outcome_in entries.now place }
{
    outcome_by(ending_of(entries, place))
}

/// The values of the device when a place ended, or at the end of the journal.
pub fn values_at_end(
    alloc: Global,
    plan: &Plan,
    entries: &[Entry],
    place: Place,
) -> Result<Vec<i64>, OutOfMemory>
    ensures { IfOk result (λ values. values.items ≡ values_at_end plan.now entries.now place) }
{
    let count = end_of(entries, place);
    values_after(alloc, plan, &entries[..count])
}
