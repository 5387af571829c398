//! The values that an object has by the plays that ended first.
//!
//! What a look has to show depends on how many plays had ended. One pass over the journal, from its newest entry back, gives the
//! values by the first 0, 1, 2 and so on of the plays that ended: a write that no later restore undoes gives the value for all
//! those numbers that have its own play among them and have no value yet. Whether it is undone is told by the entries of its own
//! play, since a place and those round it belong to one play. A journal that isn't legal may have any places, so restores and
//! ended plays stand in tables by hash.

ghost use Rattle.std.specs.Prelude.{◌≡◌, ◌<◌, ◌&&◌, ◌||◌, pos, ℕ, nat_eq, nat_lt, not, suc, length, reverse, replicate, slice_index_or, if◌then◌else◌, IfOk, OnOk};
ghost use Rattle.std.specs.List.{list_any};
ghost use Rattle.std.specs.HashSet.{contains};
ghost use Rattle.caa_base.specs.Written.Lists.{index_of};
ghost use Rattle.place_plan.specs.Plans.Places.{around, top_of, initial_of};
ghost use Rattle.journal_text.specs.inner.CommittedValues.{TellsRanks, HasCommitted, counts, Notes, lowest_after, value_after};

use caa_base::written::entry::{Entry, Object, Place};
use place_plan::plans::plan::Plan;
use place_plan::rules::value::{restores, writes};
use std::alloc::{AllocError, Global};
use std::collections::{HashMap, HashSet};

/// Where each of these plays stands among them.
pub(crate) fn ranks_of(alloc: Global, ended: &[Place]) -> Result<HashMap<Place, usize>, AllocError>
    ensures { IfOk result (λ ranks. TellsRanks ranks ended.now) }
{
    let mut ranks = HashMap::new(alloc);
    for index in (0..ended.len()).rev() {
        ranks.insert(ended[index], index)?;
    }
    Ok(ranks)
}

/// Where a play stands among those that ended; one that didn't end stands after them.
fn rank_of(ranks: &HashMap<Place, usize>, ended: &[Place], play: Place) -> usize
    requires { TellsRanks ranks.now ended.now }
    ensures { result ≡ index_of play ended.now }
{
    match ranks.get(&play) {
        Some(rank) => *rank,
        None => ended.len(),
    }
}

/// The values of an object by the first 0, 1, 2 and so on of the plays that ended, up to all of them.
///
/// It goes over the entries once.
pub(crate) fn committed_values(
    alloc: Global,
    plan: &Plan,
    entries: &[Entry],
    ended: &[Place],
    ranks: &HashMap<Place, usize>,
    object: Object,
) -> Result<Vec<i64>, AllocError>
    requires object { object < length plan.now.objects }
    requires ranks { TellsRanks ranks.now ended.now }
    ensures { IfOk result (λ values. HasCommitted plan.now ended.now (reverse entries.now) object values.items) }
{
    plan.is_closed();
    let mut values = repeated_initial(alloc, plan, object, ended.len() + 1)?;
    look_back(alloc, plan, entries, ended, ranks, object, &mut values)?;
    Ok(values)
}

/// So many times the value that an object has at first.
fn repeated_initial(
    alloc: Global,
    plan: &Plan,
    object: Object,
    count: usize,
) -> Result<Vec<i64>, AllocError>
    requires { object < length plan.now.objects }
    ensures { IfOk result (λ values. values.items ≡ replicate count (initial_of plan.now object)) }
{
    vec![in alloc; plan.initial(object); count]
}

/// Goes over the entries from the newest one back, with no value known yet.
fn look_back(
    alloc: Global,
    plan: &Plan,
    entries: &[Entry],
    ended: &[Place],
    ranks: &HashMap<Place, usize>,
    object: Object,
    values: &mut [i64],
) -> Result<(), AllocError>
    requires ranks { TellsRanks ranks.now ended.now }
    requires start { values.old ≡ replicate (suc (length ended.now)) (initial_of plan.now object) }
    ensures { OnOk result (HasCommitted plan.now ended.now (reverse entries.now) object values.new) }
{
    plan.is_closed();
    let mut restored = HashSet::new(alloc);
    let mut lowest = ended.len();
    for index in (0..entries.len()).rev() {
        let entry = &entries[index];
        lowest = look_at(plan, ended, ranks, &restored, object, entry, lowest, values);
        note(&mut restored, object, entry)?;
    }
    Ok(())
}

/// Takes in the next entry on the way back: a write that counts gives the values by as many plays as have its own among them, as
/// far as these aren't known. What it returns is the greatest number of plays for which the value isn't known then.
fn look_at(
    plan: &Plan,
    ended: &[Place],
    ranks: &HashMap<Place, usize>,
    restored: &HashSet<Place>,
    object: Object,
    entry: &Entry,
    lowest: usize,
    values: &mut [i64],
) -> usize
    requires ranks { TellsRanks ranks.now ended.now }
    requires within { lowest < length values.old }
    ensures lowest { result ≡ lowest_after (counts plan.now restored.now object entry.now)
        (index_of (top_of plan.now entry.now.place) ended.now) lowest }
    ensures size { length values.new ≡ length values.old }
    ensures each { (n : ℕ) → slice_index_or values.new n (pos 0)
        ≡ value_after (counts plan.now restored.now object entry.now) (index_of (top_of plan.now entry.now.place) ended.now)
        lowest entry.now n (slice_index_or values.old n (pos 0)) }
{
    if !counts(plan, restored, object, entry) {
        return lowest;
    }
    let rank = rank_of(ranks, ended, plan.top_of(entry.place));
    if rank >= lowest {
        return lowest;
    }
    fill(values, rank, lowest, entry.value);
    rank
}

/// Notes the place of a restore of the object.
fn note(restored: &mut HashSet<Place>, object: Object, entry: &Entry) -> Result<(), AllocError>
    ensures { OnOk result (Notes object entry.now restored.old restored.new) }
{
    if restores(entry, object) {
        restored.insert(entry.place)?;
    }
    Ok(())
}

/// Whether an entry is a write of the object that no later restore undoes.
fn counts(plan: &Plan, restored: &HashSet<Place>, object: Object, entry: &Entry) -> bool
    ensures { result ≡ counts plan.now restored.now object entry.now }
{
    writes(entry, object) && !is_undone(plan, restored, entry.place)
}

/// Sets the values after one index, up to another.
fn fill(values: &mut [i64], after: usize, last: usize, value: i64)
    requires order { after < last }
    requires within { last < length values.old }
    ensures size { length values.new ≡ length values.old }
    ensures each { (n : ℕ) → slice_index_or values.new n (pos 0)
        ≡ (if nat_lt after n && not (nat_lt last n) then value else slice_index_or values.old n (pos 0)) }
{
    for index in after + 1..last + 1 {
        values[index] = value;
    }
}

/// Whether a place or one round it is one of those in which the object was restored later.
fn is_undone(plan: &Plan, restored: &HashSet<Place>, place: Place) -> bool
    ensures { result ≡ (contains nat_eq restored.now place || list_any (contains nat_eq restored.now) (around plan.now place)) }
{
    restored.contains(&place) || is_undone_around(plan, restored, place)
}

/// The same of the places round a place.
fn is_undone_around(plan: &Plan, restored: &HashSet<Place>, place: Place) -> bool
    ensures { result ≡ list_any (contains nat_eq restored.now) (around plan.now place) }
{
    plan.around(place)
        .iter()
        .any(|outer| restored.contains(outer))
}
