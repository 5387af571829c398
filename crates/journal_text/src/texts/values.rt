//! The values of the object lines come from one pass over the journal, from its newest entry back, with a table that says for each
//! object and each place whether the object was restored there later: a byte for each pair, at most 16 MB, taken only while a text
//! is written or read.

ghost use Rattle.std.specs.Prelude.{◌≡◌, ◌<◌, ◌*◌, [], length, reverse, replicate, false, IfOk};
ghost use Rattle.std.specs.List.{list_any};
ghost use Rattle.place_plan.specs.Plans.Places.{around};
ghost use Rattle.place_plan.specs.RulesOfJournals.WellFormed.{IsWellFormed, AllWellFormed};
ghost use Rattle.journal_text.specs.inner.KnownValues.{was_restored, was_undone, value_found, found_after_write, found_after, restored_after_restore, restored_after, LooksBack, HasValues};

use caa_base::written::entry::{Entry, Kind, Object, Place};
use place_plan::plans::plan::Plan;
use std::alloc::{AllocError, Global};

/// The value that each object has after these entries: that of its last write that isn't undone, where it has one.
///
/// It goes over the entries once.
pub(crate) fn last_values(
    alloc: Global,
    plan: &Plan,
    entries: &[Entry],
) -> Result<Vec<Option<i64>>, AllocError>
    requires { AllWellFormed plan.now entries.now }
    ensures { IfOk result (λ found. HasValues plan.now found.items (reverse entries.now)) }
{
    let mut found = nothing_found(alloc, plan.objects() as usize)?;
    let mut restored = nothing_restored(alloc, plan.objects() as usize * plan.places() as usize)?;
    look_back(plan, &mut found, &mut restored, entries);
    Ok(found)
}

/// A table of objects none of which has a value yet.
fn nothing_found(alloc: Global, objects: usize) -> Result<Vec<Option<i64>>, AllocError>
    ensures { IfOk result (λ found. found.items ≡ replicate objects None) }
{
    vec![in alloc; None; objects]
}

/// A table in which nothing was restored yet.
fn nothing_restored(alloc: Global, size: usize) -> Result<Vec<bool>, AllocError>
    ensures { IfOk result (λ restored. restored.items ≡ replicate size false) }
{
    vec![in alloc; false; size]
}

/// Goes over the entries from the newest one back, with nothing found and nothing restored yet.
fn look_back(plan: &Plan, found: &mut [Option<i64>], restored: &mut [bool], entries: &[Entry])
    requires entries { AllWellFormed plan.now entries.now }
    requires start { LooksBack plan.now found.old restored.old (reverse entries.now) (reverse entries.now) [] }
    ensures { LooksBack plan.now found.new restored.new (reverse entries.now) [] entries.now }
{
    for index in (0..entries.len()).rev() {
        look_at(plan, found, restored, &entries[index]);
    }
}

/// Takes in the next entry on the way back.
///
/// `found` has the value of each object whose last write was met. `restored` says for each object and, within it, for each place
/// whether the object was restored there later.
fn look_at(plan: &Plan, found: &mut [Option<i64>], restored: &mut [bool], entry: &Entry)
    requires entry { IsWellFormed plan.now entry.now }
    requires objects { length found.old ≡ length plan.now.objects }
    requires places { length restored.old ≡ length plan.now.objects * length plan.now.places }
    ensures found { found.new ≡ found_after entry.now.kind plan.now found.old restored.old entry.now }
    ensures restored { restored.new ≡ restored_after entry.now.kind plan.now restored.old entry.now }
{
    match entry.kind {
        Kind::Write => look_at_write(plan, found, restored, entry),
        Kind::Restore => look_at_restore(plan, restored, entry),
        _ => {},
    }
}

/// Takes in a write: the last one of its object that isn't undone has found its value.
fn look_at_write(plan: &Plan, found: &mut [Option<i64>], restored: &[bool], entry: &Entry)
    requires object { entry.now.arg < length plan.now.objects }
    requires objects { length found.old ≡ length plan.now.objects }
    requires places { length restored.now ≡ length plan.now.objects * length plan.now.places }
    ensures { found.new ≡ found_after_write plan.now found.old restored.now entry.now }
{
    let object = entry.arg as usize;
    if found[object].is_none() && !is_undone(plan, restored, entry) {
        found[object] = Some(entry.value);
    }
}

/// Takes in a restore, which undoes the older writes of its object in its place where the device took it.
fn look_at_restore(plan: &Plan, restored: &mut [bool], entry: &Entry)
    requires object { entry.now.arg < length plan.now.objects }
    requires place { entry.now.place < length plan.now.places }
    requires places { length restored.old ≡ length plan.now.objects * length plan.now.places }
    ensures { restored.new ≡ restored_after_restore plan.now restored.old entry.now }
{
    if entry.mark == 0 {
        restored[entry.arg as usize * plan.places() as usize + entry.place as usize] = true;
    }
}

/// Whether the object of an entry was restored later in the place of the entry or in one round it.
fn is_undone(plan: &Plan, restored: &[bool], entry: &Entry) -> bool
    requires object { entry.now.arg < length plan.now.objects }
    requires places { length restored.now ≡ length plan.now.objects * length plan.now.places }
    ensures { result ≡ was_undone plan.now restored.now entry.now.arg entry.now.place }
{
    was_restored(plan, restored, entry.place, entry.arg) || is_undone_around(plan, restored, entry)
}

/// The same of the places round that of the entry.
fn is_undone_around(plan: &Plan, restored: &[bool], entry: &Entry) -> bool
    requires object { entry.now.arg < length plan.now.objects }
    requires places { length restored.now ≡ length plan.now.objects * length plan.now.places }
    ensures { result ≡ list_any (was_restored plan.now restored.now entry.now.arg) (around plan.now entry.now.place) }
{
    plan.around(entry.place)
        .iter()
        .any(|outer| was_restored(plan, restored, *outer, entry.arg))
}

/// Whether in a place an object was restored later.
fn was_restored(plan: &Plan, restored: &[bool], place: Place, object: Object) -> bool
    requires object { object < length plan.now.objects }
    requires places { length restored.now ≡ length plan.now.objects * length plan.now.places }
    ensures { result ≡ was_restored plan.now restored.now object place }
{
    place < plan.places() && restored[object as usize * plan.places() as usize + place as usize]
}

/// The value of an object that was found, or else the one that it has at first.
pub(crate) fn value_found(plan: &Plan, found: &[Option<i64>], object: Object) -> i64
    requires object { object < length plan.now.objects }
    requires objects { length found.now ≡ length plan.now.objects }
    ensures { result ≡ value_found plan.now found.now object }
{
    found[object as usize].unwrap_or(plan.initial(object))
}
