//! Which puts a hunt refuses.

use caa_base::written::entry::{Drill, Object, OutOfMemory};
use caa_base::written::journal::Journal;
use place_plan::plans::plan::Plan;
use rehearsals::facts::tries_put;
use rehearsals::tries::Tries;
use std::alloc::Global;

/// Which of the next three puts of an object are refused with one of it.
pub type Later = [bool; 3];

/// All ways to refuse some of the next three, those that refuse few first.
pub const LATER: [Later; 8] = [
    [false, false, false],
    [true, false, false],
    [false, true, false],
    [false, false, true],
    [true, true, false],
    [true, false, true],
    [false, true, true],
    [true, true, true],
];

/// The puts of a journal, restores too, but for those of these objects.
pub fn puts_of(
    alloc: Global,
    plan: &Plan,
    taken: &[Object],
    journal: &Journal,
) -> Result<Vec<Drill>, OutOfMemory> {
    let mut tries = Tries::new(alloc, plan)?;
    let mut puts = Vec::new(alloc);
    for entry in journal.as_slice() {
        if tries_put(entry) && !taken.contains(&entry.arg) {
            let nth = tries.next(entry.arg);
            puts.push(Drill {
                object: entry.arg,
                nth,
            })?;
        }
    }
    Ok(puts)
}

/// A put, and those of the next three of its object that are refused with it.
pub fn refused_with(alloc: Global, put: Drill, later: &Later) -> Result<Vec<Drill>, OutOfMemory> {
    let mut refused = Vec::new(alloc);
    refused.push(put)?;
    let mut nth = put.nth;
    for is_refused in later {
        nth = nth.saturating_add(1);
        if *is_refused {
            refused.push(Drill {
                object: put.object,
                nth,
            })?;
        }
    }
    Ok(refused)
}
