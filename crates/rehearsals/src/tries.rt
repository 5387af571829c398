//! Which put of its object a put of a journal is.

use crate::facts::tries_put;
use caa_base::written::entry::{Drill, Kind, Object, OutOfMemory};
use caa_base::written::journal::Journal;
use place_plan::plans::plan::Plan;
use std::alloc::Global;

/// How many puts of each object were tried.
#[derive(Drop)]
pub struct Tries {
    counts: Vec<u32>,
}

impl Tries {
    /// None.
    pub fn new(alloc: Global, plan: &Plan) -> Result<Self, OutOfMemory> {
        let mut counts = Vec::new(alloc);
        for _ in 0..plan.objects() {
            counts.push(0u32)?;
        }
        Ok(Tries { counts })
    }

    /// The number of the next put of an object.
    pub fn next(&mut self, object: Object) -> u32 {
        match self.counts.get_mut(object as usize) {
            Some(count) => {
                *count = count.saturating_add(1);
                *count
            }
            None => 0,
        }
    }
}

/// The puts that a journal says were refused.
pub fn refused_in(
    alloc: Global,
    plan: &Plan,
    journal: &Journal,
) -> Result<Vec<Drill>, OutOfMemory> {
    let mut tries = Tries::new(alloc, plan)?;
    let mut refused = Vec::new(alloc);
    for entry in journal.as_slice() {
        if tries_put(entry) {
            let nth = tries.next(entry.arg);
            if entry.kind == Kind::PutFault || (entry.kind == Kind::Restore && entry.mark != 0) {
                refused.push(Drill {
                    object: entry.arg,
                    nth,
                })?;
            }
        }
    }
    Ok(refused)
}
