ghost use Rattle.std.specs.Prelude.{◌≡◌, ◌<◌, ◌^◌, length, replicate, slice_set, IfOk};
ghost use Rattle.caa_base.specs.Outside.PlantState.{has_drill, is_drilled, next_try};

use crate::written::entry::{Drill, Object, OutOfMemory};
use std::alloc::Global;
use std::marker::Model;

/// Which puts are to be refused, and how many of each object were tried.
#[derive(Drop)]
pub struct Drills {
    drills: Vec<Drill>,
    tries: Vec<u64>,
}

impl Model for Drills {
    ghost use Rattle.caa_base.specs.Outside.PlantState.{Drilling};

    ghost Value = { Drilling };

    ghost view = { λ d. record { drills = d.drills.items; tries = d.tries.items } };
}

impl Drills {
    /// These drills, for so many objects, of which none was tried yet.
    pub fn new(alloc: Global, drills: &[Drill], objects: usize) -> Result<Self, OutOfMemory>
        ensures drills { IfOk result (λ d. d.drills ≡ drills.now) }
        ensures tries { IfOk result (λ d. d.tries ≡ replicate objects 0) }
    {
        let drills = Vec::from_slice(alloc, drills)?;
        let tries = vec![in alloc; 0u64; objects]?;
        Ok(Drills { drills, tries })
    }

    /// Counts one more try of this object, and says whether it is to be refused.
    pub fn is_next(&mut self, object: Object) -> bool
        requires object { object < length self.old.tries }
        requires few { next_try self.old object < 2 ^ 64 }
        ensures refused { result ≡ is_drilled self.old object }
        ensures tries { self.new.tries ≡ slice_set self.old.tries object (next_try self.old object) }
        ensures drills { self.new.drills ≡ self.old.drills }
    {
        let nth = self.tries[object as usize] + 1;
        self.tries[object as usize] = nth;
        has_drill(&self.drills, object, nth)
    }
}

/// Whether a drill refuses the put of this object that is the `nth` one, counted from 1.
fn has_drill(drills: &[Drill], object: Object, nth: u64) -> bool
    ensures { result ≡ has_drill drills.now object nth }
{
    drills.iter().any(|drill| drill.object == object && u64::from(drill.nth) == nth)
}
