//! A device in memory that refuses one put.

ghost use Rattle.std.specs.Prelude.{◌≡◌, None, if◌then◌else◌};

use caa_base::outside::plant::{Plant, PlantError};
use caa_base::written::entry::{Drill, Entry, Failed, Object};
use std::alloc::Global;

/// A device that refuses the put that a drill names, and no other. The drills of the plan that it is laid out for are left aside.
///
/// It counts one fault at most, so a journal that it was asked by has one refused put or none.
#[derive(Drop)]
pub struct OncePlant {
    drill: Drill,
    /// How many puts of the drill's object were tried.
    tries: u32,
    has_refused: bool,
    objects: usize,
    calls: u64,
    room: u64,
}

impl OncePlant {
    /// A device with no objects and no room for puts.
    pub fn new(drill: Drill) -> Self {
        OncePlant {
            drill,
            tries: 0,
            has_refused: false,
            objects: 0,
            calls: 0,
            room: 0,
        }
    }

    /// Whether the next put of this object is the one to be refused. It is counted.
    fn is_next(&mut self, object: Object) -> bool
        ensures has_refused { self.new.has_refused ≡ self.old.has_refused }
        ensures objects { self.new.objects ≡ self.old.objects }
        ensures calls { self.new.calls ≡ self.old.calls }
        ensures room { self.new.room ≡ self.old.room }
    {
        if object != self.drill.object {
            return false;
        }
        self.tries = self.tries.saturating_add(1);
        self.tries == self.drill.nth
    }
}

impl Plant for OncePlant {
    ghost lay_faults = { λ _. 0 };

    ghost faults = { λ p. if p.has_refused then 1 else 0 };

    ghost state = { λ _. None };

    ghost calls = { λ p. p.calls };

    ghost room = { λ p. p.room };

    ghost objects = { λ p. p.objects };

    fn lay(
        &mut self,
        _alloc: Global,
        values: &[i64],
        _drills: &[Drill],
        puts: u64,
    ) -> Result<(), PlantError> {
        self.tries = 0;
        self.objects = values.len();
        self.calls = 0;
        self.room = puts;
        Ok(())
    }

    #[tactic(auto, using(crate::proofs::Alone::counts_once, crate::proofs::Alone::counts_not))]
    fn put(&mut self, object: Object, _value: i64) -> Result<(), Failed> {
        self.calls += 1;
        if self.is_next(object) && !self.has_refused {
            self.has_refused = true;
            return Err(Failed);
        }
        Ok(())
    }

    fn restore(&mut self, object: Object, value: i64) -> Result<(), Failed> {
        self.put(object, value)
    }

    #[inline(always)]
    fn entered(&mut self, _entry: &Entry) {}

    fn lay_faults(&self) -> u64 {
        0
    }

    fn faults(&self) -> u64 {
        if self.has_refused { 1 } else { 0 }
    }
}
