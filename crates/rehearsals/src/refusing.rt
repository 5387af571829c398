//! A device in memory that refuses the puts that were asked for, and tells nothing but its counts.

ghost use Rattle.std.specs.Prelude.{◌≡◌, length, None, IfOk};
ghost use Rattle.caa_base.specs.Outside.Counts.{counted_up};

use caa_base::outside::plant::{Plant, PlantError};
use caa_base::written::entry::{Drill, Entry, Failed, Object, OutOfMemory};
use std::alloc::Global;

/// The puts that are refused beside those of the drills.
#[derive(Clone, Copy)]
pub enum Trouble {
    /// None.
    Nothing,
    /// The puts of this object from its `nth` one on.
    Stuck(Drill),
    /// All puts from this one on, counted from 1.
    Dead(u64),
}

/// Which puts a device refuses.
#[derive(Drop)]
pub struct Refusals {
    pub drills: Vec<Drill>,
    pub trouble: Trouble,
}

/// A device that refuses puts as it was asked to. The drills of the plan that it is laid out for are left aside.
#[derive(Drop)]
pub struct RefusingPlant {
    refusals: Refusals,
    /// How many puts of each object were tried.
    tries: Vec<u32>,
    calls: u64,
    room: u64,
    faults: u64,
}

/// Whether a drill names this put.
fn is_named(drills: &[Drill], object: Object, nth: u32) -> bool {
    drills
        .iter()
        .any(|drill| drill.object == object && drill.nth == nth)
}

/// A count of tries for each object, of which none was made.
fn untried(alloc: Global, objects: usize) -> Result<Vec<u32>, OutOfMemory>
    ensures { IfOk result (λ tries. length tries.items ≡ objects) }
{
    Ok(vec![in alloc; 0u32; objects]?)
}

/// A count after one more; it stops at its last number.
fn one_more(count: u64) -> u64
    ensures { result ≡ counted_up count }
{
    if count < u64::MAX { count + 1 } else { count }
}

impl RefusingPlant {
    /// A device with no objects and no room for puts.
    pub fn new(alloc: Global, refusals: Refusals) -> Self {
        RefusingPlant {
            refusals,
            tries: Vec::new(alloc),
            calls: 0,
            room: 0,
            faults: 0,
        }
    }

    /// Whether it refuses the put of this object that is its `nth` one.
    fn refuses(&self, object: Object, nth: u32) -> bool {
        if is_named(&self.refusals.drills, object, nth) {
            return true;
        }
        match self.refusals.trouble {
            Trouble::Nothing => false,
            Trouble::Stuck(drill) => drill.object == object && nth >= drill.nth,
            Trouble::Dead(from) => self.calls >= from,
        }
    }
}

impl Plant for RefusingPlant {
    ghost lay_faults = { λ _. 0 };

    ghost faults = { λ p. p.faults };

    ghost state = { λ _. None };

    ghost calls = { λ p. p.calls };

    ghost room = { λ p. p.room };

    ghost objects = { λ p. length p.tries.items };

    fn lay(
        &mut self,
        alloc: Global,
        values: &[i64],
        _drills: &[Drill],
        puts: u64,
    ) -> Result<(), PlantError> {
        let tries = untried(alloc, values.len())?;
        self.tries = tries;
        self.calls = 0;
        self.room = puts;
        Ok(())
    }

    fn put(&mut self, object: Object, _value: i64) -> Result<(), Failed> {
        self.calls += 1;
        let nth = self.tries[object as usize].saturating_add(1);
        self.tries[object as usize] = nth;
        if self.refuses(object, nth) {
            self.faults = one_more(self.faults);
            return Err(Failed);
        }
        Ok(())
    }

    fn restore(&mut self, object: Object, value: i64) -> Result<(), Failed> {
        self.put(object, value)
    }

    #[inline(always)]
    fn entered(&mut self, _entry: &Entry) {}

    fn lay_faults(&self) -> u64 {
        0
    }

    fn faults(&self) -> u64 {
        self.faults
    }
}
