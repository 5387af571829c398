ghost use Rattle.std.specs.Prelude.{◌≡◌, ◌<◌, ◌≤◌, ◌+◌, ◌↔◌, [], length, replicate, slice_set, slice_index, slice_index_or, if◌then◌else◌, Some, is_err, IsTrue, IsErrOf, OnOk, OnErr};
ghost use Rattle.caa_base.specs.Outside.PlantState.{after_put, is_drilled, next_try};
ghost use Rattle.caa_base.specs.Outside.Counts.{counted_up, faults_after};
ghost use Rattle.caa_base.specs.Outside.Memory.{empty_plant};

use crate::outside::count::counted_up;
use crate::outside::memory::drills::Drills;
use crate::outside::memory::sure_plant::SurePlant;
use crate::outside::plant::{Plant, PlantError};
use crate::written::entry::{Drill, Entry, Failed, Object};
use std::alloc::Global;
use std::marker::Model;

/// A plant in memory, whose calls fail where that was asked for.
#[derive(Drop)]
pub struct MemPlant {
    plant: SurePlant,
    drills: Option<Drills>,
    fail_lay: bool,
    lay_faults: u64,
    faults: u64,
}

impl Model for MemPlant {
    ghost use Rattle.std.specs.Prelude.{◌≡◌, ◌≤◌, ℕ, length, slice_index};
    ghost use Rattle.caa_base.specs.Outside.Memory.{FailingPlant};
    ghost use Rattle.caa_base.specs.inner.PlantMemory.{drilling_of};

    ghost Value = { FailingPlant };

    ghost view = { λ p. record {
      plant = p.plant;
      drilling = drilling_of p.drills;
      fail_lay = p.fail_lay;
      lay_faults = p.lay_faults;
      faults = p.faults;
    } };

    ghost invariant = { λ p. record {
      objects : length (drilling_of p.drills).tries ≡ length p.plant.state.values;
      tries : (o : ℕ) → slice_index (drilling_of p.drills).tries o ≤ p.plant.calls;
    } };
}

impl MemPlant {
    /// A plant with no objects and no room for puts, whose `lay` fails always or never. It takes
    /// no memory.
    pub fn new(fail_lay: bool) -> Self
        ensures fail_lay { result.fail_lay ≡ fail_lay }
        ensures plant { result.plant ≡ empty_plant }
        ensures drilling { result.drilling ≡ record { drills = []; tries = [] } }
        ensures lay_faults { result.lay_faults ≡ 0 }
        ensures faults { result.faults ≡ 0 }
    {
        MemPlant {
            plant: SurePlant::new(),
            drills: None,
            fail_lay,
            lay_faults: 0,
            faults: 0,
        }
    }

    /// The value of an object.
    pub fn value(&self, object: Object) -> i64
        requires { object < length self.now.plant.state.values }
        ensures { result ≡ slice_index_or self.now.plant.state.values object result }
    {
        self.plant.value(object)
    }

    /// The puts that were made since the plant was laid out, the oldest first.
    pub fn puts(&self) -> &[(Object, i64)]
        ensures { result.now ≡ self.now.plant.state.puts }
    {
        self.plant.puts()
    }
}

impl Plant for MemPlant {
    ghost lay_faults = { λ p. p.lay_faults };

    ghost faults = { λ p. p.faults };

    ghost state = { λ p. Some p.plant.state };

    ghost drilling = { λ p. Some p.drilling };

    ghost calls = { λ p. p.plant.calls };

    ghost room = { λ p. p.plant.room };

    ghost objects = { λ p. length p.plant.state.values };

    fn lay(
        &mut self,
        alloc: Global,
        values: &[i64],
        drills: &[Drill],
        puts: u64,
    ) -> Result<(), PlantError>
        ensures fails { IsErrOf result PlantError.Failed ↔ IsTrue self.old.fail_lay }
        ensures values { OnOk result (self.new.plant.state.values ≡ values.now) }
        ensures puts { OnOk result (self.new.plant.state.puts ≡ []) }
        ensures calls { OnOk result (self.new.plant.calls ≡ 0) }
        ensures room { OnOk result (self.new.plant.room ≡ puts) }
        ensures drills { OnOk result (self.new.drilling.drills ≡ drills.now) }
        ensures tries { OnOk result (self.new.drilling.tries ≡ replicate (length values.now) 0) }
        ensures kept { OnErr result (self.new.plant ≡ self.old.plant) }
        ensures drilling_kept { OnErr result (self.new.drilling ≡ self.old.drilling) }
        ensures lay_faults { self.new.lay_faults ≡
            (if self.old.fail_lay then counted_up self.old.lay_faults else self.old.lay_faults) }
        ensures faults { self.new.faults ≡ self.old.faults }
        ensures fail_lay { self.new.fail_lay ≡ self.old.fail_lay }
    {
        if self.fail_lay {
            self.lay_faults = counted_up(self.lay_faults);
            return Err(PlantError::Failed);
        }
        let drills = Drills::new(alloc, drills, values.len())?;
        self.plant.lay_out(alloc, values, puts)?;
        self.drills = Some(drills);
        Ok(())
    }

    fn put(&mut self, object: Object, value: i64) -> Result<(), Failed>
        requires room { self.old.plant.calls < self.old.plant.room }
        requires laid { object < length self.old.plant.state.values }
        ensures drilled { is_err result ≡ is_drilled self.old.drilling object }
        ensures done { OnOk result (Some self.new.plant.state ≡ after_put (Some self.old.plant.state) object value) }
        ensures kept { OnErr result (self.new.plant.state ≡ self.old.plant.state) }
        ensures calls { self.new.plant.calls ≡ self.old.plant.calls + 1 }
        ensures room { self.new.plant.room ≡ self.old.plant.room }
        ensures drills { self.new.drilling.drills ≡ self.old.drilling.drills }
        ensures tries { self.new.drilling.tries ≡ slice_set self.old.drilling.tries object (next_try self.old.drilling object) }
        ensures faults { self.new.faults ≡ faults_after result self.old.faults }
        ensures lay_faults { self.new.lay_faults ≡ self.old.lay_faults }
        ensures fail_lay { self.new.fail_lay ≡ self.old.fail_lay }
    {
        self.plant.count();
        let Some(drills) = &mut self.drills else {
            unreachable!();
        };
        if drills.is_next(object) {
            self.faults = counted_up(self.faults);
            return Err(Failed);
        }
        self.plant.set(object, value);
        Ok(())
    }

    fn restore(&mut self, object: Object, value: i64) -> Result<(), Failed> {
        self.put(object, value)
    }

    #[inline(always)]
    fn entered(&mut self, _entry: &Entry)
        ensures { self.new ≡ self.old }
    {}

    fn lay_faults(&self) -> u64 {
        self.lay_faults
    }

    fn faults(&self) -> u64 {
        self.faults
    }
}
