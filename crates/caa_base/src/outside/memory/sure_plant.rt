ghost use Rattle.std.specs.Prelude.{◌≡◌, ◌<◌, ◌+◌, ◌^◌, [], length, slice_index_or, Some, OnOk, OnErr};
ghost use Rattle.caa_base.specs.Outside.Memory.{empty_plant};
ghost use Rattle.caa_base.specs.Outside.PlantState.{after_put};

use crate::outside::memory::laid::Laid;
use crate::outside::plant::{Plant, PlantError};
use crate::written::entry::{Drill, Entry, Failed, Object, OutOfMemory};
use std::alloc::Global;
use std::marker::Model;

/// A plant in memory that never fails.
#[derive(Default, Drop)]
pub struct SurePlant {
    laid: Option<Laid>,
    calls: u64,
    room: u64,
}

impl Model for SurePlant {
    ghost use Rattle.std.specs.Prelude.{◌≤◌, length};
    ghost use Rattle.caa_base.specs.Outside.Memory.{WillingPlant};
    ghost use Rattle.caa_base.specs.inner.PlantMemory.{state_of, room_of};

    ghost Value = { WillingPlant };

    ghost view = { λ p. record { state = state_of p.laid; calls = p.calls; room = p.room } };

    ghost invariant = { λ p. record {
      puts : length (state_of p.laid).puts ≤ p.calls;
      calls : p.calls ≤ p.room;
      memory : p.room ≤ room_of p.laid;
    } };
}

impl SurePlant {
    /// A plant with no objects and no room for puts. It takes no memory.
    pub fn new() -> Self
        ensures { result ≡ empty_plant }
    {
        SurePlant {
            laid: None,
            calls: 0,
            room: 0,
        }
    }

    /// The value of an object.
    pub fn value(&self, object: Object) -> i64
        requires { object < length self.now.state.values }
        ensures { result ≡ slice_index_or self.now.state.values object result }
    {
        match &self.laid {
            Some(laid) => laid.value(object),
            None => unreachable!(),
        }
    }

    /// The puts that were made since the plant was laid out, the oldest first.
    pub fn puts(&self) -> &[(Object, i64)]
        ensures { result.now ≡ self.now.state.puts }
    {
        match &self.laid {
            Some(laid) => laid.puts(),
            None => &[],
        }
    }

    /// Lays out these values, and room for so many puts. Where no memory is found, all stays as it was.
    pub(super) fn lay_out(
        &mut self,
        alloc: Global,
        values: &[i64],
        puts: u64,
    ) -> Result<(), OutOfMemory>
        ensures values { OnOk result (self.new.state.values ≡ values.now) }
        ensures puts { OnOk result (self.new.state.puts ≡ []) }
        ensures calls { OnOk result (self.new.calls ≡ 0) }
        ensures room { OnOk result (self.new.room ≡ puts) }
        ensures refused { OnErr result (self.new ≡ self.old) }
    {
        let laid = Laid::new(alloc, values, puts)?;
        self.laid = Some(laid);
        self.calls = 0;
        self.room = puts;
        Ok(())
    }

    /// Counts one more call of `put`.
    pub(super) fn count(&mut self)
        requires { self.old.calls < self.old.room }
        ensures calls { self.new.calls ≡ self.old.calls + 1 }
        ensures fits { self.new.calls < 2 ^ 64 }
        ensures spare { length self.new.state.puts < self.new.calls }
        ensures state { self.new.state ≡ self.old.state }
        ensures room { self.new.room ≡ self.old.room }
    {
        self.calls += 1;
    }

    /// Sets the value of an object, and keeps the put, which was counted.
    pub(super) fn set(&mut self, object: Object, value: i64)
        requires laid { object < length self.old.state.values }
        requires spare { length self.old.state.puts < self.old.calls }
        ensures state { Some self.new.state ≡ after_put (Some self.old.state) object value }
        ensures calls { self.new.calls ≡ self.old.calls }
        ensures room { self.new.room ≡ self.old.room }
    {
        if let Some(laid) = &mut self.laid {
            laid.put(object, value);
        }
    }
}

impl Plant for SurePlant {
    ghost lay_faults = { λ _. 0 };

    ghost faults = { λ _. 0 };

    ghost state = { λ p. Some p.state };

    ghost calls = { λ p. p.calls };

    ghost room = { λ p. p.room };

    ghost objects = { λ p. length p.state.values };

    fn lay(
        &mut self,
        alloc: Global,
        values: &[i64],
        _drills: &[Drill],
        puts: u64,
    ) -> Result<(), PlantError> {
        self.lay_out(alloc, values, puts)?;
        Ok(())
    }

    fn put(&mut self, object: Object, value: i64) -> Result<(), Failed> {
        self.count();
        self.set(object, value);
        Ok(())
    }

    fn restore(&mut self, object: Object, value: i64) -> Result<(), Failed> {
        self.put(object, value)
    }

    #[inline(always)]
    fn entered(&mut self, _entry: &Entry)
        ensures { self.new ≡ self.old }
    {}

    fn lay_faults(&self) -> u64 {
        0
    }

    fn faults(&self) -> u64 {
        0
    }
}
