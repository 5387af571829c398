ghost use Rattle.std.specs.Prelude.{◌≡◌, ◌<◌, ◌∷◌, ◌++◌, [], length, slice_set, slice_index_or, IfOk};

use crate::written::entry::{Object, OutOfMemory};
use std::alloc::Global;
use std::marker::Model;

/// What a plant in memory keeps from when it is laid out: the values, the puts, and room for more.
#[derive(Drop)]
pub struct Laid {
    values: Vec<i64>,
    puts: Vec<(Object, i64)>,
}

impl Model for Laid {
    ghost use Rattle.std.specs.Prelude.{vec_capacity};
    ghost use Rattle.caa_base.specs.inner.PlantMemory.{Laid as LaidValue};

    ghost Value = { LaidValue };

    ghost view = { λ l. record { state = record { values = l.values.items; puts = l.puts.items }; room = vec_capacity l.puts } };
}

impl Laid {
    /// These values, no puts yet, and room for this many.
    pub fn new(alloc: Global, values: &[i64], room: u64) -> Result<Self, OutOfMemory>
        ensures values { IfOk result (λ laid. laid.state.values ≡ values.now) }
        ensures puts { IfOk result (λ laid. laid.state.puts ≡ []) }
        ensures room { IfOk result (λ laid. laid.room ≡ room) }
    {
        let values = Vec::from_slice(alloc, values)?;
        let puts = Vec::with_capacity(alloc, room as usize)?;
        Ok(Laid { values, puts })
    }

    /// Sets the value of an object, and keeps the put.
    pub fn put(&mut self, object: Object, value: i64)
        requires laid { object < length self.old.state.values }
        requires room { length self.old.state.puts < self.old.room }
        ensures values { self.new.state.values ≡ slice_set self.old.state.values object value }
        ensures puts { self.new.state.puts ≡ self.old.state.puts ++ (object, value) ∷ [] }
        ensures room { self.new.room ≡ self.old.room }
    {
        self.values[object as usize] = value;
        self.puts.push_reserved((object, value));
    }

    /// The value of an object.
    pub fn value(&self, object: Object) -> i64
        requires { object < length self.now.state.values }
        ensures { result ≡ slice_index_or self.now.state.values object result }
    {
        self.values[object as usize]
    }

    /// The puts, the oldest first.
    pub fn puts(&self) -> &[(Object, i64)]
        ensures { result.now ≡ self.now.state.puts }
    {
        self.puts.as_slice()
    }
}
