ghost use Rattle.std.specs.Prelude.{None};

use crate::stroke::Stroke;
use caa_base::outside::plant::{Plant, PlantError};
use caa_base::written::entry::{Drill, Entry, Failed, Object};
use std::alloc::Global;

/// A device of our own: a press that begins a stroke at a put, and refuses one while another is under way. It tells no values, as most
/// devices don't.
#[derive(Drop)]
pub struct SlowPress<'a> {
    stroke: &'a Stroke,
    objects: u64,
    calls: u64,
    room: u64,
    faults: u64,
}

impl<'a> SlowPress<'a> {
    /// A press whose strokes are these.
    pub fn new(stroke: &'a Stroke) -> SlowPress<'a> {
        SlowPress {
            stroke,
            objects: 0,
            calls: 0,
            room: 0,
            faults: 0,
        }
    }

    /// Whether the press begins this stroke.
    fn strikes(&self, _object: Object, _value: i64) -> bool {
        self.stroke.begin()
    }
}

impl<'a> Plant for SlowPress<'a> {
    ghost lay_faults = { λ _. 0 };

    ghost faults = { λ p. p.faults };

    ghost state = { λ _. None };

    ghost calls = { λ p. p.calls };

    ghost room = { λ p. p.room };

    ghost objects = { λ p. p.objects };

    fn lay(
        &mut self,
        _alloc: Global,
        values: &[i64],
        _drills: &[Drill],
        puts: u64,
    ) -> Result<(), PlantError> {
        self.objects = values.len() as u64;
        self.calls = 0;
        self.room = puts;
        Ok(())
    }

    fn put(&mut self, object: Object, value: i64) -> Result<(), Failed> {
        self.calls += 1;
        if self.strikes(object, value) {
            return Ok(());
        }
        if self.faults < u64::MAX {
            self.faults += 1;
        }
        Err(Failed)
    }

    fn restore(&mut self, object: Object, value: i64) -> Result<(), Failed> {
        self.put(object, value)
    }

    fn entered(&mut self, _entry: &Entry) {}

    fn lay_faults(&self) -> u64 {
        0
    }

    fn faults(&self) -> u64 {
        self.faults
    }
}
