//! The objects of a script.

use crate::subject::add_name;
use action_script::forms::form::Form;
use action_script::forms::script::Line;
use caa_base::written::entry::OutOfMemory;
use std::alloc::Global;

/// An object: its name, its value at the beginning, and the line that declares it.
#[derive(Clone, Copy)]
pub struct Thing {
    pub name: u32,
    pub value: i64,
    pub line: u32,
}

/// The objects in their order, and the names of those that an `add` step writes: what these count has no way back.
#[derive(Drop)]
pub struct Things {
    pub all: Vec<Thing>,
    counted: Vec<u32>,
}

/// The objects that these lines declare.
fn declared(alloc: Global, lines: &[Line]) -> Result<Vec<Thing>, OutOfMemory> {
    let mut things = Vec::new(alloc);
    for line in lines {
        if let Form::Object(name, value) = &line.form {
            things.push(Thing {
                name: *name,
                value: *value,
                line: line.number,
            })?;
        }
    }
    Ok(things)
}

/// The objects that an `add` step writes.
fn counted_in(alloc: Global, lines: &[Line]) -> Result<Vec<u32>, OutOfMemory> {
    let mut counted = Vec::new(alloc);
    for line in lines {
        if let Form::AddStep(object, _) = &line.form {
            add_name(&mut counted, *object)?;
        }
    }
    Ok(counted)
}

impl Things {
    /// The objects of these lines.
    pub fn of(alloc: Global, lines: &[Line]) -> Result<Things, OutOfMemory> {
        Ok(Things {
            all: declared(alloc, lines)?,
            counted: counted_in(alloc, lines)?,
        })
    }

    /// Whether an `add` step writes it.
    pub fn is_counted(&self, object: u32) -> bool {
        self.counted.as_slice().contains(&object)
    }

    /// Whether a value is the one that an object has at the beginning.
    pub fn is_first(&self, object: u32, value: i64) -> bool {
        self.all
            .iter()
            .any(|thing| thing.name == object && thing.value == value)
    }

    /// Whether an object is declared before another, and so set back before it.
    pub fn is_before(&self, object: u32, other: u32) -> bool {
        for thing in self.all.iter() {
            if thing.name == object {
                return object != other;
            }
            if thing.name == other {
                return false;
            }
        }
        false
    }

    /// The line of the first object; none where there are none.
    pub fn first_line(&self) -> Option<u32> {
        Some(self.all.first()?.line)
    }
}
