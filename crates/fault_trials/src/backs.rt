//! What journals set back: values that a failed play had left, and objects that moved first and are set back first.

use crate::effects::Standing;
use crate::puts::action_number;
use caa_base::written::entry::{Entry, Kind, Object, OutOfMemory, Outcome, Place};
use caa_base::written::journal::Journal;
use place_plan::plans::plan::Plan;
use rehearsals::facts::{note_put, takes_put, value_in};
use std::alloc::Global;

/// Two objects of an action: the first moved first, and was set back first, while the second was still away.
#[derive(Clone, Copy, PartialEq, Eq)]
pub struct Crossing {
    /// The number of the action.
    pub action: u32,
    pub first: Object,
    pub second: Object,
}

/// What journals set back.
#[derive(Drop)]
pub struct Backs {
    /// Values that a failed play had left away from the first ones, and a later play set back to.
    pub leavings: Vec<Standing>,
    pub crossings: Vec<Crossing>,
}

/// What a place found in an object, as a failed play had left it.
#[derive(Clone, Copy)]
struct Found {
    place: Place,
    standing: Standing,
}

/// How far a journal was read.
#[derive(Drop)]
struct Reading {
    firsts: Vec<i64>,
    values: Vec<i64>,
    /// Of each object what a failed play left in it, as long as nothing else is put there.
    left: Vec<Option<i64>>,
    found: Vec<Found>,
}

/// Nothing was left in any object.
fn nothing_left(alloc: Global, plan: &Plan) -> Result<Vec<Option<i64>>, OutOfMemory> {
    let mut left = Vec::new(alloc);
    for _ in 0..plan.objects() {
        left.push(None)?;
    }
    Ok(left)
}

/// Adds a standing, unless it is among these.
fn add_standing(standings: &mut Vec<Standing>, standing: Standing) -> Result<(), OutOfMemory> {
    if !standings.iter().any(|other| *other == standing) {
        standings.push(standing)?;
    }
    Ok(())
}

/// Adds a crossing, unless it is among these.
fn add_crossing(crossings: &mut Vec<Crossing>, crossing: Crossing) -> Result<(), OutOfMemory> {
    if !crossings.iter().any(|other| *other == crossing) {
        crossings.push(crossing)?;
    }
    Ok(())
}

impl Reading {
    fn new(alloc: Global, plan: &Plan) -> Result<Self, OutOfMemory> {
        Ok(Reading {
            firsts: plan.initials(alloc)?,
            values: plan.initials(alloc)?,
            left: nothing_left(alloc, plan)?,
            found: Vec::new(alloc),
        })
    }

    fn set_left(&mut self, object: Object, value: Option<i64>) {
        if let Some(slot) = self.left.get_mut(object as usize) {
            *slot = value;
        }
    }

    /// What a failed play left in an object, where nothing else was put there since.
    fn left_in(&self, object: Object) -> Option<i64> {
        self.left.get(object as usize).copied().unwrap_or(None)
    }

    /// Whether a place found an object as a failed play had left it.
    fn has_found(&self, place: Place, object: Object) -> bool {
        self.found.iter().any(|found| found.place == place && found.standing.object == object)
    }

    /// A place begins, and finds its objects.
    fn begin(&mut self, plan: &Plan, place: Place) -> Result<(), OutOfMemory> {
        for object in plan.objects_of(place) {
            if let Some(value) = self.left_in(*object) {
                let standing = Standing {
                    object: *object,
                    value,
                };
                self.found.push(Found { place, standing })?;
            }
        }
        Ok(())
    }

    /// A play failed, and leaves its objects.
    fn fail(&mut self, plan: &Plan, play: Place) {
        for object in plan.objects_of(play) {
            let value = value_in(&self.values, *object);
            let is_away = value != value_in(&self.firsts, *object);
            self.set_left(*object, if is_away { Some(value) } else { None });
        }
    }

    /// An object is set back.
    fn set_back(&mut self, entry: &Entry, leavings: &mut Vec<Standing>) -> Result<(), OutOfMemory> {
        let standing = Standing {
            object: entry.arg,
            value: entry.value,
        };
        if self.has_found(entry.place, entry.arg) {
            add_standing(leavings, standing)?;
            self.set_left(entry.arg, Some(entry.value));
        } else {
            self.set_left(entry.arg, None);
        }
        Ok(())
    }

    /// Takes note of an entry.
    fn note(
        &mut self,
        plan: &Plan,
        entry: &Entry,
        leavings: &mut Vec<Standing>,
    ) -> Result<(), OutOfMemory> {
        note_put(&mut self.values, entry);
        match entry.kind {
            Kind::Start => self.begin(plan, entry.place)?,
            Kind::Write => self.set_left(entry.arg, None),
            Kind::Restore if takes_put(entry) => self.set_back(entry, leavings)?,
            Kind::End if fails_play(plan, entry) => self.fail(plan, entry.place),
            _ => {}
        }
        Ok(())
    }
}

/// Whether an end is one of a play that failed.
fn fails_play(plan: &Plan, entry: &Entry) -> bool {
    plan.parent(entry.place).is_none()
        && matches!(Outcome::of_mark(entry.mark, entry.arg), Outcome::Failed)
}

/// The entries of a journal from the start of a place on.
fn since_start(entries: &[Entry], place: Place) -> &[Entry] {
    for (index, entry) in entries.iter().enumerate() {
        if entry.kind == Kind::Start && entry.place == place {
            return entries.get(index..).unwrap_or(&[]);
        }
    }
    &[]
}

/// Which of these entries moved an object away from a value, if it hasn't come back to it since.
fn moved_at(entries: &[Entry], object: Object, value: i64) -> Option<usize> {
    let mut moved = None;
    for (index, entry) in entries.iter().enumerate() {
        if takes_put(entry) && entry.arg == object {
            if entry.value == value {
                moved = None;
            } else if moved.is_none() {
                moved = Some(index);
            }
        }
    }
    moved
}

/// Whether an entry sets back an object of a place.
fn sets_back(entry: &Entry, place: Place) -> bool {
    entry.kind == Kind::Restore && entry.place == place
}

impl Backs {
    /// Nothing was set back.
    pub fn new(alloc: Global) -> Self {
        Backs {
            leavings: Vec::new(alloc),
            crossings: Vec::new(alloc),
        }
    }

    /// Takes note of what a journal sets back to what a failed play had left.
    pub fn note_leavings(
        &mut self,
        alloc: Global,
        plan: &Plan,
        journal: &Journal,
    ) -> Result<(), OutOfMemory> {
        let mut reading = Reading::new(alloc, plan)?;
        for entry in journal.as_slice() {
            reading.note(plan, entry, &mut self.leavings)?;
        }
        Ok(())
    }

    /// Takes note of the objects that moved after one that is set back here, and are set back later.
    fn note_crossings_of(
        &mut self,
        plan: &Plan,
        past: &[Entry],
        entry: &Entry,
        later: &[Entry],
    ) -> Result<(), OutOfMemory> {
        let past = since_start(past, entry.place);
        let Some(moved) = moved_at(past, entry.arg, entry.value) else {
            return Ok(());
        };
        for other in later {
            if sets_back(other, entry.place)
                && is_later(moved, moved_at(past, other.arg, other.value))
            {
                let crossing = Crossing {
                    action: action_number(plan, entry.place),
                    first: entry.arg,
                    second: other.arg,
                };
                add_crossing(&mut self.crossings, crossing)?;
            }
        }
        Ok(())
    }

    /// Takes note of the objects of a journal that moved first and are set back first.
    pub fn note_crossings(&mut self, plan: &Plan, journal: &Journal) -> Result<(), OutOfMemory> {
        let entries = journal.as_slice();
        for (index, entry) in entries.iter().enumerate() {
            if entry.kind == Kind::Restore && takes_put(entry) {
                let past = entries.get(..index).unwrap_or(&[]);
                let later = entries.get(index..).unwrap_or(&[]);
                self.note_crossings_of(plan, past, entry, later)?;
            }
        }
        Ok(())
    }
}

/// Whether something moved, and later than this.
fn is_later(moved: usize, other: Option<usize>) -> bool {
    match other {
        Some(index) => moved < index,
        None => false,
    }
}
