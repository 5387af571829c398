//! How plays end as long as the device refuses nothing, and what of the others is told as away.

ghost use Rattle.std.specs.Prelude.{◌≡◌, ◌==◌, true, false, not, ◌&&◌, ◌||◌, [], OnOk};
ghost use Rattle.std.specs.List.{list_any};
ghost use Rattle.caa_base.specs.Written.Lists.{member};
ghost use Rattle.fault_trials.specs.Classes.{is_same_left, is_same_way, is_usual, is_way, is_away, is_short, has_to_be_off, is_left, has_left, is_strange, has_strange};
ghost use Rattle.place_plan.specs.RulesOfJournals.Journals.{ends_play};
ghost use Rattle.rehearsals.specs.Facts.{value_in};
ghost use Rattle.fault_trials.specs.Measures.{IsAddedOnce, GrewBy, IsLeftBy, IsWayBy, IsLeftIn, IsWayIn};

use caa_base::written::entry::{Entry, Kind, Object, OutOfMemory, Place};
use place_plan::plans::plan::Plan;
use rehearsals::facts::{note_put, value_in};
use std::alloc::Global;
use std::marker::Model;

/// The value of an object at the end of a play.
#[derive(Clone, Copy)]
pub struct Left {
    pub play: Place,
    pub object: Object,
    pub value: i64,
}

/// The end of a play: its mark, and the exception beside it.
#[derive(Clone, Copy)]
pub struct Way {
    pub play: Place,
    pub mark: u32,
    pub exception: u32,
}

/// How the plays without a fault ended, and which objects count.
#[derive(Drop)]
pub struct Measure {
    lefts: Vec<Left>,
    ways: Vec<Way>,
    off: Vec<Object>,
    counted: Vec<Object>,
}

impl Model for Measure {
    ghost use Rattle.fault_trials.specs.Classes.{Measure};

    ghost Value = { Measure };

    ghost view = { λ m. record { lefts = m.lefts.items; ways = m.ways.items; off = m.off.items; counted = m.counted.items } };
}

/// The values of the objects at first, and when a play ended.
#[derive(Clone, Copy)]
pub struct Values<'a> {
    pub firsts: &'a [i64],
    pub lasts: &'a [i64],
    pub play: Place,
}

/// Whether two values at the end of a play are one.
fn is_same_left(left: &Left, other: &Left) -> bool
    ensures { result ≡ is_same_left left.now other.now }
{
    left.play == other.play && left.object == other.object && left.value == other.value
}

/// Whether two ends of a play are one.
fn is_same_way(way: &Way, other: &Way) -> bool
    ensures { result ≡ is_same_way way.now other.now }
{
    way.play == other.play && way.mark == other.mark && way.exception == other.exception
}

/// Whether a value at the end of a play is among these.
fn is_usual(lefts: &[Left], left: &Left) -> bool
    ensures { result ≡ list_any (is_same_left left.now) lefts.now }
{
    lefts.iter().any(|other| is_same_left(left, other))
}

/// Whether an end of a play is among these.
fn is_known_way(ways: &[Way], way: &Way) -> bool
    ensures { result ≡ list_any (is_same_way way.now) ways.now }
{
    ways.iter().any(|other| is_same_way(way, other))
}

/// Whether an object is among these.
fn is_among(objects: &[Object], object: Object) -> bool
    ensures { result ≡ member object objects.now }
{
    objects.iter().any(|other| *other == object)
}

impl Measure {
    /// No play was seen. The objects that have to be off are these, or all where there are none; those that are counted up are left
    /// aside.
    pub fn new(alloc: Global, off: Vec<Object>, counted: Vec<Object>) -> Self
        ensures off { result.off ≡ off.items }
        ensures counted { result.counted ≡ counted.items }
        ensures lefts { result.lefts ≡ [] }
        ensures ways { result.ways ≡ [] }
    {
        Measure {
            lefts: Vec::new(alloc),
            ways: Vec::new(alloc),
            off,
            counted,
        }
    }

    /// Whether objects were named that have to be off.
    pub fn has_off(&self) -> bool {
        !self.off.is_empty()
    }

    /// Whether a play without a fault left an object so.
    fn is_usual(&self, values: &Values, object: Object) -> bool
        ensures { result ≡ is_usual self.now values.now.play values.now.lasts.now object }
    {
        let left = Left {
            play: values.play,
            object,
            value: value_in(values.lasts, object),
        };
        is_usual(&self.lefts, &left)
    }

    /// Whether an object stands away at the end of a play: not at its first value, as no play without a fault leaves it. What is
    /// counted up is left aside.
    pub fn is_away(&self, values: &Values, object: Object) -> bool
        ensures { result ≡ is_away self.now values.now.play values.now.firsts.now values.now.lasts.now object }
    {
        !self.is_usual(values, object)
            && value_in(values.lasts, object) != value_in(values.firsts, object)
            && !is_among(&self.counted, object)
    }

    /// Whether an object stands at its first value at the end of a play, as no play without a fault leaves it.
    pub fn is_short(&self, values: &Values, object: Object) -> bool
        ensures { result ≡ is_short self.now values.now.play values.now.firsts.now values.now.lasts.now object }
    {
        !self.is_usual(values, object)
            && value_in(values.lasts, object) == value_in(values.firsts, object)
    }

    /// Whether an object has to be off: it was named, or none was.
    fn has_to_be_off(&self, object: Object) -> bool
        ensures { result ≡ has_to_be_off self.now object }
    {
        self.off.is_empty() || is_among(&self.off, object)
    }

    /// Whether an object that has to be off stands away.
    fn is_left(&self, values: &Values, object: Object) -> bool
        ensures { result ≡ is_left self.now values.now.play values.now.firsts.now values.now.lasts.now object }
    {
        self.is_away(values, object) && self.has_to_be_off(object)
    }

    /// Whether one of these objects has to be off and stands away.
    pub fn has_left(&self, values: &Values, objects: &[Object]) -> bool
        ensures { result ≡ has_left self.now values.now.play values.now.firsts.now values.now.lasts.now objects.now }
    {
        objects.iter().any(|object| self.is_left(values, *object))
    }

    /// Whether an object stands as no play without a fault leaves it.
    fn is_strange(&self, values: &Values, object: Object) -> bool
        ensures { result ≡ is_strange self.now values.now.play values.now.firsts.now values.now.lasts.now object }
    {
        self.is_away(values, object) || self.is_short(values, object)
    }

    /// Whether one of these objects stands as no play without a fault leaves it.
    pub fn has_strange(&self, values: &Values, objects: &[Object]) -> bool
        ensures { result ≡ has_strange self.now values.now.play values.now.firsts.now values.now.lasts.now objects.now }
    {
        objects
            .iter()
            .any(|object| self.is_strange(values, *object))
    }

    /// Whether a play without a fault ended so.
    pub fn is_way(&self, play: Place, ending: Option<Entry>) -> bool
        ensures { result ≡ is_way self.now play ending }
    {
        match ending {
            Some(entry) => {
                let way = Way {
                    play,
                    mark: entry.mark,
                    exception: entry.arg,
                };
                is_known_way(&self.ways, &way)
            }
            None => false,
        }
    }
}

/// Adds a value at the end of a play, unless it is among these.
#[tactic(auto, using(crate::proofs::Measured::stays_once, crate::proofs::Measured::added_once))]
fn add_left(lefts: &mut Vec<Left>, left: Left) -> Result<(), OutOfMemory>
    ensures { OnOk result (IsAddedOnce lefts.old.items lefts.new.items left) }
{
    if is_usual(lefts, &left) {
        return Ok(());
    }
    lefts.push(left)?;
    Ok(())
}

/// Adds an end of a play, unless it is among these.
#[tactic(auto, using(crate::proofs::Measured::stays_once, crate::proofs::Measured::added_once))]
fn add_way(ways: &mut Vec<Way>, way: Way) -> Result<(), OutOfMemory>
    ensures { OnOk result (IsAddedOnce ways.old.items ways.new.items way) }
{
    if is_known_way(ways, &way) {
        return Ok(());
    }
    ways.push(way)?;
    Ok(())
}

/// How an object is left by the end of a play, with the values as they are then.
fn left_by(ending: &Entry, values: &[i64], object: Object) -> Left
    ensures play { result.play ≡ ending.now.place }
    ensures object { result.object ≡ object }
    ensures value { result.value ≡ value_in values.now object }
{
    Left {
        play: ending.place,
        object,
        value: value_in(values, object),
    }
}

/// Adds the values of these objects at the end of a play.
fn add_lefts(
    lefts: &mut Vec<Left>,
    plan: &Plan,
    ending: &Entry,
    values: &[i64],
) -> Result<(), OutOfMemory>
    requires { ends_play plan.now ending.now ≡ true }
    ensures { OnOk result (GrewBy (IsLeftBy plan.now ending.now values.now) lefts.old.items lefts.new.items) }
{
    for object in plan.objects_of(ending.place) {
        let left = left_by(ending, values, *object);
        add_left(lefts, left)?;
    }
    Ok(())
}

/// Whether an entry is the end of a play.
fn ends_play(plan: &Plan, entry: &Entry) -> bool
    ensures { result ≡ ends_play plan.now entry.now }
{
    entry.kind == Kind::End && plan.parent(entry.place).is_none()
}

/// Takes note of the end of a play, with the values as they are then.
fn note_end(
    lefts: &mut Vec<Left>,
    ways: &mut Vec<Way>,
    plan: &Plan,
    ending: &Entry,
    values: &[i64],
) -> Result<(), OutOfMemory>
    requires { ends_play plan.now ending.now ≡ true }
    ensures lefts { OnOk result (GrewBy (IsLeftBy plan.now ending.now values.now) lefts.old.items lefts.new.items) }
    ensures ways { OnOk result (GrewBy (IsWayBy plan.now ending.now) ways.old.items ways.new.items) }
{
    let way = Way {
        play: ending.place,
        mark: ending.mark,
        exception: ending.arg,
    };
    add_way(ways, way)?;
    add_lefts(lefts, plan, ending, values)?;
    Ok(())
}

/// Takes note of an entry: of the end of a play, with the values as they are then.
#[tactic(auto, using(crate::proofs::Measured::grew_none))]
fn note_entry(
    lefts: &mut Vec<Left>,
    ways: &mut Vec<Way>,
    plan: &Plan,
    entry: &Entry,
    values: &[i64],
) -> Result<(), OutOfMemory>
    ensures lefts { OnOk result (GrewBy (IsLeftBy plan.now entry.now values.now) lefts.old.items lefts.new.items) }
    ensures ways { OnOk result (GrewBy (IsWayBy plan.now entry.now) ways.old.items ways.new.items) }
{
    if !ends_play(plan, entry) {
        return Ok(());
    }
    note_end(lefts, ways, plan, entry, values)?;
    Ok(())
}

/// Takes note of the ends of the plays of a journal.
fn note_ends(
    alloc: Global,
    lefts: &mut Vec<Left>,
    ways: &mut Vec<Way>,
    plan: &Plan,
    entries: &[Entry],
) -> Result<(), OutOfMemory>
    ensures lefts { OnOk result (GrewBy (IsLeftIn plan.now entries.now) lefts.old.items lefts.new.items) }
    ensures ways { OnOk result (GrewBy (IsWayIn plan.now entries.now) ways.old.items ways.new.items) }
{
    let mut values = plan.initials(alloc)?;
    for entry in entries {
        note_entry(lefts, ways, plan, entry, &values)?;
        note_put(&mut values, entry);
    }
    Ok(())
}

impl Measure {
    /// Takes note of the entries of a journal without a fault. What is noted beside what was is of this journal.
    pub fn note(&mut self, alloc: Global, plan: &Plan, entries: &[Entry]) -> Result<(), OutOfMemory>
        ensures lefts { OnOk result (GrewBy (IsLeftIn plan.now entries.now) self.old.lefts self.new.lefts) }
        ensures ways { OnOk result (GrewBy (IsWayIn plan.now entries.now) self.old.ways self.new.ways) }
        ensures off { self.new.off ≡ self.old.off }
        ensures counted { self.new.counted ≡ self.old.counted }
    {
        note_ends(alloc, &mut self.lefts, &mut self.ways, plan, entries)?;
        Ok(())
    }
}
