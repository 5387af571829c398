//! What comes of a refused put.

ghost use Rattle.std.specs.Prelude.{◌≡◌, IfOk, true, false, not, ◌&&◌, slice_get};
ghost use Rattle.place_plan.specs.Plans.Places.{top_of, initials_of, objects_of};
ghost use Rattle.fault_trials.specs.Classes.{class_told, class_by, class_with, class_of, end_of, outcome_in, values_at_end};

use crate::endings::{ending_of, outcome_of, values_at_end};
use crate::measure::{Measure, Values};
use crate::modes::{Class, Spot};
use crate::puts::action_number;
use caa_base::written::entry::{Entry, Exception, Kind, Object, OutOfMemory, Outcome, Place};
use place_plan::plans::plan::Plan;
use rehearsals::facts::value_in;
use std::alloc::Global;

/// What a refused put raises.
#[derive(Clone, Copy, PartialEq, Eq)]
pub enum Raised {
    /// Nothing: it was a restore.
    Nothing,
    /// Nothing: the handler that put says undo.
    Undo,
    /// This exception.
    Fault(Exception),
}

/// What a place was resolved to.
#[derive(Clone, Copy, PartialEq, Eq)]
pub struct Resolution {
    /// A place of the action.
    pub action: u32,
    pub exception: Exception,
}

/// An object and its value.
#[derive(Clone, Copy, PartialEq, Eq)]
pub struct Standing {
    pub object: Object,
    pub value: i64,
}

/// What comes of a refused put.
#[derive(Drop)]
pub struct Effect {
    pub raised: Raised,
    /// What is resolved in its place and the places round it, the innermost first.
    pub resolved: Vec<Resolution>,
    /// How its place ends.
    pub place: Option<Outcome>,
    /// The number of the action of its play.
    pub play_action: u32,
    /// How its play ends.
    pub play: Option<Outcome>,
    /// Objects that don't stand at their first value at the end of the play, where no play without the fault leaves them so.
    pub away: Vec<Standing>,
    /// Objects that stand at their first value at the end of the play, where no play without the fault leaves them so.
    pub short: Vec<Standing>,
    pub class: Class,
}

/// Whether two lists of standings say the same.
fn are_same(some: &[Standing], others: &[Standing]) -> bool {
    some.len() == others.len()
        && some
            .iter()
            .zip(others.iter())
            .all(|(one, other)| *one == *other)
}

/// Whether two lists of resolutions say the same.
fn resolve_same(some: &[Resolution], others: &[Resolution]) -> bool {
    some.len() == others.len()
        && some
            .iter()
            .zip(others.iter())
            .all(|(one, other)| *one == *other)
}

impl Effect {
    /// Whether they go the same way: what is raised and resolved, and how the place ends.
    pub fn goes_as(&self, other: &Effect) -> bool {
        self.raised == other.raised
            && self.place == other.place
            && resolve_same(&self.resolved, &other.resolved)
    }

    /// Whether they say the same.
    pub fn is_as(&self, other: &Effect) -> bool {
        self.goes_as(other)
            && self.play == other.play
            && self.play_action == other.play_action
            && self.class == other.class
            && are_same(&self.away, &other.away)
            && are_same(&self.short, &other.short)
    }
}

/// What the refused put raises, which stands for this in its place.
fn raised_by(plan: &Plan, spot: Spot, place: Place) -> Raised {
    match spot {
        Spot::Back {
            action: _,
            object: _,
        } => Raised::Nothing,
        Spot::Step {
            action: _,
            role: _,
            handler,
            step: _,
        } => match handler {
            Some(_) => Raised::Undo,
            None => Raised::Fault(plan.fault(place)),
        },
    }
}

/// What a place is resolved to by these entries.
fn resolved_in(entries: &[Entry], place: Place) -> Option<Exception> {
    for entry in entries {
        if entry.kind == Kind::Resolve && entry.place == place {
            return Some(entry.arg);
        }
    }
    None
}

/// Adds what a place is resolved to by these entries, if it is.
fn push_resolution(
    plan: &Plan,
    entries: &[Entry],
    place: Place,
    resolved: &mut Vec<Resolution>,
) -> Result<(), OutOfMemory> {
    if let Some(exception) = resolved_in(entries, place) {
        let action = action_number(plan, place);
        resolved.push(Resolution { action, exception })?;
    }
    Ok(())
}

/// What is resolved by these entries in a place and those round it.
fn resolutions(
    alloc: Global,
    plan: &Plan,
    entries: &[Entry],
    place: Place,
) -> Result<Vec<Resolution>, OutOfMemory> {
    let mut resolved = Vec::new(alloc);
    push_resolution(plan, entries, place, &mut resolved)?;
    for outer in plan.around(place) {
        push_resolution(plan, entries, *outer, &mut resolved)?;
    }
    Ok(resolved)
}

/// The objects that stand away at the end of a play.
fn away_in(
    alloc: Global,
    measure: &Measure,
    values: &Values,
    objects: &[Object],
) -> Result<Vec<Standing>, OutOfMemory> {
    let mut away = Vec::new(alloc);
    for object in objects {
        if measure.is_away(values, *object) {
            away.push(Standing {
                object: *object,
                value: value_in(values.lasts, *object),
            })?;
        }
    }
    Ok(away)
}

/// The objects that stand at their first values at the end of a play, as no play without a fault leaves them.
fn short_in(
    alloc: Global,
    measure: &Measure,
    values: &Values,
    objects: &[Object],
) -> Result<Vec<Standing>, OutOfMemory> {
    let mut short = Vec::new(alloc);
    for object in objects {
        if measure.is_short(values, *object) {
            short.push(Standing {
                object: *object,
                value: value_in(values.lasts, *object),
            })?;
        }
    }
    Ok(short)
}

/// The class of a play that committed or signalled.
fn class_told(is_left: bool, is_usual: bool) -> Class
    ensures { result ≡ class_told is_left is_usual }
{
    if is_left {
        Class::Left
    } else if is_usual {
        Class::Same
    } else {
        Class::Told
    }
}

/// The class of a play that ended so, by whether an object was left that has to be off, and whether all is as without a fault.
fn class_by(play: Option<Outcome>, is_left: bool, is_usual: bool) -> Class
    ensures { result ≡ class_by play is_left is_usual }
{
    match play {
        None => Class::Failed,
        Some(outcome) => match outcome {
            Outcome::Commit => class_told(is_left, is_usual),
            Outcome::Signal(_) => class_told(is_left, is_usual),
            Outcome::Undone => Class::Undone,
            Outcome::Aborted => Class::Failed,
            Outcome::Failed => Class::Failed,
        },
    }
}

/// The class of what a journal shows of a play.
fn class_of(plan: &Plan, measure: &Measure, entries: &[Entry], values: &Values) -> Class
    requires firsts { values.now.firsts.now ≡ initials_of plan.now }
    ensures { result ≡ class_with plan.now measure.now entries.now values.now.play values.now.lasts.now }
{
    let objects = plan.objects_of(values.play);
    let is_left = measure.has_left(values, objects);
    let is_strange = measure.has_strange(values, objects);
    let is_way = measure.is_way(values.play, ending_of(entries, values.play));
    class_by(
        outcome_of(entries, values.play),
        is_left,
        !is_strange && is_way,
    )
}

/// A refused put, as what comes of it is told.
#[derive(Clone, Copy)]
pub struct Refused {
    pub spot: Spot,
    pub place: Place,
    /// The number of its entry, counted from 0.
    pub index: usize,
}

/// What comes of a refused put by this journal.
pub fn effect_of(
    alloc: Global,
    plan: &Plan,
    measure: &Measure,
    entries: &[Entry],
    put: Refused,
) -> Result<Effect, OutOfMemory>
    ensures { IfOk result (λ effect. effect.class ≡ class_of plan.now measure.now entries.now (top_of plan.now put.place)) }
{
    let play = plan.top_of(put.place);
    let firsts = plan.initials(alloc)?;
    let lasts = values_at_end(alloc, plan, entries, play)?;
    let values = Values {
        firsts: &firsts,
        lasts: &lasts,
        play,
    };
    let class = class_of(plan, measure, entries, &values);
    let objects = plan.objects_of(play);
    let later = entries.get(put.index..).unwrap_or(&[]);
    Ok(Effect {
        raised: raised_by(plan, put.spot, put.place),
        resolved: resolutions(alloc, plan, later, put.place)?,
        place: outcome_of(entries, put.place),
        play_action: action_number(plan, play),
        play: outcome_of(entries, play),
        away: away_in(alloc, measure, &values, objects)?,
        short: short_in(alloc, measure, &values, objects)?,
        class,
    })
}
