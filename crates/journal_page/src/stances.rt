//! Where a participant stands after some entries of a journal, as a page tells it.

ghost use Rattle.std.specs.Prelude.{◌≡◌, ◌<◌, ◌++◌, ℕ, length, OnOk, IfOk, IfSome};
ghost use Rattle.std.specs.List.{All, filter, flat_map};
ghost use Rattle.place_plan.specs.Plans.PlanValue.{Plan as PlanValue};
ghost use Rattle.place_plan.specs.Plans.Places.{roles_of, objects_of};
ghost use Rattle.place_plan.specs.RulesOfJournals.WellFormed.{IsWellFormed};
ghost use Rattle.journal_replay.specs.Moves.{IsMove};
ghost use Rattle.journal_states.specs.Past.{plan_in, past_in};
ghost use Rattle.journal_states.specs.Spots.{spot_of};
ghost use Rattle.journal_states.specs.Waits.{is_awaited, is_lacking};
ghost use Rattle.journal_states.specs.declared.spots.Spot.{Spot as SpotValue};
ghost use Rattle.journal_page.specs.Stances.{entries_in, place_number, object_awaited, object_lacking, awaited_in, line_at, IsStance, ShowsWellFormed};

use caa_base::written::entry::{Entry, Object, OutOfMemory, Participant, Place};
use journal_laws::is_well_formed;
use journal_replay::moves::{Lack, Move, Wait, refused};
use journal_states::spots::Spot;
use journal_states::states::States;
use place_plan::plans::plan::Plan;
use std::alloc::Global;

/// Where a participant stands: the place that it is in, the line of the script, what it may do or what it waits for.
#[derive(Drop)]
pub struct Stance {
    pub by: Participant,
    pub place: Option<Place>,
    /// The line of the script, counted from 1; 0 where there is none.
    pub line: u32,
    pub next: Move,
    /// The entries that it may make, and no others.
    pub entries: Vec<Entry>,
    /// Whom it waits for; or what, as pairs of an object and of the number of the place that holds it, counted from 1.
    pub awaited: Vec<u64>,
}

/// What knows the lines of a script.
pub trait Lines {
    /// The line at which a participant stands that is at a spot.
    ghost line_at: { Self → PlanValue → ℕ → SpotValue → ℕ };

    /// The line at which a participant stands that is at this spot.
    fn line_of(&self, plan: &Plan, by: Participant, spot: &Spot) -> u32
        ensures { result ≡ Self.line_at self.now plan.now by spot.now };
}

/// The entries that a move lets a participant make.
fn entries_in(alloc: Global, by: Participant, next: &Move) -> Result<Vec<Entry>, OutOfMemory>
    ensures { IfOk result (λ entries. entries.items ≡ entries_in by next.now) }
{
    let mut entries = Vec::new(alloc);
    match next {
        Move::Make(entry) => entries.push(*entry)?,
        Move::Mix(work) => entries.push(work.entry(by))?,
        Move::Put(entry) => {
            entries.push(*entry)?;
            entries.push(refused(*entry))?;
        }
        Move::Wait(_) | Move::Over => {}
    }
    Ok(entries)
}

/// The number of a place, counted from 1; 0 for none.
pub(crate) fn place_number(place: Option<Place>) -> u64
    ensures { result ≡ place_number place }
{
    match place {
        Some(place) => u64::from(place) + 1,
        None => 0,
    }
}

/// Adds an object that is awaited, and the place that holds it.
fn push_object(awaited: &mut Vec<u64>, states: &States, object: Object) -> Result<(), OutOfMemory>
    ensures { OnOk result (awaited.new.items ≡ awaited.old.items ++ object_awaited (plan_in states.now) (past_in states.now) object) }
{
    awaited.push(u64::from(object))?;
    awaited.push(place_number(states.holder(object)))?;
    Ok(())
}

/// Adds an object of a place, where it is awaited there.
fn push_lacking(
    awaited: &mut Vec<u64>,
    states: &States,
    place: Place,
    object: Object,
) -> Result<(), OutOfMemory>
    ensures { OnOk result (awaited.new.items ≡ awaited.old.items ++ object_lacking (plan_in states.now) (past_in states.now) place object) }
{
    if states.is_lacking(place, object) {
        push_object(awaited, states, object)?;
    }
    Ok(())
}

/// The roles for which a wait is.
fn awaited_roles(alloc: Global, states: &States, wait: &Wait) -> Result<Vec<u64>, OutOfMemory>
    ensures { IfOk result (λ awaited. awaited.items ≡ filter (is_awaited (plan_in states.now) (past_in states.now) wait.now.place wait.now.lack) (roles_of (plan_in states.now) wait.now.place)) }
{
    let mut awaited = Vec::new(alloc);
    for role in states.plan().roles_of(wait.place) {
        if states.is_awaited(wait, *role) {
            awaited.push(u64::from(*role))?;
        }
    }
    Ok(awaited)
}

/// The objects that a place waits for before it can start.
fn awaited_objects(alloc: Global, states: &States, place: Place) -> Result<Vec<u64>, OutOfMemory>
    ensures { IfOk result (λ awaited. awaited.items ≡ flat_map (object_lacking (plan_in states.now) (past_in states.now) place) (objects_of (plan_in states.now) place)) }
{
    let mut awaited = Vec::new(alloc);
    for object in states.plan().objects_of(place) {
        push_lacking(&mut awaited, states, place, *object)?;
    }
    Ok(awaited)
}

/// Whom or what a move waits for.
fn awaited_in(alloc: Global, states: &States, next: &Move) -> Result<Vec<u64>, OutOfMemory>
    ensures { IfOk result (λ awaited. awaited.items ≡ awaited_in (plan_in states.now) (past_in states.now) next.now) }
{
    let Move::Wait(wait) = next else {
        return Ok(Vec::new(alloc));
    };
    match wait.lack {
        Lack::Objects => awaited_objects(alloc, states, wait.place),
        Lack::Object(object) => {
            let mut awaited = Vec::new(alloc);
            push_object(&mut awaited, states, object)?;
            Ok(awaited)
        }
        Lack::Roles | Lack::Halts | Lack::Verdicts | Lack::GiveUps => {
            awaited_roles(alloc, states, wait)
        }
    }
}

/// The line at which a participant stands; 0 for none.
fn line_in<L: Lines>(lines: &L, states: &States, by: Participant) -> u32
    ensures { result ≡ line_at (L.line_at lines.now) (plan_in states.now) by (spot_of (plan_in states.now) (past_in states.now) by) }
{
    match states.spot(by) {
        Some(spot) => lines.line_of(states.plan(), by, &spot),
        None => 0,
    }
}

/// What a move lets a participant make is well formed.
fn choices_are_well_formed(states: &States, by: Participant, next: &Move)
    requires { IsMove (plan_in states.now) (past_in states.now) by next.now }
    ensures { All (IsWellFormed (plan_in states.now)) (entries_in by next.now) }
{
    is_well_formed(states.plan());
    let _ = by;
    let _ = next;
}

/// Whether a participant stands as before.
fn is_as_before(
    before: Option<&Stance>,
    place: Option<Place>,
    line: u32,
    next: &Move,
    awaited: &[u64],
) -> bool {
    match before {
        Some(stance) => {
            stance.next == *next
                && stance.place == place
                && stance.line == line
                && stance.awaited.as_slice() == awaited
        }
        None => false,
    }
}

/// Where a participant stands after the entries that were taken in; none where it stands as before.
pub(crate) fn stance_unless<L: Lines>(
    alloc: Global,
    lines: &L,
    states: &States,
    by: Participant,
    before: Option<&Stance>,
) -> Result<Option<Stance>, OutOfMemory>
    requires { by < length (plan_in states.now).participants }
    ensures right { IfOk result (λ found. IfSome found (IsStance (L.line_at lines.now) (plan_in states.now) (past_in states.now))) }
    ensures well_formed { IfOk result (λ found. IfSome found (ShowsWellFormed (plan_in states.now))) }
{
    let next = states.move_of(by);
    let place = states.place_of(by);
    let line = line_in(lines, states, by);
    let awaited = awaited_in(alloc, states, &next)?;
    if is_as_before(before, place, line, &next, &awaited) {
        return Ok(None);
    }
    choices_are_well_formed(states, by, &next);
    let entries = entries_in(alloc, by, &next)?;
    Ok(Some(Stance {
        by,
        place,
        line,
        next,
        entries,
        awaited,
    }))
}
