//! The turns of a journal: each entry that may come, and who stands elsewhere after it than before.

ghost use Rattle.std.specs.Prelude.{◌≡◌, ◌<◌, [], length, OnOk, IfOk};
ghost use Rattle.std.specs.List.{All};
ghost use Rattle.place_plan.specs.RulesOfJournals.WellFormed.{AllWellFormed};
ghost use Rattle.journal_states.specs.Past.{plan_in, past_in};
ghost use Rattle.journal_page.specs.Stances.{IsStance, ShowsWellFormed, TurnsWellFormed, AreTurns, StopsAt};

use crate::stances::{Lines, Stance, stance_unless};
use caa_base::written::entry::{Entry, OutOfMemory};
use journal_states::states::States;
use place_plan::plans::plan::Plan;
use std::alloc::Global;

/// An entry, and the stances after it of those who stand elsewhere than before.
#[derive(Drop)]
pub struct Turn {
    pub entry: Entry,
    pub stances: Vec<Stance>,
}

/// The stances of all participants before the first entry, and the turns as far as the rules let the entries come.
#[derive(Drop)]
pub struct Turns {
    pub first: Vec<Stance>,
    pub turns: Vec<Turn>,
}

/// Where the last stance of a participant is: in the first ones, or in those of a turn; and its place there.
#[derive(Clone, Copy)]
struct Told {
    /// The number of the turn, counted from 1; 0 for the first stances.
    turn: usize,
    index: usize,
}

/// The last stance that was told.
fn stance_at<'a>(
    first: &'a [Stance],
    turns: &'a [Turn],
    told: &[Told],
    by: u32,
) -> Option<&'a Stance> {
    let told = told.get(by as usize)?;
    match told.turn.checked_sub(1) {
        Some(turn) => turns.get(turn)?.stances.as_slice().get(told.index),
        None => first.get(told.index),
    }
}

/// What was told last are the first stances.
fn at_first(told: &mut [Told]) {
    for seat in told.iter_mut() {
        seat.turn = 0;
    }
}

/// Notes what was told last of a participant.
fn note(told: &mut [Told], by: u32, last: Told) {
    if let Some(seat) = told.get_mut(by as usize) {
        *seat = last;
    }
}

/// Adds the stance of a participant, unless it stands as before; tells whether it was added.
fn push_unless<L: Lines>(
    alloc: Global,
    lines: &L,
    states: &States,
    by: u32,
    before: Option<&Stance>,
    stances: &mut Vec<Stance>,
) -> Result<bool, OutOfMemory>
    requires known { by < length (plan_in states.now).participants }
    requires right { All (IsStance (L.line_at lines.now) (plan_in states.now) (past_in states.now)) stances.old.items }
    requires well_formed { All (ShowsWellFormed (plan_in states.now)) stances.old.items }
    ensures right { OnOk result (All (IsStance (L.line_at lines.now) (plan_in states.now) (past_in states.now)) stances.new.items) }
    ensures well_formed { OnOk result (All (ShowsWellFormed (plan_in states.now)) stances.new.items) }
{
    match stance_unless(alloc, lines, states, by, before)? {
        Some(stance) => {
            stances.push(stance)?;
            Ok(true)
        }
        None => Ok(false),
    }
}

/// Who stands elsewhere after the entries that were taken in than was told last; the memory of what was told is kept.
fn stances_now<L: Lines>(
    alloc: Global,
    lines: &L,
    states: &States,
    first: &[Stance],
    turns: &[Turn],
    told: &mut [Told],
) -> Result<Vec<Stance>, OutOfMemory>
    ensures right { IfOk result (λ r. All (IsStance (L.line_at lines.now) (plan_in states.now) (past_in states.now)) r.items) }
    ensures well_formed { IfOk result (λ r. All (ShowsWellFormed (plan_in states.now)) r.items) }
{
    let mut stances = Vec::new(alloc);
    for by in 0..states.plan().participants() {
        let last = Told {
            turn: turns.len().saturating_add(1),
            index: stances.len(),
        };
        let before = stance_at(first, turns, told, by);
        if push_unless(alloc, lines, states, by, before, &mut stances)? {
            note(told, by, last);
        }
    }
    Ok(stances)
}

/// The turn of an entry that was just taken in.
fn turn_of<L: Lines>(
    alloc: Global,
    lines: &L,
    states: &States,
    entry: &Entry,
    first: &[Stance],
    turns: &[Turn],
    told: &mut [Told],
) -> Result<Turn, OutOfMemory>
    ensures entry { IfOk result (λ turn. turn.entry ≡ entry.now) }
    ensures right { IfOk result (λ turn. All (IsStance (L.line_at lines.now) (plan_in states.now) (past_in states.now)) turn.stances.items) }
    ensures well_formed { IfOk result (λ turn. All (ShowsWellFormed (plan_in states.now)) turn.stances.items) }
{
    let stances = stances_now(alloc, lines, states, first, turns, told)?;
    Ok(Turn {
        entry: *entry,
        stances,
    })
}

/// Nobody was told of yet.
fn nobody(alloc: Global, plan: &Plan) -> Result<Vec<Told>, OutOfMemory> {
    let nowhere = Told {
        turn: 0,
        index: usize::MAX,
    };
    Ok(vec![in alloc; nowhere; plan.participants() as usize]?)
}

/// The turns of a journal, as far as the rules let its entries come, and where all stand before it.
pub fn turns_of<L: Lines>(
    alloc: Global,
    lines: &L,
    plan: &Plan,
    entries: &[Entry],
) -> Result<Turns, OutOfMemory>
    requires { AllWellFormed plan.now entries.now }
    ensures first { IfOk result (λ r. All (IsStance (L.line_at lines.now) plan.now []) r.first.items) }
    ensures turns { IfOk result (λ r. AreTurns (L.line_at lines.now) plan.now entries.now r.turns.items) }
    ensures stops { IfOk result (λ r. StopsAt plan.now entries.now (length r.turns.items)) }
    ensures first_formed { IfOk result (λ r. All (ShowsWellFormed plan.now) r.first.items) }
    ensures formed { IfOk result (λ r. All (TurnsWellFormed plan.now) r.turns.items) }
{
    let mut states = States::open(alloc, plan, entries)?;
    let mut told = nobody(alloc, plan)?;
    let first = stances_now(alloc, lines, &states, &[], &[], &mut told)?;
    at_first(&mut told);
    let mut turns = Vec::new(alloc);
    for entry in entries {
        if !states.step() {
            return Ok(Turns { first, turns });
        }
        let turn = turn_of(alloc, lines, &states, entry, &first, &turns, &mut told)?;
        turns.push(turn)?;
    }
    Ok(Turns { first, turns })
}
