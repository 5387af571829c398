//! The whole trace.

ghost use Rattle.std.specs.List.{All};
ghost use Rattle.place_plan.specs.RulesOfJournals.WellFormed.{AllWellFormed};
ghost use Rattle.journal_page.specs.Stances.{ShowsWellFormed, TurnsWellFormed};

use crate::events::Events;
use crate::stretches::{place_name, push_line, stretch_name};
use caa_base::written::entry::{Entry, Kind, OutOfMemory, Participant, Place};
use journal_page::stances::{Lines, Stance};
use journal_page::turns::{Turn, turns_of};
use journal_states::words::participant_name;
use journal_text::texts::text_writer::object_name;
use place_plan::plans::plan::Plan;
use std::alloc::Global;

/// What is open in the thread of a participant: the places that it is in, by the innermost, and a stretch.
#[derive(Clone, Copy)]
struct Seat {
    place: Option<Place>,
    in_stretch: bool,
}

/// What is open in the thread of a participant.
fn seat_at(seats: &[Seat], by: Participant) -> Seat {
    match seats.get(by as usize) {
        Some(seat) => *seat,
        None => Seat {
            place: None,
            in_stretch: false,
        },
    }
}

/// The mark of a restore that the device took.
const TAKEN: u32 = 0;

/// Adds that a participant went into a place, or came out of one.
fn move_on(
    alloc: Global,
    events: &mut Events,
    plan: &Plan,
    taken: u64,
    seat: Seat,
    stance: &Stance,
) -> Result<(), OutOfMemory> {
    if stance.place == seat.place {
        return Ok(());
    }
    match stance.place {
        Some(place) if plan.parent(place) == seat.place => {
            events.open(stance.by, taken, &place_name(alloc, plan, place)?)
        }
        _ => events.end(stance.by, taken),
    }
}

/// Adds that a participant stands elsewhere than before, and gives what is open now.
fn turn_to(
    alloc: Global,
    events: &mut Events,
    plan: &Plan,
    taken: u64,
    seat: Seat,
    stance: &Stance,
) -> Result<Seat, OutOfMemory>
    requires { ShowsWellFormed plan.now stance.now }
{
    if seat.in_stretch {
        events.end(stance.by, taken)?;
    }
    move_on(alloc, events, plan, taken, seat, stance)?;
    let name = stretch_name(alloc, plan, stance)?;
    let in_stretch = name.is_some();
    if let Some(name) = name {
        events.open(stance.by, taken, &name)?;
    }
    Ok(Seat {
        place: stance.place,
        in_stretch,
    })
}

/// Adds who stands elsewhere than before.
fn push_stances(
    alloc: Global,
    events: &mut Events,
    plan: &Plan,
    taken: u64,
    seats: &mut [Seat],
    stances: &[Stance],
) -> Result<(), OutOfMemory>
    requires { All (ShowsWellFormed plan.now) stances.now }
{
    for stance in stances {
        let seat = turn_to(
            alloc,
            events,
            plan,
            taken,
            seat_at(seats, stance.by),
            stance,
        )?;
        if let Some(place) = seats.get_mut(stance.by as usize) {
            *place = seat;
        }
    }
    Ok(())
}

/// Adds the value that an entry gives to an object.
fn push_value(
    events: &mut Events,
    plan: &Plan,
    taken: u64,
    entry: &Entry,
) -> Result<(), OutOfMemory> {
    let is_taken = match entry.kind {
        Kind::Write => true,
        Kind::Restore => entry.mark == TAKEN,
        _ => false,
    };
    if is_taken {
        events.value(object_name(plan, entry.arg), taken, entry.value)?;
    }
    Ok(())
}

/// Adds an entry, and what is otherwise after it.
fn push_turn(
    alloc: Global,
    events: &mut Events,
    plan: &Plan,
    taken: u64,
    seats: &mut [Seat],
    turn: &Turn,
) -> Result<(), OutOfMemory>
    requires { TurnsWellFormed plan.now turn.now }
{
    let mut line = Vec::new(alloc);
    push_line(alloc, &mut line, plan, &turn.entry)?;
    events.entry(turn.entry.by, taken, &line)?;
    push_stances(alloc, events, plan, taken, seats, &turn.stances)?;
    push_value(events, plan, taken, &turn.entry)
}

/// Adds the turns.
fn push_turns(
    alloc: Global,
    events: &mut Events,
    plan: &Plan,
    seats: &mut [Seat],
    turns: &[Turn],
) -> Result<(), OutOfMemory>
    requires { All (TurnsWellFormed plan.now) turns.now }
{
    let mut taken = 0u64;
    for turn in turns {
        taken = taken.saturating_add(1);
        push_turn(alloc, events, plan, taken, seats, turn)?;
    }
    Ok(())
}

/// Adds the names of all participants, and the first values of all objects.
fn push_names(events: &mut Events, plan: &Plan) -> Result<(), OutOfMemory> {
    for by in 0..plan.participants() {
        events.thread(by, participant_name(plan, by))?;
    }
    for object in 0..plan.objects() {
        events.value(plan.object_name(object), 0, plan.initial(object))?;
    }
    Ok(())
}

/// Ends what is still open of a participant.
fn close(
    events: &mut Events,
    plan: &Plan,
    taken: u64,
    by: Participant,
    seat: Seat,
) -> Result<(), OutOfMemory> {
    if seat.in_stretch {
        events.end(by, taken)?;
    }
    if let Some(place) = seat.place {
        events.end(by, taken)?;
        for _ in plan.around(place) {
            events.end(by, taken)?;
        }
    }
    Ok(())
}

/// Ends what is still open.
fn close_all(
    events: &mut Events,
    plan: &Plan,
    taken: u64,
    seats: &[Seat],
) -> Result<(), OutOfMemory> {
    for by in 0..plan.participants() {
        close(events, plan, taken, by, seat_at(seats, by))?;
    }
    Ok(())
}

/// Nothing is open yet.
fn nowhere(alloc: Global, plan: &Plan) -> Result<Vec<Seat>, OutOfMemory> {
    let seat = Seat {
        place: None,
        in_stretch: false,
    };
    Ok(vec![in alloc; seat; plan.participants() as usize]?)
}

/// A journal as a trace, as far as the rules let its entries come: a thread for each participant, with a stretch for each place that it
/// is in, and within these a stretch for each time in which it may make one entry, or waits; a mark for each entry; and the values of the
/// objects. What an entry changes has the number of the entry as its time, in milliseconds.
pub fn trace<L: Lines>(
    alloc: Global,
    lines: &L,
    plan: &Plan,
    entries: &[Entry],
) -> Result<Vec<u8>, OutOfMemory>
    requires { AllWellFormed plan.now entries.now }
{
    let turns = turns_of(alloc, lines, plan, entries)?;
    let mut seats = nowhere(alloc, plan)?;
    let mut events = Events::new(alloc)?;
    push_names(&mut events, plan)?;
    push_stances(alloc, &mut events, plan, 0, &mut seats, &turns.first)?;
    push_turns(alloc, &mut events, plan, &mut seats, &turns.turns)?;
    close_all(&mut events, plan, turns.turns.len() as u64, &seats)?;
    events.into_text()
}
