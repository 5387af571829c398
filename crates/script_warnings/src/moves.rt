//! In which order the objects of an action certainly move away from their first values.

use crate::objects::Things;
use crate::subject::Part;
use action_script::forms::form::Form;
use action_script::forms::script::Line;
use caa_base::written::entry::OutOfMemory;
use script_outcomes::programs::body_of;
use script_outcomes::sources::Use;
use script_views::looking::{nest_roles, roles_of};
use std::alloc::Global;

/// An object that is certainly away from its first value when another moves, with the lines of both moves.
#[derive(Clone, Copy)]
pub struct Earlier {
    pub object: u32,
    pub line: u32,
    pub later_line: u32,
}

/// An object that moves away from its first value.
#[derive(Drop)]
pub struct Move {
    pub object: u32,
    /// The line of its first move.
    line: u32,
    /// The objects that the action has put before, and so may have put back.
    known: Vec<u32>,
    /// Those that are away when it moves.
    pub earlier: Vec<Earlier>,
}

/// How a put has left an object: away since the put on this line, or back. Of two puts the later one has the greater stamp.
#[derive(Clone, Copy)]
struct Stand {
    object: u32,
    stamp: u64,
    away: Option<u32>,
}

/// How the objects of an action move: each of its moves, and where it leaves them.
#[derive(Drop)]
pub struct Course {
    action: u32,
    pub moves: Vec<Move>,
    ends: Vec<Stand>,
    clock: u64,
}

/// A role, the steps that it has before it, and where it knows that objects stand.
#[derive(Drop)]
struct Seat<'a> {
    role: u32,
    rest: &'a [Line],
    stands: Vec<Stand>,
}

// ---- where objects stand

/// Sets where an object stands. One that was away before is away since then.
fn set_stand(stands: &mut Vec<Stand>, next: Stand) -> Result<(), OutOfMemory> {
    for stand in stands.iter_mut() {
        if stand.object == next.object {
            stand.stamp = next.stamp;
            if stand.away.is_none() || next.away.is_none() {
                stand.away = next.away;
            }
            return Ok(());
        }
    }
    stands.push(next)?;
    Ok(())
}

/// Takes over where an object stands, unless something later is known.
fn join_stand(stands: &mut Vec<Stand>, other: Stand) -> Result<(), OutOfMemory> {
    for stand in stands.iter_mut() {
        if stand.object == other.object {
            if stand.stamp < other.stamp {
                *stand = other;
            }
            return Ok(());
        }
    }
    stands.push(other)?;
    Ok(())
}

/// Takes over what others know, where it is later.
fn join_stands(stands: &mut Vec<Stand>, others: &[Stand]) -> Result<(), OutOfMemory> {
    for other in others {
        join_stand(stands, *other)?;
    }
    Ok(())
}

/// Adds the objects of which it is known where they stand.
fn add_known(known: &mut Vec<u32>, stands: &[Stand]) -> Result<(), OutOfMemory> {
    for stand in stands {
        known.push(stand.object)?;
    }
    Ok(())
}

// ---- moves

/// Those that are away where another object moves, but for some.
fn earlier_in(
    alloc: Global,
    stands: &[Stand],
    known: &[u32],
    object: u32,
    later_line: u32,
) -> Result<Vec<Earlier>, OutOfMemory> {
    let mut earlier = Vec::new(alloc);
    for stand in stands {
        if let Some(line) = stand.away {
            if stand.object != object && !known.contains(&stand.object) {
                earlier.push(Earlier {
                    object: stand.object,
                    line,
                    later_line,
                })?;
            }
        }
    }
    Ok(earlier)
}

/// The names that stand in both lists.
fn common(alloc: Global, names: &[u32], others: &[u32]) -> Result<Vec<u32>, OutOfMemory> {
    let mut both = Vec::new(alloc);
    for name in names {
        if others.contains(name) {
            both.push(*name)?;
        }
    }
    Ok(both)
}

/// Adds those that are away when an object moves, each once.
fn add_earlier(all: &mut Vec<Earlier>, more: &[Earlier]) -> Result<(), OutOfMemory> {
    for one in more {
        if !all.iter().any(|other| other.object == one.object) {
            all.push(*one)?;
        }
    }
    Ok(())
}

/// Adds a move; all moves of an object are kept as one.
fn add_move(alloc: Global, moves: &mut Vec<Move>, next: Move) -> Result<(), OutOfMemory> {
    for one in moves.iter_mut() {
        if one.object == next.object {
            one.known = common(alloc, &one.known, &next.known)?;
            return add_earlier(&mut one.earlier, &next.earlier);
        }
    }
    moves.push(next)?;
    Ok(())
}

impl Course {
    /// Nothing has moved yet.
    fn of(alloc: Global, action: u32) -> Course {
        Course {
            action,
            moves: Vec::new(alloc),
            ends: Vec::new(alloc),
            clock: 0,
        }
    }

    /// An object is put by somebody who knows that objects stand so.
    fn put(
        &mut self,
        alloc: Global,
        stands: &mut Vec<Stand>,
        object: u32,
        away: Option<u32>,
    ) -> Result<(), OutOfMemory> {
        if let Some(line) = away {
            let mut known = Vec::new(alloc);
            add_known(&mut known, stands)?;
            let earlier = earlier_in(alloc, stands, &[], object, line)?;
            let next = Move {
                object,
                line,
                known,
                earlier,
            };
            add_move(alloc, &mut self.moves, next)?;
        }
        self.clock = self.clock.saturating_add(1);
        let stamp = self.clock;
        set_stand(
            stands,
            Stand {
                object,
                stamp,
                away,
            },
        )
    }

    /// Somebody takes these steps who knows that objects stand so.
    fn take(
        &mut self,
        alloc: Global,
        things: &Things,
        stands: &mut Vec<Stand>,
        steps: &[Line],
    ) -> Result<(), OutOfMemory> {
        for line in steps {
            if let Form::PutStep(object, value) = &line.form {
                if !things.is_counted(*object) {
                    let is_back = things.is_first(*object, *value);
                    let away = if is_back { None } else { Some(line.number) };
                    self.put(alloc, stands, *object, away)?;
                }
            }
        }
        Ok(())
    }

    /// The moves of a nested use come, which begins where objects stand so.
    fn add_moves(
        &mut self,
        alloc: Global,
        stands: &[Stand],
        inner: &Course,
    ) -> Result<(), OutOfMemory> {
        for one in inner.moves.iter() {
            let mut known = Vec::from_slice(alloc, &one.known)?;
            add_known(&mut known, stands)?;
            let earlier = earlier_in(alloc, stands, &one.known, one.object, one.line)?;
            let next = Move {
                object: one.object,
                line: one.line,
                known,
                earlier,
            };
            add_move(alloc, &mut self.moves, next)?;
        }
        Ok(())
    }

    /// A nested use is over, after which its objects stand as it leaves them.
    fn leave(&mut self, stands: &mut Vec<Stand>, inner: &Course) -> Result<(), OutOfMemory> {
        self.clock = self.clock.saturating_add(1);
        let stamp = self.clock;
        for end in inner.ends.iter() {
            set_stand(
                stands,
                Stand {
                    object: end.object,
                    stamp,
                    away: end.away,
                },
            )?;
        }
        Ok(())
    }
}

// ---- roles

/// The steps before that which enters a nested use, and those behind it.
fn parted(steps: &[Line], nest: u32) -> (&[Line], &[Line]) {
    for (index, line) in steps.iter().enumerate() {
        if matches!(&line.form, Form::EnterStep(name) if *name == nest) {
            let before = steps.get(..index).unwrap_or(&[]);
            let behind = steps.get(index.saturating_add(1)..).unwrap_or(&[]);
            return (before, behind);
        }
    }
    (&[], steps)
}

/// The roles of an action, before their first steps.
fn seats_of<'a>(alloc: Global, block: &'a [Line]) -> Result<Vec<Seat<'a>>, OutOfMemory> {
    let mut seats = Vec::new(alloc);
    for role in roles_of(block) {
        seats.push(Seat {
            role: *role,
            rest: body_of(block, *role).reached(),
            stands: Vec::new(alloc),
        })?;
    }
    Ok(seats)
}

/// What is looked into for the course of an action.
#[derive(Clone, Copy)]
struct Walk<'a> {
    alloc: Global,
    block: &'a [Line],
    things: &'a Things,
    known: &'a [Course],
}

impl<'a> Walk<'a> {
    /// The roles of a nested use take the steps before it; adds what they know then.
    fn come(
        &self,
        course: &mut Course,
        seats: &mut Vec<Seat<'a>>,
        nest: u32,
        stands: &mut Vec<Stand>,
    ) -> Result<(), OutOfMemory> {
        for seat in seats.iter_mut() {
            if nest_roles(self.block, nest).contains(&seat.role) {
                let (before, behind) = parted(seat.rest, nest);
                course.take(self.alloc, self.things, &mut seat.stands, before)?;
                seat.rest = behind;
                join_stands(stands, &seat.stands)?;
            }
        }
        Ok(())
    }

    /// The roles of a nested use know where objects stand behind it.
    fn go(
        &self,
        seats: &mut Vec<Seat<'a>>,
        nest: u32,
        stands: &[Stand],
    ) -> Result<(), OutOfMemory> {
        for seat in seats.iter_mut() {
            if nest_roles(self.block, nest).contains(&seat.role) {
                join_stands(&mut seat.stands, stands)?;
            }
        }
        Ok(())
    }

    /// The roles of a nested use come to it, go through its first action, and leave it.
    fn enter(
        &self,
        course: &mut Course,
        seats: &mut Vec<Seat<'a>>,
        used: &Use,
    ) -> Result<(), OutOfMemory> {
        let mut stands = Vec::new(self.alloc);
        self.come(course, seats, used.nest, &mut stands)?;
        let first = used.actions.first().copied();
        if let Some(inner) = self.known.iter().find(|it| Some(it.action) == first) {
            course.add_moves(self.alloc, &stands, inner)?;
            course.leave(&mut stands, inner)?;
        }
        self.go(seats, used.nest, &stands)
    }

    /// The roles take the steps that are left, and the action ends.
    fn end(&self, course: &mut Course, seats: &mut Vec<Seat<'a>>) -> Result<(), OutOfMemory> {
        for seat in seats.iter_mut() {
            course.take(self.alloc, self.things, &mut seat.stands, seat.rest)?;
            join_stands(&mut course.ends, &seat.stands)?;
        }
        Ok(())
    }
}

/// How the objects of an action move; of those above it this is known. Each role enters its nested uses in the order of their lines.
fn course_of(
    alloc: Global,
    part: &Part,
    things: &Things,
    known: &[Course],
) -> Result<Course, OutOfMemory> {
    let walk = Walk {
        alloc,
        block: part.block,
        things,
        known,
    };
    let mut course = Course::of(alloc, part.outlook.action);
    let mut seats = seats_of(alloc, part.block)?;
    for used in part.uses.iter() {
        walk.enter(&mut course, &mut seats, used)?;
    }
    walk.end(&mut course, &mut seats)?;
    Ok(course)
}

/// How the objects of each of these actions move.
pub fn courses_of(
    alloc: Global,
    parts: &[Part],
    things: &Things,
) -> Result<Vec<Course>, OutOfMemory> {
    let mut known = Vec::new(alloc);
    for part in parts {
        let next = course_of(alloc, part, things, &known)?;
        known.push(next)?;
    }
    Ok(known)
}
