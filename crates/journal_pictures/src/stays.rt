//! The boxes of places: in which place each participant is, and how long.

use crate::frame::write_words;
use crate::layout::{ROW_HEIGHT, TOP, View, is_seen, level, middle, row_of};
use crate::shapes::{LineLook, Shape, WordsLook};
use caa_base::written::entry::{Entry, Kind, OutOfMemory, Participant, Place};
use caa_base::written::line::push_word;
use journal_states::words::push_place;
use std::alloc::Global;

/// How long a participant is in a place.
#[derive(Clone, Copy)]
struct Stay {
    place: Place,
    lane: Participant,
    /// The number of the entry with which it arrives.
    from: u64,
    /// The number of the entry with which it leaves; where none does, the number that comes after the last entry.
    to: u64,
}

/// From where to where something reaches, from the left or from the top.
#[derive(Clone, Copy)]
struct Reach {
    from: u64,
    to: u64,
}

/// The stays of a journal, in the order in which they begin.
fn stays_of(alloc: Global, entries: &[Entry]) -> Result<Vec<Stay>, OutOfMemory> {
    let mut stays = Vec::new(alloc);
    for (number, entry) in entries.iter().enumerate() {
        match entry.kind {
            Kind::Arrive => stays.push(Stay {
                place: entry.place,
                lane: entry.by,
                from: number as u64,
                to: entries.len() as u64,
            })?,
            Kind::Leave | Kind::Withdraw => end_stay(&mut stays, entry, number as u64),
            Kind::Start
            | Kind::Read
            | Kind::Work
            | Kind::Write
            | Kind::Check
            | Kind::PutFault
            | Kind::Raise
            | Kind::Inform
            | Kind::Resolve
            | Kind::Handle
            | Kind::Verdict
            | Kind::Abort
            | Kind::Undo
            | Kind::Restore
            | Kind::End => {},
        }
    }
    Ok(stays)
}

/// The maker of an entry of this number goes out of its place with it.
fn end_stay(stays: &mut [Stay], entry: &Entry, number: u64) {
    for index in (0..stays.len()).rev() {
        if let Some(stay) = stays.get_mut(index) {
            if stay.place == entry.place && stay.lane == entry.by {
                stay.to = number;
                return;
            }
        }
    }
}

/// The stays of which the part shows something.
fn seen_stays(alloc: Global, view: &View) -> Result<Vec<Stay>, OutOfMemory> {
    let mut seen = Vec::new(alloc);
    for stay in stays_of(alloc, view.entries)?.iter() {
        if is_seen(view, stay.from, stay.to) {
            seen.push(*stay)?;
        }
    }
    Ok(seen)
}

/// Draws the boxes of all places of which the part shows something: a piece in each lane, for as long as its participant is there.
pub fn draw_places(alloc: Global, shapes: &mut Vec<Shape>, view: &View) -> Result<(), OutOfMemory> {
    let stays = seen_stays(alloc, view)?;
    for stay in stays.iter() {
        draw_stay(alloc, shapes, view, &stays, stay)?;
        name_stay(alloc, shapes, view, &stays, stay)?;
    }
    Ok(())
}

/// How far a stay reaches from the top.
fn height_of(view: &View, stay: &Stay) -> Reach {
    let margin = ROW_HEIGHT / 2 - 1;
    Reach {
        from: level(view, stay.from).saturating_sub(margin),
        to: level(view, stay.to).saturating_add(margin),
    }
}

/// The stay of the participant in a lane in the place of another's stay.
fn stay_beside(stays: &[Stay], stay: &Stay, lane: Option<Participant>) -> Option<Stay> {
    let lane = lane?;
    for other in stays {
        if other.place == stay.place && other.lane == lane {
            return Some(*other);
        }
    }
    None
}

/// Draws the piece of a place's box in a lane. Where the place goes on in the lane beside it, the two pieces are one.
fn draw_stay(
    alloc: Global,
    shapes: &mut Vec<Shape>,
    view: &View,
    stays: &[Stay],
    stay: &Stay,
) -> Result<(), OutOfMemory> {
    let before = stay_beside(stays, stay, stay.lane.checked_sub(1));
    let after = stay_beside(stays, stay, stay.lane.checked_add(1));
    let inset = depth_of(view, stay).saturating_mul(3);
    let left = view
        .lane_left(stay.lane)
        .saturating_add(if before.is_none() { inset } else { 0 });
    let gap = if after.is_none() {
        inset.saturating_add(4)
    } else {
        0
    };
    let right = view.lane_right(stay.lane).saturating_sub(gap);
    let height = height_of(view, stay);
    let mut title = Vec::from_slice(alloc, b"place")?;
    push_place(&mut title, view.plan, stay.place)?;
    shapes.push(Shape::Piece {
        left,
        top: height.from,
        width: right.saturating_sub(left),
        height: height.to.saturating_sub(height.from),
        title,
    })?;
    draw_ends(
        shapes,
        Reach {
            from: left,
            to: right,
        },
        height,
    )?;
    if before.is_none() {
        draw_side(shapes, left, height.from, height.to)?;
    }
    match after {
        Some(other) => draw_step(shapes, right, height, height_of(view, &other)),
        None => draw_side(shapes, right, height.from, height.to),
    }
}

/// How deep the place of a stay is nested, up to 8.
fn depth_of(view: &View, stay: &Stay) -> u64 {
    (view.plan.around(stay.place).len() as u64).min(8)
}

/// Draws the upper and the lower edge of a piece.
fn draw_ends(shapes: &mut Vec<Shape>, width: Reach, height: Reach) -> Result<(), OutOfMemory> {
    for level in [height.from, height.to] {
        shapes.push(Shape::Line {
            look: LineLook::Edge,
            left: width.from,
            top: level,
            right: width.to,
            bottom: level,
        })?;
    }
    Ok(())
}

/// Draws an edge at a side of a piece.
fn draw_side(shapes: &mut Vec<Shape>, left: u64, from: u64, to: u64) -> Result<(), OutOfMemory> {
    shapes.push(Shape::Line {
        look: LineLook::Edge,
        left,
        top: from.min(to),
        right: left,
        bottom: from.max(to),
    })?;
    Ok(())
}

/// Draws the edges between two pieces of a box, above and below what they share.
fn draw_step(
    shapes: &mut Vec<Shape>,
    left: u64,
    height: Reach,
    other: Reach,
) -> Result<(), OutOfMemory> {
    if height.from != other.from {
        draw_side(shapes, left, height.from, other.from)?;
    }
    if height.to != other.to {
        draw_side(shapes, left, height.to, other.to)?;
    }
    Ok(())
}

/// Writes the number and the action of a place where a participant arrives; at the top of the part for the place in which it is there,
/// behind those round it, the outermost first.
fn name_stay(
    alloc: Global,
    shapes: &mut Vec<Shape>,
    view: &View,
    stays: &[Stay],
    stay: &Stay,
) -> Result<(), OutOfMemory> {
    let mut words = Vec::new(alloc);
    if let Some(row) = row_of(view, stay.from) {
        push_place(&mut words, view.plan, stay.place)?;
        return write_words(
            shapes,
            WordsLook::Action,
            view.axis(stay.lane).saturating_add(50),
            middle(row).saturating_add(4),
            words,
        );
    }
    if is_innermost(view, stays, stay) {
        for outer in view.plan.around(stay.place).iter().rev() {
            push_place(&mut words, view.plan, *outer)?;
            push_word(&mut words, b"/")?;
        }
        push_place(&mut words, view.plan, stay.place)?;
        write_words(
            shapes,
            WordsLook::Action,
            view.axis(stay.lane).saturating_add(12),
            TOP + 2,
            words,
        )?;
    }
    Ok(())
}

/// Whether no other stay of the participant begins between the beginning of this one and the part.
fn is_innermost(view: &View, stays: &[Stay], stay: &Stay) -> bool {
    !stays.iter().any(|other| {
        other.lane == stay.lane && other.from > stay.from && other.from < view.first
    })
}
