//! What a picture shows beside its marks and stretches: lanes, places, and words.

ghost use Rattle.std.specs.Prelude.{◌<◌, ◌≤◌, ◌^◌};

use crate::layout::{LEFT, MARGIN, TOP, View, bottom, is_seen, level, middle, row_of};
use crate::shapes::{LineLook, Shape, WordsLook};
use crate::stays::draw_places;
use crate::stretches::Told;
use crate::words::label_of;
use caa_base::written::entry::{Kind, OutOfMemory, Place};
use caa_base::written::line::push_number;
use journal_states::words::participant_name;
use std::alloc::Global;

/// After how many rows the names of the lanes stand again.
pub const ROWS_BETWEEN_HEADS: u32 = 40;

/// All that stands beside the marks and stretches.
pub fn frame(alloc: Global, view: &View, told: &Told) -> Result<Vec<Shape>, OutOfMemory> {
    let mut shapes = Vec::new(alloc);
    draw_lanes(alloc, &mut shapes, view)?;
    draw_heads(alloc, &mut shapes, view)?;
    draw_places(alloc, &mut shapes, view)?;
    draw_rows(alloc, &mut shapes, view)?;
    for note in told.notes.iter() {
        if let Some(row) = row_of(view, note.moment) {
            let words = Vec::from_slice(alloc, &note.words)?;
            let left = view.axis(note.lane).saturating_add(12);
            write_words(
                &mut shapes,
                WordsLook::Awaits,
                left,
                middle(row).saturating_add(4),
                words,
            )?;
        }
    }
    draw_break(alloc, &mut shapes, view, told)?;
    Ok(shapes)
}

/// Adds words.
pub fn write_words(
    shapes: &mut Vec<Shape>,
    look: WordsLook,
    left: u64,
    base: u64,
    words: Vec<u8>,
) -> Result<(), OutOfMemory> {
    shapes.push(Shape::Words {
        look,
        left,
        base,
        words,
    })?;
    Ok(())
}

/// Draws a lane for each participant.
fn draw_lanes(alloc: Global, shapes: &mut Vec<Shape>, view: &View) -> Result<(), OutOfMemory> {
    for lane in 0..view.plan.participants() {
        shapes.push(Shape::Line {
            look: LineLook::Lane,
            left: view.axis(lane),
            top: TOP - 6,
            right: view.axis(lane),
            bottom: bottom(view),
        })?;
    }
    name_lanes(alloc, shapes, view, TOP - 12, 0)
}

/// Writes the name of each participant above its lane, or so far to the right of it.
fn name_lanes(
    alloc: Global,
    shapes: &mut Vec<Shape>,
    view: &View,
    base: u64,
    right: u64,
) -> Result<(), OutOfMemory> {
    for lane in 0..view.plan.participants() {
        let name = Vec::from_slice(alloc, participant_name(view.plan, lane))?;
        let left = view.axis(lane).saturating_sub(10).saturating_add(right);
        write_words(shapes, WordsLook::Name, left, base, name)?;
    }
    Ok(())
}

/// Writes the names again above each fortieth row or so.
fn draw_heads(alloc: Global, shapes: &mut Vec<Shape>, view: &View) -> Result<(), OutOfMemory> {
    for row in 1..view.rows {
        if row % ROWS_BETWEEN_HEADS == 0 {
            name_lanes(alloc, shapes, view, middle(row).saturating_sub(14), 22)?;
        }
    }
    Ok(())
}

/// Draws what belongs to each row: its number, counted from 1, what its entry says, and a line to all whom it sets going.
fn draw_rows(alloc: Global, shapes: &mut Vec<Shape>, view: &View) -> Result<(), OutOfMemory> {
    let mut number = view.first;
    for entry in view.part {
        if let Some(row) = row_of(view, number) {
            if sets_all_going(entry.kind) {
                draw_joint(shapes, view, entry.place, middle(row))?;
            }
            let mut words = Vec::new(alloc);
            push_number(&mut words, number.saturating_add(1))?;
            write_words(
                shapes,
                WordsLook::Number,
                LEFT - 6,
                middle(row).saturating_add(3),
                words,
            )?;
            write_words(
                shapes,
                WordsLook::Says,
                view.axis(entry.by).saturating_add(12),
                middle(row).saturating_add(4),
                label_of(alloc, view.plan, entry)?,
            )?;
        }
        number = number.saturating_add(1);
    }
    Ok(())
}

/// Whether an entry of this kind sets all roles of its place going that waited.
fn sets_all_going(kind: Kind) -> bool {
    kind == Kind::Start || kind == Kind::Resolve || kind == Kind::End
}

/// Draws a line through all lanes of a place.
fn draw_joint(
    shapes: &mut Vec<Shape>,
    view: &View,
    place: Place,
    base: u64,
) -> Result<(), OutOfMemory> {
    let roles = view.plan.roles_of(place);
    let left = roles.iter().copied().min().unwrap_or(0);
    let right = roles.iter().copied().max().unwrap_or(0);
    shapes.push(Shape::Line {
        look: LineLook::Joint,
        left: view.axis(left),
        top: base,
        right: view.axis(right),
        bottom: base,
    })?;
    for lane in roles {
        shapes.push(Shape::Line {
            look: LineLook::Joined,
            left: view.axis(*lane).saturating_sub(8),
            top: base,
            right: view.axis(*lane).saturating_add(8),
            bottom: base,
        })?;
    }
    Ok(())
}

/// Draws a line above the first entry that may not come by the rules, if the part has it.
fn draw_break(
    alloc: Global,
    shapes: &mut Vec<Shape>,
    view: &View,
    told: &Told,
) -> Result<(), OutOfMemory> {
    let Some(row) = row_of(view, told.last) else {
        return Ok(());
    };
    let base = middle(row).saturating_sub(10);
    shapes.push(Shape::Line {
        look: LineLook::Break,
        left: 0,
        top: base,
        right: view.width.saturating_sub(MARGIN),
        bottom: base,
    })?;
    let words = Vec::from_slice(alloc, b"from here on not by the rules")?;
    write_words(shapes, WordsLook::Broken, 2, base.saturating_sub(2), words)
}
