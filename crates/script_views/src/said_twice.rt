//! What was declared or said above already.

use crate::page::{Page, Piece};
use crate::scene::Scene;
use crate::source::show_line;
use action_script::forms::form::{Form, Wording};
use action_script::forms::script::Line;
use action_script::lines::field::Field;
use action_script::lines::kind::LineKind;
use caa_base::written::entry::OutOfMemory;
use std::alloc::Global;

/// What a line of a kind says that may be said only once, and how many of its words after the first tell it; none where all may be
/// said again.
fn said_once(kind: LineKind) -> Option<(usize, &'static str)> {
    match kind {
        LineKind::Participant => Some((1, "there is a participant of this name already")),
        LineKind::Object => Some((1, "there is an object of this name already")),
        LineKind::Drill => Some((2, "this put of the object is drilled already")),
        LineKind::Watch => Some((1, "the object is watched already")),
        LineKind::Graph => Some((1, "there is a graph of this name already")),
        LineKind::Action => Some((1, "there is an action of this name already")),
        LineKind::Exception => Some((1, "the graph has this exception already")),
        LineKind::Internal => Some((0, "an action has one `internal` line")),
        LineKind::Interface => Some((0, "an action has one `interface` line")),
        LineKind::Fault => Some((0, "an action has one `fault` line")),
        LineKind::Use => Some((
            0,
            "an action has one `use` line, which names all its objects",
        )),
        LineKind::Roles => Some((
            0,
            "an action has one `roles` line, which names all its roles",
        )),
        LineKind::Nest => Some((1, "the action has a nested use of this name already")),
        LineKind::Map => Some((
            2,
            "it is said already what this exception of the nested use is here",
        )),
        LineKind::MapUndo => Some((
            1,
            "it is said already what the undo of the nested use is here",
        )),
        LineKind::MapFailure => Some((
            1,
            "it is said already what the failure of the nested use is here",
        )),
        LineKind::Abort | LineKind::AbortTest => {
            Some((1, "the role has an `abort` line already"))
        }
        LineKind::Body => Some((1, "the role has a body already")),
        LineKind::Handler => Some((2, "the role has a handler for this exception already")),
        LineKind::Play
        | LineKind::Cover
        | LineKind::End
        | LineKind::Alternate
        | LineKind::Read
        | LineKind::Put
        | LineKind::Add
        | LineKind::Work
        | LineKind::Check
        | LineKind::Raise
        | LineKind::Enter
        | LineKind::Done
        | LineKind::Signal
        | LineKind::Undo => None,
    }
}

/// Whether two words of lines say the same name or the same count.
fn is_same(field: &Field, other: &Field) -> bool {
    match (field, other) {
        (Field::Name(name), Field::Name(other)) => *name == *other,
        (Field::Count(count), Field::Count(other)) => *count == *other,
        _ => false,
    }
}

/// Whether two lists begin with the same words, so many.
fn begin_alike(fields: &[Field], others: &[Field], count: usize) -> bool {
    (0..count).all(|index| match (fields.get(index), others.get(index)) {
        (Some(field), Some(other)) => is_same(field, other),
        _ => false,
    })
}

/// The first of these lines that begins with the same word as a line, and goes on with the same words, so many.
fn first_same(
    alloc: Global,
    lines: &[Line],
    wording: &Wording,
    count: usize,
) -> Result<Option<u32>, OutOfMemory> {
    for line in lines {
        let other = line.form.wording(alloc)?;
        if other.kind.word() == wording.kind.word()
            && begin_alike(&other.fields, &wording.fields, count)
        {
            return Ok(Some(line.number));
        }
    }
    Ok(None)
}

/// The index of the first name of a list that stands there before.
pub fn first_repeated(names: &[u32]) -> Option<usize> {
    for (index, name) in names.iter().enumerate() {
        let earlier = names.get(..index).unwrap_or(&[]);
        if earlier.contains(name) {
            return Some(index);
        }
    }
    None
}

/// The first of these words that is a name which stands before it.
fn first_again(fields: &[Field]) -> Option<(usize, u32)> {
    for (index, field) in fields.iter().enumerate() {
        let earlier = fields.get(..index).unwrap_or(&[]);
        if let Field::Name(name) = field {
            if earlier.iter().any(|other| is_same(field, other)) {
                return Some((index, *name));
            }
        }
    }
    None
}

/// Tells that a name stands twice in a line, and gives the number of its word.
fn tell_repeated(fields: &[Field], notes: &mut Page) -> Result<usize, OutOfMemory> {
    let Some((index, name)) = first_again(fields) else {
        return Ok(0);
    };
    notes.note(&[
        Piece::Text("`"),
        Piece::Named(name),
        Piece::Text("` stands twice in this line"),
    ])?;
    Ok(index.saturating_add(1))
}

/// Tells of a line that says nothing which a line above it has said: a name of it stands twice, or is one that each graph has.
fn tell_alone(kind: LineKind, fields: &[Field], notes: &mut Page) -> Result<usize, OutOfMemory> {
    if let LineKind::Exception = kind {
        notes.note(&[Piece::Text(
            "every graph has the exception universal without a line for it",
        )])?;
        return Ok(1);
    }
    tell_repeated(fields, notes)
}

/// Tells what a line says again, and gives the number of a word in the line.
pub fn tell_twice(scene: &Scene, form: &Form, notes: &mut Page) -> Result<usize, OutOfMemory> {
    let lines = if scene.block.is_empty() {
        scene.before
    } else {
        scene.block
    };
    let wording = form.wording(scene.alloc)?;
    let Some((count, subject)) = said_once(wording.kind) else {
        return Ok(0);
    };
    match first_same(scene.alloc, lines, &wording, count)? {
        Some(earlier) => {
            notes.note(&[
                Piece::Text(subject),
                Piece::Text(", by line "),
                Piece::Number(u64::from(earlier)),
            ])?;
            show_line(notes, scene.text, earlier)?;
            Ok(count)
        }
        None => tell_alone(wording.kind, &wording.fields, notes),
    }
}
