//! What is too deep, too many or too long, and alternates of another face.

use crate::page::{Page, Piece};
use crate::scene::Scene;
use crate::unfilled::first_action;
use crate::unknown::graph_name;
use action_script::forms::form::Form;
use action_script::lines::kind::LineKind;
use caa_base::written::entry::OutOfMemory;
use caa_base::written::limits::{
    MOST_ACTIONS, MOST_ALTERNATES, MOST_DEPTH, MOST_DRILLS, MOST_ENTRIES, MOST_GRAPHS, MOST_NESTS,
    MOST_OBJECTS, MOST_PARTICIPANTS, MOST_PLACES, MOST_ROLES, MOST_STEPS, MOST_WATCHES,
};
use cover_table::MOST_EXCEPTIONS;
use place_plan::plans::tables::number_at;
use script_checker::declared::{Declared, SoFar};
use script_checker::lookups::action_of;
use std::alloc::Global;

/// The deepest of some actions that have ended, by its number.
fn deepest_of(declared: &Declared, actions: &[u32]) -> Option<u32> {
    let depths = declared.depths.as_slice();
    let mut deepest = None;
    let mut most = 0;
    for action in actions {
        let depth = number_at(depths, *action);
        if depth > most {
            most = depth;
            deepest = Some(*action);
        }
    }
    deepest
}

/// The deepest action that an action nests which has ended, by the numbers of both.
fn deepest_nested(
    alloc: Global,
    declared: &Declared,
    action: u32,
) -> Result<Option<u32>, OutOfMemory> {
    let mut nested = Vec::new(alloc);
    if let Some(row) = declared.actions.as_slice().get(action as usize) {
        for nest in row.nests.as_slice() {
            nested.extend_from_slice(nest.actions.as_slice())?;
        }
    }
    Ok(deepest_of(declared, &nested))
}

/// An action of this name, the deepest that it nests, the deepest that this one nests, and so on, by their names.
fn deepest_chain(alloc: Global, declared: &Declared, action: u32) -> Result<Vec<u32>, OutOfMemory> {
    let mut chain = Vec::new(alloc);
    let mut next = Some(declared.action_names.find(action));
    for _ in 0..MOST_DEPTH {
        let Some(number) = next else {
            break;
        };
        if let Some(name) = declared.action_names.items().get(number as usize) {
            chain.push(*name)?;
        }
        next = deepest_nested(alloc, declared, number)?;
    }
    Ok(chain)
}

/// Tells an action that stands as deep as an action may, with what is nested in it.
pub fn tell_too_deep(
    scene: &Scene,
    so_far: &SoFar,
    form: &Form,
    notes: &mut Page,
) -> Result<usize, OutOfMemory> {
    let (Form::Nest(_, action, _) | Form::Alternate(_, action)) = form else {
        return Ok(0);
    };
    let chain = deepest_chain(scene.alloc, &so_far.declared, *action)?;
    notes.note(&[
        Piece::Text("the action "),
        Piece::Named(*action),
        Piece::Text(" is "),
        Piece::Number(u64::from(MOST_DEPTH)),
        Piece::Text(" deep already, which is the most: "),
        Piece::List(&chain),
    ])?;
    notes.note(&[Piece::Text("each of these nests the next one: take a level out")])?;
    Ok(2)
}

/// What lines of a kind can be too many of, and how many there may be; none where nothing limits them.
fn limit_of(kind: LineKind) -> Option<(&'static str, u64)> {
    match kind {
        LineKind::Participant => Some((" participants of a script", MOST_PARTICIPANTS as u64)),
        LineKind::Object => Some((" objects of a script", MOST_OBJECTS as u64)),
        LineKind::Drill => Some((" drills of a script", MOST_DRILLS as u64)),
        LineKind::Watch => Some((" watched objects of a script", MOST_WATCHES as u64)),
        LineKind::Graph => Some((" graphs of a script", MOST_GRAPHS as u64)),
        LineKind::Action => Some((" actions of a script", MOST_ACTIONS as u64)),
        LineKind::Exception => Some((
            " exceptions of a graph, with universal",
            MOST_EXCEPTIONS as u64,
        )),
        LineKind::Roles => Some((" roles of an action", MOST_ROLES as u64)),
        LineKind::Nest => Some((" nested uses of an action", MOST_NESTS as u64)),
        LineKind::Alternate => Some((" actions of a nested use", MOST_ALTERNATES as u64)),
        LineKind::Play => Some((
            " places that all plays come to together",
            MOST_PLACES as u64,
        )),
        LineKind::Read
        | LineKind::Put
        | LineKind::Add
        | LineKind::Work
        | LineKind::Check
        | LineKind::Raise
        | LineKind::Enter => Some((" steps of a body or a handler", MOST_STEPS as u64)),
        LineKind::Cover
        | LineKind::End
        | LineKind::Internal
        | LineKind::Interface
        | LineKind::Fault
        | LineKind::Use
        | LineKind::Map
        | LineKind::MapUndo
        | LineKind::MapFailure
        | LineKind::Abort
        | LineKind::AbortTest
        | LineKind::Body
        | LineKind::Handler
        | LineKind::Done
        | LineKind::Signal
        | LineKind::Undo => None,
    }
}

/// Tells which limit a line passes, and gives the number of a word in the line.
pub fn tell_limit(alloc: Global, form: &Form, notes: &mut Page) -> Result<usize, OutOfMemory> {
    let kind = form.wording(alloc)?.kind;
    let Some((what, most)) = limit_of(kind) else {
        return Ok(0);
    };
    notes.note(&[
        Piece::Text("with this line there are more than "),
        Piece::Number(most),
        Piece::Text(what),
        Piece::Text(", which is the most"),
    ])?;
    if let LineKind::Roles = kind {
        return Ok(MOST_ROLES.saturating_add(1));
    }
    if let LineKind::Play = kind {
        notes.note(&[Piece::Text(
            "a play has a place for its action, and one for each use that is nested in it, on all levels: play less often, or nest less",
        )])?;
    }
    Ok(0)
}

/// Tells that journals could get too long.
pub fn tell_bound(so_far: &SoFar, notes: &mut Page) -> Result<usize, OutOfMemory> {
    let plays = so_far.declared.plays.as_slice().len() as u64;
    if plays == 0 {
        notes.note(&[
            Piece::Text("the journal of this play alone could have more than "),
            Piece::Number(MOST_ENTRIES),
            Piece::Text(" entries, which is the most"),
        ])?;
        notes.note(&[Piece::Text("nest less in its action, or shorten bodies")])?;
        return Ok(0);
    }
    notes.note(&[
        Piece::Text("with this play and the "),
        Piece::Number(plays),
        Piece::Text(" above it a journal could have more than "),
        Piece::Number(MOST_ENTRIES),
        Piece::Text(" entries, which is the most"),
    ])?;
    notes.note(&[Piece::Text("play less often, nest less, or shorten bodies")])?;
    Ok(0)
}

/// Tells which graph an action tells outside.
fn tell_face(declared: &Declared, action: u32, notes: &mut Page) -> Result<(), OutOfMemory> {
    let graph = match action_of(declared, action) {
        Some(row) => graph_name(declared, row.interface),
        None => None,
    };
    match graph {
        Some(graph) => notes.note(&[
            Piece::Text("the interface graph of "),
            Piece::Named(action),
            Piece::Text(" is "),
            Piece::Named(graph),
        ]),
        None => notes.note(&[
            Piece::Text("the action "),
            Piece::Named(action),
            Piece::Text(" has no `interface` line, so it tells universal alone"),
        ]),
    }
}

/// Tells the two interface graphs that have to be one.
pub fn tell_other_face(
    scene: &Scene,
    so_far: &SoFar,
    form: &Form,
    notes: &mut Page,
) -> Result<usize, OutOfMemory> {
    let Form::Alternate(nest, action) = form else {
        return Ok(0);
    };
    tell_face(&so_far.declared, *action, notes)?;
    tell_face(&so_far.declared, first_action(scene, *nest), notes)?;
    notes.note(&[
        Piece::Text("all actions of the nested use "),
        Piece::Named(*nest),
        Piece::Text(" need one interface graph, since its `map` lines serve for all"),
    ])?;
    Ok(2)
}
