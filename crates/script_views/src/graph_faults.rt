//! Graphs in which exceptions cover each other, or in which two have no least cover.

use crate::covers::{CoverLine, above, covers_of};
use crate::page::{Page, Piece};
use crate::scene::Scene;
use crate::source::show_line;
use caa_base::written::entry::OutOfMemory;
use cover_table::MOST_EXCEPTIONS;
use script_checker::declared::{Block, SoFar};
use std::alloc::Global;

/// An exception that was reached on the way down from another one.
#[derive(Clone, Copy)]
struct Reached {
    name: u32,
    /// The number of the `cover` line by which it was reached.
    line: u32,
    /// Which of those reached before it stands right above it.
    from: usize,
}

// ---- ways down

/// Whether an exception was reached.
fn has_reached(reached: &[Reached], name: u32) -> bool {
    reached.iter().any(|step| step.name == name)
}

/// Adds what stands right below an exception, where it wasn't reached; tells whether `to` is there.
fn go_down(
    reached: &mut Vec<Reached>,
    covers: &[CoverLine],
    from: usize,
    name: u32,
    to: u32,
) -> Result<bool, OutOfMemory> {
    for cover in covers {
        if cover.upper == name && (cover.lower == to || !has_reached(reached, cover.lower)) {
            reached.push(Reached {
                name: cover.lower,
                line: cover.line,
                from,
            })?;
            if cover.lower == to {
                return Ok(true);
            }
        }
    }
    Ok(false)
}

/// A shortest way over `cover` lines from one exception down to another, which may be itself: the steps, the last one first.
fn way_down(
    alloc: Global,
    covers: &[CoverLine],
    start: u32,
    to: u32,
) -> Result<Vec<Reached>, OutOfMemory> {
    let mut reached = Vec::new(alloc);
    reached.push(Reached {
        name: start,
        line: 0,
        from: 0,
    })?;
    for index in 0..MOST_EXCEPTIONS {
        let Some(step) = reached.get(index).copied() else {
            break;
        };
        if go_down(&mut reached, covers, index, step.name, to)? {
            return steps_back(alloc, &reached);
        }
    }
    Ok(Vec::new(alloc))
}

/// The steps from the last one that was reached back to the first.
fn steps_back(alloc: Global, reached: &[Reached]) -> Result<Vec<Reached>, OutOfMemory> {
    let mut steps = Vec::new(alloc);
    let mut index = reached.len().saturating_sub(1);
    for _ in 0..reached.len() {
        if index == 0 {
            break;
        }
        let Some(step) = reached.get(index).copied() else {
            break;
        };
        steps.push(step)?;
        index = step.from;
    }
    Ok(steps)
}

/// The name of an exception by its number in the graph that ends.
fn exception_name(scene: &Scene, so_far: &SoFar, number: u32) -> u32 {
    let Block::Graph(graph) = &so_far.block else {
        return scene.universal;
    };
    let names = graph.exceptions().items();
    names
        .get(number as usize)
        .copied()
        .unwrap_or(scene.universal)
}

// ---- rings

/// Tells which lines set something above `universal`.
fn tell_above_universal(
    scene: &Scene,
    covers: &[CoverLine],
    notes: &mut Page,
) -> Result<(), OutOfMemory> {
    notes.note(&[Piece::Text(
        "universal stands above every exception by itself, so nothing can cover it:",
    )])?;
    for cover in covers {
        if cover.lower == scene.universal {
            show_line(notes, scene.text, cover.line)?;
        }
    }
    notes.note(&[Piece::Text("take the line away, or turn it round")])
}

/// Tells the ring of `cover` lines that leads from an exception back to itself.
pub fn tell_cycle(
    scene: &Scene,
    so_far: &SoFar,
    at: u32,
    notes: &mut Page,
) -> Result<usize, OutOfMemory> {
    let covers = covers_of(scene.alloc, scene.block)?;
    if at == 0 {
        tell_above_universal(scene, &covers, notes)?;
        return Ok(0);
    }
    let name = exception_name(scene, so_far, at);
    let steps = way_down(scene.alloc, &covers, name, name)?;
    notes.note(&[
        Piece::Text("no exception may stand above itself, and these lines lead from "),
        Piece::Named(name),
        Piece::Text(" back to "),
        Piece::Named(name),
        Piece::Text(":"),
    ])?;
    for step in steps.iter().rev() {
        show_line(notes, scene.text, step.line)?;
    }
    notes.note(&[Piece::Text(
        "`cover UPPER LOWER`: turn round the line that is the wrong way, or take away the one that is too many",
    )])?;
    Ok(0)
}

// ---- rivals

/// Whether an exception stands right above one of these.
fn is_above_one(covers: &[CoverLine], name: u32, others: &[u32]) -> bool {
    covers.iter().any(|cover| cover.upper == name && others.contains(&cover.lower))
}

/// The exceptions above two others that have no further one of these below them.
fn rivals(
    scene: &Scene,
    covers: &[CoverLine],
    first: u32,
    second: u32,
) -> Result<Vec<u32>, OutOfMemory> {
    let mut common = Vec::new(scene.alloc);
    let others = above(scene.alloc, covers, second)?;
    for name in above(scene.alloc, covers, first)? {
        if others.contains(&name) && name != scene.universal {
            common.push(name)?;
        }
    }
    let mut least = Vec::new(scene.alloc);
    for name in &common {
        if !is_above_one(covers, *name, &common) {
            least.push(*name)?;
        }
    }
    Ok(least)
}

/// Tells a way from an exception down to another.
fn tell_way(
    scene: &Scene,
    covers: &[CoverLine],
    start: u32,
    to: u32,
    notes: &mut Page,
) -> Result<(), OutOfMemory> {
    notes.say(&[Piece::Text("  = "), Piece::Named(start)])?;
    let steps = way_down(scene.alloc, covers, start, to)?;
    for step in steps.iter().rev() {
        notes.say(&[
            Piece::Text(" covers "),
            Piece::Named(step.name),
            Piece::Text(" (line "),
            Piece::Number(u64::from(step.line)),
            Piece::Text(")"),
        ])?;
    }
    notes.say(&[Piece::Text("\n")])
}

/// Tells the exceptions that stand above two others, and of which none is the least.
pub fn tell_no_least(
    scene: &Scene,
    so_far: &SoFar,
    first: u32,
    second: u32,
    notes: &mut Page,
) -> Result<usize, OutOfMemory> {
    let covers = covers_of(scene.alloc, scene.block)?;
    let first = exception_name(scene, so_far, first);
    let second = exception_name(scene, so_far, second);
    let least = rivals(scene, &covers, first, second)?;
    notes.note(&[
        Piece::Text("where "),
        Piece::Named(first),
        Piece::Text(" and "),
        Piece::Named(second),
        Piece::Text(
            " are raised together, several exceptions could answer both, and none of these covers another: ",
        ),
        Piece::List(&least),
    ])?;
    for name in &least {
        tell_way(scene, &covers, *name, first, notes)?;
        tell_way(scene, &covers, *name, second, notes)?;
    }
    notes.note(&[Piece::Text(
        "let one of them cover the others, or declare one more below them that covers both, or take a `cover` line away",
    )])?;
    Ok(0)
}
