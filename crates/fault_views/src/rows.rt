//! The rows of the table: what came of the puts of one spot.

use caa_base::written::entry::OutOfMemory;
use fault_trials::effects::Effect;
use fault_trials::modes::{Example, Mode, Spot};
use fault_trials::trials::{Findings, Line};
use std::alloc::Global;

/// An effect, and how often it came.
#[derive(Clone, Copy)]
pub struct Seen<'a> {
    pub mode: Mode,
    /// The second put that was refused, where there was one of a body or a handler.
    pub second: Option<Spot>,
    /// Where the effect stands among all.
    pub number: usize,
    pub effect: &'a Effect,
    pub times: u32,
    /// The first try that showed it.
    pub example: Example,
}

/// What came of the refused puts of a spot.
#[derive(Drop)]
pub struct FaultRow<'a> {
    pub spot: Spot,
    /// How many puts stood there in the journals without a fault.
    pub tried: u32,
    pub seen: Vec<Seen<'a>>,
}

/// Where an effect stands among those that were seen, if it came in this way.
fn seen_at(seen: &[Seen], line: &Line) -> Option<usize> {
    for (index, other) in seen.iter().enumerate() {
        if other.mode == line.mode && other.second == line.second && other.number == line.effect {
            return Some(index);
        }
    }
    None
}

/// Counts what a line tells.
fn add_line<'a>(
    seen: &mut Vec<Seen<'a>>,
    effects: &'a [Effect],
    line: &Line,
) -> Result<(), OutOfMemory> {
    if let Some(index) = seen_at(seen, line) {
        if let Some(other) = seen.get_mut(index) {
            other.times = other.times.saturating_add(1);
        }
        return Ok(());
    }
    if let Some(effect) = effects.get(line.effect) {
        seen.push(Seen {
            mode: line.mode,
            second: line.second,
            number: line.effect,
            effect,
            times: 1,
            example: line.example,
        })?;
    }
    Ok(())
}

/// What came of the puts of a spot.
fn row_of<'a>(
    alloc: Global,
    findings: &'a Findings,
    spot: Spot,
) -> Result<FaultRow<'a>, OutOfMemory> {
    let mut seen = Vec::new(alloc);
    let mut tried = 0u32;
    for line in &findings.lines {
        if line.spot != spot {
            continue;
        }
        if line.mode == Mode::Once {
            tried = tried.saturating_add(1);
        }
        add_line(&mut seen, &findings.effects, line)?;
    }
    Ok(FaultRow { spot, tried, seen })
}

/// Adds a spot, unless it is among these.
fn add_spot(spots: &mut Vec<Spot>, spot: Spot) -> Result<(), OutOfMemory> {
    if !spots.iter().any(|other| *other == spot) {
        spots.push(spot)?;
    }
    Ok(())
}

/// The spots of these lines, each once.
fn spots_of(alloc: Global, lines: &[Line]) -> Result<Vec<Spot>, OutOfMemory> {
    let mut spots = Vec::new(alloc);
    for line in lines {
        add_spot(&mut spots, line.spot)?;
    }
    Ok(spots)
}

/// The rows of a table, in the order in which their spots were tried first.
pub fn rows_of<'a>(
    alloc: Global,
    findings: &'a Findings,
) -> Result<Vec<FaultRow<'a>>, OutOfMemory> {
    let mut rows = Vec::new(alloc);
    for spot in &spots_of(alloc, &findings.lines)? {
        rows.push(row_of(alloc, findings, *spot)?)?;
    }
    Ok(rows)
}
