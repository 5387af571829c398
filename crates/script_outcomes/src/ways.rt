//! How a place of an action can end.

ghost use Rattle.std.specs.Prelude.{◌≡◌};
ghost use Rattle.script_outcomes.specs.Endings.{is_undone};

use crate::covering::Exceptions;
use crate::programs::{Program, Said};
use caa_base::written::entry::OutOfMemory;
use std::alloc::Global;

/// How a place ends.
#[derive(Clone, Copy, PartialEq, Eq)]
pub enum Way {
    Commit,
    /// It commits, and tells the exception of this name outside.
    Signal(u32),
    /// All objects of the action are set back.
    Undone,
    /// They were to be set back, and the device refused one.
    Failed,
}

impl Way {
    /// Whether all objects are set back.
    pub fn is_undone(self) -> bool
        ensures { result ≡ is_undone self }
    {
        match self {
            Way::Undone => true,
            Way::Commit | Way::Signal(_) | Way::Failed => false,
        }
    }
}

/// Adds a way, unless it is there.
pub fn add_way(ways: &mut Vec<Way>, way: Way) -> Result<(), OutOfMemory> {
    if !ways.as_slice().contains(&way) {
        ways.push(way)?;
    }
    Ok(())
}

/// Whether a role asks for an undo by itself: it has no program, its program says so, or it raises.
fn is_undo(program: &Option<Program>, is_handler: bool) -> bool {
    match program {
        Some(program) => program.said == Said::Undo || is_handler && program.raises(),
        None => true,
    }
}

/// What the programs signal.
fn signals_of(alloc: Global, programs: &[Option<Program>]) -> Result<Vec<u32>, OutOfMemory> {
    let mut signals = Vec::new(alloc);
    for program in programs.iter().flatten() {
        if let Said::Signal(exception) = program.said {
            signals.push(exception)?;
        }
    }
    Ok(signals)
}

/// How a place ends whose roles go through these bodies or handlers to the end; `universal` is what is told where no least cover is known.
pub fn way_of(
    alloc: Global,
    interface: &Exceptions,
    programs: &[Option<Program>],
    is_handler: bool,
    universal: u32,
) -> Result<Way, OutOfMemory> {
    if programs.iter().any(|program| is_undo(program, is_handler)) {
        return Ok(Way::Undone);
    }
    let signals = signals_of(alloc, programs)?;
    if signals.is_empty() {
        return Ok(Way::Commit);
    }
    let least = interface.least(alloc, &signals)?;
    Ok(Way::Signal(least.unwrap_or(universal)))
}
