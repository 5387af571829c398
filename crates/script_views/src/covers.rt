//! The `cover` lines of a graph, and what they set above and below an exception.

use action_script::forms::form::Form;
use action_script::forms::script::Line;
use caa_base::written::entry::OutOfMemory;
use cover_table::MOST_EXCEPTIONS;
use std::alloc::Global;

/// What a `cover` line says, and its number.
#[derive(Clone, Copy)]
pub struct CoverLine {
    pub upper: u32,
    pub lower: u32,
    pub line: u32,
}

/// The `cover` lines of a graph, but for those that set an exception above itself.
pub fn covers_of(alloc: Global, block: &[Line]) -> Result<Vec<CoverLine>, OutOfMemory> {
    let mut covers = Vec::new(alloc);
    for line in block {
        if let Form::Cover(upper, lower) = &line.form {
            if *upper != *lower {
                covers.push(CoverLine {
                    upper: *upper,
                    lower: *lower,
                    line: line.number,
                })?;
            }
        }
    }
    Ok(covers)
}

/// An exception, and all that stand above it by `cover` lines.
pub fn above(alloc: Global, covers: &[CoverLine], name: u32) -> Result<Vec<u32>, OutOfMemory> {
    let mut names = Vec::new(alloc);
    names.push(name)?;
    for index in 0..MOST_EXCEPTIONS {
        let Some(lower) = names.get(index).copied() else {
            break;
        };
        for cover in covers {
            if cover.lower == lower && !names.contains(&cover.upper) {
                names.push(cover.upper)?;
            }
        }
    }
    Ok(names)
}

/// An exception, and all that stand below it by `cover` lines.
pub fn below(alloc: Global, covers: &[CoverLine], name: u32) -> Result<Vec<u32>, OutOfMemory> {
    let mut names = Vec::new(alloc);
    names.push(name)?;
    for index in 0..MOST_EXCEPTIONS {
        let Some(upper) = names.get(index).copied() else {
            break;
        };
        for cover in covers {
            if cover.upper == upper && !names.contains(&cover.lower) {
                names.push(cover.lower)?;
            }
        }
    }
    Ok(names)
}
