//! What stands round a line of a script.

ghost use Rattle.std.specs.Prelude.{◌≡◌};

use crate::looking::open_block;
use action_script::forms::script::Line;
use caa_base::written::name::Name;
use std::alloc::Global;

/// A line of a script, and what stands before it.
#[derive(Clone, Copy)]
pub struct Scene<'a> {
    pub alloc: Global,
    /// The whole text of the script.
    pub text: &'a [u8],
    /// The number of the line.
    pub number: u32,
    pub names: &'a [Name],
    /// The number of the name `universal`, or how many names there are.
    pub universal: u32,
    /// All lines that say something; of a text that can't be read, those before its first fault.
    pub lines: &'a [Line],
    /// Those before the line.
    pub before: &'a [Line],
    /// Of these the lines of the block that the line stands in; none at the top.
    pub block: &'a [Line],
}

/// The lines before the line of this number.
pub fn lines_before(lines: &[Line], number: u32) -> &[Line] {
    for (index, line) in lines.iter().enumerate() {
        if line.number >= number {
            return lines.get(..index).unwrap_or(lines);
        }
    }
    lines
}

impl<'a> Scene<'a> {
    /// What stands round the line of this number, where these lines were read.
    pub fn new(
        alloc: Global,
        text: &'a [u8],
        number: u32,
        names: &'a [Name],
        universal: u32,
        lines: &'a [Line],
    ) -> Scene<'a>
        ensures { result.number ≡ number }
    {
        let before = lines_before(lines, number);
        let block = open_block(before);
        Scene {
            alloc,
            text,
            number,
            names,
            universal,
            lines,
            before,
            block,
        }
    }
}
