//! Places of one text after another.

ghost use Rattle.std.specs.Prelude.{◌≡◌, ◌≤◌, ◌*◌, length, min};
ghost use Rattle.script_documents.specs.Positions.{position_of};
ghost use Rattle.script_documents.specs.Edits.{most_document_bytes};

use crate::positions::{Position, Range, position_from};
use std::marker::Model;

/// Finds places of a text, seen as the text. A place behind the last one that was asked for is found by going on from there.
#[derive(Drop)]
pub struct Walk<'a> {
    text: &'a [u8],
    /// How many bytes stand before the last place that was asked for.
    offset: usize,
    position: Position,
}

impl<'a> Model for Walk<'a> {
    ghost use Rattle.std.specs.Prelude.{◌≡◌, ◌≤◌, ◌*◌, List, ℕ, length};
    ghost use Rattle.script_documents.specs.Positions.{position_of};
    ghost use Rattle.script_documents.specs.Edits.{most_document_bytes};

    ghost Value = { List ℕ };

    ghost view = { λ w. w.text.now };

    ghost invariant = { λ w. (length w.text.now ≤ most_document_bytes) × (w.offset ≤ length w.text.now)
        × (w.position ≡ position_of w.text.now w.offset) × (w.position.line ≤ w.offset) × (w.position.character ≤ 2 * w.offset) };
}

impl<'a> Walk<'a> {
    /// At the front of a text.
    pub fn of(text: &'a [u8]) -> Walk<'a>
        requires { length text.now ≤ most_document_bytes }
        ensures { result ≡ text.now }
    {
        Walk {
            text,
            offset: 0,
            position: Position {
                line: 0,
                character: 0,
            },
        }
    }

    /// How many bytes stand before the last place that was asked for, and that place; where it is behind this one, those of the front.
    #[tactic(auto, using(crate::proofs::Places::begins))]
    fn nearest(&self, offset: usize) -> (usize, Position)
        requires { offset ≤ length self.now }
        ensures order { result.0 ≤ offset }
        ensures place { result.1 ≡ position_of self.now result.0 }
        ensures line { result.1.line ≤ result.0 }
        ensures character { result.1.character ≤ 2 * result.0 }
    {
        if self.offset <= offset {
            (self.offset, self.position)
        } else {
            let front = Position {
                line: 0,
                character: 0,
            };
            (0, front)
        }
    }

    /// The place before which so many bytes stand.
    pub fn position_of(&mut self, offset: usize) -> Position
        requires { offset ≤ length self.old }
        ensures place { result ≡ position_of self.old offset }
        ensures text { self.new ≡ self.old }
    {
        let (from, before) = self.nearest(offset);
        let position = position_from(&self.text[from..], before, offset - from);
        self.offset = offset;
        self.position = position;
        position
    }

    /// The range between two places before which so many bytes stand; a number that is past the end of the text stands for the end.
    pub fn range_of(&mut self, start: usize, end: usize) -> Range
        ensures range { result ≡ record {
          start = position_of self.old (min start (length self.old));
          end = position_of self.old (min end (length self.old));
        } }
        ensures text { self.new ≡ self.old }
    {
        let most = self.text.len();
        Range {
            start: self.position_of(start.min(most)),
            end: self.position_of(end.min(most)),
        }
    }
}
