//! The marks of a picture: one for each entry that is drawn.

ghost use Rattle.std.specs.Prelude.{◌≡◌, ◌≤◌, length, IfOk};
ghost use Rattle.journal_pictures.specs.Marks.{most_rows, drawn, marks_from};

use caa_base::written::entry::{Entry, OutOfMemory};
use caa_base::written::journal::Journal;
use std::alloc::Global;

/// How many entries one picture shows at most.
pub const MOST_ROWS: u64 = 5_000;

/// An entry in a picture.
#[derive(Clone, Copy)]
pub struct Mark {
    /// The lane in which it stands, counted from 0 on the left: each participant has one, in the order of their numbers.
    pub lane: u32,
    /// The row in which it stands, counted from 0 at the top.
    pub row: u32,
    /// What it stands for.
    pub entry: Entry,
}

/// The entries that are drawn: `count` from number `first` on, or as many as there are, and no more than `MOST_ROWS`.
pub(crate) fn drawn(entries: &[Entry], first: u64, count: u64) -> &[Entry]
    ensures part { result.now ≡ drawn first count entries.now }
    ensures few { length result.now ≤ most_rows }
{
    if first >= entries.len() as u64 {
        return &[];
    }
    let rest = &entries[first as usize..];
    let most = count.min(MOST_ROWS) as usize;
    if rest.len() <= most {
        rest
    } else {
        &rest[..most]
    }
}

/// The marks of these entries, in order.
#[tactic(auto, using(crate::proofs::MarksLemmas::marks_next))]
pub(crate) fn marks_of(alloc: Global, part: &[Entry]) -> Result<Vec<Mark>, OutOfMemory>
    requires { length part.now ≤ most_rows }
    ensures { IfOk result (λ marks. marks.items ≡ marks_from 0 part.now) }
{
    let mut marks = Vec::new(alloc);
    for (row, entry) in part.iter().enumerate() {
        marks.push(Mark {
            lane: entry.by,
            row: row as u32,
            entry: *entry,
        })?;
    }
    Ok(marks)
}

/// The marks of the part of a journal that `chart` draws: of `count` entries from number `first` on, counted from 0, and no more than
/// `MOST_ROWS`.
pub fn marks(
    alloc: Global,
    journal: &Journal,
    first: u64,
    count: u64,
) -> Result<Vec<Mark>, OutOfMemory>
    ensures { IfOk result (λ marks. marks.items ≡ marks_from 0 (drawn first count journal.now.entries)) }
{
    marks_of(alloc, drawn(journal.as_slice(), first, count))
}
