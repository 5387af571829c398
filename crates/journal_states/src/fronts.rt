//! Texts of journals that were cut off, read as far as they go.

ghost use Rattle.std.specs.Prelude.{◌≡◌, ◌≤◌, true, length, IfOk, IfSome};
ghost use Rattle.place_plan.specs.RulesOfJournals.WellFormed.{IsWellFormed, AllWellFormed};
ghost use Rattle.journal_text.specs.Texts.Naming.{is_well_named};

use crate::wanted::entry_of;
use caa_base::written::entry::{Entry, OutOfMemory};
use caa_base::written::journal::Journal;
use journal_text::looks::seens::Seens;
use journal_text::texts::text_writer::{push_entry, write};
use place_plan::plans::plan::Plan;
use place_plan::rules::well_formed::is_well_formed;
use std::alloc::Global;

/// What stands behind the entries of a text.
#[derive(Clone, Copy, PartialEq, Eq)]
pub enum Ending {
    /// Nothing: the text breaks off behind a whole line.
    Nothing,
    /// A part of a line, whose line feed is missing.
    Part,
    /// A front of the lines that close the text.
    Closing,
    /// All lines that close the text, and perhaps more.
    Closed,
    /// Something that stands in no text.
    Odd,
}

/// The entries with whose lines a text begins, and what stands behind them.
#[derive(Drop)]
pub struct Front {
    pub journal: Journal,
    /// How many bytes the first line and the lines of the entries have.
    pub length: usize,
    pub ending: Ending,
}

/// The first line of the text of a journal.
const FIRST_LINE: &[u8] = b"journal\n";

/// The well-formed entry whose line a text begins with, and the rest of the text. The line is written again into `line`.
fn next_entry<'a>(
    plan: &Plan,
    text: &'a [u8],
    line: &mut Vec<u8>,
) -> Result<Option<(Entry, &'a [u8])>, OutOfMemory>
    ensures { IfOk result (λ found. IfSome found (λ e. IsWellFormed plan.now e.0)) }
{
    let Some(end) = text.iter().position(|byte| *byte == b'\n') else {
        return Ok(None);
    };
    let Ok(entry) = entry_of(plan, text.get(..end).unwrap_or(&[])) else {
        return Ok(None);
    };
    if !is_well_formed(plan, &entry) {
        return Ok(None);
    }
    line.clear();
    push_entry(line, plan, &entry)?;
    match text.strip_prefix(line.as_slice()) {
        Some(rest) => Ok(Some((entry, rest))),
        None => Ok(None),
    }
}

/// The entries with whose lines a text begins, no more than the limit, and the rest of the text.
fn entries_of<'a>(
    alloc: Global,
    plan: &Plan,
    text: &'a [u8],
    limit: u64,
) -> Result<(Vec<Entry>, &'a [u8]), OutOfMemory>
    ensures { IfOk result (λ read. AllWellFormed plan.now read.0.items) }
{
    let mut entries = Vec::new(alloc);
    let mut rest = text;
    let mut line = Vec::new(alloc);
    for _ in 0..limit {
        match next_entry(plan, rest, &mut line)? {
            Some((entry, after)) => {
                entries.push(entry)?;
                rest = after;
            }
            None => return Ok((entries, rest)),
        }
    }
    Ok((entries, rest))
}

/// What stands in a text behind its first lines, which have so many bytes and are those of the journal.
fn ending_of(
    alloc: Global,
    plan: &Plan,
    journal: &Journal,
    bytes: &[u8],
    length: usize,
) -> Result<Ending, OutOfMemory>
    requires { AllWellFormed plan.now journal.now.entries }
{
    let rest = bytes.get(length..).unwrap_or(&[]);
    if rest.is_empty() {
        return Ok(Ending::Nothing);
    }
    let whole = write(alloc, plan, journal, &Seens::empty(alloc))?;
    if bytes.starts_with(whole.as_slice()) {
        Ok(Ending::Closed)
    } else if whole.as_slice().starts_with(bytes) {
        Ok(Ending::Closing)
    } else if rest.contains(&b'\n') {
        Ok(Ending::Odd)
    } else {
        Ok(Ending::Part)
    }
}

/// The entries of a text that perhaps was cut off; none where not even its first line is there.
pub fn read_front(
    alloc: Global,
    plan: &Plan,
    bytes: &[u8],
    limit: u64,
) -> Result<Option<Front>, OutOfMemory>
    ensures { IfOk result (λ front. IfSome front (λ f. AllWellFormed plan.now f.journal.entries)) }
{
    let Some(text) = bytes.strip_prefix(FIRST_LINE) else {
        return Ok(None);
    };
    let (entries, rest) = entries_of(alloc, plan, text, limit)?;
    let length = bytes.len().saturating_sub(rest.len());
    let journal = Journal::from_vec(entries);
    let ending = ending_of(alloc, plan, &journal, bytes, length)?;
    Ok(Some(Front {
        journal,
        length,
        ending,
    }))
}
