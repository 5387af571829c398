ghost use Rattle.std.specs.Prelude.{◌≡◌, ◌≤◌, ◌++◌, if◌then◌else◌, IfOk, OnOk};
ghost use Rattle.place_plan.specs.RulesOfJournals.WellFormed.{AllWellFormed};
ghost use Rattle.cell_workload.specs.Summary.{counted_line, ending_lines, ends_counted, says_outcome, summary_text};

use caa_base::written::entry::{Entry, Kind, OutOfMemory};
use caa_base::written::journal::Journal;
use caa_base::written::line::{end_line, push_number};
use journal_text::texts::text_writer::push_objects;
use place_plan::plans::plan::Plan;
use place_plan::rules::one_entry::outcome_at;
use std::alloc::Global;

/// One for an End that says an outcome with this mark, and nothing for any other entry.
fn counted(entry: &Entry, mark: u32) -> u64
    ensures value { result ≡ (if says_outcome mark entry.now then 1 else 0) }
    ensures few { result ≤ 1 }
{
    if entry.kind == Kind::End && outcome_at(entry).mark().0 == mark {
        1
    } else {
        0
    }
}

/// How many places ended with an outcome of this mark.
fn ends_counted(entries: &[Entry], mark: u32) -> u64
    ensures { result ≡ ends_counted mark entries.now }
{
    let mut count = 0;
    for entry in entries {
        count += counted(entry, mark);
    }
    count
}

/// Adds a line of a word and a number.
fn push_counted(text: &mut Vec<u8>, word: &[u8], count: u64) -> Result<(), OutOfMemory>
    ensures { OnOk result (text.new.items ≡ text.old.items ++ counted_line word.now count) }
{
    text.extend_from_slice(word)?;
    push_number(text, count)?;
    end_line(text)
}

/// Adds a line for each outcome, with how many places ended so. The outcomes have the marks 0 to 4, in this order.
fn push_endings(text: &mut Vec<u8>, entries: &[Entry]) -> Result<(), OutOfMemory>
    ensures { OnOk result (text.new.items ≡ text.old.items ++ ending_lines entries.now) }
{
    push_counted(text, b"commit", ends_counted(entries, 0))?;
    push_counted(text, b"signal", ends_counted(entries, 1))?;
    push_counted(text, b"undone", ends_counted(entries, 2))?;
    push_counted(text, b"aborted", ends_counted(entries, 3))?;
    push_counted(text, b"failed", ends_counted(entries, 4))
}

/// The summary of a journal of a cell that worked for so many cycles: how many places ended with each outcome, and the value that
/// each object has after the journal. At `Err` no memory was found.
pub fn summary(
    alloc: Global,
    plan: &Plan,
    journal: &Journal,
    cycles: u32,
) -> Result<Vec<u8>, OutOfMemory>
    requires { AllWellFormed plan.now journal.now.entries }
    ensures { IfOk result (λ text. text.items ≡ summary_text plan.now journal.now.entries cycles) }
{
    let entries = journal.as_slice();
    let mut text = Vec::new(alloc);
    push_counted(&mut text, b"cell", u64::from(cycles))?;
    push_endings(&mut text, entries)?;
    push_objects(alloc, &mut text, plan, entries)?;
    Ok(text)
}
