ghost use Rattle.std.specs.Prelude.{◌≡◌, ◌≤◌, [], true, length, reverse, IfOk, IfErr};
ghost use Rattle.caa_base.specs.declared.written.entry.OutOfMemory.{OutOfMemory};
ghost use Rattle.place_plan.specs.RulesOfJournals.WellFormed.{AllWellFormed};
ghost use Rattle.journal_text.specs.Texts.Naming.{is_well_named};
ghost use Rattle.journal_text.specs.Texts.Text.{text_of};
ghost use Rattle.journal_text.specs.Watching.Looks.{AreOfPlan};
ghost use Rattle.journal_text.specs.Texts.TextOfJournal.{lines_shared, Reads, ReadsBack, TextsDiffer};
ghost use Rattle.journal_text.specs.inner.TextSteps.{EntriesRead, SeensRead, StopsEntries, RefusesAfter};

use crate::looks::seen_line::seen_at;
use crate::looks::seens::{Seen, Seens};
use crate::texts::entry_at::entry_at;
use crate::texts::text_writer::{push_closing, write_text};
use crate::texts::tokens::after_front;
use caa_base::written::entry::{Entry, OutOfMemory};
use caa_base::written::journal::Journal;
use place_plan::plans::plan::Plan;
use std::alloc::{AllocError, AllocFailed, Global};
use thiserror::Error;

/// Why bytes aren't read as the text of a journal. Lines are counted from 1.
#[derive(Clone, Copy, Debug, PartialEq, Eq, Error)]
pub enum TextError {
    /// All lines are good up to this one, which is one entry more than the limit allows.
    #[error("line {line} is an entry past the limit")]
    TooMany { line: u64 },
    /// This line is the first bad one: some text within the limit has all lines before it, and none goes on with this line. A
    /// line that is missing has the number at which it should stand.
    #[error("line {line} stands in no text of a journal")]
    BadLine { line: u64 },
    /// No memory was found.
    #[error("out of memory")]
    OutOfMemory,
}

impl From<AllocError> for TextError {
    ghost use Rattle.journal_text.specs.declared.texts.text_reader.TextError.TheVariants as error;

    ghost from_gives = { λ _ e. e ≡ error.OutOfMemory };

    fn from(_: AllocError) -> Self {
        TextError::OutOfMemory
    }
}

impl<T: Drop> From<AllocFailed<T>> for TextError {
    ghost use Rattle.journal_text.specs.declared.texts.text_reader.TextError.TheVariants as error;

    ghost from_gives = { λ _ e. e ≡ error.OutOfMemory };

    fn from(_: AllocFailed<T>) -> Self {
        TextError::OutOfMemory
    }
}

impl From<OutOfMemory> for TextError {
    ghost use Rattle.journal_text.specs.declared.texts.text_reader.TextError.TheVariants as error;

    ghost from_gives = { λ _ e. e ≡ error.OutOfMemory };

    fn from(_: OutOfMemory) -> Self {
        TextError::OutOfMemory
    }
}

/// All entries whose lines a text begins with, and the rest of the text; or that there are more than the limit.
fn read_entries<'a>(
    alloc: Global,
    plan: &Plan,
    text: &'a [u8],
    limit: u64,
) -> Result<(Vec<Entry>, &'a [u8]), TextError>
    requires { is_well_named plan.now ≡ true }
    ensures read { IfOk result (λ r. EntriesRead plan.now limit text.now r.0.items r.1.now) }
    ensures stopped { IfErr result (λ e. StopsEntries plan.now limit text.now e) }
{
    let mut entries = Vec::new(alloc);
    let mut rest = text;
    while let Some((entry, after)) = entry_at(plan, rest) {
        if entries.len() as u64 == limit {
            return Err(TextError::TooMany { line: limit + 2 });
        }
        entries.push(entry)?;
        rest = after;
    }
    Ok((entries, rest))
}

/// All looks whose lines a text begins with, in order, and the rest of the text.
fn read_seens<'a>(
    alloc: Global,
    plan: &Plan,
    text: &'a [u8],
) -> Result<(Vec<Seen>, &'a [u8]), OutOfMemory>
    requires { is_well_named plan.now ≡ true }
    ensures { IfOk result (λ r. SeensRead plan.now text.now r.0.items r.1.now) }
{
    let mut seens = Vec::new(alloc);
    let mut rest = text;
    let mut least = 0;
    while let Some((seen, after)) = seen_at(plan, least, rest) {
        seens.push(seen)?;
        rest = after;
        least = seen.watch;
    }
    Ok((seens, rest))
}

/// How many whole lines two texts have in common before they first differ.
fn lines_shared(text: &[u8], other: &[u8]) -> u64
    ensures value { result ≡ lines_shared text.now other.now }
    ensures few { result ≤ length text.now }
{
    let mut lines = 0;
    for (index, byte) in text.iter().enumerate() {
        if index == other.len() {
            return lines;
        }
        if *byte != other[index] {
            return lines;
        }
        if *byte == b'\n' {
            lines += 1;
        }
    }
    lines
}

/// The refusal of the first line that the bytes don't share with the text of these entries and looks.
fn refused_after(
    alloc: Global,
    plan: &Plan,
    bytes: &[u8],
    entries: &[Entry],
    seens: &[Seen],
) -> TextError
    requires entries { AllWellFormed plan.now entries.now }
    requires watches { AreOfPlan plan.now seens.now }
    ensures { RefusesAfter bytes.now (text_of plan.now entries.now seens.now) result }
{
    match write_text(alloc, plan, entries, seens) {
        Ok(text) => TextError::BadLine {
            line: lines_shared(bytes, &text) + 1,
        },
        Err(_) => TextError::OutOfMemory,
    }
}

/// The journal and the looks whose text these bytes are.
///
/// The journal has at most `limit` entries, and all are well formed; whether it is legal isn't asked.
pub fn read(
    alloc: Global,
    plan: &Plan,
    bytes: &[u8],
    limit: u64,
) -> Result<(Journal, Seens), TextError>
    requires { is_well_named plan.now ≡ true }
    ensures reads { Reads plan.now limit bytes.now result }
    ensures back { ReadsBack plan.now limit bytes.now result }
{
    plan.places();
    read_text(alloc, plan, bytes, limit)
}

/// The same, without the law that what was written is read back.
fn read_text(
    alloc: Global,
    plan: &Plan,
    bytes: &[u8],
    limit: u64,
) -> Result<(Journal, Seens), TextError>
    requires { is_well_named plan.now ≡ true }
    ensures { Reads plan.now limit bytes.now result }
{
    plan.places();
    let Some(text) = after_front(bytes, b"journal\n") else {
        return Err(refused_after(alloc, plan, bytes, &[], &[]));
    };
    let (entries, text) = read_entries(alloc, plan, text, limit)?;
    let mut closing = Vec::new(alloc);
    push_closing(alloc, &mut closing, plan, &entries)?;
    let Some(text) = after_front(text, closing.as_slice()) else {
        return Err(refused_after(alloc, plan, bytes, &entries, &[]));
    };
    let (seens, text) = read_seens(alloc, plan, text)?;
    if !text.is_empty() {
        return Err(refused_after(alloc, plan, bytes, &entries, &seens));
    }
    Ok((Journal::from_vec(entries), Seens::from_vec(seens)))
}

/// Texts of different journals, or of different looks, differ. A statement alone: the call does nothing.
pub fn texts_differ(plan: &Plan)
    requires { is_well_named plan.now ≡ true }
    ensures { TextsDiffer plan.now }
{
    plan.places();
}
