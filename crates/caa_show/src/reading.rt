//! The journal that stands behind a script: whole, cut off, or with a line that stands in no text of one.

ghost use Rattle.std.specs.Prelude.{◌≡◌, true, IfOk};
ghost use Rattle.place_plan.specs.RulesOfJournals.WellFormed.{AllWellFormed};
ghost use Rattle.journal_text.specs.Texts.Naming.{is_well_named};
ghost use Rattle.caa_show.specs.Read.{IsOfPlan};

use crate::misread::{Odd, line_of_text, shown_number, tell_odd};
use caa_base::written::entry::OutOfMemory;
use caa_base::written::journal::Journal;
use caa_base::written::limits::MOST_AUDITED;
use journal_states::fronts::{Ending, Front, read_front};
use journal_text::looks::seens::Seens;
use journal_text::texts::text_reader::{TextError, read};
use journal_text::texts::text_writer::write;
use place_plan::plans::plan::Plan;
use script_views::page::{Page, Piece};
use script_views::source::{line_at, show_line};
use std::alloc::Global;

/// An input that has a journal behind its script.
#[derive(Clone, Copy)]
pub struct Input<'a> {
    /// What it is called.
    pub file: &'a [u8],
    pub bytes: &'a [u8],
    /// How many lines stand before the line `journal`.
    pub script_lines: u64,
}

/// Where the text of a journal breaks off.
#[derive(Clone, Copy, PartialEq, Eq)]
pub enum Break {
    /// Behind a whole line.
    BehindLine,
    /// Within a line.
    InLine,
    /// Within the lines that close it.
    InClosing,
}

/// A journal and the looks beside it, one that breaks off, or why the text is none.
#[derive(Drop)]
pub enum Reading {
    Whole(Journal, Seens),
    Cut(Journal, Break),
    Refused(Vec<u8>),
}

/// The head of an explanation, and the line that it is about.
pub fn tell_line(input: &Input, line: u64, page: &mut Page) -> Result<(), OutOfMemory> {
    page.say(&[
        Piece::Word(input.file),
        Piece::Text(":"),
        Piece::Number(line),
        Piece::Text(": illegal\n"),
    ])?;
    show_line(page, input.bytes, shown_number(line))
}

/// Tells that a journal has more entries than are read. This line, counted from the line `journal` on, has the first that is too
/// many.
fn tell_too_many(alloc: Global, input: &Input, line: u64) -> Result<Vec<u8>, OutOfMemory> {
    let mut page = Page::new(alloc, &[]);
    tell_line(input, line.saturating_add(input.script_lines), &mut page)?;
    page.note(&[
        Piece::Text("a journal may have "),
        Piece::Number(MOST_AUDITED),
        Piece::Text(" entries, and this is one more"),
    ])?;
    Ok(page.into_text())
}

/// The line of this number, counted from the line `journal` on, that would stand there where the journal had these entries alone.
fn line_wanted(alloc: Global, plan: &Plan, front: &Front, line: u64) -> Result<Vec<u8>, OutOfMemory>
    requires { AllWellFormed plan.now front.now.journal.entries }
{
    let whole = write(alloc, plan, &front.journal, &Seens::empty(alloc))?;
    Ok(Vec::from_slice(alloc, line_of_text(&whole, line))?)
}

/// Tells why a line, counted from the line `journal` on, stands in no text of a journal.
fn tell_unread(
    alloc: Global,
    plan: &Plan,
    input: &Input,
    front: &Front,
    line: u64,
) -> Result<Vec<u8>, OutOfMemory>
    requires { AllWellFormed plan.now front.now.journal.entries }
{
    let number = shown_number(line.saturating_add(input.script_lines));
    let mut page = Page::new(alloc, &[]);
    tell_line(input, u64::from(number), &mut page)?;
    let right = line_wanted(alloc, plan, front, line)?;
    let odd = Odd {
        number,
        line: line_at(input.bytes, number),
    };
    tell_odd(&mut page, plan, &odd, &right)?;
    Ok(page.into_text())
}

/// Tells that not even the first line of a journal stands there.
fn tell_no_first(alloc: Global, input: &Input) -> Result<Vec<u8>, OutOfMemory> {
    let mut page = Page::new(alloc, &[]);
    tell_line(input, input.script_lines.saturating_add(1), &mut page)?;
    page.note(&[Piece::Text(
        "a journal begins with a line that is the word journal, with no blank before or behind it",
    )])?;
    Ok(page.into_text())
}

/// Reads a text that is no whole journal, and whose first bad line is this one.
fn read_cut(
    alloc: Global,
    plan: &Plan,
    input: &Input,
    text: &[u8],
    line: u64,
) -> Result<Reading, OutOfMemory>
    ensures { IfOk result (IsOfPlan plan.now) }
{
    let Some(front) = read_front(alloc, plan, text, MOST_AUDITED)? else {
        return Ok(Reading::Refused(tell_no_first(alloc, input)?));
    };
    match front.ending {
        Ending::Nothing => Ok(Reading::Cut(front.journal, Break::BehindLine)),
        Ending::Part => Ok(Reading::Cut(front.journal, Break::InLine)),
        Ending::Closing => Ok(Reading::Cut(front.journal, Break::InClosing)),
        Ending::Closed if text.last().copied() != Some(b'\n') => {
            Ok(Reading::Cut(front.journal, Break::InClosing))
        }
        Ending::Closed | Ending::Odd => Ok(Reading::Refused(tell_unread(
            alloc, plan, input, &front, line,
        )?)),
    }
}

/// Reads the text of a journal of a plan, which stands behind its script, as far as it goes; tells why it is none.
pub fn read_journal(
    alloc: Global,
    plan: &Plan,
    input: &Input,
    text: &[u8],
) -> Result<Reading, OutOfMemory>
    requires { is_well_named plan.now ≡ true }
    ensures { IfOk result (IsOfPlan plan.now) }
{
    match read(alloc, plan, text, MOST_AUDITED) {
        Ok((journal, seens)) => Ok(Reading::Whole(journal, seens)),
        Err(TextError::TooMany { line }) => Ok(Reading::Refused(tell_too_many(
            alloc, input, line,
        )?)),
        Err(TextError::BadLine { line }) => read_cut(alloc, plan, input, text, line),
        Err(TextError::OutOfMemory) => Err(OutOfMemory),
    }
}
