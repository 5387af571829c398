//! The data of a page: the script with its table, its graphs and its refusal, and who and what the plan has.

ghost use Rattle.std.specs.Prelude.{◌<◌, IfOk};
ghost use Rattle.place_plan.specs.RulesOfJournals.WellFormed.{AllWellFormed};
ghost use Rattle.script_pages.specs.PagesOfScripts.{IsBarePage, IsJournalPage};

use crate::graphs::push_graphs;
use action_script::forms::script::Script;
use caa_base::written::entry::{Entry, OutOfMemory};
use journal_page::page::{bare_page, page};
use journal_page::stances::Lines;
use page_text::parts::Part;
use place_plan::plans::plan::Plan;
use script_outcomes::table::tables;
use script_views::explaining::Refusal;
use std::alloc::Global;

/// What a page is about: what the input is called, the text of the script, and the lines that tell how it stands with all of it.
#[derive(Clone, Copy)]
pub struct Subject<'a> {
    pub file: &'a [u8],
    pub script_text: &'a [u8],
    pub told: &'a [u8],
}

/// Adds a text.
fn push_bytes(alloc: Global, parts: &mut Vec<Part>, bytes: &[u8]) -> Result<(), OutOfMemory> {
    parts.push(Part::Text(Vec::from_slice(alloc, bytes)?))?;
    Ok(())
}

/// The first line of a text.
fn first_line(text: &[u8]) -> &[u8] {
    for (index, byte) in text.iter().enumerate() {
        if *byte == b'\n' {
            return text.get(..index).unwrap_or(text);
        }
    }
    text
}

/// Adds the lines of a text, in a list.
fn push_text_lines(alloc: Global, parts: &mut Vec<Part>, text: &[u8]) -> Result<(), OutOfMemory> {
    parts.push(Part::Open)?;
    let mut begin = 0;
    for (index, byte) in text.iter().enumerate() {
        if *byte == b'\n' {
            push_bytes(alloc, parts, text.get(begin..index).unwrap_or(&[]))?;
            begin = index.saturating_add(1);
        }
    }
    let rest = text.get(begin..).unwrap_or(&[]);
    if !rest.is_empty() {
        push_bytes(alloc, parts, rest)?;
    }
    parts.push(Part::Close)?;
    Ok(())
}

/// The text behind its first so many lines.
fn behind_lines(text: &[u8], count: usize) -> &[u8] {
    let mut left = count;
    for (index, byte) in text.iter().enumerate() {
        if left == 0 {
            return text.get(index..).unwrap_or(&[]);
        }
        if *byte == b'\n' {
            left -= 1;
        }
    }
    &[]
}

/// How many bytes come before the first of this value.
fn count_before(line: &[u8], byte: u8) -> usize {
    line.iter().position(|other| *other == byte).unwrap_or(0)
}

/// The column at which the carets of a refusal begin, counted from 1, and how many these are; the whole line where there are none.
fn carets_of(refusal: &Refusal) -> (usize, usize) {
    let line = first_line(behind_lines(&refusal.text, 2));
    let carets = line.iter().filter(|byte| **byte == b'^').count();
    let bar = count_before(line, b'|');
    if carets == 0 {
        return (1, usize::MAX >> 11);
    }
    (
        count_before(line, b'^')
            .saturating_sub(bar)
            .saturating_sub(1),
        carets,
    )
}

/// Adds where a script is refused.
fn push_refusal(
    alloc: Global,
    parts: &mut Vec<Part>,
    refusal: Option<&Refusal>,
) -> Result<(), OutOfMemory> {
    parts.push(Part::Open)?;
    if let Some(refusal) = refusal {
        let (column, width) = carets_of(refusal);
        parts.push(Part::Open)?;
        parts.push(Part::Number(u64::from(refusal.line)))?;
        parts.push(Part::Number(column as u64))?;
        parts.push(Part::Number(width as u64))?;
        push_bytes(alloc, parts, &refusal.text)?;
        parts.push(Part::Close)?;
    }
    parts.push(Part::Close)?;
    Ok(())
}

/// Adds who takes part, the objects with their first values, and the places with the numbers of those round them.
fn push_plan(alloc: Global, parts: &mut Vec<Part>, plan: &Plan) -> Result<(), OutOfMemory> {
    parts.push(Part::Open)?;
    for by in 0..plan.participants() {
        push_bytes(alloc, parts, plan.participant_name(by))?;
    }
    parts.push(Part::Close)?;
    parts.push(Part::Open)?;
    for object in 0..plan.objects() {
        parts.push(Part::Open)?;
        push_bytes(alloc, parts, plan.object_name(object))?;
        let value = format!(in alloc; "{}", plan.initial(object))?;
        push_bytes(alloc, parts, value.as_bytes())?;
        parts.push(Part::Close)?;
    }
    parts.push(Part::Close)?;
    push_places(alloc, parts, plan)
}

/// Adds the places: the action of each, and the number of the place round it, counted from 1, or 0.
fn push_places(alloc: Global, parts: &mut Vec<Part>, plan: &Plan) -> Result<(), OutOfMemory> {
    parts.push(Part::Open)?;
    for place in 0..plan.places() {
        parts.push(Part::Open)?;
        push_bytes(alloc, parts, plan.action_name(place))?;
        let outer = match plan.parent(place) {
            Some(outer) => u64::from(outer).saturating_add(1),
            None => 0,
        };
        parts.push(Part::Number(outer))?;
        parts.push(Part::Close)?;
    }
    parts.push(Part::Close)?;
    Ok(())
}

/// The parts that each page begins with: what the input is called, how it stands with it, the lines of the script, and its refusal.
fn head_parts(
    alloc: Global,
    subject: &Subject,
    refusal: Option<&Refusal>,
) -> Result<Vec<Part>, OutOfMemory> {
    let mut parts = Vec::new(alloc);
    push_bytes(alloc, &mut parts, subject.file)?;
    push_bytes(alloc, &mut parts, first_line(subject.told))?;
    push_text_lines(alloc, &mut parts, subject.script_text)?;
    push_refusal(alloc, &mut parts, refusal)?;
    Ok(parts)
}

/// The parts of the page of a script that is refused: no table, no graphs, nobody and nothing of a plan, and no journal.
fn refused_parts(
    alloc: Global,
    subject: &Subject,
    refusal: &Refusal,
) -> Result<Vec<Part>, OutOfMemory> {
    let mut parts = head_parts(alloc, subject, Some(refusal))?;
    push_bytes(alloc, &mut parts, b"")?;
    for _ in 0..6 {
        parts.push(Part::Open)?;
        parts.push(Part::Close)?;
    }
    push_bytes(alloc, &mut parts, subject.told)?;
    Ok(parts)
}

/// The page of a script that is refused, of which nothing but its text and its refusal is shown.
pub fn refused_page(
    alloc: Global,
    subject: &Subject,
    refusal: &Refusal,
) -> Result<Vec<u8>, OutOfMemory>
    ensures { IfOk result (λ text. IsBarePage text.items) }
{
    let parts = refused_parts(alloc, subject, refusal)?;
    bare_page(alloc, &parts)
}

/// The page of a script with these entries of a journal, which are taken in as far as the rules let them come.
pub fn journal_page_of<L: Lines>(
    alloc: Global,
    subject: &Subject,
    script: &Script,
    plan: &Plan,
    lines: &L,
    entries: &[Entry],
) -> Result<Vec<u8>, OutOfMemory>
    requires { AllWellFormed plan.now entries.now }
    ensures { IfOk result (λ text. IsJournalPage (L.line_at lines.now) plan.now entries.now text.items) }
{
    let mut head = head_parts(alloc, subject, None)?;
    push_bytes(alloc, &mut head, &tables(alloc, script, plan)?)?;
    push_graphs(alloc, &mut head, script)?;
    push_plan(alloc, &mut head, plan)?;
    let mut tail = Vec::new(alloc);
    push_bytes(alloc, &mut tail, subject.told)?;
    page(alloc, lines, plan, &head, entries, &tail)
}
