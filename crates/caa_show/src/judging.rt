//! Why a journal isn't legal and complete, told with what the rules would have allowed.

ghost use Rattle.std.specs.Prelude.{◌≡◌, true};
ghost use Rattle.journal_text.specs.Texts.Naming.{is_well_named};
ghost use Rattle.journal_text.specs.Watching.Looks.{AreOfPlan};

use crate::reading::{Break, Input, tell_line};
use crate::whereabouts::{states_at, tell_all, tell_standing};
use action_core::audit_fast;
use caa_base::written::entry::{Entry, Object, OutOfMemory, Participant};
use caa_base::written::journal::Journal;
use caa_base::written::line::push_value;
use journal_replay::moves::Move;
use journal_states::states::States;
use journal_states::words::participant_name;
use journal_text::looks::right::first_wrong;
use journal_text::looks::seens::Seens;
use journal_text::texts::text_writer::object_name;
use place_plan::plans::plan::Plan;
use script_checker::lines::Lines;
use script_views::page::{Page, Piece};
use std::alloc::Global;

/// What was found in the text of a journal.
#[derive(Drop)]
pub enum Judged {
    /// The journal is legal and complete.
    Legal,
    /// It isn't; why, in lines of text.
    Illegal(Vec<u8>),
}

/// The plan of a script, and where the script declares its parts.
#[derive(Clone, Copy)]
pub struct Scene<'a> {
    pub plan: &'a Plan,
    pub lines: &'a Lines,
}

/// The line of an entry of the journal, counted from 0, in the whole input.
fn line_of(input: &Input, index: u64) -> u64 {
    index.saturating_add(2).saturating_add(input.script_lines)
}

// ---- a journal that isn't legal, or isn't complete

/// Tells that a journal isn't legal from an entry on, or stops there before it is complete.
fn tell_illegal(
    alloc: Global,
    scene: &Scene,
    input: &Input,
    journal: &Journal,
    index: u64,
) -> Result<Vec<u8>, OutOfMemory> {
    let mut page = Page::new(alloc, &[]);
    tell_line(input, line_of(input, index), &mut page)?;
    let states = states_at(alloc, scene.plan, journal, index)?;
    match journal.as_slice().get(index as usize) {
        Some(entry) => tell_entry(alloc, &states, scene.lines, entry, &mut page)?,
        None => {
            page.note(&[Piece::Text("the journal stops here, and isn't complete")])?;
            tell_all(alloc, &states, scene.lines, None, &mut page)?;
        }
    }
    Ok(page.into_text())
}

/// Tells of an entry that it may not come, and what might.
fn tell_entry(
    alloc: Global,
    states: &States,
    lines: &Lines,
    entry: &Entry,
    page: &mut Page,
) -> Result<(), OutOfMemory> {
    page.note(&[Piece::Text("this entry may not come after those before it")])?;
    tell_standing(alloc, states, lines, entry.by, page)?;
    page.note(&[Piece::Text("and the others:")])?;
    tell_all(alloc, states, lines, Some(entry.by), page)
}

// ---- a journal that breaks off

/// How a text breaks off, in words.
fn words_of(way: Break) -> &'static str {
    match way {
        Break::BehindLine => "the journal breaks off here, behind a whole line",
        Break::InLine => "the journal breaks off here, within a line, of which nothing is taken",
        Break::InClosing => "the journal breaks off here, within the lines that close it",
    }
}

/// Tells that a journal breaks off, where everybody stands, what each object was last put to, and which puts may have been under way.
fn tell_cut(
    alloc: Global,
    scene: &Scene,
    input: &Input,
    journal: &Journal,
    way: Break,
) -> Result<Vec<u8>, OutOfMemory> {
    let mut page = Page::new(alloc, &[]);
    tell_line(input, line_of(input, journal.len()), &mut page)?;
    page.note(&[Piece::Text(words_of(way))])?;
    let states = states_at(alloc, scene.plan, journal, journal.len())?;
    tell_all(alloc, &states, scene.lines, None, &mut page)?;
    tell_values(alloc, &states, &mut page)?;
    tell_puts(alloc, &states, &mut page)?;
    Ok(page.into_text())
}

/// Tells the value of each object.
fn tell_values(alloc: Global, states: &States, page: &mut Page) -> Result<(), OutOfMemory> {
    page.say(&[Piece::Text("  = by these entries, and no more is known:")])?;
    for object in 0..states.plan().objects() {
        if object > 0 {
            page.say(&[Piece::Text(",")])?;
        }
        tell_value(alloc, states.plan(), object, states.value(object), page)?;
    }
    page.say(&[Piece::Text("\n")])
}

/// Adds an object and a value, after a space.
fn tell_value(
    alloc: Global,
    plan: &Plan,
    object: Object,
    value: i64,
    page: &mut Page,
) -> Result<(), OutOfMemory> {
    page.say(&[Piece::Text(" "), Piece::Word(object_name(plan, object))])?;
    let mut text = Vec::new(alloc);
    push_value(&mut text, value)?;
    page.say(&[Piece::Word(&text)])
}

/// Tells which puts the device may have been asked for, and perhaps has done, though no entry says so.
fn tell_puts(alloc: Global, states: &States, page: &mut Page) -> Result<(), OutOfMemory> {
    for by in 0..states.plan().participants() {
        if let Move::Put(entry) = states.move_of(by) {
            tell_put(alloc, states.plan(), by, entry, page)?;
        }
    }
    Ok(())
}

/// Tells of a put that may have been under way.
fn tell_put(
    alloc: Global,
    plan: &Plan,
    by: Participant,
    well: Entry,
    page: &mut Page,
) -> Result<(), OutOfMemory> {
    page.say(&[
        Piece::Text("  = a put of "),
        Piece::Word(participant_name(plan, by)),
        Piece::Text(" may have been under way:"),
    ])?;
    tell_value(alloc, plan, well.arg, well.value, page)?;
    page.say(&[Piece::Text("\n")])
}

// ---- looks

/// Tells that a look is wrong, which stands in this line of the whole input.
fn tell_look(alloc: Global, input: &Input, line: u64) -> Result<Vec<u8>, OutOfMemory> {
    let mut page = Page::new(alloc, &[]);
    tell_line(input, line, &mut page)?;
    page.note(&[Piece::Text(
        "this isn't the value that the object had once so many plays had ended, or a look is missing here",
    )])?;
    Ok(page.into_text())
}

/// Judges the looks beside a legal and complete journal.
fn judge_looks(
    alloc: Global,
    plan: &Plan,
    input: &Input,
    journal: &Journal,
    seens: &Seens,
) -> Result<Judged, OutOfMemory>
    requires named { is_well_named plan.now ≡ true }
    requires watches { AreOfPlan plan.now seens.now.seens }
{
    if seens.is_empty() {
        return Ok(Judged::Legal);
    }
    match first_wrong(alloc, plan, journal, seens)? {
        None => Ok(Judged::Legal),
        Some(look) => {
            let line = input
                .script_lines
                .saturating_add(2)
                .saturating_add(journal.len())
                .saturating_add(u64::from(plan.objects()))
                .saturating_add(u64::from(plan.places()))
                .saturating_add(look);
            Ok(Judged::Illegal(tell_look(alloc, input, line)?))
        }
    }
}

/// Judges a journal that was read; tells why it isn't legal and complete.
pub fn judge(
    alloc: Global,
    scene: &Scene,
    input: &Input,
    journal: &Journal,
    seens: &Seens,
) -> Result<Judged, OutOfMemory>
    requires named { is_well_named scene.now.plan.now ≡ true }
    requires watches { AreOfPlan scene.now.plan.now seens.now.seens }
{
    match audit_fast(alloc, scene.plan, journal)? {
        Ok(()) => judge_looks(alloc, scene.plan, input, journal, seens),
        Err(illegal) => {
            let why = tell_illegal(alloc, scene, input, journal, illegal.index)?;
            Ok(Judged::Illegal(why))
        }
    }
}

/// Tells of a journal that breaks off from where on it isn't legal, or, where it is, how it breaks off.
pub fn judge_cut(
    alloc: Global,
    scene: &Scene,
    input: &Input,
    journal: &Journal,
    way: Break,
) -> Result<Vec<u8>, OutOfMemory> {
    match audit_fast(alloc, scene.plan, journal)? {
        Err(illegal) if illegal.index < journal.len() => {
            tell_illegal(alloc, scene, input, journal, illegal.index)
        }
        _ => tell_cut(alloc, scene, input, journal, way),
    }
}
