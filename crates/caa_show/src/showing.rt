//! What is shown of an input.

ghost use Rattle.std.specs.Prelude.{◌≡◌, true};
ghost use Rattle.place_plan.specs.RulesOfJournals.WellFormed.{AllWellFormed};
ghost use Rattle.journal_text.specs.Texts.Naming.{is_well_named};
ghost use Rattle.journal_text.specs.Watching.Looks.{AreOfPlan};

use crate::judging::{Judged, Scene, judge, judge_cut};
use crate::paging::{draw_trace, show_page};
use crate::reading::{Break, Input, Reading, read_journal};
use crate::whereabouts::tell_moments;
use crate::words::View;
use action_script::forms::script::Script;
use action_script::words::journal_start::{JournalStart, find_journal};
use caa_base::written::entry::OutOfMemory;
use caa_base::written::journal::Journal;
use journal_pictures::chart::chart;
use journal_pictures::story::story;
use journal_text::looks::seens::Seens;
use place_plan::plans::plan::Plan;
use script_checker::lines::lines_of;
use script_checker::own_names::has_own_names;
use script_outcomes::table::tables;
use script_views::characters::tell_nothing;
use script_views::dot::dot;
use script_views::explaining::{Seen, look};
use script_views::page::{Page, Piece};
use script_warnings::warnings::warnings;
use std::alloc::Global;

/// How a call of the program ends.
#[derive(Clone, Copy, PartialEq, Eq)]
pub enum Status {
    Done = 0,
    /// What was found counts against the script.
    Found = 1,
    /// The words are no command.
    Usage = 2,
    /// The input can't be read.
    SourceFault = 3,
    /// The script is refused.
    Refused = 4,
    /// The output can't be written.
    SinkFault = 5,
    /// The journal isn't legal and complete.
    Illegal = 7,
    /// No memory was found.
    OutOfMemory = 8,
}

/// A status, and the text that goes with it.
#[derive(Drop)]
pub struct Shown {
    pub status: Status,
    pub text: Vec<u8>,
}

/// The line that tells how large a plan is.
fn accepted(alloc: Global, plan: &Plan) -> Result<Vec<u8>, OutOfMemory> {
    let mut page = Page::new(alloc, &[]);
    page.say(&[
        Piece::Text("accepted: participants "),
        Piece::Number(u64::from(plan.participants())),
        Piece::Text(", objects "),
        Piece::Number(u64::from(plan.objects())),
        Piece::Text(", places "),
        Piece::Number(u64::from(plan.places())),
        Piece::Text(", entries of a journal at most "),
        Piece::Number(plan.bound()),
        Piece::Text("\n"),
    ])?;
    Ok(page.into_text())
}

/// A text that goes with a status.
pub fn with_status(status: Status, text: Vec<u8>) -> Shown
    ensures { result.status ≡ status }
{
    Shown { status, text }
}

/// Explains a journal that was read.
fn explain_journal(
    alloc: Global,
    scene: &Scene,
    input: &Input,
    journal: &Journal,
    seens: &Seens,
) -> Result<Shown, OutOfMemory>
    requires named { is_well_named scene.now.plan.now ≡ true }
    requires watches { AreOfPlan scene.now.plan.now seens.now.seens }
{
    match judge(alloc, scene, input, journal, seens)? {
        Judged::Legal => {
            let mut page = Page::new(alloc, &[]);
            page.say(&[
                Piece::Text("legal: entries "),
                Piece::Number(journal.len()),
                Piece::Text("\n"),
            ])?;
            Ok(with_status(Status::Done, page.into_text()))
        }
        Judged::Illegal(why) => Ok(with_status(Status::Illegal, why)),
    }
}

/// Shows a journal, whole or cut off, in a view that needs no more than its entries; none for one that explains.
fn draw_journal(
    alloc: Global,
    view: View,
    scene: &Scene,
    journal: &Journal,
) -> Result<Option<Vec<u8>>, OutOfMemory>
    requires { AllWellFormed scene.now.plan.now journal.now.entries }
{
    match view {
        View::Chart { first, count } => {
            Ok(Some(chart(alloc, scene.plan, journal, first, count)?))
        }
        View::Story => Ok(Some(story(alloc, scene.plan, journal)?)),
        View::Where(moments) => Ok(Some(tell_moments(alloc, scene, journal, moments)?)),
        View::Trace => Ok(Some(draw_trace(alloc, scene, journal)?)),
        View::Explain | View::Table | View::Warn { notes: _ } | View::Graph | View::Page => Ok(
            None,
        ),
    }
}

/// Shows a journal that was read.
fn show_journal(
    alloc: Global,
    view: View,
    scene: &Scene,
    input: &Input,
    journal: &Journal,
    seens: &Seens,
) -> Result<Shown, OutOfMemory>
    requires named { is_well_named scene.now.plan.now ≡ true }
    requires entries { AllWellFormed scene.now.plan.now journal.now.entries }
    requires watches { AreOfPlan scene.now.plan.now seens.now.seens }
{
    match draw_journal(alloc, view, scene, journal)? {
        Some(text) => Ok(with_status(Status::Done, text)),
        None => explain_journal(alloc, scene, input, journal, seens),
    }
}

/// Shows a journal that breaks off.
fn show_cut(
    alloc: Global,
    view: View,
    scene: &Scene,
    input: &Input,
    journal: &Journal,
    way: Break,
) -> Result<Shown, OutOfMemory>
    requires { AllWellFormed scene.now.plan.now journal.now.entries }
{
    match draw_journal(alloc, view, scene, journal)? {
        Some(text) => Ok(with_status(Status::Done, text)),
        None => {
            let why = judge_cut(alloc, scene, input, journal, way)?;
            Ok(with_status(Status::Illegal, why))
        }
    }
}

/// Tells that there is no journal behind a script.
fn no_journal(alloc: Global, file: &[u8]) -> Result<Shown, OutOfMemory> {
    let mut page = Page::new(alloc, &[]);
    page.say(&[
        Piece::Word(file),
        Piece::Text(
            ": no journal stands behind the script: put both behind one another, as for audit\n",
        ),
    ])?;
    Ok(with_status(Status::Illegal, page.into_text()))
}

/// Shows what stands behind a script from its line `journal` on.
fn show_behind(
    alloc: Global,
    view: View,
    scene: &Scene,
    file: &[u8],
    bytes: &[u8],
    start: JournalStart,
) -> Result<Shown, OutOfMemory>
    requires { is_well_named scene.now.plan.now ≡ true }
{
    let input = Input {
        file,
        bytes,
        script_lines: start.lines,
    };
    let text = bytes.get(start.offset..).unwrap_or(&[]);
    match read_journal(alloc, scene.plan, &input, text)? {
        Reading::Whole(journal, seens) => {
            show_journal(alloc, view, scene, &input, &journal, &seens)
        }
        Reading::Cut(journal, way) => show_cut(alloc, view, scene, &input, &journal, way),
        Reading::Refused(why) => Ok(with_status(Status::Illegal, why)),
    }
}

/// Shows what stands behind a script, or how large its plan is where that is asked and nothing stands there.
pub fn show_plan(
    alloc: Global,
    view: View,
    scene: &Scene,
    file: &[u8],
    bytes: &[u8],
    start: Option<JournalStart>,
) -> Result<Shown, OutOfMemory>
    requires { is_well_named scene.now.plan.now ≡ true }
{
    match start {
        Some(start) => show_behind(alloc, view, scene, file, bytes, start),
        None if matches!(view, View::Explain) => Ok(with_status(
            Status::Done,
            accepted(alloc, scene.plan)?,
        )),
        None => no_journal(alloc, file),
    }
}

/// What is told of a script in which no line says anything.
fn says_nothing(alloc: Global, text: &[u8]) -> Result<Shown, OutOfMemory> {
    let mut page = Page::new(alloc, &[]);
    tell_nothing(&mut page, text)?;
    Ok(with_status(Status::Done, page.into_text()))
}

/// Where the journal begins that stands behind a script, if one stands there.
pub fn journal_behind(bytes: &[u8]) -> Option<JournalStart> {
    Some(find_journal(bytes)).filter(|start| start.offset < bytes.len())
}

/// The script of an input, without the journal that stands behind it.
pub fn script_text(bytes: &[u8], start: Option<JournalStart>) -> &[u8] {
    match start {
        Some(start) => bytes.get(..start.offset).unwrap_or(bytes),
        None => bytes,
    }
}

/// What the author of a script may not have meant.
fn show_warnings(
    alloc: Global,
    script: &Script,
    plan: &Plan,
    notes: bool,
) -> Result<Shown, OutOfMemory> {
    let warned = warnings(alloc, script, plan, notes)?;
    let status = if warned.warnings == 0 {
        Status::Done
    } else {
        Status::Found
    };
    Ok(with_status(status, warned.text))
}

/// What a view shows of an input; `file` is what the input is called.
pub fn show(alloc: Global, view: View, file: &[u8], bytes: &[u8]) -> Result<Shown, OutOfMemory> {
    let start = journal_behind(bytes);
    if matches!(view, View::Page) {
        return show_page(alloc, file, bytes, script_text(bytes, start), start);
    }
    let (script, plan) = match look(alloc, file, script_text(bytes, start))? {
        Seen::Accepted(script, plan) => (script, plan),
        Seen::Refused(refusal) => return Ok(with_status(Status::Refused, refusal.text)),
    };
    if script.is_empty() && start.is_none() && matches!(view, View::Explain) {
        return says_nothing(alloc, bytes);
    }
    match view {
        View::Table => Ok(with_status(Status::Done, tables(alloc, &script, &plan)?)),
        View::Warn { notes } => show_warnings(alloc, &script, &plan, notes),
        View::Graph => Ok(with_status(Status::Done, dot(alloc, &script)?)),
        View::Explain
        | View::Chart { first: _, count: _ }
        | View::Story
        | View::Where(_)
        | View::Page
        | View::Trace => {
            has_own_names(&script, &plan);
            let lines = lines_of(alloc, &script, &plan)?;
            let scene = Scene {
                plan: &plan,
                lines: &lines,
            };
            show_plan(alloc, view, &scene, file, bytes, start)
        }
    }
}
