//! Why a script is refused, told as a compiler tells it.

ghost use Rattle.std.specs.Prelude.{◌≡◌, ◌≢◌, IfOk};
ghost use Rattle.action_script.specs.declared.script_error.ScriptCause.TheVariants as spelling;
ghost use Rattle.script_checker.specs.declared.check_error.CheckCause.TheVariants as cause;
ghost use Rattle.script_checker.specs.RefusedLines.{IsRefusedLine};
ghost use Rattle.script_views.specs.Views.{StandsUnder, TellsOfLine, IsSeen};

use crate::graph_faults::{tell_cycle, tell_no_least};
use crate::misread::{Spot, column_at, tell_misread};
use crate::page::{Page, Piece};
use crate::said_twice::tell_twice;
use crate::scene::Scene;
use crate::sizes::{tell_bound, tell_limit, tell_other_face, tell_too_deep};
use crate::source::{before_line, line_at, show_carets, show_line, width_at};
use crate::unfilled::{tell_entrances, tell_not_held, tell_role_twice, tell_unfilled};
use crate::unknown::{Undeclared, tell_unknown, undeclared_at};
use action_script::forms::form::Form;
use action_script::forms::script::{Line, Script};
use action_script::lines::reader::read;
use action_script::script_error::{ScriptCause, ScriptError};
use caa_base::written::entry::OutOfMemory;
use place_plan::plans::plan::Plan;
use script_checker::check_error::CheckCause;
use script_checker::compile::compile;
use script_checker::refused::{RefusedLine, refused_at};
use std::alloc::Global;

/// A script that is refused: its first line that is, or 0 for all of it, and why.
#[derive(Drop)]
pub struct Refusal {
    pub line: u32,
    /// What the carets stand under.
    pub spot: Spot,
    /// The first name of the line that isn't declared as it has to be, and those that are; none where each name is, or where the
    /// text isn't read.
    pub undeclared: Option<Undeclared>,
    /// The reason, in lines of text.
    pub text: Vec<u8>,
}

/// A script and its plan, or why it is refused.
#[derive(Drop)]
pub enum Seen {
    Accepted(Script, Plan),
    Refused(Refusal),
}

/// The head of a refusal, and the line that it is about, with carets under what is at fault.
fn tell_line(
    page: &mut Page,
    file: &[u8],
    scene: &Scene,
    phrase: &'static str,
    spot: Spot,
) -> Result<(), OutOfMemory> {
    let line = line_at(scene.text, scene.number);
    let column = column_at(line, spot);
    page.say(&[
        Piece::Word(file),
        Piece::Text(":"),
        Piece::Number(u64::from(scene.number)),
        Piece::Text(":"),
        Piece::Number((column as u64).saturating_add(1)),
        Piece::Text(": refused: "),
        Piece::Text(phrase),
        Piece::Text("\n"),
    ])?;
    if line.is_empty() || scene.number == 0 {
        return Ok(());
    }
    show_line(page, scene.text, scene.number)?;
    show_carets(page, line, scene.number, column, width_at(line, column))
}

/// All that is told of a refusal.
fn whole_text(
    file: &[u8],
    scene: &Scene,
    phrase: &'static str,
    spot: Spot,
    notes: Page,
) -> Result<Vec<u8>, OutOfMemory> {
    let mut page = Page::new(scene.alloc, scene.names);
    tell_line(&mut page, file, scene, phrase, spot)?;
    let mut text = page.into_text();
    text.extend_from_slice(&notes.into_text())?;
    Ok(text)
}

/// A refusal with its text.
fn refuse(
    file: &[u8],
    scene: &Scene,
    phrase: &'static str,
    spot: Spot,
    undeclared: Option<Undeclared>,
    notes: Page,
) -> Result<Refusal, OutOfMemory>
    ensures line { IfOk result (λ refusal. refusal.line ≡ scene.now.number) }
    ensures spot { IfOk result (λ refusal. refusal.spot ≡ spot) }
    ensures undeclared { IfOk result (λ refusal. refusal.undeclared ≡ undeclared) }
{
    let text = whole_text(file, scene, phrase, spot, notes)?;
    Ok(Refusal {
        line: scene.number,
        spot,
        undeclared,
        text,
    })
}

// ---- a text that isn't read

/// The script of the lines before one, where the block that is open is closed; none where that can't be read either.
fn script_before(alloc: Global, text: &[u8], number: u32) -> Result<Option<Script>, OutOfMemory> {
    let before = before_line(text, number);
    match read(alloc, before) {
        Ok(script) => return Ok(Some(script)),
        Err(error) if error.cause == ScriptCause::OutOfMemory => return Err(OutOfMemory),
        Err(_) => {}
    }
    let mut closed = Vec::from_slice(alloc, before)?;
    closed.extend_from_slice(b"\nend\n")?;
    match read(alloc, &closed) {
        Ok(script) => Ok(Some(script)),
        Err(error) if error.cause == ScriptCause::OutOfMemory => Err(OutOfMemory),
        Err(_) => Ok(None),
    }
}

/// Why a text isn't read.
fn explain_misread(
    alloc: Global,
    file: &[u8],
    text: &[u8],
    error: ScriptError,
) -> Result<Refusal, OutOfMemory>
    ensures line { IfOk result (λ refusal. refusal.line ≡ error.line) }
    ensures known { IfOk result (λ refusal. error.cause ≢ spelling.OutOfMemory) }
{
    if error.cause == ScriptCause::OutOfMemory {
        return Err(OutOfMemory);
    }
    let script = script_before(alloc, text, error.line)?;
    let scene = match &script {
        Some(script) => Scene::new(
            alloc,
            text,
            error.line,
            script.names(),
            script.universal(),
            script.lines(),
        ),
        None => Scene::new(alloc, text, error.line, &[], 0, &[]),
    };
    let mut notes = Page::new(alloc, scene.names);
    let spot = tell_misread(&scene, error.cause, &mut notes)?;
    refuse(file, &scene, error.cause.phrase(), spot, None, notes)
}

// ---- a line that is refused

/// Tells why a line is refused whose names are declared as they have to be, and gives the number of a word in it.
fn tell_cause(
    scene: &Scene,
    form: &Form,
    refused: &RefusedLine,
    notes: &mut Page,
) -> Result<usize, OutOfMemory> {
    let so_far = &refused.so_far;
    match refused.cause {
        CheckCause::Unknown => Ok(0),
        CheckCause::Twice => tell_twice(scene, form, notes),
        CheckCause::Cycle { at } => tell_cycle(scene, so_far, at, notes),
        CheckCause::NoLeast { a, b } => tell_no_least(scene, so_far, a, b, notes),
        CheckCause::RoleUnfilled => tell_unfilled(scene, form, notes),
        CheckCause::RoleTwice => tell_role_twice(scene, form, notes),
        CheckCause::NestOrder => tell_entrances(scene, notes),
        CheckCause::ObjectNotHeld => tell_not_held(scene, form, notes),
        CheckCause::TooDeep => tell_too_deep(scene, so_far, form, notes),
        CheckCause::Limit => tell_limit(scene.alloc, form, notes),
        CheckCause::JournalBound => tell_bound(so_far, notes),
        CheckCause::AlternateFace => tell_other_face(scene, so_far, form, notes),
        CheckCause::OutOfMemory => Err(OutOfMemory),
    }
}

/// Tells why a line is refused, and what the carets stand under: where a name isn't declared as it has to be, under the first such
/// name.
fn tell_line_refused(
    scene: &Scene,
    form: &Form,
    refused: &RefusedLine,
    undeclared: &Option<Undeclared>,
    notes: &mut Page,
) -> Result<Spot, OutOfMemory>
    ensures { IfOk result (StandsUnder undeclared.now) }
{
    match undeclared {
        Some(unknown) => {
            tell_unknown(scene, &refused.so_far, unknown, notes)?;
            Ok(Spot::Word(unknown.used.word))
        }
        None => Ok(Spot::Word(tell_cause(scene, form, refused, notes)?)),
    }
}

/// Why a line of a script is refused.
fn explain_line(
    alloc: Global,
    file: &[u8],
    text: &[u8],
    script: &Script,
    refused: &RefusedLine,
) -> Result<Refusal, OutOfMemory>
    requires { IsRefusedLine script.now refused.now }
    ensures { IfOk result (λ refusal. TellsOfLine script.now refused.now refusal) }
{
    let Some(line) = script.lines().get(refused.index) else {
        unreachable!();
    };
    let scene = Scene::new(
        alloc,
        text,
        line.number,
        script.names(),
        script.universal(),
        script.lines(),
    );
    script.are_script();
    let last = script.names().len() as u32;
    let undeclared = undeclared_at(alloc, &refused.so_far, &line.form, last)?;
    let mut notes = Page::new(alloc, scene.names);
    let spot = tell_line_refused(&scene, &line.form, refused, &undeclared, &mut notes)?;
    refuse(
        file,
        &scene,
        refused.cause.phrase(),
        spot,
        undeclared,
        notes,
    )
}

/// Reads and checks a script. Where it is refused, the first line that is wrong is told with what was wanted there and what was
/// found; `file` is what the text is called in that.
pub fn look(alloc: Global, file: &[u8], text: &[u8]) -> Result<Seen, OutOfMemory>
    ensures { IfOk result (IsSeen text.now) }
{
    let script = match read(alloc, text) {
        Ok(script) => script,
        Err(error) => {
            let refusal = explain_misread(alloc, file, text, error)?;
            return Ok(Seen::Refused(refusal));
        }
    };
    if let Ok(plan) = compile(alloc, &script) {
        return Ok(Seen::Accepted(script, plan));
    }
    match refused_at(alloc, &script)? {
        Some(refused) => {
            let refusal = explain_line(alloc, file, text, &script, &refused)?;
            Ok(Seen::Refused(refusal))
        }
        None => Err(OutOfMemory),
    }
}
