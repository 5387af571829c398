//! All that is told of a script.

use crate::bodies::{tell_behind_raise, tell_idle_roles, tell_left_on, tell_one_fault};
use crate::graphs::tell_never_comes;
use crate::handlers::{tell_handled_and_undone, tell_never_begun};
use crate::moves::courses_of;
use crate::objects::Things;
use crate::plays::Plays;
use crate::restores::Pairs;
use crate::subject::{Part, parts_of};
use crate::tells::{Tells, Told};
use crate::uses::{tell_never_tried, tell_no_order, tell_unnamed};
use action_script::forms::script::Script;
use caa_base::written::entry::OutOfMemory;
use place_plan::plans::plan::Plan;
use script_outcomes::outlooks::{Outlook, outlooks};
use script_views::looking::first_line;
use script_views::page::{Page, Piece};
use std::alloc::Global;

/// Tells what the text says of an action.
fn tell_part(
    tells: &mut Tells,
    part: &Part,
    outlooks: &[Outlook],
    things: &Things,
) -> Result<(), OutOfMemory> {
    tell_behind_raise(tells, part)?;
    tell_never_tried(tells, part, outlooks)?;
    tell_never_begun(tells, part)?;
    tell_handled_and_undone(tells, part)?;
    tell_unnamed(tells, part, outlooks)?;
    tell_one_fault(tells, part)?;
    tell_left_on(tells, part, things)?;
    tell_no_order(tells, part, outlooks)?;
    tell_idle_roles(tells, part)
}

/// Tells what the text says of each of these actions.
fn tell_parts(
    tells: &mut Tells,
    parts: &[Part],
    outlooks: &[Outlook],
    things: &Things,
) -> Result<(), OutOfMemory> {
    for part in parts {
        tell_part(tells, part, outlooks, things)?;
    }
    Ok(())
}

/// Tells of the order in which the objects of each of these actions are set back.
fn tell_restores(tells: &mut Tells, parts: &[Part], things: &Things) -> Result<(), OutOfMemory> {
    let mut pairs = Pairs::new(tells.alloc);
    let courses = courses_of(tells.alloc, parts, things)?;
    for (part, course) in parts.iter().zip(courses.iter()) {
        let action = part.outlook.action;
        pairs.tell(tells, things, course, action, first_line(part.block))?;
    }
    pairs.tell_order(tells, things)
}

/// All that is told of a script that isn't refused, warnings and notes.
fn told_of(alloc: Global, script: &Script, plan: &Plan) -> Result<Vec<Told>, OutOfMemory> {
    let outlooks = outlooks(alloc, script, plan)?;
    let all = parts_of(alloc, script, &outlooks)?;
    let things = Things::of(alloc, script.lines())?;
    let plays = Plays::of(alloc, script.lines(), &outlooks, &all)?;
    let mut tells = Tells::of(alloc, script);
    let parts = plays.reached(&mut tells, all)?;
    tell_parts(&mut tells, &parts, &outlooks, &things)?;
    tell_restores(&mut tells, &parts, &things)?;
    plays.tell_next_play(&mut tells, &things)?;
    plays.tell_asks_again(&mut tells, &parts, &things)?;
    tell_never_comes(&mut tells, &parts)?;
    Ok(tells.into_told())
}

/// How many of these are warnings.
fn count_warnings(told: &[Told]) -> u64 {
    let mut count = 0u64;
    for one in told {
        if !one.rule.is_note() {
            count = count.saturating_add(1);
        }
    }
    count
}

/// What is told of a script, and how many warnings there are.
#[derive(Drop)]
pub struct Warned {
    pub text: Vec<u8>,
    pub warnings: u64,
}

/// What the text of a script that isn't refused says that its author may not have meant: how many warnings and notes there are, and
/// each warning with its line. The notes are shown where they are asked for.
pub fn warnings(
    alloc: Global,
    script: &Script,
    plan: &Plan,
    with_notes: bool,
) -> Result<Warned, OutOfMemory> {
    let told = told_of(alloc, script, plan)?;
    let warnings = count_warnings(&told);
    let mut page = Page::new(alloc, script.names());
    page.say(&[
        Piece::Text("warnings "),
        Piece::Number(warnings),
        Piece::Text(", notes "),
        Piece::Number((told.len() as u64).saturating_sub(warnings)),
        Piece::Text("\n"),
    ])?;
    for one in told.iter() {
        if with_notes || !one.rule.is_note() {
            page.say(&[
                Piece::Text("  "),
                Piece::Number(u64::from(one.line)),
                Piece::Text(": "),
                Piece::Text(one.rule.words()),
                Piece::Text(": "),
                Piece::Word(&one.text),
                Piece::Text("\n"),
            ])?;
        }
    }
    Ok(Warned {
        text: page.into_text(),
        warnings,
    })
}
