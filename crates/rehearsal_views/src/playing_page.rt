//! A script with the journal of one schedule behind it.

ghost use Rattle.place_plan.specs.RulesOfJournals.WellFormed.{AllWellFormed};

use action_script::forms::form::Form;
use action_script::forms::script::Script;
use caa_base::written::entry::{Drill, OutOfMemory};
use caa_base::written::journal::Journal;
use journal_text::looks::seens::Seens;
use journal_text::texts::text_writer::write;
use place_plan::plans::plan::Plan;
use rehearsals::tries::refused_in;
use script_views::page::{Page, Piece};
use script_views::source::line_at;
use std::alloc::Global;

/// Whether a line of a script is a drill.
fn is_drill(script: &Script, number: u32) -> bool {
    script.lines().iter().any(|line| line.number == number
        && matches!(&line.form, Form::Drill(_, _)))
}

/// Says a drill line.
fn say_drill(page: &mut Page, plan: &Plan, drill: Drill) -> Result<(), OutOfMemory> {
    if drill.object >= plan.objects() {
        return Ok(());
    }
    page.say(&[Piece::Text("drill ")])?;
    page.show(plan.object_name(drill.object))?;
    page.say(&[
        Piece::Text(" "),
        Piece::Number(u64::from(drill.nth)),
        Piece::Text("\n"),
    ])
}

/// How many lines a text has.
fn line_count(text: &[u8]) -> u32 {
    let mut count = 0u32;
    let mut is_open = false;
    for byte in text {
        is_open = *byte != b'\n';
        if !is_open {
            count = count.saturating_add(1);
        }
    }
    if is_open {
        count.saturating_add(1)
    } else {
        count
    }
}

/// The script, its own drills turned into comments, with a drill line for each put that the journal says was refused, and behind it the
/// text of the journal.
pub fn playing_text(
    alloc: Global,
    script: &Script,
    plan: &Plan,
    text: &[u8],
    journal: &Journal,
) -> Result<Vec<u8>, OutOfMemory>
    requires { AllWellFormed plan.now journal.now.entries }
{
    let mut page = Page::new(alloc, script.names());
    for index in 0..line_count(text) {
        let number = index.saturating_add(1);
        if is_drill(script, number) {
            page.say(&[Piece::Text("# ")])?;
        }
        page.show(line_at(text, number))?;
        page.say(&[Piece::Text("\n")])?;
    }
    for drill in &refused_in(alloc, plan, journal)? {
        say_drill(&mut page, plan, *drill)?;
    }
    let mut whole = page.into_text();
    whole.extend_from_slice(&write(alloc, plan, journal, &Seens::empty(alloc))?)?;
    Ok(whole)
}
