//! The page of an input, and its trace.

ghost use Rattle.std.specs.Prelude.{◌≡◌, true, IfOk};
ghost use Rattle.place_plan.specs.RulesOfJournals.WellFormed.{AllWellFormed};
ghost use Rattle.journal_text.specs.Texts.Naming.{is_well_named};

use crate::judging::Scene;
use crate::lines::PageLines;
use crate::showing::{Shown, Status, show_plan, with_status};
use crate::words::View;
use action_script::forms::script::Script;
use action_script::words::journal_start::JournalStart;
use caa_base::written::entry::OutOfMemory;
use caa_base::written::journal::Journal;
use caa_base::written::limits::MOST_AUDITED;
use journal_states::fronts::read_front;
use journal_trace::trace::trace;
use place_plan::plans::plan::Plan;
use script_checker::lines::lines_of;
use script_checker::own_names::has_own_names;
use script_pages::paging::{Subject, journal_page_of, refused_page};
use script_views::explaining::{Seen, look};
use std::alloc::Global;

/// The entries of what stands behind a script, as far as they can be read.
fn entries_behind(
    alloc: Global,
    plan: &Plan,
    bytes: &[u8],
    start: Option<JournalStart>,
) -> Result<Journal, OutOfMemory>
    ensures { IfOk result (λ journal. AllWellFormed plan.now journal.entries) }
{
    if let Some(start) = start {
        let text = bytes.get(start.offset..).unwrap_or(&[]);
        if let Some(front) = read_front(alloc, plan, text, MOST_AUDITED)? {
            return Ok(front.journal);
        }
    }
    Ok(Journal::from_vec(Vec::new(alloc)))
}

/// The page of a script that isn't refused, with the journal behind it. The status is that of `explain`.
fn show_scene(
    alloc: Global,
    script: &Script,
    scene: &Scene,
    file: &[u8],
    bytes: &[u8],
    script_text: &[u8],
    start: Option<JournalStart>,
) -> Result<Shown, OutOfMemory>
    requires { is_well_named scene.now.plan.now ≡ true }
{
    let told = show_plan(alloc, View::Explain, scene, file, bytes, start)?;
    let subject = Subject {
        file,
        script_text,
        told: &told.text,
    };
    let journal = entries_behind(alloc, scene.plan, bytes, start)?;
    let lines = PageLines { lines: scene.lines };
    let text = journal_page_of(
        alloc,
        &subject,
        script,
        scene.plan,
        &lines,
        journal.as_slice(),
    )?;
    Ok(with_status(told.status, text))
}

/// The page of an input: of a script that is refused too, and of a journal that isn't legal, as far as it may come by the rules.
pub fn show_page(
    alloc: Global,
    file: &[u8],
    bytes: &[u8],
    script_text: &[u8],
    start: Option<JournalStart>,
) -> Result<Shown, OutOfMemory> {
    match look(alloc, file, script_text)? {
        Seen::Accepted(script, plan) => {
            has_own_names(&script, &plan);
            let lines = lines_of(alloc, &script, &plan)?;
            let scene = Scene {
                plan: &plan,
                lines: &lines,
            };
            show_scene(alloc, &script, &scene, file, bytes, script_text, start)
        }
        Seen::Refused(refusal) => {
            let subject = Subject {
                file,
                script_text,
                told: &refusal.text,
            };
            let text = refused_page(alloc, &subject, &refusal)?;
            Ok(with_status(Status::Refused, text))
        }
    }
}

/// The trace of a journal, as far as it may come by the rules.
pub fn draw_trace(alloc: Global, scene: &Scene, journal: &Journal) -> Result<Vec<u8>, OutOfMemory>
    requires { AllWellFormed scene.now.plan.now journal.now.entries }
{
    let lines = PageLines { lines: scene.lines };
    trace(alloc, &lines, scene.plan, journal.as_slice())
}
