//! The judge of a journal.

ghost use Rattle.std.specs.Prelude.{◌≡◌, ◌<◌, ◌+◌, ◌^◌, ℕ, List, true, length, IfOk};
ghost use Rattle.caa_base.specs.Written.Limits.{most_audited};
ghost use Rattle.place_plan.specs.RulesOfJournals.Journals.{IsLegal, IsComplete};
ghost use Rattle.journal_text.specs.Texts.Text.{text_of};
ghost use Rattle.journal_text.specs.Texts.TextOfJournal.{HasText};
ghost use Rattle.journal_text.specs.Watching.Looks.{AreOfPlan};
ghost use Rattle.journal_text.specs.Texts.Naming.{is_well_named};
ghost use Rattle.caa_commands.specs.Judging.{wrong_look, Judges};

use action_core::audit_fast;
use caa_base::written::entry::OutOfMemory;
use caa_base::written::journal::Journal;
use caa_base::written::limits::MOST_AUDITED;
use journal_text::looks::right::first_wrong;
use journal_text::looks::seens::Seens;
use journal_text::texts::text_reader::{TextError, read};
use place_plan::plans::plan::Plan;
use std::alloc::Global;

/// What was found in the text of a journal.
#[derive(Drop)]
pub enum Judgement {
    /// The text is one of this journal, which is legal and complete, and what was seen is right.
    Lawful(Journal),
    /// This line of the text, counted from 1, is the first at fault.
    Illegal { number: u64 },
    /// The journal has more entries than are audited.
    TooMany,
    /// No memory was found.
    OutOfMemory,
}

/// The number of the first wrong look; a text without looks has none.
fn wrong_look(
    alloc: Global,
    plan: &Plan,
    journal: &Journal,
    seens: &Seens,
) -> Result<Option<u64>, OutOfMemory>
    requires named { is_well_named plan.now ≡ true }
    requires watches { AreOfPlan plan.now seens.now.seens }
    ensures { IfOk result (λ found. found ≡ wrong_look plan.now journal.now.entries seens.now.seens) }
{
    if seens.is_empty() {
        return Ok(None);
    }
    first_wrong(alloc, plan, journal, seens)
}

/// The line of a look.
fn line_of_look(plan: &Plan, journal: &Journal, look: u64) -> u64
    requires { 2 + length journal.now.entries + length plan.now.objects + length plan.now.places + look < 2 ^ 64 }
    ensures { result ≡ 2 + length journal.now.entries + length plan.now.objects + length plan.now.places + look }
{
    2 + journal.len() + u64::from(plan.objects()) + u64::from(plan.places()) + look
}

/// Judges what was seen beside a legal and complete journal.
fn judge_seens(alloc: Global, plan: &Plan, journal: Journal, seens: &Seens) -> Judgement
    requires named { is_well_named plan.now ≡ true }
    requires fit { HasText plan.now most_audited journal.entries seens.now.seens }
    requires legal { IsLegal plan.now journal.entries }
    requires complete { IsComplete plan.now journal.entries }
    requires short { length (text_of plan.now journal.entries seens.now.seens) < 2 ^ 63 }
    ensures { (text : List ℕ) → text ≡ text_of plan.now journal.entries seens.now.seens → Judges plan.now text result }
{
    match wrong_look(alloc, plan, &journal, seens) {
        Ok(None) => Judgement::Lawful(journal),
        Ok(Some(look)) => Judgement::Illegal {
            number: line_of_look(plan, &journal, look),
        },
        Err(_) => Judgement::OutOfMemory,
    }
}

/// Judges a journal, and what was seen beside it.
fn judge_journal(alloc: Global, plan: &Plan, journal: Journal, seens: &Seens) -> Judgement
    requires named { is_well_named plan.now ≡ true }
    requires fit { HasText plan.now most_audited journal.entries seens.now.seens }
    requires short { length (text_of plan.now journal.entries seens.now.seens) < 2 ^ 63 }
    ensures { (text : List ℕ) → text ≡ text_of plan.now journal.entries seens.now.seens → Judges plan.now text result }
{
    match audit_fast(alloc, plan, &journal) {
        Ok(Ok(())) => judge_seens(alloc, plan, journal, seens),
        Ok(Err(illegal)) => Judgement::Illegal {
            number: illegal.index + 2,
        },
        Err(OutOfMemory) => Judgement::OutOfMemory,
    }
}

/// Judges the text of a journal of a plan: it is none, or the journal isn't legal or isn't complete, or shows a wrong value, or
/// none of this.
pub fn judge(alloc: Global, plan: &Plan, text: &[u8]) -> Judgement
    requires { is_well_named plan.now ≡ true }
    ensures { Judges plan.now text.now result }
{
    let (journal, seens) = match read(alloc, plan, text, MOST_AUDITED) {
        Ok(read) => read,
        Err(TextError::TooMany { line: _ }) => return Judgement::TooMany,
        Err(TextError::BadLine { line }) => return Judgement::Illegal { number: line },
        Err(TextError::OutOfMemory) => return Judgement::OutOfMemory,
    };
    judge_journal(alloc, plan, journal, &seens)
}
