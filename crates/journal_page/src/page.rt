//! The whole page.

ghost use Rattle.std.specs.Prelude.{◌≡◌, ◌++◌, OnOk, IfOk};
ghost use Rattle.std.specs.List.{All};
ghost use Rattle.place_plan.specs.RulesOfJournals.WellFormed.{AllWellFormed};
ghost use Rattle.page_text.specs.Parts.{parts_text, page_text};
ghost use Rattle.journal_page.specs.Stances.{ShowsWellFormed, TurnsWellFormed};
ghost use Rattle.journal_page.specs.Pages.{data_text, middle_text, IsPage};

use crate::stances::Lines;
use crate::texts::{close, open, push_stances, push_turns};
use crate::turns::{Turns, turns_of};
use caa_base::written::entry::{Entry, OutOfMemory};
use page_text::fixed::{BACK, FRONT};
use page_text::parts::{Part, push_parts};
use place_plan::plans::plan::Plan;
use std::alloc::Global;

/// These parts, between what stands before and behind them.
fn framed_parts(
    alloc: Global,
    front: &[u8],
    parts: &[Part],
    back: &[u8],
) -> Result<Vec<u8>, OutOfMemory>
    ensures { IfOk result (λ text. text.items ≡ front.now ++ parts_text parts.now ++ back.now) }
{
    let mut text = Vec::new(alloc);
    text.extend_from_slice(front)?;
    push_parts(&mut text, parts)?;
    text.extend_from_slice(back)?;
    Ok(text)
}

/// A page with no journal: between what is the same in each stand these parts.
pub fn bare_page(alloc: Global, parts: &[Part]) -> Result<Vec<u8>, OutOfMemory>
    ensures { IfOk result (λ text. text.items ≡ page_text (parts_text parts.now)) }
{
    framed_parts(alloc, FRONT, parts, BACK)
}

/// Adds the first stances and the turns.
#[tactic(auto, unfolding(crate::specs::Pages::middle_text))]
fn push_middle(
    alloc: Global,
    text: &mut Vec<u8>,
    plan: &Plan,
    turns: &Turns,
) -> Result<(), OutOfMemory>
    requires first { All (ShowsWellFormed plan.now) turns.now.first.items }
    requires turns { All (TurnsWellFormed plan.now) turns.now.turns.items }
    ensures { OnOk result (text.new.items ≡ text.old.items ++ middle_text plan.now turns.now.first.items turns.now.turns.items) }
{
    open(text)?;
    push_stances(alloc, text, plan, &turns.first)?;
    close(text)?;
    open(text)?;
    push_turns(alloc, text, plan, &turns.turns)?;
    close(text)
}

/// What stands before the data, and the parts before the journal.
fn begun(alloc: Global, front: &[u8], head: &[Part]) -> Result<Vec<u8>, OutOfMemory>
    ensures { IfOk result (λ text. text.items ≡ front.now ++ parts_text head.now) }
{
    let mut text = Vec::new(alloc);
    text.extend_from_slice(front)?;
    push_parts(&mut text, head)?;
    Ok(text)
}

/// A text, and behind it the parts behind the journal, and what stands behind the data.
fn ended(text: Vec<u8>, tail: &[Part], back: &[u8]) -> Result<Vec<u8>, OutOfMemory>
    ensures { IfOk result (λ whole. whole.items ≡ text.items ++ parts_text tail.now ++ back.now) }
{
    let mut whole = text;
    push_parts(&mut whole, tail)?;
    whole.extend_from_slice(back)?;
    Ok(whole)
}

/// The page of a script with a journal: between what is the same in each page stand the parts before, where all stand first, a piece
/// for each entry, as far as the rules let the entries come, and the parts behind.
pub fn page<L: Lines>(
    alloc: Global,
    lines: &L,
    plan: &Plan,
    head: &[Part],
    entries: &[Entry],
    tail: &[Part],
) -> Result<Vec<u8>, OutOfMemory>
    requires { AllWellFormed plan.now entries.now }
    ensures { IfOk result (λ text. IsPage (L.line_at lines.now) plan.now head.now tail.now entries.now text.items) }
{
    let turns = turns_of(alloc, lines, plan, entries)?;
    let mut text = begun(alloc, FRONT, head)?;
    push_middle(alloc, &mut text, plan, &turns)?;
    let whole = ended(text, tail, BACK)?;
    Ok(whole)
}
