//! The text of stances and turns. Where no memory is found a part may have been added.

ghost use Rattle.std.specs.Prelude.{◌≡◌, ◌++◌, OnOk, codes};
ghost use Rattle.std.specs.List.{All, flat_map};
ghost use Rattle.place_plan.specs.RulesOfJournals.WellFormed.{IsWellFormed};
ghost use Rattle.journal_text.specs.Texts.Text.{entry_line};
ghost use Rattle.page_text.specs.Parts.{number_text, string_text};
ghost use Rattle.journal_page.specs.Pages.{lack_number, move_number, lines_text, seat_text, choices_text, awaited_text, list_text, stance_text, turn_text};
ghost use Rattle.journal_page.specs.Stances.{place_number, ShowsWellFormed, TurnsWellFormed};

use crate::stances::{Stance, place_number};
use crate::turns::Turn;
use caa_base::written::entry::{Entry, OutOfMemory};
use journal_replay::moves::{Lack, Move};
use journal_text::texts::text_writer::push_entry;
use page_text::parts::{Part, push_number, push_part, push_text};
use place_plan::plans::plan::Plan;
use std::alloc::Global;

/// The number of what is lacking.
fn lack_number(lack: Lack) -> u64
    ensures { result ≡ lack_number lack }
{
    match lack {
        Lack::Roles => 0,
        Lack::Objects => 1,
        Lack::Halts => 2,
        Lack::Verdicts => 3,
        Lack::GiveUps => 4,
        Lack::Object(_) => 5,
    }
}

/// The number of a kind of move.
fn move_number(next: &Move) -> u64
    ensures { result ≡ move_number next.now }
{
    match next {
        Move::Over => 0,
        Move::Make(_) => 1,
        Move::Mix(_) => 1,
        Move::Put(_) => 2,
        Move::Wait(wait) => 3 + lack_number(wait.lack),
    }
}

/// Begins a list.
pub(crate) fn open(text: &mut Vec<u8>) -> Result<(), OutOfMemory>
    ensures { OnOk result (text.new.items ≡ text.old.items ++ codes "[") }
{
    push_part(text, &Part::Open)
}

/// Ends a list.
pub(crate) fn close(text: &mut Vec<u8>) -> Result<(), OutOfMemory>
    ensures { OnOk result (text.new.items ≡ text.old.items ++ codes "0],\n") }
{
    push_part(text, &Part::Close)
}

/// Adds the line of an entry.
fn push_line(
    alloc: Global,
    text: &mut Vec<u8>,
    plan: &Plan,
    entry: &Entry,
) -> Result<(), OutOfMemory>
    requires { IsWellFormed plan.now entry.now }
    ensures { OnOk result (text.new.items ≡ text.old.items ++ string_text (entry_line plan.now entry.now)) }
{
    let mut line = Vec::new(alloc);
    push_entry(&mut line, plan, entry)?;
    push_text(text, &line)
}

/// Adds the lines of entries.
fn push_lines(
    alloc: Global,
    text: &mut Vec<u8>,
    plan: &Plan,
    entries: &[Entry],
) -> Result<(), OutOfMemory>
    requires { All (IsWellFormed plan.now) entries.now }
    ensures { OnOk result (text.new.items ≡ text.old.items ++ lines_text plan.now entries.now) }
{
    for entry in entries {
        push_line(alloc, text, plan, entry)?;
    }
    Ok(())
}

/// Adds numbers.
fn push_numbers(text: &mut Vec<u8>, numbers: &[u64]) -> Result<(), OutOfMemory>
    ensures { OnOk result (text.new.items ≡ text.old.items ++ flat_map number_text numbers.now) }
{
    for number in numbers {
        push_number(text, *number)?;
    }
    Ok(())
}

/// Adds where a stance is: who stands in which place, at which line, and how.
fn push_seat(text: &mut Vec<u8>, stance: &Stance) -> Result<(), OutOfMemory>
    ensures { OnOk result (text.new.items ≡ text.old.items ++ seat_text stance.now) }
{
    push_number(text, u64::from(stance.by))?;
    push_number(text, place_number(stance.place))?;
    push_number(text, u64::from(stance.line))?;
    push_number(text, move_number(&stance.next))
}

/// Adds the entries that a stance lets its participant make.
fn push_choices(
    alloc: Global,
    text: &mut Vec<u8>,
    plan: &Plan,
    stance: &Stance,
) -> Result<(), OutOfMemory>
    requires { ShowsWellFormed plan.now stance.now }
    ensures { OnOk result (text.new.items ≡ text.old.items ++ choices_text plan.now stance.now) }
{
    open(text)?;
    push_lines(alloc, text, plan, &stance.entries)?;
    close(text)
}

/// Adds whom or what a stance waits for.
fn push_awaited(text: &mut Vec<u8>, stance: &Stance) -> Result<(), OutOfMemory>
    ensures { OnOk result (text.new.items ≡ text.old.items ++ awaited_text stance.now) }
{
    open(text)?;
    push_numbers(text, &stance.awaited)?;
    close(text)
}

/// Adds a stance.
#[tactic(auto, unfolding(crate::specs::Pages::stance_text))]
fn push_stance(
    alloc: Global,
    text: &mut Vec<u8>,
    plan: &Plan,
    stance: &Stance,
) -> Result<(), OutOfMemory>
    requires { ShowsWellFormed plan.now stance.now }
    ensures { OnOk result (text.new.items ≡ text.old.items ++ stance_text plan.now stance.now) }
{
    open(text)?;
    push_seat(text, stance)?;
    push_choices(alloc, text, plan, stance)?;
    push_awaited(text, stance)?;
    close(text)
}

/// Adds stances.
pub(crate) fn push_stances(
    alloc: Global,
    text: &mut Vec<u8>,
    plan: &Plan,
    stances: &[Stance],
) -> Result<(), OutOfMemory>
    requires { All (ShowsWellFormed plan.now) stances.now }
    ensures { OnOk result (text.new.items ≡ text.old.items ++ flat_map (stance_text plan.now) stances.now) }
{
    for stance in stances {
        push_stance(alloc, text, plan, stance)?;
    }
    Ok(())
}

/// Adds a turn.
#[tactic(auto, unfolding(crate::specs::Pages::turn_text))]
fn push_turn(alloc: Global, text: &mut Vec<u8>, plan: &Plan, turn: &Turn) -> Result<(), OutOfMemory>
    requires { TurnsWellFormed plan.now turn.now }
    ensures { OnOk result (text.new.items ≡ text.old.items ++ turn_text plan.now turn.now) }
{
    open(text)?;
    push_line(alloc, text, plan, &turn.entry)?;
    push_stances(alloc, text, plan, &turn.stances)?;
    close(text)
}

/// Adds turns.
pub(crate) fn push_turns(
    alloc: Global,
    text: &mut Vec<u8>,
    plan: &Plan,
    turns: &[Turn],
) -> Result<(), OutOfMemory>
    requires { All (TurnsWellFormed plan.now) turns.now }
    ensures { OnOk result (text.new.items ≡ text.old.items ++ flat_map (turn_text plan.now) turns.now) }
{
    for turn in turns {
        push_turn(alloc, text, plan, turn)?;
    }
    Ok(())
}
