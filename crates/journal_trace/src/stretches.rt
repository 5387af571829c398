//! What the stretches of a participant are called.

ghost use Rattle.place_plan.specs.RulesOfJournals.WellFormed.{IsWellFormed};
ghost use Rattle.journal_page.specs.Stances.{ShowsWellFormed};

use caa_base::written::entry::{Entry, Object, OutOfMemory, Place};
use caa_base::written::line::push_word;
use journal_page::stances::Stance;
use journal_replay::moves::{Lack, Move};
use journal_states::words::{participant_name, push_place};
use journal_text::texts::text_writer::{object_name, push_entry};
use place_plan::plans::plan::Plan;
use std::alloc::Global;

/// Adds the line of an entry, without its line feed.
pub fn push_line(
    alloc: Global,
    name: &mut Vec<u8>,
    plan: &Plan,
    entry: &Entry,
) -> Result<(), OutOfMemory>
    requires { IsWellFormed plan.now entry.now }
{
    let mut line = Vec::new(alloc);
    push_entry(&mut line, plan, entry)?;
    let length = line.len().saturating_sub(1);
    name.extend_from_slice(line.get(..length).unwrap_or(&[]))?;
    Ok(())
}

/// The number of a place and the name of its action.
pub fn place_name(alloc: Global, plan: &Plan, place: Place) -> Result<Vec<u8>, OutOfMemory> {
    let mut name = Vec::new(alloc);
    name.extend_from_slice(b"place")?;
    push_place(&mut name, plan, place)?;
    Ok(name)
}

/// What is lacking where a participant waits, in words.
fn wait_words(lack: Lack) -> &'static [u8] {
    match lack {
        Lack::Roles => b"waits until all are there:",
        Lack::Objects | Lack::Object(_) => b"waits for",
        Lack::Halts => b"waits until all are told, or raise something:",
        Lack::Verdicts => b"waits for the verdicts of",
        Lack::GiveUps => b"waits until all give up:",
    }
}

/// Adds the names of those that are awaited.
fn push_roles(name: &mut Vec<u8>, plan: &Plan, stance: &Stance) -> Result<(), OutOfMemory> {
    for role in stance.awaited.iter() {
        if *role < u64::from(plan.participants()) {
            push_word(name, participant_name(plan, *role as u32))?;
        }
    }
    Ok(())
}

/// Adds the names of the objects that are awaited: every other number is one, and behind it stands the place that holds it.
fn push_objects(name: &mut Vec<u8>, plan: &Plan, stance: &Stance) -> Result<(), OutOfMemory> {
    for (index, number) in stance.awaited.iter().enumerate() {
        if index % 2 == 0 && *number < u64::from(plan.objects()) {
            push_word(name, object_name(plan, *number as Object))?;
        }
    }
    Ok(())
}

/// What the stretch of a stance is called; none where its participant is through.
pub fn stretch_name(
    alloc: Global,
    plan: &Plan,
    stance: &Stance,
) -> Result<Option<Vec<u8>>, OutOfMemory>
    requires { ShowsWellFormed plan.now stance.now }
{
    let mut name = Vec::new(alloc);
    match stance.next {
        Move::Over => return Ok(None),
        Move::Wait(wait) => {
            name.extend_from_slice(wait_words(wait.lack))?;
            match wait.lack {
                Lack::Objects | Lack::Object(_) => push_objects(&mut name, plan, stance)?,
                _ => push_roles(&mut name, plan, stance)?,
            }
        }
        _ => {
            name.extend_from_slice(b"may: ")?;
            if let Some(entry) = stance.entries.first() {
                push_line(alloc, &mut name, plan, entry)?;
            }
        }
    }
    Ok(Some(name))
}
