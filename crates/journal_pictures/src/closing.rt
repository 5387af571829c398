//! What is told behind a story: the values of the objects, and where everybody stands who isn't through.

use caa_base::written::entry::{Entry, OutOfMemory, Participant};
use caa_base::written::line::{push_value, push_word};
use journal_replay::moves::Move;
use journal_states::states::States;
use journal_states::words::{lack_words, participant_name, push_awaited, push_place};
use journal_text::texts::text_writer::{object_name, push_entry};
use place_plan::plans::plan::Plan;
use place_plan::rules::well_formed::is_well_formed;
use std::alloc::Global;

/// Adds what stands at the end of a journal.
pub fn push_close(
    alloc: Global,
    text: &mut Vec<u8>,
    plan: &Plan,
    entries: &[Entry],
) -> Result<(), OutOfMemory> {
    let mut states = States::open(alloc, plan, entries)?;
    for _ in 0..entries.len() {
        if !states.step() {
            break;
        }
    }
    if states.taken() < entries.len() {
        text.extend_from_slice(
            b"Not all of this is by the rules. They let the entries come up to number",
        )?;
        push_value(text, states.taken() as i64)?;
        text.extend_from_slice(b", and then:\n")?;
    }
    push_values(text, &states)?;
    for by in 0..plan.participants() {
        push_standing(text, &states, by)?;
    }
    Ok(())
}

/// Adds the value of each object.
fn push_values(text: &mut Vec<u8>, states: &States) -> Result<(), OutOfMemory> {
    text.extend_from_slice(b"In the end:")?;
    for object in 0..states.plan().objects() {
        push_word(text, object_name(states.plan(), object))?;
        push_word(text, b"is")?;
        push_value(text, states.value(object))?;
        if object.saturating_add(1) < states.plan().objects() {
            text.push(b',')?;
        }
    }
    text.extend_from_slice(b".\n")?;
    Ok(())
}

/// Adds what a participant may do that isn't through, or what it waits for.
fn push_standing(text: &mut Vec<u8>, states: &States, by: Participant) -> Result<(), OutOfMemory> {
    let next = states.move_of(by);
    if next == Move::Over {
        return Ok(());
    }
    text.extend_from_slice(b"The")?;
    push_word(text, participant_name(states.plan(), by))?;
    if let Some(place) = states.place_of(by) {
        push_word(text, b"is in")?;
        push_place(text, states.plan(), place)?;
        push_word(text, b"and")?;
    }
    match next {
        Move::Make(entry) => push_may(text, states.plan(), &entry)?,
        Move::Put(entry) => push_may(text, states.plan(), &entry)?,
        Move::Mix(work) => push_may(text, states.plan(), &work.entry(by))?,
        Move::Wait(wait) => {
            push_word(text, b"waits for")?;
            push_awaited(text, states, &wait)?;
            push_word(text, lack_words(wait.lack))?;
        }
        Move::Over => {}
    }
    text.extend_from_slice(b".\n")?;
    Ok(())
}

/// Adds the line of an entry that may come, without its line feed.
fn push_may(text: &mut Vec<u8>, plan: &Plan, entry: &Entry) -> Result<(), OutOfMemory> {
    push_word(text, b"may go on with: ")?;
    if is_well_formed(plan, entry) {
        push_entry(text, plan, entry)?;
        let _ = text.pop();
    }
    Ok(())
}
