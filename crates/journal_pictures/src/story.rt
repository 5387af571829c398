//! A journal in sentences.

ghost use Rattle.place_plan.specs.RulesOfJournals.WellFormed.{AllWellFormed};

use crate::closing::push_close;
use crate::tellings::{are_told_together, is_of_many, push_deed, push_event};
use caa_base::written::entry::{Entry, Kind, OutOfMemory, Place};
use caa_base::written::journal::Journal;
use caa_base::written::line::{push_number, push_word};
use journal_states::words::participant_name;
use place_plan::plans::plan::Plan;
use std::alloc::Global;

/// How many things one sentence tells at most.
const MOST_THINGS: u32 = 6;

/// What a sentence is about.
#[derive(Clone, Copy)]
enum Matter {
    Coming,
    Working,
    Trouble,
    GivingUp,
    Ending,
}

/// The sentence that is being told.
#[derive(Clone, Copy)]
struct Sentence {
    place: Place,
    matter: Matter,
    things: u32,
}

/// A journal in sentences, one on each line behind the number of its first entry, with names in place of numbers. Each entry is told, in
/// order; entries that come one after the other and say the same are told together. At the end stand the values of the objects, and, where
/// the journal stops too early, what each participant may do then or waits for.
pub fn story(alloc: Global, plan: &Plan, journal: &Journal) -> Result<Vec<u8>, OutOfMemory>
    requires { AllWellFormed plan.now journal.now.entries }
{
    let entries = journal.as_slice();
    let mut text = Vec::new(alloc);
    let mut sentence = None;
    for (number, entry) in entries.iter().enumerate() {
        let past = &entries[..number];
        let goes_on = is_told_with(past.last(), entry);
        if !goes_on {
            sentence = Some(push_start(&mut text, plan, sentence, entry, number as u64)?);
        }
        let more = is_told_with(entries.get(number + 1), entry);
        push_entry(alloc, &mut text, plan, past, entry, goes_on, more)?;
    }
    if sentence.is_some() {
        text.extend_from_slice(b".\n")?;
    }
    push_close(alloc, &mut text, plan, entries)?;
    Ok(text)
}

/// Whether an entry beside this one is told together with it.
fn is_told_with(other: Option<&Entry>, entry: &Entry) -> bool {
    match other {
        Some(other) => are_told_together(other, entry),
        None => false,
    }
}

/// What an entry of this kind is about.
fn matter_of(kind: Kind) -> Matter {
    match kind {
        Kind::Arrive | Kind::Start | Kind::Withdraw => Matter::Coming,
        Kind::Read
        | Kind::Work
        | Kind::Write
        | Kind::Check
        | Kind::PutFault
        | Kind::Handle
        | Kind::Verdict => Matter::Working,
        Kind::Raise | Kind::Inform | Kind::Resolve => Matter::Trouble,
        Kind::Abort | Kind::Undo | Kind::Restore => Matter::GivingUp,
        Kind::End | Kind::Leave => Matter::Ending,
    }
}

/// Adds the number of an entry, in a column of its own.
fn push_row(text: &mut Vec<u8>, number: u64) -> Result<(), OutOfMemory> {
    let mut least = 1_000_000u64;
    for _ in 0..6 {
        if number < least {
            text.push(b' ')?;
        }
        least /= 10;
    }
    push_number(text, number)?;
    text.extend_from_slice(b"  ")?;
    Ok(())
}

/// Goes on with a sentence, or ends it and begins another.
fn push_start(
    text: &mut Vec<u8>,
    plan: &Plan,
    sentence: Option<Sentence>,
    entry: &Entry,
    number: u64,
) -> Result<Sentence, OutOfMemory> {
    let place = entry.place;
    let matter = matter_of(entry.kind);
    if let Some(told) = sentence {
        if told.place == place && told.matter == matter && told.things < MOST_THINGS {
            text.extend_from_slice(b"; ")?;
            return Ok(Sentence {
                place,
                matter,
                things: told.things + 1,
            });
        }
        text.extend_from_slice(b".\n")?;
    }
    push_row(text, number.saturating_add(1))?;
    text.extend_from_slice(b"In")?;
    push_word(text, plan.action_name(place))?;
    text.extend_from_slice(b" (place")?;
    push_number(text, u64::from(place))?;
    text.extend_from_slice(b"), ")?;
    Ok(Sentence {
        place,
        matter,
        things: 1,
    })
}

/// Tells an entry: as an event of the place; or as a deed, by the name of who did it and, after the last such name, what was done.
fn push_entry(
    alloc: Global,
    text: &mut Vec<u8>,
    plan: &Plan,
    past: &[Entry],
    entry: &Entry,
    goes_on: bool,
    more: bool,
) -> Result<(), OutOfMemory> {
    if !is_of_many(entry.kind) {
        return push_event(alloc, text, plan, past, entry);
    }
    match (goes_on, more) {
        (true, true) => text.extend_from_slice(b", ")?,
        (true, false) => text.extend_from_slice(b" and ")?,
        _ => {},
    }
    text.extend_from_slice(b"the ")?;
    text.extend_from_slice(participant_name(plan, entry.by))?;
    if !more {
        push_deed(text, plan, past, entry, goes_on)?;
    }
    Ok(())
}
