//! What a wait is for, in words.

use crate::states::States;
use caa_base::written::entry::{Object, OutOfMemory, Participant, Place};
use caa_base::written::line::{push_number, push_word};
use journal_replay::moves::{Lack, Wait};
use journal_text::texts::text_writer::object_name;
use place_plan::plans::plan::Plan;

/// The name of a participant, which is empty past the last one.
pub fn participant_name(plan: &Plan, by: Participant) -> &[u8] {
    if by < plan.participants() {
        plan.participant_name(by)
    } else {
        b""
    }
}

/// Adds the number of a place, after a space, and the name of its action.
pub fn push_place(text: &mut Vec<u8>, plan: &Plan, place: Place) -> Result<(), OutOfMemory> {
    push_number(text, u64::from(place))?;
    push_word(text, plan.action_name(place))
}

/// What those who are awaited have yet to do.
pub fn lack_words(lack: Lack) -> &'static [u8] {
    match lack {
        Lack::Roles => b"to be in the place",
        Lack::Objects | Lack::Object(_) => b"to be given back",
        Lack::Halts => b"to be told, or to raise something",
        Lack::Verdicts => b"to give a verdict",
        Lack::GiveUps => b"to give up",
    }
}

/// Adds whom or what a wait is for, each after a space: names of participants; or objects, each with the place that holds it.
pub fn push_awaited(text: &mut Vec<u8>, states: &States, wait: &Wait) -> Result<(), OutOfMemory> {
    push_some_awaited(text, states, wait, u64::MAX)
}

/// Adds the same, but of so many participants the first ones alone, and how many more there are.
pub fn push_some_awaited(
    text: &mut Vec<u8>,
    states: &States,
    wait: &Wait,
    most: u64,
) -> Result<(), OutOfMemory> {
    match wait.lack {
        Lack::Roles | Lack::Halts | Lack::Verdicts | Lack::GiveUps => {
            push_roles(text, states, wait, most)
        }
        Lack::Objects => push_objects(text, states, wait.place),
        Lack::Object(object) => push_held(text, states, object),
    }
}

/// Adds the names of the roles that are awaited: no more than these, and how many more there are.
fn push_roles(
    text: &mut Vec<u8>,
    states: &States,
    wait: &Wait,
    most: u64,
) -> Result<(), OutOfMemory> {
    let mut named = 0u64;
    for role in states.plan().roles_of(wait.place) {
        if states.is_awaited(wait, *role) {
            if named < most {
                if named > 0 {
                    push_word(text, b"and")?;
                }
                push_word(text, participant_name(states.plan(), *role))?;
            }
            named = named.saturating_add(1);
        }
    }
    if named > most {
        push_word(text, b"and")?;
        push_number(text, named - most)?;
        push_word(text, b"more")?;
    }
    Ok(())
}

/// Adds the objects of a place that it can't have yet.
fn push_objects(text: &mut Vec<u8>, states: &States, place: Place) -> Result<(), OutOfMemory> {
    let mut begun = false;
    for object in states.plan().objects_of(place) {
        if states.is_lacking(place, *object) {
            if begun {
                push_word(text, b"and")?;
            }
            push_held(text, states, *object)?;
            begun = true;
        }
    }
    Ok(())
}

/// Adds the name of an object, and the place that holds it.
fn push_held(text: &mut Vec<u8>, states: &States, object: Object) -> Result<(), OutOfMemory> {
    push_word(text, object_name(states.plan(), object))?;
    if let Some(holder) = states.holder(object) {
        push_word(text, b"of")?;
        push_place(text, states.plan(), holder)?;
    }
    Ok(())
}
