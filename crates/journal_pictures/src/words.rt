//! Texts that are put together from words.

use caa_base::written::entry::{Entry, Exception, Kind, OutOfMemory, Place};
use caa_base::written::line::push_word;
use journal_text::texts::text_writer::{
    carried_name, kind_word, push_object, push_outcome, push_verdict, told_name,
};
use place_plan::plans::plan::Plan;
use place_plan::rules::one_entry::{outcome_at, verdict_at};
use std::alloc::Global;

/// The name of an exception that is raised in a place.
pub fn internal_name(plan: &Plan, place: Place, exception: Exception) -> &[u8] {
    plan.exception_name(plan.internal_number(place), exception)
}

/// The name of an exception that a place tells outside.
pub fn interface_name(plan: &Plan, place: Place, exception: Exception) -> &[u8] {
    plan.exception_name(plan.interface_number(place), exception)
}

/// What stands beside the mark of an entry.
pub fn label_of(alloc: Global, plan: &Plan, entry: &Entry) -> Result<Vec<u8>, OutOfMemory> {
    let mut text = Vec::new(alloc);
    push_label(&mut text, plan, entry)?;
    Ok(text)
}

/// Adds what stands beside the mark of an entry.
fn push_label(text: &mut Vec<u8>, plan: &Plan, entry: &Entry) -> Result<(), OutOfMemory> {
    text.extend_from_slice(word_of(entry.kind))?;
    match entry.kind {
        Kind::Read | Kind::Write | Kind::PutFault => push_object(
            text,
            plan,
            entry.arg,
            entry.value,
        ),
        Kind::Raise | Kind::Resolve | Kind::Handle => {
            push_word(text, internal_name(plan, entry.place, entry.arg))
        },
        Kind::Verdict => push_verdict(text, plan, entry.place, verdict_at(entry)),
        Kind::Abort => match told_name(plan, entry) {
            Some(name) => push_word(text, name),
            None => Ok(()),
        },
        Kind::Restore => {
            push_object(text, plan, entry.arg, entry.value)?;
            if entry.mark == 0 {
                Ok(())
            } else {
                push_word(text, b"failed")
            }
        },
        Kind::End => push_outcome(text, plan, entry.place, outcome_at(entry)),
        Kind::Leave => match carried_name(plan, entry) {
            Some(name) => {
                push_word(text, b"with")?;
                push_word(text, name)
            }
            None => Ok(()),
        },
        Kind::Arrive
        | Kind::Withdraw
        | Kind::Start
        | Kind::Work
        | Kind::Check
        | Kind::Inform
        | Kind::Undo => Ok(()),
    }
}

/// The word of a kind: that of the text of a journal, but for two that say more to who looks at a picture.
fn word_of(kind: Kind) -> &'static [u8] {
    match kind {
        Kind::PutFault => b"refused",
        Kind::Inform => b"informed",
        _ => kind_word(kind),
    }
}
