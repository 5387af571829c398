//! How each entry is told.

use crate::words::{interface_name, internal_name};
use caa_base::written::entry::{
    Entry, Exception, Kind, OutOfMemory, Outcome, Participant, Place, Verdict,
};
use caa_base::written::line::{push_number, push_value, push_word};
use journal_states::words::participant_name;
use journal_text::texts::text_writer::{carried_name, object_name, told_name};
use place_plan::plans::plan::Plan;
use place_plan::rules::one_entry::{outcome_at, verdict_at};
use std::alloc::Global;

/// Whether an entry of this kind is told as what its maker did, and not as something that happened to the place.
pub fn is_of_many(kind: Kind) -> bool {
    !(kind == Kind::PutFault
        || kind == Kind::Resolve
        || kind == Kind::Undo
        || kind == Kind::Restore
        || kind == Kind::End)
}

/// Whether two entries are told together: they say the same of two participants.
pub fn are_told_together(left: &Entry, right: &Entry) -> bool {
    is_of_many(left.kind)
        && left.kind != Kind::Raise
        && (left.kind != Kind::Verdict || verdict_at(left) == Verdict::Done)
        && left.kind == right.kind
        && left.place == right.place
        && left.arg == right.arg
        && left.mark == right.mark
        && left.value == right.value
}

/// The exception that an entry raises in a place, if it raises one there before anything is resolved in it.
fn raised_by(plan: &Plan, place: Place, entry: &Entry) -> Option<Exception> {
    match entry.kind {
        Kind::Raise if entry.place == place => Some(entry.arg),
        Kind::PutFault if entry.place == place => Some(plan.fault(place)),
        Kind::Leave if entry.mark == 1 && plan.parent(entry.place) == Some(place) => Some(
            entry.arg,
        ),
        _ => None,
    }
}

/// What comes after the start of a place; all, where it doesn't start.
fn since_start(past: &[Entry], place: Place) -> &[Entry] {
    for index in (0..past.len()).rev() {
        if let Some(entry) = past.get(index) {
            if entry.kind == Kind::Start && entry.place == place {
                return past.get(index..).unwrap_or(past);
            }
        }
    }
    past
}

/// Whether something was raised in a place.
fn is_hot(plan: &Plan, past: &[Entry], place: Place) -> bool {
    since_start(past, place)
        .iter()
        .any(|entry| raised_by(plan, place, entry).is_some())
}

/// Whether a participant made an entry of this kind in a place after its start.
fn has_made(past: &[Entry], kind: Kind, place: Place, by: Participant) -> bool {
    since_start(past, place).iter().any(|entry| entry.kind == kind
        && entry.place == place
        && entry.by == by)
}

/// Adds the words of a deed behind the names of those who did it.
pub fn push_deed(
    text: &mut Vec<u8>,
    plan: &Plan,
    past: &[Entry],
    entry: &Entry,
    several: bool,
) -> Result<(), OutOfMemory> {
    match entry.kind {
        Kind::Arrive => push_arrival(text, plan, past, entry),
        Kind::Start => push_word(text, b"saw that all were there, and started it"),
        Kind::Withdraw => {
            push_word(text, b"went away again, as it can't start any more")?;
            push_cause(text, plan, past, entry.place)
        }
        Kind::Read => {
            push_word(text, b"read")?;
            push_value(text, entry.value)?;
            push_word(text, b"from")?;
            push_word(text, object_name(plan, entry.arg))
        },
        Kind::Work => {
            push_word(text, b"worked for")?;
            push_number(text, u64::from(entry.arg))?;
            push_word(text, if entry.arg == 1 { b"round" } else { b"rounds" })
        },
        Kind::Write => {
            push_word(text, b"put")?;
            push_value(text, entry.value)?;
            push_word(text, b"into")?;
            push_word(text, object_name(plan, entry.arg))
        },
        Kind::Check => push_word(text, b"checked, and found nothing wrong"),
        Kind::Raise => push_raise(text, plan, past, entry),
        Kind::Inform if several => push_word(text, b"were told"),
        Kind::Inform => push_word(text, b"was told"),
        Kind::Handle => push_handle(text, plan, entry, several),
        Kind::Verdict => push_verdict(text, plan, past, entry, several),
        Kind::Abort => push_abort(text, plan, past, entry),
        Kind::Leave => push_leave(text, plan, entry),
        Kind::PutFault | Kind::Resolve | Kind::Undo | Kind::Restore | Kind::End => Ok(()),
    }
}

/// Adds that somebody raised an exception, and whether something had been raised that it wasn't told of.
fn push_raise(
    text: &mut Vec<u8>,
    plan: &Plan,
    past: &[Entry],
    entry: &Entry,
) -> Result<(), OutOfMemory> {
    if is_hot(plan, past, entry.place) {
        push_word(text, b"hadn't heard of that and")?;
    }
    push_word(text, b"raised")?;
    push_word(text, internal_name(plan, entry.place, entry.arg))
}

/// Adds that somebody began a handler.
fn push_handle(
    text: &mut Vec<u8>,
    plan: &Plan,
    entry: &Entry,
    several: bool,
) -> Result<(), OutOfMemory> {
    if several {
        push_word(text, b"began their handlers for")?;
    } else {
        push_word(text, b"began its handler for")?;
    }
    push_word(text, internal_name(plan, entry.place, entry.arg))
}

/// Adds a verdict.
fn push_verdict(
    text: &mut Vec<u8>,
    plan: &Plan,
    past: &[Entry],
    entry: &Entry,
    several: bool,
) -> Result<(), OutOfMemory> {
    match verdict_at(entry) {
        Verdict::Done if several => push_word(text, b"were done"),
        Verdict::Done => push_word(text, b"was done"),
        Verdict::Signal(exception) => {
            push_word(text, b"was done and signalled")?;
            push_word(text, interface_name(plan, entry.place, exception))
        },
        Verdict::Undo => {
            let handles = has_made(past, Kind::Handle, entry.place, entry.by);
            if is_hot(plan, past, entry.place) && !handles {
                push_word(text, b"had no handler for it and")?;
            }
            push_word(text, b"asked that all be undone")
        },
    }
}

/// Adds that somebody gave up, and what it named.
fn push_abort(
    text: &mut Vec<u8>,
    plan: &Plan,
    past: &[Entry],
    entry: &Entry,
) -> Result<(), OutOfMemory> {
    push_word(text, b"gave up")?;
    if let Some(name) = told_name(plan, entry) {
        push_word(text, b"and named")?;
        push_word(text, name)?;
    }
    push_cause(text, plan, past, entry.place)
}

/// The newest entry that raises something in a place, and what it raises.
fn newest_raise(plan: &Plan, past: &[Entry], place: Place) -> Option<(Entry, Exception)> {
    for index in (0..past.len()).rev() {
        if let Some(entry) = past.get(index) {
            if let Some(exception) = raised_by(plan, place, entry) {
                return Some((*entry, exception));
            }
        }
    }
    None
}

/// Adds what was raised round a place, by whom and where: that dooms it.
fn push_cause(
    text: &mut Vec<u8>,
    plan: &Plan,
    past: &[Entry],
    place: Place,
) -> Result<(), OutOfMemory> {
    for outer in plan.around(place) {
        if let Some((entry, exception)) = newest_raise(plan, past, *outer) {
            push_word(text, b"since the")?;
            push_word(text, participant_name(plan, entry.by))?;
            push_word(text, b"raised")?;
            push_word(text, internal_name(plan, *outer, exception))?;
            push_word(text, b"in")?;
            push_word(text, plan.action_name(*outer))?;
            return push_word(text, b"outside");
        }
    }
    Ok(())
}

/// The place that was undone before this one is tried in its stead.
fn undone_before(plan: &Plan, past: &[Entry], place: Place) -> Option<Place> {
    for index in (0..past.len()).rev() {
        if let Some(entry) = past.get(index) {
            if entry.kind == Kind::End && plan.next_alternate(entry.place) == Some(place) {
                return Some(entry.place);
            }
        }
    }
    None
}

/// Adds that somebody arrived, and in whose stead the place is tried where it is an alternate.
fn push_arrival(
    text: &mut Vec<u8>,
    plan: &Plan,
    past: &[Entry],
    entry: &Entry,
) -> Result<(), OutOfMemory> {
    push_word(text, b"arrived")?;
    if let Some(undone) = undone_before(plan, past, entry.place) {
        push_word(text, b"to try it in place of")?;
        push_word(text, plan.action_name(undone))?;
        push_word(text, b"which was undone")?;
    }
    Ok(())
}

/// Adds that somebody left, and what it carried out.
fn push_leave(text: &mut Vec<u8>, plan: &Plan, entry: &Entry) -> Result<(), OutOfMemory> {
    push_word(text, b"left")?;
    if let Some(name) = carried_name(plan, entry) {
        push_word(text, b"and raised")?;
        push_word(text, name)?;
        push_word(text, b"outside")?;
    }
    Ok(())
}

/// Adds the words of what happened to a place.
pub fn push_event(
    alloc: Global,
    text: &mut Vec<u8>,
    plan: &Plan,
    past: &[Entry],
    entry: &Entry,
) -> Result<(), OutOfMemory> {
    match entry.kind {
        Kind::PutFault => push_refusal(text, plan, past, entry),
        Kind::Resolve => push_resolve(alloc, text, plan, past, entry),
        Kind::Restore => push_restore(text, plan, entry),
        Kind::End => push_end(text, plan, entry),
        Kind::Undo => {
            text.extend_from_slice(b"all is being undone")?;
            Ok(())
        },
        Kind::Arrive
        | Kind::Withdraw
        | Kind::Start
        | Kind::Read
        | Kind::Work
        | Kind::Write
        | Kind::Check
        | Kind::Raise
        | Kind::Inform
        | Kind::Handle
        | Kind::Verdict
        | Kind::Abort
        | Kind::Leave => Ok(()),
    }
}

/// Adds that the device refused a put, and what that raised.
fn push_refusal(
    text: &mut Vec<u8>,
    plan: &Plan,
    past: &[Entry],
    entry: &Entry,
) -> Result<(), OutOfMemory> {
    text.extend_from_slice(b"the device refused to put")?;
    push_value(text, entry.value)?;
    push_word(text, b"into")?;
    push_word(text, object_name(plan, entry.arg))?;
    push_word(text, b"for the")?;
    push_word(text, participant_name(plan, entry.by))?;
    if has_made(past, Kind::Handle, entry.place, entry.by) {
        push_word(text, b"in its handler")
    } else {
        push_word(text, b"and so raised")?;
        push_word(
            text,
            internal_name(plan, entry.place, plan.fault(entry.place)),
        )
    }
}

/// Adds that an object was set back, or that the device refused.
fn push_restore(text: &mut Vec<u8>, plan: &Plan, entry: &Entry) -> Result<(), OutOfMemory> {
    if entry.mark == 0 {
        text.extend_from_slice(object_name(plan, entry.arg))?;
        push_word(text, b"was set back to")?;
    } else {
        text.extend_from_slice(b"the device refused to set")?;
        push_word(text, object_name(plan, entry.arg))?;
        push_word(text, b"back to")?;
    }
    push_value(text, entry.value)
}

/// Adds how a place ended.
fn push_end(text: &mut Vec<u8>, plan: &Plan, entry: &Entry) -> Result<(), OutOfMemory> {
    match outcome_at(entry) {
        Outcome::Commit => text.extend_from_slice(b"all ended well, and what was put stays")?,
        Outcome::Signal(exception) => {
            text.extend_from_slice(b"all ended, what was put stays, and the signal is")?;
            push_word(text, interface_name(plan, entry.place, exception))?;
        },
        Outcome::Undone => text.extend_from_slice(b"all ended undone")?,
        Outcome::Aborted => text.extend_from_slice(b"all ended undone, given up from outside")?,
        Outcome::Failed => {
            text.extend_from_slice(b"all ended as failed, since not everything was set back")?;
        },
    }
    Ok(())
}

/// Adds on what the roles of a place agreed, and what that covers.
fn push_resolve(
    alloc: Global,
    text: &mut Vec<u8>,
    plan: &Plan,
    past: &[Entry],
    entry: &Entry,
) -> Result<(), OutOfMemory> {
    match plan.roles_of(entry.place).len() {
        1 => text.extend_from_slice(b"that comes to")?,
        2 => text.extend_from_slice(b"both agreed on")?,
        3 => text.extend_from_slice(b"all three agreed on")?,
        _ => text.extend_from_slice(b"all agreed on")?,
    }
    push_word(text, internal_name(plan, entry.place, entry.arg))?;
    let others = covered_by(alloc, plan, past, entry)?;
    for (number, exception) in others.iter().enumerate() {
        let before: &[u8] = if number == 0 {
            b", which covers"
        } else if number + 1 == others.len() {
            b" and"
        } else {
            b","
        };
        text.extend_from_slice(before)?;
        push_word(text, internal_name(plan, entry.place, *exception))?;
    }
    Ok(())
}

/// What else was raised in the place of a Resolve, each exception once.
fn covered_by(
    alloc: Global,
    plan: &Plan,
    past: &[Entry],
    resolve: &Entry,
) -> Result<Vec<Exception>, OutOfMemory> {
    let mut others = Vec::new(alloc);
    for entry in since_start(past, resolve.place) {
        if let Some(exception) = raised_by(plan, resolve.place, entry) {
            if exception != resolve.arg && !others.contains(&exception) {
                others.push(exception)?;
            }
        }
    }
    Ok(others)
}
