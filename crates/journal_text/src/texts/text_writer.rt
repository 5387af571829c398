ghost use Rattle.std.specs.Prelude.{◌≡◌, ◌<◌, ◌≤◌, ◌+◌, ◌∷◌, ◌++◌, [], map, length, take, reverse, codes, decimal, OnOk, IfOk};
ghost use Rattle.std.specs.List.{flat_map, range_with_len};
ghost use Rattle.std.specs.Option.{option_copied};
ghost use Rattle.caa_base.specs.declared.written.entry.Kind.TheVariants as kind;
ghost use Rattle.caa_base.specs.Written.Lines.{spaced, line};
ghost use Rattle.place_plan.specs.Plans.Places.{parent};
ghost use Rattle.place_plan.specs.RulesOfJournals.Entries.{is_of};
ghost use Rattle.place_plan.specs.RulesOfJournals.WellFormed.{IsWellFormed, AllWellFormed};
ghost use Rattle.journal_text.specs.Texts.Text.{action_name, object_name, interface_name, marked_name, told_name, carried_name, kind_word, object_words, verdict_words, outcome_words, entry_line, object_lines, last_outcome, ending_words, outcome_lines, closing_lines, seen_line, rest_lines, text_of};
ghost use Rattle.journal_text.specs.inner.KnownValues.{value_found};
ghost use Rattle.journal_text.specs.Watching.Looks.{AreOfPlan};

use crate::looks::seens::{Seen, Seens};
use crate::texts::entry_writer::{room_for, write_entry};
use crate::texts::values::{last_values, value_found};
use caa_base::written::entry::{
    Entry, Exception, Kind, Object, OutOfMemory, Outcome, Place, Verdict,
};
use caa_base::written::journal::Journal;
use caa_base::written::line::{end_line, push_number, push_value, push_word};
use place_plan::plans::plan::Plan;
use place_plan::rules::one_entry::outcome_at;
use std::alloc::{AllocError, Global};

/// The text of a journal: one line for each entry, with the names of the plan, then the value of each object and the outcome of
/// each place, and then what was seen.
pub fn write(
    alloc: Global,
    plan: &Plan,
    journal: &Journal,
    seens: &Seens,
) -> Result<Vec<u8>, OutOfMemory>
    requires entries { AllWellFormed plan.now journal.now.entries }
    requires watches { AreOfPlan plan.now seens.now.seens }
    ensures { IfOk result (λ text. text.items ≡ text_of plan.now journal.now.entries seens.now.seens) }
{
    write_text(alloc, plan, journal.as_slice(), seens.as_slice())
}

/// The text of these entries and looks.
pub(crate) fn write_text(
    alloc: Global,
    plan: &Plan,
    entries: &[Entry],
    seens: &[Seen],
) -> Result<Vec<u8>, OutOfMemory>
    requires entries { AllWellFormed plan.now entries.now }
    requires watches { AreOfPlan plan.now seens.now }
    ensures { IfOk result (λ text. text.items ≡ text_of plan.now entries.now seens.now) }
{
    let mut text = Vec::new(alloc);
    push_text(alloc, &mut text, plan, entries, seens)?;
    Ok(text)
}

/// Adds all lines.
fn push_text(
    alloc: Global,
    text: &mut Vec<u8>,
    plan: &Plan,
    entries: &[Entry],
    seens: &[Seen],
) -> Result<(), OutOfMemory>
    requires entries { AllWellFormed plan.now entries.now }
    requires watches { AreOfPlan plan.now seens.now }
    ensures { OnOk result (text.new.items ≡ text.old.items ++ text_of plan.now entries.now seens.now) }
{
    text.extend_from_slice(b"journal\n")?;
    push_entries(text, plan, entries)?;
    push_rest(alloc, text, plan, entries, seens)
}

/// Adds what stands behind the lines of the entries.
pub(crate) fn push_rest(
    alloc: Global,
    text: &mut Vec<u8>,
    plan: &Plan,
    entries: &[Entry],
    seens: &[Seen],
) -> Result<(), OutOfMemory>
    requires entries { AllWellFormed plan.now entries.now }
    requires watches { AreOfPlan plan.now seens.now }
    ensures { OnOk result (text.new.items ≡ text.old.items ++ rest_lines plan.now entries.now seens.now) }
{
    push_closing(alloc, text, plan, entries)?;
    push_seens(text, plan, seens)
}

/// Adds a line for each entry.
fn push_entries(text: &mut Vec<u8>, plan: &Plan, entries: &[Entry]) -> Result<(), OutOfMemory>
    requires { AllWellFormed plan.now entries.now }
    ensures { OnOk result (text.new.items ≡ text.old.items ++ flat_map (entry_line plan.now) entries.now) }
{
    let mut at = text.len();
    for entry in entries {
        widen(text, at, room_for(plan, entry)?, at)?;
        at = write_entry(text, at, plan, entry);
    }
    text.truncate(at);
    Ok(())
}

/// Sees that so many bytes of room stand behind `at`; where fewer do, `more` bytes are added too, so that the next lines find them.
fn widen(text: &mut Vec<u8>, at: usize, room: usize, more: usize) -> Result<(), OutOfMemory>
    requires { at ≤ length text.old.items }
    ensures room { OnOk result (at + room ≤ length text.new.items) }
    ensures kept { OnOk result (take at text.new.items ≡ take at text.old.items) }
{
    if text.len() - at >= room {
        return Ok(());
    }
    let Some(end) = at.checked_add(room) else {
        return Err(OutOfMemory);
    };
    text.resize(end.saturating_add(more), 0)?;
    Ok(())
}

/// Adds the lines that follow from the entries.
pub(crate) fn push_closing(
    alloc: Global,
    text: &mut Vec<u8>,
    plan: &Plan,
    entries: &[Entry],
) -> Result<(), OutOfMemory>
    requires { AllWellFormed plan.now entries.now }
    ensures { OnOk result (text.new.items ≡ text.old.items ++ closing_lines plan.now (reverse entries.now)) }
{
    push_objects(alloc, text, plan, entries)?;
    push_outcomes(alloc, text, plan, entries)
}

/// Adds a line for each look.
fn push_seens(text: &mut Vec<u8>, plan: &Plan, seens: &[Seen]) -> Result<(), OutOfMemory>
    requires { AreOfPlan plan.now seens.now }
    ensures { OnOk result (text.new.items ≡ text.old.items ++ flat_map (seen_line plan.now) seens.now) }
{
    for seen in seens {
        push_seen(text, plan, seen)?;
    }
    Ok(())
}

/// Adds a line for each object, with its value after the entries, as it stands in the text of a journal.
///
/// Where memory is wanting, what the text had is still there, and some of the lines may stand behind it.
#[tactic(auto, using(crate::proofs::OnTexts::TextLemmas::lines_more))]
pub fn push_objects(
    alloc: Global,
    text: &mut Vec<u8>,
    plan: &Plan,
    entries: &[Entry],
) -> Result<(), OutOfMemory>
    requires { AllWellFormed plan.now entries.now }
    ensures { OnOk result (text.new.items ≡ text.old.items ++ object_lines plan.now (reverse entries.now)) }
{
    let found = last_values(alloc, plan, entries)?;
    for object in 0..plan.objects() {
        push_object_line(text, plan, object, &found)?;
    }
    Ok(())
}

/// Adds a line for each place, with its outcome after the entries.
#[tactic(auto, using(crate::proofs::OnTexts::TextLemmas::lines_more))]
fn push_outcomes(
    alloc: Global,
    text: &mut Vec<u8>,
    plan: &Plan,
    entries: &[Entry],
) -> Result<(), OutOfMemory>
    requires { AllWellFormed plan.now entries.now }
    ensures { OnOk result (text.new.items ≡ text.old.items ++ outcome_lines plan.now (reverse entries.now)) }
{
    let outcomes = last_outcomes(alloc, plan, entries)?;
    for place in 0..plan.places() {
        push_ending(text, plan, place, outcomes[place as usize])?;
    }
    Ok(())
}

/// How each place ended, in the order of the places, where it has an End.
fn last_outcomes(
    alloc: Global,
    plan: &Plan,
    entries: &[Entry],
) -> Result<Vec<Option<Outcome>>, AllocError>
    requires { AllWellFormed plan.now entries.now }
    ensures { IfOk result (λ outcomes.
        outcomes.items ≡ map (last_outcome (reverse entries.now)) (range_with_len 0 (length plan.now.places))) }
{
    let mut outcomes = vec![in alloc; None; plan.places() as usize]?;
    for entry in entries {
        if is_end(entry) {
            outcomes[entry.place as usize] = Some(outcome_at(entry));
        }
    }
    Ok(outcomes)
}

/// Whether an entry is an End.
fn is_end(entry: &Entry) -> bool
    ensures { result ≡ is_of kind.End entry.now }
{
    entry.kind == Kind::End
}

/// Adds the line of one entry, as it stands in the text of a journal: for whoever prints or logs each entry as it is made.
///
/// Where memory is wanting, the text is as it was.
pub fn push_entry(text: &mut Vec<u8>, plan: &Plan, entry: &Entry) -> Result<(), OutOfMemory>
    requires { IsWellFormed plan.now entry.now }
    ensures { OnOk result (text.new.items ≡ text.old.items ++ entry_line plan.now entry.now) }
{
    let at = text.len();
    widen(text, at, room_for(plan, entry)?, 0)?;
    let end = write_entry(text, at, plan, entry);
    text.truncate(end);
    Ok(())
}

/// Adds the line of an object with the value that was found for it.
fn push_object_line(
    text: &mut Vec<u8>,
    plan: &Plan,
    object: Object,
    found: &[Option<i64>],
) -> Result<(), OutOfMemory>
    requires object { object < length plan.now.objects }
    requires objects { length found.now ≡ length plan.now.objects }
    ensures { OnOk result (text.new.items
        ≡ text.old.items ++ line (codes "object") (object_words plan.now object (value_found plan.now found.now object))) }
{
    text.extend_from_slice(b"object")?;
    push_object(text, plan, object, value_found(plan, found, object))?;
    end_line(text)
}

/// Adds the line of a place that ended so, or that hasn't ended.
fn push_ending(
    text: &mut Vec<u8>,
    plan: &Plan,
    place: Place,
    outcome: Option<Outcome>,
) -> Result<(), OutOfMemory>
    ensures { OnOk result (text.new.items
        ≡ text.old.items
        ++ line (codes "outcome") (decimal place ∷ action_name plan.now place ∷ ending_words plan.now place outcome)) }
{
    text.extend_from_slice(b"outcome")?;
    push_number(text, u64::from(place))?;
    push_word(text, plan.action_name(place))?;
    match outcome {
        Some(outcome) => push_outcome(text, plan, place, outcome)?,
        None => push_word(text, b"none")?,
    }
    end_line(text)
}

/// Adds the line of a look.
fn push_seen(text: &mut Vec<u8>, plan: &Plan, seen: &Seen) -> Result<(), OutOfMemory>
    requires { seen.now.watch < length plan.now.watches }
    ensures { OnOk result (text.new.items ≡ text.old.items ++ seen_line plan.now seen.now) }
{
    text.extend_from_slice(b"seen")?;
    push_word(text, object_name(plan, plan.watch(seen.watch)))?;
    push_number(text, seen.ends)?;
    push_value(text, seen.value)?;
    end_line(text)
}

/// The name of an object, which is empty past the last one.
pub fn object_name(plan: &Plan, object: Object) -> &[u8]
    ensures { result.now ≡ object_name plan.now object }
{
    if object < plan.objects() {
        plan.object_name(object)
    } else {
        b""
    }
}

/// The name of an exception in a graph that an entry names, if its mark says that it names one.
fn marked_name<'a>(plan: &'a Plan, graph: u32, entry: &Entry) -> Option<&'a [u8]>
    ensures { option_copied result ≡ marked_name plan.now graph entry.now }
{
    if entry.mark == 1 {
        Some(plan.exception_name(graph, entry.arg))
    } else {
        None
    }
}

/// The name of the exception that a Verdict, an Abort or an End tells outside, if it names one.
pub fn told_name<'a>(plan: &'a Plan, entry: &Entry) -> Option<&'a [u8]>
    ensures { option_copied result ≡ told_name plan.now entry.now }
{
    marked_name(plan, plan.interface_number(entry.place), entry)
}

/// The name of the exception that a Leave carries into the place round its own, if it carries one.
pub fn carried_name<'a>(plan: &'a Plan, entry: &Entry) -> Option<&'a [u8]>
    ensures { option_copied result ≡ carried_name plan.now (parent plan.now entry.now.place) entry.now }
{
    match plan.parent(entry.place) {
        Some(outer) => marked_name(plan, plan.internal_number(outer), entry),
        None => None,
    }
}

/// Adds the name of an object and its value, each after a space.
///
/// Where memory is wanting, what the text had is still there, and a part of these words may stand behind it.
pub fn push_object(
    text: &mut Vec<u8>,
    plan: &Plan,
    object: Object,
    value: i64,
) -> Result<(), OutOfMemory>
    ensures { OnOk result (text.new.items ≡ text.old.items ++ spaced (object_words plan.now object value)) }
{
    push_word(text, object_name(plan, object))?;
    push_value(text, value)
}

/// Adds the name of an exception that a place tells outside.
fn push_interface(
    text: &mut Vec<u8>,
    plan: &Plan,
    place: Place,
    exception: Exception,
) -> Result<(), OutOfMemory>
    ensures { OnOk result (text.new.items ≡ text.old.items ++ spaced (interface_name plan.now place exception ∷ [])) }
{
    push_word(
        text,
        plan.exception_name(plan.interface_number(place), exception),
    )
}

/// Adds the words of a verdict in a place, each after a space.
///
/// Where memory is wanting, what the text had is still there, and a part of these words may stand behind it.
pub fn push_verdict(
    text: &mut Vec<u8>,
    plan: &Plan,
    place: Place,
    verdict: Verdict,
) -> Result<(), OutOfMemory>
    ensures { OnOk result (text.new.items ≡ text.old.items ++ spaced (verdict_words plan.now place verdict)) }
{
    match verdict {
        Verdict::Done => push_word(text, b"done"),
        Verdict::Signal(exception) => {
            push_word(text, b"signal")?;
            push_interface(text, plan, place, exception)
        },
        Verdict::Undo => push_word(text, b"undo"),
    }
}

/// Adds the words of an outcome of a place, each after a space.
///
/// Where memory is wanting, what the text had is still there, and a part of these words may stand behind it.
pub fn push_outcome(
    text: &mut Vec<u8>,
    plan: &Plan,
    place: Place,
    outcome: Outcome,
) -> Result<(), OutOfMemory>
    ensures { OnOk result (text.new.items ≡ text.old.items ++ spaced (outcome_words plan.now place outcome)) }
{
    match outcome {
        Outcome::Commit => push_word(text, b"commit"),
        Outcome::Signal(exception) => {
            push_word(text, b"signal")?;
            push_interface(text, plan, place, exception)
        },
        Outcome::Undone => push_word(text, b"undone"),
        Outcome::Aborted => push_word(text, b"aborted"),
        Outcome::Failed => push_word(text, b"failed"),
    }
}

/// The word with which the line of an entry of this kind begins.
pub fn kind_word(kind: Kind) -> &'static [u8]
    ensures { result.now ≡ kind_word kind }
{
    match kind {
        Kind::Arrive => b"arrive",
        Kind::Withdraw => b"withdraw",
        Kind::Start => b"start",
        Kind::Read => b"read",
        Kind::Work => b"work",
        Kind::Write => b"write",
        Kind::Check => b"check",
        Kind::PutFault => b"putfault",
        Kind::Raise => b"raise",
        Kind::Inform => b"inform",
        Kind::Resolve => b"resolve",
        Kind::Handle => b"handle",
        Kind::Verdict => b"verdict",
        Kind::Abort => b"abort",
        Kind::Undo => b"undo",
        Kind::Restore => b"restore",
        Kind::End => b"end",
        Kind::Leave => b"leave",
    }
}
