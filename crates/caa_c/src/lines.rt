//! The lines of the journal's text, put into the room for a line. That room is large enough, so no memory is taken for it.

ghost use Rattle.std.specs.Prelude.{◌≡◌, ◌<◌, ◌++◌, [], length, reverse, IfOk, OnOk};
ghost use Rattle.caa_base.specs.Written.Lines.{spaced};
ghost use Rattle.journal_text.specs.Texts.Text.{object_line, outcome_line, ending_words};
ghost use Rattle.caa_c.specs.Handed.{entry_line_at, rest_line_at};
ghost use Rattle.caa_c.specs.Machines.{machine_of};
ghost use Rattle.caa_c.specs.inner.Lines.{line_found};

use crate::session::Session;
use action_core::Tables;
use caa_base::written::entry::{Object, OutOfMemory, Outcome, Place};
use caa_base::written::line::{end_line, push_number, push_word};
use journal_laws::is_well_formed;
use journal_text::texts::text_writer::{push_entry, push_object, push_outcome};
use place_plan::plans::plan::Plan;
use told_machine::Told;

/// Puts the line of the entry of this number into the room for a line. False: there is no such entry.
pub fn find_entry_line(session: &mut Session, number: u64) -> Result<bool, OutOfMemory>
    ensures told { session.new.told ≡ session.old.told }
    ensures line { IfOk result (λ found. line_found found session.new.line.items
        ≡ entry_line_at (machine_of session.old).plan (machine_of session.old).journal number) }
{
    session.line.clear();
    let journal = session.told.journal();
    if number >= journal.len() {
        return Ok(false);
    }
    is_well_formed(session.told.plan());
    let entry = journal.get(number);
    push_entry(&mut session.line, session.told.plan(), &entry)?;
    Ok(true)
}

/// Adds the line of an object, with its value.
fn push_object_line(
    line: &mut Vec<u8>,
    told: &Told<Tables>,
    object: Object,
) -> Result<(), OutOfMemory>
    requires { object < length told.now.plan.objects }
    ensures { OnOk result (line.new.items
        ≡ line.old.items ++ object_line told.now.plan (reverse told.now.journal.entries) object) }
{
    line.extend_from_slice(b"object")?;
    push_object(line, told.plan(), object, told.value(object))?;
    end_line(line)
}

/// Adds how a place ended, or that it hasn't.
fn push_ending(
    line: &mut Vec<u8>,
    plan: &Plan,
    place: Place,
    outcome: Option<Outcome>,
) -> Result<(), OutOfMemory>
    ensures { OnOk result (line.new.items ≡ line.old.items ++ spaced (ending_words plan.now place outcome)) }
{
    match outcome {
        Some(outcome) => push_outcome(line, plan, place, outcome),
        None => push_word(line, b"none"),
    }
}

/// Adds the line of a place, with its outcome.
fn push_outcome_line(
    line: &mut Vec<u8>,
    told: &Told<Tables>,
    place: Place,
) -> Result<(), OutOfMemory>
    ensures { OnOk result (line.new.items
        ≡ line.old.items ++ outcome_line told.now.plan (reverse told.now.journal.entries) place) }
{
    let plan = told.plan();
    line.extend_from_slice(b"outcome")?;
    push_number(line, u64::from(place))?;
    push_word(line, plan.action_name(place))?;
    push_ending(line, plan, place, told.outcome(place))?;
    end_line(line)
}

/// Puts the line of this number among those that stand behind the entries into the room for a line. False: there is no such line.
pub fn find_rest_line(session: &mut Session, number: u64) -> Result<bool, OutOfMemory>
    ensures told { session.new.told ≡ session.old.told }
    ensures line { IfOk result (λ found. line_found found session.new.line.items
        ≡ rest_line_at (machine_of session.old).plan (machine_of session.old).journal number) }
{
    session.line.clear();
    let objects = u64::from(session.told.plan().objects());
    let places = u64::from(session.told.plan().places());
    if number < objects {
        push_object_line(&mut session.line, &session.told, number as u32)?;
    } else if number - objects < places {
        push_outcome_line(&mut session.line, &session.told, (number - objects) as u32)?;
    } else {
        return Ok(false);
    }
    Ok(true)
}
