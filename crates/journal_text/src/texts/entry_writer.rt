//! The line of an entry, written into room that stands ready.

ghost use Rattle.std.specs.Prelude.{◌≡◌, ◌≤◌, ◌+◌, ◌∷◌, ◌++◌, [], length, take, true, IfOk};
ghost use Rattle.std.specs.Option.{option_copied};
ghost use Rattle.caa_base.specs.Written.Lines.{spaced};
ghost use Rattle.place_plan.specs.RulesOfJournals.WellFormed.{IsWellFormed};
ghost use Rattle.journal_text.specs.Texts.Text.{internal_name, interface_name, object_words, restore_word, verdict_words, outcome_words, name_words, field_words, entry_line};
ghost use Rattle.journal_text.specs.Texts.Room.{Fits, spare};
ghost use Rattle.journal_text.specs.inner.SaidNames.{said_name};

use crate::texts::line_room::{put_bytes, put_line_end, put_number, put_value, put_word};
use crate::texts::text_writer::{carried_name, kind_word, object_name, told_name};
use caa_base::written::entry::{
    Entry, Exception, Kind, Object, OutOfMemory, Outcome, Place, Verdict,
};
use place_plan::plans::plan::Plan;
use place_plan::rules::one_entry::{outcome_at, verdict_at};

/// The bytes of a line beside the names in it, at most, and the spare room behind it.
const MOST_BESIDE_NAMES: usize = 64;

/// How many bytes of room the line of an entry needs at most. Where so many can't be counted, no memory has them.
pub(crate) fn room_for(plan: &Plan, entry: &Entry) -> Result<usize, OutOfMemory>
    requires { IsWellFormed plan.now entry.now }
    ensures { IfOk result (λ room. length (entry_line plan.now entry.now) + spare ≤ room) }
{
    plan.places();
    let maker = plan.participant_name(entry.by).len();
    let said = said_name(plan, entry).len();
    match maker.checked_add(said) {
        Some(names) if names <= usize::MAX - MOST_BESIDE_NAMES => Ok(names + MOST_BESIDE_NAMES),
        _ => Err(OutOfMemory),
    }
}

/// The name that the line of an entry says beside its maker's; empty where it says none.
fn said_name<'a>(plan: &'a Plan, entry: &Entry) -> &'a [u8]
    requires { IsWellFormed plan.now entry.now }
    ensures { result.now ≡ said_name entry.now.kind plan.now entry.now }
{
    match entry.kind {
        Kind::Read | Kind::Write | Kind::PutFault | Kind::Restore => object_name(plan, entry.arg),
        Kind::Raise | Kind::Resolve | Kind::Handle => {
            plan.exception_name(plan.internal_number(entry.place), entry.arg)
        }
        Kind::Verdict | Kind::Abort | Kind::End => told_name(plan, entry).unwrap_or(b""),
        Kind::Leave => carried_name(plan, entry).unwrap_or(b""),
        Kind::Arrive
        | Kind::Withdraw
        | Kind::Start
        | Kind::Work
        | Kind::Check
        | Kind::Inform
        | Kind::Undo => b"",
    }
}

/// Writes the line of an entry into room, from `at` on, and gives where it ends. What stands before it stays; what stands behind it
/// may have been written over.
pub(crate) fn write_entry(room: &mut [u8], at: usize, plan: &Plan, entry: &Entry) -> usize
    requires formed { IsWellFormed plan.now entry.now }
    requires room { Fits at (entry_line plan.now entry.now) room.old }
    ensures at { result ≡ at + length (entry_line plan.now entry.now) }
    ensures written { take result room.new ≡ take at room.old ++ entry_line plan.now entry.now }
    ensures kept { length room.new ≡ length room.old }
{
    let at = put_bytes(room, at, kind_word(entry.kind));
    let at = put_number(room, at, u64::from(entry.place));
    let at = put_word(room, at, plan.participant_name(entry.by));
    let at = put_fields(room, at, plan, entry);
    put_line_end(room, at)
}

/// What an entry says beside its kind, its place and its maker.
fn put_fields(room: &mut [u8], at: usize, plan: &Plan, entry: &Entry) -> usize
    requires formed { IsWellFormed plan.now entry.now }
    requires room { Fits at (spaced (field_words entry.now.kind plan.now entry.now)) room.old }
    ensures at { result ≡ at + length (spaced (field_words entry.now.kind plan.now entry.now)) }
    ensures written { take result room.new ≡ take at room.old ++ spaced (field_words entry.now.kind plan.now entry.now) }
    ensures kept { length room.new ≡ length room.old }
{
    match entry.kind {
        Kind::Read | Kind::Write | Kind::PutFault => {
            put_object(room, at, plan, entry.arg, entry.value)
        }
        Kind::Work => {
            let at = put_number(room, at, u64::from(entry.arg));
            put_value(room, at, entry.value)
        }
        Kind::Raise | Kind::Resolve | Kind::Handle => {
            put_internal(room, at, plan, entry.place, entry.arg)
        }
        Kind::Verdict => put_verdict(room, at, plan, entry.place, verdict_at(entry)),
        Kind::Abort => put_name(room, at, told_name(plan, entry)),
        Kind::Restore => put_restore(room, at, plan, entry),
        Kind::End => put_outcome(room, at, plan, entry.place, outcome_at(entry)),
        Kind::Leave => put_name(room, at, carried_name(plan, entry)),
        Kind::Arrive | Kind::Withdraw | Kind::Start | Kind::Check | Kind::Inform | Kind::Undo => at,
    }
}

/// The name of an object and its value.
fn put_object(room: &mut [u8], at: usize, plan: &Plan, object: Object, value: i64) -> usize
    requires { Fits at (spaced (object_words plan.now object value)) room.old }
    ensures at { result ≡ at + length (spaced (object_words plan.now object value)) }
    ensures written { take result room.new ≡ take at room.old ++ spaced (object_words plan.now object value) }
    ensures kept { length room.new ≡ length room.old }
{
    let at = put_word(room, at, object_name(plan, object));
    put_value(room, at, value)
}

/// The name of an exception that is raised in a place.
fn put_internal(
    room: &mut [u8],
    at: usize,
    plan: &Plan,
    place: Place,
    exception: Exception,
) -> usize
    requires { Fits at (spaced (internal_name plan.now place exception ∷ [])) room.old }
    ensures at { result ≡ at + length (spaced (internal_name plan.now place exception ∷ [])) }
    ensures written { take result room.new ≡ take at room.old ++ spaced (internal_name plan.now place exception ∷ []) }
    ensures kept { length room.new ≡ length room.old }
{
    put_word(
        room,
        at,
        plan.exception_name(plan.internal_number(place), exception),
    )
}

/// The name of an exception that a place tells outside.
fn put_interface(
    room: &mut [u8],
    at: usize,
    plan: &Plan,
    place: Place,
    exception: Exception,
) -> usize
    requires { Fits at (spaced (interface_name plan.now place exception ∷ [])) room.old }
    ensures at { result ≡ at + length (spaced (interface_name plan.now place exception ∷ [])) }
    ensures written { take result room.new ≡ take at room.old ++ spaced (interface_name plan.now place exception ∷ []) }
    ensures kept { length room.new ≡ length room.old }
{
    put_word(
        room,
        at,
        plan.exception_name(plan.interface_number(place), exception),
    )
}

/// A name, if there is one.
fn put_name(room: &mut [u8], at: usize, name: Option<&[u8]>) -> usize
    requires { Fits at (spaced (name_words (option_copied name))) room.old }
    ensures at { result ≡ at + length (spaced (name_words (option_copied name.entry))) }
    ensures written { take result room.new ≡ take at room.old ++ spaced (name_words (option_copied name.entry)) }
    ensures kept { length room.new ≡ length room.old }
{
    match name {
        Some(name) => put_word(room, at, name),
        None => at,
    }
}

/// The object and the value of a restore, and whether the device took it.
fn put_restore(room: &mut [u8], at: usize, plan: &Plan, entry: &Entry) -> usize
    requires { Fits at (spaced (object_words plan.now entry.now.arg entry.now.value ++ restore_word entry.now.mark ∷ [])) room.old }
    ensures at { result
        ≡ at + length (spaced (object_words plan.now entry.now.arg entry.now.value ++ restore_word entry.now.mark ∷ [])) }
    ensures written { take result room.new
        ≡ take at room.old ++ spaced (object_words plan.now entry.now.arg entry.now.value ++ restore_word entry.now.mark ∷ []) }
    ensures kept { length room.new ≡ length room.old }
{
    let at = put_object(room, at, plan, entry.arg, entry.value);
    if entry.mark == 0 {
        put_word(room, at, b"well")
    } else {
        put_word(room, at, b"failed")
    }
}

/// The words of a verdict in a place.
fn put_verdict(room: &mut [u8], at: usize, plan: &Plan, place: Place, verdict: Verdict) -> usize
    requires { Fits at (spaced (verdict_words plan.now place verdict)) room.old }
    ensures at { result ≡ at + length (spaced (verdict_words plan.now place verdict)) }
    ensures written { take result room.new ≡ take at room.old ++ spaced (verdict_words plan.now place verdict) }
    ensures kept { length room.new ≡ length room.old }
{
    match verdict {
        Verdict::Done => put_word(room, at, b"done"),
        Verdict::Signal(exception) => {
            let at = put_word(room, at, b"signal");
            put_interface(room, at, plan, place, exception)
        }
        Verdict::Undo => put_word(room, at, b"undo"),
    }
}

/// The words of an outcome of a place.
fn put_outcome(room: &mut [u8], at: usize, plan: &Plan, place: Place, outcome: Outcome) -> usize
    requires { Fits at (spaced (outcome_words plan.now place outcome)) room.old }
    ensures at { result ≡ at + length (spaced (outcome_words plan.now place outcome)) }
    ensures written { take result room.new ≡ take at room.old ++ spaced (outcome_words plan.now place outcome) }
    ensures kept { length room.new ≡ length room.old }
{
    match outcome {
        Outcome::Commit => put_word(room, at, b"commit"),
        Outcome::Signal(exception) => {
            let at = put_word(room, at, b"signal");
            put_interface(room, at, plan, place, exception)
        }
        Outcome::Undone => put_word(room, at, b"undone"),
        Outcome::Aborted => put_word(room, at, b"aborted"),
        Outcome::Failed => put_word(room, at, b"failed"),
    }
}
