//! The entry whose line a text begins with, read token after token.
//!
//! Behind its kind, its place and its maker an entry says what its kind says further, up to the end of its line. So an entry that says
//! nothing yet is handed from token to token, and gets what each one says.

ghost use Rattle.std.specs.Prelude.{◌≡◌, ◌<◌, ◌≤◌, ◌∷◌, [], ◌++◌, true, length, decimal, option_map};
ghost use Rattle.std.specs.Fmt.{signed_decimal};
ghost use Rattle.caa_base.specs.Written.Limits.{IsValue, most_count};
ghost use Rattle.place_plan.specs.Plans.Places.{parent, graph_at, interface_of, exception_name};
ghost use Rattle.place_plan.specs.RulesOfJournals.Rules.{IsPlain};
ghost use Rattle.place_plan.specs.RulesOfJournals.Roles.{verdict_at};
ghost use Rattle.place_plan.specs.RulesOfJournals.Whereabouts.{outcome_at};
ghost use Rattle.place_plan.specs.RulesOfJournals.WellFormed.{ShowsObject, ShowsException, MayShowException, MayCarry, FieldsFit};
ghost use Rattle.journal_text.specs.Texts.Naming.{is_well_named};
ghost use Rattle.journal_text.specs.Texts.Text.{object_words, restore_word, verdict_words, outcome_words, marked_name, carried_name, name_words, field_words};
ghost use Rattle.journal_text.specs.inner.TextSteps.{EntryFound};
ghost use Rattle.journal_text.specs.inner.Tokens.{IsOf, VerdictFits, OutcomeFits, TokenRead, LineRead};

use crate::texts::kind_tokens::kind_at;
use crate::texts::name_tokens::{exception_at, object_at, participant_at};
use crate::texts::tokens::{after_byte, after_front, after_word, number_at, value_at};
use caa_base::written::entry::{Entry, Kind, Outcome, Place, Verdict};
use caa_base::written::limits::MOST_COUNT;
use place_plan::plans::plan::Plan;

/// The well-formed entry whose line a text begins with, and the rest of the text.
pub fn entry_at<'a>(plan: &Plan, text: &'a [u8]) -> Option<(Entry, &'a [u8])>
    requires { is_well_named plan.now ≡ true }
    ensures { EntryFound plan.now text.now (option_map (λ r. (r.0, r.1.now)) result) }
{
    plan.places();
    let (kind, text) = kind_at(text)?;
    let (place, text) = place_at(plan, text)?;
    let (by, text) = participant_at(plan, text)?;
    let maker = Entry {
        kind,
        place,
        by,
        arg: 0,
        mark: 0,
        value: 0,
    };
    with_rest(plan, maker, text)
}

/// The place whose number stands after a space.
#[inline(always)]
fn place_at<'a>(plan: &Plan, text: &'a [u8]) -> Option<(Place, &'a [u8])>
    ensures { TokenRead (λ r. r.now) (λ p. p < length plan.now.places) (λ p. 32 ∷ decimal p) text.now result }
{
    let places = u64::from(plan.places());
    let (place, rest) = number_at(text, places)?;
    if place < places {
        Some((place as u32, rest))
    } else {
        None
    }
}

/// The entry with what the rest of its line says, by its kind.
#[inline(always)]
fn with_rest<'a>(plan: &Plan, maker: Entry, text: &'a [u8]) -> Option<(Entry, &'a [u8])>
    requires named { is_well_named plan.now ≡ true }
    requires plain { IsPlain maker }
    ensures { LineRead (λ r. r.now) (λ e. IsOf maker e × FieldsFit maker.kind plan.now e) (λ e. field_words maker.kind plan.now e)
        text.now result }
{
    match maker.kind {
        Kind::Read | Kind::Write | Kind::PutFault => with_object(plan, maker, text),
        Kind::Work => with_work(maker, text),
        Kind::Arrive | Kind::Withdraw | Kind::Start | Kind::Check | Kind::Inform | Kind::Undo => {
            with_nothing(maker, text)
        }
        Kind::Raise | Kind::Resolve | Kind::Handle => {
            with_exception(plan, maker, plan.internal_number(maker.place), text)
        }
        Kind::Verdict => with_verdict(plan, maker, text),
        Kind::Abort => with_name(plan, maker, plan.interface_number(maker.place), text),
        Kind::Restore => with_restore(plan, maker, text),
        Kind::End => with_outcome(plan, maker, text),
        Kind::Leave => with_carried(plan, maker, text),
    }
}

/// The entry as it is, where its line ends here.
#[inline(always)]
fn with_nothing<'a>(maker: Entry, text: &'a [u8]) -> Option<(Entry, &'a [u8])>
    requires { IsPlain maker }
    ensures { LineRead (λ r. r.now) (λ e. IsOf maker e × IsPlain e) (λ _. []) text.now result }
{
    Some((maker, after_byte(text, b'\n')?))
}

/// The entry with an object and its value.
#[inline(always)]
fn with_object<'a>(plan: &Plan, maker: Entry, text: &'a [u8]) -> Option<(Entry, &'a [u8])>
    requires named { is_well_named plan.now ≡ true }
    requires plain { IsPlain maker }
    ensures { LineRead (λ r. r.now) (λ e. IsOf maker e × (ShowsObject plan.now e × (e.mark ≡ 0)))
        (λ e. object_words plan.now e.arg e.value) text.now result }
{
    let (arg, text) = object_at(plan, text)?;
    let (value, text) = value_at(text)?;
    let text = after_byte(text, b'\n')?;
    Some((
        Entry {
            arg,
            value,
            ..maker
        },
        text,
    ))
}

/// The entry with a number of rounds and a result.
#[inline(always)]
fn with_work<'a>(maker: Entry, text: &'a [u8]) -> Option<(Entry, &'a [u8])>
    requires { IsPlain maker }
    ensures { LineRead (λ r. r.now) (λ e. IsOf maker e × ((e.arg ≤ most_count) × (e.mark ≡ 0) × IsValue e.value))
        (λ e. decimal e.arg ∷ signed_decimal e.value ∷ []) text.now result }
{
    let (rounds, text) = number_at(text, u64::from(MOST_COUNT))?;
    let (value, text) = value_at(text)?;
    let text = after_byte(text, b'\n')?;
    let arg = rounds as u32;
    Some((
        Entry {
            arg,
            value,
            ..maker
        },
        text,
    ))
}

/// The entry with an exception of this graph.
fn with_exception<'a>(
    plan: &Plan,
    maker: Entry,
    graph: u32,
    text: &'a [u8],
) -> Option<(Entry, &'a [u8])>
    requires named { is_well_named plan.now ≡ true }
    requires plain { IsPlain maker }
    ensures { LineRead (λ r. r.now) (λ e. IsOf maker e × ShowsException (graph_at plan.now graph) e)
        (λ e. exception_name plan.now graph e.arg ∷ []) text.now result }
{
    let (arg, text) = exception_at(plan, graph, text)?;
    let text = after_byte(text, b'\n')?;
    Some((Entry { arg, ..maker }, text))
}

/// The entry with an exception of this graph, or with nothing.
fn with_name<'a>(plan: &Plan, maker: Entry, graph: u32, text: &'a [u8]) -> Option<(Entry, &'a [u8])>
    requires named { is_well_named plan.now ≡ true }
    requires plain { IsPlain maker }
    ensures { LineRead (λ r. r.now) (λ e. IsOf maker e × MayShowException (graph_at plan.now graph) 1 2 e)
        (λ e. name_words (marked_name plan.now graph e)) text.now result }
{
    if let Some(text) = after_byte(text, b'\n') {
        return Some((maker, text));
    }
    let (arg, text) = exception_at(plan, graph, text)?;
    let text = after_byte(text, b'\n')?;
    Some((
        Entry {
            arg,
            mark: 1,
            ..maker
        },
        text,
    ))
}

/// The entry with an exception that is carried into the place round its own, or with nothing.
fn with_carried<'a>(plan: &Plan, maker: Entry, text: &'a [u8]) -> Option<(Entry, &'a [u8])>
    requires named { is_well_named plan.now ≡ true }
    requires plain { IsPlain maker }
    ensures { let outer = parent plan.now maker.place in
        LineRead (λ r. r.now) (λ e. IsOf maker e × MayCarry plan.now outer e) (λ e. name_words (carried_name plan.now outer e))
        text.now result }
{
    match plan.parent(maker.place) {
        Some(outer) => with_name(plan, maker, plan.internal_number(outer), text),
        None => with_nothing(maker, text),
    }
}

/// The entry with the object of a restore, its value, and whether the device took it.
fn with_restore<'a>(plan: &Plan, maker: Entry, text: &'a [u8]) -> Option<(Entry, &'a [u8])>
    requires named { is_well_named plan.now ≡ true }
    requires plain { IsPlain maker }
    ensures { LineRead (λ r. r.now) (λ e. IsOf maker e × (ShowsObject plan.now e × (e.mark < 2)))
        (λ e. object_words plan.now e.arg e.value ++ restore_word e.mark ∷ []) text.now result }
{
    let (arg, text) = object_at(plan, text)?;
    let (value, text) = value_at(text)?;
    let (mark, text) = taken_at(text)?;
    let text = after_byte(text, b'\n')?;
    Some((
        Entry {
            arg,
            mark,
            value,
            ..maker
        },
        text,
    ))
}

/// Whether the device took a restore, as a mark, after a space.
fn taken_at(text: &[u8]) -> Option<(u32, &[u8])>
    ensures { TokenRead (λ r. r.now) (λ m. m < 2) (λ m. 32 ∷ restore_word m) text.now result }
{
    if let Some(rest) = after_word(text, b" well") {
        return Some((0, rest));
    }
    Some((1, after_word(text, b" failed")?))
}

/// The entry with a verdict in its place.
fn with_verdict<'a>(plan: &Plan, maker: Entry, text: &'a [u8]) -> Option<(Entry, &'a [u8])>
    requires named { is_well_named plan.now ≡ true }
    requires plain { IsPlain maker }
    ensures { LineRead (λ r. r.now) (λ e. IsOf maker e × MayShowException (interface_of plan.now maker.place) 1 3 e)
        (λ e. verdict_words plan.now maker.place (verdict_at e)) text.now result }
{
    let (verdict, text) = verdict_of_line(plan, maker.place, text)?;
    let (mark, arg) = verdict.mark();
    Some((Entry { arg, mark, ..maker }, text))
}

/// A verdict in a place, up to the end of the line.
fn verdict_of_line<'a>(plan: &Plan, place: Place, text: &'a [u8]) -> Option<(Verdict, &'a [u8])>
    requires { is_well_named plan.now ≡ true }
    ensures { LineRead (λ r. r.now) (VerdictFits (interface_of plan.now place).count) (λ v. verdict_words plan.now place v)
        text.now result }
{
    if let Some(rest) = after_front(text, b" done\n") {
        return Some((Verdict::Done, rest));
    }
    if let Some(rest) = after_front(text, b" undo\n") {
        return Some((Verdict::Undo, rest));
    }
    let text = after_front(text, b" signal")?;
    let (exception, text) = exception_at(plan, plan.interface_number(place), text)?;
    Some((Verdict::Signal(exception), after_byte(text, b'\n')?))
}

/// The entry with an outcome of its place.
fn with_outcome<'a>(plan: &Plan, maker: Entry, text: &'a [u8]) -> Option<(Entry, &'a [u8])>
    requires named { is_well_named plan.now ≡ true }
    requires plain { IsPlain maker }
    ensures { LineRead (λ r. r.now) (λ e. IsOf maker e × MayShowException (interface_of plan.now maker.place) 1 5 e)
        (λ e. outcome_words plan.now maker.place (outcome_at e)) text.now result }
{
    let (outcome, text) = outcome_of_line(plan, maker.place, text)?;
    let (mark, arg) = outcome.mark();
    Some((Entry { arg, mark, ..maker }, text))
}

/// An outcome of a place, up to the end of the line.
fn outcome_of_line<'a>(plan: &Plan, place: Place, text: &'a [u8]) -> Option<(Outcome, &'a [u8])>
    requires { is_well_named plan.now ≡ true }
    ensures { LineRead (λ r. r.now) (OutcomeFits (interface_of plan.now place).count) (λ o. outcome_words plan.now place o)
        text.now result }
{
    if let Some(rest) = after_front(text, b" commit\n") {
        return Some((Outcome::Commit, rest));
    }
    if let Some(rest) = after_front(text, b" undone\n") {
        return Some((Outcome::Undone, rest));
    }
    if let Some(rest) = after_front(text, b" aborted\n") {
        return Some((Outcome::Aborted, rest));
    }
    if let Some(rest) = after_front(text, b" failed\n") {
        return Some((Outcome::Failed, rest));
    }
    let text = after_front(text, b" signal")?;
    let (exception, text) = exception_at(plan, plan.interface_number(place), text)?;
    Some((Outcome::Signal(exception), after_byte(text, b'\n')?))
}
