//! What the rules ask of a past, put together from what is kept of it, whatever that is.

ghost use Rattle.std.specs.Prelude.{◌≡◌, ◌<◌, ◌&&◌, List, not, length, is_none, option_copied, Some};
ghost use Rattle.caa_base.specs.declared.written.entry.Entry.{Entry as EntryValue};
ghost use Rattle.caa_base.specs.declared.written.entry.Kind.TheVariants as kind;
ghost use Rattle.caa_base.specs.Written.Lists.{same_option, first_not};
ghost use Rattle.place_plan.specs.Plans.Places.{parent, alternates_of, next_alternate};
ghost use Rattle.place_plan.specs.RulesOfJournals.Entries.{is_by, is_in, newest};
ghost use Rattle.place_plan.specs.RulesOfJournals.Whereabouts.{inside, is_inside, all_are_inside, has_ended, is_left_in_silence};
ghost use Rattle.place_plan.specs.RulesOfJournals.Raising.{has_handled, is_raised, all_are_halted};
ghost use Rattle.place_plan.specs.RulesOfJournals.Objects.{holder_of, objects_are_ready};
ghost use Rattle.place_plan.specs.RulesOfJournals.Roles.{register, or_idle, program_of, next_step, all_have_given, all_have_aborted, gathers, is_over};
ghost use Rattle.place_plan.specs.RulesOfJournals.Rules.{abort_mapped, mapped_by_outcome, is_deaf, exception_carried};
ghost use Rattle.journal_replay.specs.PastParts.{plan_of, entries_of};
ghost use Rattle.journal_replay.specs.Questions.{outcome_of_end, name_of_abort};
ghost use Rattle.journal_replay.specs.inner.Composed.{tells_undone, name_mapped, mapped_if_ended};

use crate::past::Past;
use crate::programs::{program_in, step_at};
use crate::records::Records;
use caa_base::written::entry::{Entry, Exception, Kind, Object, Outcome, Participant, Place};
use place_plan::drafts::draft_rows::{Program, Step};
use place_plan::plans::plan::Plan;

// ---- where participants are

/// Whether a participant is in this place, and in none inside it.
fn is_inside<R: Records>(past: &Past<'_, R>, place: Place, by: Participant) -> bool
    ensures { result ≡ is_inside (plan_of past.now) (entries_of past.now) place by }
{
    R::inside(past, by) == Some(place)
}

/// Whether each role of a place is in it.
pub fn all_are_inside<R: Records>(past: &Past<'_, R>, place: Place) -> bool
    ensures { result ≡ all_are_inside (plan_of past.now) (entries_of past.now) place }
{
    past.plan
        .roles_of(place)
        .iter()
        .all(|by| is_inside(past, place, *by))
}

/// Whether there is neither of two places.
fn is_neither(one: Option<Place>, other: Option<Place>) -> bool
    ensures { result ≡ (is_none one && is_none other) }
{
    one.is_none() && other.is_none()
}

/// Whether a participant is through with all its plays.
pub fn is_over<R: Records>(past: &Past<'_, R>, by: Participant) -> bool
    ensures { result ≡ is_over (plan_of past.now) (entries_of past.now) by }
{
    past.plan.is_closed();
    is_neither(R::inside(past, by), R::next_play(past, by))
}

/// The first place of a nested use, in order, that hasn't ended. Who comes to the use in a calm place enters it.
pub fn first_lasting<R: Records>(past: &Past<'_, R>, place: Place, nest: u32) -> Option<Place>
    ensures { result ≡ first_not (has_ended (entries_of past.now)) (alternates_of (plan_of past.now) place nest) }
{
    for alternate in past.plan.alternates_of(place, nest) {
        if !R::course_of(past, *alternate).has_ended {
            return Some(*alternate);
        }
    }
    None
}

// ---- objects

/// Whether a place holds an object.
#[inline(always)]
pub fn holds<R: Records>(past: &Past<'_, R>, place: Place, object: Object) -> bool
    requires known { object < length (plan_of past.now).objects }
    ensures { result ≡ same_option (holder_of (plan_of past.now) (entries_of past.now) object) (Some place) }
{
    R::holder_of(past, object) == Some(place)
}

/// Whether the place round this one, or nobody for a play, holds an object.
fn is_ready<R: Records>(past: &Past<'_, R>, place: Place, object: Object) -> bool
    ensures { result ≡ same_option (holder_of (plan_of past.now) (entries_of past.now) object) (parent (plan_of past.now) place) }
{
    past.plan.is_closed();
    let outer = past.plan.parent(place);
    if object < past.plan.objects() {
        R::holder_of(past, object) == outer
    } else {
        outer.is_none()
    }
}

/// Whether the place round this one, or nobody for a play, holds each of its objects.
pub fn objects_are_ready<R: Records>(past: &Past<'_, R>, place: Place) -> bool
    ensures { result ≡ objects_are_ready (plan_of past.now) (entries_of past.now) place }
{
    past.plan
        .objects_of(place)
        .iter()
        .all(|object| is_ready(past, place, *object))
}

// ---- steps

/// The program that a participant goes through in the place that it is in.
pub fn program_of<'a, R: Records>(
    past: &Past<'a, R>,
    place: Place,
    by: Participant,
) -> Option<&'a Program>
    requires here { inside (plan_of past.now) (entries_of past.now) by ≡ Some place }
    ensures { or_idle (option_copied result) ≡ program_of (plan_of past.now) (entries_of past.now) place by }
{
    program_in(
        past.plan,
        place,
        by,
        R::progress_of(past, place, by).handled,
    )
}

/// The next step of a participant in the place that it is in, and its register there.
#[inline(always)]
pub fn step_and_register<R: Records>(
    past: &Past<'_, R>,
    place: Place,
    by: Participant,
) -> (Option<Step>, i64)
    requires here { inside (plan_of past.now) (entries_of past.now) by ≡ Some place }
    ensures step { result.0 ≡ next_step (plan_of past.now) (entries_of past.now) place by }
    ensures register { result.1 ≡ register (plan_of past.now) (entries_of past.now) place by }
{
    let progress = R::progress_of(past, place, by);
    let step = step_at(past.plan, place, by, progress.handled, progress.position);
    (step, progress.register)
}

/// Whether a participant has begun its handler in the place that it is in.
#[tactic(auto, using(crate::proofs::Found::handled_told))]
pub fn has_handled<R: Records>(past: &Past<'_, R>, place: Place, by: Participant) -> bool
    requires here { inside (plan_of past.now) (entries_of past.now) by ≡ Some place }
    ensures { result ≡ has_handled (entries_of past.now) place by }
{
    R::progress_of(past, place, by).handled.is_some()
}

// ---- agreement

/// Whether each role of a place was halted.
pub fn all_are_halted<R: Records>(past: &Past<'_, R>, place: Place) -> bool
    ensures { result ≡ all_are_halted (plan_of past.now) (entries_of past.now) place }
{
    past.plan
        .roles_of(place)
        .iter()
        .all(|by| R::is_halted(past, place, *by))
}

/// Whether each role of a place has given its verdict; `raised` says whether something was raised there.
pub fn all_have_given<R: Records>(past: &Past<'_, R>, place: Place, raised: bool) -> bool
    requires raised { raised ≡ is_raised (plan_of past.now) (entries_of past.now) place }
    ensures { result ≡ all_have_given (plan_of past.now) (entries_of past.now) place }
{
    past.plan
        .roles_of(place)
        .iter()
        .all(|by| R::has_given(past, place, *by, raised))
}

/// Whether each role of a place has given up.
pub fn all_have_aborted<R: Records>(past: &Past<'_, R>, place: Place) -> bool
    ensures { result ≡ all_have_aborted (plan_of past.now) (entries_of past.now) place }
{
    past.plan
        .roles_of(place)
        .iter()
        .all(|by| R::has_aborted(past, place, *by))
}

/// Whether the last entry gathers the roles of its place, for one of the kinds with which they wait for each other. Others do.
pub fn gathers<R: Records>(past: &Past<'_, R>, entry: &Entry) -> bool
    ensures { result ≡ gathers (plan_of past.now) (entries_of past.now) entry.now.place entry.now.kind }
{
    let place = entry.place;
    match entry.kind {
        Kind::Arrive => all_are_inside(past, place),
        Kind::Inform => all_are_halted(past, place),
        Kind::Verdict => all_have_given(past, place, R::course_of(past, place).is_raised),
        Kind::Abort => all_have_aborted(past, place),
        _ => true,
    }
}

// ---- what is carried out of a place

/// Whether an outcome says that all was undone.
fn tells_undone(outcome: Option<Outcome>) -> bool
    ensures { result ≡ tells_undone outcome }
{
    matches!(outcome, Some(Outcome::Undone))
}

/// Whether another alternate is tried after a place.
fn has_another(plan: &Plan, place: Place) -> bool
    ensures { result ≡ not (is_none (next_alternate plan.now place)) }
{
    plan.next_alternate(place).is_some()
}

/// Whether one test passes, and another one.
fn are_both(one: bool, other: bool) -> bool
    ensures { result ≡ (one && other) }
{
    one && other
}

/// Whether a place that has ended so, if it has, is left in silence: it was undone, and another alternate is left.
pub fn ends_in_silence(plan: &Plan, place: Place, outcome: Option<Outcome>) -> bool
    ensures { (past : List EntryValue) → outcome ≡ outcome_of_end (newest (is_in kind.End place) past) → result ≡ is_left_in_silence plan.now past place }
{
    are_both(tells_undone(outcome), has_another(plan, place))
}

/// Whether a place is left in silence.
fn is_left_in_silence<R: Records>(past: &Past<'_, R>, place: Place) -> bool
    ensures { result ≡ is_left_in_silence (plan_of past.now) (entries_of past.now) place }
{
    ends_in_silence(past.plan, place, R::outcome_of(past, place))
}

/// Whether nothing is carried into the place round another: there is none, or it is doomed.
fn is_deaf<R: Records>(past: &Past<'_, R>, outer: Option<Place>) -> bool
    ensures { result ≡ is_deaf (plan_of past.now) (entries_of past.now) outer }
{
    match outer {
        Some(outer) => R::is_doomed(past, outer),
        None => true,
    }
}

/// What the abort of a participant is in the place round this one.
fn abort_mapped<R: Records>(past: &Past<'_, R>, place: Place, by: Participant) -> Option<Exception>
    requires here { inside (plan_of past.now) (entries_of past.now) by ≡ Some place }
    ensures { result ≡ name_mapped (plan_of past.now) place (name_of_abort (newest (is_by kind.Abort place by) (entries_of past.now))) }
{
    match R::name_of(past, place, by) {
        Some(exception) => Some(past.plan.map_signal(place, exception)),
        None => None,
    }
}

/// What an outcome of a place means for a participant in the place round it.
fn mapped_by_outcome<R: Records>(
    past: &Past<'_, R>,
    place: Place,
    by: Participant,
    outcome: Outcome,
) -> Option<Exception>
    requires here { inside (plan_of past.now) (entries_of past.now) by ≡ Some place }
    ensures { result ≡ mapped_by_outcome (plan_of past.now) place (newest (is_by kind.Abort place by) (entries_of past.now)) outcome }
{
    match outcome {
        Outcome::Commit => None,
        Outcome::Signal(exception) => Some(past.plan.map_signal(place, exception)),
        Outcome::Undone => Some(past.plan.map_undo(place)),
        Outcome::Aborted => abort_mapped(past, place, by),
        Outcome::Failed => Some(past.plan.map_failure(place)),
    }
}

/// What the outcome of a place means for a participant in the place round it; nothing where it hasn't ended.
fn mapped_if_ended<R: Records>(
    past: &Past<'_, R>,
    place: Place,
    by: Participant,
) -> Option<Exception>
    requires here { inside (plan_of past.now) (entries_of past.now) by ≡ Some place }
    ensures { result ≡ mapped_if_ended (plan_of past.now) place (newest (is_by kind.Abort place by) (entries_of past.now)) (outcome_of_end (newest (is_in kind.End place) (entries_of past.now))) }
{
    match R::outcome_of(past, place) {
        Some(outcome) => mapped_by_outcome(past, place, by, outcome),
        None => None,
    }
}

/// What a participant carries out of the place that it is in, if it carries something.
pub fn exception_carried<R: Records>(
    past: &Past<'_, R>,
    place: Place,
    by: Participant,
) -> Option<Exception>
    requires here { inside (plan_of past.now) (entries_of past.now) by ≡ Some place }
    ensures { result ≡ exception_carried (plan_of past.now) (entries_of past.now) place by }
{
    if is_deaf(past, past.plan.parent(place)) || is_left_in_silence(past, place) {
        None
    } else {
        mapped_if_ended(past, place, by)
    }
}
