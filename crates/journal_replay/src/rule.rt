ghost use Rattle.std.specs.Prelude.{◌≡◌, ◌<◌, ◌+ℤ◌, true, false, not, is_none, length, reverse, Some, None};
ghost use Rattle.caa_base.specs.declared.written.entry.Kind.TheVariants as kind;
ghost use Rattle.caa_base.specs.Written.Limits.{IsValue};
ghost use Rattle.caa_base.specs.Written.Lists.{first_not};
ghost use Rattle.place_plan.specs.declared.drafts.draft_rows.Step.TheVariants as step;
ghost use Rattle.place_plan.specs.Plans.Places.{roles_of, handler_of, abort_row, alternates_of, internal_of};
ghost use Rattle.place_plan.specs.RulesOfJournals.Entries.{has_by};
ghost use Rattle.place_plan.specs.RulesOfJournals.Whereabouts.{inside, has_started, has_ended, is_undoing};
ghost use Rattle.place_plan.specs.RulesOfJournals.Raising.{has_handled, exceptions_raised, is_raised, is_doomed, is_calm, exception_resolved};
ghost use Rattle.place_plan.specs.RulesOfJournals.Objects.{value_of, next_restore};
ghost use Rattle.place_plan.specs.RulesOfJournals.Roles.{register, program_of, next_step, next_play, raise_of, all_have_given, signals};
ghost use Rattle.place_plan.specs.RulesOfJournals.Rules.{clamped, abort_of, undone_mark};
ghost use Rattle.place_plan.specs.RulesOfJournals.Journals.{IsLegal};
ghost use Rattle.journal_laws.specs.Due.{says, plainly, marked, naming, verdict_entry, least_of, due_arrival, due_waiting, due_restore, due_doomed, due_end, due_agreed, due_held, due_step, due_forward, due_handler, due_resolved, due_halted, due_hot, due_calm, due_inside, due_of};
ghost use Rattle.journal_replay.specs.PastParts.{plan_of, entries_of};
ghost use Rattle.journal_replay.specs.IsDue.{IsDue};
ghost use Rattle.journal_replay.specs.Moves.{lack_of, lack_of_step, lack_at_work, lack_going, IsMove};
ghost use Rattle.journal_replay.specs.declared.moves.Lack.TheVariants as lack;
ghost use Rattle.journal_replay.specs.inner.Deciding.{entry_in, waits_for, enters, IsRight};

use crate::answer::Due;
use crate::look_back::LookBack;
use crate::look_back::roles::{meets, raise_of};
use crate::moves::{Lack, Move, Wait, Work, refused};
use crate::past::Past;
use crate::questions::{
    all_are_halted, all_are_inside, all_have_aborted, all_have_given, exception_carried,
    first_lasting, has_handled, holds, objects_are_ready, program_of, step_and_register,
};
use crate::records::Records;
use caa_base::written::entry::{
    Entry, Exception, Kind, Object, Outcome, Participant, Place, Verdict,
};
use caa_base::written::journal::Journal;
use caa_base::written::limits::MOST_VALUE;
use journal_laws::{due_is_right, is_well_formed};
use place_plan::drafts::draft_rows::{AbortRow, Step};
use place_plan::plans::plan::Plan;

// ---- what an entry says

/// An entry with mark 0.
#[inline(always)]
fn says(kind: Kind, place: Place, by: Participant, arg: u32, value: i64) -> Entry
    ensures { result ≡ says kind place by arg value }
{
    Entry {
        kind,
        place,
        by,
        arg,
        mark: 0,
        value,
    }
}

/// An entry whose further fields are 0.
#[inline(always)]
fn plainly(kind: Kind, place: Place, by: Participant) -> Entry
    ensures { result ≡ plainly kind place by }
{
    says(kind, place, by, 0, 0)
}

/// An entry with this mark and this exception.
fn marked(kind: Kind, place: Place, by: Participant, mark: u32, arg: u32) -> Entry
    ensures { result ≡ marked kind place by mark arg }
{
    Entry {
        kind,
        place,
        by,
        arg,
        mark,
        value: 0,
    }
}

/// An entry that names an exception, or none.
fn naming(kind: Kind, place: Place, by: Participant, exception: Option<Exception>) -> Entry
    ensures entry { result ≡ naming kind place by exception }
    ensures kind { result.kind ≡ kind }
{
    match exception {
        Some(exception) => marked(kind, place, by, 1, exception),
        None => plainly(kind, place, by),
    }
}

/// The entry that says this verdict.
fn verdict_entry(place: Place, by: Participant, verdict: Verdict) -> Entry
    ensures entry { result ≡ verdict_entry place by verdict }
    ensures kind { result.kind ≡ kind.Verdict }
{
    let (mark, exception) = verdict.mark();
    marked(Kind::Verdict, place, by, mark, exception)
}

/// The wait of a participant in the place where this is lacking.
#[inline(always)]
fn lacking(place: Place, lack: Lack) -> Move
    ensures { result ≡ waits_for place lack }
{
    Move::Wait(Wait { place, lack })
}

// ---- a place that waits, or is undone

/// What a participant does in a place that waits.
#[inline(never)]
fn due_waiting<R: Records>(past: &Past<'_, R>, place: Place, by: Participant) -> Move
    requires here { inside (plan_of past.now) (entries_of past.now) by ≡ Some place }
    requires waits { has_started (entries_of past.now) place ≡ false }
    ensures entry { entry_in by result ≡ due_waiting (plan_of past.now) (entries_of past.now) place by }
    ensures right { IsRight (plan_of past.now) (entries_of past.now) by result }
{
    if R::is_doomed(past, place) {
        Move::Make(plainly(Kind::Withdraw, place, by))
    } else if !all_are_inside(past, place) {
        lacking(place, Lack::Roles)
    } else if objects_are_ready(past, place) {
        Move::Make(plainly(Kind::Start, place, by))
    } else {
        lacking(place, Lack::Objects)
    }
}

/// The mark of the end entry after an undo: failed where the device refused a restore, aborted where the roles gave up, and
/// otherwise undone, since a verdict asked for it.
fn undone_mark<R: Records>(past: &Past<'_, R>, place: Place) -> u32
    requires undoing { is_undoing (entries_of past.now) place ≡ true }
    requires lasts { has_ended (entries_of past.now) place ≡ false }
    ensures { result ≡ undone_mark (entries_of past.now) place }
{
    let outcome = if R::has_failed(past, place) {
        Outcome::Failed
    } else if R::has_aborts(past, place) {
        Outcome::Aborted
    } else {
        Outcome::Undone
    };
    outcome.mark().0
}

/// The restore that is next in a place that is undone, or its End.
#[inline(never)]
fn due_restore<R: Records>(past: &Past<'_, R>, place: Place, by: Participant) -> Move
    requires undoing { is_undoing (entries_of past.now) place ≡ true }
    requires lasts { has_ended (entries_of past.now) place ≡ false }
    ensures entry { entry_in by result ≡ due_restore (plan_of past.now) (entries_of past.now) place by (next_restore (plan_of past.now) (entries_of past.now) place) }
    ensures right { IsRight (plan_of past.now) (entries_of past.now) by result }
{
    past.plan.is_closed();
    match R::next_restore(past, place) {
        Some(object) => {
            let value = R::value_at_start(past, place, object);
            Move::Put(says(Kind::Restore, place, by, object, value))
        }
        None => Move::Make(marked(Kind::End, place, by, undone_mark(past, place), 0)),
    }
}

/// The exception that an abort names at this register.
fn abort_of(row: &AbortRow, register: i64) -> Option<Exception>
    ensures { result ≡ abort_of row.now register }
{
    match row {
        AbortRow::Never => None,
        AbortRow::Always(exception) => Some(*exception),
        AbortRow::Where {
            test,
            value,
            exception,
        } => if meets(*test, *value, register) {
            Some(*exception)
        } else {
            None
        },
    }
}

/// The exception that a participant names where it gives up in a place.
fn exception_named<R: Records>(
    past: &Past<'_, R>,
    place: Place,
    by: Participant,
) -> Option<Exception>
    requires here { inside (plan_of past.now) (entries_of past.now) by ≡ Some place }
    ensures { result ≡ abort_of (abort_row (plan_of past.now) place by) (register (plan_of past.now) (entries_of past.now) place by) }
{
    let role = past.plan.role_of(place, by)?;
    abort_of(
        past.plan.abort_row(place, role),
        R::progress_of(past, place, by).register,
    )
}

/// What a participant does in a doomed place.
#[inline(never)]
fn due_doomed<R: Records>(past: &Past<'_, R>, place: Place, by: Participant) -> Move
    requires here { inside (plan_of past.now) (entries_of past.now) by ≡ Some place }
    requires started { has_started (entries_of past.now) place ≡ true }
    requires doomed { is_doomed (plan_of past.now) (entries_of past.now) place ≡ true }
    ensures entry { entry_in by result ≡ due_doomed (plan_of past.now) (entries_of past.now) place by }
    ensures right { IsRight (plan_of past.now) (entries_of past.now) by result }
{
    if R::has_aborted(past, place, by) {
        if all_have_aborted(past, place) {
            Move::Make(plainly(Kind::Undo, place, by))
        } else {
            lacking(place, Lack::GiveUps)
        }
    } else if all_are_inside(past, place) {
        Move::Make(naming(Kind::Abort, place, by, exception_named(past, place, by)))
    } else {
        lacking(place, Lack::Roles)
    }
}

// ---- agreement

/// The End of a place whose roles have agreed on it.
fn due_end<R: Records>(past: &Past<'_, R>, place: Place, by: Participant) -> Entry
    requires agreed { all_have_given (plan_of past.now) (entries_of past.now) place ≡ true }
    ensures entry { Some result ≡ due_end (plan_of past.now) place by (signals (entries_of past.now) place (roles_of (plan_of past.now) place)) }
    ensures kind { result.kind ≡ kind.End }
{
    past.plan.is_closed();
    naming(Kind::End, place, by, R::least_signalled(past, place))
}

/// What a participant does that has given its verdict; `raised` says whether something was raised in the place.
#[inline(never)]
fn due_agreed<R: Records>(past: &Past<'_, R>, place: Place, by: Participant, raised: bool) -> Move
    requires here { inside (plan_of past.now) (entries_of past.now) by ≡ Some place }
    requires raised { raised ≡ is_raised (plan_of past.now) (entries_of past.now) place }
    requires own { lack_of (plan_of past.now) (entries_of past.now) place by ≡ Some lack.Verdicts }
    ensures entry { entry_in by result ≡ due_agreed (plan_of past.now) (entries_of past.now) place by }
    ensures right { IsRight (plan_of past.now) (entries_of past.now) by result }
{
    if !all_have_given(past, place, raised) {
        lacking(place, Lack::Verdicts)
    } else if R::wants_undo(past, place) {
        Move::Make(plainly(Kind::Undo, place, by))
    } else {
        Move::Make(due_end(past, place, by))
    }
}

// ---- steps

/// What a participant does that reads an object next.
#[inline(always)]
fn due_read<R: Records>(past: &Past<'_, R>, place: Place, by: Participant, object: Object) -> Move
    requires here { inside (plan_of past.now) (entries_of past.now) by ≡ Some place }
    requires known { object < length (plan_of past.now).objects }
    requires own { lack_of (plan_of past.now) (entries_of past.now) place by ≡ Some (lack.Object object) }
    ensures entry { entry_in by result ≡ due_held (plan_of past.now) (entries_of past.now) place object (says kind.Read place by object (value_of (plan_of past.now) (entries_of past.now) object)) }
    ensures right { IsRight (plan_of past.now) (entries_of past.now) by result }
{
    if holds(past, place, object) {
        let value = R::value_at(past, object);
        Move::Make(says(Kind::Read, place, by, object, value))
    } else {
        lacking(place, Lack::Object(object))
    }
}

/// What a participant does that puts this value next.
#[inline(always)]
fn due_write<R: Records>(
    past: &Past<'_, R>,
    place: Place,
    by: Participant,
    object: Object,
    value: i64,
) -> Move
    requires here { inside (plan_of past.now) (entries_of past.now) by ≡ Some place }
    requires known { object < length (plan_of past.now).objects }
    requires own { lack_of (plan_of past.now) (entries_of past.now) place by ≡ Some (lack.Object object) }
    ensures entry { entry_in by result ≡ due_held (plan_of past.now) (entries_of past.now) place object (says kind.Write place by object value) }
    ensures right { IsRight (plan_of past.now) (entries_of past.now) by result }
{
    if holds(past, place, object) {
        Move::Put(says(Kind::Write, place, by, object, value))
    } else {
        lacking(place, Lack::Object(object))
    }
}

/// What an add step puts: the sum, except that one above `MOST_VALUE` or below its negative becomes that limit.
fn clamped(register: i64, number: i64) -> i64
    requires register { IsValue register }
    requires number { IsValue number }
    ensures { result ≡ clamped (register +ℤ number) }
{
    (register + number).clamp(-MOST_VALUE, MOST_VALUE)
}

/// What a participant says after the last step of its program.
#[inline(never)]
fn final_verdict<R: Records>(past: &Past<'_, R>, place: Place, by: Participant) -> Entry
    requires here { inside (plan_of past.now) (entries_of past.now) by ≡ Some place }
    ensures entry { result ≡ verdict_entry place by (program_of (plan_of past.now) (entries_of past.now) place by).verdict }
    ensures kind { result.kind ≡ kind.Verdict }
{
    let verdict = match program_of(past, place, by) {
        Some(program) => program.verdict,
        None => Verdict::Done,
    };
    verdict_entry(place, by, verdict)
}

/// What a participant does at its next step, which neither raises nor enters, and after its last.
#[inline(always)]
fn due_step<R: Records>(
    past: &Past<'_, R>,
    place: Place,
    by: Participant,
    step: Option<Step>,
    from: i64,
) -> Move
    requires here { inside (plan_of past.now) (entries_of past.now) by ≡ Some place }
    requires step { step ≡ next_step (plan_of past.now) (entries_of past.now) place by }
    requires start { from ≡ register (plan_of past.now) (entries_of past.now) place by }
    requires passes { raise_of step from ≡ None }
    requires stays { enters step ≡ false }
    requires own { lack_of (plan_of past.now) (entries_of past.now) place by ≡ lack_of_step step }
    ensures entry { entry_in by result ≡ due_step (plan_of past.now) (entries_of past.now) place by step }
    ensures right { IsRight (plan_of past.now) (entries_of past.now) by result }
{
    past.plan.is_closed();
    is_well_formed(past.plan);
    match step {
        None => Move::Make(final_verdict(past, place, by)),
        Some(Step::Read(object)) => due_read(past, place, by, object),
        Some(Step::Put(object, value)) => due_write(past, place, by, object, value),
        Some(Step::Add(object, number)) => {
            let value = clamped(from, number);
            due_write(past, place, by, object, value)
        }
        Some(Step::Work(rounds)) => Move::Mix(Work {
            place,
            rounds,
            from,
        }),
        Some(Step::Check { .. }) => Move::Make(plainly(Kind::Check, place, by)),
        Some(Step::Raise(_)) | Some(Step::Enter(_)) => unreachable!(),
    }
}

/// The place of a nested use that a participant enters: the first, in order, that hasn't ended. One is left.
fn entered<R: Records>(past: &Past<'_, R>, place: Place, by: Participant, nest: u32) -> Place
    requires here { inside (plan_of past.now) (entries_of past.now) by ≡ Some place }
    requires calm { is_calm (plan_of past.now) (entries_of past.now) place ≡ true }
    requires step { next_step (plan_of past.now) (entries_of past.now) place by ≡ Some (step.Enter nest) }
    ensures { Some result ≡ first_not (λ p. has_by kind.Arrive (entries_of past.now) p by) (alternates_of (plan_of past.now) place nest) }
{
    past.plan.is_closed();
    first_lasting(past, place, nest).unwrap()
}

/// What a participant does in its body at its next step, which doesn't raise.
#[inline(always)]
fn due_forward<R: Records>(
    past: &Past<'_, R>,
    place: Place,
    by: Participant,
    step: Option<Step>,
    from: i64,
) -> Move
    requires here { inside (plan_of past.now) (entries_of past.now) by ≡ Some place }
    requires calm { is_calm (plan_of past.now) (entries_of past.now) place ≡ true }
    requires step { step ≡ next_step (plan_of past.now) (entries_of past.now) place by }
    requires start { from ≡ register (plan_of past.now) (entries_of past.now) place by }
    requires passes { raise_of step from ≡ None }
    requires own { lack_of (plan_of past.now) (entries_of past.now) place by ≡ lack_of_step step }
    ensures entry { entry_in by result ≡ due_forward (plan_of past.now) (entries_of past.now) place by step }
    ensures right { IsRight (plan_of past.now) (entries_of past.now) by result }
{
    match step {
        Some(Step::Enter(nest)) => {
            let inner = entered(past, place, by, nest);
            Move::Make(plainly(Kind::Arrive, inner, by))
        }
        _ => due_step(past, place, by, step, from),
    }
}

/// What a participant does in a calm place.
#[inline(always)]
fn due_calm<R: Records>(past: &Past<'_, R>, place: Place, by: Participant) -> Move
    requires here { inside (plan_of past.now) (entries_of past.now) by ≡ Some place }
    requires calm { is_calm (plan_of past.now) (entries_of past.now) place ≡ true }
    requires unraised { is_raised (plan_of past.now) (entries_of past.now) place ≡ false }
    requires own { lack_of (plan_of past.now) (entries_of past.now) place by ≡ lack_going (plan_of past.now) (entries_of past.now) place by }
    ensures entry { entry_in by result ≡ due_calm (plan_of past.now) (entries_of past.now) place by }
    ensures right { IsRight (plan_of past.now) (entries_of past.now) by result }
{
    if R::has_given(past, place, by, false) {
        return due_agreed(past, place, by, false);
    }
    let (step, from) = step_and_register(past, place, by);
    match raise_of(step, from) {
        Some(exception) => Move::Make(marked(Kind::Raise, place, by, 0, exception)),
        None => due_forward(past, place, by, step, from),
    }
}

// ---- recovery

/// What a participant does in its handler, which enters nowhere.
#[inline(never)]
fn due_handler<R: Records>(past: &Past<'_, R>, place: Place, by: Participant) -> Move
    requires here { inside (plan_of past.now) (entries_of past.now) by ≡ Some place }
    requires handled { has_handled (entries_of past.now) place by ≡ true }
    requires own { lack_of (plan_of past.now) (entries_of past.now) place by ≡ lack_of_step (next_step (plan_of past.now) (entries_of past.now) place by) }
    ensures entry { entry_in by result ≡ due_handler (plan_of past.now) (entries_of past.now) place by }
    ensures right { IsRight (plan_of past.now) (entries_of past.now) by result }
{
    past.plan.is_closed();
    let (step, from) = step_and_register(past, place, by);
    if R::was_refused_in_handler(past, place, by) || raise_of(step, from).is_some() {
        Move::Make(verdict_entry(place, by, Verdict::Undo))
    } else {
        due_step(past, place, by, step, from)
    }
}

/// Whether a participant has a handler for an exception.
fn has_handler(plan: &Plan, place: Place, by: Participant, exception: Exception) -> bool
    ensures { result ≡ not (is_none (handler_of plan.now place by exception)) }
{
    match plan.role_of(place, by) {
        Some(role) => plan.handler(place, role, exception).is_some(),
        None => false,
    }
}

/// What a participant does once the place is resolved to this exception.
fn due_resolved<R: Records>(
    past: &Past<'_, R>,
    place: Place,
    by: Participant,
    exception: Exception,
) -> Move
    requires here { inside (plan_of past.now) (entries_of past.now) by ≡ Some place }
    requires hot { is_raised (plan_of past.now) (entries_of past.now) place ≡ true }
    requires own { lack_of (plan_of past.now) (entries_of past.now) place by ≡ lack_at_work (plan_of past.now) (entries_of past.now) place by }
    ensures entry { entry_in by result ≡ due_resolved (plan_of past.now) (entries_of past.now) place by exception }
    ensures right { IsRight (plan_of past.now) (entries_of past.now) by result }
{
    if R::has_given(past, place, by, true) {
        due_agreed(past, place, by, true)
    } else if has_handled(past, place, by) {
        due_handler(past, place, by)
    } else if has_handler(past.plan, place, by, exception) {
        Move::Make(marked(Kind::Handle, place, by, 0, exception))
    } else {
        Move::Make(verdict_entry(place, by, Verdict::Undo))
    }
}

/// The least cover of what was raised in a place, where something was.
fn least_cover<R: Records>(past: &Past<'_, R>, place: Place) -> Exception
    requires hot { is_raised (plan_of past.now) (entries_of past.now) place ≡ true }
    ensures { Some result ≡ least_of (internal_of (plan_of past.now) place) (exceptions_raised (plan_of past.now) (entries_of past.now) place) }
{
    past.plan.is_closed();
    R::least_raised(past, place).unwrap()
}

/// What a halted participant does while its place isn't resolved yet.
fn due_unresolved<R: Records>(past: &Past<'_, R>, place: Place, by: Participant) -> Move
    requires here { inside (plan_of past.now) (entries_of past.now) by ≡ Some place }
    requires hot { is_raised (plan_of past.now) (entries_of past.now) place ≡ true }
    requires own { lack_of (plan_of past.now) (entries_of past.now) place by ≡ Some lack.Halts }
    ensures entry { entry_in by result ≡ due_halted (plan_of past.now) (entries_of past.now) place by None }
    ensures right { IsRight (plan_of past.now) (entries_of past.now) by result }
{
    if all_are_halted(past, place) {
        let exception = least_cover(past, place);
        Move::Make(marked(Kind::Resolve, place, by, 0, exception))
    } else {
        lacking(place, Lack::Halts)
    }
}

/// What a participant does that is halted.
fn due_halted<R: Records>(past: &Past<'_, R>, place: Place, by: Participant) -> Move
    requires here { inside (plan_of past.now) (entries_of past.now) by ≡ Some place }
    requires hot { is_raised (plan_of past.now) (entries_of past.now) place ≡ true }
    requires own { lack_of (plan_of past.now) (entries_of past.now) place by ≡ lack_going (plan_of past.now) (entries_of past.now) place by }
    ensures entry { entry_in by result ≡ due_halted (plan_of past.now) (entries_of past.now) place by (exception_resolved (entries_of past.now) place) }
    ensures right { IsRight (plan_of past.now) (entries_of past.now) by result }
{
    match R::exception_resolved(past, place) {
        Some(exception) => due_resolved(past, place, by, exception),
        None => due_unresolved(past, place, by),
    }
}

/// What a participant does in a hot place.
#[inline(never)]
fn due_hot<R: Records>(past: &Past<'_, R>, place: Place, by: Participant) -> Move
    requires here { inside (plan_of past.now) (entries_of past.now) by ≡ Some place }
    requires hot { is_raised (plan_of past.now) (entries_of past.now) place ≡ true }
    requires own { lack_of (plan_of past.now) (entries_of past.now) place by ≡ lack_going (plan_of past.now) (entries_of past.now) place by }
    ensures entry { entry_in by result ≡ due_hot (plan_of past.now) (entries_of past.now) place by }
    ensures right { IsRight (plan_of past.now) (entries_of past.now) by result }
{
    if R::is_halted(past, place, by) {
        return due_halted(past, place, by);
    }
    let (step, from) = step_and_register(past, place, by);
    match raise_of(step, from) {
        Some(exception) => Move::Make(marked(Kind::Raise, place, by, 0, exception)),
        None => Move::Make(plainly(Kind::Inform, place, by)),
    }
}

// ---- the decision

/// What a participant does in the place that it is in.
#[inline(always)]
fn due_inside<R: Records>(past: &Past<'_, R>, place: Place, by: Participant) -> Move
    requires here { inside (plan_of past.now) (entries_of past.now) by ≡ Some place }
    ensures entry { entry_in by result ≡ due_inside (plan_of past.now) (entries_of past.now) place by }
    ensures right { IsRight (plan_of past.now) (entries_of past.now) by result }
{
    let course = R::course_of(past, place);
    if course.has_ended {
        let exception = exception_carried(past, place, by);
        Move::Make(naming(Kind::Leave, place, by, exception))
    } else if !course.has_started {
        due_waiting(past, place, by)
    } else if course.is_undoing {
        due_restore(past, place, by)
    } else if R::is_doomed(past, place) {
        due_doomed(past, place, by)
    } else if course.is_raised {
        due_hot(past, place, by)
    } else {
        due_calm(past, place, by)
    }
}

/// What a participant does that is in no place: it arrives in its next play, or is over.
#[inline(always)]
fn due_outside<R: Records>(past: &Past<'_, R>, by: Participant) -> Move
    requires out { inside (plan_of past.now) (entries_of past.now) by ≡ None }
    ensures entry { entry_in by result ≡ due_arrival by (next_play (plan_of past.now) (entries_of past.now) by) }
    ensures right { IsRight (plan_of past.now) (entries_of past.now) by result }
{
    past.plan.is_closed();
    match R::next_play(past, by) {
        Some(play) => Move::Make(plainly(Kind::Arrive, play, by)),
        None => Move::Over,
    }
}

/// What a participant does as if the device took each put.
#[inline(always)]
fn move_due<R: Records>(past: &Past<'_, R>, by: Participant) -> Move
    ensures entry { entry_in by result ≡ due_of (plan_of past.now) (entries_of past.now) by }
    ensures right { IsRight (plan_of past.now) (entries_of past.now) by result }
{
    match R::inside(past, by) {
        Some(place) => due_inside(past, place, by),
        None => due_outside(past, by),
    }
}

/// What the rules let a participant do after a legal journal, or what it lacks. It takes no memory, and mixes nothing.
#[inline(always)]
pub fn move_of<R: Records>(past: &Past<'_, R>, by: Participant) -> Move
    ensures { IsMove (plan_of past.now) (entries_of past.now) by result }
{
    due_is_right(past.plan);
    past.plan.is_closed();
    move_due(past, by)
}

/// What the rules let a participant do after a legal journal. It takes no memory.
pub fn due(plan: &Plan, journal: &Journal, by: Participant) -> Due
    requires legal { IsLegal plan.now journal.now.entries }
    requires known { by < length plan.now.participants }
    ensures { IsDue plan.now (reverse journal.now.entries) by result }
{
    let past = Past {
        plan,
        records: &LookBack,
        journal: journal.as_slice(),
    };
    match move_of(&past, by) {
        Move::Make(entry) => Due::Now(entry),
        Move::Put(well) => Due::Put {
            well,
            fault: refused(well),
        },
        Move::Mix(work) => Due::Now(work.entry(by)),
        Move::Wait(_) => Due::NotYet,
        Move::Over => Due::Over,
    }
}
