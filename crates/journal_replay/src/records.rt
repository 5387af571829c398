ghost use Rattle.std.specs.Prelude.{◌≡◌, ◌<◌, ◌∷◌, [], List, length, reverse, Some, true, false, IfOk};
ghost use Rattle.caa_base.specs.declared.written.entry.Kind.TheVariants as kind;
ghost use Rattle.place_plan.specs.Plans.Places.{roles_of, internal_of, interface_of};
ghost use Rattle.place_plan.specs.RulesOfJournals.Entries.{has, is_in, is_by, newest};
ghost use Rattle.place_plan.specs.RulesOfJournals.Whereabouts.{inside, has_started, has_ended, is_undoing};
ghost use Rattle.place_plan.specs.RulesOfJournals.Raising.{has_handled, exceptions_raised, exception_handled, is_raised, is_doomed, is_halted, exception_resolved};
ghost use Rattle.place_plan.specs.RulesOfJournals.Objects.{holder_of, before_start, has_failed, next_restore, value_of};
ghost use Rattle.place_plan.specs.RulesOfJournals.Roles.{position, register, has_given, all_have_given, was_refused_in_handler, wants_undo, signals, has_aborted, next_play};
ghost use Rattle.place_plan.specs.RulesOfJournals.Rules.{MayFollow};
ghost use Rattle.place_plan.specs.RulesOfJournals.Journals.{LegalPast};
ghost use Rattle.core_words.specs.Joining.{IsCoverOf};
ghost use Rattle.journal_replay.specs.PastParts.{plan_of, entries_of};
ghost use Rattle.journal_replay.specs.Questions.{outcome_of_end, name_of_abort};

use crate::past::{Past, StandsFor};
use caa_base::written::entry::{
    Entry, Exception, Object, OutOfMemory, Outcome, Participant, Place,
};
use place_plan::plans::plan::Plan;
use std::alloc::Global;

/// How far a place has come.
#[derive(Clone, Copy)]
pub struct Course {
    pub has_started: bool,
    pub has_ended: bool,
    /// It is undone, or was.
    pub is_undoing: bool,
    /// Something was raised in it.
    pub is_raised: bool,
}

/// How far a participant has come in a place, since its Handle there where it has one.
#[derive(Clone, Copy)]
pub struct Progress {
    /// The exception that it handles.
    pub handled: Option<Exception>,
    /// How many steps it has made.
    pub position: usize,
    /// What it read, mixed or wrote last.
    pub register: i64,
}

/// What is kept of a past: the questions that can't be put together from others.
///
/// Each is asked of a legal past, and is answered as the definitions answer it, under the conditions that the rules know where they
/// ask. What else the rules ask is put together from these, whatever is kept.
pub trait Records: StandsFor + Drop {
    /// The records of no entries.
    fn open(alloc: Global, plan: &Plan) -> Result<Self, OutOfMemory>
        ensures { IfOk result (λ r. Self.stand_for r plan.now []) };

    /// Takes an entry in. It takes no memory.
    fn note(&mut self, plan: &Plan, journal: &[Entry], entry: &Entry)
        requires stands { Self.stand_for self.old plan.now (reverse journal.now) }
        requires legal { LegalPast plan.now (reverse journal.now) }
        requires may { MayFollow plan.now (reverse journal.now) entry.now }
        ensures { Self.stand_for self.new plan.now (entry.now ∷ reverse journal.now) };

    // ---- where participants are, and how far places have come

    /// The innermost place that a participant is in.
    fn inside(past: &Past<'_, Self>, by: Participant) -> Option<Place>
        ensures { result ≡ inside (plan_of past.now) (entries_of past.now) by };

    /// The first play of a participant in which it has not arrived.
    fn next_play(past: &Past<'_, Self>, by: Participant) -> Option<Place>
        ensures { result ≡ next_play (plan_of past.now) (entries_of past.now) by };

    /// How far a place has come.
    fn course_of(past: &Past<'_, Self>, place: Place) -> Course
        ensures started { result.has_started ≡ has_started (entries_of past.now) place }
        ensures ended { result.has_ended ≡ has_ended (entries_of past.now) place }
        ensures undoing { result.is_undoing ≡ is_undoing (entries_of past.now) place }
        ensures raised { result.is_raised ≡ is_raised (plan_of past.now) (entries_of past.now) place };

    /// How a place has ended, if it has.
    fn outcome_of(past: &Past<'_, Self>, place: Place) -> Option<Outcome>
        ensures { result ≡ outcome_of_end (newest (is_in kind.End place) (entries_of past.now)) };

    // ---- objects

    /// The place that holds an object, if one does.
    fn holder_of(past: &Past<'_, Self>, object: Object) -> Option<Place>
        requires known { object < length (plan_of past.now).objects }
        ensures { result ≡ holder_of (plan_of past.now) (entries_of past.now) object };

    /// The value of an object.
    fn value_at(past: &Past<'_, Self>, object: Object) -> i64
        requires known { object < length (plan_of past.now).objects }
        ensures { result ≡ value_of (plan_of past.now) (entries_of past.now) object };

    /// The next object that a place which is undone restores.
    fn next_restore(past: &Past<'_, Self>, place: Place) -> Option<Object>
        requires undoing { is_undoing (entries_of past.now) place ≡ true }
        requires lasts { has_ended (entries_of past.now) place ≡ false }
        ensures { result ≡ next_restore (plan_of past.now) (entries_of past.now) place };

    /// The value that the next object to be restored had when its place started.
    fn value_at_start(past: &Past<'_, Self>, place: Place, object: Object) -> i64
        requires undoing { is_undoing (entries_of past.now) place ≡ true }
        requires lasts { has_ended (entries_of past.now) place ≡ false }
        requires known { object < length (plan_of past.now).objects }
        requires next { next_restore (plan_of past.now) (entries_of past.now) place ≡ Some object }
        ensures { result ≡ value_of (plan_of past.now) (before_start (entries_of past.now) place) object };

    /// Whether the device refused a restore of a place that is undone.
    fn has_failed(past: &Past<'_, Self>, place: Place) -> bool
        requires undoing { is_undoing (entries_of past.now) place ≡ true }
        requires lasts { has_ended (entries_of past.now) place ≡ false }
        ensures { result ≡ has_failed (entries_of past.now) place };

    // ---- raising

    /// Whether something was raised in a place round this one.
    fn is_doomed(past: &Past<'_, Self>, place: Place) -> bool
        ensures { result ≡ is_doomed (plan_of past.now) (entries_of past.now) place };

    /// Whether a participant was halted in a place.
    fn is_halted(past: &Past<'_, Self>, place: Place, by: Participant) -> bool
        ensures { result ≡ is_halted (plan_of past.now) (entries_of past.now) place by };

    /// The least cover of what was raised in a place, if something was.
    fn least_raised(past: &Past<'_, Self>, place: Place) -> Option<Exception>
        ensures { IsCoverOf (internal_of (plan_of past.now) place) (exceptions_raised (plan_of past.now) (entries_of past.now) place) result };

    /// The exception to which a place is resolved.
    fn exception_resolved(past: &Past<'_, Self>, place: Place) -> Option<Exception>
        ensures { result ≡ exception_resolved (entries_of past.now) place };

    // ---- steps

    /// How far a participant has come in the place that it is in.
    fn progress_of(past: &Past<'_, Self>, place: Place, by: Participant) -> Progress
        requires here { inside (plan_of past.now) (entries_of past.now) by ≡ Some place }
        ensures handled { result.handled ≡ exception_handled (entries_of past.now) place by }
        ensures position { result.position ≡ position (plan_of past.now) (entries_of past.now) place by }
        ensures register { result.register ≡ register (plan_of past.now) (entries_of past.now) place by };

    /// Whether a put of a participant was refused in the handler that it has begun.
    fn was_refused_in_handler(past: &Past<'_, Self>, place: Place, by: Participant) -> bool
        requires here { inside (plan_of past.now) (entries_of past.now) by ≡ Some place }
        requires handled { has_handled (entries_of past.now) place by ≡ true }
        ensures { result ≡ was_refused_in_handler (entries_of past.now) place by };

    // ---- agreement

    /// Whether a participant has given its verdict in a place, since the Resolve where something was raised there; `raised` says
    /// whether something was.
    fn has_given(past: &Past<'_, Self>, place: Place, by: Participant, raised: bool) -> bool
        requires raised { raised ≡ is_raised (plan_of past.now) (entries_of past.now) place }
        ensures { result ≡ has_given (plan_of past.now) (entries_of past.now) place by };

    /// Whether a role asks for undo, where all have given their verdicts.
    fn wants_undo(past: &Past<'_, Self>, place: Place) -> bool
        requires agreed { all_have_given (plan_of past.now) (entries_of past.now) place ≡ true }
        ensures { result ≡ wants_undo (plan_of past.now) (entries_of past.now) place };

    /// The least cover of what the roles signal, if one does, where all have given their verdicts.
    fn least_signalled(past: &Past<'_, Self>, place: Place) -> Option<Exception>
        requires agreed { all_have_given (plan_of past.now) (entries_of past.now) place ≡ true }
        ensures { IsCoverOf (interface_of (plan_of past.now) place) (signals (entries_of past.now) place (roles_of (plan_of past.now) place)) result };

    /// Whether a participant has given up in a place.
    fn has_aborted(past: &Past<'_, Self>, place: Place, by: Participant) -> bool
        ensures { result ≡ has_aborted (entries_of past.now) place by };

    /// The exception that a participant named as it gave up in the place that it is in, if it did and named one.
    fn name_of(past: &Past<'_, Self>, place: Place, by: Participant) -> Option<Exception>
        requires here { inside (plan_of past.now) (entries_of past.now) by ≡ Some place }
        ensures { result ≡ name_of_abort (newest (is_by kind.Abort place by) (entries_of past.now)) };

    /// Whether some role gave up in a place that is undone.
    fn has_aborts(past: &Past<'_, Self>, place: Place) -> bool
        requires undoing { is_undoing (entries_of past.now) place ≡ true }
        requires lasts { has_ended (entries_of past.now) place ≡ false }
        ensures { result ≡ has kind.Abort (entries_of past.now) place };
}
