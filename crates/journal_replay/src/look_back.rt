//! What the definitions say of a journal, each asked by going over its entries.
//!
//! A journal stands here as its entries, the oldest first; the definitions look back from the newest.
//!
//! Questions that go together share one pass: how far a place has come, and which step a participant comes to, with which
//! register. Where one entry decides, the scan begins at the newest and stops there. Much of what is asked of a place is asked of
//! the entries from its newest arrival on: a place starts once all its roles have arrived, and in a legal journal nothing of it
//! stands before that. What was raised in it is gathered from the whole journal, when it is resolved. A participant comes to its
//! plays in their order, so the next one is the first after the last that it came to.

ghost use Rattle.std.specs.Prelude.{refl};

use crate::past::{Past, StandsFor};
use crate::records::{Course, Progress, Records};
use caa_base::written::entry::{
    Entry, Exception, Kind, Object, OutOfMemory, Outcome, Participant, Place,
};
use place_plan::plans::plan::Plan;
use place_plan::rules::value::value_at;
use std::alloc::Global;

pub(crate) mod arrivals;
pub(crate) mod course;
pub(crate) mod entries;
pub(crate) mod objects;
pub(crate) mod places;
pub(crate) mod raising;
pub(crate) mod roles;
pub(crate) mod verdicts;

/// Nothing is kept: each question is answered by looking back over the entries.
#[derive(Drop)]
pub struct LookBack;

impl StandsFor for LookBack {
    ghost stand_for = { λ _ _ _. Unit {0} };

    ghost one_way = { λ _ _ _ a b. refl };
}

impl Records for LookBack {
    fn open(alloc: Global, plan: &Plan) -> Result<Self, OutOfMemory> {
        Ok(LookBack)
    }

    fn note(&mut self, plan: &Plan, journal: &[Entry], entry: &Entry) {}

    fn inside(past: &Past<'_, Self>, by: Participant) -> Option<Place> {
        places::inside(past.plan, past.journal, by)
    }

    fn next_play(past: &Past<'_, Self>, by: Participant) -> Option<Place> {
        places::next_play(past.plan, past.journal, by)
    }

    fn course_of(past: &Past<'_, Self>, place: Place) -> Course {
        course::course_of(past.plan, past.journal, place)
    }

    fn outcome_of(past: &Past<'_, Self>, place: Place) -> Option<Outcome> {
        verdicts::outcome_of(past.journal, place)
    }

    fn holder_of(past: &Past<'_, Self>, object: Object) -> Option<Place> {
        objects::holder_of(past.plan, past.journal, object)
    }

    fn value_at(past: &Past<'_, Self>, object: Object) -> i64 {
        value_at(past.plan, past.journal, object)
    }

    fn next_restore(past: &Past<'_, Self>, place: Place) -> Option<Object> {
        objects::next_restore(past.plan, past.journal, place)
    }

    fn value_at_start(past: &Past<'_, Self>, place: Place, object: Object) -> i64 {
        objects::value_at_start(past.plan, past.journal, place, object)
    }

    fn has_failed(past: &Past<'_, Self>, place: Place) -> bool {
        objects::has_failed(past.journal, place)
    }

    fn is_doomed(past: &Past<'_, Self>, place: Place) -> bool {
        raising::is_doomed(past.plan, past.journal, place)
    }

    fn is_halted(past: &Past<'_, Self>, place: Place, by: Participant) -> bool {
        raising::is_halted(past.plan, past.journal, place, by)
    }

    fn least_raised(past: &Past<'_, Self>, place: Place) -> Option<Exception> {
        raising::least_raised(past.plan, past.journal, place)
    }

    fn exception_resolved(past: &Past<'_, Self>, place: Place) -> Option<Exception> {
        raising::exception_resolved(past.journal, place)
    }

    fn progress_of(past: &Past<'_, Self>, place: Place, by: Participant) -> Progress {
        roles::progress_of(past.plan, past.journal, place, by)
    }

    fn was_refused_in_handler(past: &Past<'_, Self>, place: Place, by: Participant) -> bool {
        verdicts::was_refused_in_handler(past.journal, place, by)
    }

    fn has_given(past: &Past<'_, Self>, place: Place, by: Participant, raised: bool) -> bool {
        verdicts::has_given(past.plan, past.journal, place, by, raised)
    }

    fn wants_undo(past: &Past<'_, Self>, place: Place) -> bool {
        verdicts::wants_undo(past.plan, past.journal, place)
    }

    fn least_signalled(past: &Past<'_, Self>, place: Place) -> Option<Exception> {
        verdicts::least_signalled(past.plan, past.journal, place)
    }

    fn has_aborted(past: &Past<'_, Self>, place: Place, by: Participant) -> bool {
        verdicts::has_aborted(past.journal, place, by)
    }

    fn name_of(past: &Past<'_, Self>, place: Place, by: Participant) -> Option<Exception> {
        verdicts::name_of(past.journal, place, by)
    }

    fn has_aborts(past: &Past<'_, Self>, place: Place) -> bool {
        entries::has(past.journal, Kind::Abort, place)
    }
}
