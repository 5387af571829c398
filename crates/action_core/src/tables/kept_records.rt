//! What is asked of the tables. Each answer is read off one or two of them, and stands for the past that they stand for.

use super::Tables;
use crate::kept::{frame_kept, handled_kept, name_kept, next_kept, place_kept};
use caa_base::written::entry::{
    Entry, Exception, Object, OutOfMemory, Outcome, Participant, Place,
};
use journal_replay::past::{Past, StandsFor};
use journal_replay::records::{Course, Progress, Records};
use place_plan::plans::plan::Plan;
use std::alloc::Global;

impl StandsFor for Tables {
    ghost use Rattle.action_core.specs.inner.KeptPast.{StandsFor as TablesStand};
    ghost use Rattle.action_core.specs.inner.OneWay.{StandsFor-prop};

    ghost stand_for = { λ tables plan past. TablesStand plan past tables };

    ghost one_way = { λ tables plan past. StandsFor-prop plan past tables };
}

impl Records for Tables {
    fn open(alloc: Global, plan: &Plan) -> Result<Self, OutOfMemory> {
        Tables::open(alloc, plan)
    }

    #[inline(always)]
    fn note(&mut self, plan: &Plan, journal: &[Entry], entry: &Entry) {
        self.note(plan, journal, entry);
    }

    #[inline(always)]
    fn inside(past: &Past<'_, Self>, by: Participant) -> Option<Place> {
        past.plan.is_closed();
        let tables = past.records;
        place_kept(&tables.frames, by)
    }

    fn next_play(past: &Past<'_, Self>, by: Participant) -> Option<Place> {
        past.plan.is_closed();
        let tables = past.records;
        if by < past.plan.participants() {
            next_kept(&tables.people, past.plan, by)
        } else {
            None
        }
    }

    #[inline(always)]
    fn course_of(past: &Past<'_, Self>, place: Place) -> Course {
        let tables = past.records;
        let stage = tables.stages.stage(place);
        Course {
            has_started: stage.started,
            has_ended: stage.ended.is_some(),
            is_undoing: stage.undoing,
            is_raised: tables.recoveries.is_raised(place),
        }
    }

    fn outcome_of(past: &Past<'_, Self>, place: Place) -> Option<Outcome> {
        let tables = past.records;
        tables.stages.stage(place).ended
    }

    #[inline(always)]
    fn holder_of(past: &Past<'_, Self>, object: Object) -> Option<Place> {
        let tables = past.records;
        tables.versions.holder(object)
    }

    #[inline(always)]
    fn value_at(past: &Past<'_, Self>, object: Object) -> i64 {
        let tables = past.records;
        tables.versions.value(object)
    }

    fn next_restore(past: &Past<'_, Self>, place: Place) -> Option<Object> {
        let tables = past.records;
        tables.endings.next_restore(past.plan, place)
    }

    fn value_at_start(past: &Past<'_, Self>, place: Place, object: Object) -> i64 {
        past.plan.is_closed();
        let tables = past.records;
        tables.versions.saved(past.plan, place, object)
    }

    fn has_failed(past: &Past<'_, Self>, place: Place) -> bool {
        let tables = past.records;
        tables.endings.has_failed(place)
    }

    #[inline(always)]
    fn is_doomed(past: &Past<'_, Self>, place: Place) -> bool {
        let tables = past.records;
        tables.endings.is_doomed(past.plan, place)
    }

    fn is_halted(past: &Past<'_, Self>, place: Place, by: Participant) -> bool {
        let tables = past.records;
        tables.recoveries.is_halted(past.plan, place, by)
    }

    fn least_raised(past: &Past<'_, Self>, place: Place) -> Option<Exception> {
        let tables = past.records;
        tables.recoveries.cover(place)
    }

    fn exception_resolved(past: &Past<'_, Self>, place: Place) -> Option<Exception> {
        let tables = past.records;
        tables.recoveries.resolved(place)
    }

    #[inline(always)]
    fn progress_of(past: &Past<'_, Self>, place: Place, by: Participant) -> Progress {
        past.plan.is_closed();
        let tables = past.records;
        let frame = frame_kept(&tables.frames, by);
        let handled = handled_kept(&tables.recoveries, frame, place);
        Progress {
            handled,
            position: frame.position as usize,
            register: frame.register,
        }
    }

    fn was_refused_in_handler(past: &Past<'_, Self>, place: Place, by: Participant) -> bool {
        past.plan.is_closed();
        let tables = past.records;
        tables.people.person(by).refused
    }

    #[inline(always)]
    fn has_given(past: &Past<'_, Self>, place: Place, by: Participant, raised: bool) -> bool {
        let tables = past.records;
        tables.endings.has_given(place, by)
    }

    fn wants_undo(past: &Past<'_, Self>, place: Place) -> bool {
        let tables = past.records;
        tables.endings.wants_undo(place)
    }

    fn least_signalled(past: &Past<'_, Self>, place: Place) -> Option<Exception> {
        let tables = past.records;
        tables.endings.least_signalled(past.plan, place)
    }

    fn has_aborted(past: &Past<'_, Self>, place: Place, by: Participant) -> bool {
        let tables = past.records;
        tables.endings.has_aborted(past.plan, place, by)
    }

    fn name_of(past: &Past<'_, Self>, place: Place, by: Participant) -> Option<Exception> {
        past.plan.is_closed();
        let tables = past.records;
        name_kept(&tables.endings, past.plan, place, by)
    }

    fn has_aborts(past: &Past<'_, Self>, place: Place) -> bool {
        let tables = past.records;
        tables.endings.has_aborts(place)
    }
}
