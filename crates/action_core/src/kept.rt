//! What the rules ask of a past, read off one table each.

ghost use Rattle.std.specs.Prelude.{◌≡◌, List, slice_get, true};
ghost use Rattle.caa_base.specs.declared.written.entry.Entry.{Entry as EntryValue};
ghost use Rattle.caa_base.specs.declared.written.entry.Kind.TheVariants as kind;
ghost use Rattle.caa_base.specs.Written.Lists.{member};
ghost use Rattle.place_plan.specs.Plans.Places.{roles_of};
ghost use Rattle.place_plan.specs.RulesOfJournals.Entries.{is_by, newest};
ghost use Rattle.journal_replay.specs.Questions.{name_of_abort};
ghost use Rattle.action_endings.specs.inner.KeptEndings.{StandsFor as EndingsStand};
ghost use Rattle.action_core.specs.inner.Asked.{place_kept, frame_kept, handled_kept};
ghost use Rattle.action_core.specs.inner.KeptPeople.{at as person_at};

use crate::people::People;
use action_endings::Endings;
use caa_base::written::entry::{Exception, Participant, Place};
use place_plan::plans::plan::Plan;
use resolution_core::Resolver;
use role_states::{Frame, Frames};

/// A frame in no place.
const NO_FRAME: Frame = Frame {
    place: 0,
    position: 0,
    register: 0,
    handling: false,
};

/// The innermost place of a participant.
#[inline(always)]
pub fn place_kept(frames: &Frames, by: Participant) -> Option<Place>
    ensures { result ≡ place_kept frames.now by }
{
    match frames.frame(by) {
        Some(frame) => Some(frame.place),
        None => None,
    }
}

/// The innermost frame of a participant.
#[inline(always)]
pub fn frame_kept(frames: &Frames, by: Participant) -> Frame
    ensures { result ≡ frame_kept frames.now by }
{
    match frames.frame(by) {
        Some(frame) => frame,
        None => NO_FRAME,
    }
}

/// The exception that the innermost frame of a participant handles.
#[inline(always)]
pub fn handled_kept(resolver: &Resolver, frame: Frame, place: Place) -> Option<Exception>
    ensures { result ≡ handled_kept resolver.now frame place }
{
    if frame.handling {
        resolver.resolved(place)
    } else {
        None
    }
}

/// The play of the number that is kept as the turn of a participant, where there is one.
pub fn next_kept(people: &People, plan: &Plan, by: Participant) -> Option<Place>
    ensures { result ≡ slice_get plan.now.plays (person_at people.now by).turn }
{
    plan.play_places()
        .get(people.person(by).turn as usize)
        .copied()
}

/// The exception that a participant named as it gave up in a place, if it did and named one.
pub fn name_kept(endings: &Endings, plan: &Plan, place: Place, by: Participant) -> Option<Exception>
    requires { member by (roles_of plan.now place) ≡ true }
    ensures { (past : List EntryValue) → EndingsStand plan.now past endings.now
        → result ≡ name_of_abort (newest (is_by kind.Abort place by) past) }
{
    if endings.has_aborted(plan, place, by) {
        endings.abort_of(plan, place, by)
    } else {
        None
    }
}
