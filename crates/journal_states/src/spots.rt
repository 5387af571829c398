//! How far a participant has come in the place that it is in.

ghost use Rattle.std.specs.Prelude.{◌≡◌};
ghost use Rattle.journal_states.specs.Spots.{phase_in};

use caa_base::written::entry::{Exception, Place};
use journal_replay::records::Course;

/// What goes on in a place, as one of its roles sees it.
#[derive(Clone, Copy, PartialEq, Eq)]
pub enum Phase {
    /// It hasn't started.
    Arrived,
    /// The role is in its body, or was halted there.
    Body,
    /// The role has begun a handler.
    Handler,
    /// The place is undone.
    Undoing,
    /// The place has ended.
    Ended,
}

/// Where in its program a participant stands.
#[derive(Clone, Copy, PartialEq, Eq)]
pub struct Spot {
    pub place: Place,
    pub phase: Phase,
    /// The exception for which it began a handler, where it did.
    pub handled: Option<Exception>,
    /// How many steps of its body, or of that handler, it has made.
    pub step: usize,
}

/// What goes on in a place that has come so far, as a role sees it that handles this exception, if it does.
pub(crate) fn phase_in(course: &Course, handled: Option<Exception>) -> Phase
    ensures { result ≡ phase_in course.now.has_ended course.now.is_undoing course.now.has_started handled }
{
    if course.has_ended {
        Phase::Ended
    } else if course.is_undoing {
        Phase::Undoing
    } else if !course.has_started {
        Phase::Arrived
    } else if handled.is_some() {
        Phase::Handler
    } else {
        Phase::Body
    }
}
