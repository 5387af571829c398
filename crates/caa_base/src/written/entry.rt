ghost use Rattle.std.specs.Prelude.{◌≡◌};
ghost use Rattle.caa_base.specs.Written.Marks.{outcome_mark, outcome_of_mark, verdict_mark, verdict_of_mark};

use std::alloc::{AllocError, AllocFailed};
use thiserror::Error;

/// A participant, counted from 0.
pub type Participant = u32;

/// An instance of an action, counted from 0 in the order of the unfolding.
pub type Place = u32;

/// An external object, counted from 0.
pub type Object = u32;

/// An exception of some graph; 0 is `universal`, which covers all others.
pub type Exception = u32;

/// What an entry of a journal says.
#[derive(Clone, Copy, Debug, PartialEq, Eq)]
pub enum Kind {
    /// A participant comes to a place.
    Arrive,
    /// A participant goes away from a doomed place that never started.
    Withdraw,
    /// The roles of a place begin together.
    Start,
    /// A role takes the value of an object into its register.
    Read,
    /// A role mixes its register.
    Work,
    /// A role's put, which the device took.
    Write,
    /// A role's test, which wasn't met.
    Check,
    /// A role's put, which the device refused.
    PutFault,
    /// A role raises an exception.
    Raise,
    /// A role learns that something was raised.
    Inform,
    /// What was raised in a place is resolved to one exception.
    Resolve,
    /// A role begins its handler for the resolved exception.
    Handle,
    /// A role says how it ends.
    Verdict,
    /// A role of a doomed place gives up.
    Abort,
    /// The roles of a place have agreed to undo it.
    Undo,
    /// An object gets the value back that it had at the start of the place.
    Restore,
    /// A place ends, with one outcome.
    End,
    /// A participant goes out of a place that has ended.
    Leave,
}

/// One step of a participant, as the journal keeps it.
///
/// What `arg`, `mark` and `value` mean goes by the kind; what a kind doesn't use is 0.
#[derive(Clone, Copy, Debug, PartialEq, Eq)]
pub struct Entry {
    pub kind: Kind,
    pub place: Place,
    /// The participant that made it.
    pub by: Participant,
    /// An object, a number of rounds or an exception.
    pub arg: u32,
    /// Which of its forms the entry has.
    pub mark: u32,
    pub value: i64,
}

/// What a role says at the end of its body or handler.
#[derive(Clone, Copy, Debug, PartialEq, Eq)]
pub enum Verdict {
    /// Its part is done.
    Done,
    /// Its part is done, and this exception of the interface graph goes outside.
    Signal(Exception),
    /// The whole action is to be undone.
    Undo,
}

impl Verdict {
    /// The mark of an entry that says this verdict, and the exception beside it, which is 0 where none is signalled.
    pub fn mark(self) -> (u32, Exception)
        ensures { result ≡ verdict_mark self }
    {
        match self {
            Verdict::Done => (0, 0),
            Verdict::Signal(exception) => (1, exception),
            Verdict::Undo => (2, 0),
        }
    }

    /// The verdict of a mark, with the exception beside it. A mark that no verdict has is read as undo.
    pub fn of_mark(mark: u32, exception: Exception) -> Verdict
        ensures { result ≡ verdict_of_mark mark exception }
    {
        match mark {
            0 => Verdict::Done,
            1 => Verdict::Signal(exception),
            _ => Verdict::Undo,
        }
    }
}

/// A comparison of a register with a number.
#[derive(Clone, Copy)]
pub enum Test {
    Below,
    Above,
    Equal,
}

/// How a place ended.
#[derive(Clone, Copy, Debug, PartialEq, Eq)]
pub enum Outcome {
    /// Its effects are kept.
    Commit,
    /// Its effects are kept, and this exception of the interface graph goes outside.
    Signal(Exception),
    /// Its roles asked for undo, and each object was restored.
    Undone,
    /// It was doomed, and each object was restored.
    Aborted,
    /// It was to be undone, and the device refused a restore.
    Failed,
}

impl Outcome {
    /// The mark of an End that says this outcome, and the exception beside it, which is 0 where none is signalled.
    pub fn mark(self) -> (u32, Exception)
        ensures { result ≡ outcome_mark self }
    {
        match self {
            Outcome::Commit => (0, 0),
            Outcome::Signal(exception) => (1, exception),
            Outcome::Undone => (2, 0),
            Outcome::Aborted => (3, 0),
            Outcome::Failed => (4, 0),
        }
    }

    /// The outcome of a mark, with the exception beside it. A mark that no outcome has is read as failed.
    pub fn of_mark(mark: u32, exception: Exception) -> Outcome
        ensures { result ≡ outcome_of_mark mark exception }
    {
        match mark {
            0 => Outcome::Commit,
            1 => Outcome::Signal(exception),
            2 => Outcome::Undone,
            3 => Outcome::Aborted,
            _ => Outcome::Failed,
        }
    }
}

/// The device refuses the put of this object that is the `nth` one, counted from 1.
#[derive(Clone, Copy)]
pub struct Drill {
    pub object: Object,
    pub nth: u32,
}

/// No memory was found.
#[derive(Clone, Copy, Debug, PartialEq, Eq, Error)]
#[error("out of memory")]
pub struct OutOfMemory;

impl From<AllocError> for OutOfMemory {
    fn from(_error: AllocError) -> Self {
        OutOfMemory
    }
}

impl<T: Drop> From<AllocFailed<T>> for OutOfMemory {
    fn from(_error: AllocFailed<T>) -> Self {
        OutOfMemory
    }
}

/// The outside refused.
#[derive(Clone, Copy, Debug, PartialEq, Eq, Error)]
#[error("refused by the outside")]
pub struct Failed;
