//! How a put is refused, and how bad what comes of it is.

ghost use Rattle.std.specs.Prelude.{◌≡◌};
ghost use Rattle.fault_trials.specs.Classes.{rank_of};

use caa_base::written::entry::{Drill, Exception, Object};

/// What is refused with a put.
#[derive(Clone, Copy, PartialEq, Eq)]
pub enum Mode {
    /// This put alone.
    Once,
    /// This put and all later ones of its object.
    Stuck,
    /// This put and one restore that comes after it.
    AndRestore,
    /// This put and all later ones.
    Dead,
    /// This put and a later one of a body or a handler.
    Pair,
}

/// How bad an effect is, from best to worst.
#[derive(Clone, Copy, PartialEq, Eq)]
pub enum Class {
    /// The play ends as one without the fault.
    Same,
    /// It commits or signals.
    Told,
    /// It is undone.
    Undone,
    /// It commits or signals, and some object stands away.
    Left,
    /// It failed.
    Failed,
}

/// How a class stands among the others, the best first.
pub fn rank_of(class: Class) -> u32
    ensures { result ≡ rank_of class }
{
    match class {
        Class::Same => 0,
        Class::Told => 1,
        Class::Undone => 2,
        Class::Left => 3,
        Class::Failed => 4,
    }
}

/// A step of a role, or an object that an action sets back: what a row of the table stands for.
#[derive(Clone, Copy, PartialEq, Eq)]
pub enum Spot {
    /// A step of a role of an action, counted from 0: of its handler for an exception, or of its body.
    Step {
        action: u32,
        role: u32,
        handler: Option<Exception>,
        step: usize,
    },
    /// An object that an action sets back.
    Back {
        action: u32,
        object: Object,
    },
}

/// How a try is had again: by the schedule of a number, with these puts refused.
#[derive(Clone, Copy)]
pub struct Example {
    pub schedule: u32,
    pub refused: Tried,
}

/// Which puts a try refuses.
#[derive(Clone, Copy)]
pub enum Tried {
    /// One.
    One(Drill),
    /// Two.
    Two(Drill, Drill),
    /// One and all later ones of its object.
    From(Drill),
    /// All from this one on, counted from 1.
    All(u64),
}
