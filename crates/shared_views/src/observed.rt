ghost use Rattle.shared_views.specs.Publications.{Begins};
ghost use Rattle.shared_views.specs.Committing.{IsReading, WasRead};

use crate::publications::Publications;
use caa_base::written::entry::Object;
use thiserror::Error;

/// What is read of an object: after how many publications, and its value after them.
#[derive(Clone, Copy, Debug, PartialEq, Eq)]
pub struct Reading {
    pub ends: u64,
    pub value: i64,
}

/// No reading was had: `left_right` gave the observer no place, didn't let it enter, or showed a board older than what the
/// observer was told of. This crate alone makes one.
#[derive(Debug, Drop, PartialEq, Eq, Error)]
#[error("no reading was had")]
pub struct ReadRefused {
    seal: (),
}

impl ReadRefused {
    pub(crate) fn new() -> ReadRefused {
        ReadRefused { seal: () }
    }
}

/// A law: a reading stays one of the first so many publications, however many come after them. It changes nothing.
pub fn reading_stands(
    _initials: &[i64],
    _before: &Publications,
    _after: &Publications,
    _object: Object,
    _reading: Reading,
)
    requires begins { Begins _before.now _after.now }
    requires read { IsReading _initials.now _before.now _object _reading }
    ensures { WasRead _initials.now _after.now _object _reading }
{}
