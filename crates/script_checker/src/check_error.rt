ghost use Rattle.std.specs.Prelude.{◌≡◌};
ghost use Rattle.script_checker.specs.Causes.{phrase_of};
ghost use Rattle.script_checker.specs.declared.check_error.CheckCause.TheVariants as cause;

use caa_base::written::entry::OutOfMemory;
use std::alloc::{AllocError, AllocFailed};
use std::{error, fmt};
use thiserror::Error;

/// What is wrong with a line of a script that is written well.
///
/// Each cause has a number, from 10 on in this order, and `AlternateFace` is 22; where a line has several, the least is told. It is
/// shown as its number and its word.
#[derive(Clone, Copy, Debug, PartialEq, Eq)]
pub enum CheckCause {
    /// 10: a name that the line uses isn't declared.
    Unknown,
    /// 11: the line declares or says again what was declared or said already.
    Twice,
    /// 12: the line ends a graph in which this exception and another cover each other, and no lesser exception does so.
    Cycle { at: u32 },
    /// 13: the line ends a graph in which these two exceptions have no least cover, and no earlier two lack one.
    NoLeast { a: u32, b: u32 },
    /// 14: the line fills another number of roles than the action has, or ends an action that has none.
    RoleUnfilled,
    /// 15: the line fills two roles by one.
    RoleTwice,
    /// 16: the line ends an action in which a role doesn't enter just the uses that it fills, each once, in their order.
    NestOrder,
    /// 17: the line touches an object that the action doesn't use.
    ObjectNotHeld,
    /// 18: the line nests an action so that its own would be too deep.
    TooDeep,
    /// 19: the line passes a limit.
    Limit,
    /// 20: with this play a journal could have too many entries.
    JournalBound,
    /// 22: the line adds an action to a nested use whose first action has another interface graph.
    AlternateFace,
    /// 21: no memory was found.
    OutOfMemory,
}

/// Why a script has no plan: the first line that is refused, or want of memory.
#[derive(Clone, Copy, Debug, PartialEq, Eq, Error)]
#[error("line {line}: {cause}")]
pub struct CheckError {
    /// The number of the line in the text, counted from 1; 0 where memory was lacking before the first line or after the last.
    pub line: u32,
    pub cause: CheckCause,
}

impl CheckCause {
    /// Its number and its word.
    pub fn phrase(self) -> &'static str
        ensures { result.now ≡ phrase_of self }
    {
        match self {
            CheckCause::Unknown => "10 unknown",
            CheckCause::Twice => "11 twice",
            CheckCause::Cycle { at: _ } => "12 cycle",
            CheckCause::NoLeast { a: _, b: _ } => "13 no-least",
            CheckCause::RoleUnfilled => "14 role-unfilled",
            CheckCause::RoleTwice => "15 role-twice",
            CheckCause::NestOrder => "16 nest-order",
            CheckCause::ObjectNotHeld => "17 object-not-held",
            CheckCause::TooDeep => "18 too-deep",
            CheckCause::Limit => "19 limit",
            CheckCause::JournalBound => "20 journal-bound",
            CheckCause::AlternateFace => "22 alternate-face",
            CheckCause::OutOfMemory => "21 out-of-memory",
        }
    }
}

impl fmt::Display for CheckCause {
    fn fmt<W: fmt::Write>(&self, f: &mut fmt::Formatter<W>) -> fmt::Result {
        f.write_str(self.phrase())
    }
}

impl error::Error for CheckCause {}

impl From<OutOfMemory> for CheckCause {
    ghost from_gives = { λ _ e. e ≡ cause.OutOfMemory };

    fn from(_error: OutOfMemory) -> CheckCause {
        CheckCause::OutOfMemory
    }
}

impl From<AllocError> for CheckCause {
    ghost from_gives = { λ _ e. e ≡ cause.OutOfMemory };

    fn from(_error: AllocError) -> CheckCause {
        CheckCause::OutOfMemory
    }
}

impl<T: Drop> From<AllocFailed<T>> for CheckCause {
    ghost from_gives = { λ _ e. e ≡ cause.OutOfMemory };

    fn from(_error: AllocFailed<T>) -> CheckCause {
        CheckCause::OutOfMemory
    }
}
