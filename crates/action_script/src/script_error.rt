ghost use Rattle.std.specs.Prelude.{◌≡◌};
ghost use Rattle.action_script.specs.Phrases.{phrase_of};
ghost use Rattle.action_script.specs.declared.script_error.ScriptCause.TheVariants as cause;

use caa_base::written::entry::OutOfMemory;
use std::alloc::{AllocError, AllocFailed};
use std::{error, fmt};
use thiserror::Error;

/// What is wrong with a script. It is shown as its number and its word.
#[derive(Clone, Copy, Debug, PartialEq, Eq)]
pub enum ScriptCause {
    /// The line has a byte that no line may have, or is of no kind that may stand there, or has too few or too many words, or
    /// no test where one is asked for; or the script ends inside a graph or an action.
    BadLine = 1,
    /// A word isn't the number that is asked for at its place.
    BadNumber = 2,
    /// A word isn't a name where one is asked for.
    BadName = 3,
    /// The script has more bytes than a script may have, or the line more than a line.
    TooLong = 4,
    /// No memory was found.
    OutOfMemory = 5,
}

/// Why a script wasn't read: its first fault, or want of memory.
#[derive(Clone, Copy, Debug, PartialEq, Eq, Error)]
#[error("line {line}: {cause}")]
pub struct ScriptError {
    /// The line, counted from 1; 0 where the script as a whole is at fault.
    pub line: u32,
    pub cause: ScriptCause,
}

impl ScriptCause {
    /// Its number and its word.
    pub fn phrase(self) -> &'static str
        ensures { result.now ≡ phrase_of self }
    {
        match self {
            ScriptCause::BadLine => "1 bad-line",
            ScriptCause::BadNumber => "2 bad-number",
            ScriptCause::BadName => "3 bad-name",
            ScriptCause::TooLong => "4 too-long",
            ScriptCause::OutOfMemory => "21 out-of-memory",
        }
    }
}

impl fmt::Display for ScriptCause {
    fn fmt<W: fmt::Write>(&self, f: &mut fmt::Formatter<W>) -> fmt::Result {
        f.write_str(self.phrase())
    }
}

impl error::Error for ScriptCause {}

impl From<OutOfMemory> for ScriptCause {
    ghost from_gives = { λ _ e. e ≡ cause.OutOfMemory };

    fn from(_error: OutOfMemory) -> ScriptCause {
        ScriptCause::OutOfMemory
    }
}

impl From<AllocError> for ScriptCause {
    ghost from_gives = { λ _ e. e ≡ cause.OutOfMemory };

    fn from(_error: AllocError) -> ScriptCause {
        ScriptCause::OutOfMemory
    }
}

impl<T: Drop> From<AllocFailed<T>> for ScriptCause {
    ghost from_gives = { λ _ e. e ≡ cause.OutOfMemory };

    fn from(_error: AllocFailed<T>) -> ScriptCause {
        ScriptCause::OutOfMemory
    }
}
