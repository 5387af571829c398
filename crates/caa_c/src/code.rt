//! What C is answered, by number.

ghost use Rattle.std.specs.Prelude.{◌≡◌};
ghost use Rattle.caa_c.specs.Codes.{number_of, lack_number, outcome_number};

use caa_base::written::entry::Outcome;
use journal_replay::moves::Lack;

/// What a call answers.
#[derive(Clone, Copy)]
pub enum Code {
    /// No machine is open.
    Closed,
    /// It was done.
    Done,
    /// The script is refused.
    Refused,
    /// No memory was found.
    NoMemory,
    /// It doesn't fit: there is no such number, or nothing of that kind is next.
    Unfit,
    /// An entry was made.
    Did,
    /// The participant is at a work.
    Works,
    /// A put or a restore is to be done now.
    Puts,
    /// A put or a restore isn't answered yet.
    Busy,
    /// The participant waits.
    Waits,
    /// The participant is through with its plays.
    Over,
}

impl Code {
    /// Its number.
    pub fn number(self) -> u32
        ensures { result ≡ number_of self }
    {
        match self {
            Code::Closed => 0,
            Code::Done => 1,
            Code::Refused => 2,
            Code::NoMemory => 3,
            Code::Unfit => 4,
            Code::Did => 5,
            Code::Works => 6,
            Code::Puts => 7,
            Code::Busy => 8,
            Code::Waits => 9,
            Code::Over => 10,
        }
    }
}

/// The number of what is lacking.
pub fn lack_number(lack: Lack) -> u32
    ensures { result ≡ lack_number lack }
{
    match lack {
        Lack::Roles => 1,
        Lack::Objects => 2,
        Lack::Halts => 3,
        Lack::Verdicts => 4,
        Lack::GiveUps => 5,
        Lack::Object(_) => 6,
    }
}

/// The number of an outcome, or 0 where there is none.
pub fn outcome_number(outcome: Option<Outcome>) -> u32
    ensures { result ≡ outcome_number outcome }
{
    match outcome {
        None => 0,
        Some(Outcome::Commit) => 1,
        Some(Outcome::Signal(_)) => 2,
        Some(Outcome::Undone) => 3,
        Some(Outcome::Aborted) => 4,
        Some(Outcome::Failed) => 5,
    }
}
