//! What C is told of what is next for a participant.

ghost use Rattle.std.specs.Prelude.{◌≡◌};
ghost use Rattle.caa_c.specs.Steps.{bare_step, put_step, object_lacking, step_of};

use crate::code::{Code, lack_number};
use caa_base::written::entry::{Entry, Kind, Object};
use journal_replay::moves::Lack;
use told_machine::Next;

/// What is next for a participant. What an answer doesn't say is 0.
#[repr(C)]
#[derive(Clone, Copy)]
pub struct Step {
    /// The answer, by its number.
    pub what: u32,
    /// The place of the entry, the work, the put or the wait.
    pub place: u32,
    /// The object of a put, or the one that is lacking.
    pub object: u32,
    /// The rounds of a work.
    pub rounds: u32,
    /// What is lacking where it waits, by its number.
    pub lack: u32,
    /// The value that a put is to bring its object to.
    pub value: i64,
    /// The number of the entry that was made, counted from 0.
    pub entry: u64,
    /// The ticket of a work, by which its end is told.
    pub ticket: u64,
    /// The put brings its object back, since an action is undone.
    pub restores: bool,
}

/// This answer, and nothing besides.
pub fn bare_step(code: Code) -> Step
    ensures { result ≡ bare_step code }
{
    Step {
        what: code.number(),
        place: 0,
        object: 0,
        rounds: 0,
        lack: 0,
        value: 0,
        entry: 0,
        ticket: 0,
        restores: false,
    }
}

/// The put or restore of this entry is to be done.
fn put_step(code: Code, put: &Entry) -> Step
    ensures { result ≡ put_step code put.now }
{
    Step {
        place: put.place,
        object: put.arg,
        value: put.value,
        restores: put.kind == Kind::Restore,
        ..bare_step(code)
    }
}

/// The object that is lacking, if it is one.
fn object_lacking(lack: Lack) -> Object
    ensures { result ≡ object_lacking lack }
{
    match lack {
        Lack::Object(object) => object,
        _ => 0,
    }
}

/// What C is told of an answer of the machine, at a journal of so many entries.
pub fn step_of(next: &Next, entries: u64) -> Step
    ensures { result ≡ step_of next.now entries }
{
    match next {
        Next::Did(entry) => Step {
            place: entry.place,
            entry: entries,
            ..bare_step(Code::Did)
        },
        Next::Works { work, ticket } => Step {
            place: work.place,
            rounds: work.rounds,
            ticket: *ticket,
            ..bare_step(Code::Works)
        },
        Next::Puts(put) => put_step(Code::Puts, put),
        Next::Busy(put) => put_step(Code::Busy, put),
        Next::Waits(wait) => Step {
            place: wait.place,
            lack: lack_number(wait.lack),
            object: object_lacking(wait.lack),
            ..bare_step(Code::Waits)
        },
        Next::Over => bare_step(Code::Over),
    }
}
