//! What the rules let a participant do next, or what it lacks, in one form.
//!
//! Work of which nothing has been mixed is a move of its own, and its result is taken from a hint. So a call of `next` never mixes: a
//! participant that works does so before the call, and keeps nobody waiting. Whoever asks by `due` has the work done in that call,
//! since `due` tells the whole entry.

ghost use Rattle.std.specs.Prelude.{◌≡◌};
ghost use Rattle.place_plan.specs.RulesOfJournals.Machine.{work_entry};
ghost use Rattle.journal_laws.specs.Due.{as_refused};

use caa_base::written::entry::{Entry, Kind, Object, Participant, Place};
use caa_base::written::work::WorkDone;

/// A piece of mixing work that a participant is to do next.
#[derive(Clone, Copy, PartialEq, Eq)]
pub struct Work {
    pub place: Place,
    pub rounds: u32,
    /// The register that the mixing starts from.
    pub from: i64,
}

impl Work {
    /// The entry of this work, done by this participant; `done` brings its result.
    pub(crate) fn mixed(&self, by: Participant, done: &WorkDone) -> Entry
        requires rounds { done.now.rounds ≡ self.now.rounds }
        requires from { done.now.from ≡ self.now.from }
        ensures { result ≡ work_entry self.now.place by self.now.rounds self.now.from }
    {
        Entry {
            kind: Kind::Work,
            place: self.place,
            by,
            arg: self.rounds,
            mark: 0,
            value: done.result(),
        }
    }

    /// The same, where the work is done here: it mixes for all the rounds.
    pub fn entry(&self, by: Participant) -> Entry
        ensures { result ≡ work_entry self.now.place by self.now.rounds self.now.from }
    {
        self.mixed(by, &WorkDone::make(self.from, self.rounds))
    }
}

/// What isn't so yet in a place, and has to be before somebody who waits there goes on.
#[derive(Clone, Copy, PartialEq, Eq)]
pub enum Lack {
    /// Not all roles are in the place: it can't start, or it is doomed and they have to come back to it.
    Roles,
    /// All roles are in it, but the place round it, or nobody for a play, doesn't hold all its objects.
    Objects,
    /// Something was raised in it, and not all its roles are halted.
    Halts,
    /// Not all its roles have given their verdicts.
    Verdicts,
    /// It is doomed, and not all its roles have given up.
    GiveUps,
    /// The next step reads or writes this object, which the place doesn't hold: a place inside does.
    Object(Object),
}

/// The place in which a participant waits, and what is lacking there.
#[derive(Clone, Copy, PartialEq, Eq)]
pub struct Wait {
    pub place: Place,
    pub lack: Lack,
}

/// What a participant may do after some entries of a journal, or what it lacks.
#[derive(Clone, Copy, PartialEq, Eq)]
pub enum Move {
    /// It may make this entry, and no other.
    Make(Entry),
    /// It may put a value: it makes this entry where the device takes the put, and `refused` of it where the device refuses.
    Put(Entry),
    /// It may make the entry of this work, and no other. Nothing was mixed yet.
    Mix(Work),
    /// It may make no entry until something comes.
    Wait(Wait),
    /// It is through with all its plays.
    Over,
}

/// The entry of a put, where the device refuses it. An entry that puts nothing is itself.
pub fn refused(put: Entry) -> Entry
    ensures { result ≡ as_refused put.kind put }
{
    match put.kind {
        Kind::Write => Entry {
            kind: Kind::PutFault,
            ..put
        },
        Kind::Restore => Entry { mark: 1, ..put },
        _ => put,
    }
}
