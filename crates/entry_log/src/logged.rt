//! A machine that tells a log of each entry.

ghost use Rattle.std.specs.Prelude.{◌≡◌, List};
ghost use Rattle.caa_base.specs.declared.written.entry.Entry.{Entry as JournalEntry};
ghost use Rattle.entry_log.specs.Telling.{after_answer, MadeWell};

use crate::log::Log;
use caa_base::written::entry::{Entry, Object, Participant, Place};
use caa_base::written::work::WorkDone;
use journal_laws::is_well_formed;
use place_plan::plans::plan::Plan;
use place_plan::rules::machine::{Answer, Machine};

/// A machine with a log that is told of each entry before the call that makes it returns.
///
/// To others it is the machine. So at each call of `next`, and at each put within it, the log has been told of all entries before.
#[derive(Drop)]
pub struct Logged<M: Machine, L: Log> {
    machine: M,
    log: L,
    ghost told: { ∥ L.tells log (M.plan_of machine) (M.journal_of machine) ∥₁ },
}

/// Tells a log of the entry that was made, if one was.
fn tell<L: Log>(log: &mut L, plan: &Plan, answer: &Answer)
    requires formed { MadeWell plan.now answer.now }
    ensures grown { (journal : List JournalEntry)
        → L.tells log.old plan.now journal → L.tells log.new plan.now (after_answer answer.now journal) }
{
    if let Answer::Did(entry) = answer {
        log.add(plan, entry);
    }
}

impl<M: Machine, L: Log> Logged<M, L> {
    /// A machine with a log that tells of its journal.
    pub fn new(machine: M, log: L) -> Logged<M, L>
        requires told { L.tells log (M.plan_of machine) (M.journal_of machine) }
        ensures machine { result.machine ≡ machine }
        ensures log { result.log ≡ log }
    {
        Logged { machine, log }
    }

    /// The machine and the log.
    pub fn into_parts(self) -> (M, L)
        ensures machine { result.0 ≡ self.machine }
        ensures log { result.1 ≡ self.log }
        ensures told { ∥ L.tells result.1 (M.plan_of result.0) (M.journal_of result.0) ∥₁ }
    {
        (self.machine, self.log)
    }
}

impl<M: Machine, L: Log> Machine for Logged<M, L> {
    ghost plan_of = { λ logged. M.plan_of logged.machine };

    ghost journal_of = { λ logged. M.journal_of logged.machine };

    ghost base_of = { λ logged. M.base_of logged.machine };

    ghost count_of = { λ logged. M.count_of logged.machine };

    ghost legal = { λ logged. M.legal logged.machine };

    ghost counted = { λ logged. M.counted logged.machine };

    ghost faulted = { λ logged. M.faulted logged.machine };

    fn plan(&self) -> &Plan {
        self.machine.plan()
    }

    /// Asks the machine, and tells the log of the entry that it made.
    fn next(&mut self, by: Participant, hint: Option<WorkDone>) -> Answer {
        is_well_formed(self.machine.plan());
        let answer = self.machine.next(by, hint);
        tell(&mut self.log, self.machine.plan(), &answer);
        answer
    }

    /// Has the machine add the entry, and tells the log of it.
    fn work(&mut self, by: Participant, place: Place, done: &WorkDone) -> Entry {
        is_well_formed(self.machine.plan());
        let entry = self.machine.work(by, place, done);
        tell(&mut self.log, self.machine.plan(), &Answer::Did(entry));
        entry
    }

    fn journal_len(&self) -> u64 {
        self.machine.journal_len()
    }

    fn entry(&self, index: u64) -> Entry {
        self.machine.entry(index)
    }

    fn complete(&self) -> bool {
        self.machine.complete()
    }

    fn gathers(&self, entry: &Entry) -> bool {
        self.machine.gathers(entry)
    }

    fn value(&self, object: Object) -> i64 {
        self.machine.value(object)
    }
}
