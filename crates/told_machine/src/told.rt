ghost use Rattle.std.specs.Prelude.{◌≡◌, ◌<◌, ◌≤◌, ◌∷◌, ◌++◌, [], length, reverse, IfOk, IsTrue, ◌↔◌, None};
ghost use Rattle.std.specs.Coded.{Coded-set, coded_list, coded_ℕ};
ghost use Rattle.caa_base.specs.declared.written.entry.Kind.TheVariants as kind;
ghost use Rattle.place_plan.specs.Plans.Bound.{bound};
ghost use Rattle.place_plan.specs.RulesOfJournals.Entries.{is_in, newest};
ghost use Rattle.place_plan.specs.RulesOfJournals.Objects.{value_of};
ghost use Rattle.place_plan.specs.RulesOfJournals.Rules.{MayFollow};
ghost use Rattle.place_plan.specs.RulesOfJournals.Journals.{LegalPast, IsLegal, IsComplete};
ghost use Rattle.place_plan.proofs.OnJournals.LegalProp.{LegalPast-prop};
ghost use Rattle.journal_replay.specs.Moves.{IsMove};
ghost use Rattle.journal_replay.specs.Questions.{outcome_of_end};
ghost use Rattle.told_machine.specs.Tickets.{made_by_each};
ghost use Rattle.told_machine.specs.inner.Putting.{BothMayFollow, BothMayFollow-prop};

use crate::made::Made;
use crate::next::Next;
use caa_base::written::entry::{Entry, Object, OutOfMemory, Outcome, Participant, Place};
use caa_base::written::journal::Journal;
use journal_laws::{is_bounded, is_well_formed};
use journal_replay::moves::{Move, refused};
use journal_replay::past::Past;
use journal_replay::questions::is_over;
use journal_replay::records::Records;
use journal_replay::rule::move_of;
use place_plan::plans::plan::Plan;
use std::alloc::Global;

/// A machine that is told whether its puts were done, and when its works are.
///
/// Contracts see its plan, its journal, and the put that it has asked for and not been told of yet. The journal is legal at all times.
/// No call but `open` takes memory.
#[derive(Drop)]
pub struct Told<R: Records> {
    plan: Plan,
    journal: Journal,
    records: R,
    made: Made,
    asked: Option<Entry>,
    ghost legal: { LegalPast plan (reverse journal.entries) } by { LegalPast-prop plan (reverse journal.entries) },
    ghost room: { bound plan ≤ journal.room },
    ghost stands: { R.stand_for records plan (reverse journal.entries) } by { R.one_way records plan (reverse journal.entries) },
    ghost counted: { made ≡ made_by_each plan (reverse journal.entries) } by { Coded-set (coded_list coded_ℕ) made (made_by_each plan (reverse journal.entries)) },
    ghost both: { BothMayFollow plan (reverse journal.entries) asked } by { BothMayFollow-prop plan (reverse journal.entries) asked },
}

impl<R: Records> Told<R> {
    ghost use Rattle.told_machine.specs.Told.{plan_in, journal_in, asked_in, Nexts, Answered, Worked};
    ghost use Rattle.journal_replay.specs.PastParts.{plan_of, entries_of};

    /// A machine at the beginning of a plan. All its memory is taken here.
    pub fn open(alloc: Global, plan: Plan) -> Result<Told<R>, OutOfMemory>
        ensures plan { IfOk result (λ told. plan_in told ≡ plan) }
        ensures journal { IfOk result (λ told. journal_in told ≡ []) }
        ensures asked { IfOk result (λ told. asked_in told ≡ None) }
    {
        let journal = Journal::with_room(alloc, plan.bound())?;
        let records = R::open(alloc, &plan)?;
        let made = Made::none(alloc, &plan)?;
        Ok(Told {
            plan,
            journal,
            records,
            made,
            asked: None,
        })
    }

    /// What came before.
    #[inline(always)]
    fn past(&self) -> Past<'_, R>
        ensures plan { plan_of result ≡ plan_in self.now }
        ensures entries { entries_of result ≡ reverse (journal_in self.now) }
    {
        Past {
            plan: &self.plan,
            records: &self.records,
            journal: self.journal.as_slice(),
        }
    }

    /// What a participant may do.
    #[inline(always)]
    fn move_of(&self, by: Participant) -> Move
        ensures { IsMove (plan_in self.now) (reverse (journal_in self.now)) by result }
    {
        move_of(&self.past(), by)
    }

    /// Adds an entry, where no put is asked for.
    fn add(&mut self, entry: Entry)
        requires free { asked_in self.old ≡ None }
        requires may { MayFollow (plan_in self.old) (reverse (journal_in self.old)) entry }
        ensures plan { plan_in self.new ≡ plan_in self.old }
        ensures journal { journal_in self.new ≡ journal_in self.old ++ entry ∷ [] }
        ensures asked { asked_in self.new ≡ None }
    {
        is_bounded(&self.plan);
        is_well_formed(&self.plan);
        self.records
            .note(&self.plan, self.journal.as_slice(), &entry);
        self.made.note(entry.by, self.journal.as_slice());
        self.journal.push(entry);
    }

    /// Makes the entry that is next for a participant, or says what it is to do before, or why it has none.
    ///
    /// Where a put is asked for that isn't answered yet, that is said again, whoever is asked, and nothing changes. No work is mixed.
    pub fn next(&mut self, by: Participant) -> Next
        requires { by < length (plan_in self.old).participants }
        ensures plan { plan_in self.new ≡ plan_in self.old }
        ensures next { Nexts (plan_in self.old) (journal_in self.old) (journal_in self.new) by (asked_in self.old) (asked_in self.new) result }
    {
        if let Some(put) = self.asked {
            return Next::Busy(put);
        }
        match self.move_of(by) {
            Move::Make(entry) => {
                self.add(entry);
                Next::Did(entry)
            }
            Move::Put(put) => {
                self.asked = Some(put);
                Next::Puts(put)
            }
            Move::Mix(work) => Next::Works {
                work,
                ticket: self.made.by(by),
            },
            Move::Wait(wait) => Next::Waits(wait),
            Move::Over => Next::Over,
        }
    }

    /// Takes the answer to the put that was asked for, and makes its entry: that of the put where it was done, and that of its refusal
    /// where it wasn't. None: no put was asked for, and nothing changed.
    pub fn answer(&mut self, done: bool) -> Option<Entry>
        ensures plan { plan_in self.new ≡ plan_in self.old }
        ensures answered { Answered (journal_in self.old) (journal_in self.new) (asked_in self.old) (asked_in self.new) done result }
    {
        let put = self.asked?;
        let entry = if done { put } else { refused(put) };
        self.asked = None;
        self.add(entry);
        Some(entry)
    }

    /// Makes the entry of the work with this ticket, since it is done. It mixes for all rounds of the work.
    ///
    /// None: a put isn't answered yet, or the participant isn't at the work of this ticket any more; and nothing changed.
    pub fn work_done(&mut self, by: Participant, ticket: u64) -> Option<Entry>
        requires { by < length (plan_in self.old).participants }
        ensures plan { plan_in self.new ≡ plan_in self.old }
        ensures asked { asked_in self.new ≡ asked_in self.old }
        ensures worked { Worked (plan_in self.old) (journal_in self.old) (journal_in self.new) by (asked_in self.old) ticket result }
    {
        if self.asked.is_some() || self.made.by(by) != ticket {
            return None;
        }
        match self.move_of(by) {
            Move::Mix(work) => {
                let entry = work.entry(by);
                self.add(entry);
                Some(entry)
            }
            _ => None,
        }
    }

    /// The plan that is played.
    pub fn plan(&self) -> &Plan
        ensures { result.now ≡ plan_in self.now }
    {
        &self.plan
    }

    /// The journal so far, which is legal.
    pub fn journal(&self) -> &Journal
        ensures entries { result.now.entries ≡ journal_in self.now }
        ensures legal { IsLegal (plan_in self.now) result.now.entries }
    {
        &self.journal
    }

    /// Whether each participant is over.
    pub fn complete(&self) -> bool
        ensures { IsTrue result ↔ IsComplete (plan_in self.now) (journal_in self.now) }
    {
        let past = self.past();
        for by in 0..self.plan.participants() {
            if !is_over(&past, by) {
                return false;
            }
        }
        true
    }

    /// The value of an object by the journal.
    pub fn value(&self, object: Object) -> i64
        requires { object < length (plan_in self.now).objects }
        ensures { result ≡ value_of (plan_in self.now) (reverse (journal_in self.now)) object }
    {
        R::value_at(&self.past(), object)
    }

    /// How a place ended, if it did.
    pub fn outcome(&self, place: Place) -> Option<Outcome>
        ensures { result ≡ outcome_of_end (newest (is_in kind.End place) (reverse (journal_in self.now))) }
    {
        R::outcome_of(&self.past(), place)
    }
}
