//! A cursor over a journal, which tells at each entry where everybody stands.

ghost use Rattle.std.specs.Prelude.{◌≡◌, ◌<◌, ◌≤◌, ℕ, length, take, reverse, IfOk, IfSome, Some, slice_index_or};
ghost use Rattle.place_plan.specs.RulesOfJournals.Whereabouts.{inside};
ghost use Rattle.place_plan.specs.RulesOfJournals.Raising.{is_raised};
ghost use Rattle.place_plan.specs.RulesOfJournals.Objects.{holder_of, value_of};
ghost use Rattle.place_plan.specs.RulesOfJournals.Journals.{LegalPast};
ghost use Rattle.place_plan.proofs.OnJournals.LegalProp.{LegalPast-prop};
ghost use Rattle.action_core.specs.inner.KeptPast.{StandsFor as TablesStand};
ghost use Rattle.action_core.specs.inner.OneWay.{StandsFor-prop};

use crate::spots::{Spot, phase_in};
use action_core::Tables;
use caa_base::written::entry::{Entry, Object, OutOfMemory, Participant, Place};
use journal_replay::audit::may_follow;
use journal_replay::moves::{Lack, Move, Wait};
use journal_replay::past::Past;
use journal_replay::records::Records;
use journal_replay::rule::move_of;
use place_plan::plans::plan::Plan;
use std::alloc::Global;

/// A journal, of which so many entries were taken in: all those are legal.
///
/// It tells where everybody stands after them. To go through a whole journal costs about what an audit costs.
#[derive(Drop)]
pub struct States<'a> {
    plan: &'a Plan,
    entries: &'a [Entry],
    taken: usize,
    tables: Tables,
    ghost within: { taken ≤ length entries.now },
    ghost legal: { LegalPast plan.now (reverse (take taken entries.now)) } by { LegalPast-prop plan.now (reverse (take taken entries.now)) },
    ghost stands: { TablesStand plan.now (reverse (take taken entries.now)) tables } by { StandsFor-prop plan.now (reverse (take taken entries.now)) tables },
}

impl<'a> States<'a> {
    ghost use Rattle.journal_replay.specs.Moves.{IsMove};
    ghost use Rattle.journal_replay.specs.PastParts.{plan_of, entries_of};
    ghost use Rattle.journal_states.specs.Past.{plan_in, journal_in, taken_in, past_in, Stepped};
    ghost use Rattle.journal_states.specs.Spots.{spot_in, spot_of};
    ghost use Rattle.journal_states.specs.Waits.{is_awaited, is_lacking};

    /// The cursor before the first entry.
    pub fn open(
        alloc: Global,
        plan: &'a Plan,
        entries: &'a [Entry],
    ) -> Result<States<'a>, OutOfMemory>
        ensures plan { IfOk result (λ states. plan_in states ≡ plan.now) }
        ensures journal { IfOk result (λ states. journal_in states ≡ entries.now) }
        ensures taken { IfOk result (λ states. taken_in states ≡ 0) }
    {
        let tables = Tables::open(alloc, plan)?;
        Ok(States {
            plan,
            entries,
            taken: 0,
            tables,
        })
    }

    /// Takes in the next entry, if there is one and the rules let it come; else nothing changes.
    pub fn step(&mut self) -> bool
        ensures plan { plan_in self.new ≡ plan_in self.old }
        ensures journal { journal_in self.new ≡ journal_in self.old }
        ensures stepped { Stepped self.old self.new result }
    {
        let Some(entry) = self.entries.get(self.taken) else {
            return false;
        };
        if !may_follow(&self.past(), entry) {
            return false;
        }
        self.tables
            .note(self.plan, &self.entries[..self.taken], entry);
        self.taken += 1;
        true
    }

    /// The plan of the journal.
    pub fn plan(&self) -> &Plan
        ensures { result.now ≡ plan_in self.now }
    {
        self.plan
    }

    /// Whether the next entry may not come by the rules, or there is none.
    pub fn is_at_end(&self) -> bool {
        match self.entries.get(self.taken) {
            Some(entry) => !may_follow(&self.past(), entry),
            None => true,
        }
    }

    /// How many entries were taken in.
    pub fn taken(&self) -> usize
        ensures { result ≡ taken_in self.now }
    {
        self.taken
    }

    /// What came before.
    fn past(&self) -> Past<'_, Tables>
        ensures plan { plan_of result ≡ plan_in self.now }
        ensures entries { entries_of result ≡ past_in self.now }
    {
        Past {
            plan: self.plan,
            records: &self.tables,
            journal: &self.entries[..self.taken],
        }
    }

    /// What a participant may do, or what it waits for. It mixes nothing. A participant that the plan doesn't have is over.
    pub fn move_of(&self, by: Participant) -> Move
        ensures { by < length (plan_in self.now).participants → IsMove (plan_in self.now) (past_in self.now) by result }
    {
        if by >= self.plan.participants() {
            return Move::Over;
        }
        move_of(&self.past(), by)
    }

    /// The innermost place that a participant is in.
    pub fn place_of(&self, by: Participant) -> Option<Place>
        ensures { by < length (plan_in self.now).participants → result ≡ inside (plan_in self.now) (past_in self.now) by }
    {
        if by >= self.plan.participants() {
            return None;
        }
        Tables::inside(&self.past(), by)
    }

    /// The value of an object; 0 for one that the plan doesn't have.
    pub fn value(&self, object: Object) -> i64
        ensures { object < length (plan_in self.now).objects → result ≡ value_of (plan_in self.now) (past_in self.now) object }
    {
        if object >= self.plan.objects() {
            return 0;
        }
        Tables::value_at(&self.past(), object)
    }

    /// Whether a wait is for this participant: what is lacking in the place is said of each role, and isn't so of this one. A wait for
    /// objects is for nobody.
    pub fn is_awaited(&self, wait: &Wait, role: Participant) -> bool
        ensures { result ≡ is_awaited (plan_in self.now) (past_in self.now) wait.now.place wait.now.lack role }
    {
        let past = self.past();
        match wait.lack {
            Lack::Roles => Tables::inside(&past, role) != Some(wait.place),
            Lack::Halts => !Tables::is_halted(&past, wait.place, role),
            Lack::Verdicts => !Tables::has_given(
                &past,
                wait.place,
                role,
                self.is_raised(wait.place),
            ),
            Lack::GiveUps => !Tables::has_aborted(&past, wait.place, role),
            Lack::Objects | Lack::Object(_) => false,
        }
    }

    /// Whether something was raised in a place.
    pub fn is_raised(&self, place: Place) -> bool
        ensures { result ≡ is_raised (plan_in self.now) (past_in self.now) place }
    {
        Tables::course_of(&self.past(), place).is_raised
    }

    /// The place that holds an object, if one does.
    pub fn holder(&self, object: Object) -> Option<Place>
        ensures { result ≡ holder_of (plan_in self.now) (past_in self.now) object }
    {
        self.plan.is_closed();
        if object < self.plan.objects() {
            Tables::holder_of(&self.past(), object)
        } else {
            None
        }
    }

    /// Whether the place round this one, or nobody for a play, doesn't hold an object of it.
    pub fn is_lacking(&self, place: Place, object: Object) -> bool
        ensures { result ≡ is_lacking (plan_in self.now) (past_in self.now) place object }
    {
        self.holder(object) != self.plan.parent(place)
    }

    /// Where in its program a participant stands, if it is in a place.
    pub fn spot(&self, by: Participant) -> Option<Spot>
        ensures { result ≡ spot_of (plan_in self.now) (past_in self.now) by }
    {
        let past = self.past();
        match Tables::inside(&past, by) {
            Some(place) => Some(self.spot_in(place, by)),
            None => None,
        }
    }

    /// How far a participant has come in the place that it is in.
    fn spot_in(&self, place: Place, by: Participant) -> Spot
        requires { inside (plan_in self.now) (past_in self.now) by ≡ Some place }
        ensures { result ≡ spot_in (plan_in self.now) (past_in self.now) place by }
    {
        let past = self.past();
        let progress = Tables::progress_of(&past, place, by);
        Spot {
            place,
            phase: phase_in(&Tables::course_of(&past, place), progress.handled),
            handled: progress.handled,
            step: progress.position,
        }
    }
}
