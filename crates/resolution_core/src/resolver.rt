ghost use Rattle.std.specs.Prelude.{◌≡◌, ◌<◌, ◌∷◌, [], ℕ, List, length, slice_set, true, false, not, ◌&&◌, is_none, Option, Some, None, IfOk, IfSome};
ghost use Rattle.std.specs.List.{list_all};
ghost use Rattle.cover_table.specs.Cover.{has_bit, IsLeastCover};
ghost use Rattle.core_words.specs.Joining.{IsCoverOf};
ghost use Rattle.caa_base.specs.declared.written.entry.Entry.{Entry as EntryValue};
ghost use Rattle.place_plan.specs.Plans.PlanValue.{Plan as PlanValue};
ghost use Rattle.place_plan.specs.Plans.Places.{internal_of, roles_of};
ghost use Rattle.place_plan.specs.RulesOfJournals.Raising.{exceptions_raised, is_raised, is_halted, all_are_halted, exception_resolved};
ghost use Rattle.resolution_core.specs.inner.Recoveries.{at, resolved_to, IsRunning, ChangesAt, Raised, Informed};
ghost use Rattle.resolution_core.specs.inner.Standing.{StandsFor, Acts};

use crate::recovery::Recovery;
use caa_base::written::entry::{Exception, OutOfMemory, Participant, Place};
use core_words::crew::{are_in, is_in, with};
use core_words::joining::joined;
use exception_graph::Graph;
use place_plan::plans::plan::Plan;
use std::alloc::Global;
use std::marker::Model;

/// How far each place has come in recovering together, seen as the list of these recoveries.
#[derive(Drop)]
pub struct Resolver {
    places: Vec<Recovery>,
}

impl Model for Resolver {
    ghost use Rattle.std.specs.Prelude.{List};
    ghost use Rattle.resolution_core.specs.declared.recovery.Recovery.{Recovery as RecoveryValue};

    ghost Value = { List RecoveryValue };

    ghost view = { λ resolver. resolver.places.items };
}

/// Nothing is raised, and nobody is halted.
const UNRAISED: Recovery = Recovery {
    halted: 0,
    cover: None,
    resolved: None,
};

impl Resolver {
    /// Nothing is raised anywhere.
    pub fn open(alloc: Global, plan: &Plan) -> Result<Resolver, OutOfMemory>
        ensures { IfOk result (λ resolver. StandsFor plan.now [] resolver) }
    {
        let places = vec![in alloc; UNRAISED; plan.places() as usize]?;
        Ok(Resolver { places })
    }

    /// What is kept of a place.
    #[inline(always)]
    fn row(&self, place: Place) -> Recovery
        ensures { result ≡ at self.now place }
    {
        match self.places.get(place as usize) {
            Some(row) => *row,
            None => UNRAISED,
        }
    }

    /// Halts a participant in a place, and joins an exception to its cover.
    fn add(&mut self, graph: &Graph, place: Place, by: Participant, exception: Exception)
        requires there { place < length self.old }
        requires known { by < 64 }
        requires in_range { exception < graph.now.count }
        requires covered { IfSome (at self.old place).cover (λ x. x < graph.now.count) }
        ensures { ChangesAt (Raised graph.now by exception) place self.old self.new }
    {
        let old = self.row(place);
        let cover = joined(graph, old.cover, exception);
        self.places[place as usize] = Recovery {
            halted: with(old.halted, by),
            cover: Some(cover),
            resolved: old.resolved,
        };
    }

    /// Halts a participant in a place.
    fn halt(&mut self, place: Place, by: Participant)
        requires there { place < length self.old }
        requires known { by < 64 }
        ensures { ChangesAt (Informed by) place self.old self.new }
    {
        let old = self.row(place);
        self.places[place as usize] = Recovery {
            halted: with(old.halted, by),
            ..old
        };
    }

    /// Notes the exception to which a place is resolved.
    fn settle(&mut self, place: Place, exception: Exception)
        requires { place < length self.old }
        ensures { self.new ≡ slice_set self.old place (resolved_to exception (at self.old place)) }
    {
        self.places[place as usize].resolved = Some(exception);
    }

    /// A participant raises an exception in a place, or a refused put or a nested place does so for it.
    ///
    /// The cover of the place goes on from it, and the participant is halted there. All other places stay as they are.
    pub fn raise(&mut self, plan: &Plan, place: Place, by: Participant, exception: Exception)
        requires running { IsRunning self.old place by }
        requires in_range { exception < (internal_of plan.now place).count }
        requires covered { IfSome (at self.old place).cover (λ x. x < (internal_of plan.now place).count) }
        ensures raised { ChangesAt (Raised (internal_of plan.now place) by exception) place self.old self.new }
        ensures keeps { (past : List EntryValue) (e : EntryValue) → StandsFor plan.now past self.old
            → Acts plan.now past e place by (exception ∷ []) true false → StandsFor plan.now (e ∷ past) self.new }
    {
        let graph = plan.internal(place);
        graph.is_sound();
        self.add(graph, place, by, exception);
    }

    /// A participant learns that something was raised in a place, and is halted there. All else stays as it is.
    pub fn inform(&mut self, plan: &Plan, place: Place, by: Participant)
        requires running { IsRunning self.old place by }
        ensures informed { ChangesAt (Informed by) place self.old self.new }
        ensures keeps { (past : List EntryValue) (e : EntryValue) → StandsFor plan.now past self.old
            → Acts plan.now past e place by [] true false → StandsFor plan.now (e ∷ past) self.new }
    {
        plan.is_closed();
        self.halt(place, by);
    }

    /// Whether something was raised in a place.
    #[inline(always)]
    pub fn is_raised(&self, place: Place) -> bool
        ensures kept { result ≡ not (is_none (at self.now place).cover) }
        ensures by_journal { (plan : PlanValue) (past : List EntryValue) → StandsFor plan past self.now
            → result ≡ is_raised plan past place }
    {
        self.row(place).cover.is_some()
    }

    /// Whether a participant is halted in a place of the plan.
    #[inline(always)]
    pub fn is_halted(&self, plan: &Plan, place: Place, by: Participant) -> bool
        ensures kept { result ≡ has_bit (at self.now place).halted by }
        ensures by_journal { (past : List EntryValue) → StandsFor plan.now past self.now
            → result ≡ is_halted plan.now past place by }
    {
        plan.is_closed();
        is_in(self.row(place).halted, by)
    }

    /// The exception to which a place is resolved, if it is.
    #[inline(always)]
    pub fn resolved(&self, place: Place) -> Option<Exception>
        ensures kept { result ≡ (at self.now place).resolved }
        ensures by_journal { (plan : PlanValue) (past : List EntryValue) → StandsFor plan past self.now
            → result ≡ exception_resolved past place }
    {
        self.row(place).resolved
    }

    /// The least cover of what was raised in a place, where something was.
    #[inline(always)]
    pub fn cover(&self, place: Place) -> Option<Exception>
        ensures kept { result ≡ (at self.now place).cover }
        ensures by_journal { (plan : PlanValue) (past : List EntryValue) → StandsFor plan past self.now
            → IsCoverOf (internal_of plan place) (exceptions_raised plan past place) result }
    {
        self.row(place).cover
    }

    /// Whether each role of a place is halted, and it isn't resolved.
    pub fn ready(&self, plan: &Plan, place: Place) -> bool
        ensures kept { result ≡ (list_all (has_bit (at self.now place).halted) (roles_of plan.now place)
            && is_none (at self.now place).resolved) }
        ensures by_journal { (past : List EntryValue) → StandsFor plan.now past self.now
            → result ≡ (all_are_halted plan.now past place && is_none (exception_resolved past place)) }
    {
        let row = self.row(place);
        are_in(row.halted, plan.roles_of(place)) && row.resolved.is_none()
    }

    /// Resolves a place to the least cover of what was raised in it, and answers that. All other places stay as they are.
    pub fn resolve(&mut self, place: Place) -> Exception
        requires there { place < length self.old }
        requires raised { is_none (at self.old place).cover ≡ false }
        requires unresolved { (at self.old place).resolved ≡ None }
        ensures cover { (at self.old place).cover ≡ Some result }
        ensures resolved { self.new ≡ slice_set self.old place (resolved_to result (at self.old place)) }
        ensures least { (plan : PlanValue) (past : List EntryValue) → StandsFor plan past self.old
            → IsLeastCover (internal_of plan place) (exceptions_raised plan past place) result }
        ensures keeps { (plan : PlanValue) (past : List EntryValue) (e : EntryValue) (by : ℕ) → StandsFor plan past self.old
            → e.arg ≡ result → Acts plan past e place by [] false true → StandsFor plan (e ∷ past) self.new }
    {
        match self.row(place).cover {
            None => unreachable!(),
            Some(cover) => {
                self.settle(place, cover);
                cover
            }
        }
    }
}
