ghost use Rattle.std.specs.Prelude.{◌≡◌, ◌==◌, ◌<◌, ◌≤◌, ◌||◌, ◌∷◌, [], ℕ, List, length, slice_get, slice_set, true, false, not, Some, IfOk, IfSome};
ghost use Rattle.cover_table.specs.Cover.{has_bit};
ghost use Rattle.core_words.specs.Joining.{as_list, IsCoverOf};
ghost use Rattle.caa_base.specs.Written.Limits.{most_objects, most_roles};
ghost use Rattle.caa_base.specs.Written.Lists.{member};
ghost use Rattle.caa_base.specs.declared.written.entry.Entry.{Entry as EntryValue};
ghost use Rattle.caa_base.specs.declared.written.entry.Kind.TheVariants as kind;
ghost use Rattle.place_plan.specs.Plans.PlanValue.{Plan as PlanValue};
ghost use Rattle.place_plan.specs.Plans.Places.{around, roles_of, objects_of, interface_of};
ghost use Rattle.place_plan.specs.RulesOfJournals.Entries.{has, is_by, newest};
ghost use Rattle.place_plan.specs.RulesOfJournals.Whereabouts.{is_undoing};
ghost use Rattle.place_plan.specs.RulesOfJournals.Raising.{is_doomed, is_raised};
ghost use Rattle.place_plan.specs.RulesOfJournals.Objects.{has_failed, next_restore};
ghost use Rattle.place_plan.specs.RulesOfJournals.Roles.{all_have_given, has_aborted, has_given, is_undo, signal_in, signals, wants_undo};
ghost use Rattle.action_endings.specs.inner.KeptEndings.{at, role_number, SignalsBelow, doomed_kept, name_in, name_kept, tried_kept, unsaid, StandsFor, StandsBut};
ghost use Rattle.action_endings.specs.inner.ChangedEndings.{ChangesAt, Gives, GivesUp, MaySay, marked, cleared, turned_back, tried_once_more, RaisesFirst, NoneCounts, Says, Aborts, TurnsBack, Restores, given_by, given_kept, signals_kept, AreKnown, agreed_outcome, IsReady, Concludes, SaysOutcome, IsRightEnd};

use crate::ending::Ending;
use crate::said::Said;
use caa_base::written::entry::{
    Exception, Object, OutOfMemory, Outcome, Participant, Place, Verdict,
};
use caa_base::written::limits::MOST_ROLES;
use core_words::crew::{is_in, with};
use core_words::joining::joined;
use place_plan::plans::plan::Plan;
use std::alloc::Global;
use std::marker::Model;

/// How far each place has come to its end, seen as the list of it.
#[derive(Drop)]
pub struct Endings {
    places: Vec<Ending>,
}

impl Model for Endings {
    ghost use Rattle.std.specs.Prelude.{List};
    ghost use Rattle.action_endings.specs.declared.ending.Ending.{Ending as EndingValue};

    ghost Value = { List EndingValue };

    ghost view = { λ e. e.places.items };
}

/// Nothing was said, and there are no objects.
const NO_ENDING: Ending = Ending {
    given: 0,
    aborted: 0,
    said: [Said::Done; MOST_ROLES],
    named: [None; MOST_ROLES],
    untried: 0,
    raised: false,
    undo: false,
    undoing: false,
    failed: false,
};

/// What is kept of a place with so many objects at first.
fn unsaid(objects: usize) -> Ending
    requires { objects ≤ most_objects }
    ensures { result ≡ unsaid objects }
{
    Ending {
        untried: objects as u16,
        ..NO_ENDING
    }
}

/// The outcome of the first row whose conditions all hold, else the last one.
macro_rules! first_case {
    ($($($condition:expr),+ => $outcome:expr,)+ else => $last:expr $(,)?) => {
        $(if $($condition)&&+ { $outcome } else)+ { $last }
    };
}

/// The number of the role that a participant plays in a place.
fn role_in(plan: &Plan, place: Place, by: Participant) -> usize
    requires { member by (roles_of plan.now place) ≡ true }
    ensures number { result ≡ role_number plan.now place by }
    ensures low { result < most_roles }
{
    plan.is_closed();
    match plan.role_of(place, by) {
        Some(role) => role as usize,
        None => unreachable!(),
    }
}

/// Whether some verdict is undo, after one more.
fn undo_after(before: bool, verdict: Verdict) -> bool
    ensures { result ≡ (before || is_undo (Some verdict)) }
{
    before || matches!(verdict, Verdict::Undo)
}

/// Whether some restore failed, after one more.
fn failed_after(before: bool, well: bool) -> bool
    ensures { result ≡ (before || not well) }
{
    before || !well
}

/// What is kept of a place where a participant, whose role has this number, gives its verdict.
fn having_said(row: Ending, role: usize, by: Participant, verdict: Verdict) -> Ending
    requires low { role < most_roles }
    requires known { by < 64 }
    requires short { SignalsBelow 256 verdict }
    ensures { Gives role by verdict row result }
{
    let mut said = row.said;
    said[role] = Said::of(verdict);
    Ending {
        given: with(row.given, by),
        said,
        undo: undo_after(row.undo, verdict),
        ..row
    }
}

/// What is kept of a place where a participant, whose role has this number, gives up.
fn having_given_up(row: Ending, role: usize, by: Participant, name: Option<u8>) -> Ending
    requires low { role < most_roles }
    requires known { by < 64 }
    ensures { GivesUp role by name row result }
{
    let mut named = row.named;
    named[role] = name;
    Ending {
        aborted: with(row.aborted, by),
        named,
        ..row
    }
}

/// The number of an exception in a byte, if there is one.
fn in_a_byte(exception: Option<Exception>) -> Option<u8>
    requires { IfSome exception (λ x. x < 256) }
    ensures { result ≡ exception }
{
    match exception {
        Some(exception) => Some(exception as u8),
        None => None,
    }
}

/// The outcome of an agreement, by the least cover of what is signalled.
fn agreed(signalled: Option<Exception>) -> Outcome
    ensures { result ≡ agreed_outcome signalled }
{
    match signalled {
        Some(exception) => Outcome::Signal(exception),
        None => Outcome::Commit,
    }
}

impl Endings {
    /// Nothing is raised or said anywhere, and no object has a restore.
    pub fn open(alloc: Global, plan: &Plan) -> Result<Endings, OutOfMemory>
        ensures { IfOk result (λ e. StandsFor plan.now [] e) }
    {
        plan.is_closed();
        let mut places = Vec::new(alloc);
        for place in 0..plan.places() {
            places.push(unsaid(plan.objects_of(place).len()))?;
        }
        Ok(Endings { places })
    }

    // ---- dooms

    /// Something is raised in a place for the first time, which dooms every place inside. The verdicts of the place are still there.
    pub fn doom(&mut self, plan: &Plan, place: Place)
        requires { place < length self.old }
        ensures marked { self.new ≡ slice_set self.old place (marked (at self.old place)) }
        ensures dooms { (p : ℕ) → doomed_kept plan.now self.new p ≡ (member place (around plan.now p) || doomed_kept plan.now self.old p) }
        ensures keeps { (past : List EntryValue) (e : EntryValue) → StandsFor plan.now past self.old → RaisesFirst plan.now past e place
            → StandsBut plan.now (e ∷ past) place self.new }
    {
        plan.is_closed();
        self.mark(place);
    }

    /// Whether something was raised in a place.
    #[inline(always)]
    pub fn is_raised(&self, place: Place) -> bool
        ensures kept { result ≡ (at self.now place).raised }
        ensures stands { (plan : PlanValue) (past : List EntryValue) → StandsFor plan past self.now → result ≡ is_raised plan past place }
    {
        self.row(place).raised
    }

    /// Whether something was raised in a place round this one.
    pub fn is_doomed(&self, plan: &Plan, place: Place) -> bool
        ensures kept { result ≡ doomed_kept plan.now self.now place }
        ensures stands { (past : List EntryValue) → StandsFor plan.now past self.now → result ≡ is_doomed plan.now past place }
    {
        self.is_inside_raised(plan, place)
    }

    // ---- verdicts

    /// Drops the verdicts of a place, where something was raised there for the first time.
    pub fn clear(&mut self, place: Place)
        requires { place < length self.old }
        ensures cleared { self.new ≡ slice_set self.old place (cleared (at self.old place)) }
        ensures keeps { (plan : PlanValue) (past : List EntryValue) → StandsBut plan past place self.old → NoneCounts plan past place
            → StandsFor plan past self.new }
    {
        self.drop_verdicts(place);
    }

    /// A participant gives its verdict in a place.
    pub fn verdict(&mut self, plan: &Plan, place: Place, by: Participant, verdict: Verdict)
        requires may { MaySay plan.now self.old place by }
        requires fresh { has_bit (at self.old place).given by ≡ false }
        requires in_range { SignalsBelow (interface_of plan.now place).count verdict }
        ensures given { ChangesAt (Gives (role_number plan.now place by) by verdict) place self.old self.new }
        ensures keeps { (past : List EntryValue) (e : EntryValue) → StandsFor plan.now past self.old
            → Says plan.now past e place by verdict → StandsFor plan.now (e ∷ past) self.new }
    {
        plan.is_closed();
        plan.interface(place).is_sound();
        let row = having_said(self.row(place), role_in(plan, place, by), by, verdict);
        self.set(place, row);
    }

    /// Whether a participant has a verdict in a place that counts.
    #[inline(always)]
    pub fn has_given(&self, place: Place, by: Participant) -> bool
        ensures kept { result ≡ has_bit (at self.now place).given by }
        ensures stands { (plan : PlanValue) (past : List EntryValue) → StandsFor plan past self.now → result ≡ has_given plan past place by }
    {
        is_in(self.row(place).given, by)
    }

    /// The verdict of a participant in a place, where it has one that counts.
    pub fn given(&self, plan: &Plan, place: Place, by: Participant) -> Option<Verdict>
        requires { member by (roles_of plan.now place) ≡ true }
        ensures kept { result ≡ given_kept plan.now place by (at self.now place) }
        ensures stands { (past : List EntryValue) → StandsFor plan.now past self.now → result ≡ given_by plan.now past place by }
    {
        self.verdict_given(plan, place, by)
    }

    /// Whether a verdict that counts in a place is undo.
    #[inline(always)]
    pub fn wants_undo(&self, place: Place) -> bool
        ensures kept { result ≡ (at self.now place).undo }
        ensures stands { (plan : PlanValue) (past : List EntryValue) → StandsFor plan past self.now → all_have_given plan past place ≡ true
            → result ≡ wants_undo plan past place }
    {
        self.row(place).undo
    }

    /// The least cover of what the roles of a place signal, if one does.
    pub fn least_signalled(&self, plan: &Plan, place: Place) -> Option<Exception>
        requires { AreKnown plan.now place (at self.now place) }
        ensures kept { IsCoverOf (interface_of plan.now place)
            (signals_kept plan.now place (at self.now place) (roles_of plan.now place)) result }
        ensures stands { (past : List EntryValue) → StandsFor plan.now past self.now → all_have_given plan.now past place ≡ true
            → IsCoverOf (interface_of plan.now place) (signals past place (roles_of plan.now place)) result }
    {
        self.joined_signals(plan, place)
    }

    // ---- aborts

    /// A participant gives up in a place, and may name an exception.
    pub fn abort(
        &mut self,
        plan: &Plan,
        place: Place,
        by: Participant,
        exception: Option<Exception>,
    )
        requires may { MaySay plan.now self.old place by }
        requires fresh { has_bit (at self.old place).aborted by ≡ false }
        requires in_range { IfSome exception (λ x. x < (interface_of plan.now place).count) }
        ensures aborted { ChangesAt (GivesUp (role_number plan.now place by) by exception) place self.old self.new }
        ensures keeps { (past : List EntryValue) (e : EntryValue) → StandsFor plan.now past self.old → Aborts e place by exception
            → StandsFor plan.now (e ∷ past) self.new }
    {
        plan.is_closed();
        plan.interface(place).is_sound();
        let row = having_given_up(
            self.row(place),
            role_in(plan, place, by),
            by,
            in_a_byte(exception),
        );
        self.set(place, row);
    }

    /// Whether a participant has given up in a place of the plan.
    #[inline(always)]
    pub fn has_aborted(&self, plan: &Plan, place: Place, by: Participant) -> bool
        ensures kept { result ≡ has_bit (at self.now place).aborted by }
        ensures stands { (past : List EntryValue) → StandsFor plan.now past self.now → result ≡ has_aborted past place by }
    {
        plan.is_closed();
        is_in(self.row(place).aborted, by)
    }

    /// Whether some role of a place has given up.
    #[inline(always)]
    pub fn has_aborts(&self, place: Place) -> bool
        ensures kept { result ≡ not ((at self.now place).aborted == 0) }
        ensures stands { (plan : PlanValue) (past : List EntryValue) → StandsFor plan past self.now → result ≡ has kind.Abort past place }
    {
        self.row(place).aborted != 0
    }

    /// What a participant that has given up in a place named in it.
    pub fn abort_of(&self, plan: &Plan, place: Place, by: Participant) -> Option<Exception>
        requires role { member by (roles_of plan.now place) ≡ true }
        requires aborted { has_bit (at self.now place).aborted by ≡ true }
        ensures kept { result ≡ name_kept plan.now place by (at self.now place) }
        ensures stands { (past : List EntryValue) → StandsFor plan.now past self.now
            → result ≡ name_in (newest (is_by kind.Abort place by) past) }
    {
        self.named_by(plan, place, by)
    }

    // ---- undo

    /// A place is to be undone.
    pub fn start_undo(&mut self, place: Place)
        requires { place < length self.old }
        ensures undoing { self.new ≡ slice_set self.old place (turned_back (at self.old place)) }
        ensures keeps { (plan : PlanValue) (past : List EntryValue) (e : EntryValue) → StandsFor plan past self.old → TurnsBack e place
            → StandsFor plan (e ∷ past) self.new }
    {
        self.turn_back(place);
    }

    /// Whether a place is being undone, or was.
    #[inline(always)]
    pub fn is_undoing(&self, place: Place) -> bool
        ensures kept { result ≡ (at self.now place).undoing }
        ensures stands { (plan : PlanValue) (past : List EntryValue) → StandsFor plan past self.now → result ≡ is_undoing past place }
    {
        self.row(place).undoing
    }

    /// The least object of a place that has no restore there, if there is one.
    pub fn next_restore(&self, plan: &Plan, place: Place) -> Option<Object>
        ensures kept { result ≡ slice_get (objects_of plan.now place) (tried_kept plan.now place (at self.now place)) }
        ensures stands { (past : List EntryValue) → StandsFor plan.now past self.now → result ≡ next_restore plan.now past place }
    {
        plan.is_closed();
        self.first_untried(plan, place)
    }

    /// The next object of a place gets its restore, well or not.
    pub fn restored(&mut self, place: Place, well: bool)
        requires there { place < length self.old }
        requires undoing { (at self.old place).undoing ≡ true }
        requires some { 0 < (at self.old place).untried }
        ensures tried { self.new ≡ slice_set self.old place (tried_once_more well (at self.old place)) }
        ensures keeps { (plan : PlanValue) (past : List EntryValue) (e : EntryValue) → StandsFor plan past self.old
            → Restores plan self.old e place well → StandsFor plan (e ∷ past) self.new }
    {
        self.try_next(place, well);
    }

    /// Whether the device refused a restore of a place.
    #[inline(always)]
    pub fn has_failed(&self, place: Place) -> bool
        ensures kept { result ≡ (at self.now place).failed }
        ensures stands { (plan : PlanValue) (past : List EntryValue) → StandsFor plan past self.now → result ≡ has_failed past place }
    {
        self.row(place).failed
    }

    // ---- the outcome

    /// How a place ends: once each object was tried by how its undo went, else by the verdicts of its roles.
    pub fn conclude(&self, plan: &Plan, place: Place) -> Outcome
        requires ready { IsReady plan.now place (at self.now place) }
        requires known { AreKnown plan.now place (at self.now place) }
        ensures concludes { Concludes plan.now place (at self.now place) result }
        ensures stands { (past : List EntryValue) (e : EntryValue) → StandsFor plan.now past self.now → SaysOutcome e place result
            → IsRightEnd plan.now past e }
    {
        self.outcome(plan, place)
    }
}

// What the calls do to the rows; what that means for the journal is said at the calls.
impl Endings {
    /// What is kept of a place.
    #[inline(always)]
    fn row(&self, place: Place) -> Ending
        ensures { result ≡ at self.now place }
    {
        match self.places.get(place as usize) {
            Some(row) => *row,
            None => NO_ENDING,
        }
    }

    /// Puts another row in the place of one.
    fn set(&mut self, place: Place, row: Ending)
        requires { place < length self.old }
        ensures { self.new ≡ slice_set self.old place row }
    {
        self.places[place as usize] = row;
    }

    /// Whether a place round this one is marked.
    fn is_inside_raised(&self, plan: &Plan, place: Place) -> bool
        ensures { result ≡ doomed_kept plan.now self.now place }
    {
        plan.around(place)
            .iter()
            .any(|outer| self.row(*outer).raised)
    }

    /// Notes that something was raised in a place.
    fn mark(&mut self, place: Place)
        requires { place < length self.old }
        ensures { self.new ≡ slice_set self.old place (marked (at self.old place)) }
    {
        self.places[place as usize].raised = true;
    }

    /// Forgets who has given a verdict in a place.
    fn drop_verdicts(&mut self, place: Place)
        requires { place < length self.old }
        ensures { self.new ≡ slice_set self.old place (cleared (at self.old place)) }
    {
        let row = &mut self.places[place as usize];
        row.given = 0;
        row.undo = false;
    }

    /// The verdict of a participant in a place, where one that counts is kept.
    fn verdict_given(&self, plan: &Plan, place: Place, by: Participant) -> Option<Verdict>
        requires { member by (roles_of plan.now place) ≡ true }
        ensures { result ≡ given_kept plan.now place by (at self.now place) }
    {
        let row = self.row(place);
        if is_in(row.given, by) {
            Some(row.said[role_in(plan, place, by)].verdict())
        } else {
            None
        }
    }

    /// What a participant signals in a place, if it does.
    fn signalled_by(&self, plan: &Plan, place: Place, by: Participant) -> Option<Exception>
        requires { member by (roles_of plan.now place) ≡ true }
        ensures { as_list result ≡ signal_in (given_kept plan.now place by (at self.now place)) }
    {
        match self.verdict_given(plan, place, by) {
            Some(Verdict::Signal(exception)) => Some(exception),
            _ => None,
        }
    }

    /// The least cover of what the roles of a place signal, which goes on from the last role to the first.
    fn joined_signals(&self, plan: &Plan, place: Place) -> Option<Exception>
        requires { AreKnown plan.now place (at self.now place) }
        ensures { IsCoverOf (interface_of plan.now place)
            (signals_kept plan.now place (at self.now place) (roles_of plan.now place)) result }
    {
        let graph = plan.interface(place);
        graph.is_sound();
        let roles = plan.roles_of(place);
        let mut cover = None;
        for index in (0..roles.len()).rev() {
            if let Some(exception) = self.signalled_by(plan, place, roles[index]) {
                cover = Some(joined(graph, cover, exception));
            }
        }
        cover
    }

    /// The exception that is kept as named by a participant in a place.
    fn named_by(&self, plan: &Plan, place: Place, by: Participant) -> Option<Exception>
        requires { member by (roles_of plan.now place) ≡ true }
        ensures { result ≡ name_kept plan.now place by (at self.now place) }
    {
        match self.row(place).named[role_in(plan, place, by)] {
            Some(exception) => Some(exception as u32),
            None => None,
        }
    }

    /// Notes that a place is to be undone.
    fn turn_back(&mut self, place: Place)
        requires { place < length self.old }
        ensures { self.new ≡ slice_set self.old place (turned_back (at self.old place)) }
    {
        self.places[place as usize].undoing = true;
    }

    /// The object of a place that comes after those that were tried.
    fn first_untried(&self, plan: &Plan, place: Place) -> Option<Object>
        ensures { result ≡ slice_get (objects_of plan.now place) (tried_kept plan.now place (at self.now place)) }
    {
        let objects = plan.objects_of(place);
        let tried = objects
            .len()
            .saturating_sub(self.row(place).untried as usize);
        objects.get(tried).copied()
    }

    /// Counts one object more that was tried.
    fn try_next(&mut self, place: Place, well: bool)
        requires there { place < length self.old }
        requires some { 0 < (at self.old place).untried }
        ensures { self.new ≡ slice_set self.old place (tried_once_more well (at self.old place)) }
    {
        let row = &mut self.places[place as usize];
        row.untried -= 1;
        row.failed = failed_after(row.failed, well);
    }

    /// The outcome by the table of cases.
    fn outcome(&self, plan: &Plan, place: Place) -> Outcome
        requires { AreKnown plan.now place (at self.now place) }
        ensures { Concludes plan.now place (at self.now place) result }
    {
        let row = self.row(place);
        first_case! {
            row.undoing, row.failed => Outcome::Failed,
            row.undoing, row.aborted != 0 => Outcome::Aborted,
            row.undoing => Outcome::Undone,
            else => agreed(self.joined_signals(plan, place)),
        }
    }
}
