ghost use Rattle.std.specs.Prelude.{◌≡◌, ◌<◌, List, [], ◌∷◌, true, length, slice_set, None, IfOk};
ghost use Rattle.caa_base.specs.Written.Limits.{most_depth};
ghost use Rattle.caa_base.specs.declared.written.entry.Entry.{Entry as EntryValue};
ghost use Rattle.place_plan.specs.Plans.PlanValue.{Plan as PlanValue};
ghost use Rattle.place_plan.specs.Plans.Places.{parent, objects_of, uses};
ghost use Rattle.place_plan.specs.RulesOfJournals.Whereabouts.{is_live};
ghost use Rattle.place_plan.specs.RulesOfJournals.Objects.{value_of, before_start};
ghost use Rattle.object_versions.specs.inner.KeptVersions.{at, depth, saved_at, StandsFor};
ghost use Rattle.object_versions.specs.inner.ChangedVersions.{taken, held_by, valued, HasFree, HoldsItsOwn, ChangesEach, Takes, Puts, GivesBack};

use crate::version::Version;
use caa_base::written::entry::{Object, OutOfMemory, Place};
use caa_base::written::limits::MOST_DEPTH;
use place_plan::plans::plan::Plan;
use std::alloc::Global;
use std::marker::Model;

/// What is kept of all objects, seen as the list of it.
#[derive(Drop)]
pub struct Versions {
    versions: Vec<Version>,
}

impl Model for Versions {
    ghost use Rattle.std.specs.Prelude.{List};
    ghost use Rattle.object_versions.specs.declared.version.Version.{Version as VersionValue};

    ghost Value = { List VersionValue };

    ghost view = { λ v. v.versions.items };
}

/// What is kept of an object that nobody holds.
fn untaken(value: i64) -> Version
    ensures value { result.value ≡ value }
    ensures free { result.holder ≡ None }
    ensures room { length result.saved ≡ most_depth }
{
    Version {
        value,
        holder: None,
        saved: [0; MOST_DEPTH as usize],
    }
}

impl Versions {
    /// All objects are free, and have their initial values.
    pub fn open(alloc: Global, plan: &Plan) -> Result<Versions, OutOfMemory>
        ensures { IfOk result (λ v. StandsFor plan.now [] v) }
    {
        let mut versions = Vec::new(alloc);
        for object in 0..plan.objects() {
            versions.push(untaken(plan.initial(object)))?;
        }
        Ok(Versions { versions })
    }

    /// The place that has an object at its disposal; none where the object is free.
    #[inline(always)]
    pub fn holder(&self, object: Object) -> Option<Place>
        requires { object < length self.now }
        ensures { result ≡ (at self.now object).holder }
    {
        self.versions[object as usize].holder
    }

    /// The value of an object.
    #[inline(always)]
    pub fn value(&self, object: Object) -> i64
        requires { object < length self.now }
        ensures { result ≡ (at self.now object).value }
    {
        self.versions[object as usize].value
    }

    /// The value that an object had at the start of a live place that uses it.
    pub fn saved(&self, plan: &Plan, place: Place, object: Object) -> i64
        requires { object < length self.now }
        ensures saved { result ≡ saved_at (at self.now object) (depth plan.now place) }
        ensures at_start { (past : List EntryValue) → StandsFor plan.now past self.now → is_live past place ≡ true
            → uses plan.now place object ≡ true → result ≡ value_of plan.now (before_start past place) object }
    {
        plan.is_closed();
        self.saved_under(object, plan.around(place).len())
    }

    /// The value of an object that is saved under this depth.
    fn saved_under(&self, object: Object, depth: usize) -> i64
        requires known { object < length self.now }
        requires low { depth < most_depth }
        ensures { result ≡ saved_at (at self.now object) depth }
    {
        self.versions[object as usize].saved[depth]
    }

    /// A place takes an object, whose value is saved.
    fn take_one(&mut self, object: Object, place: Place, depth: usize)
        requires known { object < length self.old }
        requires low { depth < most_depth }
        ensures { self.new ≡ slice_set self.old object (taken place depth (at self.old object)) }
    {
        let version = &mut self.versions[object as usize];
        version.holder = Some(place);
        version.saved[depth] = version.value;
    }

    /// A place takes its objects.
    fn take_all(&mut self, plan: &Plan, place: Place)
        requires whole { length self.old ≡ length plan.now.objects }
        ensures { ChangesEach (objects_of plan.now place) (taken place (depth plan.now place)) self.old self.new }
    {
        plan.is_closed();
        let depth = plan.around(place).len();
        for object in plan.objects_of(place) {
            self.take_one(*object, place, depth);
        }
    }

    /// A place that starts takes its objects from the place round it, and their values are saved.
    pub fn take(&mut self, plan: &Plan, place: Place)
        requires whole { length self.old ≡ length plan.now.objects }
        requires free { HasFree plan.now place self.old }
        ensures taken { ChangesEach (objects_of plan.now place) (taken place (depth plan.now place)) self.old self.new }
        ensures keeps { (past : List EntryValue) (e : EntryValue) → StandsFor plan.now past self.old → Takes plan.now past e place
            → StandsFor plan.now (e ∷ past) self.new }
    {
        plan.is_closed();
        self.take_all(plan, place);
    }

    /// An object goes over to another holder.
    fn give_one(&mut self, object: Object, holder: Option<Place>)
        requires { object < length self.old }
        ensures { self.new ≡ slice_set self.old object (held_by holder (at self.old object)) }
    {
        self.versions[object as usize].holder = holder;
    }

    /// The objects of a place go to the place round it.
    fn give_all(&mut self, plan: &Plan, place: Place)
        requires whole { length self.old ≡ length plan.now.objects }
        ensures { ChangesEach (objects_of plan.now place) (held_by (parent plan.now place)) self.old self.new }
    {
        plan.is_closed();
        let outer = plan.parent(place);
        for object in plan.objects_of(place) {
            self.give_one(*object, outer);
        }
    }

    /// A place that ends gives its objects back to the place round it; those of a play are free again.
    pub fn give_back(&mut self, plan: &Plan, place: Place)
        requires whole { length self.old ≡ length plan.now.objects }
        requires held { HoldsItsOwn plan.now place self.old }
        ensures given { ChangesEach (objects_of plan.now place) (held_by (parent plan.now place)) self.old self.new }
        ensures keeps { (past : List EntryValue) (e : EntryValue) → StandsFor plan.now past self.old → GivesBack e place
            → StandsFor plan.now (e ∷ past) self.new }
    {
        self.give_all(plan, place);
    }

    /// An object gets a value.
    fn set(&mut self, object: Object, value: i64)
        requires { object < length self.old }
        ensures { self.new ≡ slice_set self.old object (valued value (at self.old object)) }
    {
        self.versions[object as usize].value = value;
    }

    /// An object gets the value that the device took, by a write or by a restore.
    pub fn write(&mut self, object: Object, value: i64)
        requires { object < length self.old }
        ensures written { self.new ≡ slice_set self.old object (valued value (at self.old object)) }
        ensures keeps { (plan : PlanValue) (past : List EntryValue) (e : EntryValue) → StandsFor plan past self.old
            → Puts plan past e object value → StandsFor plan (e ∷ past) self.new }
    {
        self.set(object, value);
    }
}
