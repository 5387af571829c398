ghost use Rattle.std.specs.Prelude.{◌≡◌, ◌<◌, ◌&&◌, length, reverse};
ghost use Rattle.std.specs.List.{list_any};
ghost use Rattle.place_plan.specs.Plans.Places.{is_within};
ghost use Rattle.place_plan.specs.RulesOfJournals.Objects.{restores, writes, value_of};

use crate::plans::plan::Plan;
use caa_base::written::entry::{Entry, Kind, Object, Place};

/// The value of an object after these entries: that of its last write that no later restore took back, else its initial value.
pub fn value_at(plan: &Plan, entries: &[Entry], object: Object) -> i64
    requires { object < length plan.now.objects }
    ensures { result ≡ value_of plan.now (reverse entries.now) object }
{
    for index in (0..entries.len()).rev() {
        let entry = &entries[index];
        if writes(entry, object) && !is_restored(plan, &entries[index + 1..], entry.place, object) {
            return entry.value;
        }
    }
    plan.initial(object)
}

/// Whether one of these entries restores the object in this place or in one round it, and the device took it.
fn is_restored(plan: &Plan, entries: &[Entry], place: Place, object: Object) -> bool
    ensures { result ≡ list_any (λ e. restores object e && is_within plan.now place e.place) entries.now }
{
    entries.iter().any(|entry| restores(entry, object) && plan.is_within(place, entry.place))
}

/// Whether an entry restores the object, and the device took it.
pub fn restores(entry: &Entry, object: Object) -> bool
    ensures { result ≡ restores object entry.now }
{
    entry.kind == Kind::Restore && entry.arg == object && entry.mark == 0
}

/// Whether an entry writes the object.
pub fn writes(entry: &Entry, object: Object) -> bool
    ensures { result ≡ writes object entry.now }
{
    entry.kind == Kind::Write && entry.arg == object
}
