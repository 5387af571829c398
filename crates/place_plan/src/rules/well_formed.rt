ghost use Rattle.std.specs.Prelude.{◌↔◌, ◌<◌, IsTrue};
ghost use Rattle.place_plan.specs.Plans.Places.{graph_at};
ghost use Rattle.place_plan.specs.RulesOfJournals.Rules.{IsPlain};
ghost use Rattle.place_plan.specs.RulesOfJournals.WellFormed.{ShowsObject, ShowsException, MayShowException, MayCarry, FieldsFit, IsWellFormed};

use crate::plans::plan::Plan;
use caa_base::written::entry::{Entry, Kind, Place};
use caa_base::written::limits::{MOST_COUNT, is_value};

/// Whether an entry is well formed: its place and its maker are of the plan, and its other fields fit its kind.
pub fn is_well_formed(plan: &Plan, entry: &Entry) -> bool
    ensures { IsTrue result ↔ IsWellFormed plan.now entry.now }
{
    entry.place < plan.places() && entry.by < plan.participants() && fields_fit(plan, entry)
}

/// Whether the fields of an entry fit its kind.
fn fields_fit(plan: &Plan, entry: &Entry) -> bool
    ensures { IsTrue result ↔ FieldsFit entry.now.kind plan.now entry.now }
{
    match entry.kind {
        Kind::Read | Kind::Write | Kind::PutFault => shows_object(plan, entry) && entry.mark == 0,
        Kind::Work => entry.arg <= MOST_COUNT && entry.mark == 0 && is_value(entry.value),
        Kind::Raise | Kind::Resolve | Kind::Handle => {
            shows_exception(plan, plan.internal_number(entry.place), entry)
        },
        Kind::Verdict => may_show_exception(plan, plan.interface_number(entry.place), 3, entry),
        Kind::Abort => may_show_exception(plan, plan.interface_number(entry.place), 2, entry),
        Kind::Restore => shows_object(plan, entry) && entry.mark < 2,
        Kind::End => may_show_exception(plan, plan.interface_number(entry.place), 5, entry),
        Kind::Leave => may_carry(plan, plan.parent(entry.place), entry),
        Kind::Arrive | Kind::Withdraw | Kind::Start | Kind::Check | Kind::Inform | Kind::Undo => {
            is_plain(entry)
        },
    }
}

/// Whether an entry says nothing beside its kind, place and maker: its three further fields are 0.
fn is_plain(entry: &Entry) -> bool
    ensures { IsTrue result ↔ IsPlain entry.now }
{
    entry.arg == 0 && entry.mark == 0 && entry.value == 0
}

/// Whether an entry says an object and its value.
fn shows_object(plan: &Plan, entry: &Entry) -> bool
    ensures { IsTrue result ↔ ShowsObject plan.now entry.now }
{
    entry.arg < plan.objects() && is_value(entry.value)
}

/// Whether an entry says an exception of this graph alone.
fn shows_exception(plan: &Plan, graph: u32, entry: &Entry) -> bool
    ensures { IsTrue result ↔ ShowsException (graph_at plan.now graph) entry.now }
{
    entry.arg < plan.exceptions_of(graph) && entry.mark == 0 && entry.value == 0
}

/// Whether an entry says an exception of this graph at mark 1, and at the other marks, which are fewer than this, nothing.
fn may_show_exception(plan: &Plan, graph: u32, marks: u32, entry: &Entry) -> bool
    ensures { IsTrue result ↔ MayShowException (graph_at plan.now graph) 1 marks entry.now }
{
    let arg_fits = if entry.mark == 1 {
        entry.arg < plan.exceptions_of(graph)
    } else {
        entry.arg == 0
    };
    entry.mark < marks && arg_fits && entry.value == 0
}

/// Whether a leave may carry what it says into the outer place.
fn may_carry(plan: &Plan, outer: Option<Place>, entry: &Entry) -> bool
    ensures { IsTrue result ↔ MayCarry plan.now outer entry.now }
{
    match outer {
        Some(place) => may_show_exception(plan, plan.internal_number(place), 2, entry),
        None => is_plain(entry),
    }
}
