ghost use Rattle.std.specs.Prelude.{◌≡◌, ◌≤◌, ◌+◌, ℕ, ◌<◌, true, length, slice_index_or, sum_by};
ghost use Rattle.caa_base.specs.Written.Limits.{most_actions, most_depth};
ghost use Rattle.place_plan.specs.Plans.Places.{no_action};
ghost use Rattle.place_plan.specs.Plans.Bound.{bound};
ghost use Rattle.place_plan.specs.Plans.Unfolding.{plan_of};
ghost use Rattle.place_plan.specs.Drafts.DraftRules.{KeepsParts};
ghost use Rattle.place_plan.specs.Plans.Weights.{counted, at, nested_weight, own_entries, weight, played_weight};
ghost use Rattle.place_plan.specs.inner.Tables.{Tells, are_nests_known};

use crate::drafts::draft::Draft;
use crate::drafts::draft_rows::{ActionRow, NestRow, PlayRow};
use crate::plans::bound::own_bound;
use crate::plans::tables::{Table, counted_sum, number_at};
use caa_base::written::limits::{MOST_ACTIONS, MOST_DEPTH};

/// How much a draft unfolds into.
#[derive(Clone, Copy)]
pub struct Size {
    /// How many places the plan has, as far as they are counted: no further than `MOST_COUNTED`.
    pub places: u64,
    /// How many entries a journal of the plan has at most, counted in the same way.
    pub bound: u64,
}

/// The sum of the weights of these actions, by a table.
fn weight_of(actions: &[u32], weights: &[u64]) -> u64
    ensures { result ≡ counted (sum_by (at weights.now) actions.now) }
{
    let mut sum = 0;
    for action in actions {
        sum = counted_sum(sum, number_at(weights, *action));
    }
    sum
}

/// The sum of the weights of all actions of nested uses, by a table.
pub(crate) fn nested_weight(nests: &[NestRow], weights: &[u64]) -> u64
    ensures { result ≡ counted (nested_weight (at weights.now) nests.now) }
{
    let mut sum = 0;
    for nest in nests {
        sum = counted_sum(sum, weight_of(nest.actions.as_slice(), weights));
    }
    sum
}

/// The weights of all actions, with what is nested in them one level deeper than in these.
fn one_level_deeper(actions: &[ActionRow], own: &[u64], weights: &[u64]) -> Table
    requires { length actions.now ≤ most_actions }
    ensures { (a : ℕ) → a < length actions.now →
        at result a ≡ counted (at own.now a + nested_weight (at weights.now) (slice_index_or actions.now a no_action).nests) }
{
    let mut table = [0; MOST_ACTIONS];
    for (number, action) in actions.iter().enumerate() {
        let nested = nested_weight(action.nests.as_slice(), weights);
        table[number] = counted_sum(number_at(own, number as u32), nested);
    }
    table
}

/// The weights of all actions with all that is nested in them, where each instance has the weight that the table gives its action.
fn weights_of(actions: &[ActionRow], own: &[u64]) -> Table
    requires few { length actions.now ≤ most_actions }
    requires known { are_nests_known actions.now ≡ true }
    ensures { Tells actions.now result (weight own.now most_depth actions.now) }
{
    let mut table = [0; MOST_ACTIONS];
    for level in 0..MOST_DEPTH {
        table = one_level_deeper(actions, own, &table);
    }
    table
}

/// The weight of all plays, by a table.
fn played_weight(plays: &[PlayRow], weights: &[u64]) -> u64
    ensures { result ≡ counted (played_weight (at weights.now) plays.now) }
{
    let mut sum = 0;
    for play in plays {
        sum = counted_sum(sum, number_at(weights, play.action));
    }
    sum
}

/// How many entries an instance of each action may have, what is nested in it aside.
fn own_bounds(actions: &[ActionRow]) -> Table
    requires { length actions.now ≤ most_actions }
    ensures { Tells actions.now result (λ a. own_entries (slice_index_or actions.now a no_action)) }
{
    let mut table = [0; MOST_ACTIONS];
    for (number, action) in actions.iter().enumerate() {
        table[number] = own_bound(action);
    }
    table
}

/// How much a draft unfolds into, counted action by action: nothing is unfolded, and no memory is taken.
///
/// The draft breaks none of the rules 1 to 9: `broken_part` tells.
pub fn unfolded(draft: &Draft) -> Size
    requires { KeepsParts draft.now }
    ensures places { result.places ≡ counted (length (plan_of draft.now).places) }
    ensures bound { result.bound ≡ counted (bound (plan_of draft.now)) }
{
    let actions = draft.actions.as_slice();
    let plays = draft.plays.as_slice();
    let ones = [1; MOST_ACTIONS];
    let places = weights_of(actions, &ones);
    let own = own_bounds(actions);
    let bounds = weights_of(actions, &own);
    Size {
        places: played_weight(plays, &places),
        bound: played_weight(plays, &bounds),
    }
}
