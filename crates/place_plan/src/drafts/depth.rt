ghost use Rattle.std.specs.Prelude.{◌≡◌, ◌≤◌, ◌+◌, ℕ, ◌<◌, true, length, slice_index_or, suc};
ghost use Rattle.caa_base.specs.Written.Limits.{most_actions, most_depth};
ghost use Rattle.place_plan.specs.Plans.Places.{no_action};
ghost use Rattle.place_plan.specs.Drafts.DraftRules.{deepest_of, deepest, depth_within, depth_rule};
ghost use Rattle.place_plan.specs.Plans.Weights.{counted, at};
ghost use Rattle.place_plan.specs.inner.Tables.{Tells, are_nests_known};

use crate::drafts::draft::Draft;
use crate::drafts::draft_rows::{ActionRow, NestRow};
use crate::plans::tables::{Table, counted_sum, number_at};
use caa_base::written::limits::{MOST_ACTIONS, MOST_DEPTH};

/// The greatest depth of these actions, by a table.
fn deepest_of(actions: &[u32], depths: &[u64]) -> u64
    ensures { result ≡ deepest_of (at depths.now) actions.now }
{
    let mut most = 0;
    for action in actions {
        most = most.max(number_at(depths, *action));
    }
    most
}

/// The greatest depth of nested uses, by a table.
pub(crate) fn deepest(nests: &[NestRow], depths: &[u64]) -> u64
    ensures { result ≡ deepest (at depths.now) nests.now }
{
    let mut most = 0;
    for nest in nests {
        most = most.max(deepest_of(nest.actions.as_slice(), depths));
    }
    most
}

/// The depths of all actions, as far as one more level tells than these do.
fn one_level_more(actions: &[ActionRow], depths: &[u64]) -> Table
    requires { length actions.now ≤ most_actions }
    ensures { (a : ℕ) → a < length actions.now →
        at result a ≡ counted (1 + deepest (at depths.now) (slice_index_or actions.now a no_action).nests) }
{
    let mut table = [0; MOST_ACTIONS];
    for (number, action) in actions.iter().enumerate() {
        table[number] = counted_sum(1, deepest(action.nests.as_slice(), depths));
    }
    table
}

/// The depths of all actions, as far as one level more tells than an action may have.
fn depths_of(actions: &[ActionRow]) -> Table
    requires few { length actions.now ≤ most_actions }
    requires known { are_nests_known actions.now ≡ true }
    ensures { Tells actions.now result (depth_within (suc most_depth) actions.now) }
{
    let mut table = [0; MOST_ACTIONS];
    for level in 0..MOST_DEPTH + 1 {
        table = one_level_more(actions, &table);
    }
    table
}

/// Whether no action is deeper than it may be.
pub(crate) fn keeps_depth(draft: &Draft) -> bool
    requires few { length draft.now.actions ≤ most_actions }
    requires known { are_nests_known draft.now.actions ≡ true }
    ensures { result ≡ depth_rule draft.now }
{
    let depths = depths_of(draft.actions.as_slice());
    for number in 0..draft.actions.len() {
        if depths[number] > MOST_DEPTH as u64 {
            return false;
        }
    }
    true
}
