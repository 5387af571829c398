//! How deep an action is and how much it unfolds into, by the numbers of the actions before it.

ghost use Rattle.std.specs.Prelude.{◌≡◌, ◌+◌};
ghost use Rattle.place_plan.specs.Drafts.DraftRules.{deepest};
ghost use Rattle.place_plan.specs.Plans.Weights.{counted, at, nested_weight, own_entries};

use crate::drafts::depth::deepest;
use crate::drafts::draft_rows::{ActionRow, NestRow};
use crate::plans::bound::own_bound;
use crate::plans::tables::counted_sum;
use crate::plans::unfolded::nested_weight;

/// The depth of an action with these nested uses, by the depths of the actions before it.
pub fn depth_with(nests: &[NestRow], depths: &[u64]) -> u64
    ensures { result ≡ counted (1 + deepest (at depths.now) nests.now) }
{
    counted_sum(1, deepest(nests, depths))
}

/// How many places an instance of an action with these nested uses comes to, by those of the actions before it.
pub fn places_with(nests: &[NestRow], places: &[u64]) -> u64
    ensures { result ≡ counted (1 + nested_weight (at places.now) nests.now) }
{
    counted_sum(1, nested_weight(nests, places))
}

/// How many entries an instance of an action may have with all that is nested in it, by those of the actions before it.
pub fn bound_with(action: &ActionRow, bounds: &[u64]) -> u64
    ensures { result
        ≡ counted (own_entries action.now + nested_weight (at bounds.now) action.now.nests) }
{
    counted_sum(
        own_bound(action),
        nested_weight(action.nests.as_slice(), bounds),
    )
}
