//! The rules of a draft are asked in the order of their numbers, and memory is taken only once all of them hold. A few lines can
//! unfold into billions of places, so places and bound are counted before anything is unfolded. That all actions of a use have one
//! interface graph is asked last.
//!
//! A draft may have tens of thousands of plays. That nobody plays two roles is asked by comparing each participant with those
//! behind it, since at most sixteen play one action.

ghost use Rattle.std.specs.Prelude.{◌≡◌, None, Some, IfOk, IfSome, MatchOption, MatchResult, is_some};
ghost use Rattle.place_plan.specs.Plans.Bound.{bound};
ghost use Rattle.place_plan.specs.Plans.Unfolding.{plan_of};
ghost use Rattle.place_plan.specs.Drafts.DraftRules.{bound_rule, broken_rule, KeepsParts};
ghost use Rattle.place_plan.specs.Plans.Weights.{counted};

use crate::drafts::depth::keeps_depth;
use crate::drafts::draft::Draft;
use crate::drafts::fitting::{keeps_graphs, keeps_sizes};
use crate::drafts::ranges::keeps_ranges;
use crate::drafts::uses::{
    keeps_enters, keeps_faces, keeps_fillings, keeps_handlers, keeps_objects, keeps_order,
};
use crate::plans::unfolded::{Size, unfolded};
use caa_base::written::limits::{MOST_ENTRIES, MOST_PLACES};

/// The least rule of a number below 10 that a draft breaks, as `Plan::close` tells the rules. Where it is none, the draft may be
/// asked how much it unfolds into. No memory is taken.
pub fn broken_part(draft: &Draft) -> Option<u32>
    ensures { MatchOption result (KeepsParts draft.now) (λ rule. broken_rule draft.now ≡ Some rule) }
{
    if !keeps_sizes(draft) {
        Some(1)
    } else if !keeps_graphs(draft) {
        Some(2)
    } else if !keeps_ranges(draft) {
        Some(3)
    } else if !keeps_order(draft) {
        Some(4)
    } else if !keeps_fillings(draft) {
        Some(5)
    } else if !keeps_enters(draft) {
        Some(6)
    } else if !keeps_objects(draft) {
        Some(7)
    } else if !keeps_depth(draft) {
        Some(8)
    } else if !keeps_handlers(draft) {
        Some(9)
    } else {
        None
    }
}

/// Whether a draft unfolds into no more places, and no longer journals, than the limits allow.
fn keeps_bound(draft: &Draft) -> bool
    requires { KeepsParts draft.now }
    ensures { result ≡ bound_rule draft.now }
{
    let size = unfolded(draft);
    size.places <= MOST_PLACES && size.bound <= MOST_ENTRIES
}

/// The least rule that a draft breaks, as `Plan::close` tells the rules. No memory is taken.
pub fn broken_rule(draft: &Draft) -> Option<u32>
    ensures { result ≡ broken_rule draft.now }
{
    if let Some(rule) = broken_part(draft) {
        Some(rule)
    } else if !keeps_bound(draft) {
        Some(10)
    } else if !keeps_faces(draft) {
        Some(11)
    } else {
        None
    }
}
